//! Laws on what is known of a chronicle: each is the contract of a function that does nothing.
ghost use Rattle.std.specs.Prelude.{◌≡◌, ◌≤◌, ◌+◌, ℕ, length, map};
ghost use Rattle.std.specs.List.{Contains, range_with_len};
ghost use Rattle.pblk_model.specs.Image.{Image};
ghost use Rattle.pblk_model.specs.Shape.{units};
ghost use Rattle.pblk_world.specs.Events.{Event as EventOf, Logged};
ghost use Rattle.pblk_world.specs.World.{known, log_of};
ghost use Rattle.chronicle.specs.Prefixes.{AreLegalLogs, Prefixes, logs_of, naming};

/// No event of what anybody knows of a chronicle names more of a log than is known of it.
pub fn what_is_known_is_closed()
    ensures { (i : Image) (logs : Prefixes) (author other : ℕ) (l : Logged) → AreLegalLogs i logs
        → Contains (logs_of logs author) l → known l other ≤ length (logs_of logs other) }
{}

/// An event that is appended names of each log all that its author knows: so it is made as if what
/// its author knows were the whole world.
pub fn an_event_names_what_is_known()
    ensures each { (logs : Prefixes) (e : EventOf) (author : ℕ)
        → known (naming logs e) author ≡ length (logs_of logs author) }
    ensures whole { (i : Image) (logs : Prefixes) (e : EventOf) (k : AreLegalLogs i logs)
        → (naming logs e).knows ≡ map (λ author. length (log_of k.world author))
        (range_with_len 0 (units i.shape + 1)) }
{}
