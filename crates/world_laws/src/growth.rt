//! Laws of logs that grow: what units do that no event of the engine names changes nothing of what
//! the engine's log says. Each is the contract of a function that does nothing.

ghost use Rattle.std.specs.Prelude.{◌≡◌, ◌++◌, ℕ};
ghost use Rattle.pblk_model.specs.Image.{Image};
ghost use Rattle.pblk_world.specs.AtRest.{IsAtRest, logs_at, pad_target, victim_now};
ghost use Rattle.pblk_world.specs.Events.{Source};
ghost use Rattle.pblk_world.specs.Legal.{IsLegal};
ghost use Rattle.pblk_world.specs.Orders.{AreAfterResets, AreInOrder, AreOpenedFull, NoneWasLeft};
ghost use Rattle.pblk_world.specs.Reasons.{AreBegun, AreGranted, AreUrgent};
ghost use Rattle.pblk_world.specs.Reasons.{WasAsked, WasBegun, WasRoom, WasUrgent};
ghost use Rattle.pblk_world.specs.World.{World, Logs, log_of};
ghost use Rattle.world_laws.specs.SameTold.{AreSameNamed, AreSameTold, UnitsWentOn};

/// Where the logs of a legal world have grown by what units did alone, each event of the engine
/// still names the same of them: it names no more than was there. Nothing is asked of the longer
/// logs. They may be those of a world that went on with steps of units alone.
///
/// Where the engine's events name the same, the logs are the same at each length of the engine's
/// log.
pub fn what_the_engine_named_stays()
    ensures later { (later w : World) → log_of (later ++ w) 0 ≡ log_of w 0
        → UnitsWentOn (log_of w) (log_of (later ++ w)) }
    ensures grown { (i : Image) (w : World) (other : Logs) → IsLegal i w
        → UnitsWentOn (log_of w) other → AreSameNamed (log_of w) other }
    ensures back { (logs other : Logs) → AreSameNamed logs other → AreSameNamed other logs }
    ensures at { (logs other : Logs) (n : ℕ) → AreSameNamed logs other
        → logs_at n other ≡ logs_at n logs }
{}

/// In which order the engine did its work is told by what its events name: that resets came first,
/// that lines were opened in want of an address and freed at once. So is it that a length of the
/// engine's log is at rest.
pub fn orders_are_by_what_was_named()
    ensures resets { (i : Image) (logs other : Logs) → AreSameNamed logs other
        → AreAfterResets i logs → AreAfterResets i other }
    ensures full { (i : Image) (logs other : Logs) → AreSameNamed logs other
        → AreOpenedFull i logs → AreOpenedFull i other }
    ensures freed { (i : Image) (logs other : Logs) → AreSameNamed logs other
        → NoneWasLeft i logs → NoneWasLeft i other }
    ensures order { (i : Image) (logs other : Logs) → AreSameNamed logs other
        → AreInOrder i logs → AreInOrder i other }
    ensures rest { (i : Image) (logs other : Logs) (asked n : ℕ) → AreSameNamed logs other
        → IsAtRest i logs asked n → IsAtRest i other asked n }
{}

/// The reasons of grants, copies and pads are told by what the engine's events name.
pub fn reasons_are_by_what_was_named()
    ensures room { (i : Image) (logs other : Logs) (n upto : ℕ) → AreSameNamed logs other
        → WasRoom i logs n upto → WasRoom i other n upto }
    ensures copy { (i : Image) (logs other : Logs) (n lba : ℕ) (source : Source)
        → AreSameNamed logs other → WasBegun i logs n lba source → WasBegun i other n lba source }
    ensures asked { (i : Image) (logs other : Logs) (n upto : ℕ) → AreSameNamed logs other
        → WasAsked i logs n upto → WasAsked i other n upto }
    ensures urgent { (i : Image) (logs other : Logs) (n : ℕ) → AreSameNamed logs other
        → WasUrgent i logs n → WasUrgent i other n }
    ensures granted { (i : Image) (logs other : Logs) → AreSameNamed logs other
        → AreGranted i logs → AreGranted i other }
    ensures copies { (i : Image) (logs other : Logs) → AreSameNamed logs other
        → AreBegun i logs → AreBegun i other }
    ensures stripes { (i : Image) (logs other : Logs) → AreSameNamed logs other
        → AreUrgent i logs → AreUrgent i other }
{}

/// The victim now at work, and how far it asks for padding, are by what the engine was told.
pub fn the_victim_is_by_what_was_told()
    ensures victim { (i : Image) (logs other : Logs) → AreSameTold i logs other
        → victim_now i other ≡ victim_now i logs }
    ensures pads { (i : Image) (logs other : Logs) (asked : ℕ) → AreSameTold i logs other
        → pad_target i other asked ≡ pad_target i logs asked }
{}
