//! Laws over worlds: each is the contract of a function that does nothing.

ghost use Rattle.std.specs.Prelude.{◌≡◌, ◌≤◌, ◌<◌, ◌++◌, ℕ, true, false, List, [], ◌∷◌, length, Some, slice_get};
ghost use Rattle.pblk_model.specs.declared.shape.Shape.{Shape};
ghost use Rattle.pblk_model.specs.Image.{Image};
ghost use Rattle.pblk_model.specs.ChunkStep.{Done};
ghost use Rattle.pblk_model.specs.UnitLog.{UnitEvent, Answered};
ghost use Rattle.pblk_world.specs.Events.{Logged, Maker, Step, Decides, Does, Landed};
ghost use Rattle.pblk_world.specs.Makers.{HasMakers};
ghost use Rattle.pblk_world.specs.World.{World, Logs, log_of, known, unit_event_at};
ghost use Rattle.std.specs.Option.{option_to_list};
ghost use Rattle.pblk_world.specs.EngineLog.{Taken, takes, taken_by, answers, answer_by, named_events, named_by, life_of, turned_by, openings, opened_by, placements, placed_by, placed_on};
ghost use Rattle.pblk_world.specs.Fronts.{IsSynced, first_position, has_landed_at, synced, taken};
ghost use Rattle.pblk_world.specs.Legal.{IsLegal};
ghost use Rattle.pblk_world.specs.Victims.{take_before, took_from};

/// After more steps each log is as it was, with more events at its end.
pub fn logs_only_grow()
    ensures { (later w : World) (author : ℕ) → (more : List Logged)
        × (log_of (later ++ w) author ≡ log_of w author ++ more) }
{}

/// Where a world is legal, so is what it was before its last steps.
pub fn a_prefix_is_legal()
    ensures { (i : Image) (later w : World) → IsLegal i (later ++ w) → IsLegal i w }
{}

/// Along a log of a legal world, the lengths of the prefixes that its events name never fall.
pub fn knowledge_never_falls()
    ensures { (i : Image) (w : World) (author other j k : ℕ) (early late : Logged) → IsLegal i w
        → j ≤ k → slice_get (log_of w author) j ≡ Some early
        → slice_get (log_of w author) k ≡ Some late → known early other ≤ known late other }
{}

/// All positions below the front synced have landed. This front is at most the front taken. Where
/// it is below that, its own position hasn't landed.
pub fn a_front_is_synced()
    ensures landed { (s : Shape) (log : List Logged) (q : ℕ) → first_position log ≤ q
        → q < synced s log → has_landed_at s log q ≡ true }
    ensures within { (s : Shape) (log : List Logged) → synced s log ≤ taken log }
    ensures missing { (s : Shape) (log : List Logged) → synced s log < taken log
        → has_landed_at s log (synced s log) ≡ false }
{}

/// At most one front is synced.
pub fn one_front_is_synced()
    ensures { (s : Shape) (log : List Logged) (p q : ℕ) → IsSynced s log p → IsSynced s log q
        → p ≡ q }
{}

/// What one more event adds to what the engine's log says of entries, answers and lines, and which
/// stripe it places.
pub fn an_event_is_added()
    ensures takes { (log : List Logged) (l : Logged)
        → takes (log ++ l ∷ []) ≡ takes log ++ option_to_list (taken_by l.event) }
    ensures answers { (log : List Logged) (l : Logged) (unit : ℕ)
        → answers (log ++ l ∷ []) unit
        ≡ answers log unit ++ option_to_list (answer_by unit l.event) }
    ensures named { (log : List Logged) (l : Logged) (unit : ℕ)
        → named_events (log ++ l ∷ []) unit
        ≡ named_events log unit ++ option_to_list (named_by unit l.event) }
    ensures life { (log : List Logged) (l : Logged) (line : ℕ)
        → life_of (log ++ l ∷ []) line
        ≡ turned_by line (life_of log line) (length log) l.knows l.event }
    ensures openings { (log : List Logged) (l : Logged)
        → openings (log ++ l ∷ [])
        ≡ openings log ++ option_to_list (opened_by (length log) l.knows l.event) }
    ensures placements { (log : List Logged) (l : Logged)
        → placements (log ++ l ∷ [])
        ≡ placements log ++ option_to_list (placed_by log (length log) l.event) }
{}

/// In a legal world a unit has never more answers than stripes were placed on it.
pub fn answers_are_of_stripes()
    ensures { (i : Image) (w : World) (unit : ℕ) → IsLegal i w
        → length (answers (log_of w 0) unit) ≤ length (placed_on (log_of w 0) unit) }
{}

/// In a legal world, what the engine notes as landed is an event of the unit's log, and was done.
pub fn what_landed_was_done()
    ensures { (i : Image) (w : World) (k unit n : ℕ) (l : Logged) → IsLegal i w
        → slice_get (log_of w 0) k ≡ Some l → l.event ≡ Decides (Landed unit n)
        → (e : UnitEvent) × (unit_event_at (log_of w) unit n ≡ Some e)
        × (e.outcome ≡ Answered Done) }
{}

/// Where each command says how many its worker had made before it, the commands of one worker have
/// rising numbers. A world has its newest step first.
pub fn the_numbers_of_a_worker_rise()
    ensures { (w : World) (j k : ℕ) (late early : Step) (e f : UnitEvent) (m n : Maker)
        → HasMakers w → j < k → slice_get w j ≡ Some late → slice_get w k ≡ Some early
        → late.logged.event ≡ Does e m → early.logged.event ≡ Does f n → n.worker ≡ m.worker
        → n.made < m.made }
{}

/// A position took nothing from any line where the sector's entry before it hasn't landed.
pub fn what_has_not_landed_is_not_taken()
    ensures { (i : Image) (logs : Logs) (line : ℕ) (t before : Taken)
        → take_before (logs 0) t ≡ Some before
        → has_landed_at i.shape (logs 0) before.entry.position ≡ false
        → took_from i logs line t ≡ false }
{}
