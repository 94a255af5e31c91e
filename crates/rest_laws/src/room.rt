//! Laws on the room of a drive: each is the contract of a function that does nothing.

ghost use Rattle.std.specs.Prelude.{◌≡◌, ◌+◌, ◌*◌, ◌/◌, ◌<◌, ◌≤◌, ℕ, suc, if◌then◌else◌, true, false};
ghost use Rattle.std.specs.Prelude.{◌∷◌, length, min};
ghost use Rattle.pblk_model.specs.declared.chunk.Mark.{Mark};
ghost use Rattle.pblk_model.specs.Image.{Image};
ghost use Rattle.pblk_model.specs.LineOrder.{data_len};
ghost use Rattle.pblk_model.specs.Shape.{units};
ghost use Rattle.pblk_model.specs.StartRecord.{StartRecord};
ghost use Rattle.pblk_model.specs.UnitLog.{UnitEvent};
ghost use Rattle.pblk_world.specs.Answering.{MayNoteReset};
ghost use Rattle.pblk_world.specs.AtRest.{IsUnnotedReset};
ghost use Rattle.pblk_world.specs.Events.{EngineEvent, Entry, Free, Open, Place};
ghost use Rattle.pblk_world.specs.Events.{Step, Stripe, Take};
ghost use Rattle.pblk_world.specs.Fronts.{taken, waiting};
ghost use Rattle.pblk_world.specs.Lines.{are_empty, is_given_up, known_image};
ghost use Rattle.pblk_world.specs.Space.{addresses, free_addresses, full_data, placed_front};
ghost use Rattle.pblk_world.specs.World.{Logs, World, log_of};
ghost use Rattle.pblk_world.specs.LegalMounts.{IsLegalMount, NoStripeLost};
ghost use Rattle.pblk_world.specs.Orders.{AreReset};
ghost use Rattle.core_laws.specs.OpenAddresses.{keeps_addresses, keeps_placed};
ghost use Rattle.rest_laws.specs.EngineSteps.{IsEngineStep, NotesReset};
ghost use Rattle.rest_laws.specs.RoomSteps.{free_data, free_lines, has_entry};
ghost use Rattle.rest_laws.specs.RoomSteps.{keeps_free, keeps_room};
ghost use Rattle.rest_laws.specs.RoomSteps.{keeps_unreset, stripes_left, unreset_chunks};
ghost use Rattle.rest_laws.specs.RoomSteps.{unreset_lines};
ghost use Rattle.rest_laws.specs.Tidy.{AreWide};

/// What each step of a legal mount that has begun makes of the unplaced data addresses. A step of a
/// unit leaves them as they are (clause `unit`), and so do most of the engine's (clause `kept`). A
/// stripe with an entry takes as many as it has blocks, and another none (clause `stripe`). A reset
/// gives those of the line of its chunk, where the line is Free once it is noted (clause `reset`).
pub fn stripes_take_addresses_and_resets_give_them()
    ensures unit { (i : Image) (s : Step) (w : World) (unit : ℕ) → IsLegalMount i (s ∷ w)
        → s.author ≡ suc unit → addresses i (log_of (s ∷ w)) ≡ addresses i (log_of w) }
    ensures kept { (i : Image) (s : Step) (w : World) (e : EngineEvent) → IsEngineStep i s w e
        → keeps_room e ≡ true → addresses i (log_of (s ∷ w)) ≡ addresses i (log_of w) }
    ensures stripe { (i : Image) (s : Step) (w : World) (stripe : Stripe)
        → IsEngineStep i s w (Place stripe) → NoStripeLost (log_of w 0)
        → addresses i (log_of w) ≡ addresses i (log_of (s ∷ w))
        + (if has_entry i.shape stripe then i.shape.ws_opt else 0) }
    ensures reset { (i : Image) (s : Step) (w : World) (e : UnitEvent) → NotesReset i s w e
        → addresses i (log_of (s ∷ w)) ≡ addresses i (log_of w)
        + free_data i (log_of (s ∷ w)) e.chunk }
{}

/// The data addresses of the Free lines are those of so many full lines, where no line is narrower
/// than the drive (clause `whole`). A step of a unit leaves them as they are (clause `unit`), and
/// so do most of the engine's (clause `kept`). A line that is opened takes its own (clause
/// `opened`). A reset gives those of the line of its chunk, where the line is Free once it is noted
/// (clause `reset`).
pub fn free_lines_are_opened_and_come_by_resets()
    ensures whole { (i : Image) (logs : Logs) → AreWide (known_image i logs)
        → free_addresses i logs ≡ free_lines i logs * full_data i.shape }
    ensures unit { (i : Image) (s : Step) (w : World) (unit : ℕ) → IsLegalMount i (s ∷ w)
        → s.author ≡ suc unit → free_addresses i (log_of (s ∷ w)) ≡ free_addresses i (log_of w) }
    ensures kept { (i : Image) (s : Step) (w : World) (e : EngineEvent) → IsEngineStep i s w e
        → keeps_free e ≡ true → free_addresses i (log_of (s ∷ w)) ≡ free_addresses i (log_of w) }
    ensures opened { (i : Image) (s : Step) (w : World) (line : ℕ) (start : StartRecord)
        → IsEngineStep i s w (Open line start)
        → free_addresses i (log_of w) ≡ free_addresses i (log_of (s ∷ w))
        + data_len i.shape start.width }
    ensures reset { (i : Image) (s : Step) (w : World) (e : UnitEvent) → NotesReset i s w e
        → free_addresses i (log_of (s ∷ w)) ≡ free_addresses i (log_of w)
        + free_data i (log_of (s ∷ w)) e.chunk }
{}

/// How many lines are to be reset: freed ones and strays with a chunk that isn't yet Free or
/// Offline. A step of a unit leaves their number as it is (clause `unit`), and so do most of the
/// engine's (clause `kept`). A line that is freed is one more (clause `free`). A reset that is
/// noted makes it one less, where all chunks of its line are empty then (clause `reset`). Where no
/// line is narrower than the drive, the unplaced data addresses come in place of the line's: clause
/// `sum`.
pub fn freed_lines_are_to_be_reset()
    ensures unit { (i : Image) (s : Step) (w : World) (unit : ℕ) → IsLegalMount i (s ∷ w)
        → s.author ≡ suc unit → unreset_lines i (log_of (s ∷ w)) ≡ unreset_lines i (log_of w) }
    ensures kept { (i : Image) (s : Step) (w : World) (e : EngineEvent) → IsEngineStep i s w e
        → keeps_unreset e ≡ true
        → unreset_lines i (log_of (s ∷ w)) ≡ unreset_lines i (log_of w) }
    ensures free { (i : Image) (s : Step) (w : World) (line : ℕ) → IsEngineStep i s w (Free line)
        → unreset_lines i (log_of (s ∷ w)) ≡ unreset_lines i (log_of w) + 1 }
    ensures reset { (i : Image) (s : Step) (w : World) (e : UnitEvent) → NotesReset i s w e
        → unreset_lines i (log_of w) ≡ unreset_lines i (log_of (s ∷ w))
        + (if are_empty (known_image i (log_of (s ∷ w))) e.chunk then 1 else 0) }
    ensures sum { (i : Image) (s : Step) (w : World) (e : UnitEvent) → NotesReset i s w e
        → AreWide (known_image i (log_of (s ∷ w)))
        → addresses i (log_of (s ∷ w)) + full_data i.shape * unreset_lines i (log_of (s ∷ w))
        ≡ addresses i (log_of w) + full_data i.shape * unreset_lines i (log_of w) }
{}

/// How many stripes the opened lines have still to get, up to their ends: of their records and of
/// entries. A step of a unit leaves their number as it is (clause `unit`), and so do most of the
/// engine's (clause `kept`). Where no stripe was lost, a stripe that is placed makes it one less
/// (clause `stripe`). A line that is opened adds its own (clause `opened`), and one that is freed
/// adds none (clause `freed`).
pub fn each_stripe_leaves_one_less()
    ensures unit { (i : Image) (s : Step) (w : World) (unit : ℕ) → IsLegalMount i (s ∷ w)
        → s.author ≡ suc unit → stripes_left i (log_of (s ∷ w)) ≡ stripes_left i (log_of w) }
    ensures kept { (i : Image) (s : Step) (w : World) (e : EngineEvent) → IsEngineStep i s w e
        → keeps_addresses e ≡ true → stripes_left i (log_of (s ∷ w)) ≡ stripes_left i (log_of w) }
    ensures stripe { (i : Image) (s : Step) (w : World) (stripe : Stripe)
        → IsEngineStep i s w (Place stripe) → NoStripeLost (log_of w 0)
        → stripes_left i (log_of w) ≡ stripes_left i (log_of (s ∷ w)) + 1 }
    ensures opened { (i : Image) (s : Step) (w : World) (line : ℕ) (start : StartRecord)
        → IsEngineStep i s w (Open line start) → stripes_left i (log_of (s ∷ w))
        ≡ stripes_left i (log_of w) + start.width * i.shape.clba / i.shape.ws_opt }
    ensures freed { (i : Image) (s : Step) (w : World) (line : ℕ) → IsEngineStep i s w (Free line)
        → stripes_left i (log_of (s ∷ w)) ≤ stripes_left i (log_of w) }
{}

/// How many chunks are to be reset: those of freed lines and of strays that aren't yet Free or
/// Offline. They are no more than their lines have (clause `few`). A step of a unit leaves their
/// number as it is (clause `unit`), and so do most of the engine's (clause `kept`). A line that is
/// freed adds one for each unit at most (clause `free`), and a reset that is noted makes it one
/// less (clause `reset`).
pub fn each_reset_leaves_one_chunk_less()
    ensures few { (i : Image) (logs : Logs)
        → unreset_chunks i logs ≤ units i.shape * unreset_lines i logs }
    ensures unit { (i : Image) (s : Step) (w : World) (unit : ℕ) → IsLegalMount i (s ∷ w)
        → s.author ≡ suc unit → unreset_chunks i (log_of (s ∷ w)) ≡ unreset_chunks i (log_of w) }
    ensures kept { (i : Image) (s : Step) (w : World) (e : EngineEvent) → IsEngineStep i s w e
        → keeps_unreset e ≡ true
        → unreset_chunks i (log_of (s ∷ w)) ≡ unreset_chunks i (log_of w) }
    ensures free { (i : Image) (s : Step) (w : World) (line : ℕ) → IsEngineStep i s w (Free line)
        → unreset_chunks i (log_of (s ∷ w)) ≤ unreset_chunks i (log_of w) + units i.shape }
    ensures reset { (i : Image) (s : Step) (w : World) (e : UnitEvent) → NotesReset i s w e
        → unreset_chunks i (log_of w) ≡ unreset_chunks i (log_of (s ∷ w)) + 1 }
{}

/// A reset that may be noted is of a line that is given up and not empty (clauses `given` and
/// `used`). So where no reset is left to be made, none goes unnoted (clause `noted`).
pub fn a_reset_not_noted_is_of_a_line_to_be_reset()
    ensures given { (i : Image) (w : World) (unit number : ℕ) → IsLegalMount i w
        → 0 < length (log_of w 0) → (may : MayNoteReset (log_of w) unit number)
        → is_given_up (log_of w 0) may.reset.chunk ≡ true }
    ensures used { (i : Image) (w : World) (unit number : ℕ) → IsLegalMount i w
        → 0 < length (log_of w 0) → (may : MayNoteReset (log_of w) unit number)
        → are_empty (known_image i (log_of w)) may.reset.chunk ≡ false }
    ensures noted { (i : Image) (w : World) (unit number : ℕ) → IsLegalMount i w
        → 0 < length (log_of w 0) → AreReset i (log_of w)
        → ¬ IsUnnotedReset (log_of w) unit number }
{}

/// Where no stripe was lost, what waits was taken and not placed (clause `waits`). An entry that is
/// taken waits (clause `take`). A stripe with an entry places as many as it has blocks, or all that
/// wait, and another none (clause `stripe`). All else leaves both fronts as they are (clause
/// `kept`).
pub fn what_waits_was_taken_and_not_placed()
    ensures waits { (i : Image) (w : World) → IsLegalMount i w → NoStripeLost (log_of w 0)
        → taken (log_of w 0) ≡ placed_front i.shape (log_of w 0)
        + length (waiting i.shape (log_of w 0)) }
    ensures take { (i : Image) (s : Step) (w : World) (entry : Entry) (mark : Mark)
        → IsEngineStep i s w (Take entry mark)
        → (taken (log_of (s ∷ w) 0) ≡ taken (log_of w 0) + 1)
        × (placed_front i.shape (log_of (s ∷ w) 0) ≡ placed_front i.shape (log_of w 0)) }
    ensures stripe { (i : Image) (s : Step) (w : World) (stripe : Stripe)
        → IsEngineStep i s w (Place stripe) → NoStripeLost (log_of w 0)
        → (taken (log_of (s ∷ w) 0) ≡ taken (log_of w 0))
        × (placed_front i.shape (log_of (s ∷ w) 0) ≡ placed_front i.shape (log_of w 0)
        + (if has_entry i.shape stripe
        then min i.shape.ws_opt (length (waiting i.shape (log_of w 0))) else 0)) }
    ensures kept { (i : Image) (s : Step) (w : World) (e : EngineEvent) → IsEngineStep i s w e
        → keeps_placed e ≡ true → (taken (log_of (s ∷ w) 0) ≡ taken (log_of w 0))
        × (placed_front i.shape (log_of (s ∷ w) 0) ≡ placed_front i.shape (log_of w 0)) }
{}
