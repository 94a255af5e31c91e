//! Laws on a mount at rest: each is the contract of a function that does nothing.

ghost use Rattle.std.specs.Prelude.{◌≡◌, ◌+◌, ◌-◌, ◌*◌, ◌≤◌, ◌<◌, ℕ, true, false, Some, []};
ghost use Rattle.std.specs.Prelude.{length, take};
ghost use Rattle.std.specs.List.{Contains, filter, range_with_len};
ghost use Rattle.pblk_model.specs.Image.{Image, width};
ghost use Rattle.pblk_model.specs.Shape.{units};
ghost use Rattle.pblk_model.specs.StartRecord.{StartRecord};
ghost use Rattle.pblk_world.specs.AtRest.{IsCopyDue, IsDue, logs_at, pad_target};
ghost use Rattle.pblk_world.specs.EngineLog.{Begun, Opened, Opening, begun, life_of, openings};
ghost use Rattle.pblk_world.specs.EngineLog.{Placed, is_answered, placements};
ghost use Rattle.pblk_world.specs.Events.{Stripe};
ghost use Rattle.pblk_world.specs.Fronts.{synced, taken, waiting};
ghost use Rattle.pblk_world.specs.Lines.{are_over, found_image, known_image};
ghost use Rattle.pblk_world.specs.Opening.{MayOpen};
ghost use Rattle.pblk_world.specs.Placing.{IsEnd};
ghost use Rattle.pblk_world.specs.Space.{addresses, freed, is_due, open_addresses};
ghost use Rattle.pblk_world.specs.Space.{position_limit, ring_limit, room};
ghost use Rattle.pblk_world.specs.World.{World, log_of};
ghost use Rattle.pblk_world.specs.LegalMounts.{IsLegalMount, NoStripeLost};
ghost use Rattle.core_laws.specs.Spent.{OpensWhenFull};
ghost use Rattle.rest_laws.specs.NewestOpened.{IsLastOpened};
ghost use Rattle.rest_laws.specs.RestingMounts.{IsRestingMount, IsStillMount};
ghost use Rattle.rest_laws.specs.Tidy.{has_free_chunks};
ghost use Rattle.rest_laws.specs.TidyMounts.{HasNumbersLeft, IsTidyMount};

/// Where no stripe is under way and none of a line's end record is left to be placed, nothing more
/// is written to that line before it is reset, unless it was opened last.
pub fn only_the_last_line_is_open()
    ensures { (i : Image) (w : World) (last o : Opening)
        → IsLegalMount i w → NoStripeLost (log_of w 0) → OpensWhenFull i (log_of w)
        → IsLastOpened (log_of w 0) last → o.number < last.number
        → life_of (log_of w 0) o.line ≡ Opened o
        → ((p : Placed) → Contains (placements (log_of w 0)) p → is_answered (log_of w 0) p ≡ true)
        → ((stripe : Stripe) → stripe.line ≡ o.line → ¬ IsEnd i (log_of w) o stripe)
        → are_over i (log_of w) o.line ≡ true }
{}

/// How far the front taken is beyond the front freed, where no stripe is under way and only the
/// line that was opened last may be written to. What was placed and can't be read yet stands in
/// that line, in the last MW_CUNITS blocks of its chunks, and in stripes with such blocks: clause
/// `near`. Beside it there is what waits. Where no line was opened all that was taken waits: clause
/// `unopened`.
pub fn the_front_freed_is_near()
    ensures near { (i : Image) (w : World) (last : Opening)
        → IsLegalMount i w → NoStripeLost (log_of w 0) → OpensWhenFull i (log_of w)
        → IsLastOpened (log_of w 0) last
        → width (known_image i (log_of w)) last.line ≡ units i.shape
        → ((p : Placed) → Contains (placements (log_of w 0)) p → is_answered (log_of w 0) p ≡ true)
        → ((o : Opening) → o.number < last.number → life_of (log_of w 0) o.line ≡ Opened o
        → are_over i (log_of w) o.line ≡ true)
        → taken (log_of w 0) ≤ freed i.shape (log_of w 0)
        + units i.shape * (i.shape.mw_cunits + (i.shape.ws_opt - 1))
        + length (waiting i.shape (log_of w 0)) }
    ensures unopened { (i : Image) (w : World) → IsLegalMount i w → NoStripeLost (log_of w 0)
        → openings (log_of w 0) ≡ []
        → taken (log_of w 0) ≤ freed i.shape (log_of w 0) + length (waiting i.shape (log_of w 0)) }
{}

/// A mount at rest has done all that was asked, as long as a data address is left. Less than a
/// stripe waits (clause `few`). All that was taken and is below the pad target has landed (clause
/// `synced`), so a flush that asked for it is not refused.
pub fn at_rest_all_is_done()
    ensures few { (i : Image) (w : World) (asked : ℕ) → IsRestingMount i w asked
        → 0 < addresses i (log_of w) → length (waiting i.shape (log_of w 0)) < i.shape.ws_opt }
    ensures synced { (i : Image) (w : World) (asked position : ℕ) → IsRestingMount i w asked
        → 0 < addresses i (log_of w) → position ≤ pad_target i (log_of w) asked
        → position ≤ taken (log_of w 0) → position ≤ synced i.shape (log_of w 0) }
{}

/// A mount at rest has room for sixteen more sectors, if it found four lines with Free chunks
/// alone, more addresses are left than entries wait, and positions aren't near their end (clause
/// `room`). Collection isn't due (clause `due`): a victim at work would have a sector to copy, or
/// could be freed.
pub fn at_rest_there_is_room()
    ensures due { (i : Image) (w : World) (asked : ℕ) → IsRestingMount i w asked
        → 4 ≤ length (filter (has_free_chunks (found_image i (log_of w)))
        (range_with_len 0 i.shape.chunks))
        → length (waiting i.shape (log_of w 0)) < addresses i (log_of w)
        → taken (log_of w 0) < position_limit (log_of w 0) → is_due i (log_of w) ≡ false }
    ensures room { (i : Image) (w : World) (asked : ℕ) → IsRestingMount i w asked
        → 4 ≤ length (filter (has_free_chunks (found_image i (log_of w)))
        (range_with_len 0 i.shape.chunks))
        → length (waiting i.shape (log_of w 0)) < addresses i (log_of w)
        → taken (log_of w 0) + 16 ≤ position_limit (log_of w 0)
        → taken (log_of w 0) + 16 ≤ room i (log_of w) }
{}

/// Where no stripe is under way, none is to be placed and no line is to be opened, a copy that is
/// due finds room in the ring, and so do fifteen entries after it: the front taken is as far below
/// the end of what users may claim there (clause `end`). In a mount over a tidy image in which
/// nothing failed it was so at each length of the engine's log at which numbers were left (clause
/// `length`).
pub fn a_copy_that_is_due_has_room()
    ensures end { (i : Image) (w : World) (asked : ℕ) → IsStillMount i w asked
        → IsCopyDue i (log_of w)
        → taken (log_of w 0) + 16 ≤ ring_limit i.shape (log_of w 0) }
    ensures length { (i : Image) (w : World) (n asked : ℕ) → IsTidyMount i w
        → 0 < n → n ≤ length (log_of w 0) → HasNumbersLeft i.shape (take n (log_of w 0))
        → ((p : Placed) → Contains (placements (take n (log_of w 0))) p
        → is_answered (take n (log_of w 0)) p ≡ true)
        → ((stripe : Stripe)
        → ¬ IsDue i (logs_at n (log_of w)) (pad_target i (logs_at n (log_of w)) asked) stripe)
        → ((beginning : Begun) (line : ℕ) (start : StartRecord)
        → begun (take n (log_of w 0)) ≡ Some beginning
        → 0 < length (waiting i.shape (take n (log_of w 0)))
        → open_addresses i (logs_at n (log_of w)) ≡ 0
        → ¬ MayOpen i (logs_at n (log_of w)) beginning line start)
        → IsCopyDue i (logs_at n (log_of w))
        → taken (take n (log_of w 0)) + 16 ≤ ring_limit i.shape (take n (log_of w 0)) }
{}
