//! Laws on what can be collected: each is the contract of a function that does nothing.

ghost use Rattle.std.specs.Prelude.{◌≡◌, ◌≢◌, ◌+◌, ◌-◌, ◌*◌, ◌/◌, ◌≤◌, ◌<◌, ◌⊎◌, ℕ, true, false};
ghost use Rattle.std.specs.Prelude.{Some, length, sum_by};
ghost use Rattle.std.specs.List.{Contains, filter, range_with_len};
ghost use Rattle.pblk_model.specs.declared.shape.Shape.{Shape};
ghost use Rattle.pblk_model.specs.Accepted.{IsAccepted};
ghost use Rattle.pblk_model.specs.Image.{Image, width};
ghost use Rattle.pblk_model.specs.Shape.{units};
ghost use Rattle.pblk_world.specs.AtRest.{victim_now};
ghost use Rattle.pblk_world.specs.EngineLog.{Opened, Opening, life_of, holds_position};
ghost use Rattle.pblk_world.specs.EngineLog.{Placed, is_answered, placements, stripes_of};
ghost use Rattle.pblk_world.specs.Events.{Stripe};
ghost use Rattle.pblk_world.specs.Fronts.{synced};
ghost use Rattle.pblk_world.specs.Lines.{found_image, has_stripe_left, is_free_line, known_image};
ghost use Rattle.pblk_world.specs.Placing.{IsStart, line_end};
ghost use Rattle.pblk_world.specs.Space.{full_data, is_due};
ghost use Rattle.pblk_world.specs.Starts.{has_landed_start, have_landed, newest_start};
ghost use Rattle.pblk_world.specs.Victims.{engine_prefix, is_failed, live, next_victim};
ghost use Rattle.pblk_world.specs.World.{World, Logs, log_of};
ghost use Rattle.pblk_world.specs.LegalMounts.{IsLegalMount, NoStripeLost};
ghost use Rattle.core_laws.specs.Spent.{OpensWhenFull};
ghost use Rattle.rest_laws.specs.BehindLines.{IsBehind};
ghost use Rattle.rest_laws.specs.NewestOpened.{IsLastOpened};
ghost use Rattle.rest_laws.specs.RoomSteps.{free_lines, unreset_lines};
ghost use Rattle.rest_laws.specs.Tidy.{AreWide, has_free_chunks};
ghost use Rattle.rest_laws.specs.Untroubled.{IsUntroubled};

/// Each sector is live in one line at most, so what is live in all lines together is at most what
/// the drive holds. On a drive of an accepted shape so many lines, all but five, can't each have
/// more live sectors than a full line's data less a stripe.
pub fn a_sector_is_live_in_one_line()
    ensures sum { (i : Image) (logs : Logs)
        → sum_by (live i logs) (range_with_len 0 i.shape.chunks) ≤ i.shape.capacity }
    ensures few { (s : Shape) (n : ℕ) → IsAccepted s → s.chunks ≤ n + 5
        → n * (full_data s + 1 - s.ws_opt) ≤ s.capacity → ⊥ }
{}

/// Where nothing was lost, and each line was opened once the open ones were full: once all stripes
/// of a line that is as wide as the drive have landed, all its positions are below the front
/// synced.
pub fn what_has_landed_whole_is_synced()
    ensures { (i : Image) (w : World) (o : Opening) (p : Placed) (position : ℕ)
        → IsLegalMount i w → NoStripeLost (log_of w 0) → OpensWhenFull i (log_of w)
        → life_of (log_of w 0) o.line ≡ Opened o
        → width (known_image i (log_of w)) o.line ≡ units i.shape
        → have_landed (log_of w 0) o (line_end i.shape o / i.shape.ws_opt) ≡ true
        → Contains (stripes_of (log_of w 0) o) p → holds_position i.shape position p ≡ true
        → position < synced i.shape (log_of w 0) }
{}

/// A line that was opened before the last one had a stripe left when that one was opened, or it is
/// behind its start record (clause `opened`). Of all lines that aren't Free, all but two are behind
/// that record: the one that was opened last, and at most one other (clause `others`).
pub fn all_but_two_lines_are_behind()
    ensures opened { (i : Image) (w : World) (last o : Opening)
        → IsLegalMount i w → NoStripeLost (log_of w 0) → OpensWhenFull i (log_of w)
        → IsLastOpened (log_of w 0) last → life_of (log_of w 0) o.line ≡ Opened o
        → o.number < last.number → width (known_image i (log_of w)) o.line ≡ units i.shape
        → (has_stripe_left i (engine_prefix last.number (log_of w)) o.line ≡ true)
        ⊎ IsBehind i (log_of w) last.start o.line }
    ensures others { (i : Image) (w : World) (last : Opening) (line other : ℕ)
        → IsUntroubled i w → IsLastOpened (log_of w 0) last
        → line < i.shape.chunks → other < i.shape.chunks
        → is_free_line i (log_of w) line ≡ false → is_free_line i (log_of w) other ≡ false
        → line ≢ last.line → other ≢ last.line
        → ¬ IsBehind i (log_of w) last.start line → ¬ IsBehind i (log_of w) last.start other
        → line ≡ other }
{}

/// Where collection is due, some line may be collected, once the start record of the line that was
/// opened last has landed.
pub fn some_line_may_be_collected()
    ensures { (i : Image) (w : World) (last : Opening)
        → IsUntroubled i w → IsLastOpened (log_of w 0) last
        → has_landed_start i.shape (log_of w 0) last ≡ true → is_due i (log_of w) ≡ true
        → (line : ℕ) × (next_victim i (log_of w) ≡ Some line) }
{}

/// Where at most three lines are Free or to be reset, and the start record of the line that was
/// opened last has landed: the line that is collected next has three in four of a line's sectors
/// live at most, unless it is failed.
pub fn the_next_victim_has_few_live_sectors()
    ensures { (i : Image) (w : World) (last : Opening) (line : ℕ) → IsLegalMount i w
        → NoStripeLost (log_of w 0) → OpensWhenFull i (log_of w)
        → AreWide (known_image i (log_of w)) → IsLastOpened (log_of w 0) last
        → has_landed_start i.shape (log_of w 0) last ≡ true
        → free_lines i (log_of w) + unreset_lines i (log_of w) ≤ 3
        → next_victim i (log_of w) ≡ Some line
        → (is_failed i (log_of w) line ≡ true)
        ⊎ (4 * live i (log_of w) line ≤ 3 * full_data i.shape) }
{}

/// Where collection is due and some line may be collected, a victim is at work.
pub fn a_victim_is_at_work()
    ensures { (i : Image) (logs : Logs) (line : ℕ)
        → 0 < length (logs 0) → is_due i logs ≡ true → next_victim i logs ≡ Some line
        → (victim : ℕ) × (victim_now i logs ≡ Some victim) }
{}

/// Where collection is due, a mount that found four lines with Free chunks alone has opened a line
/// (clause `opened`). The line that was opened last stands. Its start record has landed where no
/// stripe is under way and none of it is left to be placed (clause `landed`), and then it is the
/// newest one (clause `newest`).
pub fn the_last_line_has_begun()
    ensures opened { (i : Image) (w : World) → IsUntroubled i w → 0 < length (log_of w 0)
        → 4 ≤ length (filter (has_free_chunks (found_image i (log_of w)))
        (range_with_len 0 i.shape.chunks))
        → is_due i (log_of w) ≡ true → (last : Opening) × IsLastOpened (log_of w 0) last }
    ensures stands { (i : Image) (w : World) (last : Opening)
        → IsLegalMount i w → NoStripeLost (log_of w 0) → IsLastOpened (log_of w 0) last
        → life_of (log_of w 0) last.line ≡ Opened last }
    ensures landed { (i : Image) (w : World) (last : Opening)
        → IsLegalMount i w → NoStripeLost (log_of w 0) → IsLastOpened (log_of w 0) last
        → ((p : Placed) → Contains (placements (log_of w 0)) p → is_answered (log_of w 0) p ≡ true)
        → ((stripe : Stripe) → stripe.line ≡ last.line → ¬ IsStart i (log_of w) last stripe)
        → has_landed_start i.shape (log_of w 0) last ≡ true }
    ensures newest { (i : Image) (w : World) (last : Opening) → IsLastOpened (log_of w 0) last
        → has_landed_start i.shape (log_of w 0) last ≡ true
        → newest_start i (log_of w) ≡ Some last.start }
{}
