//! Laws on copies by the logs: each is the contract of a function that does nothing.

ghost use Rattle.std.specs.Prelude.{◌≡◌, ◌+◌, ◌≤◌, ◌<◌, ◌⊎◌, ℕ, List, None, Some, max, true};
ghost use Rattle.std.specs.Prelude.{false, suc, take, length, slice_get};
ghost use Rattle.std.specs.List.{Contains};
ghost use Rattle.pblk_model.specs.declared.chunk.Mark.{Mark};
ghost use Rattle.pblk_model.specs.declared.shape.Shape.{Shape};
ghost use Rattle.pblk_model.specs.Chunk.{Block};
ghost use Rattle.pblk_model.specs.Image.{Image};
ghost use Rattle.pblk_model.specs.Marks.{sector_mark, void_mark};
ghost use Rattle.pblk_world.specs.AtRest.{victim_now};
ghost use Rattle.pblk_world.specs.EngineLog.{Taken, life_of, taken_by, takes};
ghost use Rattle.pblk_world.specs.Events.{Entry, Logged, Source};
ghost use Rattle.pblk_world.specs.Freeing.{MayFree};
ghost use Rattle.pblk_world.specs.Fronts.{first_position, synced, taken, was_placed};
ghost use Rattle.pblk_world.specs.Lines.{known_image, line_data};
ghost use Rattle.pblk_world.specs.Space.{placed_front};
ghost use Rattle.pblk_world.specs.Taking.{IsLatest};
ghost use Rattle.pblk_world.specs.Victims.{engine_prefix, is_live_in, live, victim};
ghost use Rattle.pblk_world.specs.World.{World, Logs, log_of, prefixes};
ghost use Rattle.pblk_world.specs.LegalMounts.{IsLegalMount};
ghost use Rattle.pblk_world.specs.Reasons.{AreBegun, WasBegun};
ghost use Rattle.rest_laws.specs.AtWork.{AreCopiesOf, IsAtWorkFrom, WasLatestAt, WasTakenSince};
ghost use Rattle.rest_laws.specs.Copies.{IsEmptied, TookCopy};
ghost use Rattle.rest_laws.specs.EngineSteps.{IsAtWorkOver};

/// A victim at work that may be freed is emptied.
pub fn a_victim_that_may_be_freed_is_emptied()
    ensures { (i : Image) (w : World) (line : ℕ) → IsLegalMount i w
        → victim_now i (log_of w) ≡ Some line → MayFree i (log_of w) line
        → IsEmptied i (log_of w) line }
{}

/// Let the victim at work be emptied, and let a copy have been begun at some length of the engine's
/// log, of this victim or of an earlier one. Then an entry of its sector, taken from that length
/// on, is below the front synced. So is all that was taken before that length.
pub fn a_begun_copy_is_overtaken()
    ensures overtaken { (i : Image) (w : World) (line n lba : ℕ) (source : Source)
        → IsLegalMount i w → IsEmptied i (log_of w) line → n ≤ length (log_of w 0)
        → lba < i.shape.capacity → (b : WasBegun i (log_of w) n lba source)
        → (t : Taken) × Contains (takes (log_of w 0)) t × (t.mark.lba ≡ lba)
        × (taken (take b.at (log_of w 0)) ≤ t.entry.position)
        × (t.entry.position < synced i.shape (log_of w 0)) }
    ensures before { (i : Image) (w : World) (line n lba : ℕ) (source : Source)
        → IsLegalMount i w → IsEmptied i (log_of w) line → n ≤ length (log_of w 0)
        → lba < i.shape.capacity → (b : WasBegun i (log_of w) n lba source)
        → taken (take b.at (log_of w 0)) < synced i.shape (log_of w 0) }
{}

/// Let the victim at work be emptied. Of all copies that were taken, of this victim or an earlier
/// one, those that aren't Void are below the front synced, and so are all but the last one. Where a
/// copy is under way, the last one is too.
pub fn one_copy_at_most_is_not_synced()
    ensures void { (i : Image) (w : World) (line number : ℕ) (entry : Entry) (mark : Mark)
        → IsLegalMount i w → AreBegun i (log_of w) → IsEmptied i (log_of w) line
        → TookCopy (log_of w 0) number entry mark
        → (entry.position < synced i.shape (log_of w 0)) ⊎ (mark ≡ void_mark entry.position) }
    ensures last { (i : Image) (w : World) (line number later : ℕ) (entry other : Entry)
        (mark other_mark : Mark) → IsLegalMount i w → AreBegun i (log_of w)
        → IsEmptied i (log_of w) line → number < later
        → TookCopy (log_of w 0) number entry mark → TookCopy (log_of w 0) later other other_mark
        → entry.position < synced i.shape (log_of w 0) }
    ensures under_way { (i : Image) (w : World) (line number lba : ℕ) (source : Source)
        (entry : Entry) (mark : Mark) → IsLegalMount i w → IsEmptied i (log_of w) line
        → lba < i.shape.capacity → WasBegun i (log_of w) (length (log_of w 0)) lba source
        → TookCopy (log_of w 0) number entry mark
        → entry.position < synced i.shape (log_of w 0) }
{}

/// The same by counting. Of the positions from the front synced and from the end of the users'
/// entries on, at most one is taken. Where a copy is under way, none is.
pub fn one_position_at_most_is_left_to_copies()
    ensures taken { (i : Image) (w : World) (line users : ℕ)
        → IsLegalMount i w → AreBegun i (log_of w) → IsEmptied i (log_of w) line
        → ((t : Taken) → Contains (takes (log_of w 0)) t → t.entry.source ≡ None
        → t.entry.position < users)
        → taken (log_of w 0) ≤ max (synced i.shape (log_of w 0)) users + 1 }
    ensures under_way { (i : Image) (w : World) (line users lba : ℕ) (source : Source)
        → IsLegalMount i w → IsEmptied i (log_of w) line
        → ((t : Taken) → Contains (takes (log_of w 0)) t → t.entry.source ≡ None
        → t.entry.position < users)
        → lba < i.shape.capacity → WasBegun i (log_of w) (length (log_of w 0)) lba source
        → taken (log_of w 0) ≤ max (synced i.shape (log_of w 0)) users }
{}

/// What is below the front synced was placed, so the front placed isn't below that front.
pub fn what_is_synced_was_placed()
    ensures placed { (s : Shape) (log : List Logged) (t : Taken)
        → first_position log ≤ t.entry.position → t.entry.position < synced s log
        → was_placed s log t ≡ true }
    ensures front { (i : Image) (w : World) → IsLegalMount i w
        → synced i.shape (log_of w 0) ≤ placed_front i.shape (log_of w 0) }
{}

/// The victim at work came to work at some length of the engine's log, and has been at work since.
/// The copies that were made of it since then, its live sectors and the addresses of a stripe are
/// no more than its data addresses.
pub fn copies_of_the_victim_have_room()
    ensures { (i : Image) (w : World) (line : ℕ) → IsLegalMount i w
        → victim_now i (log_of w) ≡ Some line
        → (from : ℕ) × (0 < from) × (from ≤ length (log_of w 0))
        × IsAtWorkFrom i (log_of w) from line
        × ((numbers : List ℕ) → AreCopiesOf i (log_of w) line from from numbers
        → length numbers + live i (log_of w) line + i.shape.ws_opt
        ≤ line_data (known_image i (engine_prefix from (log_of w))) line) }
{}

/// A victim at work came to work at some length of the engine's log, and has been at work since.
/// Its live sectors and the addresses of a stripe were no more than its data addresses then.
pub fn a_victim_came_to_work_with_room()
    ensures { (i : Image) (logs : Logs) (n line : ℕ) → victim i logs n ≡ Some line
        → (from : ℕ) × (0 < from) × (from ≤ n)
        × (live i (engine_prefix from logs) line + i.shape.ws_opt
        ≤ line_data (known_image i (engine_prefix from logs)) line)
        × ((m : ℕ) → from ≤ m → m ≤ n → victim i logs m ≡ Some line) }
{}

/// While a line is at work as the victim, it has the life that it had, and its live sectors never
/// rise. At least one less is live where a sector whose latest was there has been taken since.
pub fn live_sectors_of_the_victim_fall()
    ensures life { (i : Image) (w : World) (line from : ℕ) → IsLegalMount i w
        → IsAtWorkFrom i (log_of w) from line → from ≤ length (log_of w 0)
        → life_of (log_of w 0) line ≡ life_of (take from (log_of w 0)) line }
    ensures falls { (i : Image) (w : World) (line from n : ℕ) → IsLegalMount i w → 0 < from
        → IsAtWorkFrom i (log_of w) from line → from ≤ n → n ≤ length (log_of w 0)
        → live i (engine_prefix n (log_of w)) line ≤ live i (engine_prefix from (log_of w)) line }
    ensures by_one { (i : Image) (w : World) (line from n lba : ℕ) (source : Source)
        → IsLegalMount i w → 0 < from → IsAtWorkFrom i (log_of w) from line → from ≤ n
        → n ≤ length (log_of w 0) → lba < i.shape.capacity → source.line ≡ line
        → WasLatestAt i (log_of w) from lba source
        → WasTakenSince (take n (log_of w 0)) lba from
        → live i (engine_prefix n (log_of w)) line + 1
        ≤ live i (engine_prefix from (log_of w)) line }
{}

/// What an event of the engine changes of the live sectors of the victim at work. An entry of a
/// sector that is live there makes it one less. No other entry changes their number, and nor does
/// an event that takes none.
pub fn an_entry_takes_one_live_sector()
    ensures one { (i : Image) (w : World) (line number : ℕ) (l : Logged) (t : Taken)
        → IsAtWorkOver i w line number l
        → taken_by l.event ≡ Some t → t.mark.lba < i.shape.capacity
        → is_live_in i (engine_prefix number (log_of w)) line t.mark.lba ≡ true
        → live i (engine_prefix number (log_of w)) line
        ≡ live i (engine_prefix (suc number) (log_of w)) line + 1 }
    ensures elsewhere { (i : Image) (w : World) (line number : ℕ) (l : Logged) (t : Taken)
        → IsAtWorkOver i w line number l
        → taken_by l.event ≡ Some t
        → is_live_in i (engine_prefix number (log_of w)) line t.mark.lba ≡ false
        → live i (engine_prefix (suc number) (log_of w)) line
        ≡ live i (engine_prefix number (log_of w)) line }
    ensures void { (i : Image) (w : World) (line number : ℕ) (l : Logged) (t : Taken)
        → IsAtWorkOver i w line number l
        → taken_by l.event ≡ Some t → i.shape.capacity ≤ t.mark.lba
        → live i (engine_prefix (suc number) (log_of w)) line
        ≡ live i (engine_prefix number (log_of w)) line }
    ensures none { (i : Image) (w : World) (line number : ℕ) (l : Logged)
        → IsAtWorkOver i w line number l
        → taken_by l.event ≡ None
        → live i (engine_prefix (suc number) (log_of w)) line
        ≡ live i (engine_prefix number (log_of w)) line }
{}

/// Let a copy have been begun of the victim at work. Until an entry of its sector is taken, the
/// sector is live there, and from then on it isn't.
pub fn a_copied_sector_is_live_until_it_is_taken()
    ensures fresh { (i : Image) (w : World) (line from lba : ℕ) (source : Source)
        → IsLegalMount i w → 0 < from → from ≤ length (log_of w 0)
        → IsAtWorkFrom i (log_of w) from line → lba < i.shape.capacity → source.line ≡ line
        → WasLatestAt i (log_of w) from lba source
        → ¬ WasTakenSince (log_of w 0) lba from → is_live_in i (log_of w) line lba ≡ true }
    ensures stale { (i : Image) (w : World) (line from lba : ℕ) → IsLegalMount i w → 0 < from
        → from ≤ length (log_of w 0) → IsAtWorkFrom i (log_of w) from line
        → WasTakenSince (log_of w 0) lba from → is_live_in i (log_of w) line lba ≡ false }
{}

/// Let a line be at work as the victim. The copies of it since then and its live sectors are no
/// more than its live sectors were (clause `fit`). For each of these copies an entry of its sector
/// was taken since it was begun (clause `copy`). A copy that isn't Void is such an entry itself
/// (clause `itself`).
///
/// Let a source have held its sector's latest, and let its line have the life that it had then. If
/// it doesn't hold the latest any more, an entry of the sector was taken since (clause `stale`).
/// The same holds of what the engine knew as it decided an event (clause `known`).
pub fn copies_of_a_victim_were_live()
    ensures fit { (i : Image) (w : World) (line from : ℕ) (numbers : List ℕ) → IsLegalMount i w
        → 0 < from → from ≤ length (log_of w 0) → IsAtWorkFrom i (log_of w) from line
        → AreCopiesOf i (log_of w) line from from numbers
        → length numbers + live i (log_of w) line
        ≤ live i (engine_prefix from (log_of w)) line }
    ensures itself { (i : Image) (w : World) (from number : ℕ) (entry : Entry) (mark : Mark)
        → IsLegalMount i w → 0 < from → from ≤ number → TookCopy (log_of w 0) number entry mark
        → mark ≡ sector_mark entry.lba entry.position
        → WasTakenSince (take (suc number) (log_of w 0)) entry.lba from }
    ensures stale { (i : Image) (w : World) (from lba : ℕ) (source : Source) → IsLegalMount i w
        → 0 < from → from ≤ length (log_of w 0)
        → life_of (log_of w 0) source.line ≡ life_of (take from (log_of w 0)) source.line
        → WasLatestAt i (log_of w) from lba source
        → ((block : Block) → ¬ IsLatest i (log_of w) lba source block)
        → WasTakenSince (log_of w 0) lba from }
    ensures known { (i : Image) (w : World) (number from lba : ℕ) (l : Logged) (source : Source)
        → IsLegalMount i w → slice_get (log_of w 0) number ≡ Some l
        → 0 < from → from ≤ number → life_of (take number (log_of w 0)) source.line
        ≡ life_of (take from (log_of w 0)) source.line
        → WasLatestAt i (log_of w) from lba source
        → ((block : Block) → ¬ IsLatest i (prefixes l (log_of w)) lba source block)
        → WasTakenSince (take (suc number) (log_of w 0)) lba from }
    ensures copy { (i : Image) (w : World) (line from number : ℕ) (entry : Entry) (mark : Mark)
        (took : TookCopy (log_of w 0) number entry mark) → IsLegalMount i w
        → IsAtWorkFrom i (log_of w) from line
        → (b : WasBegun i (log_of w) number entry.lba took.source) → from ≤ b.at
        → took.source.line ≡ line
        → WasTakenSince (take (suc number) (log_of w 0)) entry.lba b.at }
{}
