//! Laws on the window, the map, the history and the lines by the logs: each is the contract of a
//! function that does nothing.

ghost use Rattle.std.specs.Prelude.{◌≡◌, ◌<◌, ◌≤◌};
ghost use Rattle.std.specs.Prelude.{ℕ, ◌+◌, ◌/◌, List, [], ◌∷◌, ◌++◌, length};
ghost use Rattle.std.specs.Prelude.{true, slice_get, Some, None};
ghost use Rattle.pblk_model.specs.declared.shape.Shape.{Shape};
ghost use Rattle.pblk_model.specs.Contents.{contents};
ghost use Rattle.pblk_model.specs.History.{after as after_history, users};
ghost use Rattle.pblk_model.specs.Image.{Image};
ghost use Rattle.pblk_world.specs.Events.{Logged};
ghost use Rattle.pblk_world.specs.World.{World, log_of};
ghost use Rattle.pblk_world.specs.EngineLog.{Begun, begun, Taken, takes};
ghost use Rattle.pblk_world.specs.Fronts.{taken, has_landed_at, synced};
ghost use Rattle.pblk_world.specs.Fronts.{history, user_positions, last_take};
ghost use Rattle.pblk_world.specs.Lines.{found_image};
ghost use Rattle.pblk_world.specs.Space.{freed};
ghost use Rattle.pblk_world.specs.Freeing.{MayFree};
ghost use Rattle.pblk_world.specs.LegalMounts.{IsLegalMount, NoneCopied};
ghost use Rattle.core_laws.specs.Stepping.{after};
ghost use Rattle.core_laws.specs.Spent.{IsSpent, OpensWhenFull};

/// What a sector holds after the history. In every legal mount it is what the sector's latest
/// entry has, a user's or a copy's that isn't Void; a sector without such an entry holds what the
/// mount found. Where no entry is a copy, the same holds over any contents before. The history has
/// as many lines as users' writes were taken.
pub fn the_history_is_the_latest()
    ensures latest { (i : Image) (w : World) (lba : ℕ) (t : Taken)
        → IsLegalMount i w → lba < i.shape.capacity → last_take (log_of w 0) lba ≡ Some t
        → slice_get (after_history (contents (found_image i (log_of w))) (history (log_of w 0))) lba
        ≡ Some t.entry.sector }
    ensures found { (i : Image) (w : World) (lba : ℕ)
        → IsLegalMount i w → lba < i.shape.capacity → last_take (log_of w 0) lba ≡ None
        → slice_get (after_history (contents (found_image i (log_of w))) (history (log_of w 0))) lba
        ≡ slice_get (contents (found_image i (log_of w))) lba }
    ensures written { (i : Image) (w : World) (before : List (List ℕ)) (lba : ℕ) (t : Taken)
        → IsLegalMount i w → NoneCopied (log_of w 0)
        → lba < length before → last_take (log_of w 0) lba ≡ Some t
        → slice_get (after_history before (history (log_of w 0))) lba ≡ Some t.entry.sector }
    ensures unwritten { (i : Image) (w : World) (before : List (List ℕ)) (lba : ℕ)
        → IsLegalMount i w → NoneCopied (log_of w 0)
        → lba < length before → last_take (log_of w 0) lba ≡ None
        → slice_get (after_history before (history (log_of w 0))) lba ≡ slice_get before lba }
    ensures count { (i : Image) (w : World) → IsLegalMount i w
        → users (user_positions (log_of w 0)) (taken (log_of w 0))
        ≡ length (history (log_of w 0)) }
{}

/// No event takes back that a position has landed, and the front synced never falls. The front
/// freed is never above it.
pub fn the_front_synced_never_falls()
    ensures landed { (s : Shape) (log : List Logged) (l : Logged) (q : ℕ)
        → has_landed_at s log q ≡ true → has_landed_at s (log ++ l ∷ []) q ≡ true }
    ensures synced { (s : Shape) (log : List Logged) (l : Logged)
        → synced s log ≤ synced s (log ++ l ∷ []) }
    ensures freed { (s : Shape) (log : List Logged) → freed s log ≤ synced s log }
{}

/// A line may be freed exactly where it is spent, which a target tells by what it keeps of its
/// lines and by its fronts. That a line which may be freed is spent holds in every legal mount.
/// That a spent line may be freed holds once the mount has begun, where each line was opened while
/// no open one had a data address left. By the latter an entry whose stripe was lost is placed
/// again in a newer line.
pub fn a_line_may_be_freed_where_it_is_spent()
    ensures spent { (i : Image) (w : World) (line : ℕ) → IsLegalMount i w
        → MayFree i (log_of w) line → IsSpent i (log_of w) line }
    ensures free { (i : Image) (w : World) (line : ℕ) (b : Begun) → IsLegalMount i w
        → begun (log_of w 0) ≡ Some b → OpensWhenFull i (log_of w)
        → IsSpent i (log_of w) line → MayFree i (log_of w) line }
{}
