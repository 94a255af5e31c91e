//! Laws on what a mount over a tidy image answers, and on the image that it leaves: each is the
//! contract of a function that does nothing.

ghost use Rattle.std.specs.Prelude.{◌≡◌, ◌+◌, ◌^◌, ◌≤◌, ◌<◌, ℕ, List, Some, false, length, take};
ghost use Rattle.pblk_model.specs.declared.shape.Shape.{Shape};
ghost use Rattle.pblk_model.specs.Accepted.{IsAccepted};
ghost use Rattle.pblk_model.specs.Contents.{end, head};
ghost use Rattle.pblk_model.specs.Image.{Image, blank};
ghost use Rattle.pblk_model.specs.Sealed.{IsSealed};
ghost use Rattle.pblk_model.specs.StartRecord.{StartRecord};
ghost use Rattle.pblk_world.specs.AtRest.{IsAtRest, IsWornFlush, IsWornWrite};
ghost use Rattle.pblk_world.specs.EngineLog.{Begun, begun, openings};
ghost use Rattle.pblk_world.specs.Events.{Logged};
ghost use Rattle.pblk_world.specs.Fronts.{synced, taken};
ghost use Rattle.pblk_world.specs.Lines.{known_image, next_seq};
ghost use Rattle.pblk_world.specs.Space.{is_due, position_limit};
ghost use Rattle.pblk_world.specs.Victims.{engine_prefix};
ghost use Rattle.pblk_world.specs.World.{World, Logs, log_of, media};
ghost use Rattle.pblk_world.specs.LegalMounts.{IsLegalMount, NoStripeLost};
ghost use Rattle.pblk_world.specs.Orders.{AreAfterResets};
ghost use Rattle.pblk_world.specs.Reasons.{AreBegun, AreGranted, HasReasons};
ghost use Rattle.core_laws.specs.FaultlessMounts.{IsFaultlessMount};
ghost use Rattle.rest_laws.specs.Tidy.{AreWide, HasWholeChunks, IsFaultless};
ghost use Rattle.rest_laws.specs.Tidy.{IsFoundFaultless, IsTidy};
ghost use Rattle.rest_laws.specs.TidyMounts.{HasNoFailures, HasNumbersLeft, HasRoom};
ghost use Rattle.rest_laws.specs.TidyMounts.{IsTidyMount};

/// A mount over a tidy image in which nothing failed refuses no command for want of room, as long
/// as fewer entries wait than data addresses are left, and numbers are left. No such length of the
/// engine's log is one at which a flush or the close would be refused (clause `flush`), or a write
/// of sixteen sectors or fewer, while there are positions for sixteen more (clause `write`). Nor is
/// it one at rest while collection is due (clause `due`). Where numbers and positions are left they
/// were left before (clauses `numbers` and `positions`).
pub fn a_tidy_mount_refuses_nothing()
    ensures flush { (i : Image) (w : World) (n wanted have : ℕ) → IsTidyMount i w
        → HasRoom i (log_of w) → HasNumbersLeft i.shape (take n (log_of w 0))
        → ¬ IsWornFlush i (log_of w) n wanted have }
    ensures write { (i : Image) (w : World) (n count wanted have : ℕ) → IsTidyMount i w
        → HasRoom i (log_of w) → HasNumbersLeft i.shape (take n (log_of w 0))
        → taken (take n (log_of w 0)) + 16 ≤ position_limit (take n (log_of w 0))
        → count ≤ 16 → ¬ IsWornWrite i (log_of w) n count wanted have }
    ensures due { (i : Image) (w : World) (n asked : ℕ) → IsTidyMount i w
        → HasRoom i (log_of w) → HasNumbersLeft i.shape (take n (log_of w 0))
        → taken (take n (log_of w 0)) < position_limit (take n (log_of w 0))
        → IsAtRest i (log_of w) asked n → is_due i (engine_prefix n (log_of w)) ≡ false }
    ensures numbers { (s : Shape) (log : List Logged) (n : ℕ) → 0 < n → HasNumbersLeft s log
        → HasNumbersLeft s (take n log) }
    ensures positions { (log : List Logged) (n more : ℕ) → 0 < n
        → taken log + more ≤ position_limit log
        → taken (take n log) + more ≤ position_limit (take n log) }
{}

/// Such a mount has that room, where its resets came first, and where each entry that was taken and
/// each stripe that was placed had its reason.
pub fn a_tidy_mount_has_room()
    ensures { (i : Image) (w : World) → IsTidyMount i w
        → AreAfterResets i (log_of w) → HasReasons i (log_of w)
        → taken (log_of w 0) < position_limit (log_of w 0)
        → HasRoom i (log_of w) }
{}

/// No line of such a mount was ever known to be narrower than the drive.
pub fn a_tidy_mount_is_wide()
    ensures { (i : Image) (w : World) (n : ℕ) → IsTidyMount i w → 0 < n → n ≤ length (log_of w 0)
        → AreWide (known_image i (engine_prefix n (log_of w))) }
{}

/// A blank image of an accepted shape is tidy.
pub fn a_blank_image_is_tidy()
    ensures { (s : Shape) → IsAccepted s → IsTidy (blank s) }
{}

/// No event of a unit failed where the units answered all commands (clause `answered`). Where none
/// failed, the engine heard of none, and none was found (clauses `heard` and `found`). Then a mount
/// over whole chunks leaves whole chunks (clause `whole`). One over a tidy image leaves a tidy
/// image, once collection isn't due (clause `tidy`).
pub fn a_tidy_image_is_left_tidy()
    ensures answered { (i : Image) (w : World) → IsFaultlessMount i w → HasNoFailures (log_of w) }
    ensures heard { (logs : Logs) → HasNoFailures logs → IsFaultless logs }
    ensures found { (logs : Logs) → HasNoFailures logs → IsFoundFaultless logs }
    ensures whole { (i : Image) (w : World) → IsLegalMount i w → HasNoFailures (log_of w)
        → HasWholeChunks i → HasWholeChunks (media i (log_of w)) }
    ensures tidy { (i : Image) (w : World) → IsLegalMount i w → 0 < length (log_of w 0)
        → HasNoFailures (log_of w) → IsTidy i
        → is_due i (log_of w) ≡ false → IsTidy (media i (log_of w)) }
{}

/// The numbers of a mount over a sealed image are near those of the image that it leaves. Where no
/// stripe was lost, the sequence number of the next start record is at most two above the one with
/// which a mount over that image would begin (clause `near`). So where the end of that image and
/// the sequence number of its head are below 2^60, numbers are left (clause `numbers`). The front
/// taken is near the front synced, where all that was taken had its reason (clause `taken`). Then
/// positions are left too (clause `positions`).
pub fn the_numbers_left_are_told_by_the_image()
    ensures near { (i : Image) (w : World) (b : Begun) → IsLegalMount i w
        → NoStripeLost (log_of w 0) → IsSealed i → begun (log_of w 0) ≡ Some b
        → b.beginning.seq + length (openings (log_of w 0))
        ≤ next_seq (head (media i (log_of w))) + 2 }
    ensures numbers { (i : Image) (w : World) → IsLegalMount i w → NoStripeLost (log_of w 0)
        → IsSealed i → 0 < length (log_of w 0) → end (media i (log_of w)) < 2 ^ 60
        → ((h : StartRecord) → head (media i (log_of w)) ≡ Some h → h.seq < 2 ^ 60)
        → HasNumbersLeft i.shape (log_of w 0) }
    ensures taken { (i : Image) (w : World) → IsLegalMount i w → NoStripeLost (log_of w 0)
        → AreGranted i (log_of w) → AreBegun i (log_of w)
        → taken (log_of w 0) ≤ synced i.shape (log_of w 0) + 2 ^ 30 }
    ensures positions { (i : Image) (w : World) → IsLegalMount i w → IsSealed i
        → end (media i (log_of w)) < 2 ^ 60
        → taken (log_of w 0) ≤ synced i.shape (log_of w 0) + 2 ^ 30
        → taken (log_of w 0) + 16 ≤ position_limit (log_of w 0) }
{}
