//! Laws on mounts in which nothing fails: each is the contract of a function that does nothing.

ghost use Rattle.std.specs.Prelude.{◌≡◌, ◌<◌, ◌≤◌, false, length};
ghost use Rattle.std.specs.List.{filter, range_with_len};
ghost use Rattle.pblk_model.specs.Image.{Image};
ghost use Rattle.pblk_world.specs.Legal.{IsLegal};
ghost use Rattle.pblk_world.specs.Lines.{found_image, known_image};
ghost use Rattle.pblk_world.specs.Space.{is_due};
ghost use Rattle.pblk_world.specs.World.{World, log_of};
ghost use Rattle.pblk_world.specs.LegalMounts.{IsLegalMount, NoStripeLost};
ghost use Rattle.rest_laws.specs.Tidy.{AreWide, HasWholeChunks, IsFaultless};
ghost use Rattle.rest_laws.specs.Tidy.{IsFoundFaultless, IsTidy, has_free_chunks};

/// Where no unit event failed that the engine heard of, no stripe was lost (clause `lost`). If the
/// mount found whole chunks, the engine knows whole ones (clause `whole`), so that no line is
/// narrower than the drive (clause `wide`). As long as collection isn't due, at least four lines
/// are known to have Free chunks alone (clause `free`).
pub fn a_faultless_mount_loses_nothing()
    ensures lost { (i : Image) (w : World) → IsLegal i w → IsFaultless (log_of w)
        → NoStripeLost (log_of w 0) }
    ensures whole { (i : Image) (w : World) → IsLegalMount i w → 0 < length (log_of w 0)
        → IsFaultless (log_of w) → HasWholeChunks (found_image i (log_of w))
        → HasWholeChunks (known_image i (log_of w)) }
    ensures wide { (i : Image) (w : World) → IsLegalMount i w → 0 < length (log_of w 0)
        → IsFaultless (log_of w) → HasWholeChunks (found_image i (log_of w))
        → AreWide (known_image i (log_of w)) }
    ensures free { (i : Image) (w : World) → IsLegalMount i w → 0 < length (log_of w 0)
        → IsFaultless (log_of w) → HasWholeChunks (found_image i (log_of w))
        → is_due i (log_of w) ≡ false
        → 4 ≤ length (filter (has_free_chunks (known_image i (log_of w)))
        (range_with_len 0 i.shape.chunks)) }
{}

/// A tidy image is found tidy, if no event of a unit failed that the mount found.
pub fn a_tidy_image_is_found_tidy()
    ensures { (i : Image) (w : World) → IsLegalMount i w → 0 < length (log_of w 0)
        → IsTidy i → IsFoundFaultless (log_of w) → IsTidy (found_image i (log_of w)) }
{}
