//! Laws on what recovery finds: each is the contract of a function that does nothing.

ghost use Rattle.std.specs.Prelude.{◌≡◌, ◌≤◌, ◌++◌, true, false, take, ℕ, List};
ghost use Rattle.std.specs.Prelude.{Some, None};
ghost use Rattle.std.specs.List.{Contains};
ghost use Rattle.pblk_model.specs.Contents.{end, contents};
ghost use Rattle.pblk_model.specs.History.{after, users};
ghost use Rattle.pblk_model.specs.Image.{Image};
ghost use Rattle.pblk_model.specs.Sealed.{IsSealed};
ghost use Rattle.pblk_world.specs.Events.{Step};
ghost use Rattle.pblk_world.specs.World.{World, log_of, media};
ghost use Rattle.pblk_world.specs.EngineLog.{Begun, begun, Placed, placements, is_answered};
ghost use Rattle.pblk_world.specs.EngineLog.{holds_position};
ghost use Rattle.pblk_world.specs.Fronts.{taken, synced, history, user_positions};
ghost use Rattle.pblk_world.specs.LegalMounts.{IsLegalMount};
ghost use Rattle.prefix_law.specs.Cuts.{AreCuts};
ghost use Rattle.prefix_law.specs.PlacedAgain.{ArePlacedAgain};

/// In a legal world over a sealed drive the contents of the media are those before, changed by the
/// lines of the history below the end. The end is at the front synced or above it, and once the
/// mount has begun at most the front taken. Units may have failed and stopped, and the engine may
/// have copied sectors and freed lines.
pub fn contents_are_after_a_prefix()
    ensures contents { (i : Image) (w : World) → IsLegalMount i w → IsSealed i
        → contents (media i (log_of w))
        ≡ after (contents i) (take (users (user_positions (log_of w 0)) (end (media i (log_of w))))
        (history (log_of w 0))) }
    ensures above { (i : Image) (w : World) → IsLegalMount i w → IsSealed i
        → synced i.shape (log_of w 0) ≤ end (media i (log_of w)) }
    ensures within { (i : Image) (w : World) (b : Begun) → IsLegalMount i w → IsSealed i
        → begun (log_of w 0) ≡ Some b → end (media i (log_of w)) ≤ taken (log_of w 0) }
{}

/// The same after a stop that cuts any of the units: what was in flight on such a unit may have
/// been done in part. The history and the fronts are those of the world that was cut.
pub fn a_cut_of_each_unit_leaves_a_prefix()
    ensures contents { (i : Image) (w : World) (steps : List Step) → IsLegalMount i w
        → AreCuts i w steps → IsSealed i → contents (media i (log_of (steps ++ w)))
        ≡ after (contents i)
        (take (users (user_positions (log_of w 0)) (end (media i (log_of (steps ++ w)))))
        (history (log_of w 0))) }
    ensures above { (i : Image) (w : World) (steps : List Step) → IsLegalMount i w
        → AreCuts i w steps → IsSealed i
        → synced i.shape (log_of w 0) ≤ end (media i (log_of (steps ++ w))) }
    ensures within { (i : Image) (w : World) (steps : List Step) (b : Begun) → IsLegalMount i w
        → AreCuts i w steps → IsSealed i → begun (log_of w 0) ≡ Some b
        → end (media i (log_of (steps ++ w))) ≤ taken (log_of w 0) }
{}

/// Where each placed stripe is answered and what was lost was placed again, the end is the front
/// synced.
pub fn the_end_is_the_front_synced()
    ensures { (i : Image) (w : World) (b : Begun) → IsLegalMount i w → IsSealed i
        → begun (log_of w 0) ≡ Some b → ArePlacedAgain i.shape (log_of w 0)
        → ((p : Placed) → Contains (placements (log_of w 0)) p → is_answered (log_of w 0) p ≡ true)
        → end (media i (log_of w)) ≡ synced i.shape (log_of w 0) }
{}

/// So it is wherever no stripe that was placed holds the position at the front synced. Else a part
/// of a stripe that was lost, or isn't answered, may stand on the drive with that position.
pub fn an_unplaced_front_is_the_end()
    ensures { (i : Image) (w : World) (b : Begun) → IsLegalMount i w → IsSealed i
        → begun (log_of w 0) ≡ Some b
        → ((p : Placed) → Contains (placements (log_of w 0)) p
        → holds_position i.shape (synced i.shape (log_of w 0)) p ≡ false)
        → end (media i (log_of w)) ≡ synced i.shape (log_of w 0) }
{}

/// Where no mount has begun the contents are as they were.
pub fn no_mount_changes_nothing()
    ensures { (i : Image) (w : World) → IsLegalMount i w → IsSealed i
        → begun (log_of w 0) ≡ None → contents (media i (log_of w)) ≡ contents i }
{}

/// The media of a sealed drive are sealed.
pub fn the_media_are_sealed()
    ensures { (i : Image) (w : World) → IsLegalMount i w → IsSealed i
        → IsSealed (media i (log_of w)) }
{}
