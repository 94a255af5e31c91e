//! Laws on the steps of an opening: each is the contract of a function that does nothing.

ghost use Rattle.std.specs.Prelude.{◌≡◌, ◌++◌, ℕ, true, List, [], slice_get, Some};
ghost use Rattle.pblk_model.specs.declared.shape.Shape.{Shape};
ghost use Rattle.pblk_model.specs.Accepted.{IsAccepted};
ghost use Rattle.pblk_model.specs.Image.{IsFit};
ghost use Rattle.pblk_model.specs.UnitLog.{UnitEvent};
ghost use Rattle.pblk_world.specs.Commanding.{has_stopped};
ghost use Rattle.pblk_world.specs.World.{log_of, media, unit_events};
ghost use Rattle.pblk_world.specs.LegalMounts.{IsLegalMount};
ghost use Rattle.unit_port.specs.Unit.{ModelUnit, IsStopped};
ghost use Rattle.scan_recovery.specs.Units.{AreFit, image_of};
ghost use Rattle.scan_recovery.specs.Readying.{WereReadied};
ghost use Rattle.step_laws.specs.Opened.{AreArmed, new_events, after_units};

/// What the units of a drive did while it was padded and scanned are the steps of a legal mount
/// over the image that they had: programs of Pad blocks and fetches, whatever became of them. Its
/// media are the image that they have now, and the engine did nothing in it.
///
/// Each unit's log grew by its events in that world, and a unit that stopped there is stopped. The
/// units may be armed with anything that they were armed with before: plans and a fuse.
pub fn an_opening_is_a_legal_mount()
    ensures fit { (s : Shape) (us : List ModelUnit) → AreFit s us → IsFit (image_of s us) }
    ensures legal { (s : Shape) (old new : List ModelUnit) → IsAccepted s → AreFit s old
        → AreArmed old → WereReadied s old new
        → IsLegalMount (image_of s old) (after_units s 0 [] (new_events old new)) }
    ensures media { (s : Shape) (old new : List ModelUnit) → AreFit s old → WereReadied s old new
        → media (image_of s old) (log_of (after_units s 0 [] (new_events old new)))
        ≡ image_of s new }
    ensures engine { (s : Shape) (events : List (List UnitEvent))
        → log_of (after_units s 0 [] events) 0 ≡ [] }
    ensures logs { (s : Shape) (old new : List ModelUnit) → WereReadied s old new
        → (number : ℕ) (u v : ModelUnit)
        → slice_get old number ≡ Some u → slice_get new number ≡ Some v
        → v.log ≡ u.log
        ++ unit_events (log_of (after_units s 0 [] (new_events old new))) number }
    ensures stops { (s : Shape) (old new : List ModelUnit) → IsAccepted s → AreFit s old
        → AreArmed old → WereReadied s old new
        → (number : ℕ) (v : ModelUnit) → slice_get new number ≡ Some v
        → has_stopped (unit_events (log_of (after_units s 0 [] (new_events old new))) number)
        ≡ true → IsStopped v }
{}
