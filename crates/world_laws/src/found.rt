//! Laws on what is found: each is the contract of a function that does nothing.

ghost use Rattle.std.specs.Prelude.{◌≡◌, [], Some};
ghost use Rattle.pblk_model.specs.declared.found.Found.{Found};
ghost use Rattle.pblk_model.specs.Accepted.{IsAccepted};
ghost use Rattle.pblk_model.specs.Image.{Image, IsFit};
ghost use Rattle.pblk_model.specs.Found.{IsFitFound};
ghost use Rattle.pblk_world.specs.World.{World, Logs, log_of, media};
ghost use Rattle.pblk_world.specs.EngineLog.{Begun, begun};
ghost use Rattle.pblk_world.specs.Lines.{found_image};
ghost use Rattle.pblk_world.specs.Opening.{MayBegin};
ghost use Rattle.pblk_world.specs.Legal.{IsLegal};
ghost use Rattle.world_laws.specs.Finding.{IsFoundOf, NoneOpen};
ghost use Rattle.world_laws.specs.MountBeginnings.{beginning_of};

/// What is found of an image of an accepted shape fits that shape, so a target can begin with it.
pub fn what_is_found_fits()
    ensures { (i : Image) (f : Found) → IsAccepted i.shape → IsFit i → IsFoundOf i f
        → IsFitFound i.shape f }
{}

/// A mount may begin with what is found of the media, where no chunk of these is Open. The mount of
/// a legal world began with what is found of the image that it found.
pub fn a_mount_begins_with_what_is_found()
    ensures may { (i : Image) (logs : Logs) (f : Found) → logs 0 ≡ [] → NoneOpen (media i logs)
        → IsFoundOf (media i logs) f → MayBegin i logs (beginning_of f) }
    ensures began { (i : Image) (w : World) (b : Begun) (f : Found) → IsLegal i w
        → begun (log_of w 0) ≡ Some b → IsFoundOf (found_image i (log_of w)) f
        → b.beginning ≡ beginning_of f }
{}
