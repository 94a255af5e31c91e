//! Laws on images and on worlds: each is the contract of a function that does nothing.

ghost use Rattle.std.specs.Prelude.{◌≡◌, ℕ, None, Some};
ghost use Rattle.std.specs.List.{Contains};
ghost use Rattle.pblk_model.specs.declared.chunk.ChunkState.TheVariants.{Open};
ghost use Rattle.pblk_model.specs.Accepted.{IsAccepted};
ghost use Rattle.pblk_model.specs.Image.{Image, IsFit};
ghost use Rattle.pblk_model.specs.Records.{Record, line_records};
ghost use Rattle.pblk_model.specs.Sealed.{IsSealed};
ghost use Rattle.pblk_model.specs.StartRecord.{StartRecord, start_of};
ghost use Rattle.pblk_world.specs.World.{World, Logs, log_of, media};
ghost use Rattle.pblk_world.specs.EngineLog.{begun};
ghost use Rattle.pblk_world.specs.Lines.{found_image};
ghost use Rattle.pblk_world.specs.Legal.{IsLegal};
ghost use Rattle.world_laws.specs.SameImages.{HasSameLines, HoldsTheSame};
ghost use Rattle.world_laws.specs.Losing.{LosesChunks};
ghost use Rattle.world_laws.specs.Padding.{ArePadded};
ghost use Rattle.world_laws.specs.SealedLines.{IsSealedLine};
ghost use Rattle.world_laws.specs.EarlyLogs.{ArePrefixes, AreEarly};

/// Before its units know that the mount has begun, and whatever became of their commands, the image
/// is the one before with Pad blocks in some Open chunks. If that was sealed, the image is sealed
/// and holds what it held.
pub fn padding_keeps_the_contents()
    ensures padded { (i : Image) (w : World) (logs : Logs) → IsFit i → IsLegal i w
        → ArePrefixes w logs → AreEarly logs → ArePadded i (media i logs) }
    ensures lines { (i : Image) (w : World) (logs : Logs) → IsAccepted i.shape → IsFit i
        → IsLegal i w → ArePrefixes w logs → AreEarly logs → HasSameLines i (media i logs) }
    ensures sealed { (i : Image) (w : World) (logs : Logs) → IsAccepted i.shape → IsFit i
        → IsSealed i → IsLegal i w → ArePrefixes w logs → AreEarly logs
        → IsSealed (media i logs) }
    ensures holds { (i : Image) (w : World) (logs : Logs) → IsAccepted i.shape → IsFit i
        → IsSealed i → IsLegal i w → ArePrefixes w logs → AreEarly logs
        → HoldsTheSame i (media i logs) }
    ensures before { (i : Image) (w : World) → IsLegal i w → begun (log_of w 0) ≡ None
        → AreEarly (log_of w) }
{}

/// The image that a mount finds, by any prefixes of the logs, is the one before with Pad blocks in
/// some Open chunks. If that was sealed, the found one is sealed and holds what it held.
pub fn the_found_image_holds_the_same()
    ensures padded { (i : Image) (w : World) (logs : Logs) → IsFit i → IsLegal i w
        → ArePrefixes w logs → ArePadded i (found_image i logs) }
    ensures lines { (i : Image) (w : World) (logs : Logs) → IsAccepted i.shape → IsFit i
        → IsLegal i w → ArePrefixes w logs → HasSameLines i (found_image i logs) }
    ensures sealed { (i : Image) (w : World) (logs : Logs) → IsAccepted i.shape → IsFit i
        → IsSealed i → IsLegal i w → ArePrefixes w logs → IsSealed (found_image i logs) }
    ensures holds { (i : Image) (w : World) (logs : Logs) → IsAccepted i.shape → IsFit i
        → IsSealed i → IsLegal i w → ArePrefixes w logs → HoldsTheSame i (found_image i logs) }
{}

/// Where chunks of a line are emptied or go Offline, the line has the start record that it had, or
/// none, and no record that it hadn't. What a sealed image says of the line holds still.
pub fn lost_chunks_add_nothing()
    ensures sealed { (i j : Image) (line : ℕ) → IsAccepted i.shape → IsFit i → IsSealedLine i line
        → LosesChunks i j line → IsSealedLine j line }
    ensures start { (i j : Image) (line : ℕ) (start : StartRecord) → IsAccepted i.shape → IsFit i
        → IsSealedLine i line → LosesChunks i j line → start_of j line ≡ Some start
        → start_of i line ≡ Some start }
    ensures records { (i j : Image) (line : ℕ) (r : Record) → IsAccepted i.shape → IsFit i
        → IsSealedLine i line → LosesChunks i j line → Contains (line_records j line) r
        → Contains (line_records i line) r }
{}
