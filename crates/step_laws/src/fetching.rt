//! Laws on one more step of a world, whose author knows every log to its end. Each is the contract
//! of a function that does nothing.

ghost use Rattle.std.specs.Prelude.{◌≡◌, ◌<◌, ◌+◌, ℕ, true, Some};
ghost use Rattle.std.specs.Prelude.{slice_get};
ghost use Rattle.pblk_model.specs.Chunk.{Chunk, Block};
ghost use Rattle.pblk_model.specs.ChunkStep.{Gave, ChunkStep, Read};
ghost use Rattle.pblk_model.specs.Image.{Image};
ghost use Rattle.pblk_world.specs.World.{World, log_of, media};
ghost use Rattle.pblk_world.specs.EngineLog.{Placed};
ghost use Rattle.pblk_world.specs.EngineLog.{Opening, Opened, life_of, stripes_on, has_landed};
ghost use Rattle.pblk_world.specs.Space.{is_readable_in};
ghost use Rattle.pblk_laws.specs.LineBlocks.{chunk_in};
ghost use Rattle.pblk_world.specs.LegalMounts.{IsLegalMount};

/// A fetch of a block of a stripe that has landed isn't refused where the engine's log says that
/// the block can be read. It gives that block.
pub fn a_fetch_gives_what_landed()
    ensures { (i : Image) (w : World) (line unit k r : ℕ) (o : Opening) (p : Placed) (block : Block)
        → IsLegalMount i w → life_of (log_of w 0) line ≡ Opened o
        → slice_get (stripes_on (log_of w 0) o unit) k ≡ Some p → r < i.shape.ws_opt
        → slice_get p.stripe.blocks r ≡ Some block → has_landed (log_of w 0) p ≡ true
        → is_readable_in i.shape (log_of w 0) unit (p.stripe.at + r) (Opened o) ≡ true
        → (c : Chunk) × (chunk_in (media i (log_of w)) line unit ≡ Some c)
        × ChunkStep i.shape c (Read (p.stripe.at + r)) (Gave block) c }
{}
