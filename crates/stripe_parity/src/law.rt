//! Why a unit can be made anew.

ghost use Rattle.std.specs.Prelude.{ℕ, ◌≡◌, ◌<◌, length, Some};
ghost use Rattle.pblk_model.specs.Chunk.{Block};
ghost use Rattle.pblk_model.specs.Image.{Image};
ghost use Rattle.pblk_laws.specs.LineBlocks.{written_at};
ghost use Rattle.stripe_parity.specs.ParityFile.{parity_of};
ghost use Rattle.stripe_parity.specs.Rebuilding.{AgreeBut, HasSectors, IsRebuiltBlock};

/// A law, and a function that does nothing: what is made anew of a written block is the block.
///
/// Of every drive, its parity, and every drive that agrees with it on all units but one: the
/// exclusive or of a block of the parity and of the other units' blocks is the block that the first
/// drive's unit has written there.
pub fn rebuilt_blocks_are_the_lost_ones()
    ensures { (first i : Image) (lost chunk block : ℕ) (was b : Block) → HasSectors first
        → AgreeBut lost first i → lost < length first.units
        → written_at first chunk (lost, block) ≡ Some was
        → IsRebuiltBlock (parity_of first) i lost chunk block b → b ≡ was }
{}
