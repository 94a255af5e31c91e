//! Where a write pointer may stand, as descriptors and as chunks have it.

ghost use Rattle.std.specs.Prelude.{◌↔◌, ℕ, IsTrue};
ghost use Rattle.pblk_model.specs.declared.chunk.ChunkState.{ChunkState};
ghost use Rattle.pblk_model.specs.Chunk.{PointerFits};
ghost use Rattle.pblk_model.specs.Descriptor.{pointer_holds};

/// A descriptor's write pointer is taken exactly where a chunk of its state may have it.
pub fn pointer_rules_agree()
    ensures { (state : ChunkState) (n wp : ℕ) → IsTrue (pointer_holds state n wp)
        ↔ PointerFits state n wp }
{}
