//! Images in memory.

ghost use Rattle.std.specs.Prelude.{◌≡◌, IfOk};

use pblk_model::{ChunkState, Mark, Shape};
use std::alloc::{AllocError, Global};
use std::marker::Model;

/// A written block: a sector with its mark. Contracts see the model's `Block`.
#[derive(Debug, Drop)]
pub struct Block {
    pub sector: Vec<u8>,
    pub mark: Mark,
}

impl Model for Block {
    ghost use Rattle.pblk_model.specs.Chunk.{Block as Written};

    ghost Value = { Written };

    ghost view = { λ a. record { sector = a.sector.items; mark = a.mark } };
}

impl Block {
    /// The same block again.
    pub fn copied(&self, alloc: Global) -> Result<Block, AllocError>
        ensures { IfOk result (λ b. b ≡ self.now) }
    {
        let sector = Vec::from_slice(alloc, &self.sector)?;
        let mark = self.mark;
        Ok(Block { sector, mark })
    }
}

/// A chunk: a state, and the written blocks. Contracts see the model's `Chunk`.
#[derive(Debug, Drop)]
pub struct Chunk {
    pub state: ChunkState,
    pub blocks: Vec<Block>,
}

impl Model for Chunk {
    ghost use Rattle.pblk_model.specs.Chunk.{Chunk as Blocks};

    ghost Value = { Blocks };

    ghost view = { λ a. record { state = a.state; blocks = a.blocks.items } };
}

/// A drive's shape, and the chunks of its units, by unit and then by chunk. Contracts see the model's `Image`.
#[derive(Debug, Drop)]
pub struct Image {
    pub shape: Shape,
    pub units: Vec<Vec<Chunk>>,
}

impl Model for Image {
    ghost use Rattle.std.specs.Prelude.{map};
    ghost use Rattle.pblk_model.specs.Image.{Image as Drive};

    ghost Value = { Drive };

    ghost view = { λ a. record { shape = a.shape; units = map (λ u. u.items) a.units.items } };
}
