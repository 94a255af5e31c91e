//! Written blocks, and what they spell together.

ghost use Rattle.std.specs.Prelude.{◌≡◌, ◌==◌, ◌&&◌, IfOk};
ghost use Rattle.std.specs.List.{flat_map};
ghost use Rattle.pblk_model.specs.Marks.{meta_lba};
ghost use Rattle.pblk_model.specs.StartRecord.{have_meta};

use pblk_model::Mark;
use std::alloc::{AllocError, Global};
use std::marker::Model;

/// A written block where it lies: its sector and its mark. Contracts see the model's `Block`.
#[derive(Debug, Drop)]
pub(crate) struct Block<'a> {
    pub sector: &'a [u8],
    pub mark: Mark,
}

impl<'a> Model for Block<'a> {
    ghost use Rattle.pblk_model.specs.Chunk.{Block as Written};

    ghost Value = { Written };

    ghost view = { λ a. record { sector = a.sector.now; mark = a.mark } };
}

/// The bytes of blocks, one after another.
pub(crate) fn bytes_of(alloc: Global, blocks: &[Block<'_>]) -> Result<Vec<u8>, AllocError>
    ensures { IfOk result (λ v. v.items ≡ flat_map (λ b. b.sector) blocks.now) }
{
    let mut bytes = Vec::new(alloc);
    for block in blocks {
        bytes.extend_from_slice(block.sector)?;
    }
    Ok(bytes)
}

/// Whether all blocks have the mark of a start or end record of this sequence number.
pub(crate) fn have_meta(blocks: &[Block<'_>], seq: u64) -> bool
    ensures { result ≡ have_meta seq blocks.now }
{
    for block in blocks {
        if block.mark.lba != Mark::META_LBA || block.mark.position != seq {
            return false;
        }
    }
    true
}
