//! What images of the small drive hold, by the plain recovery.

ghost use Rattle.std.specs.Prelude.{◌≡◌, vec_len};
ghost use Rattle.pblk_reference.specs.Ready.{IsOfAcceptedShape};

use image_crew::{Units, small};
use pblk_reference::{Image, contents, end};
use std::alloc::{AllocError, Global};

/// The image of the small drive with these chunks.
pub fn image_of(chunks: Units) -> Image
    requires { vec_len chunks ≡ 2 }
    ensures { IsOfAcceptedShape result }
{
    Image {
        shape: small(),
        units: chunks,
    }
}

/// What an image of two units holds: its user sectors, and its end.
pub fn told(alloc: Global, all: Units) -> Result<Option<(Vec<Vec<u8>>, u64)>, AllocError> {
    if all.len() != 2 {
        return Ok(None);
    }
    let image = image_of(all);
    let sectors = contents(alloc, &image)?;
    let last = end(alloc, &image)?;
    Ok(Some((sectors, last)))
}

/// What sectors hold: `count` of them from `first` on, with tags that rise by `step`; all others
/// hold zeros.
#[derive(Clone, Copy)]
pub struct Held {
    pub first: u64,
    pub count: u64,
    pub tag: u64,
    pub step: u64,
}

/// The tag of a sector, by what is held.
pub fn tag_of(held: Held, lba: u64) -> u64 {
    if held.first <= lba && lba - held.first < held.count {
        held.tag
            .wrapping_add(held.step.wrapping_mul(lba - held.first))
    } else {
        0
    }
}
