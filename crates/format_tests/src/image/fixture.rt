//! Images that are spelled by hand.

use std::alloc::{AllocError, Global};

/// A byte at a place of an image.
pub(crate) type Edit = (usize, u8);

/// An edit of no byte.
pub(crate) const NONE: Edit = (usize::MAX, 0);

/// The numbers of the small drive, but for the magic and the descriptors: the version 1, sectors of
/// 512 bytes, 64 user sectors, a ring of 64; 2.0; addresses of 0, 1, 3 and 5 bits; 1 group, 2
/// units, 8 chunks of 24 blocks, WS_MIN 2, WS_OPT 4, MW_CUNITS 8.
const SMALL: [Edit; 16] = [
    (8, 1),
    (13, 2),
    (16, 64),
    (24, 64),
    (32, 2),
    (41, 1),
    (42, 3),
    (43, 5),
    (96, 1),
    (98, 2),
    (100, 8),
    (104, 24),
    (160, 2),
    (164, 4),
    (168, 8),
    NONE,
];

/// Puts bytes at their places, as far as the image has them.
pub(crate) fn edit(bytes: &mut [u8], edits: &[Edit]) {
    for &(at, byte) in edits {
        if at < bytes.len() {
            bytes[at] = byte;
        }
    }
}

/// The image of the small drive on which nothing is written.
pub(crate) fn small_image(alloc: Global) -> Result<Vec<u8>, AllocError> {
    let mut bytes = Vec::with_capacity(alloc, 5000)?;
    bytes.extend_from_slice(b"PBLKOCSD")?;
    bytes.resize(4128, 0)?;
    edit(&mut bytes, &SMALL);
    for unit in 0..2u8 {
        for chunk in 0..8u8 {
            // Free, of kind 1, at address `unit * 256 + chunk * 32`, of 24 blocks.
            bytes.extend_from_slice(&[1, 1, 0, 0, 0, 0, 0, 0])?;
            bytes.extend_from_slice(&[chunk * 32, unit, 0, 0, 0, 0, 0, 0])?;
            bytes.extend_from_slice(&[24, 0, 0, 0, 0, 0, 0, 0])?;
            bytes.extend_from_slice(&[0; 8])?;
        }
    }
    Ok(bytes)
}
