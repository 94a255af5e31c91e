//! The parts of an image of a drive, and why bytes are no image.

use crate::shape::GeometryErr;
use thiserror::Error;

/// How many bytes the header of an image has, with which it begins. Its geometry follows.
pub const HEADER_LEN: usize = 32;

/// The byte of an image at which the descriptors of its chunks begin, behind the header and a geometry of 4096 bytes.
pub const DESCRIPTORS_AT: usize = HEADER_LEN + 4096;

/// How many bytes the descriptor of a chunk has (Open-Channel SSD Specification 2.0, Chunk descriptor).
pub const DESCRIPTOR_LEN: usize = 32;

/// Why bytes are no image of a drive, or why there is no drive of some numbers. It is the first reason, as the
/// parts are judged one after another.
#[derive(Clone, Copy, Debug, PartialEq, Eq, Error)]
pub enum ImageErr {
    /// The image doesn't begin with its magic.
    #[error("this is no image of a drive")]
    Magic,
    /// The image has another version.
    #[error("the version is unknown")]
    Version,
    /// The geometry isn't accepted.
    #[error("{0}")]
    Geometry(GeometryErr),
    /// The input ends within a part; this is its length in bytes.
    #[error("the input of {0} bytes ends within a part")]
    Short(u64),
    /// Bytes remain after the last part.
    #[error("bytes remain after the last part")]
    Long,
    /// The descriptor of this chunk breaks this rule.
    #[error("the descriptor of chunk {chunk} of unit {unit} breaks rule {rule}")]
    Chunk { unit: u32, chunk: u32, rule: u32 },
    /// The settings break this rule.
    #[error("rule {0} of the settings does not hold")]
    Settings(u32),
    /// There was no memory.
    #[error("out of memory")]
    Memory,
}
