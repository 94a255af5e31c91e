//! The numbers of a drive and of its target, and addresses on it.

ghost use Rattle.std.specs.Prelude.{◌≡◌, ◌*◌, ◌<◌, ◌≤◌, ◌^◌};
ghost use Rattle.pblk_model.specs.Accepted.{IsAccepted};
ghost use Rattle.pblk_model.specs.LineOrder.{start_len, end_len, data_len, HoldsStart, HoldsEnd};
ghost use Rattle.pblk_model.specs.Shape.{units, small};

use crate::least_lengths::{end_len_is_least, start_len_is_least};
use crate::lengths;
use thiserror::Error;

/// The numbers of a drive and of the target on it.
///
/// The first seven are those of the geometry (Open-Channel SSD Specification 2.0, Geometry): counts
/// of groups, of parallel units a group, of chunks a unit and of blocks a chunk (CLBA), the minimum
/// and the optimal write size and the cache units (WS_MIN, WS_OPT, MW_CUNITS) in blocks. `sector`
/// is a block's size in bytes, `capacity` the number of user sectors, `ring` the number of entries
/// of the write buffer.
#[derive(Clone, Copy, Debug, PartialEq, Eq)]
pub struct Shape {
    pub groups: u16,
    pub pus: u16,
    pub chunks: u32,
    pub clba: u32,
    pub ws_min: u32,
    pub ws_opt: u32,
    pub mw_cunits: u32,
    pub sector: u32,
    pub capacity: u64,
    pub ring: u32,
}

impl Shape {
    /// The small drive: two parallel units of eight chunks of 24 blocks, WS_MIN 2, WS_OPT 4, MW_CUNITS 8, sectors of 512
    /// bytes, and on it a target of 64 sectors with a write buffer of 64 entries.
    pub const SMALL: Shape = Shape {
        groups: 1,
        pus: 2,
        chunks: 8,
        clba: 24,
        ws_min: 2,
        ws_opt: 4,
        mw_cunits: 8,
        sector: 512,
        capacity: 64,
        ring: 64,
    };

    /// The small drive's numbers, [`Shape::SMALL`], which are accepted.
    pub fn small() -> Shape
        ensures numbers { result ≡ small }
        ensures accepted { IsAccepted result }
    {
        Shape::SMALL
    }

    /// The number of parallel units, numbered from 0: `group * pus + pu`.
    pub fn units(&self) -> u32
        ensures { result ≡ units self.now }
    {
        u32::from(self.groups) * u32::from(self.pus)
    }

    /// How many blocks at a line's front its start record takes: the least number of whole stripes that hold
    /// one. On the small drive it is 4. The shape is accepted.
    pub fn start_len(&self) -> u32
        requires { IsAccepted self.now }
        ensures len { result ≡ start_len self.now }
        ensures holds { HoldsStart self.now result }
        ensures short { result < 2 ^ 31 }
    {
        start_len_is_least();
        lengths::start_blocks(self) as u32
    }

    /// How many blocks at the end of a line of this width its end record takes: the least number of whole
    /// stripes that hold one. On the small drive it is 4. The shape is accepted, and the width is at most the
    /// number of units.
    pub fn end_len(&self, width: u32) -> u32
        requires accepted { IsAccepted self.now }
        requires width { width ≤ units self.now }
        ensures len { result ≡ end_len self.now width }
        ensures holds { HoldsEnd self.now width result }
        ensures short { result < 2 ^ 31 }
    {
        end_len_is_least();
        lengths::end_blocks(self, width) as u32
    }

    /// How many blocks between the two records of a line of this width hold data. It is 0 for a dead line,
    /// which has less than a stripe of them. On the small drive it is 40 for width 2, and 16 for width 1. The
    /// shape is accepted, and the width is at most the number of units.
    pub fn data_len(&self, width: u32) -> u32
        requires accepted { IsAccepted self.now }
        requires width { width ≤ units self.now }
        ensures len { result ≡ data_len self.now width }
        ensures short { result ≤ width * self.now.clba }
    {
        lengths::data_blocks(self, width) as u32
    }
}

/// The address of a block: group, parallel unit in the group, chunk in the unit, block in the chunk
/// (Open-Channel SSD Specification 2.0, Logical block address).
#[derive(Clone, Copy, Debug, PartialEq, Eq)]
pub struct Address {
    pub group: u16,
    pub pu: u16,
    pub chunk: u32,
    pub block: u32,
}

/// Why bytes are no geometry.
#[derive(Clone, Copy, Debug, PartialEq, Eq, Error)]
pub enum GeometryErr {
    /// There aren't 4096 bytes.
    #[error("a geometry has 4096 bytes")]
    Length,
    /// The field whose first byte has this offset holds a number that isn't accepted.
    #[error("the field at byte {0} is not accepted")]
    Field(u32),
    /// The numbers break this rule of the drives that the target takes.
    #[error("rule {0} does not hold")]
    Profile(u32),
}

/// Why the numbers of a drive and of the target on it aren't accepted.
#[derive(Clone, Copy, Debug, PartialEq, Eq, Error)]
pub enum ShapeErr {
    /// A count is 0 and must not be. This is the place in a geometry of its field's first byte.
    #[error("the field at byte {0} is 0")]
    Field(u32),
    /// The numbers break this rule of the drives that the target takes.
    #[error("rule {0} does not hold")]
    Profile(u32),
    /// The numbers break this rule of the settings.
    #[error("rule {0} of the settings does not hold")]
    Settings(u32),
}
