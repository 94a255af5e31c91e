//! Frames.
ghost use Rattle.std.specs.Prelude.{◌≡◌, length};
ghost use Rattle.std.specs.Borrow.{sem};
ghost use Rattle.pblk_model.specs.Frames.{AreApart};
ghost use Rattle.sector_pool.specs.Lending.{LendsBytes};

use crate::memory::{Origin, differ};
use std::marker::Model;
use std_alloc::vec::Lodged;

/// A range of a pool's region that is out of the pool, with its bytes.
///
/// It can't be dropped or copied: `Pool::give` alone takes it.
pub struct Frame {
    // over the range and the way to the next
    pub(crate) bytes: Vec<u8, Lodged>,
    pub(crate) origin: Origin,
    pub(crate) number: u32,
    pub(crate) size: u32,
}

// Contracts see the region, the range's number in it, and as many bytes as a frame has.
impl Model for Frame {
    ghost use Rattle.pblk_model.specs.Frames.{FrameView};

    ghost Value = { FrameView };

    ghost use Rattle.sector_pool.specs.Inside.{frame_view, IsFrame};

    ghost view = { frame_view };

    ghost invariant = { IsFrame };
}

impl Frame {
    /// The frame's bytes: as many as each frame of its pool has. Until the first `fill` after a `take`
    /// they may be any.
    pub fn bytes(&self) -> &[u8]
        ensures bytes { result.now ≡ self.now.bytes }
        ensures size { length result.now ≡ self.now.region.size }
    {
        &self.bytes[..self.size as usize]
    }

    /// The frame's bytes, to be written where they lie: as many as each frame of its pool has. Once
    /// the slice is given back, the frame has what was written to it.
    pub fn bytes_mut(&mut self) -> &mut [u8]
        ensures* writes_back { sem 𝓛 (LendsBytes self.entry result) }
        ensures bytes { result.now ≡ self.old.bytes }
        ensures size { length result.now ≡ self.old.region.size }
    {
        let size = self.size as usize;
        self.bytes.slice_mut(..size)
    }

    /// Copies bytes into the frame, which are as many as it has.
    pub fn fill(&mut self, from: &[u8])
        requires size { length from.now ≡ self.old.region.size }
        ensures bytes { self.new.bytes ≡ from.now }
        ensures region { self.new.region ≡ self.old.region }
        ensures number { self.new.number ≡ self.old.number }
    {
        self.bytes_mut().copy_from_slice(from);
    }

    /// Tells contracts that two frames of one pool have no byte in common. It changes nothing.
    pub fn apart(&mut self, other: &mut Frame)
        ensures apart { self.old.region ≡ other.old.region
            → AreApart self.old.region self.old.number other.old.number }
        ensures same { self.new ≡ self.old }
        ensures same_other { other.new ≡ other.old }
    {
        differ(&mut self.bytes, &mut other.bytes);
    }
}
