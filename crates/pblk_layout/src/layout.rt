//! The layout of the lines of a target.

ghost use Rattle.std.specs.Prelude.{◌≡◌, ◌*◌, ◌<◌, ◌≤◌, ◌^◌, ◌↔◌, ◌⊎◌, ℕ, length, slice_get, Some, IfSome, IsNone};
ghost use Rattle.std.specs.Int.{bit_at};
ghost use Rattle.pblk_model.specs.Accepted.{IsAccepted};
ghost use Rattle.pblk_model.specs.Found.{online_units};
ghost use Rattle.pblk_model.specs.Shape.{units};
ghost use Rattle.pblk_model.specs.LineOrder.{line_order, start_len, end_len, data_len, HoldsStart, HoldsEnd};
ghost use Rattle.pblk_layout.specs.Online.{units_in};

use crate::line_units::{LineUnits, found_units};
use crate::{online, places};
use pblk_model::{Found, Shape};
use std::marker::Model;

/// Where the blocks of each line lie on the drives of one shape, and how many of them are the
/// line's start record, its data and its end record.
///
/// A line is the chunks of one index over all units (Bjørling, González, Bonnet, FAST 2017). Its
/// width is the number of those that aren't Offline. Its blocks are numbered from 0 by line
/// addresses, which run over these chunks in stripes of WS_OPT blocks, by unit and then by row. The
/// start record has the first of them, the data the next, and the end record the last.
///
/// On a drive of 2 units with chunks of 24 blocks in stripes of 4, a line of width 2 has 48 blocks:
/// addresses 0 to 3 are blocks 0 to 3 of unit 0, addresses 4 to 7 are blocks 0 to 3 of unit 1, and
/// addresses 8 to 11 are blocks 4 to 7 of unit 0.
///
/// Contracts see the shape.
#[derive(Clone, Copy, Debug, PartialEq, Eq)]
pub struct Layout {
    shape: Shape,
}

impl Model for Layout {
    ghost use Rattle.pblk_model.specs.declared.shape.Shape.{Shape};
    ghost use Rattle.pblk_model.specs.Accepted.{IsAccepted};

    ghost Value = { Shape };

    ghost view = { λ a. a.shape };

    ghost invariant = { λ a. IsAccepted a.shape };

    ghost inverse = { λ s. record { shape = s } };
}

impl Layout {
    /// The layout of the lines on drives of an accepted shape.
    pub fn new(shape: &Shape) -> Layout
        requires { IsAccepted shape.now }
        ensures { result ≡ shape.now }
    {
        Layout { shape: *shape }
    }

    /// The shape that it was made of. It is accepted.
    pub fn shape(&self) -> &Shape
        ensures shape { result.now ≡ self.now }
        ensures accepted { IsAccepted self.now }
    {
        &self.shape
    }

    /// How many blocks at a line's front its start record takes: the least number of whole stripes
    /// with room for a header of 64 bytes and 24 bytes for each other line. It is the same at each
    /// width.
    ///
    /// With 8 lines, stripes of 4 blocks and sectors of 512 bytes it is 4 blocks, for 232 bytes.
    pub fn start_len(&self) -> u32
        ensures len { result ≡ start_len self.now }
        ensures holds { HoldsStart self.now result }
        ensures short { result < 2 ^ 31 }
    {
        self.shape.start_len()
    }

    /// How many blocks at the end of a line of this width its end record takes: the least number of
    /// whole stripes with room for a header of 32 bytes and 16 bytes for each block between the two
    /// records. A width is at most the number of units.
    ///
    /// With 2 units, chunks of 24 blocks, stripes of 4 blocks and sectors of 512 bytes it is 4
    /// blocks at widths 1 and 2.
    pub fn end_len(&self, width: u32) -> u32
        requires { width ≤ units self.now }
        ensures len { result ≡ end_len self.now width }
        ensures holds { HoldsEnd self.now width result }
        ensures short { result < 2 ^ 31 }
    {
        self.shape.end_len(width)
    }

    /// How many blocks between the two records of a line of this width hold data. It is 0 where
    /// they are fewer than a stripe: such a line holds no data. A width is at most the number of
    /// units.
    ///
    /// With 2 units, chunks of 24 blocks, stripes of 4 blocks and sectors of 512 bytes it is 40
    /// blocks at width 2, and 16 at width 1.
    pub fn data_len(&self, width: u32) -> u32
        requires { width ≤ units self.now }
        ensures len { result ≡ data_len self.now width }
        ensures short { result ≤ width * self.now.clba }
    {
        self.shape.data_len(width)
    }

    /// The online units of a line, by what recovery found on a drive of this shape: those whose
    /// chunks of the line aren't Offline.
    pub fn online_units(&self, found: &Found, line: u32) -> LineUnits
        requires chunks { length found.now.chunks ≡ units self.now * self.now.chunks }
        requires line { line < self.now.chunks }
        ensures units { units_in result ≡ online_units self.now found.now line }
        ensures below { result < 2 ^ units self.now }
    {
        found_units(&self.shape, found, line)
    }

    /// The width of a line: how many units are in `online`. Bit `u` of it is that of unit `u`.
    pub fn width(&self, online: u64) -> u32
        requires { online < 2 ^ units self.now }
        ensures width { result ≡ length (units_in online) }
        ensures few { result ≤ units self.now }
    {
        online::width(online)
    }

    /// The block at a line address, as its unit and its number in the unit's chunk.
    ///
    /// Bit `u` of `online` is set for each unit `u` of the drive whose chunk of the line isn't
    /// Offline, and no other bit is. The address is below the line's width times the number of
    /// blocks of a chunk.
    ///
    /// With chunks of 24 blocks in stripes of 4 and units 0 and 1, address 13 is block 5 of unit 1.
    /// With unit 1 alone it is block 13 of unit 1.
    pub fn place(&self, online: u64, at: u32) -> (u32, u32)
        requires online { online < 2 ^ units self.now }
        requires inside { at < length (units_in online) * self.now.clba }
        ensures { slice_get (line_order self.now (units_in online)) at ≡ Some result }
    {
        places::place(&self.shape, online, at)
    }

    /// The line address of a block of a unit's chunk, the inverse of `place`.
    ///
    /// `None` exactly where the unit isn't in `online`, or the chunk has no block of this number.
    /// `online` is as for `place`.
    pub fn addr_of(&self, online: u64, unit: u32, block: u32) -> Option<u32>
        requires { online < 2 ^ units self.now }
        ensures found { IfSome result (λ a.
            slice_get (line_order self.now (units_in online)) a ≡ Some (unit, block)) }
        ensures only { (a : ℕ)
            → slice_get (line_order self.now (units_in online)) a ≡ Some (unit, block)
            → result ≡ Some a }
        ensures none { IsNone result ↔ ((bit_at online unit ≡ 0) ⊎ (self.now.clba ≤ block)) }
    {
        places::addr_of(&self.shape, online, unit, block)
    }
}
