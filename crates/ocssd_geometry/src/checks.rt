//! Which geometries are accepted.

ghost use Rattle.std.specs.Prelude.{◌≡◌, ◌==◌, ◌||◌, nat_le, IfNone};
ghost use Rattle.pblk_model.specs.Accepted.{HasCounts};
ghost use Rattle.pblk_model.specs.Checks.{first_failing};
ghost use Rattle.pblk_model.specs.Geometry.{geometry_refusal, drive_numbers, field_checks, profile_checks, bound_checks, length_holds};
ghost use Rattle.ocssd_geometry.specs.Numbers.{numbers_of};

use crate::geometry::Geometry;
use pblk_model::{GeometryErr, Shape};

impl Geometry {
    /// Why this geometry isn't accepted, or None where it is.
    ///
    /// `Field` with a field's first byte, for the first in this order: 0 where MJR isn't 2; 8, 9,
    /// 10 and 11 where the length of the group, the parallel unit, the chunk or the block is above
    /// 32, or 2 to the length is below the count; 64, 66, 68, 72, 128 and 132 where NUM_GRP,
    /// NUM_PU, NUM_CHK, CLBA, WS_MIN or WS_OPT is 0.
    ///
    /// Else `Profile` with the first rule that doesn't hold: 1, at most 64 parallel units in all
    /// groups; 2, 8 to 1024 chunks in a unit; 3, WS_OPT is a multiple of WS_MIN and at most 64; 4,
    /// CLBA is a multiple of WS_OPT; 5, MW_CUNITS is a multiple of WS_OPT and below CLBA; 6, MAXOC
    /// is 0 or at least twice the number of units; 7, MAXOCPU is 0 or at least 2; 8, the lengths
    /// sum to at most 64 (Open-Channel SSD Specification 2.0, Geometry; the numbers of the rules
    /// are this project's).
    pub fn refusal(&self) -> Option<GeometryErr>
        ensures { result ≡ geometry_refusal (numbers_of self.now) }
    {
        match self.refused_field() {
            Some(offset) => Some(GeometryErr::Field(offset)),
            None => match self.broken_rule() {
                Some(rule) => Some(GeometryErr::Profile(rule)),
                None => None,
            },
        }
    }

    // The first byte of the first field that isn't accepted.
    fn refused_field(&self) -> Option<u32>
        ensures first { result ≡ first_failing (field_checks (numbers_of self.now)) }
        ensures counts { IfNone result (HasCounts (drive_numbers (numbers_of self.now))) }
    {
        let [group, pu, chunk, block] = self.lengths;
        if self.mjr != 2 {
            Some(0)
        } else if !length_holds(group, u32::from(self.groups)) {
            Some(8)
        } else if !length_holds(pu, u32::from(self.pus)) {
            Some(9)
        } else if !length_holds(chunk, self.chunks) {
            Some(10)
        } else if !length_holds(block, self.clba) {
            Some(11)
        } else {
            self.drive_shape().zero_field()
        }
    }

    // Its numbers as those of a drive's shape, without settings.
    fn drive_shape(&self) -> Shape
        ensures { result ≡ drive_numbers (numbers_of self.now) }
    {
        Shape {
            groups: self.groups,
            pus: self.pus,
            chunks: self.chunks,
            clba: self.clba,
            ws_min: self.ws_min,
            ws_opt: self.ws_opt,
            mw_cunits: self.mw_cunits,
            sector: 0,
            capacity: 0,
            ring: 0,
        }
    }

    // The first rule that doesn't hold.
    fn broken_rule(&self) -> Option<u32>
        requires { HasCounts (drive_numbers (numbers_of self.now)) }
        ensures { result ≡ first_failing (profile_checks (numbers_of self.now)) }
    {
        match self.drive_shape().broken_rule() {
            Some(rule) => Some(rule),
            None => self.broken_bound(),
        }
    }

    // The first rule of the bounds and lengths that doesn't hold.
    fn broken_bound(&self) -> Option<u32>
        ensures { result ≡ first_failing (bound_checks (numbers_of self.now)) }
    {
        let units = u64::from(self.groups) * u64::from(self.pus);
        let [group, pu, chunk, block] = self.lengths;
        let bits = u32::from(group) + u32::from(pu) + u32::from(chunk) + u32::from(block);
        if !bound_holds(self.maxoc, 2 * units) {
            Some(6)
        } else if !bound_holds(self.maxocpu, 2) {
            Some(7)
        } else if bits > 64 {
            Some(8)
        } else {
            None
        }
    }
}

// 2 to the length of an address's field is at least the field's count, and the length at most 32.
fn length_holds(bits: u8, count: u32) -> bool
    ensures { result ≡ length_holds bits count }
{
    bits <= 32 && u64::from(count) <= 1u64 << bits
}

// A bound on open chunks is 0, for none, or at least this.
fn bound_holds(bound: u32, least: u64) -> bool
    ensures { result ≡ (bound == 0) || nat_le least bound }
{
    bound == 0 || u64::from(bound) >= least
}
