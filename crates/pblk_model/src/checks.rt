//! Which shapes are accepted.

ghost use Rattle.std.specs.Prelude.{◌≡◌, ◌↔◌, ◌≤◌, ◌<◌, ◌+◌, ◌-◌, ◌*◌, ◌^◌, ◌⊎◌, ◌==◌, ◌||◌, ◌&&◌, nat_le, nat_lt, IsNone, IsTrue};
ghost use Rattle.std.specs.Bool.{OnTrue};
ghost use Rattle.pblk_model.specs.Shape.{units};
ghost use Rattle.pblk_model.specs.LineOrder.{data_len};
ghost use Rattle.std.specs.Int.{IsPowerOfTwo};
ghost use Rattle.pblk_model.specs.Accepted.{IsAccepted, IsMeasured, IsDriveShape, HasCounts, count_checks, drive_checks, settings_checks, shape_refusal, is_ring_power};
ghost use Rattle.pblk_model.specs.Checks.{first_failing};

use crate::lengths::data_blocks;
use crate::shape::{Shape, ShapeErr};

impl Shape {
    /// Why this shape isn't accepted, or None where it is.
    ///
    /// `Field` comes for the first number that is 0 and must not be. It has the place of that number in a
    /// geometry: 64, 66, 68, 72, 128 and 132 for NUM_GRP, NUM_PU, NUM_CHK, CLBA, WS_MIN and WS_OPT.
    ///
    /// Else `Profile` comes with the first rule that doesn't hold: 1, at most 64 parallel units in all groups;
    /// 2, 8 to 1024 chunks in a unit; 3, WS_OPT is a multiple of WS_MIN and at most 64; 4, CLBA is a multiple
    /// of WS_OPT; 5, MW_CUNITS is a multiple of WS_OPT and below CLBA (Open-Channel SSD Specification 2.0,
    /// Geometry; the numbers of the rules are this project's).
    ///
    /// Else `Settings` comes with the first rule that doesn't hold: 1, a sector has 512 or 4096 bytes; 2, all
    /// sectors of the drive have at most 256 MiB; 3, twice the data of a line is at least `(16 + WS_OPT) *
    /// WS_OPT`; 4, the capacity is from 1 to below 2^40, and four times it is at most `3 * (NUM_CHK - 5)` times
    /// the data of a line; 5, the ring is a power of two up to 16,384, and at least `units * (MW_CUNITS + 4 *
    /// WS_OPT) + 16`.
    pub fn refusal(&self) -> Option<ShapeErr>
        ensures refusal { result ≡ shape_refusal self.now }
        ensures accepted { IsNone result ↔ IsAccepted self.now }
    {
        if let Some(field) = self.zero_field() {
            return Some(ShapeErr::Field(field));
        }
        if let Some(rule) = self.broken_rule() {
            return Some(ShapeErr::Profile(rule));
        }
        match self.broken_setting() {
            Some(rule) => Some(ShapeErr::Settings(rule)),
            None => None,
        }
    }

    /// The place in a geometry of the field of the first number that is 0 and must not be. `refusal` names the
    /// fields.
    pub fn zero_field(&self) -> Option<u32>
        ensures first { result ≡ first_failing (count_checks self.now) }
        ensures counts { IsNone result ↔ HasCounts self.now }
    {
        if self.groups == 0 {
            Some(64)
        } else if self.pus == 0 {
            Some(66)
        } else if self.chunks == 0 {
            Some(68)
        } else if self.clba == 0 {
            Some(72)
        } else if self.ws_min == 0 {
            Some(128)
        } else if self.ws_opt == 0 {
            Some(132)
        } else {
            None
        }
    }

    /// The first rule of a drive that doesn't hold, where no count is 0. `refusal` names the rules.
    pub fn broken_rule(&self) -> Option<u32>
        requires { HasCounts self.now }
        ensures first { result ≡ first_failing (drive_checks self.now) }
        ensures drive { IsNone result ↔ IsDriveShape self.now }
    {
        if self.units() > 64 {
            Some(1)
        } else if self.chunks < 8 || self.chunks > 1024 {
            Some(2)
        } else if self.ws_opt % self.ws_min != 0 || self.ws_opt > 64 {
            Some(3)
        } else if self.clba % self.ws_opt != 0 {
            Some(4)
        } else if self.mw_cunits % self.ws_opt != 0 || self.mw_cunits >= self.clba {
            Some(5)
        } else {
            None
        }
    }

    /// The first rule of the settings that doesn't hold, where the drive's numbers are accepted. `refusal`
    /// names the rules.
    pub fn broken_setting(&self) -> Option<u32>
        requires { IsDriveShape self.now }
        ensures first { result ≡ first_failing (settings_checks self.now) }
        ensures accepted { IsNone result ↔ IsAccepted self.now }
    {
        first_broken_setting(self)
    }
}

// The first check that fails. That the checks come to the facts of `IsAccepted` is the caller's to show.
fn first_broken_setting(shape: &Shape) -> Option<u32>
    requires { IsDriveShape shape.now }
    ensures { result ≡ first_failing (settings_checks shape.now) }
{
    if !is_sector(shape.sector) {
        Some(1)
    } else if !is_small(shape) {
        Some(2)
    } else if !has_room(shape) {
        Some(3)
    } else if !has_spare(shape) {
        Some(4)
    } else if !is_ring_power(shape.ring) || u64::from(shape.ring) < least_ring(shape) {
        Some(5)
    } else {
        None
    }
}

fn is_sector(bytes: u32) -> bool
    ensures test { result ≡ ((bytes == 512) || (bytes == 4096)) }
    ensures sector { OnTrue result ((bytes ≡ 512) ⊎ (bytes ≡ 4096)) }
{
    bytes == 512 || bytes == 4096
}

// Whether all sectors of the drive have at most 256 MiB.
fn is_small(shape: &Shape) -> bool
    requires { IsMeasured shape.now }
    ensures { result ≡ nat_le
        (units shape.now * shape.now.chunks * shape.now.clba * shape.now.sector) 268435456 }
{
    let chunks = u64::from(shape.units()) * u64::from(shape.chunks);
    chunks * u64::from(shape.clba) * u64::from(shape.sector) <= 268_435_456
}

// Whether twice the data of a line is at least `(16 + WS_OPT) * WS_OPT` blocks.
fn has_room(shape: &Shape) -> bool
    requires { IsMeasured shape.now }
    ensures { result ≡ nat_le ((16 + shape.now.ws_opt) * shape.now.ws_opt)
        (2 * data_len shape.now (units shape.now)) }
{
    let stripe = u64::from(shape.ws_opt);
    (16 + stripe) * stripe <= 2 * data_blocks(shape, shape.units())
}

// Whether the capacity is from 1 to below 2^40, and four times it is at most what `quarters` gives.
fn has_spare(shape: &Shape) -> bool
    requires { IsMeasured shape.now }
    ensures { result ≡ (nat_le 1 shape.now.capacity && nat_lt shape.now.capacity (2 ^ 40)
        && nat_le (4 * shape.now.capacity)
        (3 * (shape.now.chunks - 5) * data_len shape.now (units shape.now))) }
{
    1 <= shape.capacity
        && shape.capacity < 1 << 40
        && 4 * shape.capacity <= quarters(shape.chunks, data_blocks(shape, shape.units()))
}

// The most that four times a capacity may be: three times the data of all lines but five.
fn quarters(chunks: u32, blocks: u64) -> u64
    requires chunks { (8 ≤ chunks) × (chunks ≤ 1024) }
    requires blocks { blocks < 2 ^ 38 }
    ensures { result ≡ 3 * (chunks - 5) * blocks }
{
    3 * (u64::from(chunks) - 5) * blocks
}

// The least ring: `units * (MW_CUNITS + 4 * WS_OPT) + 16` entries.
fn least_ring(shape: &Shape) -> u64
    requires { IsDriveShape shape.now }
    ensures { result ≡ units shape.now * (shape.now.mw_cunits + 4 * shape.now.ws_opt) + 16 }
{
    let waiting = u64::from(shape.mw_cunits) + 4 * u64::from(shape.ws_opt);
    u64::from(shape.units()) * waiting + 16
}

// Whether this is one of the powers of two up to 2 to the 14.
fn is_ring_power(number: u32) -> bool
    ensures test { result ≡ is_ring_power number }
    ensures power { IsTrue result ↔ (IsPowerOfTwo number × (number ≤ 16384)) }
{
    is_listed(number)
}

fn is_listed(number: u32) -> bool
    ensures { result ≡ is_ring_power number }
{
    matches!(
        number,
        1 | 2 | 4 | 8 | 16 | 32 | 64 | 128 | 256 | 512 | 1024 | 2048 | 4096 | 8192 | 16384
    )
}
