//! Which addresses are a vector.
ghost use Rattle.std.specs.Prelude.{◌≡◌, ◌↔◌, ◌<◌, length, IfSome, IsNone, IsTrue};
ghost use Rattle.pblk_model.specs.Geometry.{IsAddress};
ghost use Rattle.ocssd_geometry.specs.Numbers.{numbers_of};
ghost use Rattle.vector_io.specs.Plans.{unit_of};
ghost use Rattle.vector_io.specs.Addresses.{AreApart, AreInside, IsRefused, IsRepeated, IsVector, IsFirstOutside, IsFirstRepeated};

use crate::vector::VectorErr;
use ocssd_geometry::Geometry;
use pblk_model::Address;

/// Why these addresses are no vector.
pub(crate) fn refusal(addresses: &[Address], geometry: &Geometry) -> Option<VectorErr>
    ensures refused { IfSome result (IsRefused (numbers_of geometry.now) addresses.now) }
    ensures none { IsNone result → IsVector (numbers_of geometry.now) addresses.now }
{
    if addresses.is_empty() || addresses.len() > 64 {
        return Some(VectorErr::Count);
    }
    if let Some(index) = first_outside(addresses, geometry) {
        return Some(VectorErr::Address(index));
    }
    match first_repeated(addresses) {
        Some(index) => Some(VectorErr::Repeated(index)),
        None => None,
    }
}

// The first index with an address that isn't one of the drive.
fn first_outside(addresses: &[Address], geometry: &Geometry) -> Option<u32>
    requires { length addresses.now < 65 }
    ensures first { IfSome result (IsFirstOutside (numbers_of geometry.now) addresses.now) }
    ensures none { IsNone result → AreInside (numbers_of geometry.now) addresses.now }
{
    for i in 0..addresses.len() {
        if !is_inside(&addresses[i], geometry) {
            return Some(i as u32);
        }
    }
    None
}

fn is_inside(address: &Address, geometry: &Geometry) -> bool
    ensures { IsTrue result ↔ IsAddress (numbers_of geometry.now) address.now }
{
    address.group < geometry.groups
        && address.pu < geometry.pus
        && address.chunk < geometry.chunks
        && address.block < geometry.clba
}

// The first index with an address that stood before.
fn first_repeated(addresses: &[Address]) -> Option<u32>
    requires { length addresses.now < 65 }
    ensures first { IfSome result (IsFirstRepeated addresses.now) }
    ensures none { IsNone result → AreApart addresses.now }
{
    for i in 0..addresses.len() {
        if stood_before(addresses, i) {
            return Some(i as u32);
        }
    }
    None
}

// Whether the address with this index stood before.
fn stood_before(addresses: &[Address], index: usize) -> bool
    requires { index < length addresses.now }
    ensures { IsTrue result ↔ IsRepeated addresses.now index }
{
    for j in 0..index {
        if is_same(&addresses[j], &addresses[index]) {
            return true;
        }
    }
    false
}

fn is_same(one: &Address, other: &Address) -> bool
    ensures { IsTrue result ↔ (one.now ≡ other.now) }
{
    *one == *other
}

/// The number of an address's unit.
pub(crate) fn unit_of(geometry: &Geometry, address: &Address) -> usize
    ensures { result ≡ unit_of (numbers_of geometry.now) address.now }
{
    usize::from(address.group) * usize::from(geometry.pus) + usize::from(address.pu)
}
