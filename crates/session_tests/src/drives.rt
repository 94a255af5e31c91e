//! Drives in memory.
ghost use Rattle.std.specs.Prelude.{ℕ, ◌≡◌, length, slice_get, IfOk, IsTrue, Some};
ghost use Rattle.ocssd_drive.specs.Units.{IsUnitOf, WornUnit};
ghost use Rattle.ocssd_geometry.specs.Numbers.{IsGeometry, numbers_of};
ghost use Rattle.pblk_model.specs.Accepted.{IsAccepted};
ghost use Rattle.pblk_model.specs.Geometry.{shape_with};
ghost use Rattle.pblk_model.specs.Shape.{units as units_of};

use ocssd_drive::{Drive, Geometry, MemoryUnit};
use pblk_model::Shape;
use std::alloc::Global;
use std::test::Fail;

/// The small drive: two units, and a target of 64 sectors.
pub(crate) const SMALL: Shape = Shape::SMALL;

/// Two groups of four units, and a target of 405 sectors.
pub(crate) const EIGHT_UNITS: Shape = Shape {
    groups: 2,
    pus: 4,
    capacity: 405,
    ring: 256,
    ..SMALL
};

/// The small drive with more chunks.
pub(crate) const MORE_CHUNKS: Shape = Shape {
    chunks: 32,
    ..SMALL
};

// The geometry of a drive of this shape.
fn geometry_of(shape: &Shape) -> Result<Geometry, Fail>
    ensures geometry { IfOk result IsGeometry }
    ensures accepted { IfOk result (λ g. IsAccepted
        (shape_with (numbers_of g) shape.now.sector shape.now.capacity shape.now.ring)) }
{
    let geometry = Geometry {
        lengths: [8, 8, 16, 16],
        groups: shape.groups,
        pus: shape.pus,
        chunks: shape.chunks,
        clba: shape.clba,
        ws_min: shape.ws_min,
        ws_opt: shape.ws_opt,
        mw_cunits: shape.mw_cunits,
        ..Geometry::small()
    };
    if let Some(refusal) = geometry.refusal() {
        return Err(refusal.into());
    }
    match Drive::refusal(&geometry, shape.sector, shape.capacity, shape.ring) {
        Some(refusal) => Err(refusal.into()),
        None => Ok(geometry),
    }
}

/// A blank drive of this shape.
pub(crate) fn blank(alloc: Global, shape: &Shape) -> Result<Drive, Fail> {
    let geometry = geometry_of(shape)?;
    Ok(Drive::new(alloc, geometry, shape.sector, shape.capacity, shape.ring)?)
}

// Whether this is a unit of a drive of this shape.
fn is_unit(shape: &Shape, unit: &MemoryUnit) -> bool
    ensures { IsTrue result → IsUnitOf shape.now unit.now }
{
    unit.shape() == *shape
}

// Whether these are units of a drive of this shape, as many as it has.
fn are_units(shape: &Shape, units: &[MemoryUnit]) -> bool
    requires accepted { IsAccepted shape.now }
    ensures count { IsTrue result → length units.now ≡ units_of shape.now }
    ensures fit { IsTrue result → (k : ℕ) (u : WornUnit) → slice_get units.now k ≡ Some u
        → IsUnitOf shape.now u }
{
    for index in 0..units.len() {
        if !is_unit(shape, &units[index]) {
            return false;
        }
    }
    units.len() == shape.units() as usize
}

/// The drive of these units.
pub(crate) fn again(shape: &Shape, units: Vec<MemoryUnit>) -> Result<Drive, Fail> {
    let geometry = geometry_of(shape)?;
    let own = geometry.shape(shape.sector, shape.capacity, shape.ring);
    if !are_units(&own, units.as_slice()) {
        return Err(Fail::new("other units"));
    }
    Ok(Drive {
        geometry,
        sector: shape.sector,
        capacity: shape.capacity,
        ring: shape.ring,
        units,
    })
}
