//! The drive on which sessions are measured.
ghost use Rattle.std.specs.Prelude.{map, IfOk};
ghost use Rattle.block_target.specs.Opened.{CanOpen};

use anyhow::{Result, bail};
use ocssd_drive::{Drive, Geometry, MemoryUnit};
use pblk_model::Shape;
use std::alloc::Global;
use target_crew::armed;

/// How many bytes a sector has.
pub(crate) const SECTOR: usize = 4096;

/// How many sectors the target has.
pub(crate) const CAPACITY: u64 = 4000;

/// How many sectors its ring has.
const RING: u32 = 2048;

/// The shape of a blank drive of two groups of four units, and its units.
pub(crate) fn units(alloc: Global) -> Result<(Shape, Vec<MemoryUnit>)>
    ensures { IfOk result (λ r. CanOpen r.0 (map (λ u. u.unit) r.1.items)) }
{
    let geometry = Geometry {
        lengths: [8, 8, 16, 16],
        groups: 2,
        pus: 4,
        chunks: 16,
        clba: 96,
        ws_min: 24,
        ws_opt: 24,
        mw_cunits: 48,
        ..Geometry::small()
    };
    if geometry.refusal().is_some() {
        bail!("no geometry");
    }
    if Drive::refusal(&geometry, SECTOR as u32, CAPACITY, RING).is_some() {
        bail!("no drive");
    }
    let drive = Drive::new(alloc, geometry, SECTOR as u32, CAPACITY, RING)?;
    Ok(armed(alloc, drive, &[], None)?)
}
