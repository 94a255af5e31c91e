//! The units of a drive in memory, as a target is opened over them.
ghost use Rattle.std.specs.Prelude.{◌≡◌, length, map, IfOk, Option};
ghost use Rattle.atomic_table.specs.Seated.{TableId};
ghost use Rattle.block_target.specs.Opened.{CanOpen};
ghost use Rattle.ocssd_drive.specs.Drive.{armed_units, fitting_fuse, shape_of};

use ocssd_drive::{Drive, MemoryUnit};
use pblk_model::Shape;
use std::alloc::{AllocError, Global};
use unit_port::{FaultPlan, Fuse};

// The units of a drive.
fn units_in(drive: Drive) -> Vec<MemoryUnit>
    ensures { result.items ≡ drive.units }
{
    let Drive { units, .. } = drive;
    units
}

/// The shape of a drive, and its units, armed with these plans and this fuse. `serve` can open a
/// target over them.
///
/// Fails only for want of memory. The drive is lost then.
pub fn armed(
    alloc: Global,
    mut drive: Drive,
    plans: &[FaultPlan],
    fuse: Option<Fuse>,
) -> Result<(Shape, Vec<MemoryUnit>), AllocError>
    ensures opens { IfOk result (λ r. CanOpen r.0 (map (λ u. u.unit) r.1.items)) }
    ensures shape { IfOk result (λ r. r.0 ≡ shape_of drive) }
    ensures units { let fits = fitting_fuse (length drive.units) fuse in IfOk result (λ r.
        (word : Option TableId) × (r.1.items ≡ armed_units plans.now fits word drive.units)) }
{
    drive.arm(alloc, plans, fuse)?;
    let shape = drive.shape();
    Ok((shape, units_in(drive)))
}
