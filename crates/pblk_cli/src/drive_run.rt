//! Runs a script on a drive.

ghost use Rattle.std.specs.Prelude.{ℕ, ◌≡◌, ◌≤◌, [], length, Ok, None, Some, IfOk, IfErr};
ghost use Rattle.pblk_model.specs.Script.{NeverStuck, ScriptFits};
ghost use Rattle.block_target.specs.Opened.{CanOpen};
ghost use Rattle.ocssd_drive.specs.Drive.{AreArmedTogether};
ghost use Rattle.run_threads.specs.declared.records.Records.{Records};
ghost use Rattle.run_threads.specs.Run.{IsEvent};
ghost use Rattle.step_laws.specs.Opened.{AreArmed};
ghost use Rattle.pblk_cli.specs.Serving.{AreBack, IsDriveLeft, IsRan, IsServed, helpers_for, units_of};

use crate::serving::serve;
use block_target::{OpenErr, Refused, a_refused_opening_is_of_a_legal_world, open};
use ocssd_drive::{Drive, MemoryUnit};
use pblk_model::{Script, Shape};
use run_threads::{Records, ThreadRows, Trouble};
use std::alloc::{AllocError, Global};
use std::marker::Brand;
use std::sync::Wait;
use std::thread::Threads;

// The units of a drive as a run leaves them, and what the script was answered, unless there was no
// memory to run it.
struct Ran {
    units: Vec<MemoryUnit>,
    records: Result<Records, AllocError>,
}

// Opens a target over the units of a drive, and runs a script on it. Where the opening answers an
// event of a unit, no command is run.
fn open_and_serve<R: Threads + Wait + Sync>(
    rt: &R,
    alloc: Global,
    units: Vec<MemoryUnit>,
    shape: &Shape,
    script: &Script,
    lanes: u32,
    collector: bool,
) -> Ran
    requires opens { CanOpen shape.now (units_of units.items) }
    requires fits { ScriptFits shape.now.capacity script.now }
    requires flows { NeverStuck script.now }
    requires few_lanes { lanes ≤ 8 }
    ensures back { AreBack shape.now units.items result.units.items }
    ensures served { IfOk result.records (IsServed shape.now script.now
        (helpers_for lanes collector) (units_of units.items) (units_of result.units.items)) }
{
    a_refused_opening_is_of_a_legal_world();
    let sessions = script.as_slice().len().max(1) as u32;
    match open(alloc, units, shape, sessions, lanes) {
        Ok(opened) => {
            match serve::<Brand, MemoryUnit, R>(rt, alloc, opened, script, lanes, collector) {
                Ok((units, records)) => Ran {
                    units,
                    records: Ok(records),
                },
                Err((e, units)) => Ran {
                    units,
                    records: Err(e),
                },
            }
        }
        Err(Refused { units, cause }) => Ran {
            units,
            records: not_opened(alloc, cause),
        },
    }
}

// The records of a script that wasn't run, since its target wasn't opened.
fn not_opened(alloc: Global, cause: OpenErr) -> Result<Records, AllocError>
    ensures named { (unit event : ℕ) → cause ≡ OpenErr.Drive unit event
        → IsEvent unit event × IfOk result (λ records. (records.threads ≡ [])
        × (records.opening ≡ Some (Trouble.Drive unit event)) × (records.closing ≡ None)) }
    ensures memory { cause ≡ OpenErr.Memory → (records : Records) → result ≡ Ok records → ⊥ }
{
    match cause {
        OpenErr::Drive { unit, event } => {
            let opening = Trouble::Drive { unit, event };
            Ok(no_records(alloc, Some(opening)))
        }
        OpenErr::Memory => Err(AllocError),
    }
}

// The records of no command.
fn no_records(alloc: Global, opening: Option<Trouble>) -> Records
    ensures { result ≡ record { threads = []; opening = opening; closing = None } }
{
    Records {
        threads: ThreadRows::new(Vec::new(alloc)),
        opening,
        closing: None,
    }
}

/// Opens a target over the units of a drive, runs a script on it, and closes it. The drive is
/// disarmed before the call answers.
///
/// The drive was armed, perhaps with nothing, and the script was accepted for its capacity. Each
/// thread of the script has a session of its own. So many lanes, 8 at most, and a collector where
/// one is asked for, work beside them. Without them the sessions do all work by themselves.
///
/// A program or a reset that fails is no error of the script, and the records don't name it. Each
/// event that the records name was added to that unit's log in this call, and is a fetch that
/// failed or a command that was stopped; no two name the same. None of the opening, of the threads
/// and of the close is left out, and those of each stand in the order in which they were made. What
/// a lane or the collector lost is recorded nowhere. Where opening answers such an event no command
/// is run, and the records say so. Without memory the drive is handed back, disarmed too, and no
/// command was run.
///
/// Whether the image is sealed or not, what a flush counted is synced in the end. So is all that
/// was taken, where neither opening nor the close answered anything.
pub fn run_drive<R: Threads + Wait + Sync>(
    rt: &R,
    alloc: Global,
    drive: Drive,
    script: &Script,
    lanes: u32,
    collector: bool,
) -> Result<(Drive, Records), (AllocError, Drive)>
    requires together { AreArmedTogether drive.units }
    requires armed { AreArmed (units_of drive.units) }
    requires fits { ScriptFits drive.capacity script.now }
    requires flows { NeverStuck script.now }
    requires few_lanes { lanes ≤ 8 }
    ensures ran { IfOk result (λ ran. IsRan drive script.now (helpers_for lanes collector)
        ran.0 ran.1) }
    ensures handed_back { IfErr result (λ refused. IsDriveLeft drive refused.1) }
{
    let shape = drive.shape();
    let Drive {
        geometry,
        sector,
        capacity,
        ring,
        units,
    } = drive;
    let Ran { units, records } = open_and_serve(rt, alloc, units, &shape, script, lanes, collector);
    let mut drive = Drive {
        geometry,
        sector,
        capacity,
        ring,
        units,
    };
    drive.disarm();
    match records {
        Ok(records) => Ok((drive, records)),
        Err(e) => Err((e, drive)),
    }
}
