//! Lanes, and threads of scripts, program at once.
ghost use Rattle.std.specs.Prelude.{◌≡◌, ◌≤◌, length, map, IfOk};
ghost use Rattle.block_target.specs.Opened.{CanOpen};
ghost use Rattle.pblk_model.specs.Script.{NeverStuck, ScriptFits};

use crate::gate::{Gate, HeldUnit};
use crate::harness::created;
use block_target::{Refused, open};
use drive_image::load;
use ocssd_drive::MemoryUnit;
use pblk_cli::serve;
use pblk_model::{Script, Shape};
use run_script::read_script;
use run_threads::{Answer, Records};
use std::alloc::{AllocError, Global};
use std::marker::Brand;
use std::sync::Wait;
use std::test::Fail;
use std::thread::Threads;
use target_crew::armed;
use unit_port::Unit;

// The units behind a gate. The first one holds its second program, since its first is that of a
// start record. Each other one holds its first.
fn held<'g>(
    alloc: Global,
    gate: &'g Gate,
    units: Vec<MemoryUnit>,
) -> Result<Vec<HeldUnit<'g>>, AllocError>
    ensures { IfOk result (λ hs. map (λ h. h.unit.unit) hs.items
        ≡ map (λ u. u.unit) units.items) }
{
    let mut made = Vec::new(alloc);
    let mut programs = 2;
    for unit in units {
        made.push(HeldUnit {
            unit,
            gate,
            programs,
        })?;
        programs = 1;
    }
    Ok(made)
}

// Opens a target over units, and runs a script on it beside so many lanes.
fn open_and_serve<U: Unit + Send + Drop, R: Threads + Wait + Sync>(
    rt: &R,
    alloc: Global,
    units: Vec<U>,
    shape: &Shape,
    script: &Script,
    lanes: u32,
) -> Result<Records, Fail>
    requires opens { CanOpen shape.now (map U.model units.items) }
    requires fits { ScriptFits shape.now.capacity script.now }
    requires flows { NeverStuck script.now }
    requires few_lanes { lanes ≤ 8 }
{
    let sessions = script.as_slice().len().max(1) as u32;
    match open(alloc, units, shape, sessions, lanes) {
        Ok(opened) => match serve::<Brand, U, R>(rt, alloc, opened, script, lanes, false) {
            Ok((_, records)) => Ok(records),
            Err((e, _)) => Err(e.into()),
        },
        Err(Refused { units: _, cause }) => Err(cause.into()),
    }
}

// Whether a command, the opening or the close was refused.
fn is_refused(records: &Records) -> bool {
    for answers in records.threads.as_slice() {
        for answer in answers.as_slice() {
            if let Answer::Range | Answer::Refused(_) = answer {
                return true;
            }
        }
    }
    records.opening.is_some() || records.closing.is_some()
}

// Runs a script on the drive of an image of so many units, beside so many lanes. All units hold
// their first programs of data at once.
fn all_hold<R: Threads + Wait + Sync>(
    rt: &R,
    alloc: Global,
    image: &[u8],
    script: &str,
    lanes: u32,
) -> Result<(), Fail>
    requires few_lanes { lanes ≤ 8 }
{
    let drive = load(alloc, image)?;
    let (shape, units) = armed(alloc, drive, &[], None)?;
    let script = read_script(alloc, script.as_bytes(), shape.capacity)?;
    let gate = Gate::new(units.len() as u64);
    let units = held(alloc, &gate, units)?;
    let records = open_and_serve(rt, alloc, units, &shape, &script, lanes)?;
    if is_refused(&records) {
        return Err(Fail::new("a command was refused"));
    }
    if !gate.has_opened() {
        return Err(Fail::new("a program was held too long"));
    }
    Ok(())
}

#[test]
fn a_session_and_two_lanes_program_at_once(rt: HostRuntime) -> Result<(), Fail> {
    let image = created(&rt, rt.alloc(), " --units 3 --ring 128")?;
    all_hold(&rt, rt.alloc(), &image, "thread\nw 0 12 1\nf\n", 2)
}

#[test]
fn two_threads_program_at_once(rt: HostRuntime) -> Result<(), Fail> {
    let image = created(&rt, rt.alloc(), "")?;
    let script = "thread\nw 0 4 1\nf\nthread\nw 4 4 2\nf\n";
    all_hold(&rt, rt.alloc(), &image, script, 0)
}
