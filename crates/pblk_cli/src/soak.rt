//! `soak`: a load on the drive of an image.

ghost use Rattle.std.specs.Prelude.{◌≡◌, IfOk, IfErr};
ghost use Rattle.command_words.specs.Grammar.{IsLoad};
ghost use Rattle.drive_image.specs.Quiet.{IsQuiet};
ghost use Rattle.ocssd_drive.specs.Drive.{stored};
ghost use Rattle.pblk_cli.specs.Commands.{SoakComesTo};
ghost use Rattle.pblk_cli.specs.Endings.{ending_of, reason_of};
ghost use Rattle.pblk_cli.specs.Running.{IsRunOfLoad, RefusesLoad};

use crate::input::read_drive;
use crate::output::Output;
use crate::refusal::Refusal;
use crate::run::{Telling, run_and_store};
use command_words::{FaultPlans, RunOptions};
use load_maker::make;
use ocssd_drive::Drive;
use pblk_outside::Files;
use std::alloc::Global;
use std::sync::Wait;
use std::thread::Threads;

/// The least capacity of a drive that a load is made for, in sectors.
const LEAST_CAPACITY: u64 = 32;

/// Reads an image, makes a load for its drive and runs it there with two lanes and a collector,
/// stores the drive under the image's name, and gives the line that sums the run up.
pub(crate) fn soak<'a, R: Threads + Wait + Sync, F: Files>(
    rt: &R,
    alloc: Global,
    image: &'a str,
    number: u64,
    rounds: u32,
    files: &mut F,
) -> Result<Output, Refusal<'a>>
    requires load { IsLoad number rounds }
    ensures comes { SoakComesTo image.now number rounds (ending_of result)
        (F.view files.old) (F.view files.new) }
    ensures told { (F.view files.new).told ≡ (F.view files.old).told }
{
    let drive = match read_drive(alloc, image, files) {
        Ok(drive) => drive,
        Err(refusal) => return Err(refusal),
    };
    let (stored, output) = match make_and_run(rt, alloc, drive, number, rounds) {
        Ok(made) => made,
        Err(refusal) => return Err(refusal),
    };
    match files.write(image, &stored) {
        Ok(()) => Ok(output),
        Err(_) => Err(Refusal::Failed(image)),
    }
}

// Makes a load for a drive and runs it there: the bytes of the image afterwards, and the status and
// the line of the run. A drive of too few sectors is refused.
fn make_and_run<'a, R: Threads + Wait + Sync>(
    rt: &R,
    alloc: Global,
    drive: Drive,
    number: u64,
    rounds: u32,
) -> Result<(Vec<u8>, Output), Refusal<'a>>
    requires quiet { IsQuiet drive }
    requires load { IsLoad number rounds }
    ensures run { IfOk result (λ made. IsRunOfLoad (stored drive) number rounds
        made.1.status made.1.text.items made.0.items) }
    ensures refused { IfErr result (λ refusal.
        RefusesLoad (stored drive).capacity (reason_of refusal)) }
{
    if drive.capacity < LEAST_CAPACITY {
        return Err(Refusal::Words);
    }
    let load = match make(alloc, number, rounds, drive.capacity) {
        Ok(load) => load,
        Err(_) => return Err(Refusal::Memory),
    };
    let options = RunOptions {
        stop: None,
        plans: FaultPlans::none(),
        lanes: 2,
        collector: true,
    };
    match run_and_store(rt, alloc, drive, &options, &load, Telling::Totals) {
        Ok(made) => Ok(made),
        Err(_) => Err(Refusal::Memory),
    }
}
