//! Measures the calls of the tables that a target keeps: its pool of frames, its map, its window,
//! its lines, its victims and its placer.
//!
//! The words are a drive, `small` or `realistic`, and how many rounds. A line for each call has its
//! name, how often a round makes it, and the nanoseconds of the quickest round. Without the second
//! word there is one round, and in place of the time stands what the answers sum up to, which
//! doesn't depend on the machine.
#![tactic(auto)]

mod blank;
mod buffer;
mod draw;
mod drive;
mod sectors;
mod sheet;
mod stripes;
mod table;
mod victims;
mod waits;

use anyhow::{Context, Result, ensure};
use buffer::Buffer;
use drive::{Drive, drive_named};
use pblk_model::Shape;
use pblk_outside::real_words;
use sectors::Sectors;
use sheet::Sheet;
use std::alloc::Global;
use std::rt::Clock;
use table::Table;

/// What the words ask for.
#[derive(Clone, Copy, Debug)]
struct Asked {
    drive: Drive,
    rounds: u32,
    has_times: bool,
}

fn asked_by(words: &[String]) -> Result<Asked> {
    ensure!(
        words.len() == 1 || words.len() == 2,
        "a drive and perhaps a number of rounds"
    );
    let drive = drive_named(words[0].as_str()).context("the drives are small and realistic")?;
    if words.len() == 1 {
        return Ok(Asked {
            drive,
            rounds: 1,
            has_times: false,
        });
    }
    let rounds = words[1]
        .as_str()
        .parse::<u32>()
        .context("a number of rounds")?;
    Ok(Asked {
        drive,
        rounds,
        has_times: true,
    })
}

// What the clock itself takes.
fn measure_nothing<C: Clock>(clock: &C, sheet: &mut Sheet, rounds: u32) -> Result<()> {
    for _ in 0..rounds {
        sheet.start(clock)?;
        sheet.stop(clock, "clock", 1, 0)?;
    }
    Ok(())
}

fn measure_sectors<C: Clock>(
    alloc: Global,
    clock: &C,
    sheet: &mut Sheet,
    shape: &Shape,
    rounds: u32,
) -> Result<()> {
    let mut sectors = Sectors::new(alloc, shape.capacity)?;
    for _ in 0..rounds {
        sectors.round(clock, sheet)?;
    }
    Ok(())
}

fn measure_table<C: Clock>(
    alloc: Global,
    clock: &C,
    sheet: &mut Sheet,
    drive: &Drive,
    rounds: u32,
) -> Result<()> {
    let mut table = Table::new(alloc, drive)?;
    for _ in 0..rounds {
        table.round(clock, sheet)?;
    }
    Ok(())
}

fn measure_buffer<C: Clock>(
    alloc: Global,
    clock: &C,
    sheet: &mut Sheet,
    shape: &Shape,
    rounds: u32,
) -> Result<()> {
    let mut buffer = Buffer::new(alloc, shape)?;
    let measured = buffer.rounds(clock, sheet, rounds);
    buffer.close();
    measured
}

fn main(rt: HostRuntime) -> Result<()> {
    let alloc = rt.alloc();
    let words = real_words(alloc, &rt)?;
    let asked = asked_by(&words)?;
    let drive = asked.drive;
    let mut sheet = Sheet::new(alloc);
    measure_sectors(alloc, &rt, &mut sheet, drive.shape(), asked.rounds)?;
    measure_table(alloc, &rt, &mut sheet, &drive, asked.rounds)?;
    measure_buffer(alloc, &rt, &mut sheet, drive.shape(), asked.rounds)?;
    victims::measure(alloc, &rt, &mut sheet, asked.rounds)?;
    for _ in 0..asked.rounds {
        stripes::measure(alloc, &rt, &mut sheet, &drive)?;
        waits::measure(alloc, &rt, &mut sheet, &drive)?;
    }
    measure_nothing(&rt, &mut sheet, asked.rounds)?;
    sheet.print(&rt, asked.has_times)
}
