//! The placer of a blank drive, and one line that loses its first stripe and so takes pads alone.
ghost use Rattle.std.specs.Prelude.{◌≡◌, ◌≢◌, ◌<◌, ◌^◌, length, IfSome, IfOk, []};
ghost use Rattle.pblk_model.specs.Shape.{units};
ghost use Rattle.pblk_model.specs.LineOrder.{data_len};
ghost use Rattle.pblk_layout.specs.Online.{units_in};
ghost use Rattle.stripe_placer.specs.Placing.{program, IsUnderWay, IsNext};

use crate::draw::DRAWS;
use crate::drive::Drive;
use crate::sheet::Sheet;
use anyhow::{Context, Result, ensure};
use pblk_layout::Layout;
use std::alloc::{AllocError, Global};
use std::rt::Clock;
use stripe_placer::{Placement, Placer};

#[derive(Drop)]
pub(crate) struct Stripes {
    placer: Placer,
    units: u32,
    ghost rows: { length placer.units ≡ units },
}

/// Which answer a stripe gets.
#[derive(Clone, Copy, Debug)]
enum Answer {
    Landed,
    Lost,
    Stopped,
}

// All units of a drive, where a line of all of them has data.
fn all_units(layout: &Layout) -> Option<u64>
    ensures units { IfSome result (λ online. online < 2 ^ units layout.now) }
    ensures data { IfSome result (λ online. data_len layout.now (length (units_in online)) ≢ 0) }
{
    let count = layout.shape().units();
    if count >= 64 {
        return None;
    }
    let online = (1u64 << count).wrapping_sub(1);
    if online < 1 << count && layout.data_len(layout.width(online)) != 0 {
        Some(online)
    } else {
        None
    }
}

impl Stripes {
    // No line is open.
    fn new(alloc: Global, drive: &Drive) -> Result<Stripes, AllocError>
        ensures none { IfOk result (λ s. s.placer.lines ≡ []) }
        ensures shape { IfOk result (λ s. s.placer.shape ≡ drive.now.layout) }
    {
        let layout = drive.layout;
        let units = layout.shape().units();
        let placer = Placer::new(alloc, &layout)?;
        Ok(Stripes { placer, units })
    }

    // Line 0 is opened, of these units.
    fn begin(&mut self, online: u64) -> u64
        requires line { 0 < self.old.placer.shape.chunks }
        requires none { self.old.placer.lines ≡ [] }
        requires units { online < 2 ^ units self.old.placer.shape }
        requires data { data_len self.old.placer.shape (length (units_in online)) ≢ 0 }
    {
        self.placer.begin(0, online);
        1
    }

    // How many of the looks find a stripe.
    fn look(&self) -> u64 {
        let mut sum = 0u64;
        for turn in 0..DRAWS {
            let found = self.placer.next_stripe(turn & 1);
            sum = sum.wrapping_add(u64::from(found.is_some()));
        }
        sum
    }

    fn pad_to(&mut self) -> u64 {
        for position in 0..DRAWS {
            self.placer.pad_to(position);
        }
        DRAWS
    }

    fn place(&mut self, of: &Placement)
        requires unit { of.now.unit < self.old.units }
        requires next { IsNext self.old.placer (program self.old.placer of.now) }
        ensures under_way { IsUnderWay self.new.placer (program self.new.placer of.now) }
    {
        self.placer.placed(of);
    }

    fn answer(&mut self, of: &Placement, answer: Answer)
        requires { IsUnderWay self.old.placer (program self.old.placer of.now) }
    {
        match answer {
            Answer::Landed => self.placer.landed(of),
            Answer::Lost => self.placer.lost(of),
            Answer::Stopped => self.placer.stopped(of),
        }
    }

    // Places the next stripe, which gets this answer. Each of the two calls is measured by itself, under its
    // name.
    fn step<C: Clock>(
        &mut self,
        clock: &C,
        sheet: &mut Sheet,
        answer: Answer,
        names: (&'static str, &'static str),
    ) -> Result<()> {
        let of = self.placer.next_stripe(0).context("a stripe is next")?;
        ensure!(of.unit < self.units, "its unit is one of the drive");
        sheet.start(clock)?;
        self.place(&of);
        sheet.stop(clock, names.0, 1, 1)?;
        sheet.start(clock)?;
        self.answer(&of, answer);
        sheet.stop(clock, names.1, 1, 1)
    }

    // So many stripes get an answer each.
    fn steps<C: Clock>(
        &mut self,
        clock: &C,
        sheet: &mut Sheet,
        turns: u32,
        answer: Answer,
        names: (&'static str, &'static str),
    ) -> Result<()> {
        for _ in 0..turns {
            self.step(clock, sheet, answer, names)?;
        }
        Ok(())
    }

    // Measures the calls on a line that was begun.
    fn round<C: Clock>(&mut self, clock: &C, sheet: &mut Sheet) -> Result<()> {
        sheet.start(clock)?;
        let sum = self.look();
        sheet.stop(clock, "placer.next_stripe", DRAWS, sum)?;
        sheet.start(clock)?;
        let sum = self.pad_to();
        sheet.stop(clock, "placer.pad_to", DRAWS, sum)?;
        let stopped = ("placer.placed again", "placer.stopped");
        self.steps(clock, sheet, 6, Answer::Stopped, stopped)?;
        let lost = ("placer.placed again", "placer.lost");
        self.steps(clock, sheet, 1, Answer::Lost, lost)?;
        let landed = ("placer.placed", "placer.landed");
        self.steps(clock, sheet, 6, Answer::Landed, landed)
    }
}

/// Measures each call.
pub(crate) fn measure<C: Clock>(
    alloc: Global,
    clock: &C,
    sheet: &mut Sheet,
    drive: &Drive,
) -> Result<()> {
    let layout = drive.layout;
    ensure!(layout.shape().chunks != 0, "a drive has a line");
    let online = all_units(&layout).context("a line has data")?;
    let mut stripes = Stripes::new(alloc, drive)?;
    sheet.start(clock)?;
    let sum = stripes.begin(online);
    sheet.stop(clock, "placer.begin", 1, sum)?;
    stripes.round(clock, sheet)
}
