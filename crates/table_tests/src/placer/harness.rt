//! A placer and the plain one, which are asked the same.
ghost use Rattle.std.specs.Prelude.{◌≡◌};

use pblk_layout::Layout;
use plain_placer::PlainPlacer;
use std::alloc::{AllocError, Global};
use stripe_placer::{Placement, Placer, StripeKind};

/// What is asked of both.
#[derive(Clone, Copy, Debug)]
pub(crate) enum Asked {
    /// A new entry waits.
    Wait(u64),
    /// An entry that was lost waits.
    WaitLost(u64),
    PadTo(u64),
    /// The line, and its units as bits.
    Begin(u32, u64),
    /// The next stripe, by the units that are busy.
    Next(u64),
    /// The next stripe, which is then placed.
    Place(u64),
    /// What this unit has under way has landed.
    Landed(u32),
    Lost(u32),
    Stopped(u32),
}

/// What they told.
#[derive(Clone, Copy, Debug, PartialEq, Eq)]
pub(crate) enum Told {
    Done,
    Refused,
    /// There is no next stripe.
    Nothing,
    /// The line, the line address, the unit and the block.
    Start(u32, u32, u32, u32),
    /// The same, and how many entries there are and the position of the first.
    Data(u32, u32, u32, u32, u32, u64),
    Pad(u32, u32, u32, u32),
    End(u32, u32, u32, u32),
    /// The two told different stripes.
    Differ,
}

/// Both placers, and what was placed last on each unit.
#[derive(Drop)]
pub(crate) struct Pair {
    fast: Placer,
    plain: PlainPlacer,
    last: Vec<Option<Placement>>,
    ghost same: { fast ≡ plain },
}

fn told_of(of: &Placement, entries: &[u64]) -> Told {
    match of.kind {
        StripeKind::Start => Told::Start(of.line, of.at, of.unit, of.block),
        StripeKind::Data => Told::Data(
            of.line,
            of.at,
            of.unit,
            of.block,
            of.count,
            entries.first().copied().unwrap_or(0),
        ),
        StripeKind::Pad => Told::Pad(of.line, of.at, of.unit, of.block),
        StripeKind::End => Told::End(of.line, of.at, of.unit, of.block),
    }
}

impl Pair {
    /// The pair of a blank drive.
    pub(crate) fn new(alloc: Global, layout: &Layout) -> Result<Pair, AllocError> {
        Ok(Pair {
            fast: Placer::new(alloc, layout)?,
            plain: PlainPlacer::new(alloc, layout)?,
            last: vec![in alloc; None; 64]?,
        })
    }

    fn wait(&mut self, alloc: Global, position: u64, lost: bool) -> Result<Told, AllocError> {
        if !self.plain.can_wait(alloc, position, lost)? {
            return Ok(Told::Refused);
        }
        self.plain.wait(alloc, position, lost)?;
        self.fast.wait(position, lost);
        Ok(Told::Done)
    }

    fn pad_to(&mut self, position: u64) -> Told {
        self.plain.pad_to(position);
        self.fast.pad_to(position);
        Told::Done
    }

    fn begin(&mut self, alloc: Global, line: u32, online: u64) -> Result<Told, AllocError> {
        if !self.plain.can_begin(line, online) {
            return Ok(Told::Refused);
        }
        self.plain.begin(alloc, line, online)?;
        self.fast.begin(line, online);
        Ok(Told::Done)
    }

    fn next(&self, alloc: Global, busy: u64) -> Result<Told, AllocError> {
        match (self.fast.next_stripe(busy), self.plain.next_stripe(busy)) {
            (None, None) => Ok(Told::Nothing),
            (Some(fast), Some(plain)) if fast == plain => {
                let entries = self.plain.positions_of(alloc, &plain)?;
                Ok(told_of(&plain, &entries))
            }
            _ => Ok(Told::Differ),
        }
    }

    fn place(&mut self, alloc: Global, busy: u64) -> Result<Told, AllocError> {
        match self.fast.next_stripe(busy) {
            None => Ok(Told::Nothing),
            Some(of) => {
                let entries = self.plain.positions_of(alloc, &of)?;
                self.plain.placed(alloc, &of)?;
                self.fast.placed(&of);
                if let Some(last) = self.last.get_mut(of.unit as usize) {
                    *last = Some(of);
                }
                Ok(told_of(&of, &entries))
            }
        }
    }

    /// The positions of the entries that this unit has under way.
    pub(crate) fn entries(&self, alloc: Global, unit: u32) -> Result<Vec<u64>, AllocError> {
        match self.last.get(unit as usize).copied().flatten() {
            None => Ok(Vec::new(alloc)),
            Some(of) => self.plain.positions_of(alloc, &of),
        }
    }

    fn answer(&mut self, alloc: Global, unit: u32, asked: Asked) -> Result<Told, AllocError> {
        let Some(of) = self.last.get(unit as usize).copied().flatten() else {
            return Ok(Told::Refused);
        };
        if !self.plain.is_under_way(&of) {
            return Ok(Told::Refused);
        }
        let entries = self.plain.positions_of(alloc, &of)?;
        match asked {
            Asked::Landed(_) => {
                self.plain.landed(&of);
                self.fast.landed(&of);
            }
            Asked::Lost(_) => {
                self.plain.lost(&of);
                self.fast.lost(&of);
            }
            _ => {
                self.plain.stopped(&of);
                self.fast.stopped(&of);
            }
        }
        Ok(told_of(&of, &entries))
    }

    /// Asks both, unless the call's condition doesn't hold.
    pub(crate) fn ask(&mut self, alloc: Global, asked: Asked) -> Result<Told, AllocError> {
        match asked {
            Asked::Wait(position) => self.wait(alloc, position, false),
            Asked::WaitLost(position) => self.wait(alloc, position, true),
            Asked::PadTo(position) => Ok(self.pad_to(position)),
            Asked::Begin(line, online) => self.begin(alloc, line, online),
            Asked::Next(busy) => self.next(alloc, busy),
            Asked::Place(busy) => self.place(alloc, busy),
            Asked::Landed(unit) | Asked::Lost(unit) | Asked::Stopped(unit) => {
                self.answer(alloc, unit, asked)
            }
        }
    }
}
