//! The one that takes.
ghost use Rattle.std.specs.Prelude.{◌≡◌, ◌<◌, ◌^◌};
ghost use Rattle.pblk_model.specs.Frames.{count_out};
ghost use Rattle.write_ring.specs.Handles.{intake_view};
ghost use Rattle.ring_crew.specs.Ready.{IsTaker, freed_after};

use crate::crew::Job;
use crate::maker::MAKERS;
use crate::sectors::has_number;
use crossbeam_utils::Backoff;
use sector_pool::{Entry, Pool};
use std::sync::Wait;
use std::sync::atomic::{AtomicBool, Ordering};
use write_ring::{Intake, Ring, Taken};

/// No position is claimed from here on.
const MOST: u64 = 1 << 62;

// Users are granted more positions once so many entries are taken.
const GRANT_AFTER: u32 = 32;

/// What the intake got.
#[derive(Clone, Copy, Debug, PartialEq, Eq, Drop)]
pub enum Got {
    /// An entry: its position, and its sector.
    Entry(u64, u64),
    /// An entry, at this position, whose bytes have another number than its sector.
    Wrong(u64),
    /// None, and nothing is claimed from this position on.
    Empty(u64),
    /// None, and this position is claimed.
    Unfilled(u64),
}

impl Got {
    /// The first position that isn't freed now.
    pub fn freed(self) -> u64
        requires small { freed_after self < 2 ^ 63 }
        ensures { result ≡ freed_after self }
    {
        match self {
            Got::Entry(position, _) | Got::Wrong(position) => position + 1,
            Got::Empty(at) | Got::Unfilled(at) => at,
        }
    }
}

// Whether the bytes have this number, or aren't looked at.
fn is_right(looks: bool, bytes: &[u8], lba: u64) -> bool {
    !looks || has_number(bytes, lba)
}

/// The next entry is taken, and its slot is free again. Where it is asked for, the bytes are looked at.
pub fn take(ring: &Ring, intake: &mut Intake, room: u32, looks: bool) -> Got
    requires taker { IsTaker ring.now intake.old room }
    ensures taker { IsTaker ring.now intake.new room }
    ensures freed { freed_after result ≡ (intake_view intake.new).intake.freed }
    ensures small { freed_after result < 2 ^ 63 }
{
    match ring.take(intake) {
        Taken::Entry(entry) => {
            let Entry {
                position,
                class: _,
                lba,
                source: _,
                frame,
            } = entry;
            let is_right = is_right(looks, frame.bytes(), lba);
            ring.free(intake, frame);
            if is_right {
                Got::Entry(position, lba)
            } else {
                Got::Wrong(position)
            }
        }
        Taken::Empty { claimed } => Got::Empty(claimed),
        Taken::Unfilled { at } => Got::Unfilled(at),
    }
}

/// Users are granted all positions that have room beside the reserve, if these end by 2^62.
pub fn grant(ring: &Ring, intake: &mut Intake, freed: u64, room: u32)
    requires taker { IsTaker ring.now intake.old room }
    requires freed { freed ≡ (intake_view intake.old).intake.freed }
    ensures taker { IsTaker ring.now intake.new room }
{
    let room = u64::from(room);
    if freed <= MOST - room {
        ring.grant(intake, freed + room);
    }
}

/// How many entries were taken, and of how many it was right that they were the next ones, with the numbers of
/// their sectors, and that each maker's came in the order of its turns.
#[derive(Clone, Copy, Debug, PartialEq, Eq, Drop)]
pub struct Tally {
    /// All of them.
    pub taken: u64,
    /// Those that were right.
    pub right: u64,
}

// Whether this is the next turn of the sector's maker.
fn is_next_turn(turns: &mut [u64; MAKERS as usize], lba: u64) -> bool {
    let maker = (lba % MAKERS) as usize;
    let turn = turns[maker];
    turns[maker] = turn.wrapping_add(1);
    lba / MAKERS == turn
}

/// Takes all entries of a ring that began at 0, until there are no more and the makers have ended.
pub(crate) fn take_all<R: Wait>(
    rt: &R,
    ring: &Ring,
    intake: &mut Intake,
    job: &Job,
    ended: &AtomicBool,
) -> Tally
    requires taker { IsTaker ring.now intake.old job.now.size }
    ensures taker { IsTaker ring.now intake.new job.now.size }
{
    let mut turns = [0; MAKERS as usize];
    let mut taken = 0u64;
    let mut right = 0u64;
    let mut owed = 0u32;
    let backoff = Backoff::new();
    for _ in rt.forever() {
        let last = ended.load(Ordering::SeqCst);
        let got = take(ring, intake, job.size, job.looks);
        let is_idle = matches!(got, Got::Empty(_) | Got::Unfilled(_));
        if is_idle && last && matches!(got, Got::Empty(_)) {
            break;
        }
        if !is_idle {
            taken = taken.wrapping_add(1);
            owed = owed.wrapping_add(1);
            backoff.reset();
        }
        if let Got::Entry(position, lba) = got {
            let is_next = is_next_turn(&mut turns, lba) && position.wrapping_add(1) == taken;
            right = right.wrapping_add(u64::from(is_next));
        }
        if owed >= GRANT_AFTER || (is_idle && owed > 0) {
            grant(ring, intake, got.freed(), job.size);
            owed = 0;
        } else if is_idle {
            backoff.snooze();
        }
    }
    Tally { taken, right }
}

/// Ends a pool that has all its frames.
pub fn end(pool: Pool)
    requires all_in { count_out pool.left ≡ 0 }
{
    match pool.close() {
        Ok(()) => {}
        Err(_pool) => unreachable!(),
    }
}
