//! Which records count, and the newest of them.

ghost use Rattle.std.specs.Prelude.{◌≡◌, ◌+◌, ◌<◌, ◌≤◌, ◌^◌, ◌++◌, [], ◌∷◌, ℕ, List, Option, length, Some, IfOk, IfSome, OnOk};
ghost use Rattle.std.specs.List.{AllByRecursion, filter};
ghost use Rattle.std.specs.Option.{option_map};
ghost use Rattle.pblk_model.specs.Contents.{newer};
ghost use Rattle.pblk_model.specs.Records.{Record};
ghost use Rattle.pblk_model.specs.StartRecord.{StartRecord as HeadRecord};
ghost use Rattle.scan_recovery.specs.Counted.{IsCountedOf, is_below};
ghost use Rattle.scan_recovery.specs.Mounts.{IsCount, IsMount, head_of};
ghost use Rattle.scan_recovery.specs.Tally.{IsTally};
ghost use Rattle.scan_recovery.specs.Traces.{bare, bares};

use crate::ending::end_after;
use crate::mount::Mount;
use crate::trace::{Trace, is_newer};
use std::alloc::{AllocError, Global};

/// The newest of the records that were noted, for each sector; for each line one past the greatest
/// position of those of it; and how many of all have a sector.
#[derive(Debug, Drop)]
pub(crate) struct Tally {
    pub winners: Vec<Option<Trace>>,
    pub tops: Vec<u64>,
    pub named: u64,
}

/// What the records that were seen so far come to, before it is known where the positions of the
/// head's mount end: the tally of those that count wherever that is, and a list of those that count
/// only where it is past their positions. All others are forgotten.
#[derive(Debug, Drop)]
pub(crate) struct Count {
    pub tally: Tally,
    pub late: Vec<Trace>,
}

/// The tally of all records that count, and where the positions of the head's mount end.
#[derive(Debug, Drop)]
pub(crate) struct Counted {
    pub tally: Tally,
    pub end: u64,
}

impl Count {
    /// That of no records, on a drive of so many user sectors and lines.
    pub(crate) fn new(alloc: Global, sectors: u64, lines: u32) -> Result<Count, AllocError>
        ensures { (o : Option HeadRecord) → IfOk result (IsCount sectors lines o []) }
    {
        Ok(Count {
            tally: Tally::new(alloc, sectors, lines)?,
            late: Vec::new(alloc),
        })
    }

    /// One record more.
    pub(crate) fn add(&mut self, mount: &Mount, t: &Trace) -> Result<(), AllocError>
        requires mount { IsMount mount.now }
        requires line { t.now.line < length mount.now.rows.items }
        requires tops { length self.old.tally.tops.items ≡ length mount.now.rows.items }
        ensures { (sectors : ℕ) (rs : List Record)
            → IsCount sectors (length mount.now.rows.items) (head_of mount.now) rs self.old
            → OnOk result (IsCount sectors (length mount.now.rows.items) (head_of mount.now)
            (rs ++ bare t.now ∷ []) self.new) }
    {
        if mount.is_settled(t) {
            self.tally.note(t);
        } else if mount.is_late(t) {
            self.late.push(*t)?;
        }
        Ok(())
    }

    /// What all records come to.
    pub(crate) fn finish(self, alloc: Global, mount: &Mount) -> Result<Counted, AllocError>
        requires mount { IsMount mount.now }
        requires few { length self.late.items ≤ 2 ^ 26 }
        requires within { AllByRecursion (λ t. t.line < length self.tally.tops.items)
            self.late.items }
        ensures counted { (sectors lines : ℕ) (rs : List Record)
            → IsCount sectors lines (head_of mount.now) rs self
            → IfOk result (IsCountedOf sectors lines (head_of mount.now) rs) }
        ensures tops { IfOk result (λ c. length c.tally.tops.items ≡ length self.tally.tops.items) }
    {
        let end = end_after(alloc, &self.late, &mount.head)?;
        let mut tally = self.tally;
        tally.note_below(&self.late, end);
        Ok(Counted { tally, end })
    }
}

impl Tally {
    // That of no records.
    fn new(alloc: Global, sectors: u64, lines: u32) -> Result<Tally, AllocError>
        ensures tally { IfOk result (IsTally sectors lines []) }
    {
        let winners = vec![in alloc; None; sectors as usize]?;
        let tops = vec![in alloc; 0; lines as usize]?;
        Ok(Tally {
            winners,
            tops,
            named: 0,
        })
    }

    // All records below an end more.
    fn note_below(&mut self, traces: &[Trace], end: u64)
        requires within { AllByRecursion (λ t. t.line < length self.old.tops.items) traces.now }
        ensures tally { (sectors lines : ℕ) (rs : List Record) → IsTally sectors lines rs self.old
            → IsTally sectors lines (rs ++ filter (is_below end) (bares traces.now)) self.new }
        ensures tops { length self.new.tops.items ≡ length self.old.tops.items }
    {
        for t in traces {
            if t.position < end {
                self.note(t);
            }
        }
    }

    // One record more.
    fn note(&mut self, t: &Trace)
        requires line { t.now.line < length self.old.tops.items }
        requires low { t.now.position + 1 < 2 ^ 64 }
        ensures tally { (sectors lines : ℕ) (rs : List Record) → IsTally sectors lines rs self.old
            → IsTally sectors lines (rs ++ bare t.now ∷ []) self.new }
        ensures tops { length self.new.tops.items ≡ length self.old.tops.items }
    {
        let line = t.line as usize;
        self.tops[line] = self.tops[line].max(t.position + 1);
        if let Some(lba) = t.lba {
            self.named = self.named.saturating_add(1);
            let place = lba as usize;
            if place < self.winners.len() {
                let best = newer(&self.winners[place], t);
                self.winners[place] = Some(best);
            }
        }
    }
}

fn newer(best: &Option<Trace>, t: &Trace) -> Trace
    ensures { Some (bare result) ≡ newer (option_map bare best.now) (bare t.now) }
{
    match best {
        None => *t,
        Some(best) => { if is_newer(best, t) { *t } else { *best } }
    }
}
