//! What a core collects: the line that is the victim at work, and the sectors that are copied out
//! of it (Bjørling, González, Bonnet, FAST 2017, garbage collection). Which line that is are this
//! project's rules "Which line may be a victim", "Choice of the victim" and "A victim's work" in
//! docs/TARGET.md.

ghost use Rattle.std.specs.Prelude.{ℕ, ◌≡◌, ◌≢◌, ◌⊎◌, ◌<◌, ◌≤◌, ◌↔◌, ◌&&◌, true, false, not, replicate, length, max, slice_set, Some, None, IfOk, IfSome, IfNone, IsTrue};
ghost use Rattle.std.specs.Option.{is_some, option_and_then};
ghost use Rattle.std.specs.FinMap as fin;
ghost use Rattle.pblk_world.specs.AtRest.{IsCopyDue};
ghost use Rattle.pblk_world.specs.World.{log_of};
ghost use Rattle.l2p_map.specs.declared.slot.Slot.TheVariants.{Media};
ghost use Rattle.pblk_core.specs.Mounts.{ByItsLogs, CollectsStill, StandsStill, WhereCollecting};
ghost use Rattle.pblk_core.specs.Collecting.{HasPassed, IsBarrenRightly, IsCollecting, IsCopyReady, IsTabled, victim_after, weighed};
ghost use Rattle.pblk_core.specs.Copies.{copy_due, is_copying, searched_to, victim_asks};
ghost use Rattle.pblk_core.specs.Named.{may_copy, pad_of};
ghost use Rattle.pblk_world.specs.Victims.{next_victim};
ghost use Rattle.stripe_placer.specs.Placing.{padded_to};

use crate::target_core::{Core, LAST_POSITION};
use l2p_map::Slot;
use line_table::LineState;
use std::alloc::{AllocError, Global};
use victim_index::{Candidate, Victims};

/// The victim at work, and how far its sectors were copied.
#[derive(Drop)]
pub(crate) struct Collection {
    // the lines that might be collected, as the last choice found them
    pub(crate) lines: Victims,
    // the last weighing of all lines found none that may be collected, and no step since can have
    // made one
    pub(crate) barren: bool,
    // the line that is collected, until it is freed
    pub(crate) victim: Option<u32>,
    // no sector below this one is on the drive in the victim
    pub(crate) cursor: u64,
    // a copy was begun, and its entry isn't taken yet
    pub(crate) under_way: bool,
}

/// A sector that is to be copied, and the block at which it stands.
#[derive(Clone, Copy, Debug, PartialEq, Eq)]
pub struct CopyJob {
    /// Which sector of the target's capacity it is.
    pub lba: u64,
    /// The line of the block.
    pub line: u32,
    /// Its line address there, in blocks.
    pub at: u32,
    /// The position that the map names there.
    pub position: u64,
}

impl Collection {
    /// Nothing is collected on a drive of so many lines. Fails only where there isn't the memory.
    pub(crate) fn new(alloc: Global, lines: u32) -> Result<Collection, AllocError>
        ensures lines { IfOk result (λ c. c.lines ≡ replicate lines None) }
        ensures fresh { IfOk result (λ c. c.barren ≡ false) }
        ensures victim { IfOk result (λ c. c.victim ≡ None) }
        ensures cursor { IfOk result (λ c. c.cursor ≡ 0) }
        ensures idle { IfOk result (λ c. c.under_way ≡ false) }
    {
        Ok(Collection {
            lines: Victims::new(alloc, lines)?,
            barren: false,
            victim: None,
            cursor: 0,
            under_way: false,
        })
    }
}

impl Core {
    /// The sector that is copied next, of the victim at work, and where it stands: the first one
    /// from where the search for the victim's sectors has come to. None exactly where a copy is
    /// under way or none is due: collection isn't due, or no victim is at work or it has no live
    /// sector, or positions are at their end, or there are no more data addresses than entries that
    /// wait (this project's rules "When collection is due", "One victim, one copy", "Last position"
    /// and "When a copy may begin" in docs/TARGET.md).
    pub fn copy_ready(&self) -> Option<CopyJob>
        requires collecting { IsCollecting self.now }
        ensures ready { IfSome result (IsCopyReady self.now) }
        ensures from { IfSome result (λ job. searched_to self.now ≤ job.lba) }
        ensures due { IfSome result (λ job.
            WhereCollecting self.now (λ i w. IsCopyDue i (log_of w))) }
        ensures none { IfNone result (WhereCollecting self.now (λ i w.
            (is_copying self.now ≡ true) ⊎ (¬ IsCopyDue i (log_of w)))) }
    {
        if !self.may_copy() {
            return None;
        }
        match self.collection.victim {
            Some(line) => self.first_in(line),
            None => None,
        }
    }

    // The first sector from the cursor on that is on the drive in the line.
    fn first_in(&self, line: u32) -> Option<CopyJob>
        requires capacity { self.now.layout.capacity ≤ fin.len self.now.map }
        ensures line { IfSome result (λ job. job.line ≡ line) }
        ensures there { IfSome result (λ job.
            fin.get self.now.map job.lba ≡ Some (Media job.line job.at job.position)) }
        ensures from { IfSome result (λ job. self.now.collection.cursor ≤ job.lba) }
        ensures inside { IfSome result (λ job. job.lba < self.now.layout.capacity) }
        ensures first { IfSome result (λ job. (lba at position : ℕ)
            → self.now.collection.cursor ≤ lba → lba < job.lba
            → fin.get self.now.map lba ≢ Some (Media line at position)) }
        ensures none { IfNone result ((lba at position : ℕ)
            → self.now.collection.cursor ≤ lba → lba < self.now.layout.capacity
            → fin.get self.now.map lba ≢ Some (Media line at position)) }
    {
        for lba in self.collection.cursor..self.layout.shape().capacity {
            if let Slot::Media {
                line: of,
                at,
                position,
            } = self.map.get(lba)
            {
                if of == line {
                    return Some(CopyJob {
                        lba,
                        line,
                        at,
                        position,
                    });
                }
            }
        }
        None
    }

    /// Keeps how far the search for the victim's sectors has come: to the sector that `copy_ready`
    /// names. The next search begins there, also where the copy can't be begun yet. So one pass
    /// over the map is enough for each victim.
    pub fn copy_found(&mut self, job: &CopyJob)
        requires ready { IsCopyReady self.old job.now }
        ensures stands { StandsStill self.old self.new }
        ensures collects { CollectsStill self.old self.new }
        ensures ready { IsCopyReady self.new job.now }
        ensures searched { searched_to self.new ≡ job.now.lba }
        ensures copying { is_copying self.new ≡ is_copying self.old }
        ensures rest { self.new ≡ record self.old { collection = self.new.collection } }
    {
        self.collection.cursor = job.lba;
    }

    /// Begins the copy that `copy_ready` names. It is under way until its entry is taken.
    pub fn copy_claimed(&mut self, job: &CopyJob)
        requires ready { IsCopyReady self.old job.now }
        ensures stands { StandsStill self.old self.new }
        ensures collects { CollectsStill self.old self.new }
        ensures copying { is_copying self.new ≡ true }
        ensures rest { self.new ≡ record self.old { collection = self.new.collection } }
    {
        self.copy_found(job);
        self.collection.under_way = true;
    }

    /// Whether a flush may raise the pad target: no sector is to be copied, so collection isn't
    /// due, or no victim at work has a live sector, or no copy may be begun (this project's rule
    /// "A flush sets the pad target" in docs/TARGET.md).
    pub fn may_pad(&self) -> bool
        requires collecting { IsCollecting self.now }
        ensures { WhereCollecting self.now (λ i w. IsTrue result ↔ (¬ IsCopyDue i (log_of w))) }
    {
        !self.is_copy_due()
    }

    // Whether a copy may be begun: one is due, and none is under way.
    pub(crate) fn may_copy(&self) -> bool
        requires collecting { IsCollecting self.now }
        ensures { result ≡ may_copy self.now }
    {
        !self.collection.under_way && self.is_copy_due()
    }

    // Whether a sector of the victim at work is to be copied.
    fn is_copy_due(&self) -> bool
        requires collecting { IsCollecting self.now }
        ensures { result ≡ copy_due self.now }
    {
        let Some(line) = self.collection.victim else {
            return false;
        };
        let has_live = 0 < self.lines.live(line);
        let taken = self.window.taken();
        let waiting = self.placer.waiting();
        let addresses = self.left + self.lines.free_addresses();
        let limit = LAST_POSITION.max(self.first);
        self.is_due() && has_live && taken < limit && waiting < addresses
    }

    // Brings the next line to work as the victim, where none is at work and collection is due.
    // Where no line may be collected, it weighs none until one may have come to be. While
    // collection is due, a victim without live sectors asks for pads up to its taker (this
    // project's rules "A victim's work" and "A victim sets the pad target" in docs/TARGET.md).
    pub(crate) fn choose(&mut self)
        requires tabled { IsTabled self.old }
        requires barren { IsBarrenRightly self.old }
        ensures stands { StandsStill self.old self.new }
        ensures count { length self.new.collection.lines ≡ length self.old.collection.lines }
        ensures victim { ByItsLogs self.old (λ i logs.
            self.new.collection.victim ≡ victim_after i logs self.old.collection.victim) }
        ensures passed { HasPassed self.old → HasPassed self.new }
        ensures barren { IsBarrenRightly self.new }
        ensures copying { is_copying self.new ≡ is_copying self.old }
        ensures asked { pad_of self.new ≡ max (pad_of self.old) (victim_asks self.new) }
        ensures rows { self.new.placer.units ≡ self.old.placer.units }
        ensures rest { self.new ≡ record self.old {
          placer = self.new.placer;
          collection = self.new.collection;
        } }
    {
        if self.collection.victim.is_none() && self.is_due() {
            self.collection.victim = self.next_victim();
            self.collection.cursor = 0;
        }
        self.ask_for_victim();
    }

    // The line that is collected next.
    fn next_victim(&mut self) -> Option<u32>
        requires tabled { IsTabled self.old }
        requires barren { IsBarrenRightly self.old }
        ensures victim { ByItsLogs self.old (λ i logs. result ≡ next_victim i logs) }
        ensures inside { IfSome result (λ line. line < self.old.layout.chunks) }
        ensures barren { IsBarrenRightly self.new }
        ensures unchanged { self.new ≡ record self.old { collection = self.new.collection } }
        ensures collection { self.new.collection ≡ record self.old.collection {
          lines = self.new.collection.lines;
          barren = self.new.collection.barren;
        } }
        ensures count { length self.new.collection.lines ≡ length self.old.collection.lines }
    {
        if self.collection.barren {
            return None;
        }
        let line = self.best_line();
        self.collection.barren = line.is_none();
        line
    }

    // Weighs all lines, and gives the best of those that may be collected.
    fn best_line(&mut self) -> Option<u32>
        requires tabled { IsTabled self.old }
        ensures victim { ByItsLogs self.old (λ i logs. result ≡ next_victim i logs) }
        ensures inside { IfSome result (λ line. line < self.old.layout.chunks) }
        ensures none { IfNone result ((line : ℕ) → weighed self.old line ≡ None) }
        ensures unchanged { self.new ≡ record self.old { collection = self.new.collection } }
        ensures collection { self.new.collection ≡ record self.old.collection {
          lines = self.new.collection.lines;
        } }
        ensures count { length self.new.collection.lines ≡ length self.old.collection.lines }
    {
        for line in 0..self.layout.shape().chunks {
            self.weigh(line);
        }
        self.collection.lines.best()
    }

    // Notes whether a line of the drive might be collected, and what the choice looks at.
    fn weigh(&mut self, line: u32)
        requires tabled { IsTabled self.old }
        requires inside { line < self.old.layout.chunks }
        ensures weighed { self.new.collection.lines
            ≡ slice_set self.old.collection.lines line (weighed self.old line) }
        ensures unchanged { self.new ≡ record self.old { collection = self.new.collection } }
        ensures collection { self.new.collection ≡ record self.old.collection {
          lines = self.new.collection.lines;
        } }
    {
        match self.weighed(line) {
            Some(Candidate { failed, live, seq }) => {
                self.collection.lines.set(line, failed, live, seq)
            }
            None => self.collection.lines.remove(line),
        }
    }

    // What the choice looks at in a line of the drive, where it might be collected.
    fn weighed(&self, line: u32) -> Option<Candidate>
        requires tabled { IsTabled self.now }
        requires inside { line < self.now.layout.chunks }
        ensures { result ≡ weighed self.now line }
    {
        let live = self.lines.live(line);
        let data = self.layout.data_len(self.online[line as usize].width());
        let failed = self.lines.state(line) == LineState::Failed;
        let ws_opt = self.layout.shape().ws_opt;
        let fits = u64::from(live) + u64::from(ws_opt) <= u64::from(data);
        match self.notes.outdated(line) {
            Some(seq) if fits => Some(Candidate { failed, live, seq }),
            _ => None,
        }
    }

    // Whether this line of the drive might be collected, where one is given. It is weighed only
    // where it is noted that none might be.
    pub(crate) fn may_collect(&self, line: Option<u32>) -> bool
        requires tabled { IsTabled self.now }
        requires inside { IfSome line (λ n. n < self.now.layout.chunks) }
        ensures { self.now.collection.barren ≡ true
            → result ≡ is_some (option_and_then (weighed self.now) line) }
    {
        match line {
            Some(line) if self.collection.barren => self.weighed(line).is_some(),
            _ => false,
        }
    }

    // Lets the next choice weigh all lines, where one may have come to be that may be collected.
    pub(crate) fn look_again(&mut self, may_be: bool)
        ensures { self.new ≡ record self.old {
          collection = record self.old.collection {
            barren = self.old.collection.barren && not may_be;
          };
        } }
    {
        if may_be {
            self.collection.barren = false;
        }
    }

    // While collection is due, a victim without live sectors asks for pads up to its taker.
    fn ask_for_victim(&mut self)
        requires tabled { IsTabled self.old }
        ensures placer { self.new.placer ≡ padded_to self.old.placer (victim_asks self.old) }
        ensures unchanged { self.new ≡ record self.old { placer = self.new.placer } }
    {
        if let Some(line) = self.collection.victim {
            if self.is_due() && self.lines.live(line) == 0 {
                if let Some(taker) = self.lines.taker(line) {
                    self.placer.pad_to(taker.saturating_add(1));
                }
            }
        }
    }
}
