//! Lines that a core opens, and lines that it empties.

ghost use Rattle.std.specs.Prelude.{ℕ, ◌≡◌, ◌<◌, ◌≤◌, true, length, Some, slice_get};
ghost use Rattle.pblk_model.specs.Shape.{units};
ghost use Rattle.pblk_layout.specs.Online.{is_in};
ghost use Rattle.pblk_world.specs.EngineLog.{Begun, begun as begun_of};
ghost use Rattle.pblk_world.specs.Events.{Open, ResetDone};
ghost use Rattle.pblk_world.specs.Opening.{MayOpen};
ghost use Rattle.pblk_world.specs.World.{log_of};
ghost use Rattle.pblk_core.specs.Keeping.{KeepsStripes};
ghost use Rattle.pblk_core.specs.Collecting.{BringsNone, HasEachLine, IsCollecting};
ghost use Rattle.pblk_core.specs.Named.{named, pad_of, next_start};
ghost use Rattle.pblk_core.specs.Resets.{IsResetTo, kept_units, emptied};
ghost use Rattle.pblk_core.specs.Mounts.{CollectsAfter, CollectsAfterAnswer, InItsMount, StandsAfter, StandsAfterAnswer};
ghost use Rattle.pblk_core.specs.Stands.{IsStanding};
ghost use Rattle.pblk_core.specs.declared.work.Work.TheVariants as works;

use crate::target_core::Core;
use line_table::LineState;
use pblk_layout::{Layout, LineUnits, is_online};
use pblk_model::ChunkState;

// Notes the new state of a chunk of a line: if it is Offline, its unit is no longer one of the
// line's.
fn keep_unit(online: &mut Vec<LineUnits>, line: u32, unit: u32, state: ChunkState)
    requires line { line < length online.old.items }
    requires unit { unit < 64 }
    requires there { (units : ℕ) → slice_get online.old.items line ≡ Some units
        → is_in units unit ≡ true }
    ensures { online.new.items ≡ kept_units online.old.items line unit state }
{
    if !is_online(state) {
        online[line as usize].remove(unit);
    }
}

// The state of a line whose chunks are all Free or Offline, where `width` of them are Free.
fn emptied(layout: &Layout, width: u32) -> LineState
    requires { width ≤ units layout.now }
    ensures { result ≡ emptied layout.now width }
{
    if layout.data_len(width) == 0 {
        LineState::Dead
    } else {
        LineState::Free
    }
}

impl Core {
    /// Opens the next line: the least Free one, with the next sequence number and the front synced
    /// in its start record. `next_work` names it.
    pub fn open_line(&mut self)
        requires collecting { IsCollecting self.old }
        requires named { named self.old ≡ works.Open }
        ensures legal { InItsMount self.old (λ i w. (begun : Begun)
            → begun_of (log_of w 0) ≡ Some begun
            → MayOpen i (log_of w) begun (next_start self.old).line (next_start self.old)) }
        ensures stands { let start = next_start self.old
            in StandsAfter self.old (Open start.line start) self.new }
        ensures collects { let start = next_start self.old
            in CollectsAfter self.old (Open start.line start) self.new }
        ensures window { self.new.window ≡ self.old.window }
        ensures kept { KeepsStripes self.old self.new }
    {
        self.open_least();
        self.choose();
    }

    // Opens that line in the tables.
    fn open_least(&mut self)
        requires standing { IsStanding self.old }
        requires named { named self.old ≡ works.Open }
        ensures legal { InItsMount self.old (λ i w. (begun : Begun)
            → begun_of (log_of w 0) ≡ Some begun
            → MayOpen i (log_of w) begun (next_start self.old).line (next_start self.old)) }
        ensures stands { let start = next_start self.old
            in StandsAfter self.old (Open start.line start) self.new }
        ensures pad { pad_of self.new ≡ pad_of self.old }
        ensures rows { self.new.placer.units ≡ self.old.placer.units }
        ensures brings { BringsNone self.old self.new }
        ensures rest { self.new ≡ record self.old {
          lines = self.new.lines;
          placer = self.new.placer;
          «open» = self.new.«open»;
          notes = self.new.notes;
          start = self.new.start;
          left = self.new.left;
        } }
    {
        let line = match self.lines.least_free() {
            Some(line) => line,
            None => unreachable!(),
        };
        let online = self.online[line as usize];
        let width = online.width();
        let shape = self.layout.shape();
        let stripes = width * (shape.clba / shape.ws_opt);
        self.start.line = line;
        self.start.width = width;
        self.start.front = self.window.synced().position;
        self.open.begin(&self.start, online.bits(), stripes);
        let starts = self.layout.start_len() / shape.ws_opt;
        self.notes
            .open(line, self.start.seq, self.start.front, starts);
        self.start.seq += 1;
        self.lines.turn(line, LineState::Open, width);
        self.placer.begin(line, online.bits());
        self.left += u64::from(self.layout.data_len(width));
    }

    /// Notes that the reset that `next_work` names, of this line's chunk on this unit, was done or
    /// has failed. The chunk has the given state since: Free or Offline (Open-Channel SSD
    /// Specification 2.0, Chunk states). Once no used chunk of the line is left, the line is Free,
    /// or Dead where too few of its chunks are left for data.
    pub fn reset_done(&mut self, line: u32, unit: u32, state: ChunkState)
        requires collecting { IsCollecting self.old }
        requires named { named self.old ≡ works.Reset line unit }
        ensures stands { StandsAfterAnswer self.old (ResetDone unit)
            (λ i logs event. IsResetTo i logs unit event line state) self.new }
        ensures collects { CollectsAfterAnswer self.old (ResetDone unit)
            (λ i logs event. IsResetTo i logs unit event line state) self.new }
        ensures window { self.new.window ≡ self.old.window }
        ensures kept { KeepsStripes self.old self.new }
    {
        self.note_reset(line, unit, state);
        self.choose();
    }

    // Notes that reset in the tables.
    fn note_reset(&mut self, line: u32, unit: u32, state: ChunkState)
        requires standing { IsStanding self.old }
        requires named { named self.old ≡ works.Reset line unit }
        ensures stands { StandsAfterAnswer self.old (ResetDone unit)
            (λ i logs event. IsResetTo i logs unit event line state) self.new }
        ensures each { HasEachLine self.new }
        ensures brings { BringsNone self.old self.new }
        ensures rest { self.new ≡ record self.old {
          lines = self.new.lines;
          online = self.new.online;
          resets = self.new.resets;
        } }
    {
        self.resets.advance();
        keep_unit(&mut self.online, line, unit, state);
        if !self.resets.is_at(line) {
            let width = self.online[line as usize].width();
            self.lines.turn(line, emptied(&self.layout, width), width);
        }
    }
}
