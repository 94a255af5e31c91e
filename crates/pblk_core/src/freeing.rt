//! Lines that a core frees.

ghost use Rattle.std.specs.Prelude.{ℕ, ◌≡◌, ◌==◌, ◌<◌, ◌↔◌, not, map, length, IfSome, IfNone, OnSome, IsTrue};
ghost use Rattle.std.specs.List.{filter};
ghost use Rattle.pblk_model.specs.StartRecord.{Row as OlderRow};
ghost use Rattle.pblk_meta.specs.Records.{row_numbers};
ghost use Rattle.pblk_world.specs.Events.{Free};
ghost use Rattle.pblk_world.specs.Freeing.{MayFree};
ghost use Rattle.pblk_world.specs.World.{log_of};
ghost use Rattle.write_window.specs.Window as view;
ghost use Rattle.pblk_core.specs.Keeping.{KeepsStripes};
ghost use Rattle.pblk_core.specs.Collecting.{BringsNone, IsCollecting};
ghost use Rattle.pblk_core.specs.Freeing.{IsSpentIn, closed_count, HaveRisen};
ghost use Rattle.pblk_core.specs.Mounts.{CollectsAfterKnowing, InItsMount, StandsAfterKnowing};
ghost use Rattle.pblk_core.specs.Stands.{IsStanding};

use crate::target_core::Core;
use line_table::LineState;
use pblk_meta::Rows;

impl Core {
    /// Frees the least line that may be freed: it is older than the newest start record that has
    /// landed, no position in it is needed, and each of its records has a newer one below the front
    /// synced (this project's rule "When a line is freed" in docs/TARGET.md). Its used chunks are
    /// to be reset from then on. None exactly where no line may be freed; then nothing has changed.
    pub fn free_line(&mut self) -> Option<u32>
        requires collecting { IsCollecting self.old }
        ensures may { IfSome result (λ line.
            InItsMount self.old (λ i w. MayFree i (log_of w) line)) }
        ensures least { IfSome result (λ line.
            InItsMount self.old (λ i w. (m : ℕ) → m < line → ¬ MayFree i (log_of w) m)) }
        ensures none { IfNone result (InItsMount self.old (λ i w.
            (line : ℕ) → ¬ MayFree i (log_of w) line)) }
        ensures stands { IfSome result (λ line. StandsAfterKnowing self.old (Free line) self.new) }
        ensures collects { IfSome result (λ line.
            CollectsAfterKnowing self.old (Free line) self.new) }
        ensures unchanged { IfNone result (self.new ≡ self.old) }
        ensures fewer { OnSome result (closed_count self.new < closed_count self.old) }
        ensures window { self.new.window ≡ self.old.window }
        ensures kept { KeepsStripes self.old self.new }
    {
        let line = self.free_spent()?;
        if self.collection.victim == Some(line) {
            self.collection.victim = None;
        }
        self.choose();
        Some(line)
    }

    // Frees that line in the tables.
    fn free_spent(&mut self) -> Option<u32>
        requires standing { IsStanding self.old }
        ensures may { IfSome result (λ line.
            InItsMount self.old (λ i w. MayFree i (log_of w) line)) }
        ensures least { IfSome result (λ line.
            InItsMount self.old (λ i w. (m : ℕ) → m < line → ¬ MayFree i (log_of w) m)) }
        ensures none { IfNone result (InItsMount self.old (λ i w.
            (line : ℕ) → ¬ MayFree i (log_of w) line)) }
        ensures stands { IfSome result (λ line. StandsAfterKnowing self.old (Free line) self.new) }
        ensures unchanged { IfNone result (self.new ≡ self.old) }
        ensures fewer { OnSome result (closed_count self.new < closed_count self.old) }
        ensures brings { BringsNone self.old self.new }
        ensures rest { self.new ≡ record self.old {
          lines = self.new.lines;
          resets = self.new.resets;
          notes = self.new.notes;
          start = self.new.start;
        } }
    {
        let line = self.spent_line()?;
        let width = self.online[line as usize].width();
        self.lines.turn(line, LineState::Freed, width);
        self.notes.free(line);
        self.resets.give_up(line);
        remove_row(&mut self.start.rows, line);
        Some(line)
    }

    // The least line that may be freed.
    fn spent_line(&self) -> Option<u32>
        requires standing { IsStanding self.now }
        ensures found { IfSome result (IsSpentIn self.now) }
        ensures least { IfSome result (λ line. (m : ℕ) → m < line → ¬ IsSpentIn self.now m) }
        ensures none { IfNone result ((line : ℕ) → ¬ IsSpentIn self.now line) }
    {
        let synced = self.window.synced().position;
        let mut from = 0;
        while let Some(line) = self.lines.outlived_from(from) {
            if self.is_spent(line, synced) {
                return Some(line);
            }
            from = line + 1;
        }
        None
    }

    // Whether a line of the drive may be freed, where the front synced is this.
    fn is_spent(&self, line: u32, synced: u64) -> bool
        requires synced { synced ≡ (view.synced self.now.window).position }
        requires inside { line < length self.now.lines.rows }
        requires noted { line < length self.now.notes.rows.items }
        ensures { IsTrue result ↔ IsSpentIn self.now line }
    {
        let live = self.lines.live(line);
        let taker = self.lines.taker(line);
        self.notes.is_spent(line, live, taker, synced)
    }
}

// Takes out the row of a line, if there is one. The rows are of different lines.
fn remove_row(rows: &mut Rows, line: u32)
    requires rise { HaveRisen (map row_numbers rows.old) }
    ensures { map row_numbers rows.new
        ≡ filter (λ (row : OlderRow). not (row.line == line)) (map row_numbers rows.old) }
{
    for index in 0..rows.as_slice().len() {
        if rows.as_slice()[index].line == line {
            rows.remove(index);
            return;
        }
    }
}
