//! Stripes that are lost: their programs failed.

ghost use Rattle.std.specs.Prelude.{ℕ, true, false, ◌≡◌, ◌≢◌, ◌^◌, ◌<◌, ◌-◌, ◌*◌, List, length, Some, slice_get};
ghost use Rattle.std.specs.FinMap as fin;
ghost use Rattle.pblk_model.specs.Frames.{Region};
ghost use Rattle.pblk_model.specs.Image.{Image};
ghost use Rattle.pblk_model.specs.Shape.{units};
ghost use Rattle.pblk_layout.specs.Online.{units_in};
ghost use Rattle.pblk_world.specs.Answering.{MayLose};
ghost use Rattle.pblk_world.specs.Events.{Lost};
ghost use Rattle.pblk_world.specs.World.{World, log_of};
ghost use Rattle.l2p_map.specs.declared.slot.Slot.TheVariants.{Media};
ghost use Rattle.line_table.specs.Rows.{IsRow};
ghost use Rattle.line_table.specs.declared.row.Row.{Row};
ghost use Rattle.line_table.specs.declared.row.LineState.TheVariants as states;
ghost use Rattle.write_window.specs.Window as view;
ghost use Rattle.pblk_world.specs.LegalMounts.{IsLegalMount};
ghost use Rattle.core_laws.specs.ChangedTables.{failed, with_row};
ghost use Rattle.core_laws.specs.Stepping.{after};
ghost use Rattle.pblk_core.specs.Mounts.{StandsAfterAnswer, CollectsAfterAnswer};
ghost use Rattle.pblk_core.specs.Keeping.{KeepsOtherStripes, KeepsFrames};
ghost use Rattle.pblk_core.specs.Collecting.{BringsNone, HasEachLine, IsCollecting};
ghost use Rattle.pblk_core.specs.Landing.{AreKeptBeside, IsIdleOn, IsUnderWayOn};
ghost use Rattle.pblk_core.specs.Losing.{HasItsEntries, HasRoomFor, IsLossOf, addresses_in, all_wait, positions_of_marks};
ghost use Rattle.pblk_core.specs.Named.{pad_of};
ghost use Rattle.pblk_core.specs.Stands.{Stands, IsStanding};
ghost use Rattle.pblk_core.specs.declared.line_notes.LineNote.{LineNote};

use crate::answering::LineTold;
use crate::filling::{lower_lines, unsettle_holds};
use crate::stripe::Stripe;
use crate::target_core::Core;
use line_table::{LineState, Lines};
use pblk_layout::Layout;
use pblk_model::{Mark, Shape};
use stripe_placer::Placer;

impl Core {
    /// Notes that the program of a placed stripe failed, once the first `kept` of its blocks were
    /// written. The stripe hasn't been answered before. Its chunk is closed, its line is Failed,
    /// and its entries wait again (Open-Channel SSD Specification 2.0, Chunk states; this project's
    /// rule "Failed line" in docs/TARGET.md).
    pub fn lost(&mut self, stripe: &Stripe, kept: u32)
        requires collecting { IsCollecting self.old }
        requires under_way { IsUnderWayOn self.old stripe.now.stripe.unit }
        requires entries { HasItsEntries self.old stripe.now.stripe }
        ensures stands { StandsAfterAnswer self.old (Lost stripe.now.stripe.unit)
            (λ i logs event. IsLossOf i logs stripe.now.stripe.unit event kept) self.new }
        ensures collects { CollectsAfterAnswer self.old (Lost stripe.now.stripe.unit)
            (λ i logs event. IsLossOf i logs stripe.now.stripe.unit event kept) self.new }
        ensures idle { IsIdleOn self.new stripe.now.stripe.unit }
        ensures kept { KeepsOtherStripes stripe.now.stripe.unit self.old self.new }
        ensures frames { KeepsFrames self.old.window self.new.window }
    {
        let may_be = self.note_lost(stripe, kept);
        self.look_again(may_be);
        self.choose();
    }

    // Notes that in the tables. Tells whether a line may have come to be one that may be collected:
    // one is closed now.
    fn note_lost(&mut self, stripe: &Stripe, kept: u32) -> bool
        requires standing { IsStanding self.old }
        requires under_way { IsUnderWayOn self.old stripe.now.stripe.unit }
        requires entries { HasItsEntries self.old stripe.now.stripe }
        ensures stands { (i : Image) (w : World) (event : ℕ) (knows : List ℕ) → IsLegalMount i w
            → Stands i (log_of w) self.old
            → (may : MayLose (log_of w) stripe.now.stripe.unit event)
            → kept ≡ may.landed_before * i.shape.ws_min
            → Stands i (after (log_of w) (Lost stripe.now.stripe.unit event) knows) self.new }
        ensures own { (r : Region) → view.AreOf r self.old.window.entries
            → view.AreOf r self.new.window.entries }
        ensures count { length self.new.window.entries ≡ length self.old.window.entries }
        ensures pad { pad_of self.new ≡ pad_of self.old }
        ensures idle { IsIdleOn self.new stripe.now.stripe.unit }
        ensures rows { AreKeptBeside stripe.now.stripe.unit self.old self.new }
        ensures layout { self.new.layout ≡ self.old.layout }
        ensures each { HasEachLine self.new }
        ensures map { (lba line at position : ℕ) (note : LineNote)
            → slice_get self.old.notes.rows.items line ≡ Some note → note.closed ≡ true
            → fin.get self.new.map lba ≡ Some (Media line at position)
            → fin.get self.old.map lba ≡ Some (Media line at position) }
        ensures collection { self.new.collection ≡ self.old.collection }
        ensures brings { result ≡ false → BringsNone self.old self.new }
    {
        let of = self.place_of(stripe);
        let positions = self.placer.positions(of.unit);
        lower_lines(&mut self.lines, &self.holds, of.line, positions);
        unsettle_holds(&mut self.holds, positions);
        let shape = self.layout.shape();
        let from = of.block.saturating_sub(shape.mw_cunits);
        let stripes = (shape.clba - of.block) / shape.ws_opt;
        let told = self.answer(&of, of.count.min(kept) as usize, from, of.block, stripes);
        self.left -= fail_line(&mut self.lines, &self.layout, of.line, &told);
        self.placer.lost(&of);
        let (_, marks) = stripe.parts();
        wait_again(&mut self.placer, self.layout.shape(), marks);
        told.is_done
    }
}

// A line is Failed, if it wasn't before. Gives the data addresses that it loses by that: those that
// have no entry yet.
fn fail_line(lines: &mut Lines, layout: &Layout, line: u32, told: &LineTold) -> u64
    requires inside { line < length lines.old.rows }
    requires open { (row : Row) → IsRow lines.old line row
        → row.state ≢ states.Failed → row.state ≡ states.Open }
    requires width { (row : Row) → IsRow lines.old line row
        → row.width ≡ length (units_in told.now.online) }
    requires online { told.now.online < 2 ^ units layout.now }
    requires shape { lines.old.shape ≡ layout.now }
    ensures lines { lines.new ≡ with_row line failed lines.old }
    ensures addresses { (row : Row) → IsRow lines.old line row
        → result ≡ addresses_in row.state told.now.data_left }
{
    if lines.state(line) != LineState::Open {
        return 0;
    }
    lines.turn(line, LineState::Failed, layout.width(told.online));
    told.data_left
}

// The entries that marks bear wait again, as those of a lost stripe. The placer has room for them,
// and has none of them.
fn wait_again(placer: &mut Placer, shape: &Shape, marks: &[Mark])
    requires room { HasRoomFor placer.old (positions_of_marks shape.now marks.now) }
    ensures { placer.new ≡ all_wait placer.old (positions_of_marks shape.now marks.now) }
{
    for index in 0..marks.len() {
        let mark = marks[index];
        if mark.lba < shape.capacity || mark.lba == Mark::VOID_LBA {
            placer.wait(mark.position, true);
        }
    }
}
