//! Stripes that a core places, stripes that have landed, and those whose programs were stopped.

ghost use Rattle.std.specs.Prelude.{ℕ, true, false, ◌≡◌, ◌^◌, ◌<◌, ◌+◌, ◌-◌, ◌≤◌, ◌==◌, ◌&&◌, if◌then◌else◌, List, length, Some, slice_get};
ghost use Rattle.pblk_model.specs.Frames.{Region};
ghost use Rattle.pblk_model.specs.Image.{Image};
ghost use Rattle.pblk_model.specs.Shape.{units};
ghost use Rattle.pblk_layout.specs.Online.{units_in};
ghost use Rattle.pblk_world.specs.AtRest.{IsDue};
ghost use Rattle.pblk_world.specs.Answering.{MayLand, MayOfferAgain};
ghost use Rattle.pblk_world.specs.Events.{Again, Place, Landed};
ghost use Rattle.pblk_world.specs.Placing.{MayPlace};
ghost use Rattle.pblk_world.specs.World.{World, log_of};
ghost use Rattle.l2p_map.specs.declared.slot.Slot.TheVariants.{Media};
ghost use Rattle.line_table.specs.Rows.{IsRow};
ghost use Rattle.line_table.specs.declared.row.Row.{Row};
ghost use Rattle.std.specs.FinMap as fin;
ghost use Rattle.write_window.specs.Window as view;
ghost use Rattle.pblk_world.specs.LegalMounts.{IsLegalMount};
ghost use Rattle.core_laws.specs.ChangedTables.{full_if, with_row};
ghost use Rattle.core_laws.specs.Stepping.{after};
ghost use Rattle.stripe_placer.specs.Placing.{program, next_stripe};
ghost use Rattle.stripe_placer.specs.Placing.UnitRow.{Idle, Stopped};
ghost use Rattle.pblk_core.specs.Keeping.{KeepsOtherStripes, KeepsFrames};
ghost use Rattle.pblk_core.specs.Collecting.{BringsNone, HasEachLine, IsCollecting, KeepsCollecting};
ghost use Rattle.pblk_core.specs.Landing.{AreKeptBeside, IsIdleOn, IsOfferedOn, IsUnderWayOn, WasStopped, all_landed, is_open, new_count};
ghost use Rattle.pblk_core.specs.Losing.{HasItsEntries};
ghost use Rattle.pblk_core.specs.Named.{named, pad_of};
ghost use Rattle.pblk_core.specs.Mounts.{CollectsAfter, CollectsAfterAnswer, CollectsStill, InItsMount, StandsAfter, StandsAfterAnswer};
ghost use Rattle.pblk_core.specs.Stands.{Stands, IsStanding, answer_count};
ghost use Rattle.pblk_core.specs.declared.line_notes.LineNote.{LineNote};
ghost use Rattle.pblk_core.specs.declared.work.Work.TheVariants as works;

use crate::answering::LineTold;
use crate::filling::{fill, note_takers, settle_holds, settle_lines};
use crate::stripe::Stripe;
use crate::target_core::Core;
use line_table::{LineState, Lines};
use pblk_layout::Layout;
use pblk_model::Shape;
use stripe_placer::{Placement, StripeKind};
use write_window::Window;

impl Core {
    /// Places the next stripe, and fills `into` with it. `next_work` names it, and `into` is a
    /// stripe of the same drive.
    ///
    /// A stripe whose program was stopped comes before all others. It keeps its place: `into` is
    /// then the stripe as it was placed, and says that it was placed before (this project's rule
    /// "Stopped stripe" in docs/TARGET.md).
    pub fn place(&mut self, into: &mut Stripe)
        requires collecting { IsCollecting self.old }
        requires named { named self.old ≡ works.Program }
        requires shape { into.old.shape ≡ self.old.layout }
        ensures legal { into.new.again ≡ false
            → InItsMount self.old (λ i w. MayPlace i (log_of w) into.new.stripe) }
        ensures due { into.new.again ≡ false
            → InItsMount self.old (λ i w. IsDue i (log_of w) (pad_of self.old) into.new.stripe) }
        ensures stands { into.new.again ≡ false
            → StandsAfter self.old (Place into.new.stripe) self.new }
        ensures collects { into.new.again ≡ false
            → CollectsAfter self.old (Place into.new.stripe) self.new }
        ensures again { into.new.again ≡ true → InItsMount self.old (λ i w.
            WasStopped (log_of w 0) into.new.stripe × Stands i (log_of w) self.new) }
        ensures collects_again { into.new.again ≡ true → CollectsStill self.old self.new }
        ensures window { self.new.window ≡ self.old.window }
        ensures under_way { IsUnderWayOn self.new into.new.stripe.unit }
        ensures entries { HasItsEntries self.new into.new.stripe }
        ensures shape { into.new.shape ≡ into.old.shape }
        ensures turn { InItsMount self.old (λ i w.
            into.new.turn ≡ answer_count (log_of w 0) into.new.stripe.unit) }
        ensures kept { KeepsOtherStripes into.new.stripe.unit self.old self.new }
    {
        let of = match self.placer.next_stripe(0) {
            Some(of) => of,
            None => unreachable!(),
        };
        if self.placer.is_stopped(of.unit) {
            self.place_again(&of, into);
        } else {
            self.place_new(&of, into);
            self.choose();
        }
    }

    // Places a new stripe, which the placer offers, and fills `into` with it.
    fn place_new(&mut self, of: &Placement, into: &mut Stripe)
        requires standing { IsStanding self.old }
        requires next { Some (program self.old.placer of.now) ≡ next_stripe self.old.placer 0 }
        requires idle { slice_get self.old.placer.units of.now.unit ≡ Some Idle }
        requires shape { into.old.shape ≡ self.old.layout }
        ensures first { into.new.again ≡ false }
        ensures legal { InItsMount self.old (λ i w. MayPlace i (log_of w) into.new.stripe) }
        ensures due { InItsMount self.old (λ i w.
            IsDue i (log_of w) (pad_of self.old) into.new.stripe) }
        ensures stands { StandsAfter self.old (Place into.new.stripe) self.new }
        ensures window { self.new.window ≡ self.old.window }
        ensures under_way { IsUnderWayOn self.new into.new.stripe.unit }
        ensures entries { HasItsEntries self.new into.new.stripe }
        ensures rows { AreKeptBeside into.new.stripe.unit self.old self.new }
        ensures shape { into.new.shape ≡ into.old.shape }
        ensures turn { InItsMount self.old (λ i w.
            into.new.turn ≡ answer_count (log_of w 0) into.new.stripe.unit) }
        ensures collecting { KeepsCollecting self.old self.new }
    {
        self.placer.placed(of);
        let turn = self.answers[of.unit as usize];
        into.begin(of.line, of.unit, of.block, false, turn);
        let index = self.open.find(of.line);
        match of.kind {
            StripeKind::Start => self.open.start_stripe(index, of.at, into),
            StripeKind::Data => {
                let positions = self.placer.positions(of.unit);
                fill(&self.window, &self.holds, positions, into);
                into.pad();
                settle_lines(&mut self.lines, &self.holds, of.line, positions);
                settle_holds(&mut self.holds, of.line, positions);
                let (_, marks) = into.parts();
                self.open.mark_data(index, marks);
                self.left -= u64::from(self.layout.shape().ws_opt);
                self.placed += count_new(positions, self.first + self.placed);
            }
            StripeKind::Pad => into.pad(),
            StripeKind::End => self.open.end_stripe(index, of.at, into),
        }
        self.under_way += 1;
    }

    // Fills `into` with the stripe of a unit whose program was stopped, and has that program under
    // way again. The placer offers it.
    fn place_again(&mut self, of: &Placement, into: &mut Stripe)
        requires standing { IsStanding self.old }
        requires next { Some (program self.old.placer of.now) ≡ next_stripe self.old.placer 0 }
        requires stopped { slice_get self.old.placer.units of.now.unit
            ≡ Some (Stopped (program self.old.placer of.now)) }
        requires shape { into.old.shape ≡ self.old.layout }
        ensures again { into.new.again ≡ true }
        ensures stripe { InItsMount self.old (λ i w. WasStopped (log_of w 0) into.new.stripe) }
        ensures stands { InItsMount self.old (λ i w. Stands i (log_of w) self.new) }
        ensures window { self.new.window ≡ self.old.window }
        ensures under_way { IsUnderWayOn self.new into.new.stripe.unit }
        ensures entries { HasItsEntries self.new into.new.stripe }
        ensures rows { AreKeptBeside into.new.stripe.unit self.old self.new }
        ensures shape { into.new.shape ≡ into.old.shape }
        ensures turn { InItsMount self.old (λ i w.
            into.new.turn ≡ answer_count (log_of w 0) into.new.stripe.unit) }
        ensures collecting { KeepsCollecting self.old self.new }
    {
        let turn = self.answers[of.unit as usize];
        into.begin(of.line, of.unit, of.block, true, turn);
        let index = self.open.find(of.line);
        match of.kind {
            StripeKind::Start => self.open.start_stripe(index, of.at, into),
            StripeKind::Data => {
                let positions = self.placer.positions(of.unit);
                fill(&self.window, &self.holds, positions, into);
                into.pad();
            }
            StripeKind::Pad => into.pad(),
            StripeKind::End => self.open.end_stripe(index, of.at, into),
        }
        self.placer.placed(of);
    }

    /// Notes that all blocks of a placed stripe have landed. The stripe hasn't been answered
    /// before.
    pub fn landed(&mut self, stripe: &Stripe)
        requires collecting { IsCollecting self.old }
        requires under_way { IsUnderWayOn self.old stripe.now.stripe.unit }
        ensures stands { StandsAfterAnswer self.old (Landed stripe.now.stripe.unit)
            (λ i logs. MayLand logs stripe.now.stripe.unit) self.new }
        ensures collects { CollectsAfterAnswer self.old (Landed stripe.now.stripe.unit)
            (λ i logs. MayLand logs stripe.now.stripe.unit) self.new }
        ensures idle { IsIdleOn self.new stripe.now.stripe.unit }
        ensures kept { KeepsOtherStripes stripe.now.stripe.unit self.old self.new }
        ensures frames { KeepsFrames self.old.window self.new.window }
    {
        let may_be = self.note_landed(stripe);
        self.look_again(may_be);
        self.choose();
    }

    // Notes that in the tables. Tells whether a line may have come to be one that may be collected:
    // one is closed now, or another start record is the newest.
    fn note_landed(&mut self, stripe: &Stripe) -> bool
        requires standing { IsStanding self.old }
        requires under_way { IsUnderWayOn self.old stripe.now.stripe.unit }
        ensures stands { (i : Image) (w : World) (event : ℕ) (knows : List ℕ) → IsLegalMount i w
            → Stands i (log_of w) self.old → MayLand (log_of w) stripe.now.stripe.unit event
            → Stands i (after (log_of w) (Landed stripe.now.stripe.unit event) knows) self.new }
        ensures own { (r : Region) → view.AreOf r self.old.window.entries
            → view.AreOf r self.new.window.entries }
        ensures count { length self.new.window.entries ≡ length self.old.window.entries }
        ensures pad { pad_of self.new ≡ pad_of self.old }
        ensures idle { IsIdleOn self.new stripe.now.stripe.unit }
        ensures rows { AreKeptBeside stripe.now.stripe.unit self.old self.new }
        ensures layout { self.new.layout ≡ self.old.layout }
        ensures each { HasEachLine self.new }
        ensures map { (lba line at position : ℕ) (note : LineNote)
            → slice_get self.old.notes.rows.items line ≡ Some note → note.closed ≡ true
            → fin.get self.new.map lba ≡ Some (Media line at position)
            → fin.get self.old.map lba ≡ Some (Media line at position) }
        ensures collection { self.new.collection ≡ self.old.collection }
        ensures brings { result ≡ false → BringsNone self.old self.new }
    {
        let of = self.place_of(stripe);
        let positions = self.placer.positions(of.unit);
        land_entries(&mut self.window, positions);
        note_takers(&mut self.lines, &self.holds, of.line, positions);
        let is_newer = self.notes.land(of.line, of.kind == StripeKind::Start);
        let (from, to) = readable_range(self.layout.shape(), of.block);
        let told = self.answer(&of, of.count as usize, from, to, 1);
        fill_line(&mut self.lines, &self.layout, of.line, &told);
        self.placer.landed(&of);
        is_newer | told.is_done
    }

    /// Notes that the program of a placed stripe was stopped. The stripe hasn't been answered
    /// before. It stays placed, and is offered again before all others (this project's rule
    /// "Stopped stripe" in docs/TARGET.md).
    pub fn stopped(&mut self, stripe: &Stripe)
        requires collecting { IsCollecting self.old }
        requires under_way { IsUnderWayOn self.old stripe.now.stripe.unit }
        ensures stands { StandsAfterAnswer self.old (Again stripe.now.stripe.unit)
            (λ i logs. MayOfferAgain logs stripe.now.stripe.unit) self.new }
        ensures collects { CollectsAfterAnswer self.old (Again stripe.now.stripe.unit)
            (λ i logs. MayOfferAgain logs stripe.now.stripe.unit) self.new }
        ensures offered { IsOfferedOn self.new stripe.now.stripe.unit }
        ensures window { self.new.window ≡ self.old.window }
        ensures kept { KeepsOtherStripes stripe.now.stripe.unit self.old self.new }
    {
        self.note_stopped(stripe);
        self.choose();
    }

    // Notes that in the tables.
    fn note_stopped(&mut self, stripe: &Stripe)
        requires standing { IsStanding self.old }
        requires under_way { IsUnderWayOn self.old stripe.now.stripe.unit }
        ensures stands { StandsAfterAnswer self.old (Again stripe.now.stripe.unit)
            (λ i logs. MayOfferAgain logs stripe.now.stripe.unit) self.new }
        ensures offered { IsOfferedOn self.new stripe.now.stripe.unit }
        ensures pad { pad_of self.new ≡ pad_of self.old }
        ensures rows { AreKeptBeside stripe.now.stripe.unit self.old self.new }
        ensures each { HasEachLine self.new }
        ensures brings { BringsNone self.old self.new }
        ensures rest { self.new ≡ record self.old { placer = self.new.placer } }
    {
        let of = self.place_of(stripe);
        self.placer.stopped(&of);
    }
}

// How many of these positions are placed for the first time: all from the placed front on.
fn count_new(positions: &[u64], front: u64) -> u64
    ensures { result ≡ new_count front positions.now }
{
    let mut count = 0;
    for index in 0..positions.len() {
        if front <= positions[index] {
            count += 1;
        }
    }
    count
}

// A line of which no stripe is left is Full, if none was lost.
fn fill_line(lines: &mut Lines, layout: &Layout, line: u32, told: &LineTold)
    requires inside { line < length lines.old.rows }
    requires width { (row : Row) → IsRow lines.old line row
        → row.width ≡ length (units_in told.now.online) }
    requires online { told.now.online < 2 ^ units layout.now }
    requires shape { lines.old.shape ≡ layout.now }
    ensures { (row : Row) → IsRow lines.old line row
        → lines.new ≡ with_row line (full_if (told.now.is_done && is_open row.state)) lines.old }
{
    if told.is_done {
        turn_full(lines, layout, line, told.online);
    }
}

// A line is Full, if it is Open.
fn turn_full(lines: &mut Lines, layout: &Layout, line: u32, online: u64)
    requires inside { line < length lines.old.rows }
    requires width { (row : Row) → IsRow lines.old line row → row.width ≡ length (units_in online) }
    requires online { online < 2 ^ units layout.now }
    requires shape { lines.old.shape ≡ layout.now }
    ensures { (row : Row) → IsRow lines.old line row
        → lines.new ≡ with_row line (full_if (is_open row.state)) lines.old }
{
    if lines.state(line) == LineState::Open {
        lines.turn(line, LineState::Full, layout.width(online));
    }
}

// Notes in the window that the entries of these positions have landed.
fn land_entries(window: &mut Window, positions: &[u64])
    requires { (k q : ℕ) → slice_get positions.now k ≡ Some q → view.IsHeld window.old q }
    ensures { window.new ≡ all_landed window.old positions.now }
{
    for index in 0..positions.len() {
        window.landed(positions[index]);
    }
}

// The blocks of a chunk that can be read once the stripe that begins at block `at` has landed, and
// couldn't be read before. They go from the first result to before the second.
fn readable_range(shape: &Shape, at: u32) -> (u32, u32)
    requires inside { at + shape.now.ws_opt ≤ shape.now.clba }
    ensures from { result.0 ≡ at - shape.now.mw_cunits }
    ensures to { result.1 ≡ (if at + shape.now.ws_opt == shape.now.clba then shape.now.clba
        else at + shape.now.ws_opt - shape.now.mw_cunits) }
    ensures within { result.1 ≤ shape.now.clba }
{
    let end = at + shape.ws_opt;
    let from = at.saturating_sub(shape.mw_cunits);
    if end == shape.clba {
        (from, end)
    } else {
        (from, end.saturating_sub(shape.mw_cunits))
    }
}
