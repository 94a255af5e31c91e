//! The placer.

ghost use Rattle.std.specs.Prelude.{ℕ, ◌≡◌, ◌≢◌, ◌↔◌, ◌<◌, ◌≤◌, ◌^◌, false, map, length};
ghost use Rattle.std.specs.Prelude.{[], ◌∷◌, ◌++◌, Some, None, IfSome, IsNone, IfOk};
ghost use Rattle.std.specs.Prelude.{vec_len, vec_capacity, slice_get};
ghost use Rattle.std.specs.List.{All, Contains, HoldsAt, filter};
ghost use Rattle.std.specs.Option.{option_map, option_map_or, option_and_then};
ghost use Rattle.pblk_model.specs.Shape.{units};
ghost use Rattle.pblk_model.specs.LineOrder.{data_len};
ghost use Rattle.pblk_layout.specs.Online.{units_in};
ghost use Rattle.stripe_placer.specs.Entries.{Rises, waiting};
ghost use Rattle.stripe_placer.specs.OpenLines.{OpenLine, next_of, in_one_chunk, in_line, has_left};
ghost use Rattle.stripe_placer.specs.OpenLines.Stripe.{Unanswered, Landed, Lost};
ghost use Rattle.stripe_placer.specs.Placing.{nothing_placed, held, waits, padded_to, begun};
ghost use Rattle.stripe_placer.specs.Placing.{UnitRow, program, next_stripe, under_way_in, positions_in, IsNext, IsUnderWay, is_stopped};
ghost use Rattle.stripe_placer.specs.NextUnits.{IsForUnit};
ghost use Rattle.stripe_placer.specs.Placing.{placed, landed, lost, stopped};
ghost use Rattle.stripe_placer.specs.Inside.{IsAmongLines, IsUnanswered, AreApart};

use crate::next::next_new;
use crate::placement::Placement;
use crate::queue::Queue;
use crate::slot::Slot;
use crate::unit_state::{UnitState, idle_units, stopped_stripe};
use pblk_layout::Layout;
use std::alloc::{AllocError, Global};
use std::marker::Model;

/// Gives the entries that wait their places in the open lines, stripe by stripe.
///
/// The stripes of a line are placed in line order, so they go round its parallel units (Bjørling,
/// González, Bonnet, FAST 2017, write buffering). A unit has at most one of them under way. A line
/// of which a stripe was lost takes pads alone, to the ends of its other chunks.
///
/// Each call but `new` and `next_stripe` takes a few steps, whatever the sizes of the drive and the
/// ring: at most one for each entry of the stripe, and in a line of which a stripe was lost one for
/// each unit. `next_stripe` takes at most a few for each unit. An entry that was lost takes one for
/// each greater one that was lost and waits. No call but `new` takes memory.
///
/// Contracts see the entries that wait, what each unit has, and the open lines.
#[derive(Drop)]
pub struct Placer {
    layout: Layout,
    queue: Queue,
    units: Vec<UnitState>,
    // at most two, in the order in which they were opened
    slots: Vec<Slot>,
}

impl Model for Placer {
    ghost use Rattle.stripe_placer.specs.Placing.{Placing};

    ghost Value = { Placing };

    ghost use Rattle.stripe_placer.specs.Inside.{placing, IsPlacer};

    ghost view = { placing };

    ghost invariant = { IsPlacer };
}

// Puts a line behind the others, where there is room.
fn open_slot(slots: &mut Vec<Slot>, slot: Slot)
    requires room { vec_len slots.old < vec_capacity slots.old }
    ensures items { slots.new.items ≡ slots.old.items ++ slot ∷ [] }
    ensures capacity { vec_capacity slots.old ≤ vec_capacity slots.new }
{
    slots.push(slot).unwrap();
}

// Where the line of this number stands among the open ones.
fn slot_of(slots: &[Slot], line: u32) -> usize
    requires few { length slots.now ≤ 2 }
    requires there { (l : OpenLine) × IsAmongLines slots.now l × (l.line ≡ line) }
    ensures inside { result < length slots.now }
    ensures line { HoldsAt (λ l. l.line ≡ line) slots.now result }
{
    if slots[0].line() == line { 0 } else { 1 }
}

// Takes out the lines without a stripe left.
fn close_slots(slots: &mut Vec<Slot>)
    ensures items { slots.new.items ≡ filter has_left slots.old.items }
    ensures capacity { vec_capacity slots.new ≡ vec_capacity slots.old }
{
    slots.retain(|slot| slot.has_left());
}

// A stripe of a line is placed: its next one, whose chunk has none that isn't answered.
fn place_in(slots: &mut Vec<Slot>, line: u32, stripe: u32)
    requires few { length slots.old.items ≤ 2 }
    requires apart { AreApart slots.old.items }
    requires there { (l : OpenLine) × IsAmongLines slots.old.items l × (l.line ≡ line) }
    requires next { (l : OpenLine) → IsAmongLines slots.old.items l → l.line ≡ line
        → next_of l ≡ Some stripe }
    requires alone { (l : OpenLine) (i : ℕ) → IsAmongLines slots.old.items l → l.line ≡ line
        → IsUnanswered l i → in_one_chunk l i stripe ≡ false }
    ensures items { slots.new.items ≡ map (in_line line stripe Unanswered) slots.old.items }
    ensures capacity { vec_capacity slots.new ≡ vec_capacity slots.old }
{
    let slot = slot_of(slots, line);
    slots[slot].place(stripe);
}

// A stripe of a line that wasn't answered has landed.
fn land_in(slots: &mut Vec<Slot>, line: u32, stripe: u32)
    requires few { length slots.old.items ≤ 2 }
    requires apart { AreApart slots.old.items }
    requires there { (l : OpenLine) × IsAmongLines slots.old.items l × (l.line ≡ line) }
    requires waits { (l : OpenLine) → IsAmongLines slots.old.items l → l.line ≡ line
        → IsUnanswered l stripe }
    ensures items { slots.new.items
        ≡ filter has_left (map (in_line line stripe Landed) slots.old.items) }
    ensures capacity { vec_capacity slots.new ≡ vec_capacity slots.old }
{
    let slot = slot_of(slots, line);
    slots[slot].land(stripe);
    close_slots(slots);
}

// A stripe of a line that wasn't answered was lost.
fn lose_in(slots: &mut Vec<Slot>, line: u32, stripe: u32)
    requires few { length slots.old.items ≤ 2 }
    requires apart { AreApart slots.old.items }
    requires there { (l : OpenLine) × IsAmongLines slots.old.items l × (l.line ≡ line) }
    requires waits { (l : OpenLine) → IsAmongLines slots.old.items l → l.line ≡ line
        → IsUnanswered l stripe }
    ensures items { slots.new.items
        ≡ filter has_left (map (in_line line stripe Lost) slots.old.items) }
    ensures capacity { vec_capacity slots.new ≡ vec_capacity slots.old }
{
    let slot = slot_of(slots, line);
    slots[slot].lose(stripe);
    close_slots(slots);
}

impl Placer {
    /// A placer for drives of a layout: no entry waits, no line is open, and the pad target is 0.
    ///
    /// Fails only where there isn't the memory, which no later call takes.
    pub fn new(alloc: Global, layout: &Layout) -> Result<Placer, AllocError>
        ensures { IfOk result (λ p. p ≡ nothing_placed layout.now) }
    {
        let shape = layout.shape();
        let queue = Queue::new(alloc, shape.ring)?;
        let units = idle_units(alloc, shape.units())?;
        let slots = Vec::with_capacity(alloc, 2)?;
        Ok(Placer {
            layout: *layout,
            queue,
            units,
            slots,
        })
    }

    /// Lets an entry wait for a stripe: a new one, or one that was lost with its stripe.
    ///
    /// Fewer entries wait or stand in stripes that are neither landed nor lost than the ring has
    /// slots, this one isn't among them, and a new one is above all that wait and weren't lost.
    pub fn wait(&mut self, position: u64, lost: bool)
        requires room { length (held self.old) < self.old.shape.ring }
        requires another { Contains (held self.old) position → ⊥ }
        requires rises { lost ≡ false → All (λ q. q < position) self.old.entries.fresh }
        ensures { self.new ≡ waits self.old position lost }
    {
        self.queue.wait(position, lost);
    }

    /// Raises the pad target: entries that are fewer than a stripe holds are placed with Pad blocks
    /// where one of them lies below it. It never falls.
    pub fn pad_to(&mut self, position: u64)
        ensures { self.new ≡ padded_to self.old position }
    {
        self.queue.pad_to(position);
    }

    /// Notes that a line of the drive was opened. Bit `u` of `online` is set for each unit `u`
    /// whose chunk of it isn't Offline (Open-Channel SSD Specification 2.0, Chunk states).
    ///
    /// It has no stripe left itself, its width leaves room for data, and at most one other line has
    /// a stripe left that is neither landed nor lost.
    pub fn begin(&mut self, line: u32, online: u64)
        requires line { line < self.old.shape.chunks }
        requires another { All (λ l. l.line ≢ line) self.old.lines }
        requires units { online < 2 ^ units self.old.shape }
        requires data { data_len self.old.shape (length (units_in online)) ≢ 0 }
        requires few { length self.old.lines ≤ 1 }
        ensures { self.new ≡ begun self.old line online }
    {
        open_slot(&mut self.slots, Slot::new(&self.layout, line, online));
    }

    /// The next stripe. Bit `u` of `busy` is that of unit `u`.
    ///
    /// Stripes that were stopped come first, by unit. Then come the next stripes of the open lines,
    /// that of the line that was opened first before the other. It is the first of these whose unit
    /// isn't in `busy` and has no stripe under way. None exactly where there is none.
    pub fn next_stripe(&self, busy: u64) -> Option<Placement>
        ensures next { option_map (program self.now) result ≡ next_stripe self.now busy }
        ensures none { IsNone result ↔ (next_stripe self.now busy ≡ None) }
        ensures placeable { IfSome result (λ of. IsNext self.now (program self.now of)) }
        ensures unit { IfSome result (λ of. of.unit < units self.now.shape) }
        ensures turn { IfSome result (λ of. IsForUnit self.now (program self.now of)) }

        // Entries are placed in the order of their positions, those that were lost first.
        ensures lost_rise { Rises self.now.entries.lost }
        ensures fresh_rise { Rises self.now.entries.fresh }
    {
        self.queue.are_in_order();
        match stopped_stripe(&self.units, busy) {
            Some(of) => Some(of),
            None => next_new(&self.layout, &self.queue, &self.units, &self.slots, busy),
        }
    }

    /// The program that is under way on a unit of the drive, if there is one.
    pub fn under_way(&self, unit: u32) -> Option<Placement>
        requires { unit < units self.now.shape }
        ensures { option_map (program self.now) result
            ≡ option_and_then under_way_in (slice_get self.now.units unit) }
    {
        self.units[unit as usize].under_way()
    }

    /// Whether the program of the stripe that a unit of the drive has was stopped, and isn't under
    /// way again.
    pub fn is_stopped(&self, unit: u32) -> bool
        requires { unit < units self.now.shape }
        ensures { result ≡ option_map_or is_stopped (slice_get self.now.units unit) false }
    {
        self.units[unit as usize].is_stopped()
    }

    /// The positions of the entries of the stripe that a unit of the drive has, in their order: of
    /// one whose program is under way or was stopped. There are none where it has no stripe.
    pub fn positions(&self, unit: u32) -> &[u64]
        requires { unit < units self.now.shape }
        ensures { (row : UnitRow) → slice_get self.now.units unit ≡ Some row
            → result.now ≡ positions_in row }
    {
        self.units[unit as usize].positions()
    }

    /// How many entries wait for a stripe.
    pub fn waiting(&self) -> u64
        ensures { result ≡ length (waiting self.now.entries) }
    {
        self.queue.count()
    }

    /// The pad target.
    pub fn pad_target(&self) -> u64
        ensures { result ≡ self.now.entries.pad }
    {
        self.queue.pad_target()
    }

    /// Notes that the program of a stripe is under way. `next_stripe` names it.
    pub fn placed(&mut self, of: &Placement)
        requires { IsNext self.old (program self.old of.now) }
        ensures placed { self.new ≡ placed self.old (program self.old of.now) }
        ensures under_way { IsUnderWay self.new (program self.new of.now) }
    {
        let unit = of.unit as usize;
        if self.units[unit].is_stopped() {
            self.units[unit].again();
            return;
        }
        let stripe = of.at / self.layout.shape().ws_opt;
        self.units[unit].begin(of, &self.queue);
        self.queue.remove_first(of.count);
        place_in(&mut self.slots, of.line, stripe);
    }

    /// Notes that all blocks of a stripe have landed. It was placed and hasn't been answered.
    pub fn landed(&mut self, of: &Placement)
        requires { IsUnderWay self.old (program self.old of.now) }
        ensures { self.new ≡ landed self.old (program self.old of.now) }
    {
        let stripe = of.at / self.layout.shape().ws_opt;
        land_in(&mut self.slots, of.line, stripe);
        self.units[of.unit as usize].end();
    }

    /// Notes that the program of a stripe failed, and that its chunk is closed (Open-Channel SSD
    /// Specification 2.0, Chunk states and write pointer). It was placed and hasn't been answered.
    ///
    /// From then on its line has pads for its other chunks, and no data or end stripe. Its entries
    /// wait again once `wait` names them.
    pub fn lost(&mut self, of: &Placement)
        requires { IsUnderWay self.old (program self.old of.now) }
        ensures { self.new ≡ lost self.old (program self.old of.now) }
    {
        let stripe = of.at / self.layout.shape().ws_opt;
        lose_in(&mut self.slots, of.line, stripe);
        self.units[of.unit as usize].end();
    }

    /// Notes that the program of a stripe was stopped. It was placed and hasn't been answered. It
    /// stays placed, and is offered again.
    pub fn stopped(&mut self, of: &Placement)
        requires { IsUnderWay self.old (program self.old of.now) }
        ensures { self.new ≡ stopped self.old (program self.old of.now) }
    {
        self.units[of.unit as usize].stop();
    }
}
