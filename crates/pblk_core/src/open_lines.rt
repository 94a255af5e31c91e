//! The lines that have a stripe left.

ghost use Rattle.std.specs.Prelude.{ℕ, ◌≡◌, ◌+◌, ◌-◌, ◌<◌, ◌≤◌, [], ◌++◌, List, length, take, Some, IfOk, IsTrue, slice_get, slice_set};
ghost use Rattle.std.specs.List.{filter};
ghost use Rattle.pblk_model.specs.declared.chunk.Mark.{Mark};
ghost use Rattle.pblk_model.specs.Shape.{units};
ghost use Rattle.pblk_model.specs.LineOrder.{start_len, end_len, data_len};
ghost use Rattle.pblk_model.specs.StartRecord.{start_fits};
ghost use Rattle.pblk_meta.specs.Records.{start_numbers};
ghost use Rattle.pblk_world.specs.Placing.{stripe_at};
ghost use Rattle.pblk_core.specs.Filling.{followed_by};
ghost use Rattle.pblk_core.specs.LineRecords.{blocks_at_start, blocks_at_end, end_begins};
ghost use Rattle.pblk_core.specs.Slots.{IsSlot, opened_slot, with_marks, answered_slot};

use crate::records::LineRecords;
use crate::stripe::Stripe;
use pblk_layout::Layout;
use pblk_meta::StartRecord;
use pblk_model::Mark;
use std::alloc::{AllocError, Global};

/// A line that has a stripe left: its records, a bit for each unit whose chunk of it isn't Offline,
/// and how many of its stripes are still to land or to be lost.
#[derive(Debug, Drop)]
pub(crate) struct OpenLine {
    pub(crate) records: LineRecords,
    pub(crate) online: u64,
    pub(crate) stripes_left: u32,
}

/// The lines that have a stripe left, in the order in which they were opened: at most two.
#[derive(Debug, Drop)]
pub(crate) struct OpenLines {
    // two of them, of which the first `count` are open
    slots: Vec<OpenLine>,
    count: usize,
}

impl OpenLines {
    /// No open line. It takes the memory for two. Fails only where there isn't that memory.
    pub(crate) fn new(alloc: Global, layout: &Layout) -> Result<OpenLines, AllocError>
        ensures two { IfOk result (λ o. length o.slots.items ≡ 2) }
        ensures shapes { IfOk result (λ o. (k : ℕ) (line : _)
            → slice_get o.slots.items k ≡ Some line → line.records.shape ≡ layout.now) }
        ensures none { IfOk result (λ o. o.count ≡ 0) }
    {
        let mut slots = Vec::with_capacity(alloc, 2)?;
        for _ in 0..2usize {
            slots.push(OpenLine {
                records: LineRecords::new(alloc, layout)?,
                online: 0,
                stripes_left: 0,
            })?;
        }
        Ok(OpenLines { slots, count: 0 })
    }

    /// How many there are.
    pub(crate) fn len(&self) -> usize
        ensures { result ≡ self.now.count }
    {
        self.count
    }

    /// Opens a line with this start record, behind the other one. At most one is open before.
    pub(crate) fn begin(&mut self, start: &StartRecord, online: u64, stripes_left: u32)
        requires room { self.old.count < length self.old.slots.items }
        requires width { (line : _) → IsSlot self.old self.old.count line
            → start.now.width ≤ units line.records.shape }
        requires fits { (line : _) → IsSlot self.old self.old.count line
            → IsTrue (start_fits line.records.shape start.now.line start.now.width
            (start_numbers start.now)) }
        ensures count { self.new.count ≡ self.old.count + 1 }
        ensures slots { (line : _) → IsSlot self.old self.old.count line
            → self.new.slots.items ≡ slice_set self.old.slots.items self.old.count
            (opened_slot line (start_numbers start.now) online stripes_left) }
    {
        let slot = &mut self.slots[self.count];
        slot.records.open(start);
        slot.online = online;
        slot.stripes_left = stripes_left;
        self.count += 1;
    }

    /// Where the line of this number stands among the open ones.
    pub(crate) fn find(&self, line: u32) -> usize
        requires two { length self.now.slots.items ≡ 2 }
        requires there { (k : ℕ) × (slot : _) × (k < 2) × IsSlot self.now k slot
            × (slot.records.line ≡ line) }
        ensures inside { result < 2 }
        ensures line { (slot : _) → IsSlot self.now result slot → slot.records.line ≡ line }
        ensures first { (slot : _) → IsSlot self.now 0 slot
            → slot.records.line ≡ line → result ≡ 0 }
    {
        let first = &self.slots[0];
        if first.records.line() == line { 0 } else { 1 }
    }

    /// One of the two.
    pub(crate) fn get(&self, index: usize) -> &OpenLine
        requires { index < length self.now.slots.items }
        ensures { IsSlot self.now index result.now }
    {
        &self.slots[index]
    }

    /// Fills an empty stripe with the blocks of one line's start record, from the line address `at`
    /// on.
    pub(crate) fn start_stripe(&self, index: usize, at: u32, into: &mut Stripe)
        requires inside { index < length self.now.slots.items }
        requires shape { (slot : _) → IsSlot self.now index slot
            → into.old.shape ≡ slot.records.shape }
        requires empty { into.old.stripe.blocks ≡ [] }
        requires within { at + into.old.shape.ws_opt ≤ start_len into.old.shape }
        ensures { (slot : _) → IsSlot self.now index slot → into.new ≡ followed_by into.old
            (stripe_at into.old.shape (blocks_at_start slot.records) 0 at) }
    {
        let slot = &self.slots[index];
        slot.records.start_stripe(at, into);
    }

    /// Keeps the marks of a stripe of data of one of the two lines, for its end record.
    pub(crate) fn mark_data(&mut self, index: usize, marks: &[Mark])
        requires inside { index < length self.old.slots.items }
        requires room { (slot : _) → IsSlot self.old index slot
            → length slot.records.marks + length marks.now
            ≤ data_len slot.records.shape slot.records.width }
        ensures count { self.new.count ≡ self.old.count }
        ensures slots { (slot : _) → IsSlot self.old index slot
            → self.new.slots.items
            ≡ slice_set self.old.slots.items index (with_marks slot marks.now) }
    {
        let slot = &mut self.slots[index];
        slot.records.mark_data(marks);
    }

    /// Fills an empty stripe with the blocks of one line's end record, from the line address `at`
    /// on.
    pub(crate) fn end_stripe(&mut self, index: usize, at: u32, into: &mut Stripe)
        requires inside { index < length self.old.slots.items }
        requires shape { (slot : _) → IsSlot self.old index slot
            → into.old.shape ≡ slot.records.shape }
        requires empty { into.old.stripe.blocks ≡ [] }
        requires told { (slot : _) → IsSlot self.old index slot
            → length slot.records.marks ≡ data_len slot.records.shape slot.records.width }
        requires from { (slot : _) → IsSlot self.old index slot → end_begins slot.records ≤ at }
        requires within { (slot : _) → IsSlot self.old index slot → at + slot.records.shape.ws_opt
            ≤ end_begins slot.records + end_len slot.records.shape slot.records.width }
        ensures filled { (slot : _) → IsSlot self.old index slot → into.new ≡ followed_by into.old
            (stripe_at into.old.shape (blocks_at_end slot.records) (end_begins slot.records) at) }
        ensures slots { self.new.slots.items ≡ self.old.slots.items }
        ensures count { self.new.count ≡ self.old.count }
    {
        let slot = &mut self.slots[index];
        slot.records.end_stripe(at, into);
    }

    /// Notes that so many more stripes of a line have landed or will not land, and gives how many
    /// are left.
    pub(crate) fn answer(&mut self, index: usize, count: u32) -> u32
        requires inside { index < length self.old.slots.items }
        requires some { (slot : _) → IsSlot self.old index slot → count ≤ slot.stripes_left }
        ensures left { (slot : _) → IsSlot self.old index slot
            → result ≡ slot.stripes_left - count }
        ensures slots { (slot : _) → IsSlot self.old index slot → self.new.slots.items
            ≡ slice_set self.old.slots.items index (answered_slot count slot) }
        ensures count { self.new.count ≡ self.old.count }
    {
        let slot = &mut self.slots[index];
        slot.stripes_left -= count;
        slot.stripes_left
    }

    /// Takes out one of the two, which has no stripe left.
    pub(crate) fn remove(&mut self, index: usize)
        requires two { length self.old.slots.items ≡ 2 }
        requires inside { index < self.old.count }
        requires few { self.old.count ≤ 2 }
        ensures count { self.new.count + 1 ≡ self.old.count }
        ensures first { (slot : _) → index ≡ 0 → IsSlot self.old 1 slot → IsSlot self.new 0 slot }
        ensures second { (slot : _) → index ≡ 1 → IsSlot self.old 0 slot → IsSlot self.new 0 slot }
        ensures two { length self.new.slots.items ≡ 2 }
        ensures same { (k : ℕ) (slot : _) → IsSlot self.new k slot
            → (j : ℕ) × IsSlot self.old j slot }
    {
        if index == 0 {
            self.slots.swap(0, 1);
        }
        self.count -= 1;
    }
}
