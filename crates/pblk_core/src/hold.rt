//! What is kept beside each entry of the window.

ghost use Rattle.std.specs.Prelude.{◌≡◌, ◌%◌, ◌<◌, length, IfOk, Some, slice_get, slice_set};
ghost use Rattle.l2p_map.specs.declared.slot.Slot.TheVariants.{Cached};
ghost use Rattle.pblk_core.specs.Holds.{rows_with_taker};

use pblk_model::Mark;
use std::alloc::{AllocError, Global};

/// What the core keeps of an entry beside its sector.
#[derive(Clone, Copy, Debug, PartialEq, Eq)]
pub(crate) struct Hold {
    /// The mark with which it is written.
    pub(crate) mark: Mark,
    /// The line in which it was placed.
    pub(crate) line: Option<u32>,
    /// The next entry of its sector that was taken. A Void entry has no sector.
    pub(crate) taker: Option<u64>,
}

/// A row for each entry of the window, by its position modulo the ring's size.
#[derive(Debug, Drop)]
pub(crate) struct Holds {
    rows: Vec<Hold>,
}

impl Holds {
    /// Rows for as many entries as the ring has. Fails only where there isn't the memory.
    pub(crate) fn new(alloc: Global, ring: u32) -> Result<Holds, AllocError>
        ensures { IfOk result (λ h. length h.rows.items ≡ ring) }
    {
        let none = Hold {
            mark: Mark {
                lba: 0,
                position: 0,
            },
            line: None,
            taker: None,
        };
        let rows = vec![in alloc; none; ring as usize]?;
        Ok(Holds { rows })
    }

    /// The row of an entry.
    pub(crate) fn get(&self, position: u64) -> Hold
        requires { 0 < length self.now.rows.items }
        ensures { slice_get self.now.rows.items (position % length self.now.rows.items)
            ≡ Some result }
    {
        self.rows[self.index(position)]
    }

    /// Sets the row of an entry.
    pub(crate) fn set(&mut self, position: u64, to: Hold)
        requires { 0 < length self.old.rows.items }
        ensures { self.new.rows.items ≡ slice_set self.old.rows.items
            (position % length self.old.rows.items) to }
    {
        let index = self.index(position);
        self.rows[index] = to;
    }

    /// Notes in the row of an entry that a later entry of its sector was taken.
    pub(crate) fn set_taker(&mut self, position: u64, by: u64)
        requires { 0 < length self.old.rows.items }
        ensures { self.new.rows.items ≡ rows_with_taker (Cached position) by self.old.rows.items }
    {
        let hold = self.get(position);
        self.set(
            position,
            Hold {
                taker: Some(by),
                ..hold
            },
        );
    }

    fn index(&self, position: u64) -> usize
        requires { 0 < length self.now.rows.items }
        ensures { result ≡ position % length self.now.rows.items }
    {
        (position % self.rows.len() as u64) as usize
    }
}
