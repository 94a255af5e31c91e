//! The map from sectors to slots.

ghost use Rattle.std.specs.Prelude.{ℕ, ◌≡◌, ◌<◌, ◌≤◌, ◌↔◌, IsTrue, IfOk, Some, None};
ghost use Rattle.std.specs.Bool.{OnTrue, OnFalse};
ghost use Rattle.std.specs.FinMap as map;
ghost use Rattle.l2p_map.specs.declared.slot.Slot.TheVariants.{Unwritten};

use crate::slot::Slot;
use std::alloc::{AllocError, Global};
use std::marker::Model;

/// The map from the user sectors, numbered from 0 to below the capacity, to their slots.
///
/// Contracts see a finite map that has a slot for each sector below the capacity and for no other, so that its
/// length is the capacity.
#[derive(Debug, Drop)]
pub struct Map {
    slots: Vec<Slot>,
}

impl Model for Map {
    ghost use Rattle.std.specs.Ordering.{nat_cmp};
    ghost use Rattle.std.specs.FinMap.{FinMap, code};
    ghost use Rattle.std.specs.Coded.{coded_ℕ};
    ghost use Rattle.l2p_map.specs.declared.slot.Slot.{Slot};
    ghost use Rattle.l2p_map.specs.Sectors.{slot_code, sectors};

    ghost Value = { FinMap nat_cmp Slot };

    ghost coded = { code coded_ℕ slot_code };

    ghost view = { λ m. sectors m.slots.items };
}

impl Map {
    /// The map of a target of so many sectors, none of which was written.
    ///
    /// Fails only where there isn't the memory for them, a few words each. No later call takes any.
    pub fn new(alloc: Global, capacity: u64) -> Result<Map, AllocError>
        ensures unwritten { IfOk result
            (λ m. (lba : ℕ) → lba < capacity → map.get m lba ≡ Some Unwritten) }
        ensures no_other { IfOk result (λ m. (lba : ℕ) → capacity ≤ lba → map.get m lba ≡ None) }
        ensures capacity { IfOk result (λ m. map.len m ≡ capacity) }
    {
        let slots = vec![in alloc; Slot::Unwritten; capacity as usize]?;
        Ok(Map { slots })
    }

    /// The slot of a sector, which is below the capacity.
    pub fn get(&self, lba: u64) -> Slot
        requires { lba < map.len self.now }
        ensures { map.get self.now lba ≡ Some result }
    {
        let index = lba as usize;
        self.slots[index]
    }

    /// Sets the slot of a sector, which is below the capacity. Every other sector's slot stays.
    pub fn set(&mut self, lba: u64, to: Slot)
        requires { lba < map.len self.old }
        ensures set { self.new ≡ map.insert self.old lba to }
        ensures capacity { map.len self.new ≡ map.len self.old }
    {
        self.slots[lba as usize] = to;
    }

    /// Sets the slot of a sector exactly where it is `old`, and tells whether it was. The sector is below the
    /// capacity.
    pub fn set_if(&mut self, lba: u64, old: Slot, to: Slot) -> bool
        requires { lba < map.len self.old }
        ensures was { IsTrue result ↔ (map.get self.old lba ≡ Some old) }
        ensures set { OnTrue result (self.new ≡ map.insert self.old lba to) }
        ensures unchanged { OnFalse result (self.new ≡ self.old) }
        ensures capacity { map.len self.new ≡ map.len self.old }
    {
        let is_old = self.get(lba) == old;
        if is_old {
            self.set(lba, to);
        }
        is_old
    }
}
