//! The map of a drive's target.
ghost use Rattle.std.specs.Prelude.{◌≡◌, ◌<◌};
ghost use Rattle.std.specs.FinMap.{len};

use crate::draw::{DRAWS, Draw, draw_all};
use crate::sheet::Sheet;
use anyhow::{Result, ensure};
use l2p_map::{Map, Slot};
use std::alloc::Global;
use std::rt::Clock;

#[derive(Drop)]
pub(crate) struct Sectors {
    map: Map,
    count: u64,
    ghost sized: { len map ≡ count },
    ghost some: { 0 < count },
}

/// What each sector is set to.
const BLOCK: Slot = Slot::Media {
    line: 3,
    at: 17,
    position: 9,
};

impl Sectors {
    pub(crate) fn new(alloc: Global, count: u64) -> Result<Sectors> {
        ensure!(count != 0, "a target has a sector");
        let map = Map::new(alloc, count)?;
        Ok(Sectors { map, count })
    }

    fn set(&mut self) -> u64 {
        let mut draw = Draw::new();
        for _ in 0..DRAWS {
            let lba = draw.below(self.count);
            self.map.set(lba, BLOCK);
        }
        DRAWS
    }

    // How many of the sectors were set.
    fn get(&self) -> u64 {
        let mut draw = Draw::new();
        let mut sum = 0u64;
        for _ in 0..DRAWS {
            sum = sum.wrapping_add(u64::from(self.map.get(draw.below(self.count)) == BLOCK));
        }
        sum
    }

    // How many of the sectors were set to what they are.
    fn set_if(&mut self) -> u64 {
        let mut draw = Draw::new();
        let mut sum = 0u64;
        for _ in 0..DRAWS {
            let lba = draw.below(self.count);
            sum = sum.wrapping_add(u64::from(self.map.set_if(lba, BLOCK, BLOCK)));
        }
        sum
    }

    /// Measures each call.
    pub(crate) fn round<C: Clock>(&mut self, clock: &C, sheet: &mut Sheet) -> Result<()> {
        sheet.start(clock)?;
        let sum = draw_all(self.count);
        sheet.stop(clock, "draw sector", DRAWS, sum)?;
        sheet.start(clock)?;
        let sum = self.set();
        sheet.stop(clock, "map.set", DRAWS, sum)?;
        sheet.start(clock)?;
        let sum = self.get();
        sheet.stop(clock, "map.get", DRAWS, sum)?;
        sheet.start(clock)?;
        let sum = self.set_if();
        sheet.stop(clock, "map.set_if", DRAWS, sum)
    }
}
