//! Entries that wait for a stripe, in a placer without a line.
ghost use Rattle.std.specs.Prelude.{◌≡◌, ◌<◌, []};
ghost use Rattle.std.specs.List.{flat_map, range_with_len};
ghost use Rattle.stripe_placer.specs.Placing.{positions_in};

use crate::drive::Drive;
use crate::sheet::Sheet;
use anyhow::Result;
use std::alloc::{AllocError, Global};
use std::rt::Clock;
use stripe_placer::Placer;

#[derive(Drop)]
pub(crate) struct Waits {
    placer: Placer,
    next: u64,
    room: u64,
    ghost lost: { placer.entries.lost ≡ [] },
    ghost fresh: { placer.entries.fresh ≡ range_with_len 0 next },
    ghost idle: { flat_map positions_in placer.units ≡ [] },
    ghost ring: { placer.shape.ring ≡ room },
}

impl Waits {
    fn new(alloc: Global, drive: &Drive) -> Result<Waits, AllocError> {
        let layout = drive.layout;
        let room = u64::from(layout.shape().ring);
        let placer = Placer::new(alloc, &layout)?;
        Ok(Waits {
            placer,
            next: 0,
            room,
        })
    }

    fn wait_one(&mut self)
        requires { self.old.next < self.old.room }
    {
        self.placer.wait(self.next, false);
        self.next += 1;
    }

    // As many as the ring has room for.
    fn wait_all(&mut self) -> u64 {
        for _ in 0..self.room {
            if self.next < self.room {
                self.wait_one();
            }
        }
        self.next
    }
}

/// Measures `wait`.
pub(crate) fn measure<C: Clock>(
    alloc: Global,
    clock: &C,
    sheet: &mut Sheet,
    drive: &Drive,
) -> Result<()> {
    let mut waits = Waits::new(alloc, drive)?;
    sheet.start(clock)?;
    let sum = waits.wait_all();
    sheet.stop(clock, "placer.wait", waits.room, sum)
}
