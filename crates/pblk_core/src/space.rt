//! How much room a core has.

ghost use Rattle.std.specs.Prelude.{◌≡◌, false};
ghost use Rattle.pblk_world.specs.Space.{is_due, room};
ghost use Rattle.pblk_world.specs.World.{log_of};
ghost use Rattle.write_window.specs.Window as view;
ghost use Rattle.pblk_core.specs.Copies.{is_due_in};
ghost use Rattle.pblk_core.specs.Mounts.{InItsMount};
ghost use Rattle.pblk_core.specs.Stands.{IsStanding};

use crate::target_core::{Core, LAST_POSITION};

impl Core {
    /// The position below which users may claim. It is the least of three limits:
    ///
    /// - the front freed and the ring's size, less a stripe for each unit;
    /// - the front placed and a WS_OPT-th of the data addresses that are left beyond those of two full lines;
    /// - 2^61 - 2, or the mount's first position where that is greater.
    ///
    /// The window has given back all that it can: `pop_free` answers None.
    pub fn grant(&self) -> u64
        requires standing { IsStanding self.now }
        requires drained { view.is_readable_at self.now.window self.now.window.freed ≡ false }
        ensures { InItsMount self.now (λ i w. result ≡ room i (log_of w)) }
    {
        let shape = self.layout.shape();
        let units = shape.units();
        let ring = self.window.freed() + u64::from(shape.ring) - u64::from(units * shape.ws_opt);
        let kept = 2 * u64::from(self.layout.data_len(units));
        let addresses = self.left + self.lines.free_addresses();
        let space = self.first
            + self.placed
            + addresses.saturating_sub(kept) / u64::from(shape.ws_opt);
        ring.min(space).min(LAST_POSITION.max(self.first))
    }

    /// Whether collection is due: the Free lines together have at most as many data addresses as
    /// three full lines.
    pub fn is_due(&self) -> bool
        ensures due { InItsMount self.now (λ i w. result ≡ is_due i (log_of w)) }
        ensures tables { result ≡ is_due_in self.now }
    {
        let units = self.layout.shape().units();
        let full = u64::from(self.layout.data_len(units));
        self.lines.free_addresses() <= 3 * full
    }
}
