//! The online units of a line.

ghost use Rattle.std.specs.Prelude.{◌≡◌, ◌==◌, ◌||◌, ◌-◌, ◌*◌, ◌<◌, ◌≤◌, ◌^◌, ℕ, true, length};
ghost use Rattle.pblk_model.specs.Accepted.{IsAccepted};
ghost use Rattle.pblk_model.specs.Found.{online_units};
ghost use Rattle.pblk_model.specs.Image.{is_online_in};
ghost use Rattle.pblk_model.specs.Shape.{units};
ghost use Rattle.pblk_layout.specs.Online.{is_in, units_in};

use crate::online;
use pblk_model::{ChunkState, Found, Shape};
use std::marker::Model;

/// Whether a chunk isn't Offline (Open-Channel SSD Specification 2.0, Chunk states). Its unit is then an online
/// unit of the chunk's line.
pub fn is_online(state: ChunkState) -> bool
    ensures { result ≡ is_online_in state }
{
    !matches!(state, ChunkState::Offline)
}

/// A set of units of a drive, which has at most 64 of them: the online units of a line, whose chunks of it aren't
/// Offline. It takes no memory.
///
/// Contracts see the number of which bit `u` is set for each unit `u` of the set. `units_in` of it is the list of
/// the units, rising.
#[derive(Clone, Copy, Debug, PartialEq, Eq)]
pub struct LineUnits {
    bits: u64,
}

impl Model for LineUnits {
    ghost use Rattle.std.specs.Prelude.{ℕ};

    ghost Value = { ℕ };

    ghost view = { λ s. s.bits };

    ghost inverse = { λ n. record { bits = n } };
}

impl LineUnits {
    /// No unit.
    pub fn none() -> LineUnits
        ensures { result ≡ 0 }
    {
        LineUnits { bits: 0 }
    }

    /// Adds a unit, whose number is below 64.
    pub fn add(&mut self, unit: u32)
        requires { unit < 64 }
        ensures { (u : ℕ) → is_in self.new u ≡ ((u == unit) || is_in self.old u) }
    {
        self.bits |= 1 << unit;
    }

    /// Takes away a unit, whose number is below 64 and which is one of the set.
    pub fn remove(&mut self, unit: u32)
        requires unit { unit < 64 }
        requires among { is_in self.old unit ≡ true }
        ensures { self.new ≡ self.old - 2 ^ unit }
    {
        self.bits -= 1 << unit;
    }

    /// How many units there are.
    pub fn width(self) -> u32
        ensures width { result ≡ length (units_in self) }
        ensures few { (n : ℕ) → self < 2 ^ n → result ≤ n }
    {
        online::width(self.bits)
    }

    /// The units as bits, bit `u` for unit `u`: what `Layout` takes as `online`.
    pub fn bits(self) -> u64
        ensures { result ≡ self }
    {
        self.bits
    }
}

/// The online units of a line, by what recovery found.
pub(crate) fn found_units(shape: &Shape, found: &Found, line: u32) -> LineUnits
    requires accepted { IsAccepted shape.now }
    requires chunks { length found.now.chunks ≡ units shape.now * shape.now.chunks }
    requires line { line < shape.now.chunks }
    ensures units { units_in result ≡ online_units shape.now found.now line }
    ensures below { result < 2 ^ units shape.now }
{
    let chunks = found.chunks.as_slice();
    let mut online = LineUnits::none();
    for unit in 0..shape.units() {
        if is_online(chunks[unit as usize * shape.chunks as usize + line as usize]) {
            online.add(unit);
        }
    }
    online
}
