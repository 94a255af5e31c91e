//! The chunks that are still to be reset.

ghost use Rattle.std.specs.Prelude.{ℕ, ◌≡◌, ◌≢◌, ◌-◌, ◌*◌, ◌==◌, ◌^◌, ◌<◌, [], false, length, drop, slice_get, Some, IsSome, IfOk};
ghost use Rattle.std.specs.List.{list_any, slice_index_or};
ghost use Rattle.pblk_model.specs.Accepted.{IsAccepted};
ghost use Rattle.pblk_model.specs.Found.{Rise};
ghost use Rattle.pblk_model.specs.Shape.{units};
ghost use Rattle.pblk_layout.specs.Online.{units_in};
ghost use Rattle.line_table.specs.LineSets.{has};
ghost use Rattle.pblk_core.specs.declared.resets.LineChunk.{LineChunk};
ghost use Rattle.pblk_core.specs.Resets.{is_used_state, used_below, resets_found, resets_left, used_in, is_of_line, HasNoneOf, GetsChunks};

use line_table::LineSet;
use pblk_layout::LineUnits;
use pblk_model::{ChunkState, Shape};
use std::alloc::{AllocError, Global};
use std::marker::Model;

/// A chunk of a line that was given up.
#[derive(Clone, Copy, Debug, PartialEq, Eq)]
pub(crate) struct LineChunk {
    pub(crate) line: u32,
    pub(crate) unit: u32,
}

/// The chunks that are still to be reset. A line that was given up waits until each of its chunks
/// is Free or Offline. The units whose chunk is neither are kept of every line, so that a line can
/// be given up later. The next chunk is that of the least such unit of the least line that waits.
///
/// Each call but `new` takes the same few steps, whatever the drive, and no memory.
///
/// Contracts see the words of the set of waiting lines, and each line's units as bits.
#[derive(Drop)]
pub(crate) struct Resets {
    waiting: LineSet,
    used: Vec<LineUnits>,
}

impl Model for Resets {
    ghost use Rattle.pblk_core.specs.Resets.{ResetQueue, IsResetQueue};

    ghost Value = { ResetQueue };

    ghost view = { λ r. record { waiting = r.waiting; used = r.used.items } };

    ghost invariant = { λ r. IsResetQueue (record { waiting = r.waiting; used = r.used.items }) };
}

impl Resets {
    /// The chunks of the strays that are neither Free nor Offline, by the states of all chunks. The
    /// strays rise, and each has such a chunk. No other line waits. Fails only where there isn't
    /// the memory.
    pub(crate) fn new(
        alloc: Global,
        shape: &Shape,
        states: &[ChunkState],
        strays: &[u32],
    ) -> Result<Resets, AllocError>
        requires accepted { IsAccepted shape.now }
        requires chunks { length states.now ≡ units shape.now * shape.now.chunks }
        requires rise { Rise strays.now }
        requires lines { (k line : ℕ) → slice_get strays.now k ≡ Some line
            → line < shape.now.chunks }
        requires some { (k line : ℕ) → slice_get strays.now k ≡ Some line
            → used_below shape.now states.now line (units shape.now) ≢ [] }
        ensures left { IfOk result (λ r.
            resets_left r ≡ resets_found shape.now states.now strays.now) }
        ensures used { IfOk result (λ r. (line : ℕ) → line < shape.now.chunks
            → units_in (used_in r line) ≡ used_below shape.now states.now line (units shape.now)) }
        ensures lines { IfOk result (λ r. length r.used ≡ shape.now.chunks) }
    {
        let used = used_units_of_all(alloc, shape, states)?;
        let waiting = set_of(strays);
        Ok(Resets { waiting, used })
    }

    /// The first chunk that is left, if one is.
    pub(crate) fn first(&self) -> Option<LineChunk>
        ensures { result ≡ slice_get (resets_left self.now) 0 }
    {
        match self.waiting.least() {
            Some(line) => {
                let unit = self.used[line as usize].bits().trailing_zeros();
                Some(LineChunk { line, unit })
            }
            None => None,
        }
    }

    /// Notes that the first chunk that was left is reset. It is Free or Offline now.
    pub(crate) fn advance(&mut self)
        requires { IsSome (slice_get (resets_left self.old) 0) }
        ensures left { resets_left self.new ≡ drop 1 (resets_left self.old) }
        ensures here { (chunk : LineChunk) → slice_get (resets_left self.old) 0 ≡ Some chunk
            → units_in (used_in self.new chunk.line)
            ≡ drop 1 (units_in (used_in self.old chunk.line)) }
        ensures others { (line : ℕ) → is_of_line line (slice_get (resets_left self.old) 0) ≡ false
            → used_in self.new line ≡ used_in self.old line }
        ensures lines { length self.new.used ≡ length self.old.used }
    {
        let chunk = match self.first() {
            Some(chunk) => chunk,
            None => unreachable!(),
        };
        let index = chunk.line as usize;
        let mut units = self.used[index];
        units.remove(chunk.unit);
        self.used[index] = units;
        if units.bits() == 0 {
            self.waiting.set(chunk.line, false);
        }
    }

    /// Whether the first chunk that is left is of this line.
    pub(crate) fn is_at(&self, line: u32) -> bool
        ensures { result ≡ is_of_line line (slice_get (resets_left self.now) 0) }
    {
        match self.first() {
            Some(chunk) => chunk.line == line,
            None => false,
        }
    }

    /// Notes the units whose chunk of a line is neither Free nor Offline. The line doesn't wait.
    pub(crate) fn set_used(&mut self, line: u32, units: LineUnits)
        requires inside { line < length self.old.used }
        requires none { HasNoneOf line (resets_left self.old) }
        ensures left { resets_left self.new ≡ resets_left self.old }
        ensures used { used_in self.new line ≡ units }
        ensures others { (n : ℕ) → n ≢ line → used_in self.new n ≡ used_in self.old n }
        ensures lines { length self.new.used ≡ length self.old.used }
    {
        self.used[line as usize] = units;
    }

    /// A line waits from now on: its chunks that are neither Free nor Offline are to be reset. It
    /// has some, and didn't wait.
    pub(crate) fn give_up(&mut self, line: u32)
        requires none { HasNoneOf line (resets_left self.old) }
        requires some { units_in (used_in self.old line) ≢ [] }
        ensures left { GetsChunks (resets_left self.old) (resets_left self.new) line
            (units_in (used_in self.old line)) }
        ensures used { self.new.used ≡ self.old.used }
    {
        self.waiting.set(line, true);
    }
}

// Whether a chunk is neither Free nor Offline.
fn is_used(state: ChunkState) -> bool
    ensures { result ≡ is_used_state state }
{
    matches!(state, ChunkState::Open | ChunkState::Closed)
}

// The units whose chunk of a line is neither Free nor Offline.
fn used_units(shape: &Shape, states: &[ChunkState], line: u32) -> LineUnits
    requires accepted { IsAccepted shape.now }
    requires chunks { length states.now ≡ units shape.now * shape.now.chunks }
    requires line { line < shape.now.chunks }
    ensures { units_in result ≡ used_below shape.now states.now line (units shape.now) }
{
    let mut used = LineUnits::none();
    for unit in 0..shape.units() {
        if is_used(states[unit as usize * shape.chunks as usize + line as usize]) {
            used.add(unit);
        }
    }
    used
}

// Those units of each line.
fn used_units_of_all(
    alloc: Global,
    shape: &Shape,
    states: &[ChunkState],
) -> Result<Vec<LineUnits>, AllocError>
    requires accepted { IsAccepted shape.now }
    requires chunks { length states.now ≡ units shape.now * shape.now.chunks }
    ensures lines { IfOk result (λ used. length used.items ≡ shape.now.chunks) }
    ensures each { IfOk result (λ used. (line : ℕ) → line < shape.now.chunks
        → units_in (slice_index_or used.items line 0)
        ≡ used_below shape.now states.now line (units shape.now)) }
{
    let mut used = Vec::with_capacity(alloc, shape.chunks as usize)?;
    for line in 0..shape.chunks {
        used.push(used_units(shape, states, line))?;
    }
    Ok(used)
}

// The set of these lines.
fn set_of(lines: &[u32]) -> LineSet
    requires { (k line : ℕ) → slice_get lines.now k ≡ Some line → line < 1024 }
    ensures { (n : ℕ) → has result n ≡ list_any (λ line. line == n) lines.now }
{
    let mut set = LineSet::empty();
    for line in lines {
        set.set(*line, true);
    }
    set
}
