//! Reading the lines of a drive, block by block.

ghost use Rattle.std.specs.Prelude.{List, Some, ◌≡◌, ◌++◌, ◌<◌, ◌^◌, not, length, map, slice_get, IfOk, OnOk};
ghost use Rattle.pblk_model.specs.Accepted.{IsAccepted};
ghost use Rattle.pblk_model.specs.Chunk.{Chunk};
ghost use Rattle.pblk_model.specs.Image.{line_units};
ghost use Rattle.pblk_model.specs.Shape.{units as unit_count};
ghost use Rattle.pblk_layout.specs.Online.{units_in};
ghost use Rattle.pblk_world.specs.Lines.{are_empty, is_empty_state};
ghost use Rattle.world_laws.specs.Finding.{taken_state, taken_states};
ghost use Rattle.scan_recovery.specs.Units.{AreFit, IsStateOf, image_of};

use pblk_layout::{LineUnits, is_online};
use pblk_model::{ChunkState, Shape};
use std::alloc::{AllocError, Global};
use unit_port::Unit;

/// The online units of a line: those whose chunk of it isn't Offline.
pub(crate) fn online_units<U: Unit>(units: &[U], shape: &Shape, line: u32) -> LineUnits
    requires accepted { IsAccepted shape.now }
    requires fit { AreFit shape.now (map U.model units.now) }
    requires line { line < shape.now.chunks }
    ensures units { units_in result ≡ line_units (image_of shape.now (map U.model units.now)) line }
    ensures below { result < 2 ^ unit_count shape.now }
{
    let mut online = LineUnits::none();
    for unit in 0..shape.units() {
        if is_online(state_of(units, shape, unit, line)) {
            online.add(unit);
        }
    }
    online
}

/// Whether a line has a chunk that is neither Free nor Offline.
pub(crate) fn is_used<U: Unit>(units: &[U], shape: &Shape, line: u32) -> bool
    requires fit { AreFit shape.now (map U.model units.now) }
    requires line { line < shape.now.chunks }
    ensures { result ≡ not (are_empty (image_of shape.now (map U.model units.now)) line) }
{
    for unit in 0..shape.units() {
        if !is_empty(state_of(units, shape, unit, line)) {
            return true;
        }
    }
    false
}

// The state of a unit's chunk of a line.
fn state_of<U: Unit>(units: &[U], shape: &Shape, unit: u32, line: u32) -> ChunkState
    requires fit { AreFit shape.now (map U.model units.now) }
    requires unit { unit < length units.now }
    requires line { line < shape.now.chunks }
    ensures { IsStateOf (image_of shape.now (map U.model units.now)) line unit result }
{
    // the shape says which chunks there are
    let _ = shape;
    let (state, _) = units[unit as usize].state(line);
    state
}

fn is_empty(state: ChunkState) -> bool
    ensures { result ≡ is_empty_state state }
{
    match state {
        ChunkState::Free | ChunkState::Offline => true,
        ChunkState::Open | ChunkState::Closed => false,
    }
}

/// Each chunk's state, by unit and then by chunk, with Open taken as Closed.
pub(crate) fn chunk_states<U: Unit>(
    alloc: Global,
    units: &[U],
    shape: &Shape,
) -> Result<Vec<ChunkState>, AllocError>
    requires fit { AreFit shape.now (map U.model units.now) }
    ensures { let i = image_of shape.now (map U.model units.now)
        in IfOk result (λ v. v.items ≡ taken_states i) }
{
    let mut states = Vec::new(alloc);
    for unit in 0..shape.units() {
        unit_states(&mut states, units, shape, unit)?;
    }
    Ok(states)
}

// Adds the states of a unit's chunks.
fn unit_states<U: Unit>(
    states: &mut Vec<ChunkState>,
    units: &[U],
    shape: &Shape,
    unit: u32,
) -> Result<(), AllocError>
    requires fit { AreFit shape.now (map U.model units.now) }
    requires unit { unit < length units.now }
    ensures { let i = image_of shape.now (map U.model units.now)
        in (media : List Chunk) → slice_get i.units unit ≡ Some media
        → OnOk result (states.new.items
        ≡ states.old.items ++ map (λ c. taken_state c.state) media) }
{
    for line in 0..shape.chunks {
        states.push(taken(state_of(units, shape, unit, line)))?;
    }
    Ok(())
}

fn taken(state: ChunkState) -> ChunkState
    ensures { result ≡ taken_state state }
{
    match state {
        ChunkState::Free => ChunkState::Free,
        ChunkState::Open => ChunkState::Closed,
        ChunkState::Closed => ChunkState::Closed,
        ChunkState::Offline => ChunkState::Offline,
    }
}
