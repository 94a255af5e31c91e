//! When a chunk refuses a command, which of its blocks can be read, and its state after a write and a reset.

ghost use Rattle.std.specs.Prelude.{◌≡◌, ◌+◌, ◌<◌, ◌≤◌, ◌↔◌, [], IsTrue, if◌then◌else◌, nat_lt};
ghost use Rattle.std.specs.Result.{result_err};
ghost use Rattle.pblk_model.specs.declared.chunk.ChunkState.TheVariants as states;
ghost use Rattle.pblk_model.specs.Chunk.{PointerFits, ReadableIn};
ghost use Rattle.pblk_model.specs.ChunkStep.{place_refusal, write_refusal_in, read_refusal_in, reset_refusal_in, reset_in};

use pblk_model::{ChunkErr, ChunkState, Shape};

/// Whether a chunk in this state, with this write pointer, takes a write of `count` blocks at `at`.
pub(crate) fn check_write(
    shape: &Shape,
    state: ChunkState,
    pointer: u32,
    at: u32,
    count: usize,
) -> Result<(), ChunkErr>
    requires unit { 0 < shape.now.ws_min }
    requires within { pointer ≤ shape.now.clba }
    ensures { result_err result ≡ write_refusal_in shape.now state pointer at count }
{
    match state {
        ChunkState::Free | ChunkState::Open => check_place(shape, pointer, at, count),
        ChunkState::Closed => Err(ChunkErr::Closed),
        ChunkState::Offline => Err(ChunkErr::Offline),
    }
}

// Whether a chunk that takes writes takes this one.
fn check_place(shape: &Shape, pointer: u32, at: u32, count: usize) -> Result<(), ChunkErr>
    requires unit { 0 < shape.now.ws_min }
    requires within { pointer ≤ shape.now.clba }
    ensures { result_err result ≡ place_refusal shape.now pointer at count }
{
    if at != pointer {
        return Err(ChunkErr::NotAtPointer);
    }
    if count == 0 || count % shape.ws_min as usize != 0 {
        return Err(ChunkErr::NotMultiple);
    }
    let room = (shape.clba - pointer) as usize;
    if count > room {
        return Err(ChunkErr::PastEnd);
    }
    Ok(())
}

/// Whether a chunk in this state takes a read of a block.
pub(crate) fn check_read(shape: &Shape, state: ChunkState, block: u32) -> Result<(), ChunkErr>
    ensures { result_err result ≡ read_refusal_in shape.now state block }
{
    match state {
        ChunkState::Offline => Err(ChunkErr::Offline),
        _ if block >= shape.clba => Err(ChunkErr::PastEnd),
        _ => Ok(()),
    }
}

/// Whether a block can be read, in a chunk in this state with this write pointer.
pub(crate) fn is_readable(shape: &Shape, state: ChunkState, pointer: u32, block: u32) -> bool
    ensures { IsTrue result ↔ ReadableIn state shape.now.mw_cunits pointer block }
{
    match state {
        ChunkState::Free | ChunkState::Offline => false,
        ChunkState::Open => u64::from(block) + u64::from(shape.mw_cunits) < u64::from(pointer),
        ChunkState::Closed => block < pointer,
    }
}

/// The state of a chunk after a write: Open below its end, and Closed at it.
pub(crate) fn state_at(shape: &Shape, pointer: usize) -> ChunkState
    ensures { result ≡ (if nat_lt pointer shape.now.clba then states.Open else states.Closed) }
{
    if pointer < shape.clba as usize {
        ChunkState::Open
    } else {
        ChunkState::Closed
    }
}

/// Whether a chunk in this state takes a reset.
pub(crate) fn check_reset(state: ChunkState) -> Result<(), ChunkErr>
    ensures { result_err result ≡ reset_refusal_in state }
{
    match state {
        ChunkState::Open | ChunkState::Closed => Ok(()),
        ChunkState::Free | ChunkState::Offline => Err(ChunkErr::NotResettable),
    }
}

/// The state of a chunk after a reset: Offline where it was closed before its end, and else Free.
pub(crate) fn state_after_reset(shape: &Shape, state: ChunkState, pointer: usize) -> ChunkState
    ensures chunk { reset_in shape.now state pointer ≡ record { state = result; blocks = [] } }
    ensures empty { PointerFits result shape.now.clba 0 }
{
    match state {
        ChunkState::Closed if pointer == shape.clba as usize => ChunkState::Free,
        ChunkState::Closed | ChunkState::Offline => ChunkState::Offline,
        ChunkState::Free | ChunkState::Open => ChunkState::Free,
    }
}
