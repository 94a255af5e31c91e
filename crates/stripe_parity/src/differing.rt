//! The first chunk that isn't as a parity says.

ghost use Rattle.std.specs.Prelude.{ℕ, ◌≡◌, ◌<◌, true, false, length, map, slice_get, IfNone, IfSome, IsNone, IsTrue, ◌↔◌};
ghost use Rattle.std.specs.List.{AllByRecursion};
ghost use Rattle.std.specs.Option.{option_map};
ghost use Rattle.pblk_model.specs.Shape.{units as unit_count};
ghost use Rattle.scan_recovery.specs.Units.{AreFit, IsUnitOf, image_of};
ghost use Rattle.stripe_parity.specs.ParityFile.{kept_of};
ghost use Rattle.stripe_parity.specs.Rebuilding.{AreAsKept, IsFirstDifference};

use crate::kept::KeptChunk;
use pblk_model::{ChunkState, Shape};
use unit_port::Unit;

/// The first chunk, by unit and then by chunk, of a unit other than `lost` that has another state
/// or write pointer than is kept of it.
pub(crate) fn first_difference<U: Unit>(
    shape: &Shape,
    kept: &[Vec<KeptChunk>],
    units: &[U],
    lost: u32,
) -> Option<(u32, u32)>
    requires fit { AreFit shape.now (map U.model units.now) }
    requires units { length kept.now ≡ unit_count shape.now }
    requires chunks { AllByRecursion (λ of. length of.items ≡ shape.now.chunks) kept.now }
    ensures first { let i = image_of shape.now (map U.model units.now)
        in IfSome result
        (λ at. IsFirstDifference (map (λ of. of.items) kept.now) i lost at.0 at.1) }
    ensures none { let i = image_of shape.now (map U.model units.now)
        in IfNone result (AreAsKept (map (λ of. of.items) kept.now) i lost) }
{
    for unit in 0..shape.units() {
        let at = unit as usize;
        if let Some(chunk) = other_difference(shape, &kept[at], &units[at], unit == lost) {
            return Some((unit, chunk));
        }
    }
    None
}

// The first chunk of a unit that isn't as is kept of it, unless the unit is lost.
fn other_difference<U: Unit>(shape: &Shape, kept: &[KeptChunk], unit: &U, lost: bool) -> Option<u32>
    requires fits { IsUnitOf shape.now (U.model unit.now) }
    requires count { length kept.now ≡ shape.now.chunks }
    ensures lost { lost ≡ true → IsNone result }
    ensures first { let media = (U.model unit.now).media
        in IfSome result (λ chunk. (chunk < shape.now.chunks)
        × (option_map kept_of (slice_get media chunk) ≡ slice_get kept.now chunk → ⊥)
        × ((c : ℕ) → c < chunk → option_map kept_of (slice_get media c) ≡ slice_get kept.now c)) }
    ensures none { let media = (U.model unit.now).media
        in lost ≡ false → IfNone result
        ((c : ℕ) → option_map kept_of (slice_get media c) ≡ slice_get kept.now c) }
{
    if lost {
        return None;
    }
    unit_difference(shape, kept, unit)
}

// The first chunk of a unit that isn't as is kept of it.
fn unit_difference<U: Unit>(shape: &Shape, kept: &[KeptChunk], unit: &U) -> Option<u32>
    requires fits { IsUnitOf shape.now (U.model unit.now) }
    requires count { length kept.now ≡ shape.now.chunks }
    ensures first { let media = (U.model unit.now).media
        in IfSome result (λ chunk. (chunk < shape.now.chunks)
        × (option_map kept_of (slice_get media chunk) ≡ slice_get kept.now chunk → ⊥)
        × ((c : ℕ) → c < chunk → option_map kept_of (slice_get media c) ≡ slice_get kept.now c)) }
    ensures none { let media = (U.model unit.now).media
        in IfNone result
        ((c : ℕ) → option_map kept_of (slice_get media c) ≡ slice_get kept.now c) }
{
    for chunk in 0..shape.chunks {
        let (state, pointer) = unit.state(chunk);
        if !is_same(kept[chunk as usize], state, pointer) {
            return Some(chunk);
        }
    }
    None
}

fn is_same(kept: KeptChunk, state: ChunkState, pointer: u32) -> bool
    ensures { IsTrue result ↔ (kept ≡ record { state = state; pointer = pointer }) }
{
    kept == KeptChunk { state, pointer }
}
