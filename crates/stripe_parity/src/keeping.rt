//! The states and write pointers of units' chunks.

ghost use Rattle.std.specs.Prelude.{◌≡◌, ◌<◌, length, map, max, IfOk};
ghost use Rattle.std.specs.List.{AllByRecursion};
ghost use Rattle.scan_recovery.specs.Units.{AreFit, IsUnitOf, image_of};
ghost use Rattle.stripe_parity.specs.ParityFile.{greatest_pointer, kept_chunks, kept_of};

use crate::kept::KeptChunk;
use pblk_model::Shape;
use std::alloc::{AllocError, Global};
use unit_port::Unit;

/// The states and write pointers of the units' chunks, by unit and then by chunk.
pub(crate) fn kept_units<U: Unit>(
    alloc: Global,
    units: &[U],
    shape: &Shape,
) -> Result<Vec<Vec<KeptChunk>>, AllocError>
    requires fit { AreFit shape.now (map U.model units.now) }
    ensures { let i = image_of shape.now (map U.model units.now)
        in IfOk result (λ kept. map (λ of. of.items) kept.items ≡ kept_chunks i) }
{
    let mut kept = Vec::new(alloc);
    for unit in units {
        kept.push(kept_unit(alloc, unit, shape)?)?;
    }
    Ok(kept)
}

// Those of one unit, by chunk.
fn kept_unit<U: Unit>(alloc: Global, unit: &U, shape: &Shape) -> Result<Vec<KeptChunk>, AllocError>
    requires { IsUnitOf shape.now (U.model unit.now) }
    ensures { IfOk result (λ kept. kept.items ≡ map kept_of (U.model unit.now).media) }
{
    let mut kept = Vec::new(alloc);
    for chunk in 0..shape.chunks {
        let (state, pointer) = unit.state(chunk);
        kept.push(KeptChunk { state, pointer })?;
    }
    Ok(kept)
}

/// The greatest write pointer of the units' chunks with a number.
pub(crate) fn greatest(kept: &[Vec<KeptChunk>], chunk: u32) -> u32
    requires { AllByRecursion (λ of. chunk < length of.items) kept.now }
    ensures { result ≡ greatest_pointer (map (λ of. of.items) kept.now) chunk }
{
    let mut most = 0;
    for of in kept {
        most = larger(most, of[chunk as usize].pointer);
    }
    most
}

fn larger(a: u32, b: u32) -> u32
    ensures { result ≡ max a b }
{
    if a < b { b } else { a }
}
