//! Texts that a sink is told in pieces.

ghost use Rattle.std.specs.Prelude.{◌≡◌, ◌≤◌, OnOk, OnErr};
ghost use Rattle.std.specs.List.{flat_map};
ghost use Rattle.command_text.specs.Says.{Says, HasTaken, HasFailed};

use pblk_outside::{Sink, SinkErr};

/// Writes these pieces, up to the first one that isn't taken.
pub fn tell<O: Sink>(out: &mut O, pieces: &[&[u8]])
    ensures said { Says (flat_map (λ piece. piece.now) pieces.now)
        (O.view out.old) (O.view out.new) }
    ensures same_told { (O.view out.new).told ≡ (O.view out.old).told }
    ensures never_falls { (O.view out.old).faults ≤ (O.view out.new).faults }
{
    match write_pieces(out, pieces) {
        Ok(()) => {}
        Err(SinkErr::Failed) => {}
    }
}

// Writes these pieces, as the sink writes one.
fn write_pieces<O: Sink>(out: &mut O, pieces: &[&[u8]]) -> Result<(), SinkErr>
    ensures took { OnOk result
        (HasTaken (flat_map (λ piece. piece.now) pieces.now) (O.view out.old) (O.view out.new)) }
    ensures failed { OnErr result
        (HasFailed (flat_map (λ piece. piece.now) pieces.now) (O.view out.old) (O.view out.new)) }
{
    for piece in pieces {
        write(out, piece)?;
    }
    Ok(())
}

/// Writes one piece.
pub(crate) fn write<O: Sink>(out: &mut O, piece: &[u8]) -> Result<(), SinkErr>
    ensures took { OnOk result (HasTaken piece.now (O.view out.old) (O.view out.new)) }
    ensures failed { OnErr result (HasFailed piece.now (O.view out.old) (O.view out.new)) }
{
    out.write(piece)
}
