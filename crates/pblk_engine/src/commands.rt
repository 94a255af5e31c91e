//! The commands of a unit, as an arm gives them.
ghost use Rattle.std.specs.Prelude.{◌≡◌, length};
ghost use Rattle.pblk_model.specs.ChunkStep.{Read, Reset, Write};
ghost use Rattle.unit_port.specs.Unit.{Takes, TellsBlock, TellsDone};
ghost use Rattle.pblk_engine.specs.Arms.{WasGiven};
ghost use Rattle.pblk_engine.specs.Ended.{TellsEnded};

use pblk_core::Stripe;
use pblk_model::Got;
use unit_port::{Unit, UnitErr};

/// How the program of a stripe ended.
#[derive(Clone, Copy, Debug, PartialEq, Eq)]
pub enum Ended {
    /// All its blocks were written.
    Done,
    /// It failed, once the first `kept` of its blocks were written.
    Failed { kept: u32 },
    /// The drive has stopped. The stripe is offered again.
    Stopped,
}

// Has a unit program a stripe of its drive's shape, and tells how that ended. Where it failed, the
// chunk's write pointer tells how many blocks were written.
pub(crate) fn program<U: Unit>(unit: &mut U, stripe: &Stripe) -> Ended
    requires shape { stripe.now.shape ≡ (U.model unit.old).shape }
    requires taken { let s = stripe.now.stripe in
        Takes (U.model unit.old) s.chunk (Write s.at s.blocks) }
    ensures given { let s = stripe.now.stripe in WasGiven (U.model unit.old) s.chunk
        (Write s.at s.blocks) (TellsEnded stripe.now.shape.ws_min result) (U.model unit.new) }
    ensures wear { U.wear unit.new ≡ U.wear unit.old }
{
    match write(unit, stripe) {
        Ok(()) => Ended::Done,
        Err(UnitErr::Failed) => {
            let (_, pointer) = unit.state(stripe.chunk());
            Ended::Failed {
                kept: pointer - stripe.at(),
            }
        }
        Err(UnitErr::Stopped) => Ended::Stopped,
    }
}

// Has a unit program a stripe of its drive's shape.
fn write<U: Unit>(unit: &mut U, stripe: &Stripe) -> Result<(), UnitErr>
    requires shape { stripe.now.shape ≡ (U.model unit.old).shape }
    requires taken { let s = stripe.now.stripe in
        Takes (U.model unit.old) s.chunk (Write s.at s.blocks) }
    ensures given { let s = stripe.now.stripe in WasGiven (U.model unit.old) s.chunk
        (Write s.at s.blocks) (TellsDone result) (U.model unit.new) }
    ensures wear { U.wear unit.new ≡ U.wear unit.old }
{
    let (bytes, marks) = stripe.parts();
    unit.program(stripe.chunk(), stripe.at(), bytes, marks)
}

// Has a unit reset a chunk.
pub(crate) fn reset<U: Unit>(unit: &mut U, chunk: u32) -> Result<(), UnitErr>
    requires taken { Takes (U.model unit.old) chunk Reset }
    ensures given { WasGiven (U.model unit.old) chunk Reset (TellsDone result)
        (U.model unit.new) }
    ensures wear { U.wear unit.new ≡ U.wear unit.old }
{
    unit.reset(chunk)
}

// Has a unit fetch a block of a chunk.
pub(crate) fn fetch<U: Unit>(
    unit: &mut U,
    chunk: u32,
    block: u32,
    out: &mut [u8],
) -> Result<Got, UnitErr>
    requires size { length out.old ≡ (U.model unit.old).shape.sector }
    requires taken { Takes (U.model unit.old) chunk (Read block) }
    ensures given { WasGiven (U.model unit.old) chunk (Read block)
        (TellsBlock out.old out.new result) (U.model unit.new) }
    ensures wear { U.wear unit.new ≡ U.wear unit.old }
{
    unit.fetch(chunk, block, out)
}
