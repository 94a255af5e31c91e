//! A drive is made ready for a mount: chunks that were left Open are padded, and then it is
//! scanned.

ghost use Rattle.std.specs.Prelude.{◌≡◌, map, Err, IfOk, OnErr};
ghost use Rattle.pblk_model.specs.Accepted.{IsAccepted};
ghost use Rattle.scan_recovery.specs.Units.{AreFit};
ghost use Rattle.scan_recovery.specs.Readying.{IsFoundAfter, IsUntouchedOrPadded, AreHandedBack, ReadyCause};

use crate::error::ScanErr;
use crate::padding::pad;
use crate::scanning::scan;
use pblk_model::{Found, Shape};
use std::alloc::Global;
use unit_port::Unit;

/// What is found on a drive, once the chunks that a mount left Open were padded (Bjørling,
/// González, Bonnet, FAST 2017, recovery).
///
/// The shape is accepted, and the units are those of a drive of it. Whatever is answered, a sealed
/// drive holds what it held, and no wear index changes. A program that fails is no error.
///
/// Refused: `Drive` where a command was stopped or a fetch failed, which ends the call; it names
/// that event. `Memory` where there isn't enough; then nothing was done, or no chunk is Open any
/// more. Only a call that answers `Drive` had such a command.
pub fn make_ready<U: Unit>(alloc: Global, units: &mut [U], shape: &Shape) -> Result<Found, ScanErr>
    requires accepted { IsAccepted shape.now }
    requires fit { AreFit shape.now (map U.model units.old) }
    ensures found { IfOk result
        (IsFoundAfter shape.now (map U.model units.old) (map U.model units.new)) }
    ensures handed_back { OnErr result
        (AreHandedBack shape.now (map U.model units.old) (map U.model units.new)) }
    ensures memory { result ≡ Err ScanErr.Memory
        → IsUntouchedOrPadded shape.now (map U.model units.old) (map U.model units.new) }
    ensures cause { ReadyCause (map U.model units.old) (map U.model units.new) result }
    ensures wear { map U.wear units.new ≡ map U.wear units.old }
{
    match pad(alloc, units, shape) {
        Ok(()) => scan(alloc, units, shape),
        Err(e) => Err(e),
    }
}
