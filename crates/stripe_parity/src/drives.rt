//! The parity of a drive in memory.

ghost use Rattle.std.specs.Prelude.{◌≡◌, map, IfErr, IfOk, OnOk};
ghost use Rattle.pblk_model.specs.Contents.{contents, end};
ghost use Rattle.pblk_model.specs.Sealed.{IsSealed};
ghost use Rattle.unit_port.specs.Commands.{AreUnarmed};
ghost use Rattle.world_laws.specs.Finding.{NoneOpen};
ghost use Rattle.ocssd_drive.specs.Drive.{IsWhole, shape_of, with_units};
ghost use Rattle.ocssd_drive.specs.Units.{WornUnit};
ghost use Rattle.scan_recovery.specs.Fetches.{WereFetched};
ghost use Rattle.scan_recovery.specs.declared.error.ScanErr.TheVariants as scan;
ghost use Rattle.stripe_parity.specs.declared.error.ParityErr.TheVariants.{Memory};
ghost use Rattle.stripe_parity.specs.ParityFile.{parity_of};
ghost use Rattle.stripe_parity.specs.Rebuilding.{drive_image};
ghost use Rattle.stripe_parity.specs.Refusals.{fetch_error};

use crate::error::ParityErr;
use crate::parity::{Parity, make};
use ocssd_drive::Drive;
use scan_recovery::{ScanErr, pad};
use std::alloc::Global;

/// The parity of a drive of which no chunk is Open: `make` of its units.
///
/// No chunk and no wear index changes. Refused: `Drive` where a fetch failed or was stopped, which
/// doesn't come where the drive isn't armed; `Memory`.
pub fn make_for(alloc: Global, drive: &mut Drive) -> Result<Parity, ParityErr>
    requires closed { NoneOpen (drive_image drive.old) }
    ensures parity { IfOk result (λ p. p ≡ parity_of (drive_image drive.old)) }
    ensures wanting { AreUnarmed (map (λ (u : WornUnit). u.unit) drive.old.units)
        → IfErr result (λ e. e ≡ Memory) }
    ensures fetched { WereFetched (shape_of drive.old)
        (map (λ (u : WornUnit). u.unit) drive.old.units)
        (map (λ (u : WornUnit). u.unit) drive.new.units) (fetch_error result) }
    ensures untouched { drive_image drive.new ≡ drive_image drive.old }
    ensures wear { map (λ (u : WornUnit). u.wear) drive.new.units
        ≡ map (λ (u : WornUnit). u.wear) drive.old.units }
    ensures numbers { drive.new ≡ with_units drive.new.units drive.old }
    ensures whole { IsWhole drive.new }
{
    let shape = drive.shape();
    make(alloc, &mut drive.units, &shape)
}

/// Closes every Open chunk of a drive: `pad` of its units.
///
/// A sealed drive stays sealed and holds what it held. Refused: `Drive` where a unit was stopped,
/// which doesn't come where the drive isn't armed; `Memory`, and then nothing was programmed.
pub fn pad_drive(alloc: Global, drive: &mut Drive) -> Result<(), ScanErr>
    ensures closed { OnOk result (NoneOpen (drive_image drive.new)) }
    ensures wanting { AreUnarmed (map (λ (u : WornUnit). u.unit) drive.old.units)
        → IfErr result (λ e. e ≡ scan.Memory) }
    ensures unarmed { AreUnarmed (map (λ (u : WornUnit). u.unit) drive.old.units)
        → AreUnarmed (map (λ (u : WornUnit). u.unit) drive.new.units) }
    ensures sealed { IsSealed (drive_image drive.old) → IsSealed (drive_image drive.new) }
    ensures contents { IsSealed (drive_image drive.old)
        → contents (drive_image drive.new) ≡ contents (drive_image drive.old) }
    ensures end { IsSealed (drive_image drive.old)
        → end (drive_image drive.new) ≡ end (drive_image drive.old) }
    ensures wear { map (λ (u : WornUnit). u.wear) drive.new.units
        ≡ map (λ (u : WornUnit). u.wear) drive.old.units }
    ensures numbers { drive.new ≡ with_units drive.new.units drive.old }
    ensures whole { IsWhole drive.new }
{
    let shape = drive.shape();
    pad(alloc, &mut drive.units, &shape)
}
