//! How a target is opened on the units of a drive.
ghost use Rattle.std.specs.Prelude.{◌≡◌, ◌≤◌, [], ◌∷◌, map, IfOk, IfErr, OnErr, IsOk};
ghost use Rattle.pblk_model.specs.Accepted.{IsAccepted};
ghost use Rattle.pblk_model.specs.Found.{IsFitFound};
ghost use Rattle.scan_recovery.specs.DriveFaults.{NoDriveFaults};
ghost use Rattle.scan_recovery.specs.Readying.{AreHandedBack, IsFoundAfter};
ghost use Rattle.pblk_engine.specs.Beginnings.{opened_past};
ghost use Rattle.block_target.specs.Opened.{CanOpen, IsRefusedOpening, OpenCause};
ghost use Rattle.block_target.specs.OpenedTargets.{AreFirstLogs, AreParts, AreUnused, AreWorks, IsOpenedOn, drive_before};

use crate::drive_rows::{DriveRow, Stand};
use crate::frames::{Frames, end_pool, make_pool};
use crate::opening::{OpenErr, Refused, cause_of};
use crate::rooms::Rooms;
use chronicle::{Author, Chronicle, Past, Token};
use pblk_core::Core;
use pblk_engine::an_opening_is_a_past;
use pblk_model::{Found, Shape, Shows};
use scan_recovery::make_ready;
use sector_pool::Pool;
use std::alloc::{AllocError, Global};
use std::marker::Model;
use unit_port::{Log, Unit};

/// A drive on which a mount has begun, with all that the mount is made of. Nothing was written to
/// it but what its padding wrote.
///
/// A mount has no name before it is there. So it is opened by two calls: `open` makes the parts,
/// and `Opened::target` puts them together, for a mount that names just these by the trait `Mount`.
pub struct Opened<U: Unit> {
    pub(crate) units: Vec<U>,
    pub(crate) parts: Parts,
}

// Contracts see which mount it is, its units as they are, and for how many sessions and lanes it
// is.
impl<U: Unit> Model for Opened<U> {
    ghost use Rattle.std.specs.Prelude.{map};
    ghost use Rattle.block_target.specs.OpenedTargets.{OpenedView, IsOpening, opened_view};

    ghost Value = { OpenedView };

    ghost view = { λ o. opened_view (map U.model o.units.items) (map U.wear o.units.items)
        o.parts };

    ghost invariant = { λ o. IsOpening (map U.model o.units.items) o.parts };
}

/// What a mount is made of beside its units.
pub(crate) struct Parts {
    pub(crate) shape: Shape,
    pub(crate) sessions: u32,
    pub(crate) lanes: u32,
    // the units as they were handed in
    pub(crate) handed: Log<DriveRow>,
    pub(crate) logs: FirstLogs,
    pub(crate) rooms: Rooms,
    pub(crate) works: Works,
}

/// The logs of a mount as they begin: those who append to them, and the token that names workers.
#[derive(Drop)]
pub(crate) struct FirstLogs {
    pub(crate) chronicle: Chronicle,
    pub(crate) authors: Vec<Author>,
    pub(crate) token: Token,
}

/// The frames of a mount with their pool, and its core.
///
/// It can't be dropped: it ends by `give_up`, or the mount goes on with its parts.
pub(crate) struct Works {
    pub(crate) pool: Pool,
    pub(crate) frames: Frames,
    pub(crate) core: Core,
}

// Shows what the logs of a mount begin with: what its units did while the drive was made ready, and
// that the mount began with what was found.
#[derive(Drop)]
struct Opening<'a, U: Unit> {
    shape: &'a Shape,
    handed: &'a Log<DriveRow>,
    units: &'a [U],
    found: &'a Found,
}

impl<U: Unit> Shows for Opening<'_, U> {
    type Event = Past;

    ghost shown = { λ o. opened_past o.shape.now (drive_before o.handed.now)
        (map U.model o.units.now) o.found.now };
}

// The units as they are handed in.
fn note_handed<U: Unit>(alloc: Global, units: &[U]) -> Result<Log<DriveRow>, AllocError>
    ensures { IfOk result (λ handed. handed ≡ map U.model units.now ∷ []) }
{
    let mut handed = Log::new(alloc)?;
    handed.add(&Stand { units });
    Ok(handed)
}

// The logs of a mount that begins with what was found.
fn begin_logs<U: Unit>(
    alloc: Global,
    shape: &Shape,
    handed: &Log<DriveRow>,
    units: &[U],
    found: &Found,
) -> Result<FirstLogs, AllocError>
    requires opens { CanOpen shape.now (drive_before handed.now) }
    requires found { IsFoundAfter shape.now (drive_before handed.now) (map U.model units.now)
        found.now }
    ensures { IfOk result (AreFirstLogs shape.now (opened_past shape.now
        (drive_before handed.now) (map U.model units.now) found.now)) }
{
    an_opening_is_a_past();
    let (chronicle, authors, token) = Chronicle::new(
        alloc,
        shape.units(),
        &Opening {
            shape,
            handed,
            units,
            found,
        },
    )?;
    Ok(FirstLogs {
        chronicle,
        authors,
        token,
    })
}

impl Works {
    // The frames and the core of a mount that begins with what was found.
    fn new(alloc: Global, shape: &Shape, found: Found, sessions: u32) -> Result<Works, AllocError>
        requires accepted { IsAccepted shape.now }
        requires fit { IsFitFound shape.now found }
        requires few { sessions ≤ 64 }
        ensures { IfOk result (AreWorks shape.now found sessions) }
    {
        let mut pool = make_pool(alloc, shape, sessions)?;
        let made = Frames::new(alloc, shape, found.end, sessions, &mut pool);
        let Ok(frames) = made else {
            end_pool(pool);
            return Err(AllocError);
        };
        match Core::new(alloc, shape, found) {
            Ok(core) => Ok(Works { pool, frames, core }),
            Err(e) => {
                frames.give_back(&mut pool);
                end_pool(pool);
                Err(e)
            }
        }
    }

    /// Ends the frames and the core of a mount that has just begun.
    pub(crate) fn give_up(self)
        requires { AreUnused self }
    {
        let Works {
            mut pool,
            frames,
            core,
        } = self;
        core.close(&mut pool);
        frames.give_back(&mut pool);
        end_pool(pool);
    }
}

// What a mount is made of that begins with what was found.
fn make_parts<U: Unit>(
    alloc: Global,
    shape: &Shape,
    handed: Log<DriveRow>,
    units: &[U],
    found: Found,
    sessions: u32,
    lanes: u32,
) -> Result<Parts, AllocError>
    requires one { handed ≡ drive_before handed ∷ [] }
    requires opens { CanOpen shape.now (drive_before handed) }
    requires found { IsFoundAfter shape.now (drive_before handed) (map U.model units.now) found }
    requires some { 1 ≤ sessions }
    requires few { sessions ≤ 64 }
    requires lanes { lanes ≤ 8 }
    ensures { IfOk result (AreParts shape.now (drive_before handed) (map U.model units.now)
        sessions lanes) }
{
    an_opening_is_a_past();
    let rooms = Rooms::new(alloc, shape, sessions, lanes)?;
    let logs = begin_logs(alloc, shape, &handed, units, &found)?;
    Ok(Parts {
        shape: *shape,
        sessions,
        lanes,
        handed,
        logs,
        rooms,
        works: Works::new(alloc, shape, found, sessions)?,
    })
}

// Makes a drive ready, and makes what a mount of it is made of.
fn begin<U: Unit>(
    alloc: Global,
    units: &mut [U],
    shape: &Shape,
    sessions: u32,
    lanes: u32,
) -> Result<Parts, OpenErr>
    requires opens { CanOpen shape.now (map U.model units.old) }
    requires some { 1 ≤ sessions }
    requires few { sessions ≤ 64 }
    requires lanes { lanes ≤ 8 }
    ensures parts { IfOk result (AreParts shape.now (map U.model units.old)
        (map U.model units.new) sessions lanes) }
    ensures handed_back { OnErr result
        (AreHandedBack shape.now (map U.model units.old) (map U.model units.new)) }
    ensures done { IsOk result → NoDriveFaults (map U.model units.old) (map U.model units.new) }
    ensures cause { IfErr result (λ why.
        OpenCause why (map U.model units.old) (map U.model units.new)) }
    ensures wear { map U.wear units.new ≡ map U.wear units.old }
{
    let Ok(handed) = note_handed(alloc, &*units) else {
        return Err(OpenErr::Memory);
    };
    match make_ready(alloc, units, shape) {
        Ok(found) => match make_parts(alloc, shape, handed, &*units, found, sessions, lanes) {
            Ok(parts) => Ok(parts),
            Err(_) => Err(OpenErr::Memory),
        },
        Err(e) => Err(cause_of(e)),
    }
}

/// Opens a target over the units of a drive, for so many sessions and lanes. Chunks that were left
/// Open are padded to their ends, and the drive is scanned (Bjørling, González, Bonnet, FAST 2017,
/// recovery). The mount begins with what is found. Its memory is taken here and in
/// `Opened::target`, and by no later call.
///
/// `Drive` comes where a program of the padding was stopped, or where a fetch of a written block
/// failed or was stopped. It names that event. A program of the padding that failed is no error.
/// `Memory` comes where there isn't the memory. After an error the units are handed back. What a
/// sealed drive held it holds still, whatever is answered.
pub fn open<U: Unit>(
    alloc: Global,
    units: Vec<U>,
    shape: &Shape,
    sessions: u32,
    lanes: u32,
) -> Result<Opened<U>, Refused<U>>
    requires opens { CanOpen shape.now (map U.model units.items) }
    requires some { 1 ≤ sessions }
    requires few { sessions ≤ 64 }
    requires lanes { lanes ≤ 8 }
    ensures opened { IfOk result (IsOpenedOn shape.now (map U.model units.items)
        (map U.wear units.items) sessions lanes) }
    ensures done { IfOk result (λ o. NoDriveFaults (map U.model units.items) o.units) }
    ensures refused { IfErr result (λ r.
        IsRefusedOpening shape.now (map U.model units.items) (map U.wear units.items)
        (map U.model r.units.items) (map U.wear r.units.items) r.cause) }
{
    let mut units = units;
    match begin(alloc, units.as_mut_slice(), shape, sessions, lanes) {
        Ok(parts) => Ok(Opened { units, parts }),
        Err(cause) => Err(Refused { units, cause }),
    }
}
