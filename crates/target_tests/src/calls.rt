//! Single calls of the port of a target.

ghost use Rattle.std.specs.Prelude.{◌≡◌};
ghost use Rattle.block_port.specs.Port.{IsSameTarget};
ghost use Rattle.block_target.specs.Targets.{Names};

use crate::harness::{close, open};
use crate::shapes::EIGHT_UNITS;
use block_target::{FlushErr, Note, Opened, Port, ReadErr, Refused, SettleErr, WriteErr};
use ocssd_drive::MemoryUnit;
use pblk_engine::Mount;
use std::alloc::{AllocError, Global};
use std::marker::Brand;
use std::sync::Wait;
use std::test::Fail;

// What is asked of a port with sectors of 512 bytes.
#[derive(Clone, Copy)]
enum Asked {
    // Writes two sectors of this byte.
    Write(u64, u8),
    // Reads two sectors.
    Read(u64),
    Flush,
    Tell,
    // Hears this position, which is below 2^32.
    Hear(u32),
    Sector,
}

// What it told.
#[derive(Clone, Copy, PartialEq, Eq)]
enum Told {
    // The first position, and how many there are.
    Placed(u64, u32),
    // The last byte of each sector, and the front's users and position.
    Bytes([u8; 2], u64, u64),
    Synced(u64, u64),
    Seen(u64),
    Size(u32),
    Done,
    Range,
    Drive(u32, u64),
    Worn(u64, u64),
}

fn ask<R: Wait, P: Port>(rt: &R, port: &mut P, asked: Asked) -> Told
    ensures { IsSameTarget (P.model port.old) (P.model port.new) }
{
    match asked {
        Asked::Write(lba, byte) => write(rt, port, lba, byte),
        Asked::Read(lba) => read(rt, port, lba),
        Asked::Flush => match port.flush(rt) {
            Ok(front) => Told::Synced(front.users, front.position),
            Err(FlushErr::Drive { unit, event }) => Told::Drive(unit, event),
            Err(FlushErr::Worn { wanted, have }) => Told::Worn(wanted, have),
        },
        Asked::Tell => Told::Seen(port.tell().position),
        Asked::Hear(position) => {
            port.hear(Note {
                position: u64::from(position),
            });
            Told::Done
        }
        Asked::Sector => Told::Size(port.sector()),
    }
}

fn write<R: Wait, P: Port>(rt: &R, port: &mut P, lba: u64, byte: u8) -> Told
    ensures { IsSameTarget (P.model port.old) (P.model port.new) }
{
    let size = port.sector();
    if size != 512 {
        return Told::Size(size);
    }
    match port.write(rt, lba, &[byte; 1024]) {
        Ok(place) => Told::Placed(place.first, place.count),
        Err(WriteErr::Range) => Told::Range,
        Err(WriteErr::Drive { unit, event }) => Told::Drive(unit, event),
        Err(WriteErr::Worn { wanted, have }) => Told::Worn(wanted, have),
    }
}

fn read<R: Wait, P: Port>(rt: &R, port: &mut P, lba: u64) -> Told
    ensures { IsSameTarget (P.model port.old) (P.model port.new) }
{
    let size = port.sector();
    if size != 512 {
        return Told::Size(size);
    }
    let mut bytes = [99; 1024];
    match port.read(rt, lba, &mut bytes) {
        Ok(front) => Told::Bytes([bytes[511], bytes[1023]], front.users, front.position),
        Err(ReadErr::Range) => Told::Range,
        Err(ReadErr::Drive { unit, event }) => Told::Drive(unit, event),
    }
}

// What a target of 405 sectors is asked, and what it tells.
static ROWS: [(Asked, Told); 19] = [
    (Asked::Sector, Told::Size(512)),
    (Asked::Tell, Told::Seen(0)),
    (Asked::Hear(0), Told::Done),
    (Asked::Write(404, 1), Told::Range),
    (Asked::Write(u64::MAX, 1), Told::Range),
    (Asked::Read(404), Told::Range),
    (Asked::Read(u64::MAX - 1), Told::Range),
    (Asked::Read(403), Told::Bytes([0, 0], 0, 0)),
    (Asked::Write(403, 7), Told::Placed(0, 2)),
    (Asked::Write(404, 8), Told::Range),
    (Asked::Tell, Told::Seen(2)),
    (Asked::Read(402), Told::Bytes([0, 7], 2, 2)),
    (Asked::Flush, Told::Synced(2, 2)),
    (Asked::Write(402, 9), Told::Placed(2, 2)),
    (Asked::Hear(3), Told::Done),
    (Asked::Tell, Told::Seen(4)),
    (Asked::Read(403), Told::Bytes([9, 7], 4, 4)),
    (Asked::Flush, Told::Synced(4, 4)),
    (Asked::Read(404), Told::Range),
];

// What a target leaves that was asked all rows and closed: the last row that it told otherwise, its
// units, and how the close ended.
struct Asking {
    wrong: Option<usize>,
    units: Vec<MemoryUnit>,
    settled: Result<(), SettleErr>,
}

// Asks a target all rows through its only session, and closes it.
fn ask_all<M: Mount, R: Wait>(
    rt: &R,
    alloc: Global,
    opened: Opened<MemoryUnit>,
) -> Result<Asking, AllocError>
    requires named { Names M.chronicle M.past M.ring M.key M.handed M.wear opened }
    requires session { opened.sessions ≡ 1 }
    requires lanes { opened.lanes ≡ 0 }
{
    match opened.target::<M>(alloc) {
        Ok((target, tickets, workers)) => {
            let mut tickets = tickets;
            let mut session = target.session(tickets.pop().unwrap());
            let mut wrong = None;
            for (row, (asked, told)) in ROWS.iter().enumerate() {
                if ask(rt, &mut session, *asked) != *told {
                    wrong = Some(row);
                }
            }
            let ticket = session.end();
            let (units, settled) = close(rt, target, ticket, tickets, workers);
            Ok(Asking {
                wrong,
                units,
                settled,
            })
        }
        Err(Refused { units: _, cause: _ }) => Err(AllocError),
    }
}

#[test]
fn a_target_is_asked(rt: HostRuntime) -> Result<(), Fail> {
    let alloc = rt.alloc();
    let opened = match EIGHT_UNITS.refusal() {
        Some(refusal) => return Err(refusal.into()),
        None => open(alloc, &EIGHT_UNITS)?,
    };
    let Asking {
        wrong,
        units,
        settled,
    } = ask_all::<Brand, HostRuntime>(&rt, alloc, opened)?;
    assert_eq!(rt; wrong, None);
    assert!(rt; settled.is_ok() && units.len() == 8);
    Ok(())
}
