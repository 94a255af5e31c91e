//! A plain port by itself, through the bound of its trait.

ghost use Rattle.std.specs.Prelude.{◌≡◌, ◌⊎◌};

use crate::harness::lines;
use block_port::{FlushErr, Note, Port, ReadErr, WriteErr};
use plain_port::PlainPort;
use run_script::read_script;
use run_threads::run;
use std::sync::Wait;
use std::test::Fail;

// What is asked of a port, a sector at a time.
#[derive(Clone, Copy, Debug)]
enum Asked {
    // Writes a sector that ends with this byte.
    Write(u64, u8),
    Read(u64),
    Flush,
    Tell,
    // Hears this position, which is below 2^32.
    Hear(u32),
    Sector,
}

// What it told.
#[derive(Clone, Copy, Debug, PartialEq, Eq)]
enum Told {
    // The first position, and how many there are.
    Placed(u64, u32),
    // The sector's last byte, and the front's users and position.
    Byte(u8, u64, u64),
    Synced(u64, u64),
    Seen(u64),
    Bytes(u32),
    Done,
    Range,
    Drive(u32, u64),
    Worn(u64, u64),
}

fn ask<R: Wait, P: Port>(rt: &R, port: &mut P, asked: Asked) -> Told {
    let size = port.sector() as usize;
    match asked {
        Asked::Write(lba, byte) => write(rt, port, lba, byte, size),
        Asked::Read(lba) => read(rt, port, lba, size),
        Asked::Flush => match port.flush(rt) {
            Ok(front) => Told::Synced(front.users, front.position),
            Err(FlushErr::Drive { unit, event }) => Told::Drive(unit, event),
            Err(FlushErr::Worn { wanted, have }) => Told::Worn(wanted, have),
        },
        Asked::Tell => Told::Seen(port.tell().position),
        Asked::Hear(position) => {
            port.hear(Note {
                position: u64::from(position),
            });
            Told::Done
        }
        Asked::Sector => Told::Bytes(port.sector()),
    }
}

fn write<R: Wait, P: Port>(rt: &R, port: &mut P, lba: u64, byte: u8, size: usize) -> Told
    requires { (size ≡ (P.model port.old).sector) × ((size ≡ 512) ⊎ (size ≡ 4096)) }
{
    let mut bytes = [0; 4096];
    bytes[size - 1] = byte;
    match port.write(rt, lba, &bytes[..size]) {
        Ok(place) => Told::Placed(place.first, place.count),
        Err(WriteErr::Range) => Told::Range,
        Err(WriteErr::Drive { unit, event }) => Told::Drive(unit, event),
        Err(WriteErr::Worn { wanted, have }) => Told::Worn(wanted, have),
    }
}

fn read<R: Wait, P: Port>(rt: &R, port: &mut P, lba: u64, size: usize) -> Told
    requires { (size ≡ (P.model port.old).sector) × ((size ≡ 512) ⊎ (size ≡ 4096)) }
{
    let mut bytes = [0; 4096];
    match port.read(rt, lba, &mut bytes[..size]) {
        Ok(front) => Told::Byte(bytes[size - 1], front.users, front.position),
        Err(ReadErr::Range) => Told::Range,
        Err(ReadErr::Drive { unit, event }) => Told::Drive(unit, event),
    }
}

#[test]
fn a_plain_port_is_asked(rt: HostRuntime) -> Result<(), Fail> {
    let rows = [
        (Asked::Sector, Told::Bytes(4096)),
        (Asked::Write(4, 1), Told::Range),
        (Asked::Write(u64::MAX, 1), Told::Range),
        (Asked::Read(4), Told::Range),
        (Asked::Read(3), Told::Byte(0, 0, 0)),
        (Asked::Tell, Told::Seen(0)),
        (Asked::Write(3, 7), Told::Placed(0, 1)),
        (Asked::Tell, Told::Seen(1)),
        (Asked::Read(3), Told::Byte(7, 1, 1)),
        (Asked::Flush, Told::Synced(1, 1)),
        // What was heard is seen: what comes after stands past it.
        (Asked::Hear(10), Told::Done),
        (Asked::Hear(5), Told::Done),
        (Asked::Tell, Told::Seen(10)),
        (Asked::Write(0, 9), Told::Placed(10, 1)),
        (Asked::Read(0), Told::Byte(9, 2, 11)),
        (Asked::Hear(20), Told::Done),
        (Asked::Read(3), Told::Byte(7, 2, 20)),
        (Asked::Flush, Told::Synced(2, 20)),
        (Asked::Tell, Told::Seen(20)),
    ];
    let alloc = rt.alloc();
    let mut port = PlainPort::new(alloc, 4, 4096, Vec::new(alloc))?;
    for (asked, told) in rows {
        assert_eq!(rt; ask(&rt, &mut port, asked), told, "{asked:?}");
    }
    Ok(())
}

// A sector that is no tag's is mixed.
#[test]
fn other_bytes_are_mixed(rt: HostRuntime) -> Result<(), Fail> {
    let alloc = rt.alloc();
    let mut port = PlainPort::new(alloc, 4, 512, Vec::new(alloc))?;
    let mut bytes = [0; 512];
    bytes[511] = 1;
    assert!(rt; port.write(&rt, 1, &bytes).is_ok());
    let mut ports = Vec::new(alloc);
    ports.push(port)?;
    let Ok(script) = read_script(alloc, b"thread\nr 0 3\n", 4) else {
        panic!(rt; "it is a script");
    };
    assert!(rt; script.as_slice().len() == 1);
    match run(&rt, alloc, &script, ports) {
        Err((e, _)) => return Err(e.into()),
        Ok((records, _)) => {
            assert_eq!(rt; lines(alloc, &records)?.as_str(), "words 1 1 0 mixed 0\n");
        }
    }
    Ok(())
}
