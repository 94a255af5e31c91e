//! Images and contents by hand, and what is printed of them.
use drive_image::{ImageErr, load};
use run_report::{listing, report};
use scan_recovery::{Contents, Head, Sectors, Summary};
use std::alloc::{AllocError, Global};

/// What a sector holds: the eight bytes of a tag again and again, or the same with another last byte.
#[derive(Clone, Copy, Debug)]
pub(crate) enum Filling {
    Whole(u64),
    Broken(u64),
}

/// What an image holds: the size of a sector, runs of sectors by lba, and the numbers of recovery.
#[derive(Clone, Copy, Debug)]
pub(crate) struct Held {
    pub(crate) size: u32,
    pub(crate) runs: &'static [(u32, Filling)],
    pub(crate) end: u64,
    pub(crate) counted: u64,
    pub(crate) live: u64,
    pub(crate) head: Option<Head>,
}

/// A chunk of the small drive that isn't Free: its unit, its number, the code of its state, and how many
/// blocks are written.
pub(crate) type Used = (u8, u8, u8, u8);

/// The listing of what an image holds.
pub(crate) fn listed(alloc: Global, held: &Held) -> Result<String, AllocError> {
    let Some(contents) = contents(alloc, held)? else {
        return format!(in alloc; "no contents");
    };
    match String::from_utf8(listing(alloc, &contents)?) {
        Ok(text) => Ok(text),
        Err(_) => format!(in alloc; "no text"),
    }
}

/// The report of the small drive with these chunks, and of what its image holds.
pub(crate) fn reported(alloc: Global, used: &[Used], held: &Held) -> Result<String, AllocError> {
    let summary = Summary {
        end: held.end,
        counted: held.counted,
        live: held.live,
        head: held.head,
    };
    match load(alloc, &image(alloc, used)?) {
        Ok(drive) => report(alloc, &drive, &summary),
        Err(ImageErr::Memory) => Err(AllocError),
        Err(_) => format!(in alloc; "no image"),
    }
}

// None where the size isn't that of a sector.
fn contents(alloc: Global, held: &Held) -> Result<Option<Contents>, AllocError> {
    let mut bytes = Vec::new(alloc);
    for &(count, filling) in held.runs {
        for _ in 0..count {
            add_sector(&mut bytes, held.size, filling)?;
        }
    }
    let size = held.size;
    if size != 512 && size != 4096 {
        return Ok(None);
    }
    let count = bytes.len() as u64 / u64::from(size);
    if bytes.len() as u64 != count * u64::from(size) {
        return Ok(None);
    }
    Ok(Some(Contents {
        sectors: Sectors::new(bytes, size, count),
        end: held.end,
    }))
}

fn add_sector(bytes: &mut Vec<u8>, size: u32, filling: Filling) -> Result<(), AllocError> {
    let (tag, broken) = match filling {
        Filling::Whole(tag) => (tag, false),
        Filling::Broken(tag) => (tag, true),
    };
    for _ in 0..size / 8 {
        bytes.extend_from_slice(&tag.to_le_bytes())?;
    }
    if let Some(last) = bytes.last_mut() {
        *last ^= u8::from(broken);
    }
    Ok(())
}

// The image of the small drive, of which the other chunks are Free.
fn image(alloc: Global, used: &[Used]) -> Result<Vec<u8>, AllocError> {
    let mut bytes = Vec::new(alloc);
    bytes.extend_from_slice(b"PBLKOCSD")?;
    bytes.resize(4128, 0)?;
    for &(at, byte) in NUMBERS {
        put(&mut bytes, at, byte);
    }
    for unit in 0..2u8 {
        for chunk in 0..8u8 {
            // Free, of kind 1, at address `unit * 256 + chunk * 32`, of 24 blocks.
            bytes.extend_from_slice(&[1, 1, 0, 0, 0, 0, 0, 0])?;
            bytes.extend_from_slice(&[chunk * 32, unit, 0, 0, 0, 0, 0, 0])?;
            bytes.extend_from_slice(&[24, 0, 0, 0, 0, 0, 0, 0])?;
            bytes.extend_from_slice(&[0; 8])?;
        }
    }
    for &(unit, chunk, state, blocks) in used {
        let at = 4128 + usize::from(unit) * 256 + usize::from(chunk) * 32;
        put(&mut bytes, at, state);
        put(&mut bytes, at + 24, blocks);
    }
    for &(_, _, _, blocks) in used {
        let len = bytes.len();
        // A block has a sector of 512 bytes and a mark of 16.
        bytes.resize(len.saturating_add(usize::from(blocks) * 528), 0)?;
    }
    Ok(bytes)
}

// The version 1, sectors of 512 bytes, 64 user sectors, a ring of 64; 2.0; addresses of 0, 1, 3 and 5 bits; 1
// group, 2 units, 8 chunks of 24 blocks, WS_MIN 2, WS_OPT 4, MW_CUNITS 8.
const NUMBERS: &[(usize, u8)] = &[
    (8, 1),
    (13, 2),
    (16, 64),
    (24, 64),
    (32, 2),
    (41, 1),
    (42, 3),
    (43, 5),
    (96, 1),
    (98, 2),
    (100, 8),
    (104, 24),
    (160, 2),
    (164, 4),
    (168, 8),
];

fn put(bytes: &mut [u8], at: usize, byte: u8) {
    if at < bytes.len() {
        bytes[at] = byte;
    }
}
