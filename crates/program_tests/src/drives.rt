//! The drives of the tests, and their images, laid out by the definition of the file. All of it is
//! words of eight bytes, the least byte first.

use std::alloc::{AllocError, Global};

/// A line of a history: a sector, and the tag that is written to it.
pub(crate) type Write = (u64, u64);

/// The numbers of a drive and of the target on it. `lengths` are those of an address's fields, and
/// `start` is how many blocks the start record of a line has.
#[derive(Clone, Copy)]
pub(crate) struct Numbers {
    lengths: [u8; 4],
    groups: u64,
    pus: u64,
    chunks: u64,
    blocks: u64,
    ws_min: u64,
    ws_opt: u64,
    mw: u64,
    sector: u64,
    capacity: u64,
    ring: u64,
    start: u64,
}

// A line has 4 blocks of start record, 40 of data and 4 of end record.
const SMALL: Numbers = Numbers {
    lengths: [0, 1, 3, 5],
    groups: 1,
    pus: 2,
    chunks: 8,
    blocks: 24,
    ws_min: 2,
    ws_opt: 4,
    mw: 8,
    sector: 512,
    capacity: 64,
    ring: 64,
    start: 4,
};

// The drives by name.
static DRIVES: [(&str, Numbers); 10] = [
    ("small", SMALL),
    // The small drive with sectors of 4096 bytes, no blocks that can't be read back at once, and
    // the greatest capacity: 3 * 3 * 40 quarters.
    (
        "large",
        Numbers {
            mw: 0,
            sector: 4096,
            capacity: 90,
            ..SMALL
        },
    ),
    // Two groups of three units. Of the 144 blocks of a line 4 are start record and 8 end record.
    (
        "groups",
        Numbers {
            lengths: [1, 2, 3, 5],
            groups: 2,
            pus: 3,
            capacity: 297,
            ring: 256,
            ..SMALL
        },
    ),
    // One unit of 12 chunks of 84 blocks, which are written by ones, at best by sixes. Of a line 6
    // blocks are start record and 6 end record.
    (
        "unit",
        Numbers {
            lengths: [0, 0, 4, 7],
            pus: 1,
            chunks: 12,
            blocks: 84,
            ws_min: 1,
            ws_opt: 6,
            mw: 54,
            capacity: 1,
            ring: 128,
            start: 6,
            ..SMALL
        },
    ),
    // The small drive with other numbers.
    (
        "capacity-90",
        Numbers {
            capacity: 90,
            ..SMALL
        },
    ),
    (
        "capacity-1",
        Numbers {
            capacity: 1,
            ..SMALL
        },
    ),
    (
        "ring-16384",
        Numbers {
            ring: 16384,
            ..SMALL
        },
    ),
    (
        "blocks-32768",
        Numbers {
            lengths: [0, 1, 3, 15],
            blocks: 32768,
            ..SMALL
        },
    ),
    (
        "chunks-1024",
        Numbers {
            lengths: [0, 1, 10, 5],
            chunks: 1024,
            blocks: 32,
            sector: 4096,
            ..SMALL
        },
    ),
    (
        "chunks-33",
        Numbers {
            lengths: [0, 1, 6, 5],
            chunks: 33,
            ..SMALL
        },
    ),
];

/// The drive of this name, if there is one.
pub(crate) fn drive(name: &str) -> Option<&'static Numbers> {
    for (known, numbers) in &DRIVES {
        if *known == name {
            return Some(numbers);
        }
    }
    None
}

/// The image of a drive with this history in its first line. Each unit has the stripes of the line
/// whose number less its own is a multiple of the number of units.
pub(crate) fn image(
    alloc: Global,
    numbers: &Numbers,
    history: &[Write],
) -> Result<Vec<u8>, AllocError> {
    let mut words = Vec::new(alloc);
    add_header(&mut words, numbers)?;
    for unit in 0..units(numbers) {
        add_descriptors(&mut words, numbers, unit, written(numbers, history, unit))?;
    }
    for unit in 0..units(numbers) {
        add_blocks(&mut words, numbers, history, unit)?;
    }
    bytes_of(alloc, &words)
}

fn bytes_of(alloc: Global, words: &[u64]) -> Result<Vec<u8>, AllocError> {
    let mut bytes = Vec::new(alloc);
    for word in words {
        bytes.extend_from_slice(&word.to_le_bytes())?;
    }
    Ok(bytes)
}

fn units(numbers: &Numbers) -> u64 {
    numbers.groups.saturating_mul(numbers.pus)
}

// How many blocks of the first line are written, as whole stripes: none without a history.
fn line_blocks(numbers: &Numbers, history: &[Write]) -> u64 {
    if history.is_empty() {
        return 0;
    }
    let ws_opt = numbers.ws_opt.max(1);
    let blocks = numbers.start.saturating_add(history.len() as u64);
    blocks.div_ceil(ws_opt).saturating_mul(ws_opt)
}

// The unit that has the block at an address of the first line.
fn unit_of(numbers: &Numbers, address: u64) -> u64 {
    address / numbers.ws_opt.max(1) % units(numbers).max(1)
}

// How many blocks of the first line are written in a unit.
fn written(numbers: &Numbers, history: &[Write], unit: u64) -> u64 {
    let mut count = 0u64;
    for address in 0..line_blocks(numbers, history) {
        if unit_of(numbers, address) == unit {
            count = count.saturating_add(1);
        }
    }
    count
}

// The header of the file, and the geometry.
fn add_header(words: &mut Vec<u64>, numbers: &Numbers) -> Result<(), AllocError> {
    let magic = u64::from_le_bytes(*b"PBLKOCSD");
    let version = 1 | numbers.sector << 32;
    let lengths = u64::from(u32::from_le_bytes(numbers.lengths));
    let counts = numbers.groups | numbers.pus << 16 | numbers.chunks << 32;
    let sizes = numbers.ws_min | numbers.ws_opt << 32;
    words.extend_from_slice(&[magic, version, numbers.capacity, numbers.ring])?;
    // The geometry begins at byte 32, with version 2.0. It has counts from its byte 64 on, and
    // sizes from its byte 128 on.
    words.extend_from_slice(&[2, lengths, 0, 0, 0, 0, 0, 0, counts, numbers.blocks])?;
    words.extend_from_slice(&[0, 0, 0, 0, 0, 0, sizes, numbers.mw])?;
    words.resize((32 + 4096) / 8, 0)
}

// The descriptors of a unit's chunks, of which the first has so many blocks written: a chunk is
// Free without one, Closed with all, else Open.
fn add_descriptors(
    words: &mut Vec<u64>,
    numbers: &Numbers,
    unit: u64,
    written: u64,
) -> Result<(), AllocError> {
    for chunk in 0..numbers.chunks {
        let written = if chunk == 0 { written } else { 0 };
        let state = match written {
            0 => 1,
            full if full == numbers.blocks => 2,
            _ => 4,
        };
        let address = chunk_address(numbers, unit, chunk);
        words.extend_from_slice(&[1 << 8 | state, address, numbers.blocks, written])?;
    }
    Ok(())
}

// The address of a chunk's first block: the group, the unit of it, the chunk, and 0.
fn chunk_address(numbers: &Numbers, unit: u64, chunk: u64) -> u64 {
    let [_, pu_bits, chunk_bits, block_bits] = numbers.lengths;
    let pus = numbers.pus.max(1);
    let place = (unit / pus).wrapping_shl(u32::from(pu_bits)) | unit % pus;
    let place = place.wrapping_shl(u32::from(chunk_bits)) | chunk;
    place.wrapping_shl(u32::from(block_bits))
}

// The written blocks of a unit.
fn add_blocks(
    words: &mut Vec<u64>,
    numbers: &Numbers,
    history: &[Write],
    unit: u64,
) -> Result<(), AllocError> {
    for address in 0..line_blocks(numbers, history) {
        if unit_of(numbers, address) == unit {
            add_block(words, numbers, history, address)?;
        }
    }
    Ok(())
}

// The block at an address of the first line: its sector, of which the start record's first has a
// header, then the two words beside it.
fn add_block(
    words: &mut Vec<u64>,
    numbers: &Numbers,
    history: &[Write],
    address: u64,
) -> Result<(), AllocError> {
    let end = words.len().saturating_add(numbers.sector as usize / 8);
    if address == 0 {
        add_start_record(words, numbers)?;
    }
    let (fill, lba, position) = parts_of(numbers, history, address);
    words.resize(end, fill)?;
    words.extend_from_slice(&[lba, position])
}

// The word that fills a block's sector, and the two beside it: of the start record, of a line of
// the history, or of Pad.
fn parts_of(numbers: &Numbers, history: &[Write], address: u64) -> (u64, u64, u64) {
    if address < numbers.start {
        return (0, u64::MAX - 2, 1);
    }
    let position = address.saturating_sub(numbers.start);
    match history.get(position as usize) {
        Some((lba, tag)) => (*tag, *lba, position),
        None => (0, u64::MAX, 0),
    }
}

// The header of the first line's start record, of the first mount of a blank drive.
fn add_start_record(words: &mut Vec<u64>, numbers: &Numbers) -> Result<(), AllocError> {
    let magic = u64::from(u32::from_le_bytes(*b"klbp"));
    words.extend_from_slice(&[
        magic | 1 << 32 | 1 << 48,
        units(numbers) << 32,
        1,
        1,
        0,
        numbers.capacity,
    ])
}
