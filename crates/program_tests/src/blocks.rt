//! What an image of the small drive holds, block by block.

use std::alloc::{AllocError, Global};

// Where the descriptors of the chunks begin, and how long one is.
const DESCRIPTORS: usize = 4128;

const DESCRIPTOR: usize = 32;

// Where the written blocks begin, and how long one is: its sector, an lba and a position.
const BLOCKS: usize = 4640;

const SECTOR: usize = 512;

const BLOCK: usize = 528;

// How many chunks a unit has, and how many there are.
const CHUNKS: usize = 8;

const ALL_CHUNKS: usize = 16;

// A byte of an image; 0 past its end.
fn byte_at(image: &[u8], at: usize) -> u64 {
    match image.get(at) {
        Some(byte) => u64::from(*byte),
        None => 0,
    }
}

// The eight bytes at a place, the least byte first.
fn word_at(image: &[u8], at: usize) -> u64 {
    let mut word = 0u64;
    for byte in 0..8usize {
        let next = byte_at(image, at.saturating_add(7usize.saturating_sub(byte)));
        word = word.wrapping_mul(256).wrapping_add(next);
    }
    word
}

/// Tells of each chunk that isn't Free its unit and number, its state, its write pointer and its
/// blocks, and ends that with `/`. A block is a sector as `LBA@POSITION`, `pad`, `void@POSITION`,
/// the first of a start record as `start:SEQ:FRONT`, the first of an end record as `end:SEQ`, or
/// another of a record as `meta`.
pub(crate) fn blocks_told(alloc: Global, image: &[u8]) -> Result<String, AllocError> {
    let mut text = String::new(alloc);
    let mut at = BLOCKS;
    for chunk in 0..ALL_CHUNKS {
        let descriptor = DESCRIPTORS.saturating_add(chunk.saturating_mul(DESCRIPTOR));
        let pointer = word_at(image, descriptor.saturating_add(24));
        let state = state_told(byte_at(image, descriptor));
        if !state.is_empty() {
            write!(
                text,
                "{}.{} {state} {pointer}",
                chunk / CHUNKS,
                chunk % CHUNKS
            )?;
            for _block in 0..pointer {
                add_block(&mut text, image, at)?;
                at = at.saturating_add(BLOCK);
            }
            text.push('/')?;
        }
    }
    Ok(text)
}

// The name of a state; none of Free.
fn state_told(state: u64) -> &'static str {
    match state {
        1 => "",
        2 => "closed",
        4 => "open",
        8 => "offline",
        _ => "no state",
    }
}

// Adds the block at a place.
fn add_block(text: &mut String, image: &[u8], at: usize) -> Result<(), AllocError> {
    let lba = word_at(image, at.saturating_add(SECTOR));
    let position = word_at(image, at.saturating_add(SECTOR).saturating_add(8));
    match u64::MAX.saturating_sub(lba) {
        0 => write!(text, " pad"),
        1 => write!(text, " void@{position}"),
        2 => add_record(text, image, at, position),
        _ => write!(text, " {lba}@{position}"),
    }
}

// Adds the block at a place, which is one of a record of the line with this sequence number.
fn add_record(text: &mut String, image: &[u8], at: usize, seq: u64) -> Result<(), AllocError> {
    let magic = u64::from(u32::from_le_bytes(*b"klbp"));
    let version = magic | 1 << 32;
    let begun = word_at(image, at);
    if begun == version | 1 << 48 {
        let front = word_at(image, at.saturating_add(32));
        write!(text, " start:{seq}:{front}")
    } else if begun == version | 2 << 48 {
        write!(text, " end:{seq}")
    } else {
        write!(text, " meta")
    }
}
