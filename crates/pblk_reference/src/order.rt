//! The order of a line's blocks.

ghost use Rattle.std.specs.Prelude.{◌≡◌, ◌+◌, ◌*◌, ◌/◌, ◌%◌, ◌<◌, ◌≤◌, ◌^◌, length, slice_get};
ghost use Rattle.std.specs.Option.{option_copied};
ghost use Rattle.pblk_model.specs.Accepted.{IsAccepted};
ghost use Rattle.pblk_model.specs.Shape.{units};
ghost use Rattle.pblk_model.specs.LineOrder.{start_len, end_len, data_len};
ghost use Rattle.pblk_model.specs.Image.{width, block_at, is_online_in};
ghost use Rattle.pblk_reference.specs.Ready.{IsOfAcceptedShape};
ghost use Rattle.pblk_reference.specs.Line.{online_chunk, online_chunks};

use crate::image::{Block, Chunk, Image};
use pblk_model::{ChunkState, Shape};

/// How many blocks at a line's front are its start record.
pub fn start_len(shape: &Shape) -> u32
    requires { IsAccepted shape.now }
    ensures { result ≡ start_len shape.now }
{
    shape.start_len()
}

/// How many blocks at the end of a line of this width are its end record.
pub fn end_len(shape: &Shape, width: u32) -> u32
    requires accepted { IsAccepted shape.now }
    requires width { width ≤ units shape.now }
    ensures len { result ≡ end_len shape.now width }
    ensures short { result < 2 ^ 31 }
{
    shape.end_len(width)
}

/// How many blocks between the two records of a line of this width are data.
pub fn data_len(shape: &Shape, width: u32) -> u32
    requires accepted { IsAccepted shape.now }
    requires width { width ≤ units shape.now }
    ensures { result ≡ data_len shape.now width }
{
    shape.data_len(width)
}

/// How many blocks a line of this width has.
pub fn line_len(shape: &Shape, width: u32) -> u32
    requires accepted { IsAccepted shape.now }
    requires width { width ≤ units shape.now }
    ensures len { result ≡ width * shape.now.clba }
    ensures few { result ≤ 65536 }
{
    width * shape.clba
}

fn is_online(state: ChunkState) -> bool
    ensures { result ≡ is_online_in state }
{
    match state {
        ChunkState::Free | ChunkState::Open | ChunkState::Closed => true,
        ChunkState::Offline => false,
    }
}

fn online_chunk(unit: &[Chunk], line: u32) -> Option<&Chunk>
    ensures { option_copied result ≡ online_chunk line unit.now }
{
    let chunk = unit.get(line as usize)?;
    if is_online(chunk.state) {
        Some(chunk)
    } else {
        None
    }
}

fn count_online(units: &[Vec<Chunk>], line: u32) -> u32
    requires { length units.now < 2 ^ 32 }
    ensures count { result ≡ length (online_chunks line units.now) }
    ensures few { result ≤ length units.now }
{
    let mut count = 0;
    for unit in units {
        if online_chunk(unit, line).is_some() {
            count += 1;
        }
    }
    count
}

fn nth_online(units: &[Vec<Chunk>], line: u32, n: u32) -> Option<&Chunk>
    ensures { option_copied result ≡ slice_get (online_chunks line units.now) n }
{
    let mut left = n;
    for unit in units {
        if let Some(chunk) = online_chunk(unit, line) {
            if left == 0 {
                return Some(chunk);
            }
            left -= 1;
        }
    }
    None
}

fn block_in(chunk: &Chunk, n: u32) -> Option<&Block>
    ensures { option_copied result ≡ slice_get chunk.now.blocks n }
{
    chunk.blocks.get(n as usize)
}

/// How many chunks of the line aren't Offline.
pub fn width(image: &Image, line: u32) -> u32
    requires { IsOfAcceptedShape image.now }
    ensures width { result ≡ width image.now line }
    ensures few { result ≤ units image.now.shape }
{
    count_online(&image.units, line)
}

fn column_of(at: u32, ws_opt: u32, width: u32) -> u32
    requires stripe { 0 < ws_opt }
    requires width { 0 < width }
    ensures { result ≡ (at / ws_opt) % width }
{
    at / ws_opt % width
}

fn block_of(at: u32, ws_opt: u32, width: u32) -> u32
    requires stripe { 0 < ws_opt }
    requires width { 0 < width }
    ensures { result ≡ at / ws_opt / width * ws_opt + at % ws_opt }
{
    let stripe = at / ws_opt;
    stripe / width * ws_opt + at % ws_opt
}

/// The block at a line address, where it is written.
pub fn block_at(image: &Image, line: u32, at: u32) -> Option<&Block>
    requires { IsOfAcceptedShape image.now }
    ensures { option_copied result ≡ block_at image.now line at }
{
    let width = width(image, line);
    if width == 0 {
        return None;
    }
    let ws_opt = image.shape.ws_opt;
    let chunk = nth_online(&image.units, line, column_of(at, ws_opt, width))?;
    block_in(chunk, block_of(at, ws_opt, width))
}
