//! The header of a start record.

ghost use Rattle.std.specs.Prelude.{◌≡◌, ◌≤◌, ◌<◌, ◌^◌, length, take};
ghost use Rattle.std.specs.Bool.{OnTrue};
ghost use Rattle.std.specs.Str.{bytes_eq};
ghost use Rattle.pblk_model.specs.Accepted.{IsAccepted};
ghost use Rattle.pblk_meta.specs.Headers.{start_header, header_in, header_fits, row_fits};
ghost use Rattle.pblk_meta.specs.Records.{row_numbers};

use crate::bytes::{
    MAGIC, VERSION, are_same, put_u16, put_u32, put_u64, put_zeros, u32_at, u64_at,
};
use crate::rows::Row;
use pblk_model::{NUMBER_LIMIT, Shape};

/// The kind of a start record.
const KIND: u16 = 1;

/// The numbers in a start record's first 64 bytes; `rows` is how many rows follow.
#[derive(Clone, Copy, Debug)]
pub(crate) struct StartHeader {
    pub line: u32,
    pub width: u32,
    pub seq: u64,
    pub first_seq: u64,
    pub front: u64,
    pub capacity: u64,
    pub rows: u32,
}

impl StartHeader {
    /// The numbers at their places.
    pub(crate) fn in_bytes(bytes: &[u8]) -> StartHeader
        requires { 64 ≤ length bytes.now }
        ensures { result ≡ header_in bytes.now }
    {
        StartHeader {
            line: u32_at(bytes, 8),
            width: u32_at(bytes, 12),
            seq: u64_at(bytes, 16),
            first_seq: u64_at(bytes, 24),
            front: u64_at(bytes, 32),
            capacity: u64_at(bytes, 40),
            rows: u32_at(bytes, 48),
        }
    }

    /// Writes the header's spelling to the first 64 bytes.
    #[tactic(auto, unfolding(crate::specs::Headers::start_header))]
    pub(crate) fn write(&self, out: &mut [u8])
        requires { 64 ≤ length out.old }
        ensures placed { take 64 out.new ≡ start_header self.now }
        ensures len { length out.new ≡ length out.old }
    {
        put_u32(out, 0, MAGIC);
        put_u16(out, 4, VERSION);
        put_u16(out, 6, KIND);
        put_u32(out, 8, self.line);
        put_u32(out, 12, self.width);
        put_u64(out, 16, self.seq);
        put_u64(out, 24, self.first_seq);
        put_u64(out, 32, self.front);
        put_u64(out, 40, self.capacity);
        put_u32(out, 48, self.rows);
        put_zeros(out, 52, 64);
    }

    /// Whether the first 64 bytes are the header's spelling.
    pub(crate) fn is_spelled(&self, bytes: &[u8]) -> bool
        requires { 64 ≤ length bytes.now }
        ensures { result ≡ bytes_eq (start_header self.now) (take 64 bytes.now) }
    {
        let mut spelling = [0; 64];
        self.write(&mut spelling);
        are_same(&spelling, &bytes[..64])
    }

    /// Whether the numbers are those of a line of this width.
    pub(crate) fn fits(&self, shape: &Shape, line: u32, width: u32) -> bool
        requires { IsAccepted shape.now }
        ensures { result ≡ header_fits shape.now line width self.now }
    {
        self.line == line
            && self.width == width
            && self.capacity == shape.capacity
            && 1 <= self.first_seq
            && self.first_seq <= self.seq
            && self.seq < NUMBER_LIMIT
            && self.front < NUMBER_LIMIT
            && self.rows <= shape.chunks - 1
    }

    /// Whether a row may follow, where the rows before it have lines below `least`.
    pub(crate) fn row_fits(&self, shape: &Shape, least: u32, row: &Row) -> bool
        ensures fits { result ≡ row_fits shape.now self.now least (row_numbers row.now) }
        ensures low { OnTrue result (row.now.line < shape.now.chunks) }
    {
        least <= row.line
            && row.line < shape.chunks
            && row.line != self.line
            && 1 <= row.seq
            && row.seq < self.first_seq
            && row.bound <= self.front
    }
}
