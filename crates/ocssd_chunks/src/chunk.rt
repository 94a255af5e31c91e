//! A chunk, and its commands.

ghost use Rattle.std.specs.Prelude.{◌≡◌, ◌+◌, ◌*◌, ◌%◌, ◌<◌, ◌≤◌, ◌↔◌, [], ◌++◌, length, take, IsNone, IfSome, IfOk, OnOk, OnErr, Some, None, Ok, slice_get};
ghost use Rattle.std.specs.Bool.{OnTrue, OnFalse};
ghost use Rattle.std.specs.Option.{option_map};
ghost use Rattle.pblk_model.specs.Accepted.{IsAccepted};
ghost use Rattle.pblk_model.specs.Chunk.{IsChunk, PointerFits, pointer, free_chunk, offline_chunk};
ghost use Rattle.pblk_model.specs.ChunkStep.{ChunkStep, ChunkFails, ChunkStops, Write, Read, Reset, refusal, appended, closed_after, after_reset};
ghost use Rattle.ocssd_chunks.specs.Spelled.{AreSpelled};
ghost use Rattle.ocssd_chunks.specs.Answers.{write_answer, read_answer, reset_answer};
ghost use Rattle.pblk_model.specs.Blocks.{blocks_of};

use crate::blocks::{
    append_bytes, append_marks, append_spelled, are_blocks, are_bytes, block_at, first_blocks,
    spelled_block,
};
use crate::rules::{
    check_read, check_reset, check_write, is_readable, state_after_reset, state_at,
};
use bytes::Bytes;
use pblk_model::{ChunkErr, ChunkState, Got, Mark, Shape};
use std::alloc::{AllocError, Global};
use std::marker::Model;

/// A chunk of a drive of some shape, with its written blocks (Open-Channel SSD Specification 2.0,
/// Chunk states and write pointer).
///
/// All its memory is taken when it is made. A write copies each byte once, and a read one sector.
/// Bytes that it adopted live until it is reset, or is given other blocks.
#[derive(Debug, Drop)]
pub struct Chunk {
    shape: Shape,
    state: ChunkState,
    // The first blocks, where they were adopted: each is its sector and then its mark's two
    // numbers.
    adopted: Bytes,
    adopted_count: u32,
    // The blocks after these.
    bytes: Vec<u8>,
    marks: Vec<Mark>,
}

// Contracts see the drive's shape, and the model's chunk.
impl Model for Chunk {
    ghost use Rattle.ocssd_chunks.specs.DriveChunk.{DriveChunk};

    ghost Value = { DriveChunk };

    ghost use Rattle.ocssd_chunks.specs.Sound.{drive_chunk, IsSound};

    ghost view = { drive_chunk };

    ghost invariant = { IsSound };
}

impl Chunk {
    /// A Free chunk of a drive of this shape, without blocks.
    ///
    /// Takes memory for all CLBA blocks and their marks, and fails only where there isn't as much.
    pub fn new(alloc: Global, shape: &Shape) -> Result<Chunk, AllocError>
        requires { IsAccepted shape.now }
        ensures free { IfOk result (λ c. c ≡ record { shape = shape.now; chunk = free_chunk }) }
        ensures fits { IfOk result (λ c. IsChunk c.shape c.chunk) }
    {
        let blocks = shape.clba as usize;
        let bytes = Vec::with_capacity(alloc, blocks * shape.sector as usize)?;
        let marks = Vec::with_capacity(alloc, blocks)?;
        Ok(Chunk {
            shape: *shape,
            state: ChunkState::Free,
            adopted: Bytes::new(),
            adopted_count: 0,
            bytes,
            marks,
        })
    }

    /// The numbers of the chunk's drive.
    pub fn shape(&self) -> Shape
        ensures shape { result ≡ self.now.shape }
        ensures accepted { IsAccepted result }
        ensures fits { IsChunk result self.now.chunk }
    {
        self.shape
    }

    /// Appends blocks from the block `at` on. `bytes` has the sectors one after another, and
    /// `marks` their marks.
    ///
    /// Refused, in this order, with the chunk as before: `Offline` and `Closed` by the chunk's
    /// state; `NotAtPointer` where `at` isn't the write pointer; `NotMultiple` for no block, or no
    /// multiple of WS_MIN; `PastEnd` where the blocks go past CLBA. A write that is done leaves the
    /// chunk Closed where all CLBA blocks are written, and Open where not (Open-Channel SSD
    /// Specification 2.0, Chunk states and write pointer, Vector write).
    pub fn write(&mut self, at: u32, bytes: &[u8], marks: &[Mark]) -> Result<(), ChunkErr>
        requires { length bytes.now ≡ length marks.now * self.old.shape.sector }
        ensures step { let blocks = blocks_of self.old.shape.sector bytes.now marks.now
            in ChunkStep self.old.shape self.old.chunk
            (Write at blocks) (write_answer result) self.new.chunk }

        // What `step` says of the new chunk, for either result.
        ensures done { let blocks = blocks_of self.old.shape.sector bytes.now marks.now
            in OnOk result (self.new.chunk ≡ appended self.old.shape self.old.chunk blocks) }
        ensures refused { OnErr result (self.new ≡ self.old) }

        ensures shape { self.new.shape ≡ self.old.shape }
        ensures fits { IsChunk self.new.shape self.new.chunk }
    {
        let pointer = self.pointer();
        check_write(&self.shape, self.state, pointer, at, marks.len())?;
        let state = state_at(&self.shape, pointer as usize + marks.len());
        self.append(bytes, marks, state);
        Ok(())
    }

    /// The refusal that `write` answers here, if any.
    pub fn write_refusal(&self, at: u32, bytes: &[u8], marks: &[Mark]) -> Option<ChunkErr>
        ensures { let blocks = blocks_of self.now.shape.sector bytes.now marks.now
            in result ≡ refusal self.now.shape self.now.chunk (Write at blocks) }
    {
        let pointer = self.pointer();
        check_write(&self.shape, self.state, pointer, at, marks.len()).err()
    }

    /// Copies the sector of a block to `out`, which has the length of a sector, and gives its mark.
    ///
    /// `Empty`, with `out` as before, where the block isn't readable: not below the write pointer,
    /// or one of the last MW_CUNITS blocks of an Open chunk. Refused, in this order, with `out` as
    /// before: `Offline` by the chunk's state; `PastEnd` where the block isn't below CLBA
    /// (Open-Channel SSD Specification 2.0, Chunk states and write pointer, Vector read).
    pub fn read(&self, block: u32, out: &mut [u8]) -> Result<Got, ChunkErr>
        requires { length out.old ≡ self.now.shape.sector }
        ensures step { ChunkStep self.now.shape self.now.chunk
            (Read block) (read_answer out.new result) self.now.chunk }
        ensures empty { result ≡ Ok Got.Empty → out.new ≡ out.old }
        ensures refused { OnErr result (out.new ≡ out.old) }
    {
        check_read(&self.shape, self.state, block)?;
        let pointer = self.pointer();
        if !is_readable(&self.shape, self.state, pointer, block) {
            return Ok(Got::Empty);
        }
        let (sector, mark) = self.block(block);
        out.copy_from_slice(sector);
        Ok(Got::Sector(mark))
    }

    /// The refusal that `read` answers here, if any.
    pub fn read_refusal(&self, block: u32) -> Option<ChunkErr>
        ensures { result ≡ refusal self.now.shape self.now.chunk (Read block) }
    {
        check_read(&self.shape, self.state, block).err()
    }

    /// Takes all blocks away, and leaves the chunk Free, or Offline where it was closed before its
    /// end.
    ///
    /// Refused `NotResettable`, with the chunk as before, where it is Free or Offline (Open-Channel
    /// SSD Specification 2.0, Chunk states, Vector reset).
    pub fn reset(&mut self) -> Result<(), ChunkErr>
        ensures step { ChunkStep self.old.shape self.old.chunk Reset (reset_answer result)
            self.new.chunk }

        // What `step` says of the new chunk, for either result.
        ensures done { OnOk result (self.new.chunk ≡ after_reset self.old.shape self.old.chunk) }
        ensures refused { OnErr result (self.new ≡ self.old) }

        ensures shape { self.new.shape ≡ self.old.shape }
        ensures fits { IsChunk self.new.shape self.new.chunk }
    {
        check_reset(self.state)?;
        let state = state_after_reset(&self.shape, self.state, self.pointer() as usize);
        self.leave_empty(state);
        Ok(())
    }

    /// The refusal that `reset` answers here, if any.
    pub fn reset_refusal(&self) -> Option<ChunkErr>
        ensures { result ≡ refusal self.now.shape self.now.chunk Reset }
    {
        check_reset(self.state).err()
    }

    /// What a write leaves that fails: only its first `multiples` times WS_MIN blocks are appended,
    /// and the chunk is Closed (Open-Channel SSD Specification 2.0, Chunk states).
    ///
    /// `bytes` has a sector for each of `marks`; the chunk doesn't refuse the write, as
    /// `write_refusal` tells; and the blocks that are appended are fewer than all.
    pub fn fail_write(&mut self, at: u32, bytes: &[u8], marks: &[Mark], multiples: u32)
        requires whole { length bytes.now ≡ length marks.now * self.old.shape.sector }
        requires taken { let blocks = blocks_of self.old.shape.sector bytes.now marks.now
            in refusal self.old.shape self.old.chunk (Write at blocks) ≡ None }
        requires part { multiples * self.old.shape.ws_min < length marks.now }
        ensures chunk { let blocks = blocks_of self.old.shape.sector bytes.now marks.now
            in self.new.chunk ≡ closed_after self.old.shape self.old.chunk blocks multiples }
        ensures failure { let blocks = blocks_of self.old.shape.sector bytes.now marks.now
            in ChunkFails self.old.shape self.old.chunk (Write at blocks) self.new.chunk }
        ensures shape { self.new.shape ≡ self.old.shape }
        ensures fits { IsChunk self.new.shape self.new.chunk }
    {
        let count = multiples as usize * self.shape.ws_min as usize;
        let (bytes, marks) = first_blocks(bytes, marks, self.shape.sector as usize, count);
        self.append(bytes, marks, ChunkState::Closed);
    }

    /// What a write leaves where the drive stops within it: its first `multiples` times WS_MIN
    /// blocks are appended, and the chunk is Closed where all CLBA blocks are written, and Open
    /// where not. With 0 the chunk is as before (Open-Channel SSD Specification 2.0, Chunk states).
    ///
    /// `bytes` has a sector for each of `marks`; the chunk doesn't refuse the write, as
    /// `write_refusal` tells; and the blocks that are appended are at most all.
    pub fn cut_write(&mut self, at: u32, bytes: &[u8], marks: &[Mark], multiples: u32)
        requires whole { length bytes.now ≡ length marks.now * self.old.shape.sector }
        requires taken { let blocks = blocks_of self.old.shape.sector bytes.now marks.now
            in refusal self.old.shape self.old.chunk (Write at blocks) ≡ None }
        requires part { multiples * self.old.shape.ws_min ≤ length marks.now }
        ensures none { multiples ≡ 0 → self.new ≡ self.old }
        ensures chunk { let blocks = blocks_of self.old.shape.sector bytes.now marks.now
            in 0 < multiples → self.new.chunk ≡ appended self.old.shape self.old.chunk
            (take (multiples * self.old.shape.ws_min) blocks) }
        ensures stop { let blocks = blocks_of self.old.shape.sector bytes.now marks.now
            in ChunkStops self.old.shape self.old.chunk (Write at blocks) self.new.chunk }
        ensures shape { self.new.shape ≡ self.old.shape }
        ensures fits { IsChunk self.new.shape self.new.chunk }
    {
        let least = self.shape.ws_min as usize;
        if multiples == 0 {
            return;
        }
        let count = multiples as usize * least;
        let state = state_at(&self.shape, self.pointer() as usize + count);
        let (bytes, marks) = first_blocks(bytes, marks, self.shape.sector as usize, count);
        self.append(bytes, marks, state);
    }

    /// What a reset leaves that fails: the chunk is Offline, without blocks (Open-Channel SSD
    /// Specification 2.0, Chunk states). The chunk is Open or Closed, as `reset_refusal` tells.
    pub fn fail_reset(&mut self)
        requires { refusal self.old.shape self.old.chunk Reset ≡ None }
        ensures chunk { self.new.chunk ≡ offline_chunk }
        ensures failure { ChunkFails self.old.shape self.old.chunk Reset self.new.chunk }
        ensures shape { self.new.shape ≡ self.old.shape }
        ensures fits { IsChunk self.new.shape self.new.chunk }
    {
        self.leave_empty(ChunkState::Offline);
    }

    /// What a reset leaves where the drive stops within it: what the whole reset leaves where it
    /// was `done`, and else the chunk as before (Open-Channel SSD Specification 2.0, Chunk states).
    /// The chunk is Open or Closed, as `reset_refusal` tells.
    pub fn cut_reset(&mut self, done: bool)
        requires { refusal self.old.shape self.old.chunk Reset ≡ None }
        ensures done { OnTrue done (self.new.chunk ≡ after_reset self.old.shape self.old.chunk) }
        ensures kept { OnFalse done (self.new ≡ self.old) }
        ensures stop { ChunkStops self.old.shape self.old.chunk Reset self.new.chunk }
        ensures shape { self.new.shape ≡ self.old.shape }
        ensures fits { IsChunk self.new.shape self.new.chunk }
    {
        let state = state_after_reset(&self.shape, self.state, self.pointer() as usize);
        if done {
            self.leave_empty(state);
        }
    }

    /// Gives the chunk a state, and the blocks of these bytes and marks, in place of those that it
    /// had (Open-Channel SSD Specification 2.0, Chunk states and write pointer). A new chunk gets
    /// the state and the blocks that were kept of one by it.
    ///
    /// `bytes` has a sector for each of `marks`, of which there are a multiple of WS_MIN: none for
    /// Free and Offline, from 1 to below CLBA for Open, up to CLBA for Closed.
    pub fn restore(&mut self, state: ChunkState, bytes: &[u8], marks: &[Mark])
        requires whole { length bytes.now ≡ length marks.now * self.old.shape.sector }
        requires place { PointerFits state self.old.shape.clba (length marks.now) }
        requires multiple { length marks.now % self.old.shape.ws_min ≡ 0 }
        ensures chunk { let blocks = blocks_of self.old.shape.sector bytes.now marks.now
            in self.new.chunk ≡ record { state = state; blocks = blocks } }
        ensures shape { self.new.shape ≡ self.old.shape }
        ensures fits { IsChunk self.new.shape self.new.chunk }
    {
        self.leave_empty(ChunkState::Free);
        self.append(bytes, marks, state);
    }

    /// Gives a chunk a state, and `count` blocks in place of what it had, from bytes in which each
    /// block is its sector and then its mark, two numbers of eight little-endian bytes
    /// (Open-Channel SSD Specification 2.0, Chunk states and write pointer; the spelling is this
    /// project's). Each sector is copied once.
    ///
    /// The count is a multiple of WS_MIN: none for Free and Offline, from 1 to below CLBA for Open,
    /// up to CLBA for Closed.
    pub fn restore_spelled(&mut self, state: ChunkState, count: u32, bytes: &[u8])
        requires whole { length bytes.now ≡ count * (self.old.shape.sector + 16) }
        requires place { PointerFits state self.old.shape.clba count }
        requires multiple { count % self.old.shape.ws_min ≡ 0 }
        ensures blocks { AreSpelled count bytes.now self.new.chunk.blocks }
        ensures state { self.new.chunk.state ≡ state }
        ensures shape { self.new.shape ≡ self.old.shape }
        ensures fits { IsChunk self.new.shape self.new.chunk }
    {
        are_bytes(bytes);
        self.leave_empty(ChunkState::Free);
        let size = self.shape.sector as usize;
        append_spelled(
            &mut self.bytes,
            &mut self.marks,
            size,
            count as usize,
            bytes,
        );
        self.state = state;
    }

    /// Gives a chunk a state, and `count` blocks in place of what it had, which stay where they
    /// are: in these bytes each block is its sector and then its mark, two numbers of eight
    /// little-endian bytes (Open-Channel SSD Specification 2.0, Chunk states and write pointer; the
    /// spelling is this project's). Nothing is copied. The bytes live until the chunk is reset, or
    /// is given other blocks.
    ///
    /// The count is a multiple of WS_MIN: none for Free and Offline, from 1 to below CLBA for Open,
    /// up to CLBA for Closed.
    pub fn adopt(&mut self, state: ChunkState, count: u32, kept: Bytes)
        requires whole { length kept ≡ count * (self.old.shape.sector + 16) }
        requires place { PointerFits state self.old.shape.clba count }
        requires multiple { count % self.old.shape.ws_min ≡ 0 }
        ensures blocks { AreSpelled count kept self.new.chunk.blocks }
        ensures state { self.new.chunk.state ≡ state }
        ensures shape { self.new.shape ≡ self.old.shape }
        ensures fits { IsChunk self.new.shape self.new.chunk }
    {
        are_bytes(kept.as_slice());
        self.adopted = kept;
        self.adopted_count = count;
        self.bytes.clear();
        self.marks.clear();
        self.state = state;
    }

    /// The bytes that the chunk adopted, and how many blocks they are, its first: in them each is
    /// its sector and then its mark, two numbers of eight little-endian bytes. None are left after
    /// a reset.
    pub fn adopted(&self) -> (&[u8], u32)
        ensures blocks { AreSpelled result.1 result.0.now (take result.1 self.now.chunk.blocks) }
        ensures within { result.1 ≤ pointer self.now.chunk }
    {
        are_bytes(self.adopted.as_slice());
        (self.adopted.as_slice(), self.adopted_count)
    }

    // Appends the blocks of these bytes and marks, and leaves this state.
    fn append(&mut self, bytes: &[u8], marks: &[Mark], state: ChunkState)
        requires whole { length bytes.now ≡ length marks.now * self.old.shape.sector }
        requires place { PointerFits state self.old.shape.clba
            (pointer self.old.chunk + length marks.now) }
        requires multiple { length marks.now % self.old.shape.ws_min ≡ 0 }
        ensures chunk { let blocks = blocks_of self.old.shape.sector bytes.now marks.now
            in self.new.chunk ≡ record { state = state; blocks = self.old.chunk.blocks ++ blocks } }
        ensures shape { self.new.shape ≡ self.old.shape }
        ensures fits { IsChunk self.new.shape self.new.chunk }
    {
        are_blocks(&self.shape, bytes, marks);
        append_bytes(&mut self.bytes, bytes);
        append_marks(&mut self.marks, marks);
        self.state = state;
    }

    // Takes all blocks away, and leaves this state.
    fn leave_empty(&mut self, state: ChunkState)
        requires { PointerFits state self.old.shape.clba 0 }
        ensures chunk { self.new.chunk ≡ record { state = state; blocks = [] } }
        ensures shape { self.new.shape ≡ self.old.shape }
        ensures fits { IsChunk self.new.shape self.new.chunk }
    {
        self.adopted = Bytes::new();
        self.adopted_count = 0;
        self.bytes.clear();
        self.marks.clear();
        self.state = state;
    }

    /// The state, and the write pointer: the number of written blocks, from 0 to CLBA (Open-Channel
    /// SSD Specification 2.0, Chunk states and write pointer).
    pub fn state(&self) -> (ChunkState, u32)
        ensures state { result.0 ≡ self.now.chunk.state }
        ensures pointer { result.1 ≡ pointer self.now.chunk }
        ensures fits { IsChunk self.now.shape self.now.chunk }
    {
        (self.state, self.pointer())
    }

    // The write pointer.
    fn pointer(&self) -> u32
        ensures pointer { result ≡ pointer self.now.chunk }
        ensures within { result ≤ self.now.shape.clba }
    {
        self.adopted_count + self.marks.len() as u32
    }

    /// The sector and the mark of a written block, readable or not. `None` exactly where the block
    /// isn't below the write pointer.
    pub fn written(&self, block: u32) -> Option<(&[u8], Mark)>
        ensures block { option_map (λ r. record { sector = r.0.now; mark = r.1 }) result
            ≡ slice_get self.now.chunk.blocks block }
        ensures size { IfSome result (λ r. length r.0.now ≡ self.now.shape.sector) }
        ensures none { IsNone result ↔ (pointer self.now.chunk ≤ block) }
    {
        if block >= self.pointer() {
            return None;
        }
        Some(self.block(block))
    }

    // The sector and the mark of a written block.
    fn block(&self, index: u32) -> (&[u8], Mark)
        requires { index < pointer self.now.chunk }
        ensures length { length result.0.now ≡ self.now.shape.sector }
        ensures block { slice_get self.now.chunk.blocks index
            ≡ Some (record { sector = result.0.now; mark = result.1 }) }
    {
        let size = self.shape.sector as usize;
        if index < self.adopted_count {
            spelled_block(self.adopted.as_slice(), size, index as usize)
        } else {
            let later = (index - self.adopted_count) as usize;
            block_at(&self.bytes, &self.marks, size, later)
        }
    }
}
