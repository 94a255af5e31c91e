//! Stripes on their way to a unit.

ghost use Rattle.std.specs.Prelude.{false, ◌≡◌, ◌+◌, ◌-◌, ◌*◌, ◌<◌, ◌≤◌, [], ◌∷◌, ◌++◌, length, replicate, vec_len, vec_capacity, IfOk};
ghost use Rattle.pblk_model.specs.Accepted.{IsAccepted};
ghost use Rattle.pblk_model.specs.Blocks.{blocks_of};
ghost use Rattle.pblk_model.specs.Marks.{pad_block};
ghost use Rattle.pblk_core.specs.Filling.{Filling, empty_stripe, followed_by};

use pblk_model::{Mark, Shape};
use std::alloc::{AllocError, Global};
use std::marker::Model;

/// A stripe: up to WS_OPT consecutive blocks of one chunk, which go to its unit in one program
/// (Open-Channel SSD Specification 2.0, Vector write; Bjørling, González, Bonnet, FAST 2017, write
/// buffering).
///
/// All its memory is taken when it is made, and it is filled again for each program. A stripe of a
/// line lies in the chunk of the line's number. It tells whether it was placed before: a stripe
/// whose program was stopped keeps its place and is programmed again (this project's rule "Stopped
/// stripe" in docs/TARGET.md). Contracts see the drive's shape, the stripe, and whether it was
/// placed before.
#[derive(Debug, Drop)]
pub struct Stripe {
    shape: Shape,
    line: u32,
    unit: u32,
    at: u32,
    // whether it was placed before, and its program was stopped
    again: bool,
    // how many stripes of its unit were answered as it was placed
    turn: u64,
    bytes: Vec<u8>,
    marks: Vec<Mark>,
}

impl Model for Stripe {
    ghost use Rattle.pblk_core.specs.Filling.{Filling};

    ghost Value = { Filling };

    ghost use Rattle.pblk_core.specs.StripeFields.{filling, IsFilling};

    ghost view = { filling };

    ghost invariant = { IsFilling };
}

impl Stripe {
    /// A stripe without blocks, of a drive of an accepted shape, at block 0 of line 0 on unit 0.
    ///
    /// It has room for WS_OPT sectors with their marks. An error only for want of memory.
    pub fn new(alloc: Global, shape: &Shape) -> Result<Stripe, AllocError>
        requires { IsAccepted shape.now }
        ensures { IfOk result (λ s. s
            ≡ record { shape = shape.now; stripe = empty_stripe 0 0 0; again = false; turn = 0 }) }
    {
        let blocks = shape.ws_opt as usize;
        let bytes = Vec::with_capacity(alloc, blocks * shape.sector as usize)?;
        let marks = Vec::with_capacity(alloc, blocks)?;
        Ok(Stripe {
            shape: *shape,
            line: 0,
            unit: 0,
            at: 0,
            again: false,
            turn: 0,
            bytes,
            marks,
        })
    }

    /// Begins a stripe of a line on a unit, from the block `at` of the line's chunk on. It has no
    /// blocks yet. `again` says whether it was placed before, and `turn` how many stripes of the
    /// unit were answered.
    pub fn begin(&mut self, line: u32, unit: u32, at: u32, again: bool, turn: u64)
        ensures { let stripe = empty_stripe line unit at in self.new ≡ record {
          shape = self.old.shape;
          stripe = stripe;
          again = again;
          turn = turn;
        } }
    {
        self.line = line;
        self.unit = unit;
        self.at = at;
        self.again = again;
        self.turn = turn;
        self.bytes.clear();
        self.marks.clear();
    }

    /// Adds a block at the end. There are fewer than WS_OPT, and `sector` has a sector's bytes.
    pub fn append(&mut self, mark: Mark, sector: &[u8])
        requires room { length self.old.stripe.blocks < self.old.shape.ws_opt }
        requires size { length sector.now ≡ self.old.shape.sector }
        ensures { self.new
            ≡ followed_by self.old (record { sector = sector.now; mark = mark } ∷ []) }
    {
        self.append_run(mark, 1, sector);
    }

    /// Adds `count` blocks of one mark at the end. The stripe has room for them, and `bytes` has
    /// their sectors one after another.
    pub fn append_run(&mut self, mark: Mark, count: u32, bytes: &[u8])
        requires room { length self.old.stripe.blocks + count ≤ self.old.shape.ws_opt }
        requires size { length bytes.now ≡ count * self.old.shape.sector }
        ensures { self.new ≡ followed_by self.old
            (blocks_of self.old.shape.sector bytes.now (replicate count mark)) }
    {
        let end = self.marks.len() + count as usize;
        append_bytes(&mut self.bytes, bytes);
        fill_marks(&mut self.marks, end, mark);
    }

    /// Fills the stripe up to WS_OPT blocks with Pad blocks, whose sectors are zeros.
    pub fn pad(&mut self)
        ensures { let s = self.old.shape
            in let more = s.ws_opt - length self.old.stripe.blocks
            in self.new ≡ followed_by self.old (replicate more (pad_block s)) }
    {
        let blocks = self.shape.ws_opt as usize;
        fill_zeros(&mut self.bytes, blocks * self.shape.sector as usize);
        fill_marks(&mut self.marks, blocks, Mark::PAD);
    }

    /// The unit's number, from 0.
    pub fn unit(&self) -> u32
        ensures { result ≡ self.now.stripe.unit }
    {
        self.unit
    }

    /// The chunk's number in its unit, from 0, which is the line's number.
    pub fn chunk(&self) -> u32
        ensures chunk { result ≡ self.now.stripe.chunk }
        ensures line { result ≡ self.now.stripe.line }
    {
        self.line
    }

    /// The number in the chunk of the stripe's first block, from 0.
    pub fn at(&self) -> u32
        ensures { result ≡ self.now.stripe.at }
    {
        self.at
    }

    /// Whether it was placed before, and its program was stopped. Then no second `Place` of it
    /// comes into the engine's log.
    pub fn is_again(&self) -> bool
        ensures { result ≡ self.now.again }
    {
        self.again
    }

    /// How many stripes were placed on its unit before it, or 2^64 - 1 where that is less: all of
    /// them were answered. As long as just so many of the unit's stripes are answered, it isn't.
    pub fn turn(&self) -> u64
        ensures { result ≡ self.now.turn }
    {
        self.turn
    }

    /// The blocks as a program takes them: their sectors one after another, and their marks.
    pub fn parts(&self) -> (&[u8], &[Mark])
        ensures blocks { blocks_of self.now.shape.sector result.0.now result.1.now
            ≡ self.now.stripe.blocks }
        ensures whole { length result.0.now ≡ length result.1.now * self.now.shape.sector }
        ensures few { length result.1.now ≤ self.now.shape.ws_opt }
    {
        (self.bytes.as_slice(), self.marks.as_slice())
    }
}

// Adds bytes at the end of a list that has room for them.
fn append_bytes(list: &mut Vec<u8>, bytes: &[u8])
    requires { vec_len list.old + length bytes.now ≤ vec_capacity list.old }
    ensures items { list.new.items ≡ list.old.items ++ bytes.now }
    ensures room { vec_capacity list.old ≤ vec_capacity list.new }
{
    list.extend_from_slice(bytes).unwrap();
}

// How many zeros are added at once.
const PIECE: usize = 4096;

// Fills a list up to `end` bytes with zeros. It has room for them. They are copied in pieces: to
// write one byte after another takes ten times as long.
fn fill_zeros(list: &mut Vec<u8>, end: usize)
    requires order { vec_len list.old ≤ end }
    requires room { end ≤ vec_capacity list.old }
    ensures items { list.new.items ≡ list.old.items ++ replicate (end - length list.old.items) 0 }
    ensures room { vec_capacity list.old ≤ vec_capacity list.new }
{
    let zeros = [0; PIECE];
    let missing = end - list.len();
    for _piece in 0..missing / PIECE {
        append_bytes(list, &zeros);
    }
    append_bytes(list, &zeros[..missing % PIECE]);
}

// Fills a list up to `end` marks with one. It has room for them.
fn fill_marks(list: &mut Vec<Mark>, end: usize, mark: Mark)
    requires order { vec_len list.old ≤ end }
    requires room { end ≤ vec_capacity list.old }
    ensures items { list.new.items
        ≡ list.old.items ++ replicate (end - length list.old.items) mark }
    ensures room { vec_capacity list.old ≤ vec_capacity list.new }
{
    list.resize(end, mark).unwrap();
}
