//! The records of an open line, as the blocks of its first and last stripes.

ghost use Rattle.std.specs.Prelude.{◌≡◌, ◌+◌, ◌*◌, ◌≤◌, ◌<◌, [], ◌++◌, ℕ, List, length, take, drop, replicate, true, IfOk, IsTrue};
ghost use Rattle.pblk_model.specs.Blocks.{blocks_of};
ghost use Rattle.pblk_model.specs.Marks.{meta_mark};
ghost use Rattle.pblk_model.specs.EndRecord.{end_bytes};
ghost use Rattle.pblk_model.specs.declared.shape.Shape.{Shape};
ghost use Rattle.pblk_model.specs.Shape.{units};
ghost use Rattle.pblk_model.specs.LineOrder.{start_len, end_len, data_len};
ghost use Rattle.pblk_model.specs.StartRecord.{start_bytes, start_fits};
ghost use Rattle.pblk_meta.specs.Records.{start_numbers};
ghost use Rattle.pblk_world.specs.Events.{Logged};
ghost use Rattle.pblk_world.specs.EngineLog.{Opening};
ghost use Rattle.pblk_world.specs.Placing.{start_blocks, end_blocks, end_address, stripe_at};
ghost use Rattle.pblk_core.specs.Filling.{followed_by};
ghost use Rattle.pblk_core.specs.Readable.{data_mark};
ghost use Rattle.pblk_core.specs.LineRecords.{RecordsView, AreOf, blocks_at_start, blocks_at_end, data_left, end_begins};

use crate::stripe::Stripe;
use pblk_layout::Layout;
use pblk_meta::{StartRecord, a_start_record_has_room, an_end_record_has_room, write_end};
use pblk_model::{Mark, a_line_is_short, end_len_is_least};
use std::alloc::{AllocError, Global};
use std::marker::Model;

/// What the start record and the end record of an open line are made of (formats of this project).
///
/// All memory is taken when it is made, for any line of the layout, and it is used again for each
/// line that is opened. A record's bytes are written once: the start record's when the line is
/// opened, the end record's when its first stripe is asked for. Contracts see the line's numbers,
/// the start record's bytes and the marks of the data so far.
#[derive(Debug, Drop)]
pub struct LineRecords {
    layout: Layout,
    line: u32,
    width: u32,
    seq: u64,
    start: Vec<u8>,
    marks: Vec<Mark>,
    end: Vec<u8>,
    has_end: bool,
}

impl Model for LineRecords {
    ghost use Rattle.pblk_core.specs.LineRecords.{RecordsView};

    ghost Value = { RecordsView };

    ghost use Rattle.pblk_core.specs.RecordFields.{records, AreRecords};

    ghost view = { records };

    ghost invariant = { AreRecords };
}

impl LineRecords {
    /// No line's records: those of a line of width 0, whose start record is zeros.
    ///
    /// An error only for want of memory.
    pub fn new(alloc: Global, layout: &Layout) -> Result<LineRecords, AllocError>
        ensures { IfOk result (λ r. r ≡ record {
          shape = layout.now;
          line = 0;
          width = 0;
          seq = 0;
          start = replicate (start_len layout.now * layout.now.sector) 0;
          marks = [];
        }) }
    {
        a_line_is_short();
        let shape = layout.shape();
        let size = shape.sector as usize;
        let units = u32::from(shape.groups) * u32::from(shape.pus);
        let marks = Vec::with_capacity(alloc, units as usize * shape.clba as usize)?;
        let start = vec![in alloc; 0u8; layout.start_len() as usize * size]?;
        let end = vec![in alloc; 0u8; layout.end_len(units) as usize * size]?;
        Ok(LineRecords {
            layout: *layout,
            line: 0,
            width: 0,
            seq: 0,
            start,
            marks,
            end,
            has_end: false,
        })
    }

    /// The records of a line that is opened with this start record, without data so far.
    ///
    /// The record's numbers fit a line of the layout.
    pub fn open(&mut self, start: &StartRecord)
        requires width { start.now.width ≤ units self.old.shape }
        requires fits { IsTrue (start_fits self.old.shape start.now.line start.now.width
            (start_numbers start.now)) }
        ensures { self.new ≡ record {
          shape = self.old.shape;
          line = start.now.line;
          width = start.now.width;
          seq = start.now.seq;
          start = start_bytes self.old.shape (start_numbers start.now);
          marks = [];
        } }
    {
        a_start_record_has_room();
        self.line = start.line;
        self.width = start.width;
        self.seq = start.seq;
        start.write(&mut self.start);
        self.marks.clear();
        self.has_end = false;
    }

    /// Keeps the marks of the stripe of data that comes next in line order. The line has room for
    /// them.
    pub fn mark_data(&mut self, marks: &[Mark])
        requires { length self.old.marks + length marks.now
            ≤ data_len self.old.shape self.old.width }
        ensures { self.new ≡ record {
          shape = self.old.shape;
          line = self.old.line;
          width = self.old.width;
          seq = self.old.seq;
          start = self.old.start;
          marks = self.old.marks ++ marks.now;
        } }
    {
        a_line_is_short();
        self.marks.extend_from_slice(marks).unwrap();
        self.has_end = false;
    }

    /// The line's number.
    pub fn line(&self) -> u32
        ensures { result ≡ self.now.line }
    {
        self.line
    }

    /// The mark of the block of a line address, where it is one of the data so far.
    pub fn data_mark(&self, at: u32) -> Option<Mark>
        ensures { result ≡ data_mark self.now at }
    {
        let index = at.checked_sub(self.layout.start_len())?;
        self.marks.get(index as usize).copied()
    }

    /// How many data addresses have no entry yet.
    pub fn data_left(&self) -> u64
        ensures { result ≡ data_left self.now }
    {
        u64::from(self.layout.data_len(self.width)).saturating_sub(self.marks.len() as u64)
    }

    /// Fills an empty stripe with the start record's blocks from the line address `at` on.
    ///
    /// These blocks lie in the start record, and the stripe is of a drive of the layout's shape.
    pub fn start_stripe(&self, at: u32, into: &mut Stripe)
        requires shape { into.old.shape ≡ self.now.shape }
        requires empty { into.old.stripe.blocks ≡ [] }
        requires within { at + self.now.shape.ws_opt ≤ start_len self.now.shape }
        ensures { into.new
            ≡ followed_by into.old (stripe_at self.now.shape (blocks_at_start self.now) 0 at) }
    {
        add_run(self.layout, self.seq, &self.start, at, into);
    }

    /// Fills an empty stripe with the end record's blocks from the line address `at` on.
    ///
    /// The marks of all data are kept, these blocks lie in the end record, and the stripe is of a
    /// drive of the layout's shape.
    pub fn end_stripe(&mut self, at: u32, into: &mut Stripe)
        requires shape { into.old.shape ≡ self.old.shape }
        requires empty { into.old.stripe.blocks ≡ [] }
        requires told { length self.old.marks ≡ data_len self.old.shape self.old.width }
        requires from { end_begins self.old ≤ at }
        requires within { at + self.old.shape.ws_opt
            ≤ end_begins self.old + end_len self.old.shape self.old.width }
        ensures blocks { into.new ≡ followed_by into.old
            (stripe_at self.old.shape (blocks_at_end self.old) (end_begins self.old) at) }
        ensures same { self.new ≡ self.old }
    {
        end_len_is_least();
        let begins = self.layout.start_len() + self.layout.data_len(self.width);
        let out = self.end.as_mut_slice();
        write_once(
            self.has_end,
            self.layout,
            self.line,
            self.width,
            self.seq,
            &self.marks,
            out,
        );
        add_run(self.layout, self.seq, out, at - begins, into);
        self.has_end = true;
    }
}

/// Records that are made of the numbers of an opening in the engine's log have the blocks that the
/// log's records have, in each stripe.
pub fn records_are_an_openings()
    ensures start { (s : Shape) (log : List Logged) (o : Opening) (r : RecordsView) (a : ℕ)
        → AreOf s log o r
        → stripe_at r.shape (blocks_at_start r) 0 a ≡ stripe_at s (start_blocks s o) 0 a }
    ensures end { (s : Shape) (log : List Logged) (o : Opening) (r : RecordsView) (a : ℕ)
        → AreOf s log o r
        → stripe_at r.shape (blocks_at_end r) (end_begins r) a
        ≡ stripe_at s (end_blocks s log o) (end_address s o) a }
{}

// Writes the end record of a line, of which the marks of all data are kept, to the first bytes of
// its blocks, unless it stands there already.
fn write_once(
    stands: bool,
    layout: Layout,
    line: u32,
    width: u32,
    seq: u64,
    marks: &[Mark],
    out: &mut [u8],
)
    requires width { width ≤ units layout }
    requires told { length marks.now ≡ data_len layout width }
    requires room { end_len layout width * layout.sector ≤ length out.old }
    requires stands { stands ≡ true → take (end_len layout width * layout.sector) out.old
        ≡ end_bytes layout (record { line = line; width = width; seq = seq; pairs = marks.now }) }
    ensures written { take (end_len layout width * layout.sector) out.new
        ≡ end_bytes layout (record { line = line; width = width; seq = seq; pairs = marks.now }) }
    ensures len { length out.new ≡ length out.old }
{
    an_end_record_has_room();
    let size = layout.end_len(width) as usize * layout.shape().sector as usize;
    if stands {
        return;
    }
    write_end(&mut out[..size], line, width, seq, marks);
}

// Fills an empty stripe with the blocks of a record of this sequence number, from the record's
// block `from` on.
fn add_run(layout: Layout, seq: u64, bytes: &[u8], from: u32, into: &mut Stripe)
    requires shape { into.old.shape ≡ layout }
    requires empty { into.old.stripe.blocks ≡ [] }
    requires within { (from + layout.ws_opt) * layout.sector ≤ length bytes.now }
    ensures { into.new ≡ followed_by into.old (blocks_of layout.sector
        (take (layout.ws_opt * layout.sector) (drop (from * layout.sector) bytes.now))
        (replicate layout.ws_opt (meta_mark seq))) }
{
    let shape = layout.shape();
    let size = shape.sector as usize;
    let start = from as usize * size;
    let end = start + shape.ws_opt as usize * size;
    let mark = Mark {
        lba: Mark::META_LBA,
        position: seq,
    };
    into.append_run(mark, shape.ws_opt, &bytes[start..end]);
}
