//! The parity of a drive.

ghost use Rattle.std.specs.Prelude.{ℕ, ◌≡◌, ◌<◌, ◌++◌, length, map, slice_get, IfErr, IfOk, IfNone, IfSome, OnErr, OnOk, Some};
ghost use Rattle.pblk_model.specs.Accepted.{IsAccepted};
ghost use Rattle.pblk_model.specs.Chunk.{Block};
ghost use Rattle.pblk_model.specs.Image.{Image};
ghost use Rattle.pblk_model.specs.Shape.{units as unit_count};
ghost use Rattle.pblk_laws.specs.LineBlocks.{written_at};
ghost use Rattle.unit_port.specs.Commands.{AreKept};
ghost use Rattle.world_laws.specs.Finding.{NoneOpen};
ghost use Rattle.scan_recovery.specs.Fetches.{WereFetched, error_of};
ghost use Rattle.scan_recovery.specs.Units.{AreFit, image_of};
ghost use Rattle.stripe_parity.specs.declared.error.ParityErr.TheVariants.{Memory};
ghost use Rattle.stripe_parity.specs.ParityBytes.{IsFileRefusal, parity_bytes};
ghost use Rattle.stripe_parity.specs.Puts.{Puts};
ghost use Rattle.stripe_parity.specs.ParityFile.{IsParity, ParityFile, kept_in, parity_of};
ghost use Rattle.stripe_parity.specs.Rebuilding.{AgreeBut, AreAsKept, HasSectors, IsFirstDifference, IsRebuiltBlock, kept_pointer};
ghost use Rattle.stripe_parity.specs.Refusals.{IsFetchRefusal, fetch_error};

use crate::adding::add_units;
use crate::differing::first_difference;
use crate::error::ParityErr;
use crate::keeping::kept_units;
use crate::kept::KeptChunk;
use crate::making::make_rows;
use crate::reading::{check_header, read_rows, read_units};
use crate::writing::{header_of, put, put_rows, put_units};
use crate::xoring::MAX_SECTOR;
use ocssd_chunks::Chunk;
use pblk_model::{Mark, Shape};
use scan_recovery::ScanErr;
use std::alloc::{AllocError, Global};
use std::marker::Model;
use unit_port::Unit;

/// The parity of a drive without Open chunks: of each chunk its state and its write pointer, and
/// for each chunk number the exclusive ors of the blocks that the units have written there.
#[derive(Debug, Drop)]
pub struct Parity {
    shape: Shape,
    // by unit, then by chunk
    kept: Vec<Vec<KeptChunk>>,
    // by chunk number: a chunk of exclusive ors
    rows: Vec<Chunk>,
}

// Contracts see the numbers and what is kept of them.
impl Model for Parity {
    ghost use Rattle.stripe_parity.specs.ParityFile.{ParityFile};

    ghost Value = { ParityFile };

    ghost use Rattle.stripe_parity.specs.Sound.{parity_file, IsSound};

    ghost view = { parity_file };

    ghost invariant = { IsSound };
}

/// The parity of the units of a drive of this shape, of which no chunk is Open.
///
/// It fetches each written block once, and changes nothing else of the units. Refused: `Drive`
/// where a fetch failed or was stopped; `Memory`.
pub fn make<U: Unit>(alloc: Global, units: &mut [U], shape: &Shape) -> Result<Parity, ParityErr>
    requires accepted { IsAccepted shape.now }
    requires fit { AreFit shape.now (map U.model units.old) }
    requires closed { NoneOpen (image_of shape.now (map U.model units.old)) }
    ensures parity { let i = image_of shape.now (map U.model units.old)
        in IfOk result (λ p. p ≡ parity_of i) }
    ensures refused { IfErr result IsFetchRefusal }
    ensures fetched { WereFetched shape.now (map U.model units.old) (map U.model units.new)
        (fetch_error result) }
    ensures kept { AreKept (map U.model units.old) (map U.model units.new) }
    ensures wear { map U.wear units.new ≡ map U.wear units.old }
{
    let kept = kept_units(alloc, units, shape)?;
    let rows = make_rows(alloc, units, shape, &kept)?;
    Ok(Parity {
        shape: *shape,
        kept,
        rows,
    })
}

impl Parity {
    /// The parity of a file of a drive of this shape.
    ///
    /// The file is read part by part: the header, the states and write pointers of all chunks, the
    /// exclusive ors. In each part `Short` comes first, with the input's length, where the input
    /// ends within the part. Then come `Magic`, `Version` and `Numbers`, where the header isn't the
    /// one of such a drive; `State` with the first chunk, by unit and then by chunk, whose state
    /// and write pointer can't be. `Long` comes where bytes remain. The exclusive ors may be any.
    ///
    /// `Memory` aside, no file of a parity is refused.
    pub fn read(alloc: Global, bytes: &[u8], shape: &Shape) -> Result<Parity, ParityErr>
        requires { IsAccepted shape.now }
        ensures form { IfOk result (λ p. parity_bytes p ≡ bytes.now) }
        ensures shape { IfOk result (λ p. p.shape ≡ shape.now) }
        ensures refused { IfErr result (IsFileRefusal shape.now bytes.now) }

        // What is written of a parity is read as it, or memory is wanting.
        ensures again { (p : ParityFile) → IsParity p → p.shape ≡ shape.now
            → parity_bytes p ≡ bytes.now → IfOk result (λ q. q ≡ p) }
        ensures wanting { (p : ParityFile) → IsParity p → p.shape ≡ shape.now
            → parity_bytes p ≡ bytes.now → IfErr result (λ e. e ≡ Memory) }
    {
        check_header(bytes, shape)?;
        let kept = read_units(alloc, bytes, shape)?;
        let rows = read_rows(alloc, bytes, shape, &kept)?;
        Ok(Parity {
            shape: *shape,
            kept,
            rows,
        })
    }

    /// The numbers of the drive.
    pub fn shape(&self) -> Shape
        ensures shape { result ≡ self.now.shape }
        ensures parity { IsParity self.now }
    {
        self.shape
    }

    /// What is kept of a chunk of a unit.
    pub fn kept(&self, unit: u32, chunk: u32) -> KeptChunk
        requires unit { unit < unit_count self.now.shape }
        requires chunk { chunk < self.now.shape.chunks }
        ensures { kept_in self.now.chunks chunk unit ≡ Some result }
    {
        self.kept[unit as usize][chunk as usize]
    }

    /// The first chunk, by unit and then by chunk, of a unit other than `lost` that has another
    /// state or write pointer than is kept of it. `None` exactly where there is none.
    pub fn differs<U: Unit>(&self, units: &[U], lost: u32) -> Option<(u32, u32)>
        requires fit { AreFit self.now.shape (map U.model units.now) }
        ensures first { let i = image_of self.now.shape (map U.model units.now)
            in IfSome result (λ at. IsFirstDifference self.now.chunks i lost at.0 at.1) }
        ensures none { let i = image_of self.now.shape (map U.model units.now)
            in IfNone result (AreAsKept self.now.chunks i lost) }
    {
        first_difference(&self.shape, &self.kept, units, lost)
    }

    /// Makes a block of the unit `lost` anew: the exclusive or of the parity's block and of the
    /// other units' ones. Its sector goes to `out`, which has the length of a sector, and its mark
    /// is the answer.
    ///
    /// `differs` is None, and the block is below the write pointer that is kept of the lost unit's
    /// chunk. It takes no memory, and commands the lost unit in no way. Refused: `Drive` where a
    /// fetch of another unit failed or was stopped.
    pub fn block<U: Unit>(
        &self,
        units: &mut [U],
        lost: u32,
        chunk: u32,
        block: u32,
        out: &mut [u8],
    ) -> Result<Mark, ParityErr>
        requires fit { AreFit self.now.shape (map U.model units.old) }
        requires same { let i = image_of self.now.shape (map U.model units.old)
            in AreAsKept self.now.chunks i lost }
        requires written { block < kept_pointer self.now.chunks chunk lost }
        requires out { length out.old ≡ self.now.shape.sector }
        ensures block { let i = image_of self.now.shape (map U.model units.old)
            in IfOk result (λ m. IsRebuiltBlock self.now i lost chunk block
            (record { sector = out.new; mark = m })) }

        // So it is the one that was lost.
        ensures rebuilt { let i = image_of self.now.shape (map U.model units.old)
            in (first : Image) (was : Block) → HasSectors first → self.now ≡ parity_of first
            → AgreeBut lost first i → written_at first chunk (lost, block) ≡ Some was
            → IfOk result (λ m. was ≡ record { sector = out.new; mark = m }) }
        ensures refused { IfErr result IsFetchRefusal }
        ensures fetched { WereFetched self.now.shape (map U.model units.old) (map U.model units.new)
            (fetch_error result) }
        ensures kept { AreKept (map U.model units.old) (map U.model units.new) }
        ensures wear { map U.wear units.new ≡ map U.wear units.old }
        ensures lost { slice_get units.new lost ≡ slice_get units.old lost }
    {
        let mark = self.lost_block(units, lost, chunk, block, out)?;
        Ok(mark)
    }

    /// As `block`.
    pub(crate) fn lost_block<U: Unit>(
        &self,
        units: &mut [U],
        lost: u32,
        chunk: u32,
        block: u32,
        out: &mut [u8],
    ) -> Result<Mark, ScanErr>
        requires fit { AreFit self.now.shape (map U.model units.old) }
        requires same { let i = image_of self.now.shape (map U.model units.old)
            in AreAsKept self.now.chunks i lost }
        requires written { block < kept_pointer self.now.chunks chunk lost }
        requires out { length out.old ≡ self.now.shape.sector }
        ensures block { let i = image_of self.now.shape (map U.model units.old)
            in IfOk result (λ m. IsRebuiltBlock self.now i lost chunk block
            (record { sector = out.new; mark = m })) }
        ensures fetched { WereFetched self.now.shape (map U.model units.old) (map U.model units.new)
            (error_of result) }
        ensures kept { AreKept (map U.model units.old) (map U.model units.new) }
        ensures wear { map U.wear units.new ≡ map U.wear units.old }
        ensures lost { slice_get units.new lost ≡ slice_get units.old lost }
    {
        let Some((sector, mark)) = self.rows[chunk as usize].written(block) else {
            unreachable!()
        };
        out.copy_from_slice(sector);
        let mut buffer = [0; MAX_SECTOR];
        let size = self.shape.sector as usize;
        add_units(
            units,
            &self.shape,
            Some(lost),
            chunk,
            block,
            &mut buffer[..size],
            out,
            mark,
        )
    }

    /// Adds the parity at the end of a list, as it stands in a file. For want of memory the list is
    /// as before.
    pub fn write(&self, out: &mut Vec<u8>) -> Result<(), AllocError>
        ensures added { OnOk result (out.new.items ≡ out.old.items ++ parity_bytes self.now) }
        ensures kept { OnErr result (out.new.items ≡ out.old.items) }
    {
        let before = out.len();
        match self.put_parts(out) {
            Ok(()) => Ok(()),
            Err(e) => {
                out.truncate(before);
                Err(e)
            }
        }
    }

    // Adds the parts of the file.
    fn put_parts(&self, out: &mut Vec<u8>) -> Result<(), AllocError>
        ensures { Puts result out.old.items out.new.items (parity_bytes self.now) }
    {
        put(out, &header_of(&self.shape))?;
        put_units(out, &self.kept)?;
        put_rows(out, &self.rows)?;
        Ok(())
    }
}
