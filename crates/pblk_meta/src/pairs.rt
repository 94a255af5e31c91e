//! The pairs of an end record.

ghost use Rattle.std.specs.Prelude.{◌≡◌, ◌+◌, ◌*◌, ◌≤◌, [], ◌∷◌, ◌++◌, length, take, OnOk, OnErr, IfOk};
ghost use Rattle.std.specs.List.{AllByRecursion, flat_map};
ghost use Rattle.pblk_model.specs.EndRecord.{pair_bytes, pairs_in};
ghost use Rattle.pblk_laws.specs.EndBlocks.{FitsBytes};

use crate::bytes::{after, put_u64, u64_at};
use pblk_model::Mark;
use std::alloc::{AllocError, Global};
use std::marker::Model;

/// The marks of a line's data, in line order. Contracts see their list.
#[derive(Debug, Drop)]
pub struct Pairs {
    list: Vec<Mark>,
}

impl Model for Pairs {
    ghost use Rattle.std.specs.Prelude.{List};
    ghost use Rattle.pblk_model.specs.declared.chunk.Mark.{Mark};

    ghost Value = { List Mark };

    ghost view = { λ a. a.list.items };
}

impl Pairs {
    /// No pairs.
    pub fn new(alloc: Global) -> Pairs
        ensures { result ≡ [] }
    {
        Pairs {
            list: Vec::new(alloc),
        }
    }

    /// Adds a mark at the end. After want of memory the pairs are as they were.
    pub fn push(&mut self, mark: Mark) -> Result<(), AllocError>
        ensures ok { OnOk result (self.new ≡ self.old ++ mark ∷ []) }
        ensures err { OnErr result (self.new ≡ self.old) }
    {
        self.list.push(mark)?;
        Ok(())
    }

    /// The marks in their order.
    pub fn as_slice(&self) -> &[Mark]
        ensures { result.now ≡ self.now }
    {
        self.list.as_slice()
    }
}

/// The marks that stand at the places of so many pairs.
pub(crate) fn read_pairs(alloc: Global, count: u32, bytes: &[u8]) -> Result<Pairs, AllocError>
    requires { 16 * count ≤ length bytes.now }
    ensures { IfOk result (λ pairs. pairs ≡ pairs_in count bytes.now) }
{
    let mut pairs = Pairs::new(alloc);
    let mut rest = bytes;
    for _ in 0..count {
        let lba = u64_at(rest, 0);
        let position = u64_at(rest, 8);
        pairs.push(Mark { lba, position })?;
        rest = after(rest, 16);
    }
    Ok(pairs)
}

// Writes a mark's spelling to the 16 bytes from a place on.
fn put_pair(out: &mut [u8], at: usize, pair: Mark)
    requires { at + 16 ≤ length out.old }
    ensures placed { take (at + 16) out.new ≡ take at out.old ++ pair_bytes pair }
    ensures fits { FitsBytes pair }
    ensures len { length out.new ≡ length out.old }
{
    put_u64(out, at, pair.lba);
    put_u64(out, at + 8, pair.position);
}

/// Writes the marks' spellings from a place on, and gives the place behind them.
pub(crate) fn put_pairs(out: &mut [u8], at: usize, pairs: &[Mark]) -> usize
    requires { at + 16 * length pairs.now ≤ length out.old }
    ensures placed { take result out.new ≡ take at out.old ++ flat_map pair_bytes pairs.now }
    ensures end { result ≡ at + 16 * length pairs.now }
    ensures fit { AllByRecursion FitsBytes pairs.now }
    ensures len { length out.new ≡ length out.old }
{
    let mut place = at;
    for pair in pairs {
        put_pair(out, place, *pair);
        place += 16;
    }
    place
}
