//! What an image holds for its user.

ghost use Rattle.std.specs.Prelude.{◌≡◌, ◌*◌, ◌<◌, ◌↔◌, [], IsTrue, length, slice_get, Some};
ghost use Rattle.scan_recovery.specs.Sectors.{IsSectorSize, sectors_in};

use std::marker::Model;

/// The user sectors of a drive, by lba from 0 on. Contracts see their list, each as its bytes.
#[derive(Debug, Drop)]
pub struct Sectors {
    bytes: Vec<u8>,
    size: u32,
    count: u64,
}

impl Model for Sectors {
    ghost use Rattle.std.specs.Prelude.{ℕ, List};
    ghost use Rattle.scan_recovery.specs.Sectors.{AreSectors, sectors_in};

    ghost Value = { List (List ℕ) };

    ghost view = { λ s. sectors_in s.size s.count s.bytes.items };

    ghost invariant = { λ s. AreSectors s.size s.count s.bytes.items };
}

impl Sectors {
    /// The sectors of these bytes, which are `count` times `size`, one sector after another. `size`
    /// is 512 or 4096. It takes no memory.
    pub fn new(bytes: Vec<u8>, size: u32, count: u64) -> Sectors
        requires size { IsSectorSize size }
        requires bytes { length bytes.items ≡ count * size }
        ensures { result ≡ sectors_in size count bytes.items }
    {
        Sectors { bytes, size, count }
    }

    /// How many sectors there are.
    pub fn len(&self) -> u64
        ensures { result ≡ length self.now }
    {
        self.count
    }

    /// Whether there is none.
    pub fn is_empty(&self) -> bool
        ensures { IsTrue result ↔ (self.now ≡ []) }
    {
        self.count == 0
    }

    /// The bytes of a sector, which is below `len`: 512 of them, or 4096.
    pub fn get(&self, lba: u64) -> &[u8]
        requires { lba < length self.now }
        ensures sector { slice_get self.now lba ≡ Some result.now }
        ensures size { IsSectorSize (length result.now) }
    {
        let bytes = self.bytes.as_slice();
        let size = self.size as usize;
        let at = lba as usize * size;
        &bytes[at..at + size]
    }
}

/// The head, the newest start record: of all whole ones that of the greatest sequence number, and
/// of equal ones that of the least line.
#[derive(Clone, Copy, Debug, PartialEq, Eq)]
pub struct Head {
    /// Its line, by number from 0.
    pub line: u32,
    /// Its sequence number, from 1 to below 2^61.
    pub seq: u64,
}

/// What an image holds, but for the user sectors themselves (Bjørling, González, Bonnet, FAST 2017,
/// recovery).
#[derive(Clone, Copy, Debug, PartialEq, Eq)]
pub struct Summary {
    /// The least position from the head's front on that no record of a line of the head's mount
    /// bears, and 0 without a head.
    pub end: u64,
    /// How many of the records that count have a sector.
    pub counted: u64,
    /// How many sectors have a record that counts.
    pub live: u64,
    /// None where no start record is whole.
    pub head: Option<Head>,
}

/// What an image holds: of each user sector the newest of its records that count, and zeros where
/// it has none (Bjørling, González, Bonnet, FAST 2017, recovery).
#[derive(Debug, Drop)]
pub struct Contents {
    /// The user sectors, as many as the capacity.
    pub sectors: Sectors,
    /// The least position from the head's front on that no record of a line of the head's mount
    /// bears, and 0 without a head.
    pub end: u64,
}
