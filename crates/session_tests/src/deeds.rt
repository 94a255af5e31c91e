//! What a session was asked and told, and the sectors that it writes.
ghost use Rattle.std.specs.Prelude.{◌≡◌, ◌*◌, ◌≤◌, length};

use block_target::{Front, Place};

/// How many bytes a sector has.
pub(crate) const SECTOR: usize = 512;

/// How many sectors a command has at most.
pub(crate) const MOST: usize = 16;

/// What a sector is told to hold that isn't one number again and again.
pub(crate) const MIXED: u64 = u64::MAX;

/// The words of the sectors of a command.
pub(crate) type Words = [u64; MOST];

/// What a session was asked, and what it was told.
#[derive(Clone, Copy, Debug)]
pub(crate) enum Deed {
    /// It wrote sectors, whose words are this one and those that follow.
    Wrote {
        lba: u64,
        count: u32,
        word: u64,
        place: Place,
    },
    /// It read sectors.
    Read {
        lba: u64,
        count: u32,
        words: Words,
        front: Front,
    },
    /// It flushed.
    Flushed(Front),
    /// It heard a note of this position.
    Heard(u64),
    /// It was told Drive: the unit and the event.
    Lost(u32, u64),
    /// It was told Worn: what was wanted, and what there is.
    Worn(u64, u64),
    /// It was told Range.
    Range,
}

// Fills a sector with a word, again and again.
fn fill_sector(sector: &mut [u8], word: u64)
    ensures { length sector.new ≡ length sector.old }
{
    let piece = word.to_le_bytes();
    let mut pieces = sector.chunks_exact_mut(8);
    for part in pieces.by_ref() {
        part.copy_from_slice(&piece);
    }
}

/// Fills so many sectors with words, of which this is the first and the others follow.
pub(crate) fn fill(bytes: &mut [u8], count: usize, word: u64)
    requires { count * 512 ≤ length bytes.old }
    ensures { length bytes.new ≡ length bytes.old }
{
    for index in 0..count {
        let at = index * SECTOR;
        fill_sector(&mut bytes[at..at + SECTOR], word.wrapping_add(index as u64));
    }
}

/// The word of a sector.
pub(crate) fn word_of(sector: &[u8]) -> u64 {
    let Some(first) = sector.first_chunk::<8>() else {
        return MIXED;
    };
    let word = u64::from_le_bytes(*first);
    let same = sector
        .chunks_exact(8)
        .all(|piece| piece == first.as_slice());
    if same { word } else { MIXED }
}

/// The words of so many sectors.
pub(crate) fn words_of(bytes: &[u8], count: usize) -> Words
    requires few { count ≤ 16 }
    requires bytes { count * 512 ≤ length bytes.now }
{
    let mut words = [0; MOST];
    for index in 0..count {
        let at = index * SECTOR;
        words[index] = word_of(&bytes[at..at + SECTOR]);
    }
    words
}
