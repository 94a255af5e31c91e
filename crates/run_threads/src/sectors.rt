//! Sectors of a tag.
ghost use Rattle.std.specs.Prelude.{ℕ, ◌≡◌, ◌+◌, ◌*◌, ◌/◌, ◌≤◌, ◌<◌, [], ◌∷◌, ◌++◌, length, get_or, map, replicate, IfOk};
ghost use Rattle.std.specs.List.{repeat};
ghost use Rattle.std.specs.Str.{bytes_eq};
ghost use Rattle.std.specs.Vec.{vec_len, vec_capacity};
ghost use Rattle.block_port.specs.Own.{sectors_of};
ghost use Rattle.block_port.specs.Port.{IsSectorSize};
ghost use Rattle.std.specs.Int.{w64};
ghost use Rattle.pblk_model.specs.Bytes.{le64, number_at};
ghost use Rattle.pblk_model.specs.History.{tag_sector};
ghost use Rattle.pblk_model.specs.Text.{word_of};
ghost use Rattle.run_threads.specs.Words.{text_word};

use crate::records::Word;

/// Fills `bytes` with `count` sectors of a tag, of this size.
pub(crate) fn fill(bytes: &mut [u8], size: usize, count: usize, tag: u64)
    requires size { IsSectorSize size }
    requires bytes { length bytes.old ≡ count * size }
    ensures len { length bytes.new ≡ length bytes.old }
    ensures sectors { sectors_of size count bytes.new ≡ replicate count (tag_sector size tag) }
{
    // eight numbers are written at a time
    let mut block = [0; 64];
    repeat_in(&mut block, &tag.to_le_bytes(), 8);
    let pieces = bytes.len() / 64;
    repeat_in(bytes, &block, pieces);
}

// Writes a piece so many times.
fn repeat_in(bytes: &mut [u8], piece: &[u8], pieces: usize)
    requires { length bytes.old ≡ pieces * length piece.now }
    ensures len { length bytes.new ≡ length bytes.old }
    ensures repeated { bytes.new ≡ repeat pieces piece.now }
{
    let size = piece.len();
    for index in 0..pieces {
        let at = index * size;
        bytes[at..at + size].copy_from_slice(piece);
    }
}

/// The word of a sector, which has 512 bytes or 4096.
pub fn word(sector: &[u8]) -> Word
    requires { IsSectorSize (length sector.now) }
    ensures { text_word result ≡ word_of sector.now }
{
    let tag = first_number(sector);
    if repeats(sector, tag) {
        Word::Tag(tag)
    } else {
        Word::Mixed
    }
}

// The number of the first eight bytes.
fn first_number(bytes: &[u8]) -> u64
    requires { 8 ≤ length bytes.now }
    ensures { result ≡ number_at w64 0 bytes.now }
{
    let mut first = [0; 8];
    first.copy_from_slice(&bytes[..8]);
    u64::from_le_bytes(first)
}

// Whether bytes are those of a number again and again. No comparison ends the loop, so that the
// compiler can make several at once.
fn repeats(bytes: &[u8], number: u64) -> bool
    requires { length bytes.now ≡ length bytes.now / 8 * 8 }
    ensures { result ≡ bytes_eq bytes.now (repeat (length bytes.now / 8) (le64 number)) }
{
    let (pieces, _rest) = bytes.as_chunks::<8>();
    let mut same = true;
    for piece in pieces {
        same &= is_number(*piece, number);
    }
    same
}

// Whether eight bytes are those of a number.
fn is_number(bytes: [u8; 8], number: u64) -> bool
    ensures { result ≡ bytes_eq bytes (le64 number) }
{
    are_bytes(&bytes);
    u64::from_le_bytes(bytes) == number
}

// Tells contracts that these are bytes.
fn are_bytes(_bytes: &[u8])
    ensures { (index : ℕ) → get_or _bytes.now index 0 < 256 }
{}

/// Adds the words of `count` sectors of this size, for which the list has room.
pub(crate) fn put_words(words: &mut Vec<Word>, bytes: &[u8], size: usize, count: usize)
    requires size { IsSectorSize size }
    requires bytes { length bytes.now ≡ count * size }
    requires empty { words.old.items ≡ [] }
    requires room { count ≤ vec_capacity words.old }
    ensures { map text_word words.new.items ≡ map word_of (sectors_of size count bytes.now) }
{
    let mut rest = bytes;
    for _ in 0..count {
        let (sector, others) = rest.split_at(size);
        append(words, word(sector));
        rest = others;
    }
}

// Adds a word to a list that has room for it.
fn append(words: &mut Vec<Word>, word: Word)
    requires { vec_len words.old < vec_capacity words.old }
    ensures items { words.new.items ≡ words.old.items ++ word ∷ [] }
    ensures room { vec_capacity words.old ≤ vec_capacity words.new }
    ensures len { vec_len words.new ≡ vec_len words.old + 1 }
{
    words.push(word).unwrap();
}
