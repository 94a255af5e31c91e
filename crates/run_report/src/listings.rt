//! What `show` prints.
ghost use Rattle.std.specs.Prelude.{ℕ, ◌≡◌, ◌^◌, ◌<◌, ◌++◌, List, IfOk, OnOk, length, map, string_bytes};
ghost use Rattle.std.specs.List.{AllByRecursion};
ghost use Rattle.block_port.specs.Port.{IsSectorSize};
ghost use Rattle.pblk_model.specs.Text.{word_of};
ghost use Rattle.run_report.specs.Listing.{listing_of, listing_text, sector_line};

use run_threads::{Word, word};
use scan_recovery::Contents;
use std::alloc::{AllocError, Global};

/// What `show` prints: the lba and the word of each sector that isn't all zeros, by rising lba, and then the end and the
/// number of sectors. Fails only for want of memory.
pub fn listing(alloc: Global, contents: &Contents) -> Result<Vec<u8>, AllocError>
    ensures { IfOk result (λ text. text.items ≡ listing_text contents.now) }
{
    let mut out = String::new(alloc);
    let sectors = &contents.sectors;
    let count = sectors.len();
    for lba in 0..count {
        put_sector(&mut out, lba, sectors.get(lba))?;
    }
    let end = contents.end;
    writeln!(out, "end {end} sectors {count}")?;
    Ok(out.into_bytes())
}

// Adds the line of a sector, unless it is all zeros.
fn put_sector(out: &mut String, lba: u64, sector: &[u8]) -> Result<(), AllocError>
    requires { IsSectorSize (length sector.now) }
    ensures { OnOk result
        (string_bytes out.new ≡ string_bytes out.old ++ sector_line (lba, sector.now)) }
{
    match word(sector) {
        Word::Tag(0) => Ok(()),
        Word::Tag(tag) => writeln!(out, "{lba} {tag}"),
        Word::Mixed => writeln!(out, "{lba} mixed"),
    }
}

/// Listings that are equal are of as many sectors with the same words, and of one end.
pub fn one_listing()
    ensures { (a b : List (List ℕ)) (m n : ℕ)
        → AllByRecursion (λ s. IsSectorSize (length s)) a
        → AllByRecursion (λ s. IsSectorSize (length s)) b
        → length a < 2 ^ 64 → length b < 2 ^ 64 → m < 2 ^ 64 → n < 2 ^ 64
        → listing_of a m ≡ listing_of b n → (map word_of a ≡ map word_of b) × (m ≡ n) }
{}
