//! What an image holds.

ghost use Rattle.std.specs.Prelude.{◌≡◌, ◌+◌, ◌<◌, ◌≤◌, ◌^◌, ◌==◌, ◌&&◌, ◌||◌, nat_lt, map, length, Some, IfOk, IfSome};
ghost use Rattle.std.specs.List.{filter, list_any};
ghost use Rattle.std.specs.Option.{option_copied};
ghost use Rattle.pblk_model.specs.Contents.{later_start, head, is_borne, least_missing, end_after, end, counts, counted_after, counted, is_newer, newer, is_of, winner, contents};
ghost use Rattle.pblk_reference.specs.Ready.{IsOfAcceptedShape};
ghost use Rattle.pblk_reference.specs.Reading.{sector_at};

use crate::image::Image;
use crate::record::{Record, records};
use crate::start::{Row, StartRecord, start_of};
use std::alloc::{AllocError, Global};

fn later_start(best: Option<StartRecord>, start: StartRecord) -> StartRecord
    ensures later { Some result ≡ later_start best start }
    ensures low { IfSome best (λ r. r.front < 2 ^ 61) → start.front < 2 ^ 61
        → result.front < 2 ^ 61 }
{
    match best {
        None => start,
        Some(best) => { if best.seq < start.seq { start } else { best } }
    }
}

/// The start record of greatest sequence number, and of those the one of the least line. Its front is below
/// 2^61.
pub fn head(alloc: Global, image: &Image) -> Result<Option<StartRecord>, AllocError>
    requires { IsOfAcceptedShape image.now }
    ensures head { IfOk result (λ o. o ≡ head image.now) }
    ensures low { IfOk result (λ o. IfSome o (λ r. r.front < 2 ^ 61)) }
{
    let mut best = None;
    for line in 0..image.shape.chunks {
        if let Some(start) = start_of(alloc, image, line)? {
            best = Some(later_start(best, start));
        }
    }
    Ok(best)
}

fn is_borne(records: &[Record], head: &StartRecord, position: u64) -> bool
    ensures { result ≡ is_borne records.now head.now position }
{
    for r in records {
        if head.first_seq <= r.seq && r.position == position {
            return true;
        }
    }
    false
}

fn least_missing(records: &[Record], head: &StartRecord) -> u64
    requires { head.now.front + length records.now < 2 ^ 64 }
    ensures { result
        ≡ least_missing (is_borne records.now head.now) (length records.now) head.now.front }
{
    let mut position = head.front;
    for _ in 0..records.len() {
        if !is_borne(records, head, position) {
            return position;
        }
        position += 1;
    }
    position
}

fn end_after(records: &[Record], head: &Option<StartRecord>) -> u64
    requires low { IfSome head.now (λ r. r.front < 2 ^ 61) }
    requires few { length records.now ≤ 67108864 }
    ensures { result ≡ end_after records.now head.now }
{
    match head {
        None => 0,
        Some(head) => least_missing(records, head),
    }
}

/// The least position from the head's front on that no record bears in a line of the head's mount, and 0
/// without a head.
pub fn end(alloc: Global, image: &Image) -> Result<u64, AllocError>
    requires { IsOfAcceptedShape image.now }
    ensures { IfOk result (λ p. p ≡ end image.now) }
{
    let all = records(alloc, image)?;
    let last = head(alloc, image)?;
    Ok(end_after(&all, &last))
}

fn has_row(rows: &[Row], r: &Record) -> bool
    ensures { result ≡ list_any (λ row. (row.line == r.now.line) && (row.seq == r.now.seq)
        && nat_lt r.now.position row.bound) rows.now }
{
    for row in rows {
        if row.line == r.line && row.seq == r.seq && r.position < row.bound {
            return true;
        }
    }
    false
}

fn counts(head: &StartRecord, end: u64, r: &Record) -> bool
    ensures { result ≡ counts head.now end r.now }
{
    (head.first_seq <= r.seq && r.position < end) || has_row(&head.rows, r)
}

fn counted_by(
    alloc: Global,
    records: &[Record],
    head: &StartRecord,
    end: u64,
) -> Result<Vec<Record>, AllocError>
    ensures { IfOk result (λ v. v.items ≡ filter (counts head.now end) records.now) }
{
    let mut kept = Vec::new(alloc);
    for r in records {
        if counts(head, end, r) {
            kept.push(r.copied(alloc)?)?;
        }
    }
    Ok(kept)
}

fn counted_after(
    alloc: Global,
    records: &[Record],
    head: &Option<StartRecord>,
) -> Result<Vec<Record>, AllocError>
    requires low { IfSome head.now (λ r. r.front < 2 ^ 61) }
    requires few { length records.now ≤ 67108864 }
    ensures { IfOk result (λ v. v.items ≡ counted_after records.now head.now) }
{
    match head {
        None => Ok(Vec::new(alloc)),
        Some(head) => counted_by(alloc, records, head, least_missing(records, head)),
    }
}

/// The records that count.
pub fn counted(alloc: Global, image: &Image) -> Result<Vec<Record>, AllocError>
    requires { IsOfAcceptedShape image.now }
    ensures { IfOk result (λ v. v.items ≡ counted image.now) }
{
    let all = records(alloc, image)?;
    let last = head(alloc, image)?;
    counted_after(alloc, &all, &last)
}

// Of two records of one position and sequence number that of the later line address is newer, and
// at one address that of the lesser line.
fn is_later_place(a: &Record, b: &Record) -> bool
    ensures { result ≡ (nat_lt a.now.at b.now.at
        || ((a.now.at == b.now.at) && nat_lt b.now.line a.now.line)) }
{
    a.at < b.at || (a.at == b.at && b.line < a.line)
}

fn is_newer(a: &Record, b: &Record) -> bool
    ensures { result ≡ is_newer a.now b.now }
{
    a.position < b.position
        || (a.position == b.position && (a.seq < b.seq || (a.seq == b.seq && is_later_place(a, b))))
}

fn is_of(lba: u64, other: Option<u64>) -> bool
    ensures { result ≡ is_of lba other }
{
    match other {
        None => false,
        Some(other) => other == lba,
    }
}

fn newer<'a>(best: Option<&'a Record>, r: &'a Record) -> &'a Record
    ensures { Some result.now ≡ newer (option_copied best.entry) r.now }
{
    match best {
        None => r,
        Some(best) => { if is_newer(best, r) { r } else { best } }
    }
}

fn winner(records: &[Record], lba: u64) -> Option<&Record>
    ensures { option_copied result ≡ winner records.now lba }
{
    let mut best: Option<&Record> = None;
    for r in records {
        if is_of(lba, r.lba) {
            best = Some(newer(best, r));
        }
    }
    best
}

#[tactic(auto, unfolding(pblk_model::specs::Bytes::zeros, crate::specs::Reading::sector_at))]
fn sector_at(
    alloc: Global,
    image: &Image,
    records: &[Record],
    lba: u64,
) -> Result<Vec<u8>, AllocError>
    requires { records.now ≡ counted image.now }
    ensures { IfOk result (λ v. v.items ≡ sector_at image.now lba) }
{
    match winner(records, lba) {
        None => vec![in alloc; 0; image.shape.sector as usize],
        Some(r) => Vec::from_slice(alloc, &r.sector),
    }
}

/// The user sectors, by address: of each the newest of the records that count, and zeros where there is none.
pub fn contents(alloc: Global, image: &Image) -> Result<Vec<Vec<u8>>, AllocError>
    requires { IsOfAcceptedShape image.now }
    ensures { IfOk result (λ v. map (λ s. s.items) v.items ≡ contents image.now) }
{
    let kept = counted(alloc, image)?;
    let mut sectors = Vec::new(alloc);
    for lba in 0..image.shape.capacity {
        let sector = sector_at(alloc, image, &kept, lba)?;
        sectors.push(sector)?;
    }
    Ok(sectors)
}
