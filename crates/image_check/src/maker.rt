//! The maker of certificates.

ghost use Rattle.std.specs.Prelude.{◌≡◌, ◌++◌, ◌^◌, ◌<◌, [], ◌∷◌, List, length, IfOk, IfSome};
ghost use Rattle.std.specs.Option.{option_map};
ghost use Rattle.pblk_model.specs.Contents.{end, head};
ghost use Rattle.pblk_model.specs.ImageFile.{image_of};
ghost use Rattle.pblk_model.specs.Records.{Record as Borne, records};
ghost use Rattle.pblk_meta.specs.Records.{start_numbers};
ghost use Rattle.ocssd_drive.specs.Drive.{stored};
ghost use Rattle.image_check.specs.Makes.{AreFirst, bearer_behind, end_behind, leading, made_bearers};
ghost use Rattle.image_check.specs.Right.{AreBearers, IsInOrder, IsRight};
ghost use Rattle.pblk_model.specs.Tables.{IsTable};

use crate::certificate::{Bearer, Certificate};
use crate::line::Line;
use crate::record::Record;
use crate::survey::survey_of;
use crate::table::none_of;
use crate::winners::{lives_of, wins_of};
use ocssd_drive::Drive;
use pblk_meta::StartRecord;
use pblk_model::Items;
use std::alloc::{AllocError, Global};

/// The certificate of what the image of a drive holds. Where several records bear a position it
/// names the one of the least line, and of that line the one of the least address.
///
/// All written blocks are looked at where they lie, and the drive stays as it is. Fails only for
/// want of memory, of which it takes a few dozen bytes for a block.
pub fn certify(alloc: Global, drive: &Drive) -> Result<Certificate, AllocError>
    ensures right { IfOk result (IsRight (image_of (stored drive.now))) }
    ensures order { IfOk result IsInOrder }
    ensures first { IfOk result (λ c. AreFirst (image_of (stored drive.now)) c.bears) }
{
    let survey = survey_of(alloc, drive)?;
    let bears = all_bearers(alloc, drive, &survey.head)?;
    let end = end_behind(&survey.head, bears.len() as u64);
    let wins = wins_of(alloc, drive, &survey.head, end)?;
    let lives = lives_of(alloc, &survey.lines, &wins)?;
    Ok(Certificate {
        head: line_of(&survey.head),
        end,
        lines: Items::from_vec(survey.lines),
        bears: Items::from_vec(bears),
        wins: Items::from_vec(wins),
        lives: Items::from_vec(lives),
    })
}

// The bearers of the positions from the head's front up to the end: none without a head.
fn all_bearers(
    alloc: Global,
    drive: &Drive,
    newest: &Option<StartRecord>,
) -> Result<Vec<Bearer>, AllocError>
    requires { option_map start_numbers newest.now ≡ head (image_of (stored drive.now)) }
    ensures bears { let i = image_of (stored drive.now)
        in IfOk result (λ v. AreBearers (head i) (records i) (end i) v.items) }
    ensures first { IfOk result (λ v. AreFirst (image_of (stored drive.now)) v.items) }
    ensures end { IfOk result (λ v. end_behind newest.now (length v.items)
        ≡ end (image_of (stored drive.now))) }
{
    match newest {
        None => Ok(Vec::new(alloc)),
        Some(head) => bearers_of(alloc, drive, head),
    }
}

// The position so many behind the head's front, and 0 without a head.
fn end_behind(newest: &Option<StartRecord>, count: u64) -> u64
    requires front { IfSome newest.now (λ h. h.front < 2 ^ 61) }
    requires count { count < 2 ^ 61 }
    ensures { result ≡ end_behind newest.now count }
{
    match newest {
        None => 0,
        Some(head) => head.front + count,
    }
}

// The line of the head.
fn line_of(newest: &Option<StartRecord>) -> Option<u32>
    ensures { result ≡ option_map (λ h. h.line) newest.now }
{
    match newest {
        None => None,
        Some(head) => Some(head.line),
    }
}

// The bearers of the positions from the head's front up to the first that has none.
fn bearers_of(alloc: Global, drive: &Drive, newest: &StartRecord) -> Result<Vec<Bearer>, AllocError>
    ensures { IfOk result (λ v. v.items
        ≡ made_bearers (start_numbers newest.now) (records (image_of (stored drive.now)))) }
{
    let first = first_of(alloc, drive, newest)?;
    leading(alloc, &first)
}

// For each position from the head's front on the first record that bears it, as many as there are
// records.
fn first_of(
    alloc: Global,
    drive: &Drive,
    newest: &StartRecord,
) -> Result<Vec<Option<Bearer>>, AllocError>
    ensures { let rs = records (image_of (stored drive.now)) in IfOk result (λ v.
        IsTable (length rs) (bearer_behind (start_numbers newest.now) rs) v.items) }
{
    let count = records_in(alloc, drive)?;
    let mut first = none_of(alloc, count)?;
    for number in 0..drive.shape().chunks {
        let line = Line::new(drive, number);
        let records = line.records(alloc)?;
        note_all(&mut first, newest, &records);
    }
    Ok(first)
}

// How many records there are.
fn records_in(alloc: Global, drive: &Drive) -> Result<usize, AllocError>
    ensures { IfOk result (λ count. count ≡ length (records (image_of (stored drive.now)))) }
{
    let mut count: usize = 0;
    for number in 0..drive.shape().chunks {
        let records = Line::new(drive, number).records(alloc)?;
        count += records.as_slice().len();
    }
    Ok(count)
}

// Some records more.
fn note_all(first: &mut [Option<Bearer>], newest: &StartRecord, more: &[Record<'_>])
    ensures { let h = start_numbers newest.now in (rs : List Borne)
        → IsTable (length first.old) (bearer_behind h rs) first.old
        → IsTable (length first.old) (bearer_behind h (rs ++ more.now)) first.new }
{
    for record in more {
        note(first, newest, record);
    }
}

// A record more: it is noted at the place of its position, where none is.
fn note(first: &mut [Option<Bearer>], newest: &StartRecord, record: &Record<'_>)
    ensures { let h = start_numbers newest.now in (rs : List Borne)
        → IsTable (length first.old) (bearer_behind h rs) first.old
        → IsTable (length first.old) (bearer_behind h (rs ++ record.now ∷ [])) first.new }
{
    if record.seq < newest.first_seq || record.position < newest.front {
        return;
    }
    let place = (record.position - newest.front) as usize;
    if place < first.len() && first[place].is_none() {
        first[place] = Some(Bearer {
            position: record.position,
            line: record.line,
            at: record.at,
        });
    }
}

// What stands before the first that is missing.
fn leading(alloc: Global, first: &[Option<Bearer>]) -> Result<Vec<Bearer>, AllocError>
    ensures { IfOk result (λ v. v.items ≡ leading first.now) }
{
    let mut bears = Vec::new(alloc);
    for bearer in first {
        match bearer {
            None => return Ok(bears),
            Some(bearer) => bears.push(*bearer)?,
        }
    }
    Ok(bears)
}
