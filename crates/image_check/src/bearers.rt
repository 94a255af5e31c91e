//! The records that bear the positions of the head's mount.

ghost use Rattle.std.specs.Prelude.{◌≡◌, ◌++◌, [], ◌∷◌, ◌<◌, ◌^◌, ◌==◌, ◌&&◌, List, length, IfOk, IfSome, IfNone};
ghost use Rattle.pblk_model.specs.Contents.{is_borne};
ghost use Rattle.pblk_model.specs.ImageFile.{image_of};
ghost use Rattle.pblk_model.specs.Records.{Record as Borne, records};
ghost use Rattle.pblk_meta.specs.Records.{start_numbers};
ghost use Rattle.ocssd_drive.specs.Drive.{stored};
ghost use Rattle.image_check.specs.Bearers.{IsHit, IsMissed, IsSeen, first_wrong, seen_at};
ghost use Rattle.pblk_model.specs.Tables.{IsTable};

use crate::certificate::Bearer;
use crate::line::Line;
use crate::record::Record;
use ocssd_drive::Drive;
use pblk_meta::StartRecord;
use std::alloc::{AllocError, Global};

/// Which of some bearers were seen to be right, each at the place that its position has behind the
/// head's front, and whether a record of the head's mount bears the end.
#[derive(Debug, Drop)]
pub(crate) struct Seen {
    pub bearers: Vec<bool>,
    pub end: bool,
}

/// Looks at all records of a drive.
pub(crate) fn seen_of(
    alloc: Global,
    drive: &Drive,
    newest: &StartRecord,
    bears: &[Bearer],
    last: u64,
) -> Result<Seen, AllocError>
    ensures { IfOk result (IsSeen (start_numbers newest.now) bears.now last
        (records (image_of (stored drive.now)))) }
{
    let mut seen = Seen {
        bearers: vec![in alloc; false; bears.len()]?,
        end: false,
    };
    for number in 0..drive.shape().chunks {
        let line = Line::new(drive, number);
        let records = line.records(alloc)?;
        seen.note_all(newest, bears, last, &records);
    }
    Ok(seen)
}

impl Seen {
    // Some records more.
    fn note_all(&mut self, newest: &StartRecord, bears: &[Bearer], last: u64, more: &[Record<'_>])
        ensures { (rs : List Borne) → IsSeen (start_numbers newest.now) bears.now last rs self.old
            → IsSeen (start_numbers newest.now) bears.now last (rs ++ more.now) self.new }
    {
        for record in more {
            self.note(newest, bears, last, record);
        }
    }

    // A record more.
    fn note(&mut self, newest: &StartRecord, bears: &[Bearer], last: u64, record: &Record<'_>)
        ensures { (rs : List Borne) → IsSeen (start_numbers newest.now) bears.now last rs self.old
            → IsSeen (start_numbers newest.now) bears.now last (rs ++ record.now ∷ []) self.new }
    {
        self.note_bearer(newest, bears, record);
        self.note_end(newest, last, record);
    }

    // Notes the bearer that is this record, if one is.
    fn note_bearer(&mut self, newest: &StartRecord, bears: &[Bearer], record: &Record<'_>)
        ensures bearers { let h = start_numbers newest.now in (rs : List Borne)
            → IsTable (length bears.now) (seen_at h bears.now rs) self.old.bearers.items
            → IsTable (length bears.now) (seen_at h bears.now (rs ++ record.now ∷ []))
            self.new.bearers.items }
        ensures end { self.new.end ≡ self.old.end }
    {
        let Some(place) = place_of(newest, bears, record) else {
            return;
        };
        if place < self.bearers.len() {
            self.bearers[place] = true;
        }
    }

    // Notes whether the end is borne.
    fn note_end(&mut self, newest: &StartRecord, last: u64, record: &Record<'_>)
        ensures end { let h = start_numbers newest.now in (rs : List Borne)
            → self.old.end ≡ is_borne rs h last
            → self.new.end ≡ is_borne (rs ++ record.now ∷ []) h last }
        ensures bearers { self.new.bearers ≡ self.old.bearers }
    {
        if newest.first_seq <= record.seq && record.position == last {
            self.end = true;
        }
    }
}

// The place of the bearer that is this record: it stands as far behind the first one as its
// position is above the head's front, and the record's line is of the head's mount.
fn place_of(newest: &StartRecord, bears: &[Bearer], record: &Record<'_>) -> Option<usize>
    ensures some { IfSome result (IsHit (start_numbers newest.now) bears.now record.now) }
    ensures none { IfNone result (IsMissed (start_numbers newest.now) bears.now record.now) }
{
    let place = record.position.checked_sub(newest.front)? as usize;
    let bearer = bears.get(place)?;
    if newest.first_seq <= record.seq && names(bearer, record) {
        Some(place)
    } else {
        None
    }
}

// Whether a bearer is this record.
fn names(bearer: &Bearer, record: &Record<'_>) -> bool
    ensures { result ≡ ((record.now.position == bearer.now.position)
        && (record.now.line == bearer.now.line) && (record.now.at == bearer.now.at)) }
{
    record.position == bearer.position && record.line == bearer.line && record.at == bearer.at
}

/// The least position whose bearer isn't right: from the front up to the end each has one, and no
/// other. `seen` says which were seen to be right.
pub(crate) fn first_wrong(bears: &[Bearer], seen: &[bool], front: u64, last: u64) -> Option<u64>
    requires front { front < 2 ^ 61 }
    requires seen { length seen.now ≡ length bears.now }
    ensures { result ≡ first_wrong front last bears.now seen.now }
{
    for place in 0..bears.len() {
        let position = front + place as u64;
        let said = bears[place].position;
        if said < position || last <= position {
            return Some(said);
        }
        if position < said || !seen[place] {
            return Some(position);
        }
    }
    let position = front + bears.len() as u64;
    if position < last {
        Some(position)
    } else {
        None
    }
}
