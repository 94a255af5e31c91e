//! The checker of certificates.

ghost use Rattle.std.specs.Prelude.{◌≡◌, ◌↔◌, IsTrue, IfOk, IfErr};
ghost use Rattle.std.specs.Option.{option_map};
ghost use Rattle.pblk_model.specs.Contents.{contents, end, head};
ghost use Rattle.pblk_model.specs.ImageFile.{image_of};
ghost use Rattle.pblk_model.specs.Records.{records};
ghost use Rattle.pblk_meta.specs.Records.{start_numbers};
ghost use Rattle.ocssd_drive.specs.Drive.{stored};
ghost use Rattle.image_check.specs.Right.{AreBearers, AreBearersRight, IsInOrder, IsRight, Refuses, RefusesBearers, said_contents};
ghost use Rattle.pblk_world.specs.Tidy.{IsTidy};

use crate::bearers::{first_wrong, seen_of};
use crate::certificate::Certificate;
use crate::compare::first_other;
use crate::error::CheckErr;
use crate::survey::survey_of;
use crate::tidy::is_tidy;
use crate::winners::{lives_of, wins_of};
use ocssd_drive::Drive;
use pblk_meta::StartRecord;
use std::alloc::Global;

/// Checks a certificate against a drive: whether it is right of the drive's image (a rule of this
/// project; recovery is by scanning, Bjørling, González, Bonnet, FAST 2017). The answer is whether
/// the image is tidy. Nothing is trusted of who made the certificate.
///
/// All written blocks are looked at where they lie, and the drive stays as it is. The kinds of the
/// certificate rise by their first numbers, as those that `Certificate::read` and `certify` give.
///
/// Refused, in this order, each with the least number: `Line` where the row of a line isn't the
/// image's; `Head` where the head isn't; `Bearer` where a position from the head's front up to the
/// certificate's end has no record, or one that doesn't bear it in a line of the head's mount, or
/// where another position has one; `End` where the end is below the head's front, or a record of
/// the head's mount bears it, or it isn't 0 and there is no head; `Winner` where the place of a
/// sector isn't that of its newest counted record; `Live` where a line with a sequence number has
/// another number of winners, or one without has any; `Memory` where there isn't enough, of which
/// it takes some for each sector, each line and each bearer.
pub fn check(alloc: Global, drive: &Drive, certificate: &Certificate) -> Result<bool, CheckErr>
    requires { IsInOrder certificate.now }
    ensures right { IfOk result (λ tidy. IsRight (image_of (stored drive.now)) certificate.now) }
    // Each sector holds what the certificate's places say.
    ensures contents { let i = image_of (stored drive.now)
        in IfOk result (λ tidy. said_contents i certificate.now.wins ≡ contents i) }
    ensures tidy { IfOk result (λ tidy. IsTrue tidy ↔ IsTidy (image_of (stored drive.now))) }
    ensures refused { IfErr result (Refuses (image_of (stored drive.now)) certificate.now) }
    ensures complete { IsRight (image_of (stored drive.now)) certificate.now
        → IfErr result (λ e. e ≡ CheckErr.Memory) }
{
    check_all(alloc, drive, certificate)?;
    Ok(is_tidy(alloc, drive)?)
}

// Checks all that a certificate says.
fn check_all(alloc: Global, drive: &Drive, certificate: &Certificate) -> Result<(), CheckErr>
    requires { IsInOrder certificate.now }
    ensures right { IfOk result (λ done. IsRight (image_of (stored drive.now)) certificate.now) }
    ensures refused { IfErr result (Refuses (image_of (stored drive.now)) certificate.now) }
{
    let survey = survey_of(alloc, drive)?;
    if let Some(entry) = first_other(&survey.lines, certificate.lines.as_slice()) {
        return Err(CheckErr::Line(entry.line));
    }
    if !is_head(&survey.head, certificate.head) {
        return Err(CheckErr::Head);
    }
    check_bearers(alloc, drive, &survey.head, certificate)?;
    let wins = wins_of(alloc, drive, &survey.head, certificate.end)?;
    if let Some(win) = first_other(&wins, certificate.wins.as_slice()) {
        return Err(CheckErr::Winner(win.lba));
    }
    let lives = lives_of(alloc, &survey.lines, &wins)?;
    if let Some(live) = first_other(&lives, certificate.lives.as_slice()) {
        return Err(CheckErr::Live(live.line));
    }
    Ok(())
}

// Whether this is the head's line.
fn is_head(head: &Option<StartRecord>, line: Option<u32>) -> bool
    ensures { IsTrue result ↔ (line ≡ option_map (λ h. h.line) head.now) }
{
    match (head, line) {
        (None, None) => true,
        (Some(head), Some(line)) => head.line == line,
        (_, _) => false,
    }
}

// Checks the bearers and the end.
fn check_bearers(
    alloc: Global,
    drive: &Drive,
    newest: &Option<StartRecord>,
    certificate: &Certificate,
) -> Result<(), CheckErr>
    requires order { IsInOrder certificate.now }
    requires head { option_map start_numbers newest.now ≡ head (image_of (stored drive.now)) }
    ensures right { let i = image_of (stored drive.now)
        in IfOk result (λ done. AreBearersRight i certificate.now) }
    ensures bears { let i = image_of (stored drive.now)
        in IfOk result (λ done. AreBearers (head i) (records i) (end i) certificate.now.bears) }
    ensures refused { let i = image_of (stored drive.now)
        in IfErr result (RefusesBearers i certificate.now) }
{
    let bears = certificate.bears.as_slice();
    let end = certificate.end;
    let Some(head) = newest else {
        if let Some(bearer) = bears.first() {
            return Err(CheckErr::Bearer(bearer.position));
        }
        if end != 0 {
            return Err(CheckErr::End);
        }
        return Ok(());
    };
    let seen = seen_of(alloc, drive, head, bears, end)?;
    if let Some(position) = first_wrong(bears, &seen.bearers, head.front, end) {
        return Err(CheckErr::Bearer(position));
    }
    if end < head.front || seen.end {
        return Err(CheckErr::End);
    }
    Ok(())
}
