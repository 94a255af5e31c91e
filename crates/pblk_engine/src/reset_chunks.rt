//! Resets of chunks under both locks, and how the engine learns of them.
ghost use Rattle.std.specs.Prelude.{◌≡◌, ◌≢◌, ◌<◌, ◌↔◌, ℕ, Err, IsOk, IsTrue};
ghost use Rattle.chronicle.specs.Prefixes.{AreLegalLogs, ArePrefixes, logs_of};
ghost use Rattle.pblk_core.specs.Resets.{IsToReset};
ghost use Rattle.pblk_core.specs.declared.work.Work.TheVariants as works;
ghost use Rattle.pblk_model.specs.UnitLog.{UnitOutcome};
ghost use Rattle.unit_port.specs.Unit.{TellsDone};
ghost use Rattle.pblk_engine.specs.ChunkResets.{HasReset, TellsReset};
ghost use Rattle.pblk_engine.specs.Hearts.{IsRingOf};
ghost use Rattle.pblk_engine.specs.Notes.{IsNoteOf};
ghost use Rattle.pblk_engine.specs.Resets.{IsJustReset};
ghost use Rattle.pblk_engine.specs.WorkSince.{HasWorkSince};

use crate::arm::Arm;
use crate::heart::Heart;
use crate::mount::Mount;
use crate::resetting::Resetting;
use crate::worker::Worker;
use chronicle::{Chronicle, Note};
use unit_port::{Unit, UnitErr};
use write_ring::Ring;

// The heart takes in what the arm and the worker know, and gives a note of all that it knows.
fn meet_both<M: Mount, U: Unit>(
    chronicle: &Chronicle,
    heart: &mut Heart<M>,
    arm: &mut Arm<M, U>,
    worker: &mut Worker<M>,
) -> Note
    requires of { chronicle.now ≡ M.chronicle }
    ensures heart { let old = heart.old in heart.new ≡ record old {
      author = record old.author { known = heart.new.author.known };
    } }
    ensures heart_keeps { ArePrefixes heart.old.author.known heart.new.author.known }
    ensures same_arm { arm.new ≡ arm.old }
    ensures same_worker { worker.new ≡ worker.old }
    ensures note { IsNoteOf M.chronicle M.past result }
    ensures known { result.known ≡ heart.new.author.known }
    ensures told { ArePrefixes arm.old.known result.known }
    ensures worker_told { ArePrefixes worker.old.known result.known }
    ensures to_reset { (line unit : ℕ) → heart.old.work ≡ works.Reset line unit
        → IsToReset M.past.image (logs_of result.known) line unit }
{
    let told = worker.note(chronicle);
    heart.meet(chronicle, told);
    let told = arm.note(chronicle);
    heart.meet(chronicle, told);
    heart.note(chronicle)
}

// Whether a reset was stopped.
fn was_stopped(answer: Result<(), UnitErr>) -> bool
    ensures { IsTrue result ↔ (answer ≡ Err UnitErr.Stopped) }
{
    match answer {
        Err(UnitErr::Stopped) => true,
        Ok(()) | Err(UnitErr::Failed) => false,
    }
}

// The heart takes in what the unit's author knows since the reset, and notes that, unless it was
// stopped.
fn take_reset<M: Mount, U: Unit>(
    chronicle: &Chronicle,
    ring: &Ring,
    heart: &mut Heart<M>,
    note: Note,
    unit: &Resetting<M, U>,
    number: u32,
    line: u32,
    answer: Result<(), UnitErr>,
)
    requires of { chronicle.now ≡ M.chronicle }
    requires ring { IsRingOf M.ring M.key ring.now }
    requires number { number ≡ unit.now.number }
    requires line { line < M.past.image.shape.chunks }
    requires named { heart.old.work ≡ works.Reset line number }
    requires legal { AreLegalLogs M.past.image heart.old.author.known }
    requires reset { IsJustReset heart.old.author.known unit.now line answer }
    requires note_of { note.chronicle ≡ M.chronicle }
    requires note_known { note.known ≡ unit.now.known }
    requires note_legal { AreLegalLogs M.past.image note.known }
    requires note_stopped { answer ≡ Err UnitErr.Stopped
        → IsNoteOf M.chronicle M.past note }
    ensures learns { ArePrefixes unit.now.known heart.new.author.known }
    ensures worked { answer ≢ Err UnitErr.Stopped
        → HasWorkSince heart.old.author.known heart.new.author.known }
    ensures same_pass { heart.new.intake.pass ≡ heart.old.intake.pass }
    ensures same_taken { heart.new.intake.intake.taken ≡ heart.old.intake.intake.taken }
{
    if was_stopped(answer) {
        // the engine still has the chunk as one that is to be reset
        heart.meet(chronicle, note);
    } else {
        // where it failed it is over, too: the chunk is Offline
        let state = unit.state(line);
        heart.reset_done(chronicle, ring, note, line, number, state);
    }
}

// What is told of a reset: `Err` has its number, where it was stopped.
fn told_of(answer: Result<(), UnitErr>, event: u64) -> Result<(), u64>
    ensures told { (outcome : UnitOutcome) → TellsDone answer outcome
        → TellsReset event result outcome }
    ensures kept { IsOk result → answer ≢ Err UnitErr.Stopped }
{
    match answer {
        Err(UnitErr::Stopped) => Err(event),
        Ok(()) | Err(UnitErr::Failed) => Ok(()),
    }
}

/// Has a unit reset its chunk of the line that the core names, and the engine note that, unless the
/// reset was stopped. It needs both locks. `Err` has the number of a reset that was stopped in the
/// unit's log, from 1.
///
/// The worker knows all that the heart and the arm knew, and the reset.
pub(crate) fn reset_chunk<M: Mount, U: Unit>(
    chronicle: &Chronicle,
    ring: &Ring,
    heart: &mut Heart<M>,
    arm: Arm<M, U>,
    worker: &mut Worker<M>,
    unit: u32,
    line: u32,
) -> (Arm<M, U>, Result<(), u64>)
    requires of { chronicle.now ≡ M.chronicle }
    requires ring { IsRingOf M.ring M.key ring.now }
    requires unit { arm.number ≡ unit }
    requires named { heart.old.work ≡ works.Reset line unit }
    ensures number { result.0.number ≡ arm.number }
    ensures worker { HasReset M.handed unit line worker.old worker.new result.1 }
    ensures worker_stripe { worker.new.stripe ≡ worker.old.stripe }
    ensures learns { ArePrefixes heart.old.author.known worker.new.known }
    ensures worked { IsOk result.1
        → HasWorkSince heart.old.author.known worker.new.known }
    ensures same_pass { heart.new.intake.pass ≡ heart.old.intake.pass }
    ensures same_taken { heart.new.intake.intake.taken ≡ heart.old.intake.intake.taken }
{
    let mut arm = arm;
    let note = meet_both(chronicle, heart, &mut arm, worker);
    let (resetting, note, answer) = arm.reset(
        chronicle,
        note,
        &mut worker.token,
        worker.number,
        &worker.made,
        line,
    );
    let event = resetting.events();
    take_reset(chronicle, ring, heart, note, &resetting, unit, line, answer);
    let noted = heart.note(chronicle);
    let arm = resetting.end(chronicle, noted, &mut worker.token, &mut worker.made);
    (arm, told_of(answer, event))
}
