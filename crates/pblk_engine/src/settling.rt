//! What follows each step of a heart: lines are freed, frames given back and positions granted,
//! until nothing of these is left to be done.

ghost use Rattle.std.specs.Prelude.{◌≡◌, ◌≤◌, false};
ghost use Rattle.pblk_world.specs.Orders.{NoneToFree};
ghost use Rattle.pblk_world.specs.Space.{freed};
ghost use Rattle.chronicle.specs.Prefixes.{AreLegalLogs, logs_of};
ghost use Rattle.write_window.specs.Window.{is_readable_at};
ghost use Rattle.write_ring.specs.Handles.{IsIntakeOf};
ghost use Rattle.pblk_core.specs.Named.{pad_of};
ghost use Rattle.pblk_engine.specs.Asks.{IsRaisedByVictims};
ghost use Rattle.pblk_engine.specs.Answers.{HasFreed};
ghost use Rattle.pblk_engine.specs.Hearts.{HasDecided, IsBeating, IsSettled, KeepsWork, parts};

use crate::engine_author::EngineAuthor;
use crate::shown::Freed;
use chronicle::Chronicle;
use pblk_core::Core;
use write_ring::{Intake, Ring};

/// Frees all lines that may be freed, one after another.
pub(crate) fn free_lines(
    core: &mut Core,
    author: &mut EngineAuthor,
    chronicle: &Chronicle,
    intake: &Intake,
)
    requires of { author.old.chronicle ≡ chronicle.now }
    requires beating { IsBeating (parts core.old author.old intake.now.seat.me.0) }
    ensures beating { IsBeating (parts core.new author.new intake.now.seat.me.0) }
    ensures none { NoneToFree author.new.past.image (logs_of author.new.known) }
    ensures decided { HasDecided author.old author.new }
    ensures freed { HasFreed (logs_of author.old.known 0) (logs_of author.new.known 0) }
    ensures window { core.new.window ≡ core.old.window }
    ensures kept { KeepsWork core.old core.new }
    ensures pads { IsRaisedByVictims author.new.past.image (logs_of author.new.known)
        (pad_of core.old) (pad_of core.new) }
{
    while let Some(line) = core.free_line() {
        author.append(chronicle, &Freed { line });
    }
}

/// Gives back the frames of all entries that can be read on the drive.
pub(crate) fn give_back(core: &mut Core, author: &EngineAuthor, ring: &Ring, intake: &mut Intake)
    requires ring { IsIntakeOf ring.now intake.old }
    requires beating { IsBeating (parts core.old author.now intake.old.seat.me.0) }
    ensures ring { IsIntakeOf ring.now intake.new }
    ensures beating { IsBeating (parts core.new author.now intake.new.seat.me.0) }
    ensures drained { core.new.window.freed ≡ freed author.now.past.image.shape
        (logs_of author.now.known 0) }
    ensures unread { is_readable_at core.new.window core.new.window.freed ≡ false }
    ensures pass { intake.new.seat.me.0.pass ≡ intake.old.seat.me.0.pass }
    ensures taken { intake.new.seat.me.0.intake.taken ≡ intake.old.seat.me.0.intake.taken }
    ensures took { intake.new.seat.me.0.intake.took ≡ intake.old.seat.me.0.intake.took }
    ensures claimed { intake.new.seat.me.0.found.claimed ≡ intake.old.seat.me.0.found.claimed }
    ensures granted { intake.new.seat.me.0.intake.granted ≡ intake.old.seat.me.0.intake.granted }
    ensures rest { core.new ≡ record core.old { window = core.new.window } }
{
    while let Some(frame) = core.pop_free() {
        ring.free(intake, frame);
    }
}

/// Grants users what there is room for, where that is more than was granted.
pub(crate) fn grant(core: &Core, author: &EngineAuthor, ring: &Ring, intake: &mut Intake)
    requires ring { IsIntakeOf ring.now intake.old }
    requires beating { IsBeating (parts core.now author.now intake.old.seat.me.0) }
    requires none { NoneToFree author.now.past.image (logs_of author.now.known) }
    requires drained { core.now.window.freed ≡ freed author.now.past.image.shape
        (logs_of author.now.known 0) }
    requires unread { is_readable_at core.now.window core.now.window.freed ≡ false }
    ensures ring { IsIntakeOf ring.now intake.new }
    ensures settled { IsSettled author.now.past.image (logs_of author.now.known) core.now
        intake.new.seat.me.0 }
    ensures pass { intake.new.seat.me.0.pass ≡ intake.old.seat.me.0.pass }
    ensures taken { intake.new.seat.me.0.intake.taken ≡ intake.old.seat.me.0.intake.taken }
    ensures took { intake.new.seat.me.0.intake.took ≡ intake.old.seat.me.0.intake.took }
    ensures claimed { intake.new.seat.me.0.found.claimed ≡ intake.old.seat.me.0.found.claimed }
    ensures granted { intake.old.seat.me.0.intake.granted ≤ intake.new.seat.me.0.intake.granted }
{
    let room = core.grant();
    let granted = ring.granted(intake);
    if granted < room {
        ring.grant(intake, room);
    }
}

/// Frees lines, gives frames back and grants positions.
pub(crate) fn settle(
    core: &mut Core,
    author: &mut EngineAuthor,
    chronicle: &Chronicle,
    ring: &Ring,
    intake: &mut Intake,
)
    requires of { author.old.chronicle ≡ chronicle.now }
    requires ring { IsIntakeOf ring.now intake.old }
    requires beating { IsBeating (parts core.old author.old intake.old.seat.me.0) }
    ensures ring { IsIntakeOf ring.now intake.new }
    ensures legal { AreLegalLogs author.new.past.image author.new.known }
    ensures settled { IsSettled author.new.past.image (logs_of author.new.known) core.new
        intake.new.seat.me.0 }
    ensures decided { HasDecided author.old author.new }
    ensures freed { HasFreed (logs_of author.old.known 0) (logs_of author.new.known 0) }
    ensures kept { KeepsWork core.old core.new }
    ensures pads { IsRaisedByVictims author.new.past.image (logs_of author.new.known)
        (pad_of core.old) (pad_of core.new) }
    ensures pass { intake.new.seat.me.0.pass ≡ intake.old.seat.me.0.pass }
    ensures taken { intake.new.seat.me.0.intake.taken ≡ intake.old.seat.me.0.intake.taken }
    ensures took { intake.new.seat.me.0.intake.took ≡ intake.old.seat.me.0.intake.took }
    ensures claimed { intake.new.seat.me.0.found.claimed ≡ intake.old.seat.me.0.found.claimed }
    ensures granted { intake.old.seat.me.0.intake.granted ≤ intake.new.seat.me.0.intake.granted }
{
    free_lines(core, author, chronicle, intake);
    give_back(core, author, ring, intake);
    grant(core, author, ring, intake);
}
