//! How the engine notes resets.

ghost use Rattle.std.specs.Prelude.{◌≡◌, ◌≤◌, suc, length};
ghost use Rattle.std.specs.List.{Contains};
ghost use Rattle.pblk_world.specs.EngineLog.{named_events};
ghost use Rattle.pblk_world.specs.Orders.{NoneToFree};
ghost use Rattle.chronicle.specs.Prefixes.{ArePrefixes, logs_of, longer_of};
ghost use Rattle.pblk_core.specs.Keeping.{KeepsStripes};
ghost use Rattle.pblk_core.specs.Named.{named, pad_of};
ghost use Rattle.pblk_core.specs.declared.work.Work.TheVariants as works;
ghost use Rattle.pblk_engine.specs.Asks.{IsRaisedByVictims};
ghost use Rattle.pblk_engine.specs.Hearts.{HasDecided, IsBeating, IsRingOf, parts};
ghost use Rattle.pblk_engine.specs.ResetNotes.{IsResetSince};
ghost use Rattle.pblk_engine.specs.WorkSince.{HasWorkSince};

use crate::engine_author::EngineAuthor;
use crate::heart::Heart;
use crate::mount::Mount;
use crate::settling::settle;
use crate::shown::decide;
use chronicle::{Chronicle, Note};
use pblk_core::Core;
use pblk_model::ChunkState;
use std::marker::Brand;
use write_ring::{Intake, Ring};

// Takes in that note, and notes the reset in the engine's log and in the core.
fn note_reset(
    core: &mut Core,
    author: &mut EngineAuthor,
    chronicle: &Chronicle,
    intake: &Intake,
    note: Note,
    line: u32,
    unit: u32,
    state: ChunkState,
)
    requires of { author.old.chronicle ≡ chronicle.now }
    requires note_of { note.chronicle ≡ chronicle.now }
    requires beating { IsBeating (parts core.old author.old intake.now.seat.me.0) }
    requires none { NoneToFree author.old.past.image (logs_of author.old.known) }
    requires named { named core.old ≡ works.Reset line unit }
    requires reset { IsResetSince author.old.past.image author.old.known note.known line unit
        state }
    ensures beating { IsBeating (parts core.new author.new intake.now.seat.me.0) }
    ensures decided { HasDecided
        (record author.old { known = longer_of author.old.known note.known }) author.new }
    ensures noted { Contains (named_events (logs_of author.new.known 0) unit)
        (length (logs_of author.old.known (suc unit))) }
    ensures worked { HasWorkSince author.old.known author.new.known }
    ensures keeps { ArePrefixes author.old.known author.new.known }
    ensures learns { ArePrefixes note.known author.new.known }
    ensures kept { KeepsStripes core.old core.new }
    ensures pads { IsRaisedByVictims author.new.past.image (logs_of author.new.known)
        (pad_of core.old) (pad_of core.new) }
{
    author.meet(chronicle, note);
    decide::<u32, Brand>(author, chronicle, &unit);
    core.reset_done(line, unit, state);
}

impl<M: Mount> Heart<M> {
    /// Takes in what a unit's author knew once it had noted the reset that the core names, and
    /// notes that the reset was done or has failed. It wasn't stopped, and left its chunk in this
    /// state.
    ///
    /// It needs both locks. The reset was made since the heart gave its last note, and the unit's
    /// author knew nothing else that the heart doesn't know.
    pub(crate) fn reset_done(
        &mut self,
        chronicle: &Chronicle,
        ring: &Ring,
        note: Note,
        line: u32,
        unit: u32,
        state: ChunkState,
    )
        requires of { chronicle.now ≡ M.chronicle }
        requires ring { IsRingOf M.ring M.key ring.now }
        requires note_of { note.chronicle ≡ M.chronicle }
        requires named { self.old.work ≡ works.Reset line unit }
        requires reset { IsResetSince M.past.image self.old.author.known note.known line unit
            state }
        ensures decided { let old = self.old.author in HasDecided
            (record old { known = longer_of old.known note.known }) self.new.author }
        ensures noted { Contains (named_events (logs_of self.new.author.known 0) unit)
            (length (logs_of self.old.author.known (suc unit))) }
        ensures worked { HasWorkSince self.old.author.known self.new.author.known }
        ensures keeps { ArePrefixes self.old.author.known self.new.author.known }
        ensures learns { ArePrefixes note.known self.new.author.known }
        ensures same_copying { self.new.copying ≡ self.old.copying }
        ensures same_pass { self.new.intake.pass ≡ self.old.intake.pass }
        ensures same_taken { self.new.intake.intake.taken ≡ self.old.intake.intake.taken }
        ensures granted { self.old.intake.intake.granted ≤ self.new.intake.intake.granted }
        ensures pad { self.old.pad ≤ self.new.pad }
        ensures pads { IsRaisedByVictims M.past.image (logs_of self.new.author.known) self.old.pad
            self.new.pad }
        ensures asked { self.new.asked ≡ self.old.asked }
        ensures same_sector { self.new.sector ≡ self.old.sector }
    {
        note_reset(
            &mut self.core,
            &mut self.author,
            chronicle,
            &self.intake,
            note,
            line,
            unit,
            state,
        );
        settle(
            &mut self.core,
            &mut self.author,
            chronicle,
            ring,
            &mut self.intake,
        );
    }
}
