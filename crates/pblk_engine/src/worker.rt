//! Who makes commands of units.
ghost use Rattle.std.specs.Prelude.{◌≡◌};
ghost use Rattle.chronicle.specs.Prefixes.{AreLegalLogs, ArePrefixes, longer_of};
ghost use Rattle.pblk_engine.specs.Mounts.{IsMounted};
ghost use Rattle.pblk_engine.specs.Notes.{IsNoteOf};

use crate::made::Made;
use crate::mount::Mount;
use chronicle::{Chronicle, Note, Token};
use pblk_core::Stripe;
use std::marker::{Model, PhantomData};
use unit_port::Log;

/// A worker of a mount: its number, what it knows of the logs, the stripe that it has a unit
/// program, the commands of units that it made, and up to which position it asked for pads.
#[derive(Drop)]
pub struct Worker<M: Mount> {
    pub(crate) number: u64,
    pub(crate) token: Token,
    pub(crate) stripe: Stripe,
    pub(crate) made: Log<Made>,
    // up to which position it asked for pads
    pub(crate) asked: u64,
    pub(crate) of: PhantomData<M>,
}

// Contracts see its number, what it knows, the stripe, the commands, and what it asked for.
impl<M: Mount> Model for Worker<M> {
    ghost use Rattle.pblk_engine.specs.Mounts.{IsMounted};
    ghost use Rattle.pblk_engine.specs.Workers.{IsWorkerOf, WorkerView, worker_view};

    ghost Value = { WorkerView };

    ghost view = { λ w. worker_view w.number w.token.known w.stripe w.made w.asked };

    ghost invariant = { λ w. IsMounted M.past M.key M.handed M.wear
        × IsWorkerOf M.chronicle M.past w.token w.number w.stripe w.made };
}

impl<M: Mount> Worker<M> {
    /// What a worker knows is legal, and goes on from what the mount began with.
    pub fn stands(&self)
        ensures mounted { IsMounted M.past M.key M.handed M.wear }
        ensures legal { AreLegalLogs M.past.image self.now.known }
        ensures begun { ArePrefixes M.past.logs self.now.known }
    {
        let _ = &self.number;
    }

    /// The stripe that it has a unit program. It is of the drive's shape.
    pub(crate) fn stripe(&self) -> &Stripe
        ensures stripe { result.now ≡ self.now.stripe }
        ensures shape { self.now.stripe.shape ≡ M.past.image.shape }
    {
        &self.stripe
    }

    /// A note of all that the worker knows.
    pub(crate) fn note(&mut self, chronicle: &Chronicle) -> Note
        requires of { chronicle.now ≡ M.chronicle }
        ensures same { self.new ≡ self.old }
        ensures note { IsNoteOf M.chronicle M.past result }
        ensures known { result.known ≡ self.old.known }
    {
        self.token.note(chronicle)
    }

    /// Takes a note in. Of each log the worker knows the longer prefix from then on.
    pub(crate) fn meet(&mut self, chronicle: &Chronicle, note: Note)
        requires of { chronicle.now ≡ M.chronicle }
        requires note { IsNoteOf M.chronicle M.past note }
        ensures met { let old = self.old in self.new
            ≡ record old { known = longer_of old.known note.known } }
        ensures keeps { ArePrefixes self.old.known self.new.known }
        ensures learns { ArePrefixes note.known self.new.known }
    {
        self.token.meet(chronicle, note);
    }
}
