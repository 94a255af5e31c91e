//! What the threads of an engine share beside its heart.
ghost use Rattle.std.specs.Prelude.{◌≡◌};
ghost use Rattle.chronicle.specs.Prefixes.{AreLegalLogs, ArePrefixes, logs_of};

use crate::arm::Arm;
use crate::heart::Heart;
use crate::mount::Mount;
use crate::places::ArmPlaces;
use crate::worker::Worker;
use chronicle::Chronicle;
use numbered_locks::NumberedLocks;
use std::marker::Model;
use unit_port::Unit;
use write_ring::Ring;

/// What the threads of an engine share beside its heart: the write ring, the chronicle, and the
/// units, each with its author under a lock of its own. Who has the heart besides, be it under the
/// engine's lock or alone, does a piece of work by it.
pub(crate) struct Shared<M: Mount, U: Unit> {
    pub(crate) ring: Ring,
    pub(crate) chronicle: Chronicle,
    pub(crate) arms: NumberedLocks<Arm<M, U>, ArmPlaces<M, U>>,
}

// Contracts see nothing of it: all that changes is under locks.
impl<M: Mount, U: Unit> Model for Shared<M, U> {
    ghost use Rattle.std.specs.Prelude.{◌≡◌};
    ghost use Rattle.numbered_locks.specs.Handles.{places};
    ghost use Rattle.pblk_model.specs.Shape.{units};
    ghost use Rattle.pblk_engine.specs.Hearts.{IsRingOf};

    ghost Value = { Unit {0} };

    ghost view = { λ _. tt };

    ghost invariant = { λ e. (e.chronicle ≡ M.chronicle) × IsRingOf M.ring M.key e.ring
        × (places e.arms ≡ units M.past.image.shape) };
}

impl<M: Mount, U: Unit> Shared<M, U> {
    /// The heart learns what the worker knows, and then the worker knows all that the heart does.
    pub(crate) fn tell(&self, heart: &mut Heart<M>, worker: &mut Worker<M>)
        ensures heart { let old = heart.old in heart.new ≡ record old {
          author = record old.author { known = heart.new.author.known };
        } }
        ensures worker { let old = worker.old in worker.new
            ≡ record old { known = heart.new.author.known } }
        ensures own { logs_of heart.new.author.known 0 ≡ logs_of heart.old.author.known 0 }
        ensures heart_keeps { ArePrefixes heart.old.author.known heart.new.author.known }
        ensures keeps { ArePrefixes worker.old.known worker.new.known }
        ensures legal { AreLegalLogs M.past.image heart.new.author.known }
    {
        let known = worker.note(&self.chronicle);
        heart.meet(&self.chronicle, known);
        let told = heart.note(&self.chronicle);
        worker.meet(&self.chronicle, told);
    }
}
