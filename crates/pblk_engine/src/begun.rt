//! How arms and workers begin and end.
ghost use Rattle.std.specs.Prelude.{◌≡◌, ◌<◌, [], ◌∷◌, suc, None, Some, slice_get};
ghost use Rattle.pblk_model.specs.Shape.{units};
ghost use Rattle.pblk_world.specs.AtRest.{AreResetsNoted};
ghost use Rattle.chronicle.specs.Handles.{first_author, note_of};
ghost use Rattle.chronicle.specs.Prefixes.{logs_of};
ghost use Rattle.unit_port.specs.Unit.{ModelUnit};
ghost use Rattle.world_laws.specs.EarlyLogs.{AreEarly};
ghost use Rattle.pblk_engine.specs.Arms.{IsArm, IsUnitOf, arm_view};
ghost use Rattle.pblk_engine.specs.Mounts.{IsMounted};
ghost use Rattle.pblk_engine.specs.Notes.{IsNoteOf};
ghost use Rattle.pblk_engine.specs.Workers.{IsWorkerOf, worker_view};

use crate::arm::Arm;
use crate::made::Made;
use crate::mount::Mount;
use crate::worker::Worker;
use chronicle::{Author, Token};
use pblk_core::Stripe;
use std::marker::PhantomData;
use unit_port::{Log, Unit};

impl<M: Mount, U: Unit> Arm<M, U> {
    /// The arm of a unit as the mount begins. The author is fresh from the chronicle. The unit is
    /// as it was handed in, grown by the logs so far, in which no unit knew of the mount's
    /// beginning.
    pub fn new(number: u32, author: Author, unit: U) -> Arm<M, U>
        requires mounted { IsMounted M.past M.key M.handed M.wear }
        requires early { AreEarly (logs_of M.past.logs) }
        requires number { number < units M.past.image.shape }
        requires author { author ≡ first_author M.chronicle M.past (suc number) }
        requires unit { (handed : ModelUnit) × (slice_get M.handed number ≡ Some handed)
            × IsArm M.past.image (logs_of M.past.logs) number handed (U.model unit) }
        requires wear { slice_get M.wear number ≡ Some (U.wear unit) }
        ensures { result ≡ arm_view number M.past.logs (U.model unit) }
    {
        Arm {
            number,
            author,
            unit,
            ended: 0,
            of: PhantomData,
        }
    }

    /// Ends the arm, and hands back the unit and the author of its log.
    pub fn end(self) -> (U, Author)
        ensures unit { U.model result.0 ≡ self.unit }
        ensures known { result.1.known ≡ self.known }
        ensures is_unit { IsUnitOf M.chronicle M.past M.handed M.wear result.1 self.number
            (U.model result.0) (U.wear result.0) }
        ensures noted { AreResetsNoted (logs_of result.1.known) }
        ensures makers { result.1.makers ≡ [] }
        ensures spare { result.1.spare ≡ None }
        ensures mounted { IsMounted M.past M.key M.handed M.wear }
    {
        let Arm {
            number: _,
            author,
            unit,
            ended: _,
            of: _,
        } = self;
        (unit, author)
    }
}

impl<M: Mount> Worker<M> {
    /// A worker that has made no command, and asked for no pads. It knows what the token knows,
    /// which numbers its commands and no others.
    pub fn new(number: u64, token: Token, stripe: Stripe, made: Log<Made>) -> Worker<M>
        requires mounted { IsMounted M.past M.key M.handed M.wear }
        requires token { IsNoteOf M.chronicle M.past (note_of token) }
        requires makers { token.makers ≡ record { worker = number; made = 0 } ∷ [] }
        requires spare { token.spare ≡ None }
        requires stripe { stripe.shape ≡ M.past.image.shape }
        requires made { made ≡ [] }
        ensures { result ≡ worker_view number token.known stripe [] 0 }
    {
        Worker {
            number,
            token,
            stripe,
            made,
            asked: 0,
            of: PhantomData,
        }
    }

    /// Ends the worker, and hands back its token, its stripe, and the commands that it made.
    pub fn end(self) -> (Token, Stripe, Log<Made>)
        ensures known { result.0.known ≡ self.known }
        ensures stripe { result.1 ≡ self.stripe }
        ensures made { result.2 ≡ self.made }
        ensures is_worker { IsWorkerOf M.chronicle M.past result.0 self.number result.1 result.2 }
        ensures mounted { IsMounted M.past M.key M.handed M.wear }
    {
        let Worker {
            number: _,
            token,
            stripe,
            made,
            asked: _,
            of: _,
        } = self;
        (token, stripe, made)
    }
}
