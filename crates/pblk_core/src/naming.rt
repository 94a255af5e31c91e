//! What a core names as its next work.

ghost use Rattle.std.specs.Prelude.{ℕ, ◌≡◌, ◌+◌, ◌<◌, ◌^◌};
ghost use Rattle.pblk_model.specs.Image.{Image};
ghost use Rattle.pblk_world.specs.World.{World, log_of};
ghost use Rattle.pblk_world.specs.LegalMounts.{IsLegalMount};
ghost use Rattle.pblk_core.specs.Collecting.{Collects, IsCollecting};
ghost use Rattle.pblk_core.specs.Copies.{is_copying};
ghost use Rattle.pblk_core.specs.Named.{asks_line, is_busy, may_open, named, named_beside, pad_of, why, work_of};
ghost use Rattle.pblk_core.specs.Resets.{IsToReset};
ghost use Rattle.pblk_core.specs.Stands.{Stands};
ghost use Rattle.pblk_core.specs.declared.work.Work.TheVariants as works;

use crate::target_core::Core;
use crate::work::{Why, Work};
use pblk_model::NUMBER_LIMIT;

impl Core {
    /// The first of these that can be done (this project's rule "What comes next" in
    /// docs/TARGET.md):
    ///
    /// - the reset of a used chunk of a line that was given up: of the least such line, and there
    ///   of the least unit, whether or not that unit has a command in flight;
    /// - a program: of a stripe whose program was stopped before any other;
    /// - the opening of a line, where an entry waits for an address and another line may be opened;
    /// - a copy, where `copy_ready` names one.
    ///
    /// Else nothing, with the reason.
    pub fn next_work(&self) -> Work
        requires { IsCollecting self.now }
        ensures named { result ≡ named self.now }
        ensures work { (i : Image) (w : World) → IsLegalMount i w
            → (stands : Stands i (log_of w) self.now) → Collects i (log_of w) self.now
            → result ≡ work_of i (log_of w) (pad_of self.now) stands.again (is_copying self.now) }
        ensures reset { (i : Image) (w : World) (line unit : ℕ) → Stands i (log_of w) self.now
            → result ≡ works.Reset line unit → IsToReset i (log_of w) line unit }
    {
        match self.resets.first() {
            Some(chunk) => Work::Reset {
                line: chunk.line,
                unit: chunk.unit,
            },
            None => self.work_beside(),
        }
    }

    // What comes next where no chunk is to be reset.
    fn work_beside(&self) -> Work
        requires collecting { IsCollecting self.now }
        ensures { result ≡ named_beside self.now }
    {
        if self.placer.next_stripe(0).is_some() {
            return Work::Program;
        }
        let asks_line = self.asks_line();
        let has_free = self.lines.least_free().is_some();
        if asks_line && has_free && self.may_open() {
            return Work::Open;
        }
        if self.may_copy() {
            return Work::Copy;
        }
        Work::Nothing(why(self.is_busy(), asks_line && !has_free))
    }

    // Whether an entry waits for an address: no open line has one left.
    fn asks_line(&self) -> bool
        requires collecting { IsCollecting self.now }
        ensures { result ≡ asks_line self.now }
    {
        0 < self.placer.waiting() && self.left == 0
    }

    // Whether a stripe or a copy is under way.
    fn is_busy(&self) -> bool
        ensures { result ≡ is_busy self.now }
    {
        0 < self.under_way || self.collection.under_way
    }

    // Whether another line may be opened: at most one has a stripe left, and the numbers of its
    // start record fit.
    fn may_open(&self) -> bool
        ensures { result ≡ may_open self.now }
    {
        self.open.len() < 2
            && self.start.seq < NUMBER_LIMIT
            && self.window.synced().position < NUMBER_LIMIT
    }
}

// Why nothing can be done.
fn why(in_flight: bool, lacks_line: bool) -> Why
    ensures { result ≡ why in_flight lacks_line }
{
    if in_flight {
        Why::Busy
    } else if lacks_line {
        Why::NoLine
    } else {
        Why::Rest
    }
}
