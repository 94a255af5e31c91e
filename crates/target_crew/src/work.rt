//! What threads do with the sessions of a target.
ghost use Rattle.std.specs.Prelude.{◌≡◌};

use block_target::Session;
use pblk_engine::Mount;
use std::sync::Wait;
use unit_port::Unit;

/// What the thread of one session does.
pub trait Work<U: Unit> {
    /// Does it, through the session of its thread.
    fn work<M: Mount, R: Wait>(&mut self, rt: &R, session: &mut Session<'_, M, U>)
        ensures { session.new.worker.number ≡ session.old.worker.number };
}
