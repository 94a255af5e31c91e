//! The standard output. No proof says what it takes.
ghost use Rattle.std.specs.Prelude.{◌≡◌};

use crate::fault_count::FaultCount;
use crate::{Sink, SinkErr};

/// The standard output. Each piece is written at once, with no buffer. It tells nothing of what it
/// has taken, and each error raises its count of faults.
#[derive(Drop)]
pub struct RealOut<R> {
    runtime: R,
    faults: FaultCount,
}

impl<R: Print> RealOut<R> {
    ghost use Rattle.pblk_outside.specs.Real.{real_out_view};

    /// The output of this runtime, with no fault counted.
    pub fn new(runtime: R) -> Self
        ensures { (real_out_view result).faults ≡ 0 }
    {
        RealOut {
            runtime,
            faults: FaultCount::new(),
        }
    }
}

impl<R: Print> Sink for RealOut<R> {
    ghost use Rattle.pblk_outside.specs.Real.{real_out_view};

    ghost view = { real_out_view };

    fn write(&mut self, bytes: &[u8]) -> Result<(), SinkErr> {
        match self.runtime.write_all(bytes) {
            Ok(()) => Ok(()),
            Err(_) => {
                self.faults.rise();
                Err(SinkErr::Failed)
            }
        }
    }
}
