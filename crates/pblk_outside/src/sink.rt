//! A sink for output.
ghost use Rattle.std.specs.Prelude.{◌≡◌, ◌^◌, ◌<◌, ◌≤◌, IsTrue, ◌++◌, OnOk, OnErr};
ghost use Rattle.pblk_outside.specs.Faults.{HasRisen};
ghost use Rattle.pblk_outside.specs.Sink.{SinkView, TakesPrefix};

use thiserror::Error;

/// Why a piece was not taken whole.
#[derive(Clone, Copy, Debug, PartialEq, Eq, Error)]
pub enum SinkErr {
    /// The sink failed, and its count of faults has risen.
    #[error("the output could not be written")]
    Failed,
}

/// Takes output, piece by piece.
///
/// Contracts see whether it tells what it has taken, the bytes taken so far, and how often it has
/// failed: a 64-bit count that never falls.
pub trait Sink {
    ghost view: { Self → SinkView };

    /// Takes the whole piece.
    ///
    /// The only error is `Failed`: the count of faults has risen, and a prefix of the piece was
    /// taken, which may be empty or the whole of it.
    fn write(&mut self, bytes: &[u8]) -> Result<(), SinkErr>
        ensures took { OnOk result (IsTrue (view self.old).told →
            (view self.new).taken ≡ (view self.old).taken ++ bytes.now) }
        ensures took_prefix { OnErr result (IsTrue (view self.old).told →
            TakesPrefix bytes.now (view self.old).taken (view self.new).taken) }
        ensures failed { OnErr result (HasRisen (view self.old).faults (view self.new).faults) }

        ensures same_told { (view self.new).told ≡ (view self.old).told }
        ensures calm { OnOk result ((view self.new).faults ≡ (view self.old).faults) }
        ensures never_falls { (view self.old).faults ≤ (view self.new).faults }
        ensures bounded { (view self.new).faults < 2 ^ 64 };
}
