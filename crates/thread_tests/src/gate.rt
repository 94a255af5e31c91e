//! A port whose writes wait for those of another port.
ghost use Rattle.std.specs.Prelude.{◌≡◌};

use block_port::{FlushErr, Front, Note, Place, Port, ReadErr, WriteErr};
use crossbeam_utils::Backoff;
use plain_port::PlainPort;
use std::sync::Wait;
use std::sync::atomic::{AtomicBool, Ordering};

// So often a write looks for the other one.
const PATIENCE: u32 = 1_000_000;

/// Which of two ports began to write.
#[derive(Drop)]
pub(crate) struct Gate {
    first: AtomicBool,
    second: AtomicBool,
}

impl Gate {
    /// None began.
    pub(crate) fn new() -> Gate {
        Gate {
            first: AtomicBool::new(false),
            second: AtomicBool::new(false),
        }
    }

    // A port begins. Tells whether the other one does too, before long.
    fn meets(&self, is_first: bool) -> bool {
        let (mine, other) = if is_first {
            (&self.first, &self.second)
        } else {
            (&self.second, &self.first)
        };
        mine.store(true, Ordering::SeqCst);
        let backoff = Backoff::new();
        for _ in 0..PATIENCE {
            if other.load(Ordering::SeqCst) {
                return true;
            }
            backoff.snooze();
        }
        false
    }
}

/// A plain port, each of whose writes waits until one of the other port has begun.
#[derive(Drop)]
pub(crate) struct GatedPort<'g> {
    port: PlainPort,
    gate: &'g Gate,
    is_first: bool,
    waited_in_vain: bool,
}

impl<'g> GatedPort<'g> {
    /// The first or the second port at a gate.
    pub(crate) fn new(port: PlainPort, gate: &'g Gate, is_first: bool) -> GatedPort<'g>
        ensures { result.port ≡ port }
    {
        GatedPort {
            port,
            gate,
            is_first,
            waited_in_vain: false,
        }
    }

    /// Whether a write waited, and the other port never began.
    pub(crate) fn waited_in_vain(&self) -> bool {
        self.waited_in_vain
    }
}

impl Port for GatedPort<'_> {
    ghost model = { λ g. g.port };

    fn write<R: Wait>(&mut self, rt: &R, lba: u64, bytes: &[u8]) -> Result<Place, WriteErr> {
        if !self.gate.meets(self.is_first) {
            self.waited_in_vain = true;
        }
        self.port.write(rt, lba, bytes)
    }

    fn read<R: Wait>(&mut self, rt: &R, lba: u64, out: &mut [u8]) -> Result<Front, ReadErr> {
        self.port.read(rt, lba, out)
    }

    fn flush<R: Wait>(&mut self, rt: &R) -> Result<Front, FlushErr> {
        self.port.flush(rt)
    }

    fn tell(&self) -> Note {
        self.port.tell()
    }

    fn hear(&mut self, note: Note) {
        self.port.hear(note);
    }

    fn sector(&self) -> u32 {
        self.port.sector()
    }
}
