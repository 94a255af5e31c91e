//! The modelled drive in memory, whose units log every command, fail by plan and stop by a fuse.
//!
//! The drive is a part that needs no target. `ocssd_geometry` reads a 4096-byte geometry, `drive_image` makes
//! the blank drive of it (or says which rule it breaks), and `ocssd_chunks` has a chunk with every command of
//! the chunk table:
//!
//! ```
//! let geometry = Geometry::read(&page)?;
//! let settings = Settings { sector: 512, capacity: 64, ring: 64 };
//! let mut drive = blank(alloc, &geometry, &settings)?;
//! let fuse = Fuse { unit: 1, nth: 1, cut: 1 };
//! drive.arm(alloc, &[], Some(fuse))?;
//! let Drive { mut units, .. } = drive;
//! let unit = &mut units[1];
//! if unit.takes_program(0, 0, &sectors, &marks) {
//!     unit.program(0, 0, &sectors, &marks)    // Err(UnitErr::Stopped): of four blocks two have landed
//! }
//! unit.state(0)                               // (ChunkState::Open, 2)
//! ```
//!
//! Once a unit was stopped each of its commands answers Stopped.
//! That the units of other threads find the drive stopped is shown by a test. Whether a command may be given, a
//! caller tests by `takes_program`, `takes_fetch` and `takes_reset`, or knows. The crates of tests have this
//! program whole, proved without a proof file (`alone`).
//!
//! A unit does a command in three steps:
//!
//! 1. Its journal says what befalls the command. Where the drive was armed with a fuse it loads the drive's stop
//!    word, and compares the fuse's number with its count of programs and resets. Then it compares the next plan
//!    of that kind with the count of that kind. Plans of a kind lie in a vector with the next one last, so none
//!    is searched.
//! 2. The chunk does the command, or as much of it as the fault lets through. The command's bytes are copied
//!    once, into the chunk or out of it. Nothing is allocated.
//! 3. The journal sets the stop word where the fuse fell, counts the command, and adds the event to the log by
//!    one store. Contracts alone see the log's content.
//!
//! The units of an armed drive may be held by different threads. They share the stop word and nothing else.
#![tactic(auto)]

mod arm;
mod disarm;
mod drive;
mod fault;
mod journal;
mod memory_unit;
mod shown;
mod stop_word;
mod tally;

pub use drive::Drive;
pub use memory_unit::MemoryUnit;
pub use ocssd_chunks::{Chunk, ChunkErr, ChunkState, Got, Mark, Shape};
pub use ocssd_geometry::{Address, Geometry, GeometryErr};
pub use pblk_model::ShapeErr;
pub use unit_port::{CommandKind, FaultPlan, Fuse, Unit, UnitErr};
