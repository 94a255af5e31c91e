//! A block device over the parallel units of a drive (Bjørling, González, Bonnet, FAST 2017).
//!
//! `open` makes the parts of a mount, and `Opened::target` puts them together. A target is shared
//! by any number of threads: each has a session of its own, which is a port, and lanes and a
//! collector work beside them where there are some. `Target::close` ends it.
#![tactic(auto)]

mod closing;
mod drive_rows;
mod frames;
mod laws;
mod opened;
mod opening;
mod rooms;
mod session;
mod target;
mod vectors;

pub use block_port::{FlushErr, Front, Note, Place, Port, ReadErr, WriteErr};
pub use laws::{
    a_refused_flush_tells_the_end, a_refused_opening_is_of_a_legal_world,
    a_refused_write_has_no_room,
};
pub use opened::{Opened, open};
pub use opening::{OpenErr, Refused};
pub use pblk_engine::SettleErr;
pub use session::{Session, Ticket, TryWriteErr};
pub use target::Target;
