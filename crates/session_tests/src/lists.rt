//! What a drive holds, as a session of a new mount reads it.
ghost use Rattle.std.specs.Prelude.{◌≡◌};

use crate::deeds::{MIXED, SECTOR, word_of};
use crate::drives::again;
use block_target::{Port, Session};
use ocssd_drive::MemoryUnit;
use pblk_engine::Mount;
use pblk_model::Shape;
use std::alloc::{AllocError, Global};
use std::sync::Wait;
use std::test::Fail;
use std::thread::Threads;
use target_crew::{Work, armed, serve};
use unit_port::Unit;

// A session that reads all sectors.
#[derive(Drop)]
struct Lister {
    words: Vec<u64>,
}

impl Lister {
    fn new(alloc: Global, capacity: u64) -> Result<Lister, AllocError> {
        Ok(Lister {
            words: vec![in alloc; MIXED; capacity as usize]?,
        })
    }
}

impl<U: Unit> Work<U> for Lister {
    fn work<M: Mount, R: Wait>(&mut self, rt: &R, session: &mut Session<'_, M, U>)
        ensures { session.new.worker.number ≡ session.old.worker.number }
    {
        if session.sector() as usize != SECTOR {
            return;
        }
        let mut bytes = [0; SECTOR];
        for lba in 0..self.words.len() {
            if session.read(rt, lba as u64, &mut bytes).is_ok()
                && let Some(word) = self.words.get_mut(lba)
            {
                *word = word_of(&bytes);
            }
        }
    }
}

/// The words of all sectors of a drive. Its units are armed with nothing first.
pub(crate) fn list<R: Threads + Wait + Sync>(
    rt: &R,
    alloc: Global,
    shape: &Shape,
    units: Vec<MemoryUnit>,
) -> Result<Vec<u64>, Fail> {
    let drive = again(shape, units)?;
    let (shape, units) = armed(alloc, drive, &[], None)?;
    let works = Vec::from_array(alloc, [Lister::new(alloc, shape.capacity)?]);
    let Ok(works) = works else {
        return Err(AllocError.into());
    };
    let closed = serve(rt, alloc, units, &shape, works)?;
    closed.settled?;
    match closed.works.into_iter().next() {
        Some(lister) => Ok(lister.words),
        None => Err(Fail::new("no session")),
    }
}
