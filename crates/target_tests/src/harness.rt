//! Scripts that are run on a target over new units, and what is told of them.

ghost use Rattle.std.specs.Prelude.{◌≡◌, ◌≤◌, [], ◌∷◌, length, map, vec_capacity, IfOk};
ghost use Rattle.pblk_model.specs.Accepted.{IsAccepted};
ghost use Rattle.pblk_model.specs.Script.{NeverStuck, ScriptFits};
ghost use Rattle.block_target.specs.Opened.{CanOpen};
ghost use Rattle.block_target.specs.Targets.{Names, first_target, first_worker};

use block_target::{Opened, Refused, Session, SettleErr, Target, Ticket};
use ocssd_chunks::Chunk;
use ocssd_drive::MemoryUnit;
use pblk_engine::{Mount, Worker};
use pblk_model::{ChunkState, Mark, Script, Shape};
use run_script::read_script;
use run_threads::{Answer, Records, Trouble, Word, run};
use std::alloc::{AllocError, Global};
use std::marker::Brand;
use std::sync::Wait;
use std::thread::Threads;
use unit_port::Unit;

/// What is told of a script of one thread that is run on a target over new units, and of its close:
/// a line for each answer, one for the close, and one for each unit: how many events it had, and
/// the state and write pointer of each of its chunks that has blocks, with their marks where they
/// are asked for.
pub(crate) fn told<R: Threads + Wait + Sync>(
    rt: &R,
    alloc: Global,
    shape: &Shape,
    marks: bool,
    script: &str,
) -> Result<String, AllocError> {
    let script = match read_script(alloc, script.as_bytes(), shape.capacity) {
        Ok(script) => script,
        Err(_) => return String::from_str(alloc, "no script"),
    };
    if script.as_slice().len() != 1 {
        return String::from_str(alloc, "no script of one thread");
    }
    match shape.refusal() {
        Some(_) => String::from_str(alloc, "no shape"),
        None => told_of::<Brand, R>(rt, alloc, open(alloc, shape)?, &script, marks),
    }
}

// What is told of a script of one thread that is run on a target which was opened for one session,
// and of its close.
fn told_of<M: Mount + Send + Sync, R: Threads + Wait + Sync>(
    rt: &R,
    alloc: Global,
    opened: Opened<MemoryUnit>,
    script: &Script,
    marks: bool,
) -> Result<String, AllocError>
    requires named { Names M.chronicle M.past M.ring M.key M.handed M.wear opened }
    requires session { opened.sessions ≡ 1 }
    requires lanes { opened.lanes ≡ 0 }
    requires one { length script.now ≡ 1 }
    requires fits { ScriptFits M.past.image.shape.capacity script.now }
    requires flows { NeverStuck script.now }
{
    match opened.target::<M>(alloc) {
        Ok((target, tickets, workers)) => {
            let mut tickets = tickets;
            let ticket = tickets.pop().unwrap();
            let (ticket, answers) = run_session(rt, alloc, &target, ticket, script);
            let (units, settled) = close(rt, target, ticket, tickets, workers);
            let mut text = answers?;
            put_end(&mut text, &units, settled, marks)?;
            Ok(text)
        }
        Err(Refused { units: _, cause: _ }) => Err(AllocError),
    }
}

// The answers to a script of one thread that is run as a session of a target, a line each.
fn run_session<M: Mount + Send + Sync, R: Threads + Wait + Sync>(
    rt: &R,
    alloc: Global,
    target: &Target<M, MemoryUnit>,
    ticket: Ticket<M>,
    script: &Script,
) -> (Ticket<M>, Result<String, AllocError>)
    requires one { length script.now ≡ 1 }
    requires fits { ScriptFits M.past.image.shape.capacity script.now }
    requires flows { NeverStuck script.now }
    ensures { result.0.worker.number ≡ ticket.worker.number }
{
    match Vec::with_capacity(alloc, 1) {
        Ok(mut ports) => {
            ports.push(target.session(ticket)).unwrap();
            match run(rt, alloc, script, ports) {
                Ok((records, ports)) => (only_port(ports).end(), lines(alloc, &records)),
                Err((e, ports)) => (only_port(ports).end(), Err(e)),
            }
        }
        Err(e) => (ticket, Err(e)),
    }
}

// The port of a script of one thread.
fn only_port<'t, M: Mount>(mut ports: Vec<Session<'t, M, MemoryUnit>>) -> Session<'t, M, MemoryUnit>
    requires { length ports.items ≡ 1 }
    ensures { ports.entry.items ≡ result ∷ [] }
{
    let port = ports.pop().unwrap();
    ports.destroy_empty();
    port
}

/// New units on which a target is opened for one session.
///
/// Fails only where there isn't the memory.
pub(crate) fn open(alloc: Global, shape: &Shape) -> Result<Opened<MemoryUnit>, AllocError>
    requires { IsAccepted shape.now }
    ensures session { IfOk result (λ o. o.sessions ≡ 1) }
    ensures lanes { IfOk result (λ o. o.lanes ≡ 0) }
    ensures shape { IfOk result (λ o. o.past.image.shape ≡ shape.now) }
{
    match block_target::open(alloc, new_units(alloc, shape)?, shape, 1, 0) {
        Ok(opened) => Ok(opened),
        Err(Refused { units: _, cause: _ }) => Err(AllocError),
    }
}

/// Closes a target that had one session, whose ticket has come back and was taken out of `tickets`.
/// Gives its units, and how the close ended.
pub(crate) fn close<M: Mount, R: Wait>(
    rt: &R,
    target: Target<M, MemoryUnit>,
    ticket: Ticket<M>,
    tickets: Vec<Ticket<M>>,
    workers: Vec<Worker<M>>,
) -> (Vec<MemoryUnit>, Result<(), SettleErr>)
    requires target { target ≡ first_target M.key 1 1 }
    requires number { ticket.worker.number ≡ 0 }
    requires empty { tickets.items ≡ [] }
    requires room { 1 ≤ vec_capacity tickets }
    requires workers { workers.items ≡ first_worker M.past 1 ∷ [] }
{
    let mut tickets = tickets;
    tickets.push(ticket).unwrap();
    target.close(rt, tickets, workers)
}

// The units of a drive of this shape on which nothing was written.
fn new_units(alloc: Global, shape: &Shape) -> Result<Vec<MemoryUnit>, AllocError>
    requires { IsAccepted shape.now }
    ensures { IfOk result (λ made. CanOpen shape.now (map (λ u. u.unit) made.items)) }
{
    let mut made = Vec::new(alloc);
    for _unit in 0..shape.units() {
        made.push(MemoryUnit::new(alloc, shape)?)?;
    }
    Ok(made)
}

/// The answers of records, a line each.
pub(crate) fn lines(alloc: Global, records: &Records) -> Result<String, AllocError> {
    let mut text = String::new(alloc);
    for answers in records.threads.as_slice() {
        for answer in answers.as_slice() {
            line(&mut text, answer)?;
            text.push('\n')?;
        }
    }
    Ok(text)
}

fn line(text: &mut String, answer: &Answer) -> Result<(), AllocError> {
    match answer {
        Answer::Placed(place) => write!(text, "placed {} {}", place.first, place.count),
        Answer::Words { front, words } => {
            write!(text, "words {} {}", front.users, front.position)?;
            for word in words.as_slice() {
                match word {
                    Word::Tag(tag) => write!(text, " {tag}")?,
                    Word::Mixed => write!(text, " mixed")?,
                }
            }
            Ok(())
        }
        Answer::Synced(front) => write!(text, "synced {} {}", front.users, front.position),
        Answer::Done => write!(text, "done"),
        Answer::Range => write!(text, "range"),
        Answer::Refused(Trouble::Drive { unit, event }) => write!(text, "drive {unit} {event}"),
        Answer::Refused(Trouble::Worn { wanted, have }) => write!(text, "worn {wanted} {have}"),
    }
}

// How a close ended, and what is on the units.
fn put_end(
    text: &mut String,
    units: &[MemoryUnit],
    settled: Result<(), SettleErr>,
    marks: bool,
) -> Result<(), AllocError> {
    match settled {
        Ok(()) => writeln!(text, "closed")?,
        Err(SettleErr::Worn { wanted, have }) => writeln!(text, "worn {wanted} {have}")?,
        Err(SettleErr::Drive { unit, event }) => writeln!(text, "drive {unit} {event}")?,
    }
    for unit in units {
        write!(text, "events {}", unit.events())?;
        for chunk in 0..unit.shape().chunks {
            put_chunk(text, unit.chunk(chunk), marks)?;
        }
        text.push('\n')?;
    }
    Ok(())
}

fn put_chunk(text: &mut String, chunk: &Chunk, marks: bool) -> Result<(), AllocError> {
    let (state, pointer) = chunk.state();
    match state {
        ChunkState::Free => (),
        ChunkState::Open => write!(text, " open {pointer}")?,
        ChunkState::Closed => write!(text, " closed {pointer}")?,
        ChunkState::Offline => write!(text, " offline")?,
    }
    if marks {
        for block in 0..pointer {
            if let Some((sector, mark)) = chunk.written(block) {
                put_block(text, sector, mark)?;
            }
        }
    }
    Ok(())
}

// A sector's lba, the first byte of its tag and its position; a record's sequence number; or a Pad
// block, which has zeros.
fn put_block(text: &mut String, sector: &[u8], mark: Mark) -> Result<(), AllocError> {
    let Mark { lba, position } = mark;
    match sector.first() {
        Some(_) if lba == Mark::META_LBA => write!(text, ", meta {position}"),
        Some(0) if lba == Mark::PAD_LBA && position == 0 && is_zeros(sector) => text.push_str(
            ", pad",
        ),
        Some(tag) => write!(text, ", {lba} of {tag} at {position}"),
        None => text.push_str(", none"),
    }
}

fn is_zeros(sector: &[u8]) -> bool {
    sector.iter().all(|byte| *byte == 0)
}
