//! Loads: scripts of four threads that write, read and flush at random, made of a number.
#![tactic(auto)]

ghost use Rattle.std.specs.Prelude.{◌≡◌, ◌<◌, ◌≤◌, IfOk, length};
ghost use Rattle.pblk_model.specs.Script.{NeverStuck, ScriptFits};
ghost use Rattle.load_maker.specs.Loads.{drawn, load, load_command, seed, state, thread_load};

use pblk_model::{Command, Commands, Script};
use std::alloc::{AllocError, Global};

// The numbers are those of Knuth's MMIX.
const MULTIPLIER: u64 = 6_364_136_223_846_793_005;

const INCREMENT: u64 = 1_442_695_040_888_963_407;

const THREADS: u64 = 4;

const COMMANDS_IN_A_ROUND: u32 = 16;

const WRITES_IN_A_ROUND: u32 = 8;

const SECTORS: u32 = 8;

/// Makes the load of this number, of so many rounds, for a target of this capacity in sectors.
///
/// It has four threads. In each round a thread writes eight times and reads seven times, eight
/// sectors each, and then flushes. It writes in a quarter of its own, and reads anywhere. Which
/// sectors these are the number decides, by a linear congruential generator of 64 bits (Knuth, The
/// Art of Computer Programming, volume 2, section 3.2.1). No two writes have one tag. Nobody waits
/// for a post.
///
/// Fails only where there isn't the memory.
pub fn make(alloc: Global, number: u64, rounds: u32, capacity: u64) -> Result<Script, AllocError>
    requires some { 1 ≤ rounds }
    requires few { rounds ≤ 3125 }
    requires room { 32 ≤ capacity }
    ensures made { IfOk result (λ script. script ≡ load number rounds capacity) }
    ensures fits { IfOk result (λ script. ScriptFits capacity script) }
    ensures flows { IfOk result (λ script. NeverStuck script) }
{
    let mut script = Script::new(alloc);
    for thread in 0..THREADS {
        script.push(make_thread(alloc, number, rounds, capacity, thread)?)?;
    }
    Ok(script)
}

// The commands of one thread.
fn make_thread(
    alloc: Global,
    number: u64,
    rounds: u32,
    capacity: u64,
    thread: u64,
) -> Result<Commands, AllocError>
    requires few { rounds ≤ 3125 }
    requires room { 32 ≤ capacity }
    requires thread { thread < 4 }
    ensures { IfOk result (λ commands. commands ≡ thread_load number rounds capacity thread) }
{
    let mut commands = Commands::new(alloc);
    let mut x = number.wrapping_add(thread);
    for index in 0..COMMANDS_IN_A_ROUND * rounds {
        x = x.wrapping_mul(MULTIPLIER).wrapping_add(INCREMENT);
        commands.push(make_command(capacity, thread, index, x >> 33))?;
    }
    Ok(commands)
}

// The command of this number, by what was drawn for it.
fn make_command(capacity: u64, thread: u64, index: u32, draw: u64) -> Command
    requires few { index < 50000 }
    requires room { 32 ≤ capacity }
    requires thread { thread < 4 }
    ensures { result ≡ load_command capacity thread index draw }
{
    let place = index % COMMANDS_IN_A_ROUND;
    if place == COMMANDS_IN_A_ROUND - 1 {
        return Command::Flush;
    }
    if place % 2 == 1 {
        return Command::Read {
            lba: draw % (capacity - 7),
            count: SECTORS,
        };
    }
    let quarter = capacity / THREADS;
    let written = index / COMMANDS_IN_A_ROUND * WRITES_IN_A_ROUND + place / 2 + 1;
    Command::Write {
        lba: thread * quarter + draw % (quarter - 7),
        count: SECTORS,
        tag: (thread << 32) + u64::from(written),
    }
}
