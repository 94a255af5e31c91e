//! How far the threads of a script come.

ghost use Rattle.std.specs.Prelude.{◌≡◌, ◌<◌, ◌≤◌, ◌++◌, ◌∷◌, [], length, List, map, true, false, None};
ghost use Rattle.std.specs.List.{flat_map, sum_by};
ghost use Rattle.pblk_model.specs.ScriptText.{Said, Commands, awaits_unposted, unposted, stuck_at, least_standing};
ghost use Rattle.run_script.specs.Heard.{ArePosted};
ghost use Rattle.run_script.specs.Turns.{lifted, lesser, line_of, AreLeft, Passes, RunsOn, TakesTurn};

use crate::names::Names;
use crate::thread::{Numbered, Thread};
use pblk_model::Command;

/// How many threads a script may have.
pub(crate) const MOST_THREADS: usize = 16;

/// The least line that awaits a name that nobody posts.
pub(crate) fn unposted(names: &Names, threads: &[Thread]) -> Option<u32>
    ensures { (all : List Said) → ArePosted names.now all
        → result ≡ unposted all (flat_map lifted threads.now) }
{
    for thread in threads {
        let found = unposted_in(names, thread.as_slice());
        if found.is_some() {
            return found;
        }
    }
    None
}

/// The least line of a thread that awaits a name that nobody posts.
pub(crate) fn unposted_in(names: &Names, thread: &[Numbered]) -> Option<u32>
    ensures { (all : List Said) → ArePosted names.now all
        → result ≡ unposted all (lifted thread.now) }
{
    for numbered in thread {
        if is_unposted(names, &numbered.1) {
            return Some(numbered.0);
        }
    }
    None
}

// Whether a command awaits a name that isn't among these.
fn is_unposted(names: &Names, command: &Command) -> bool
    ensures { (all : List Said) → ArePosted names.now all
        → result ≡ awaits_unposted all (Commands command.now) }
{
    match command {
        Command::Await(name) => !names.contains(name.as_str()),
        Command::Write { .. } | Command::Read { .. } | Command::Flush | Command::Post(_) => false,
    }
}

/// The least line at which a thread is stuck, if one is: one of those that ended, or the last. The
/// names are those that anybody posts, and those that the threads come to post are taken out.
///
/// It takes no memory: names are only taken out, and what is left of each thread has its place.
pub(crate) fn stuck_among<'a>(
    names: &mut Names,
    ended: &'a [Thread],
    last: &'a [Numbered],
) -> Option<u32>
    ensures { (all : List Said) → ArePosted names.old all → length ended.now < 16
        → unposted all (flat_map lifted (ended.now ++ last.now ∷ [])) ≡ None
        → result ≡ stuck_at (ended.now ++ last.now ∷ []) }
{
    let mut left = [last; MOST_THREADS];
    let count = ended.len().min(MOST_THREADS - 1);
    for index in 0..count {
        left[index] = ended[index].as_slice();
    }
    stuck_at(names, &mut left[..count + 1])
}

// The least line at which a thread is stuck, if one is: the threads are run on, one after another
// and again and again, until nothing moves.
fn stuck_at(names: &mut Names, left: &mut [&[Numbered]]) -> Option<u32>
    ensures { (all : List Said) → AreLeft all names.old []
        → unposted all (flat_map lifted (map (λ x. x.now) left.old)) ≡ None
        → result ≡ stuck_at (map (λ x. x.now) left.old) }
{
    loop {
        if !turn(names, left) {
            return least_standing(left);
        }
    }
}

// Runs each thread on, in their order, to what is left of it. Answers whether one of them moved.
fn turn(names: &mut Names, left: &mut [&[Numbered]]) -> bool
    ensures rest { TakesTurn names.old names.new
        (map (λ x. x.now) left.old) (map (λ x. x.now) left.new) }
    ensures moves { result ≡ true → sum_by length (map (λ x. x.now) left.new)
        < sum_by length (map (λ x. x.now) left.old) }
    ensures stands { result ≡ false → map length (map (λ x. x.now) left.new)
        ≡ map length (map (λ x. x.now) left.old) }
{
    let mut moved = false;
    for index in 0..left.len() {
        let thread = left[index];
        let rest = run_on(names, thread);
        if rest.len() < thread.len() {
            moved = true;
        }
        left[index] = rest;
    }
    moved
}

// Runs a thread on until it comes to an await of a name that is still to be posted. Gives what is
// left of it.
fn run_on<'a>(names: &mut Names, thread: &'a [Numbered]) -> &'a [Numbered]
    ensures rest { RunsOn names.old names.new thread.now result.now }
    ensures length { length result.now ≤ length thread.now }
{
    let mut left = thread;
    while let Some((numbered, rest)) = left.split_first() {
        if !passes(names, &numbered.1) {
            break;
        }
        left = rest;
    }
    left
}

// Whether a thread goes past a command. The name of a post is taken out of those that are still to
// be posted.
fn passes(names: &mut Names, command: &Command) -> bool
    ensures { Passes names.old names.new command.now result }
{
    match command {
        Command::Post(posted) => {
            names.remove(posted.as_str());
            true
        }
        Command::Await(awaited) => !names.contains(awaited.as_str()),
        Command::Write { .. } | Command::Read { .. } | Command::Flush => true,
    }
}

// The least line at which a thread stands.
fn least_standing(left: &[&[Numbered]]) -> Option<u32>
    ensures { result ≡ least_standing (map (λ x. x.now) left.now) }
{
    let mut least = None;
    for thread in left {
        least = lesser(least, line_of(thread));
    }
    least
}

// The line at which a thread stands, unless it is at its end.
fn line_of(left: &[Numbered]) -> Option<u32>
    ensures { result ≡ line_of left.now }
{
    match left {
        [numbered, ..] => Some(numbered.0),
        [] => None,
    }
}

// The lesser of two lines, where they are.
fn lesser(one: Option<u32>, other: Option<u32>) -> Option<u32>
    ensures { result ≡ lesser one other }
{
    match (one, other) {
        (Some(one), Some(other)) => Some(one.min(other)),
        (Some(line), None) | (None, Some(line)) => Some(line),
        (None, None) => None,
    }
}
