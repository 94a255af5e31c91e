//! The entries at the front of the window that have landed.
ghost use Rattle.std.specs.Prelude.{◌≡◌, ◌+◌, ◌<◌, ◌≤◌, ◌^◌, length, drop};
ghost use Rattle.write_window.specs.Entries.{landed_first, users_in};

use crate::held::{Held, user_count};
use std::collections::VecDeque;

/// How many entries at the front have landed, and how many of them are users' writes.
#[derive(Clone, Copy, Debug, Drop)]
pub(crate) struct Run {
    pub(crate) count: usize,
    pub(crate) users: u64,
}

/// The run that has these entries at its beginning, and then those that have landed behind them.
pub(crate) fn extended(entries: &VecDeque<Held>, from: Run) -> Run
    requires inside { from.count ≤ length entries.now.items }
    requires users { from.users ≤ from.count }
    ensures count { result.count ≡ from.count
        + length (landed_first (drop from.count entries.now.items)) }
    ensures users { result.users ≡ from.users
        + users_in (landed_first (drop from.count entries.now.items)) }
{
    let mut run = from;
    for index in from.count..entries.len() {
        let held = &entries[index];
        if !held.progress.has_landed() {
            return run;
        }
        run.count += 1;
        run.users += user_count(held.entry.class);
    }
    run
}
