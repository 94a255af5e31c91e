//! A tree of winners over the lines of a drive.

ghost use Rattle.std.specs.Prelude.{◌≡◌, ◌+◌, ◌*◌, ◌/◌, ◌^◌, ◌<◌, ◌≤◌, length};
ghost use Rattle.victim_index.specs.Tournament.{AreWonBut, node};

use crate::candidate::Candidate;
use crate::held::{Held, winner};

/// What a node of the tree names.
#[tactic(auto, unfolding(crate::specs::Tournament::node))]
pub(crate) fn named(rows: &[Option<Candidate>], winners: &[Option<Held>], at: usize) -> Option<Held>
    requires few { length rows.now < 2 ^ 32 }
    requires same { length winners.now ≡ length rows.now }
    requires inside { at < 2 * length rows.now }
    ensures { result ≡ node rows.now winners.now at }
{
    if at < winners.len() {
        return winners[at];
    }
    let line = at - winners.len();
    let candidate = rows[line]?;
    Some(Held {
        line: line as u32,
        candidate,
    })
}

/// Makes the tree right after a line's row was written: from the node above the line up to the
/// root, or to the first node that names what it named before.
pub(crate) fn settle(rows: &[Option<Candidate>], winners: &mut [Option<Held>], line: u32)
    requires few { length rows.now < 2 ^ 32 }
    requires same { length winners.old ≡ length rows.now }
    requires inside { line < length rows.now }
    requires others { AreWonBut rows.now winners.old ((length winners.old + line) / 2) }
    ensures same { length winners.new ≡ length winners.old }
    ensures won { AreWonBut rows.now winners.new 0 }
{
    let mut at = (winners.len() + line as usize) / 2;
    while at > 0 {
        let best = winner(
            named(rows, winners, 2 * at),
            named(rows, winners, 2 * at + 1),
        );
        if best == winners[at] {
            return;
        }
        winners[at] = best;
        at /= 2;
    }
}
