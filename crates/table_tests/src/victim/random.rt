//! Indexes of some lines beside plain lists, asked at random.
ghost use Rattle.std.specs.Prelude.{◌≡◌, ◌<◌, length};

use std::alloc::{AllocError, Global};
use std::test::Fail;
use victim_index::{Candidate, Victims};

/// Numbers that jump about, the same in each run.
#[derive(Drop)]
struct Draw {
    state: u64,
}

impl Draw {
    // The next number below `count`.
    fn below(&mut self, count: u32) -> u32
        requires { 0 < count }
        ensures { result < count }
    {
        self.state = self
            .state
            .wrapping_mul(6364136223846793005)
            .wrapping_add(1442695040888963407);
        (self.state >> 33) as u32 % count
    }
}

/// An index, and the list of what it holds.
#[derive(Drop)]
struct Pair {
    victims: Victims,
    plain: Vec<Option<Candidate>>,
    draw: Draw,
    lines: u32,
    ghost some: { 0 < lines },
    ghost indexed: { length victims ≡ lines },
    ghost listed: { length plain.items ≡ lines },
}

// What is compared of a line that is held, least first.
fn key(line: u32, held: Candidate) -> (bool, u32, u64, u32) {
    (!held.failed, held.live, held.seq, line)
}

// The best line of a list, by a look at each.
fn plain_best(plain: &[Option<Candidate>]) -> Option<u32> {
    let mut best: Option<(bool, u32, u64, u32)> = None;
    let mut line = 0u32;
    for row in plain {
        if let Some(held) = *row {
            let key = key(line, held);
            best = match best {
                Some(least) if least <= key => best,
                _ => Some(key),
            };
        }
        line = line.saturating_add(1);
    }
    Some(best?.3)
}

impl Pair {
    fn new(alloc: Global, lines: u32) -> Result<Pair, AllocError>
        requires { 0 < lines }
    {
        Ok(Pair {
            victims: Victims::new(alloc, lines)?,
            plain: vec![in alloc; None; lines as usize]?,
            draw: Draw {
                state: u64::from(lines),
            },
            lines,
        })
    }

    // Changes a line in both. Numbers are small, so that lines often agree.
    fn change(&mut self) {
        let line = self.draw.below(self.lines);
        if self.draw.below(3) == 0 {
            self.victims.remove(line);
            self.plain[line as usize] = None;
            return;
        }
        let failed = self.draw.below(4) == 0;
        let live = self.draw.below(5);
        let seq = u64::from(self.draw.below(4));
        self.victims.set(line, failed, live, seq);
        self.plain[line as usize] = Some(Candidate { failed, live, seq });
    }
}

const SIZES: &[u32] = &[1, 2, 3, 5, 8, 13, 64, 100];

const CHANGES: u32 = 2000;

// How often the best line has to become another one: a test in which it stays would say little.
const LEAST_TURNS: u32 = 50;

#[test]
fn the_best_line_is_that_of_a_plain_list(rt: HostRuntime) -> Result<(), Fail> {
    for &lines in SIZES {
        if lines == 0 {
            continue;
        }
        let mut pair = Pair::new(rt.alloc(), lines)?;
        let mut last = None;
        let mut turns = 0u32;
        for change in 0..CHANGES {
            pair.change();
            let best = pair.victims.best();
            assert_eq!(rt;
                best,
                plain_best(&pair.plain),
                "{lines} lines, change {change}"
            );
            turns = turns.saturating_add(u32::from(best != last));
            last = best;
        }
        assert!(rt; turns >= LEAST_TURNS, "{lines} lines, {turns} turns");
    }
    Ok(())
}
