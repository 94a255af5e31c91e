//! What an index of eight lines tells, row by row.
ghost use Rattle.std.specs.Prelude.{◌≡◌, length};

use std::test::Fail;
use victim_index::Victims;

const LINES: u32 = 8;

#[derive(Drop)]
struct Bench {
    victims: Victims,
    ghost lines: { length victims ≡ 8 },
}

/// What is asked of an index.
#[derive(Clone, Copy, Debug)]
enum Asked {
    // a line, whether it is failed, its live sectors, its sequence number
    Set(u32, bool, u32, u64),
    Remove(u32),
    Best,
}

/// What it told.
#[derive(Clone, Copy, Debug, PartialEq, Eq)]
enum Told {
    Best(Option<u32>),
    Done,
    Refused,
}

// Asks an index, unless it has no such line.
fn ask(bench: &mut Bench, asked: Asked) -> Told {
    match asked {
        Asked::Set(line, failed, live, seq) if line < LINES => {
            bench.victims.set(line, failed, live, seq);
            Told::Done
        }
        Asked::Remove(line) if line < LINES => {
            bench.victims.remove(line);
            Told::Done
        }
        Asked::Best => Told::Best(bench.victims.best()),
        _ => Told::Refused,
    }
}

// What is asked in order, and what is told.
const STEPS: &[(Asked, Told)] = &[
    (Asked::Best, Told::Best(None)),
    (Asked::Remove(2), Told::Done),
    (Asked::Best, Told::Best(None)),
    // the fewest live sectors, whatever the sequence number
    (Asked::Set(3, false, 5, 10), Told::Done),
    (Asked::Best, Told::Best(Some(3))),
    (Asked::Set(1, false, 6, 2), Told::Done),
    (Asked::Best, Told::Best(Some(3))),
    // of as many the least sequence number
    (Asked::Set(5, false, 5, 9), Told::Done),
    (Asked::Best, Told::Best(Some(5))),
    // a failed line before them, however many it has
    (Asked::Set(7, true, 40, 30), Told::Done),
    (Asked::Best, Told::Best(Some(7))),
    (Asked::Set(0, true, 41, 1), Told::Done),
    (Asked::Best, Told::Best(Some(7))),
    (Asked::Remove(7), Told::Done),
    (Asked::Best, Told::Best(Some(0))),
    (Asked::Remove(0), Told::Done),
    (Asked::Best, Told::Best(Some(5))),
    // a line that was held is held with what is new
    (Asked::Set(5, false, 7, 9), Told::Done),
    (Asked::Best, Told::Best(Some(3))),
    // of lines that agree in all the least, by whichever was set first
    (Asked::Set(6, false, 0, 4), Told::Done),
    (Asked::Set(2, false, 0, 4), Told::Done),
    (Asked::Best, Told::Best(Some(2))),
    (Asked::Remove(2), Told::Done),
    (Asked::Best, Told::Best(Some(6))),
    (Asked::Remove(6), Told::Done),
    (Asked::Remove(3), Told::Done),
    (Asked::Best, Told::Best(Some(1))),
    (Asked::Remove(1), Told::Done),
    (Asked::Best, Told::Best(Some(5))),
    (Asked::Remove(5), Told::Done),
    (Asked::Remove(5), Told::Done),
    (Asked::Best, Told::Best(None)),
    (Asked::Set(8, true, 0, 0), Told::Refused),
    (Asked::Remove(8), Told::Refused),
    (Asked::Best, Told::Best(None)),
];

#[test]
fn the_best_line_is_told(rt: HostRuntime) -> Result<(), Fail> {
    let mut bench = Bench {
        victims: Victims::new(rt.alloc(), LINES)?,
    };
    for &(asked, told) in STEPS {
        assert_eq!(rt; ask(&mut bench, asked), told, "{asked:?}");
    }
    Ok(())
}
