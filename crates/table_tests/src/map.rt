//! A map of 64 sectors.
ghost use Rattle.std.specs.Prelude.{◌≡◌};
ghost use Rattle.std.specs.FinMap.{len};

use l2p_map::{Map, Slot};
use std::test::Fail;

const SECTORS: u64 = 64;

#[derive(Drop)]
struct Bench {
    map: Map,
    ghost sectors: { len map ≡ 64 },
}

/// What is asked of a map.
#[derive(Clone, Copy, Debug)]
enum Asked {
    Get(u64),
    Set(u64, Slot),
    SetIf(u64, Slot, Slot),
}

/// What it told.
#[derive(Clone, Copy, Debug, PartialEq, Eq)]
enum Told {
    Slot(Slot),
    Set,
    WasSet(bool),
    Refused,
}

// Asks a map, unless it has no such sector.
fn ask(bench: &mut Bench, asked: Asked) -> Told {
    match asked {
        Asked::Get(lba) if lba < SECTORS => Told::Slot(bench.map.get(lba)),
        Asked::Set(lba, to) if lba < SECTORS => {
            bench.map.set(lba, to);
            Told::Set
        }
        Asked::SetIf(lba, old, to) if lba < SECTORS => {
            Told::WasSet(bench.map.set_if(lba, old, to))
        }
        _ => Told::Refused,
    }
}

const MEDIA: Slot = Slot::Media {
    line: 3,
    at: 17,
    position: 9,
};

// The same block with another position.
const LATER: Slot = Slot::Media {
    line: 3,
    at: 17,
    position: 10,
};

// What is asked in order, and what is told.
const STEPS: &[(Asked, Told)] = &[
    (Asked::Get(5), Told::Slot(Slot::Unwritten)),
    (Asked::Get(0), Told::Slot(Slot::Unwritten)),
    (Asked::Get(63), Told::Slot(Slot::Unwritten)),
    (Asked::Get(64), Told::Refused),
    (
        Asked::SetIf(5, Slot::Cached(0), Slot::Cached(1)),
        Told::WasSet(false),
    ),
    (Asked::Get(5), Told::Slot(Slot::Unwritten)),
    (
        Asked::SetIf(5, Slot::Unwritten, Slot::Cached(1)),
        Told::WasSet(true),
    ),
    (Asked::Get(5), Told::Slot(Slot::Cached(1))),
    (Asked::Get(4), Told::Slot(Slot::Unwritten)),
    (Asked::Get(6), Told::Slot(Slot::Unwritten)),
    (Asked::Set(6, MEDIA), Told::Set),
    (Asked::Get(6), Told::Slot(MEDIA)),
    (Asked::Get(5), Told::Slot(Slot::Cached(1))),
    (Asked::SetIf(6, LATER, Slot::Cached(2)), Told::WasSet(false)),
    (Asked::SetIf(6, MEDIA, LATER), Told::WasSet(true)),
    (Asked::Get(6), Told::Slot(LATER)),
    (Asked::Set(6, Slot::Unwritten), Told::Set),
    (Asked::Get(6), Told::Slot(Slot::Unwritten)),
    (Asked::Set(64, Slot::Cached(3)), Told::Refused),
];

#[test]
fn slots_are_set_one_at_a_time(rt: HostRuntime) -> Result<(), Fail> {
    let mut bench = Bench {
        map: Map::new(rt.alloc(), SECTORS)?,
    };
    for &(asked, told) in STEPS {
        assert_eq!(rt; ask(&mut bench, asked), told, "{asked:?}");
    }
    Ok(())
}

// No machine has the memory for so many slots.
#[test]
fn a_map_wants_its_memory_at_once(rt: HostRuntime) {
    assert!(rt; Map::new(rt.alloc(), u64::MAX).is_err());
}
