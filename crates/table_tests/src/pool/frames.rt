//! The bytes of frames.
ghost use Rattle.std.specs.Prelude.{◌≡◌};

use sector_pool::{Frame, Pool};
use std::alloc::{AllocError, Global};
use std::test::Fail;

// Writes a frame's bytes where they lie: as many of one value, and then the last one.
fn write(frame: &mut Frame, all: u8, last: u8)
    ensures region { frame.new.region ≡ frame.old.region }
    ensures number { frame.new.number ≡ frame.old.number }
{
    let bytes = frame.bytes_mut();
    bytes.fill(all);
    if let Some(byte) = bytes.last_mut() {
        *byte = last;
    }
}

// Whether two frames of a pool, each beside the other, hold what they are filled with.
fn both_hold(alloc: Global, size: u32) -> Result<bool, AllocError> {
    let ones = vec![in alloc; 1u8; size as usize]?;
    let twos = vec![in alloc; 2u8; size as usize]?;
    let mut pool = Pool::new(alloc, 2, size)?;
    let mut one = pool.take().unwrap();
    let mut other = pool.take().unwrap();
    one.fill(&ones);
    other.fill(&twos);
    let hold = one.bytes() == ones.as_slice() && other.bytes() == twos.as_slice();
    pool.give(one);
    pool.give(other);
    match pool.close() {
        Ok(()) => Ok(hold),
        Err(_pool) => unreachable!(),
    }
}

#[test]
fn frames_hold_their_bytes(rt: HostRuntime) -> Result<(), Fail> {
    for size in [0, 1, 512, 4096] {
        assert!(rt; both_hold(rt.alloc(), size)?, "{size} bytes");
    }
    Ok(())
}

#[test]
fn a_frame_is_written_where_it_lies(rt: HostRuntime) -> Result<(), Fail> {
    let mut pool = Pool::new(rt.alloc(), 2, 4)?;
    let mut one = pool.take().unwrap();
    let mut other = pool.take().unwrap();
    other.fill(&[5; 4]);
    write(&mut one, 1, 2);
    assert!(rt; one.bytes() == [1, 1, 1, 2].as_slice());
    assert!(rt; other.bytes() == [5; 4].as_slice());
    pool.give(one);
    pool.give(other);
    match pool.close() {
        Ok(()) => Ok(()),
        Err(_pool) => unreachable!(),
    }
}
