//! Frames in several threads.
ghost use Rattle.std.specs.Prelude.{◌≡◌, length};

use sector_pool::{Class, Entry, Frame, Pool};
use std::test::Fail;
use std::thread::{Threads, join, join_mut};

// A call of it is accepted only for types whose values may go to another thread.
fn may_move<T: Send>() {}

// A call of this one is accepted only for types that several threads may look at.
fn may_be_shared<T: Sync>() {}

// Fills a frame in each of two threads.
fn fill_at_once<R: Threads + Sync>(
    rt: &R,
    one: &mut Frame,
    other: &mut Frame,
    bytes: &[u8],
    other_bytes: &[u8],
)
    requires size { length bytes.now ≡ one.old.region.size }
    requires other_size { length other_bytes.now ≡ other.old.region.size }
    ensures region { one.new.region ≡ one.old.region }
    ensures other_region { other.new.region ≡ other.old.region }
{
    join_mut(
        rt,
        &mut || -> ()
            requires { length bytes.now ≡ one.now.region.size }
            ensures { one.exit.now.region ≡ one.entry.now.region }
        { one.fill(bytes) },
        &mut || -> ()
            requires { length other_bytes.now ≡ other.now.region.size }
            ensures { other.exit.now.region ≡ other.entry.now.region }
        { other.fill(other_bytes) },
    );
}

// What each of two threads reads in one frame.
fn read_at_once<R: Threads + Sync>(rt: &R, frame: &Frame) -> (Option<u8>, Option<u8>) {
    join(
        rt,
        || frame.bytes().first().copied(),
        || frame.bytes().last().copied(),
    )
}

#[test]
fn frames_are_filled_and_read_in_threads(rt: HostRuntime) -> Result<(), Fail> {
    may_move::<Frame>();
    may_move::<Pool>();
    may_move::<Entry>();
    may_be_shared::<Frame>();
    may_be_shared::<Pool>();
    may_be_shared::<Entry>();
    let mut pool = Pool::new(rt.alloc(), 2, 4)?;
    let mut one = pool.take().unwrap();
    let mut other = pool.take().unwrap();
    fill_at_once(&rt, &mut one, &mut other, &[1, 2, 3, 4], &[5, 6, 7, 8]);
    assert_eq!(rt; read_at_once(&rt, &one), (Some(1), Some(4)));
    assert_eq!(rt; read_at_once(&rt, &other), (Some(5), Some(8)));
    let entry = Entry {
        position: 7,
        class: Class::User,
        lba: 3,
        source: None,
        frame: one,
    };
    let Entry {
        position: _,
        class: _,
        lba: _,
        source: _,
        frame,
    } = entry;
    pool.give(other);
    pool.give(frame);
    match pool.close() {
        Ok(()) => Ok(()),
        Err(_pool) => unreachable!(),
    }
}
