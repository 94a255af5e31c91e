//! Rows of calls on one thread.
ghost use Rattle.std.specs.Prelude.{◌≡◌, ◌<◌, ◌≤◌, ◌^◌};
ghost use Rattle.write_ring.specs.Handles.{IsPassOf, pass_view, ring_key};
ghost use Rattle.ring_crew.specs.Ready.{HasOneFrame, IsTaker};

use crate::steps::{SECTOR, Told, put_copy, put_user, took};
use ring_crew::end;
use sector_pool::Pool;
use std::alloc::{AllocError, Global};
use std::test::Fail;
use write_ring::{Batch, Intake, Pass, Ring};

// No position is claimed from here on.
const MOST: u64 = 1 << 62;

// How many sectors the target of the rows has.
const SECTORS: u64 = 64;

// What is asked of a ring. A sector is told modulo 64.
#[derive(Clone, Copy, Debug, PartialEq, Eq, Drop)]
enum Asked {
    User(u8),
    Copy(u8),
    Take,
    Claimed,
    Reached,
    AllClaimed,
}

impl Asked {
    // The same of a sector so many further on.
    fn after(self, by: u8) -> Asked {
        match self {
            Asked::User(lba) => Asked::User(lba.wrapping_add(by)),
            Asked::Copy(lba) => Asked::Copy(lba.wrapping_add(by)),
            other => other,
        }
    }
}

// So many calls of one kind, and what the first of them tells. Each later one is of the next sector, and
// tells the next position.
#[derive(Clone, Copy, Debug, PartialEq, Eq, Drop)]
struct Row(Asked, u8, Told);

fn ask(
    ring: &Ring,
    intake: &mut Intake,
    pass: &mut Pass,
    batch: &mut Batch,
    room: u32,
    asked: Asked,
) -> Told
    requires sectors { 64 ≤ (ring_key ring.now).capacity }
    requires taker { IsTaker ring.now intake.old room }
    requires pass { IsPassOf ring.now pass.old }
    requires shares { (pass_view pass.old).pass.shares ≡ 127 }
    requires ready { HasOneFrame ring.now batch.old }
    requires size { batch.old.region.size ≡ 16 }
    ensures taker { IsTaker ring.now intake.new room }
    ensures pass { IsPassOf ring.now pass.new }
    ensures shares { (pass_view pass.new).pass.shares ≡ 127 }
    ensures ready { HasOneFrame ring.now batch.new }
    ensures region { batch.new.region ≡ batch.old.region }
{
    match asked {
        Asked::User(lba) => put_user(ring, pass, batch, u64::from(lba) % SECTORS),
        Asked::Copy(lba) => put_copy(ring, intake, batch, room, u64::from(lba) % SECTORS),
        Asked::Take => took(ring, intake, room),
        Asked::Claimed => Told::Claimed(ring.claimed(pass)),
        Asked::Reached => Told::Claimed(ring.reached(intake)),
        Asked::AllClaimed => Told::Claimed(ring.all_claimed(intake, pass)),
    }
}

// Makes the calls of a row. It ends with the first whose answer is another than the one expected.
fn repeat(
    ring: &Ring,
    intake: &mut Intake,
    pass: &mut Pass,
    batch: &mut Batch,
    room: u32,
    row: Row,
) -> Option<Row>
    requires sectors { 64 ≤ (ring_key ring.now).capacity }
    requires taker { IsTaker ring.now intake.old room }
    requires pass { IsPassOf ring.now pass.old }
    requires shares { (pass_view pass.old).pass.shares ≡ 127 }
    requires ready { HasOneFrame ring.now batch.old }
    requires size { batch.old.region.size ≡ 16 }
    ensures taker { IsTaker ring.now intake.new room }
    ensures pass { IsPassOf ring.now pass.new }
    ensures shares { (pass_view pass.new).pass.shares ≡ 127 }
    ensures ready { HasOneFrame ring.now batch.new }
    ensures region { batch.new.region ≡ batch.old.region }
{
    let Row(asked, times, expected) = row;
    for by in 0..times {
        let told = ask(ring, intake, pass, batch, room, asked.after(by));
        if told != expected.after(by) {
            return Some(Row(asked.after(by), by, told));
        }
    }
    None
}

// One row after the other, up to the first call whose answer is another than the one expected.
fn walk(
    ring: &Ring,
    intake: &mut Intake,
    pass: &mut Pass,
    batch: &mut Batch,
    room: u32,
    rows: &[Row],
) -> Option<Row>
    requires sectors { 64 ≤ (ring_key ring.now).capacity }
    requires taker { IsTaker ring.now intake.old room }
    requires pass { IsPassOf ring.now pass.old }
    requires shares { (pass_view pass.old).pass.shares ≡ 127 }
    requires ready { HasOneFrame ring.now batch.old }
    requires size { batch.old.region.size ≡ 16 }
    ensures taker { IsTaker ring.now intake.new room }
    ensures pass { IsPassOf ring.now pass.new }
    ensures shares { (pass_view pass.new).pass.shares ≡ 127 }
    ensures ready { HasOneFrame ring.now batch.new }
    ensures region { batch.new.region ≡ batch.old.region }
{
    for &row in rows {
        if let Some(wrong) = repeat(ring, intake, pass, batch, room, row) {
            return Some(wrong);
        }
    }
    None
}

// The rows on a new ring that has so much room for users and a reserve for copies. At the end all frames are
// back in their pool, those of the entries that are left in the ring too.
fn rows_on_a_ring(
    alloc: Global,
    room: u32,
    reserve: u32,
    first: u64,
    rows: &[Row],
) -> Result<Option<Row>, AllocError>
    requires some { 0 < room }
    requires few { room < 2 ^ 16 }
    requires few_copies { reserve < 2 ^ 16 }
    requires first { first ≤ 2 ^ 62 }
{
    let size = room + reserve;
    let mut pool = Pool::new(alloc, size + 1, SECTOR)?;
    let Ok(mut batch) = Batch::new(alloc, 1, &mut pool) else {
        end(pool);
        return Err(AllocError);
    };
    let Ok((ring, mut intake, mut pass)) = Ring::new(
        alloc, size, reserve, first, SECTORS, &mut pool,
    ) else {
        batch.close(&mut pool);
        end(pool);
        return Err(AllocError);
    };
    ring.grant(&mut intake, (first + u64::from(room)).min(MOST));
    let wrong = walk(&ring, &mut intake, &mut pass, &mut batch, room, rows);
    ring.close(intake, pass, &mut pool);
    batch.close(&mut pool);
    end(pool);
    Ok(wrong)
}

#[test]
fn users_fill_what_is_granted_and_copies_the_reserve(rt: HostRuntime) -> Result<(), Fail> {
    let rows = [
        Row(Asked::User(0), 56, Told::Put(0)),
        Row(Asked::User(56), 1, Told::Full(56, 56)),
        Row(Asked::Copy(56), 8, Told::Put(56)),
        Row(Asked::Copy(0), 1, Told::Full(64, 64)),
        Row(Asked::Claimed, 1, Told::Claimed(64)),
        Row(Asked::Reached, 1, Told::Claimed(64)),
        Row(Asked::Take, 64, Told::Took(0, 0)),
        Row(Asked::Take, 1, Told::Empty(64)),
        Row(Asked::AllClaimed, 1, Told::Claimed(64)),
    ];
    assert_eq!(rt; rows_on_a_ring(rt.alloc(), 56, 8, 0, &rows)?, None);
    Ok(())
}

#[test]
fn a_small_ring_is_wrapped_and_closed_with_entries_in_it(rt: HostRuntime) -> Result<(), Fail> {
    let rows = [
        Row(Asked::User(10), 3, Told::Put(0)),
        Row(Asked::User(13), 1, Told::Full(3, 3)),
        Row(Asked::Copy(14), 1, Told::Put(3)),
        Row(Asked::AllClaimed, 1, Told::Claimed(4)),
        Row(Asked::Copy(15), 1, Told::Full(4, 4)),
        Row(Asked::Take, 1, Told::Took(0, 10)),
        Row(Asked::User(13), 1, Told::Full(4, 4)),
        Row(Asked::Copy(15), 1, Told::Put(4)),
        Row(Asked::Take, 1, Told::Took(1, 11)),
        Row(Asked::User(13), 1, Told::Full(5, 5)),
        Row(Asked::Take, 1, Told::Took(2, 12)),
        Row(Asked::User(13), 1, Told::Put(5)),
        Row(Asked::Take, 2, Told::Took(3, 14)),
        Row(Asked::Take, 1, Told::Took(5, 13)),
        Row(Asked::Take, 1, Told::Empty(6)),
        Row(Asked::Copy(16), 1, Told::Put(6)),
        Row(Asked::User(17), 1, Told::Put(7)),
        Row(Asked::AllClaimed, 1, Told::Claimed(8)),
    ];
    assert_eq!(rt; rows_on_a_ring(rt.alloc(), 3, 1, 0, &rows)?, None);
    Ok(())
}

#[test]
fn no_position_is_claimed_from_the_last_on(rt: HostRuntime) -> Result<(), Fail> {
    let rows = [
        Row(Asked::User(10), 1, Told::Put(MOST - 2)),
        Row(Asked::Take, 1, Told::Took(MOST - 2, 10)),
        Row(Asked::Copy(11), 1, Told::Put(MOST - 1)),
        Row(Asked::User(12), 1, Told::Full(MOST, MOST)),
        Row(Asked::Copy(12), 1, Told::Full(MOST, MOST)),
        Row(Asked::Take, 1, Told::Took(MOST - 1, 11)),
        Row(Asked::User(12), 1, Told::Full(MOST, MOST)),
        Row(Asked::Copy(12), 1, Told::Full(MOST, MOST)),
        Row(Asked::Take, 1, Told::Empty(MOST)),
    ];
    assert_eq!(rt; rows_on_a_ring(rt.alloc(), 3, 1, MOST - 2, &rows)?, None);
    Ok(())
}
