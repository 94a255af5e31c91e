//! Which bytes are taken as an image, and why others are refused.

use crate::image::fixture::{Edit, NONE, edit, small_image};
use drive_image::{GeometryErr, ImageErr, from_image, load};
use std::alloc::Global;
use std::process::Abort;
use std::test::Fail;

/// Three edits of the small drive's image, the length to which it is cut or filled with zeros, and
/// the refusal.
type Row = ([Edit; 3], usize, Option<ImageErr>);

// The edits and their refusals, row by row, from bytes that are lent and from bytes that are given.
fn walk(rt: &impl Abort, alloc: Global, rows: &[Row]) -> Result<(), Fail> {
    for (row, (edits, length, refusal)) in rows.iter().enumerate() {
        let mut bytes = small_image(alloc)?;
        edit(&mut bytes, edits);
        bytes.resize(*length, 0)?;
        assert!(rt; load(alloc, &bytes).err() == *refusal, "row {row}");
        assert!(rt; from_image(alloc, bytes).err() == *refusal, "row {row}");
    }
    Ok(())
}

fn chunk(unit: u32, chunk: u32, rule: u32) -> Option<ImageErr> {
    Some(ImageErr::Chunk { unit, chunk, rule })
}

#[test]
fn parts_are_read_in_their_order(rt: HostRuntime) -> Result<(), Fail> {
    let wrong = [(0, 1), (8, 2), (32, 1)];
    let rows = [
        ([NONE, NONE, NONE], 4640, None),
        ([NONE, NONE, NONE], 4639, Some(ImageErr::Short(4639))),
        ([NONE, NONE, NONE], 4641, Some(ImageErr::Long)),
        ([NONE, NONE, NONE], 0, Some(ImageErr::Short(0))),
        (wrong, 31, Some(ImageErr::Short(31))),
        (wrong, 32, Some(ImageErr::Magic)),
        ([NONE, (8, 2), (32, 1)], 32, Some(ImageErr::Version)),
        ([NONE, (11, 1), NONE], 4640, Some(ImageErr::Version)),
        ([NONE, NONE, (32, 1)], 4127, Some(ImageErr::Short(4127))),
        (
            [NONE, (12, 1), (32, 1)],
            4128,
            Some(ImageErr::Geometry(GeometryErr::Field(0))),
        ),
        (
            [NONE, (12, 1), (100, 7)],
            4128,
            Some(ImageErr::Geometry(GeometryErr::Profile(2))),
        ),
        ([NONE, (12, 1), NONE], 4128, Some(ImageErr::Settings(1))),
        ([NONE, (4128, 3), NONE], 4128, Some(ImageErr::Short(4128))),
        ([NONE, (4128, 3), NONE], 4640, chunk(0, 0, 1)),
        ([(4128, 3), (4160, 3), NONE], 4641, chunk(0, 0, 1)),
    ];
    walk(&rt, rt.alloc(), &rows)
}

#[test]
fn each_setting_is_refused_at_its_edge(rt: HostRuntime) -> Result<(), Fail> {
    let rows = [
        // Sectors of 511, 513 and 4096 bytes. With 4096 the drive's 384 blocks are accepted.
        (
            [(12, 255), (13, 1), NONE],
            4640,
            Some(ImageErr::Settings(1)),
        ),
        ([(12, 1), NONE, NONE], 4640, Some(ImageErr::Settings(1))),
        ([(13, 16), NONE, NONE], 4640, None),
        // 16 chunks of 32,768 blocks are 256 MiB: then a descriptor's 24 blocks are wrong. With
        // four more they are too much.
        ([(43, 15), (104, 0), (105, 128)], 4640, chunk(0, 0, 4)),
        (
            [(43, 16), (104, 4), (105, 128)],
            4640,
            Some(ImageErr::Settings(2)),
        ),
        // With chunks of 20 blocks a line has 32 blocks of data.
        ([(104, 20), NONE, NONE], 4640, Some(ImageErr::Settings(3))),
        ([(16, 0), NONE, NONE], 4640, Some(ImageErr::Settings(4))),
        ([(16, 1), NONE, NONE], 4640, None),
        ([(16, 90), NONE, NONE], 4640, None),
        ([(16, 91), NONE, NONE], 4640, Some(ImageErr::Settings(4))),
        ([(21, 1), NONE, NONE], 4640, Some(ImageErr::Settings(4))),
        ([(24, 32), NONE, NONE], 4640, Some(ImageErr::Settings(5))),
        ([(24, 65), NONE, NONE], 4640, Some(ImageErr::Settings(5))),
        ([(24, 0), (25, 64), NONE], 4640, None),
        (
            [(24, 0), (25, 128), NONE],
            4640,
            Some(ImageErr::Settings(5)),
        ),
        // A ring of 2 to the 32, and of 64 more.
        ([(24, 0), (28, 1), NONE], 4640, Some(ImageErr::Settings(5))),
        ([(28, 1), NONE, NONE], 4640, Some(ImageErr::Settings(5))),
    ];
    walk(&rt, rt.alloc(), &rows)
}

#[test]
fn each_rule_of_a_chunk_is_refused_at_its_edge(rt: HostRuntime) -> Result<(), Fail> {
    let rows = [
        ([(4128, 0), NONE, NONE], 4640, chunk(0, 0, 1)),
        ([(4129, 2), (4136, 1), NONE], 4640, chunk(0, 0, 2)),
        ([(4136, 1), (4144, 23), NONE], 4640, chunk(0, 0, 3)),
        ([(4144, 23), (4152, 2), NONE], 4640, chunk(0, 0, 4)),
        // A Free chunk has no block, and an Open one has some, but not all.
        ([(4152, 2), NONE, NONE], 4640, chunk(0, 0, 5)),
        ([(4128, 4), NONE, NONE], 4640, chunk(0, 0, 5)),
        ([(4128, 4), (4152, 24), NONE], 4640, chunk(0, 0, 5)),
        ([(4128, 4), (4152, 22), NONE], 16256, None),
        ([(4128, 8), (4152, 2), NONE], 4640, chunk(0, 0, 5)),
        ([(4128, 8), NONE, NONE], 4640, None),
        // A Closed one has any even number of blocks, up to all.
        ([(4128, 2), NONE, NONE], 4640, None),
        ([(4128, 2), (4152, 3), NONE], 4640, chunk(0, 0, 5)),
        ([(4128, 2), (4152, 26), NONE], 4640, chunk(0, 0, 5)),
        (
            [(4128, 2), (4152, 24), NONE],
            17311,
            Some(ImageErr::Short(17311)),
        ),
        ([(4128, 2), (4152, 24), NONE], 17312, None),
        ([(4128, 2), (4152, 24), NONE], 17313, Some(ImageErr::Long)),
        // Unit 1, chunk 0; and the first of two.
        ([(4384, 3), NONE, NONE], 4640, chunk(1, 0, 1)),
        ([(4616, 0), (4392, 1), NONE], 4640, chunk(1, 0, 3)),
    ];
    walk(&rt, rt.alloc(), &rows)
}
