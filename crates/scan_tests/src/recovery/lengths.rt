//! Lengths, addresses and the words of a start record.

use crate::recovery::harness::image_of;
use image_crew::{Step, Units, made, small};
use pblk_model::ChunkState;
use pblk_reference::{
    Row, StartRecord, block_at, data_len, end_len, start_bytes, start_len, width,
};
use std::alloc::{AllocError, Global};
use std::test::Fail;

// A width of at most two, and how many blocks of such a line are its start record, its end record
// and data.
fn lengths_of(width: u32) -> (u32, u32, u32, u32) {
    let shape = small();
    if width > 2 {
        return (width, 0, 0, 0);
    }
    let end = end_len(&shape, width);
    let data = data_len(&shape, width);
    (width, start_len(&shape), end, data)
}

#[test]
fn lines_have_these_lengths(rt: HostRuntime) {
    for wanted in [(0, 4, 4, 0), (1, 4, 4, 16), (2, 4, 4, 40)] {
        assert_eq!(rt; lengths_of(wanted.0), wanted);
    }
}

// A line's width, and the position in the mark of the block at a line address.
fn found_at(all: Units, line: u32, at: u32) -> (u32, Option<u64>) {
    if all.len() != 2 {
        return (0, None);
    }
    let image = image_of(all);
    let position = block_at(&image, line, at).map(|block| block.mark.position);
    (width(&image, line), position)
}

#[test]
fn blocks_stand_at_their_addresses(rt: HostRuntime) -> Result<(), Fail> {
    let offline = Step::Clear(1, 2, ChunkState::Offline);
    for (line, at, wanted) in [(2, 0, (1, None)), (3, 0, (2, Some(8))), (3, 1, (2, None))] {
        let all = made(rt.alloc(), &[Step::Tagged(3, 9, 1, 1, 7, 8), offline])?;
        assert_eq!(rt; found_at(all, line, at), wanted);
    }
    Ok(())
}

// The front of a start record with one row, byte by byte.
fn spelled(alloc: Global) -> Result<Vec<u8>, AllocError> {
    let start = StartRecord {
        line: 1,
        width: 2,
        seq: 258,
        first_seq: 3,
        front: 4,
        capacity: 64,
        rows: vec![in alloc;
            Row {
                line: 5,
                seq: 6,
                bound: 7
            },
        ]?,
    };
    start_bytes(alloc, &small(), &start)
}

#[test]
fn a_start_record_has_these_bytes(rt: HostRuntime) -> Result<(), Fail> {
    let bytes = spelled(rt.alloc())?;
    let front = [
        107u8, 108, 98, 112, 1, 0, 1, 0, // magic, version, kind
        1, 0, 0, 0, 2, 0, 0, 0, // line, width
        2, 1, 0, 0, 0, 0, 0, 0, 3, 0, 0, 0, 0, 0, 0, 0, // seq, first_seq
        4, 0, 0, 0, 0, 0, 0, 0, 64, 0, 0, 0, 0, 0, 0, 0, // front, capacity
        1, 0, 0, 0, 0, 0, 0, 0, 0, 0, 0, 0, 0, 0, 0, 0, // the number of rows
        5, 0, 0, 0, 0, 0, 0, 0, 6, 0, 0, 0, 0, 0, 0, 0, 7, 0, 0, 0, 0, 0, 0, 0, // the row
    ];
    let mut wanted = Vec::from_slice(rt.alloc(), &front)?;
    wanted.resize(2048, 0)?;
    assert_eq!(rt; bytes, wanted);
    Ok(())
}
