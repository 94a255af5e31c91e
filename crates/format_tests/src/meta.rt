//! Start and end records in bytes that are written out by hand.

use crate::drives::small;
use pblk_meta::{EndRecord, Pairs, Row, Rows, StartRecord};
use pblk_model::Mark;
use std::alloc::{AllocError, Global};

// What reading tells of a start record: its numbers, and for each row the sum of its line, seq and bound.
#[derive(Clone, Copy, Debug, PartialEq, Eq)]
enum Start {
    Refused,
    NoMemory,
    Nothing,
    Record {
        seq: u64,
        first_seq: u64,
        front: u64,
        rows: usize,
        last: Option<Row>,
    },
}

fn read_start(alloc: Global, bytes: &[u8], line: u32, width: u32) -> Start {
    let layout = small();
    if line >= layout.shape().chunks || width > layout.shape().units() {
        return Start::Refused;
    }
    match StartRecord::read(alloc, bytes, &layout, line, width) {
        Err(_) => Start::NoMemory,
        Ok(None) => Start::Nothing,
        Ok(Some(record)) => Start::Record {
            seq: record.seq,
            first_seq: record.first_seq,
            front: record.front,
            rows: record.rows.as_slice().len(),
            last: record.rows.as_slice().last().copied(),
        },
    }
}

// Bytes with some of them changed.
fn changed(mut bytes: [u8; 2048], changes: &[(usize, u8)]) -> [u8; 2048] {
    for (at, byte) in changes {
        if *at < 2048 {
            bytes[*at] = *byte;
        }
    }
    bytes
}

// Bytes without the last one.
fn cut(bytes: &[u8]) -> &[u8] {
    if bytes.is_empty() {
        return bytes;
    }
    &bytes[..bytes.len() - 1]
}

// Line 1 of width 2: seq 2, first_seq 2, front 44, capacity 64, and the row line 0, seq 1, bound 40.
fn start_of_line_1() -> [u8; 2048] {
    changed(
        [0; 2048],
        &[
            (0, 0x6b),
            (1, 0x6c),
            (2, 0x62),
            (3, 0x70),
            (4, 1),
            (6, 1),
            (8, 1),
            (12, 2),
            (16, 2),
            (24, 2),
            (32, 44),
            (40, 64),
            (48, 1),
            (72, 1),
            (80, 40),
        ],
    )
}

#[test]
fn a_start_record_is_read(rt: HostRuntime) {
    let base = start_of_line_1();
    let row = Row {
        line: 0,
        seq: 1,
        bound: 40,
    };
    let read = |seq, row| Start::Record {
        seq,
        first_seq: 2,
        front: 44,
        rows: 1,
        last: Some(row),
    };
    for (change, told) in [
        ((0, 0x6b), read(2, row)),
        ((16, 3), read(3, row)),
        ((80, 44), read(2, Row { bound: 44, ..row })),
        ((64, 2), read(2, Row { line: 2, ..row })),
        ((64, 7), read(2, Row { line: 7, ..row })),
    ] {
        let bytes = changed(base, &[change]);
        assert_eq!(rt; read_start(rt.alloc(), &bytes, 1, 2), told, "{change:?}");
    }
}

// One byte of it is changed: in the header, in the row, or behind the row.
#[test]
fn a_start_record_is_refused(rt: HostRuntime) {
    let base = start_of_line_1();
    for change in [
        (0, 0x6a),
        (3, 0x71),
        (4, 2),
        (5, 1),
        (6, 2),
        (8, 2),
        (12, 1),
        (16, 1),
        (23, 0x20),
        (24, 0),
        (24, 3),
        (39, 0x20),
        (40, 65),
        (48, 0),
        (48, 2),
        (48, 8),
        (51, 0x80),
        (52, 1),
        (63, 1),
        (64, 1),
        (64, 8),
        (68, 1),
        (72, 0),
        (72, 2),
        (80, 45),
        (88, 1),
        (2047, 1),
    ] {
        let bytes = changed(base, &[change]);
        assert_eq!(rt;
            read_start(rt.alloc(), &bytes, 1, 2),
            Start::Nothing,
            "{change:?}"
        );
    }
    for (line, width) in [(0, 2), (2, 2), (1, 1), (1, 0)] {
        assert_eq!(rt; read_start(rt.alloc(), &base, line, width), Start::Nothing);
    }
    assert_eq!(rt; read_start(rt.alloc(), cut(&base), 1, 2), Start::Nothing);
    assert_eq!(rt; read_start(rt.alloc(), &[], 1, 2), Start::Nothing);
}

// Two rows, whose lines are at bytes 64 and 88.
#[test]
fn rows_rise(rt: HostRuntime) {
    let base = changed(start_of_line_1(), &[(48, 2), (96, 1)]);
    for ((first, second), rises) in [
        ((2, 3), true),
        ((0, 7), true),
        ((3, 2), false),
        ((2, 2), false),
        ((0, 1), false),
    ] {
        let bytes = changed(base, &[(64, first), (88, second)]);
        let told = read_start(rt.alloc(), &bytes, 1, 2);
        assert_eq!(rt; told != Start::Nothing, rises, "{first} {second}");
    }
}

fn write_start(record: &StartRecord, out: &mut [u8]) -> bool {
    let rows = record.rows.as_slice().len();
    if rows > 7 || out.len() != 2048 {
        return false;
    }
    record.write(out);
    true
}

#[test]
fn a_start_record_is_written(rt: HostRuntime) -> Result<(), AllocError> {
    let mut rows = Rows::new(rt.alloc());
    rows.push(Row {
        line: 0,
        seq: 1,
        bound: 40,
    })?;
    let record = StartRecord {
        line: 1,
        width: 2,
        seq: 2,
        first_seq: 2,
        front: 44,
        capacity: 64,
        rows,
    };
    let mut out = [9; 2048];
    assert!(rt; write_start(&record, &mut out));
    assert!(rt; out == start_of_line_1());
    let first = StartRecord {
        line: 0,
        width: 2,
        seq: 1,
        first_seq: 1,
        front: 0,
        capacity: 64,
        rows: Rows::new(rt.alloc()),
    };
    assert!(rt; write_start(&first, &mut out));
    let bytes = [
        0x6b, 0x6c, 0x62, 0x70, 1, 0, 1, 0, 0, 0, 0, 0, 2, 0, 0, 0, 1, 0, 0, 0, 0, 0, 0, 0,
    ];
    assert!(rt; out.starts_with(&bytes));
    Ok(())
}

// What reading tells of an end record: how many marks it has, and its first and last mark.
#[derive(Clone, Copy, Debug, PartialEq, Eq)]
enum End {
    Refused,
    NoMemory,
    Nothing,
    Record {
        marks: usize,
        first: Option<Mark>,
        last: Option<Mark>,
    },
}

fn read_end(alloc: Global, bytes: &[u8], line: u32, width: u32, seq: u64) -> End {
    let layout = small();
    if width > layout.shape().units() {
        return End::Refused;
    }
    match EndRecord::read(alloc, bytes, &layout, line, width, seq) {
        Err(_) => End::NoMemory,
        Ok(None) => End::Nothing,
        Ok(Some(record)) => End::Record {
            marks: record.pairs.as_slice().len(),
            first: record.pairs.as_slice().first().copied(),
            last: record.pairs.as_slice().last().copied(),
        },
    }
}

// Line 3 of width 1, seq 5, and 16 marks: a pad first, then the lbas 1 to 15 at the positions 101 to 115.
fn end_of_line_3() -> [u8; 2048] {
    let mut bytes = changed(
        [0; 2048],
        &[
            (0, 0x6b),
            (1, 0x6c),
            (2, 0x62),
            (3, 0x70),
            (4, 1),
            (6, 2),
            (8, 3),
            (12, 1),
            (16, 5),
            (24, 16),
        ],
    );
    for at in 32..40 {
        bytes[at] = 0xff;
    }
    for k in 1..16u8 {
        let at = 32 + 16 * k as usize;
        bytes[at] = k;
        bytes[at + 8] = 100 + k;
    }
    bytes
}

#[test]
fn an_end_record_is_read(rt: HostRuntime) {
    let base = end_of_line_3();
    let pad = Mark {
        lba: u64::MAX,
        position: 0,
    };
    let last = Mark {
        lba: 15,
        position: 115,
    };
    let read = |first, last| End::Record {
        marks: 16,
        first: Some(first),
        last: Some(last),
    };
    for (change, told) in [
        ((0, 0x6b), read(pad, last)),
        (
            (47, 1),
            read(
                Mark {
                    position: 1 << 56,
                    ..pad
                },
                last,
            ),
        ),
        ((272, 7), read(pad, Mark { lba: 7, ..last })),
        (
            (287, 0x80),
            read(
                pad,
                Mark {
                    position: 115 + (1 << 63),
                    ..last
                },
            ),
        ),
    ] {
        let bytes = changed(base, &[change]);
        assert_eq!(rt; read_end(rt.alloc(), &bytes, 3, 1, 5), told, "{change:?}");
    }
}

// One byte of the header or behind the marks is changed; or the record is read as that of another line.
#[test]
fn an_end_record_is_refused(rt: HostRuntime) {
    let base = end_of_line_3();
    for change in [
        (0, 0x6a),
        (4, 2),
        (6, 1),
        (8, 4),
        (12, 2),
        (16, 6),
        (23, 1),
        (24, 15),
        (24, 17),
        (27, 1),
        (28, 1),
        (31, 1),
        (288, 1),
        (2047, 1),
    ] {
        let bytes = changed(base, &[change]);
        assert_eq!(rt;
            read_end(rt.alloc(), &bytes, 3, 1, 5),
            End::Nothing,
            "{change:?}"
        );
    }
    for (line, width, seq) in [(2, 1, 5), (3, 2, 5), (3, 0, 5), (3, 1, 4)] {
        assert_eq!(rt; read_end(rt.alloc(), &base, line, width, seq), End::Nothing);
    }
    assert_eq!(rt; read_end(rt.alloc(), cut(&base), 3, 1, 5), End::Nothing);
}

fn write_end(record: &EndRecord, out: &mut [u8]) -> bool {
    let pairs = record.pairs.as_slice().len();
    if pairs > 126 || out.len() != 2048 {
        return false;
    }
    record.write(out);
    true
}

#[test]
fn an_end_record_is_written(rt: HostRuntime) -> Result<(), AllocError> {
    let mut pairs = Pairs::new(rt.alloc());
    pairs.push(Mark {
        lba: u64::MAX,
        position: 0,
    })?;
    for k in 1..16 {
        pairs.push(Mark {
            lba: k,
            position: 100 + k,
        })?;
    }
    let record = EndRecord {
        line: 3,
        width: 1,
        seq: 5,
        pairs,
    };
    let mut out = [9; 2048];
    assert!(rt; write_end(&record, &mut out));
    assert!(rt; out == end_of_line_3());
    Ok(())
}
