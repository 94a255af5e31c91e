//! What scripts are answered, and what they leave on the drive.

use crate::harness::told;
use crate::shapes::{
    EIGHT_UNITS, EQUAL_WRITES, LARGE_SECTORS, LATE_READS, MOST_UNITS, ONE_SECTOR, ONE_UNIT, SMALL,
    WIDE_STRIPES,
};
use pblk_model::Shape;
use std::test::Fail;

// Drives, whether the marks of their blocks are told, scripts, and what is told of them.
static ANSWERED: [(&Shape, bool, &str, &str); 20] = [
    // A sector, which the write buffer answers before and after its stripe is programmed.
    (
        &SMALL,
        true,
        "thread\nw 5 1 17\nr 5 1\nf\n",
        "placed 0 1\nwords 1 1 17\nsynced 1 1\nclosed\nevents 1 open 4, meta 1, meta 1, meta 1, meta 1\nevents 1 open 4, 5 of 17 at 0, pad, pad, pad\n",
    ),
    (
        &SMALL,
        false,
        "thread\nw 5 1 17\nf\nr 5 1\n",
        "placed 0 1\nsynced 1 1\nwords 1 1 17\nclosed\nevents 1 open 4\nevents 1 open 4\n",
    ),
    // A flush of nothing opens no line, and one of what is on the drive programs nothing.
    (
        &SMALL,
        false,
        "thread\nf\nr 0 1\nf\n",
        "synced 0 0\nwords 0 0 0\nsynced 0 0\nclosed\nevents 0\nevents 0\n",
    ),
    // Flushes in the middle of a stripe, and a close.
    (
        &SMALL,
        true,
        "thread\nw 10 6 3\nf\nw 20 3 4\nf\nf\nw 1 5 5\nr 9 8\n",
        "placed 0 6\nsynced 6 6\nplaced 6 3\nsynced 9 9\nsynced 9 9\nplaced 9 5\nwords 14 14 0 3 3 3 3 3 3 0\nclosed\nevents 3 open 12, meta 1, meta 1, meta 1, meta 1, 14 of 3 at 4, 15 of 3 at 5, pad, pad, 1 of 5 at 9, 2 of 5 at 10, 3 of 5 at 11, 4 of 5 at 12\nevents 3 open 12, 10 of 3 at 0, 11 of 3 at 1, 12 of 3 at 2, 13 of 3 at 3, 20 of 4 at 6, 21 of 4 at 7, 22 of 4 at 8, pad, 5 of 5 at 13, pad, pad, pad\n",
    ),
    // The end record of the first line, and the start record of the second.
    (
        &SMALL,
        true,
        "thread\nw 0 16 1\nw 16 16 2\nw 32 10 3\n",
        "placed 0 16\nplaced 16 16\nplaced 32 10\nclosed\nevents 7 closed 24, meta 1, meta 1, meta 1, meta 1, 4 of 1 at 4, 5 of 1 at 5, 6 of 1 at 6, 7 of 1 at 7, 12 of 1 at 12, 13 of 1 at 13, 14 of 1 at 14, 15 of 1 at 15, 20 of 2 at 20, 21 of 2 at 21, 22 of 2 at 22, 23 of 2 at 23, 28 of 2 at 28, 29 of 2 at 29, 30 of 2 at 30, 31 of 2 at 31, 36 of 3 at 36, 37 of 3 at 37, 38 of 3 at 38, 39 of 3 at 39 open 4, meta 2, meta 2, meta 2, meta 2\nevents 7 closed 24, 0 of 1 at 0, 1 of 1 at 1, 2 of 1 at 2, 3 of 1 at 3, 8 of 1 at 8, 9 of 1 at 9, 10 of 1 at 10, 11 of 1 at 11, 16 of 2 at 16, 17 of 2 at 17, 18 of 2 at 18, 19 of 2 at 19, 24 of 2 at 24, 25 of 2 at 25, 26 of 2 at 26, 27 of 2 at 27, 32 of 3 at 32, 33 of 3 at 33, 34 of 3 at 34, 35 of 3 at 35, meta 1, meta 1, meta 1, meta 1 open 4, 40 of 3 at 40, 41 of 3 at 41, pad, pad\n",
    ),
    // A port hears what was told under a name.
    (
        &SMALL,
        false,
        "thread\npost a\nw 0 2 3\npost b\nawait a\nawait b\nr 0 3\nf\nawait b\nw 1 1 4\npost c\nawait c\nr 0 2\n",
        "done\nplaced 0 2\ndone\ndone\ndone\nwords 2 2 3 3 0\nsynced 2 2\ndone\nplaced 2 1\ndone\ndone\nwords 3 3 3 4\nclosed\nevents 2 open 8\nevents 1 open 4\n",
    ),
    // Blocks that can be read are fetched.
    (
        &SMALL,
        false,
        "thread\nw 0 16 1\nw 16 16 2\nf\nr 0 16\nr 16 16\n",
        "placed 0 16\nplaced 16 16\nsynced 32 32\nwords 32 32 1 1 1 1 1 1 1 1 1 1 1 1 1 1 1 1\nwords 32 32 2 2 2 2 2 2 2 2 2 2 2 2 2 2 2 2\nclosed\nevents 13 open 20\nevents 12 open 16\n",
    ),
    // The chunk of the first unit is written to its end before that of the second.
    (
        &SMALL,
        false,
        "thread\nw 0 16 1\nw 16 16 1\nw 32 8 1\nf\nr 24 16\nw 0 1 2\nf\nr 24 16\n",
        "placed 0 16\nplaced 16 16\nplaced 32 8\nsynced 40 40\nwords 40 40 1 1 1 1 1 1 1 1 1 1 1 1 1 1 1 1\nplaced 40 1\nsynced 41 41\nwords 41 41 1 1 1 1 1 1 1 1 1 1 1 1 1 1 1 1\nclosed\nevents 23 closed 24 open 4\nevents 15 closed 24 open 4\n",
    ),
    // Each full line keeps a live sector, so none is freed. There are Free lines enough.
    (
        &SMALL,
        false,
        "thread\nw 48 16 1\nw 16 16 1\nw 16 16 1\nw 44 16 1\nw 16 16 2\nw 40 16 2\nw 16 16 2\nw 16 16 2\nw 0 16 3\nf\nr 16 16\n",
        "placed 0 16\nplaced 16 16\nplaced 32 16\nplaced 48 16\nplaced 64 16\nplaced 80 16\nplaced 96 16\nplaced 112 16\nplaced 128 16\nsynced 144 144\nwords 144 144 2 2 2 2 2 2 2 2 2 2 2 2 2 2 2 2\nclosed\nevents 30 closed 24 closed 24 closed 24 open 16\nevents 29 closed 24 closed 24 closed 24 open 12\n",
    ),
    // Each full line keeps a live sector, and the first one keeps two. Of those that keep one the
    // oldest is collected first: the sectors 2, 3, 4 and 6 are copied, each at a position of its
    // own.
    (
        &SMALL,
        false,
        "thread\nw 0 2 1\nw 40 12 100\nw 40 13 101\nw 40 13 102\nw 2 1 2\nw 40 13 103\nw 40 13 104\nw 40 13 105\nw 3 1 3\nw 40 13 106\nw 40 13 107\nw 40 13 108\nw 4 1 4\nw 40 13 109\nw 40 13 110\nw 40 13 111\nw 5 1 5\nw 40 13 112\nw 40 13 113\nw 40 13 114\nw 6 1 6\nw 40 13 115\nw 40 13 116\nw 40 13 117\nw 7 1 7\nw 40 13 118\nw 40 13 119\nw 40 13 120\nf\nr 0 16\n",
        "placed 0 2\nplaced 2 12\nplaced 14 13\nplaced 27 13\nplaced 40 1\nplaced 41 13\nplaced 54 13\nplaced 67 13\nplaced 80 1\nplaced 81 13\nplaced 94 13\nplaced 107 13\nplaced 120 1\nplaced 121 13\nplaced 134 13\nplaced 147 13\nplaced 160 1\nplaced 161 13\nplaced 174 13\nplaced 188 13\nplaced 201 1\nplaced 202 13\nplaced 215 13\nplaced 228 13\nplaced 241 1\nplaced 243 13\nplaced 256 13\nplaced 270 13\nsynced 280 283\nwords 280 283 1 1 2 3 4 5 6 7 0 0 0 0 0 0 0 0\nclosed\nevents 49 closed 24 open 8 closed 24 closed 24\nevents 59 closed 24 open 8 closed 24 closed 24\n",
    ),
    // A line is full to its last address: a close leaves its end record where there are Free lines
    // enough.
    (
        &SMALL,
        false,
        "thread\nw 0 16 1\nw 16 16 1\nw 32 8 1\n",
        "placed 0 16\nplaced 16 16\nplaced 32 8\nclosed\nevents 6 closed 24\nevents 5 open 20\n",
    ),
    (
        &EIGHT_UNITS,
        false,
        "thread\nw 3 1 7\nw 3 1 8\nr 3 1\nw 389 16 5\nw 401 4 6\nr 389 16\nf\nr 389 16\n",
        "placed 0 1\nplaced 1 1\nwords 2 2 8\nplaced 2 16\nplaced 18 4\nwords 22 22 5 5 5 5 5 5 5 5 5 5 5 5 6 6 6 6\nsynced 22 22\nwords 22 22 5 5 5 5 5 5 5 5 5 5 5 5 6 6 6 6\nclosed\nevents 1 open 4\nevents 1 open 4\nevents 1 open 4\nevents 1 open 4\nevents 1 open 4\nevents 1 open 4\nevents 1 open 4\nevents 0\n",
    ),
    // A line is filled, and the next one opened.
    (
        &EIGHT_UNITS,
        false,
        "thread\nw 0 16 1\nw 16 16 2\nw 32 16 3\nw 48 16 4\nw 64 16 5\nw 80 16 6\nw 96 16 7\nw 112 16 8\nw 128 16 9\nw 144 16 10\nw 160 16 11\nw 176 16 12\nw 192 16 13\nf\nr 0 2\nr 175 16\n",
        "placed 0 16\nplaced 16 16\nplaced 32 16\nplaced 48 16\nplaced 64 16\nplaced 80 16\nplaced 96 16\nplaced 112 16\nplaced 128 16\nplaced 144 16\nplaced 160 16\nplaced 176 16\nplaced 192 16\nsynced 208 208\nwords 208 208 1 1\nwords 208 208 11 12 12 12 12 12 12 12 12 12 12 12 12 12 12 12\nclosed\nevents 7 closed 24 open 4\nevents 9 closed 24 open 4\nevents 7 closed 24 open 4\nevents 7 closed 24 open 4\nevents 8 closed 24 open 4\nevents 11 closed 24 open 4\nevents 7 closed 24 open 4\nevents 7 closed 24 open 4\n",
    ),
    (
        &ONE_UNIT,
        false,
        "thread\nw 86 4 1\nw 0 16 2\nw 85 2 3\nr 85 5\nf\nr 0 16\n",
        "placed 0 4\nplaced 4 16\nplaced 20 2\nwords 22 22 3 3 1 1 1\nsynced 22 22\nwords 22 22 2 2 2 2 2 2 2 2 2 2 2 2 2 2 2 2\nclosed\nevents 19 open 28\n",
    ),
    (
        &ONE_SECTOR,
        true,
        "thread\nw 0 1 1\nw 0 1 2\nw 0 1 3\nf\nw 0 1 4\nw 0 1 5\nr 0 1\n",
        "placed 0 1\nplaced 1 1\nplaced 2 1\nsynced 3 3\nplaced 3 1\nplaced 4 1\nwords 5 5 5\nclosed\nevents 2 open 8, meta 1, meta 1, meta 1, meta 1, 0 of 4 at 3, 0 of 5 at 4, pad, pad\nevents 1 open 4, 0 of 1 at 0, 0 of 2 at 1, 0 of 3 at 2, pad\n",
    ),
    (
        &EQUAL_WRITES,
        true,
        "thread\nw 0 5 9\nf\nr 0 5\n",
        "placed 0 5\nsynced 5 5\nwords 5 5 9 9 9 9 9\nclosed\nevents 2 open 8, meta 1, meta 1, meta 1, meta 1, 4 of 9 at 4, pad, pad, pad\nevents 1 open 4, 0 of 9 at 0, 1 of 9 at 1, 2 of 9 at 2, 3 of 9 at 3\n",
    ),
    (
        &WIDE_STRIPES,
        false,
        "thread\nw 0 16 1\nw 16 16 1\nf\nr 0 16\nw 32 16 2\nw 48 16 2\nw 32 16 3\nw 48 16 3\nw 32 16 4\nf\nr 0 16\nr 32 16\n",
        "placed 0 16\nplaced 16 16\nsynced 32 32\nwords 32 32 1 1 1 1 1 1 1 1 1 1 1 1 1 1 1 1\nplaced 32 16\nplaced 48 16\nplaced 64 16\nplaced 80 16\nplaced 96 16\nsynced 112 112\nwords 112 112 1 1 1 1 1 1 1 1 1 1 1 1 1 1 1 1\nwords 112 112 4 4 4 4 4 4 4 4 4 4 4 4 4 4 4 4\nclosed\nevents 2 open 128\nevents 18 open 128\n",
    ),
    // What is cached of an Open chunk is read from the write buffer.
    (
        &LATE_READS,
        false,
        "thread\nw 0 16 1\nw 16 16 1\nw 32 8 1\nf\nr 0 16\nw 0 16 2\nw 16 16 2\nw 32 16 2\nw 0 4 3\nf\nr 0 16\nr 32 8\n",
        "placed 0 16\nplaced 16 16\nplaced 32 8\nsynced 40 40\nwords 40 40 1 1 1 1 1 1 1 1 1 1 1 1 1 1 1 1\nplaced 40 16\nplaced 56 16\nplaced 72 16\nplaced 88 4\nsynced 92 92\nwords 92 92 3 3 3 3 2 2 2 2 2 2 2 2 2 2 2 2\nwords 92 92 2 2 2 2 2 2 2 2\nclosed\nevents 35 open 8 closed 24\nevents 23 open 8 closed 24\n",
    ),
    // Each unit has its stripe of a line.
    (
        &MOST_UNITS,
        false,
        "thread\nw 533 16 1\nw 517 16 2\nw 501 16 3\nw 485 16 4\nw 469 16 5\nw 453 16 6\nw 437 16 7\nw 421 16 8\nw 405 16 9\nw 389 16 10\nw 373 16 11\nw 357 16 12\nw 341 16 13\nw 325 16 14\nw 309 16 15\nw 293 16 16\nf\nr 533 16\nr 293 16\n",
        "placed 0 16\nplaced 16 16\nplaced 32 16\nplaced 48 16\nplaced 64 16\nplaced 80 16\nplaced 96 16\nplaced 112 16\nplaced 128 16\nplaced 144 16\nplaced 160 16\nplaced 176 16\nplaced 192 16\nplaced 208 16\nplaced 224 16\nplaced 240 16\nsynced 256 256\nwords 256 256 1 1 1 1 1 1 1 1 1 1 1 1 1 1 1 1\nwords 256 256 16 16 16 16 16 16 16 16 16 16 16 16 16 16 16 16\nclosed\nevents 2 closed 4 closed 4\nevents 10 closed 4 closed 4\nevents 10 closed 4 closed 4\nevents 10 closed 4 closed 4\nevents 5 closed 4\nevents 1 closed 4\nevents 1 closed 4\nevents 1 closed 4\nevents 1 closed 4\nevents 1 closed 4\nevents 1 closed 4\nevents 1 closed 4\nevents 1 closed 4\nevents 1 closed 4\nevents 1 closed 4\nevents 1 closed 4\nevents 1 closed 4\nevents 1 closed 4\nevents 1 closed 4\nevents 1 closed 4\nevents 1 closed 4\nevents 1 closed 4\nevents 1 closed 4\nevents 1 closed 4\nevents 1 closed 4\nevents 1 closed 4\nevents 1 closed 4\nevents 1 closed 4\nevents 1 closed 4\nevents 1 closed 4\nevents 1 closed 4\nevents 1 closed 4\nevents 1 closed 4\nevents 1 closed 4\nevents 1 closed 4\nevents 1 closed 4\nevents 1 closed 4\nevents 1 closed 4\nevents 1 closed 4\nevents 1 closed 4\nevents 1 closed 4\nevents 1 closed 4\nevents 1 closed 4\nevents 1 closed 4\nevents 1 closed 4\nevents 1 closed 4\nevents 1 closed 4\nevents 1 closed 4\nevents 1 closed 4\nevents 1 closed 4\nevents 1 closed 4\nevents 1 closed 4\nevents 1 closed 4\nevents 1 closed 4\nevents 1 closed 4\nevents 1 closed 4\nevents 1 closed 4\nevents 1 closed 4\nevents 1 closed 4\nevents 1 closed 4\nevents 1 closed 4\nevents 5 closed 4\nevents 1 closed 4\nevents 1 closed 4\n",
    ),
    (
        &LARGE_SECTORS,
        false,
        "thread\nw 88 2 4294967296\nr 87 3\nf\nr 87 3\nw 89 1 5\nr 89 1\n",
        "placed 0 2\nwords 2 2 0 4294967296 4294967296\nsynced 2 2\nwords 2 2 0 4294967296 4294967296\nplaced 2 1\nwords 3 3 5\nclosed\nevents 2 open 8\nevents 3 open 4\n",
    ),
];

#[test]
fn scripts_are_answered(rt: HostRuntime) -> Result<(), Fail> {
    for (shape, marks, script, says) in &ANSWERED {
        let text = told(&rt, rt.alloc(), shape, *marks, script)?;
        assert_eq!(rt; text.as_str(), *says, "{shape:?} {script}");
    }
    Ok(())
}
