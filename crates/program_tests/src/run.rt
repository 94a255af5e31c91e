//! `run`: transcripts, and the images that are stored.

use crate::harness::check;
use std::alloc::{AllocError, Global};
use std::test::Fail;

// A drive's blank image, a script, the transcript, and the history in the image afterwards.
const SHORT: &str = "
images=drive small ; script= ; text=kept 0/
images=drive small ; script=# nothing//thread ; text=kept 0/
images=drive small ; script=thread/r 9 2/ ; text=r 0 0 0 0 0/kept 0/
images=drive small ; script=thread/w 5 1 17/r 5 1/ ; text=h 0 0 5 17/r 0 1 1 17/kept 1/ ; after=drive small 5=17
images=drive small ; script=thread/w 3 1 7/w 3 1 8/r 3 1/ ; text=h 0 0 3 7/h 1 0 3 8/r 0 2 2 8/kept 2/ ; after=drive small 3=7 3=8
# Reads between writes, at their fronts; the last sector; the greatest tag; a tag of 0.
images=drive small ; script=thread/r 62 2/w 62 2 18446744073709551615/r 61 3/w 63 1 0/r 63 1/ ; text=h 0 0 62 18446744073709551615/h 1 0 63 18446744073709551615/h 2 0 63 0/r 0 0 0 0 0/r 0 2 2 0 18446744073709551615 18446744073709551615/r 0 4 3 0/kept 3/ ; after=drive small 62=18446744073709551615 63=18446744073709551615 63=0
# Five sectors: a stripe in each unit, and a third whose last three blocks are Pad.
images=drive small ; script=thread/w 10 5 258/ ; text=h 0 0 10 258/h 1 0 11 258/h 2 0 12 258/h 3 0 13 258/h 4 0 14 258/kept 5/ ; after=drive small 10=258 11=258 12=258 13=258 14=258
# Four sectors: no Pad.
images=drive small ; script=thread/w 0 4 1 ; text=h 0 0 0 1/h 1 0 1 1/h 2 0 2 1/h 3 0 3 1/kept 4/ ; after=drive small 0=1 1=1 2=1 3=1
images=drive large ; script=thread/w 89 1 4294967296/r 88 2/w 0 1 3/ ; text=h 0 0 89 4294967296/h 1 0 0 3/r 0 1 1 0 4294967296/kept 2/ ; after=drive large 89=4294967296 0=3
images=drive groups ; script=thread/w 295 2 1/w 0 3 2/w 296 1 3/r 295 2/ ; text=h 0 0 295 1/h 1 0 296 1/h 2 0 0 2/h 3 0 1 2/h 4 0 2 2/h 5 0 296 3/r 0 3 6 1 3/kept 6/ ; after=drive groups 295=1 296=1 0=2 1=2 2=2 296=3
images=drive unit ; script=thread/w 0 1 4/r 0 1/w 0 1 5/ ; text=h 0 0 0 4/h 1 0 0 5/r 0 1 1 4/kept 2/ ; after=drive unit 0=4 0=5
images=drive unit ; script=thread/w 0 1 1/w 0 1 2/w 0 1 3/w 0 1 4/w 0 1 5/w 0 1 6/w 0 1 7/ ; text=h 0 0 0 1/h 1 0 0 2/h 2 0 0 3/h 3 0 0 4/h 4 0 0 5/h 5 0 0 6/h 6 0 0 7/kept 7/ ; after=drive unit 0=1 0=2 0=3 0=4 0=5 0=6 0=7
# A flush of nothing, and flushes of the last stripe, which they fill with Pad as the close would.
images=drive small ; script=thread/f/r 0 1/f/ ; text=f 0 0 0/r 0 1 0 0/f 0 2 0/kept 0/
images=drive small ; script=thread/w 5 1 17/r 5 1/f/ ; text=h 0 0 5 17/r 0 1 1 17/f 0 2 1/kept 1/ ; after=drive small 5=17
images=drive groups ; script=thread/w 295 2 1/w 0 3 2/f/f/r 0 1/ ; text=h 0 0 295 1/h 1 0 296 1/h 2 0 0 2/h 3 0 1 2/h 4 0 2 2/f 0 2 5/f 0 3 5/r 0 4 5 2/kept 5/ ; after=drive groups 295=1 296=1 0=2 1=2 2=2
# What is posted is heard.
images=drive small ; script=thread/post a/w 0 2 3/post b/await a/await b/r 0 3/f/await b/ ; text=h 0 0 0 3/h 1 0 1 3/r 0 5 2 3 3 0/f 0 6 2/kept 2/ ; after=drive small 0=3 1=3
images=drive unit ; script=thread/post a/await a/ ; text=kept 0/
# Several threads: without a command, and with posts that put their commands in order.
images=drive small ; script=thread/thread/ ; text=kept 0/
images=drive unit ; script=thread/post a/thread/await a/thread/ ; text=kept 0/
images=drive small ; script=thread/w 5 1 17/f/post a/thread/await a/r 5 1/ ; \
text=h 0 0 5 17/f 0 1 1/r 1 1 1 17/kept 1/ ; after=drive small 5=17
images=drive small ; \
script=thread/w 3 1 7/post a/thread/await a/w 3 1 8/post b/thread/await b/r 3 1/ ; \
text=h 0 0 3 7/h 1 1 3 8/r 2 1 2 8/kept 2/ ; after=drive small 3=7 3=8
images=drive small ; \
script=thread/thread/thread/thread/thread/thread/thread/thread/thread/thread/thread/thread/thread/\
thread/thread/thread/w 9 1 4/r 9 1/ ; text=h 0 15 9 4/r 15 1 1 4/kept 1/ ; after=drive small 9=4
";

#[test]
fn scripts_are_run(rt: HostRuntime) -> Result<(), Fail> {
    check(&rt, rt.alloc(), "call=run|image|script", SHORT)
}

// Three writes fill the first line but for a stripe.
const FILLED: &str = "
script=thread/w 0 16 1/w 8 16 2/w 20 4 3/r 20 5/ ; \
text=h 0 0 0 1/h 1 0 1 1/h 2 0 2 1/h 3 0 3 1/h 4 0 4 1/h 5 0 5 1/h 6 0 6 1/h 7 0 7 1/h 8 0 8 1/\
h 9 0 9 1/h 10 0 10 1/h 11 0 11 1/h 12 0 12 1/h 13 0 13 1/h 14 0 14 1/h 15 0 15 1/h 16 0 8 2/\
h 17 0 9 2/h 18 0 10 2/h 19 0 11 2/h 20 0 12 2/h 21 0 13 2/h 22 0 14 2/h 23 0 15 2/h 24 0 16 2/\
h 25 0 17 2/h 26 0 18 2/h 27 0 19 2/h 28 0 20 2/h 29 0 21 2/h 30 0 22 2/h 31 0 23 2/h 32 0 20 3/\
h 33 0 21 3/h 34 0 22 3/h 35 0 23 3/r 0 3 36 3 3 3 3 0/kept 36/ ; \
after=drive small 0=1 1=1 2=1 3=1 4=1 5=1 6=1 7=1 8=1 9=1 10=1 11=1 12=1 13=1 14=1 15=1 8=2 9=2 10=2 11=2 12=2 \
13=2 14=2 15=2 16=2 17=2 18=2 19=2 20=2 21=2 22=2 23=2 20=3 21=3 22=3 23=3
";

#[test]
fn a_line_is_filled_but_for_a_stripe(rt: HostRuntime) -> Result<(), Fail> {
    check(
        &rt,
        rt.alloc(),
        "call=run|image|script ; images=drive small",
        FILLED,
    )
}

// MNR, MCCAP, WIT, MAXOC and MAXOCPU are kept, and so are the wear indices of two chunks. Bytes of the
// geometry and of two descriptors that mean nothing are left as zeros.
const KEPT: &str = "
script=thread/r 0 1/ ; text=r 0 0 0 0/kept 0/ ; after=drive small 7@33 1@48 255@51 3@64 4@172 2@176 9@4130 255@4610
script=thread/w 0 1 6/ ; text=h 0 0 0 6/kept 1/ ; after=drive small 0=6 7@33 1@48 255@51 3@64 4@172 2@176 9@4130 255@4610
";

#[test]
fn numbers_are_kept_and_the_rest_is_zeros(rt: HostRuntime) -> Result<(), Fail> {
    check(
        &rt,
        rt.alloc(),
        "call=run|image|script ; images=drive small 7@33 1@48 255@51 3@64 4@172 2@176 9@4130 255@4610 5@34 5@4127 5@4131 5@4135 5@4611",
        KEPT,
    )
}

// Rounds over the sectors of the small drive, a flush of them all, and a read: how many rounds; what
// else its row says; how many lines of the history the text begins with; and the rest of it. Lines
// of earlier rounds are freed for later ones.
const ROUNDS: [(u32, &str, u64, &str); 4] = [
    (
        3,
        "",
        192,
        "f 0 12 192/r 0 13 192 3 3 3 3 3 3 3 3 3 3 3 3 3 3 3 3/kept 192/",
    ),
    (
        4,
        "",
        256,
        "f 0 16 256/r 0 17 256 4 4 4 4 4 4 4 4 4 4 4 4 4 4 4 4/kept 256/",
    ),
    // Where the output fails, half of the text is written.
    (4, " ; output=1 ; status=8", 135, "h "),
    (
        40,
        "",
        2560,
        "f 0 160 2560/r 0 161 2560 40 40 40 40 40 40 40 40 40 40 40 40 40 40 40 40/kept 2560/",
    ),
];

// The row of so many rounds.
fn rounds_row(
    alloc: Global,
    rounds: u32,
    ends: &str,
    lines: u64,
    rest: &str,
) -> Result<String, AllocError> {
    let mut row = format!(in alloc; "call=run|image|script ; script=thread/")?;
    for command in 0..u64::from(rounds) * 4 {
        write!(row, "w {} 16 {}/", command % 4 * 16, command / 4 + 1)?;
    }
    write!(row, "f/r 0 16/{ends} ; text=")?;
    for number in 0..lines {
        write!(row, "h {number} 0 {} {}/", number % 64, number / 64 + 1)?;
    }
    row.push_str(rest)?;
    Ok(row)
}

#[test]
fn rounds_over_all_sectors_free_lines(rt: HostRuntime) -> Result<(), Fail> {
    for (rounds, ends, lines, rest) in &ROUNDS {
        let row = rounds_row(rt.alloc(), *rounds, ends, *lines, rest)?;
        check(&rt, rt.alloc(), "images=drive small ; after=untold", &row)?;
    }
    Ok(())
}

// Drives without room, since most of their chunks are Offline: all are; two lines are left, whose
// addresses are kept for collection; three lines are left, of which one can be filled. No line is
// older than a start record, so none is collected.
const WORN: &str = "
images=drive small 8@4128 8@4160 8@4192 8@4224 8@4256 8@4288 8@4320 8@4352 8@4384 8@4416 8@4448 8@4480 8@4512 8@4544 8@4576 8@4608 ; script=thread/w 0 1 1/f/ ; text=worn 0 0 1 0/f 0 1 0/kept 0/
images=drive small 8@4192 8@4224 8@4256 8@4288 8@4320 8@4352 8@4448 8@4480 8@4512 8@4544 8@4576 8@4608 ; script=thread/w 5 1 3/r 5 1/f/ ; text=worn 0 0 1 0/r 0 1 0 0/f 0 2 0/kept 0/
images=drive small 8@4224 8@4256 8@4288 8@4320 8@4352 8@4480 8@4512 8@4544 8@4576 8@4608 ; script=thread/w 0 16 1/w 0 10 2/w 5 7 3/r 0 2/f/w 9 3 4/r 8 4/w 0 9 5/ ; text=h 0 0 0 2/h 1 0 1 2/h 2 0 2 2/h 3 0 3 2/h 4 0 4 2/h 5 0 5 2/h 6 0 6 2/h 7 0 7 2/h 8 0 8 2/h 9 0 9 2/h 10 0 9 4/h 11 0 10 4/h 12 0 11 4/worn 0 0 16 10/worn 0 2 17 16/r 0 3 10 2 2/f 0 4 10/r 0 6 13 2 4 4 4/worn 0 7 22 17/kept 13/ ; after=untold
";

#[test]
fn writes_without_room_are_told(rt: HostRuntime) -> Result<(), Fail> {
    check(&rt, rt.alloc(), "call=run|image|script ; status=6", WORN)
}
