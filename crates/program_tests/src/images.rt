//! Images that are refused: by `geometry`, and by `run` before its script is judged.

use crate::harness::check;
use std::test::Fail;

// Images, and why they are refused. Beside each stands a script that is refused.
const REFUSED: &str = "
# The parts in their order: each first whole, then right.
images=drive small cut:0 ; text=image Short 0/
images=drive small 1@0 cut:31 ; text=image Short 31/
images=drive small 1@0 cut:32 ; text=image Magic/
images=drive small 1@7 2@8 cut:4640 ; text=image Magic/
images=drive small 2@8 cut:32 ; text=image Version/
images=drive small 0@8 1@32 cut:4640 ; text=image Version/
images=drive small 1@11 cut:4641 ; text=image Version/
images=drive small 1@32 cut:33 ; text=image Short 33/
images=drive small 1@32 cut:4127 ; text=image Short 4127/
images=drive small 1@32 cut:4128 ; text=image Geometry Field 0/
images=drive small 3@4128 cut:4128 ; text=image Short 4128/
images=drive small 3@4128 cut:4639 ; text=image Short 4639/
images=drive small cut:4639 ; text=image Short 4639/
images=drive small cut:4641 ; text=image Long/
images=drive small 3@4128 cut:4641 ; text=image Chunk 0 0 1/
# An Open chunk of two blocks, whose 1056 bytes end one byte early and one byte late.
images=drive small 4@4128 2@4152 cut:5695 ; text=image Short 5695/
images=drive small 4@4128 2@4152 cut:5697 ; text=image Long/
# Fields: lengths above 32 or too small, and zeros.
images=drive small 33@40 cut:4640 ; text=image Geometry Field 8/
images=drive small 0@41 cut:4640 ; text=image Geometry Field 9/
images=drive small 2@42 cut:4640 ; text=image Geometry Field 10/
images=drive small 4@43 cut:4640 ; text=image Geometry Field 11/
images=drive small 0@96 cut:4640 ; text=image Geometry Field 64/
images=drive small 0@164 0@160 cut:4640 ; text=image Geometry Field 128/
# Rules that no numbers of `create` break: MAXOC below twice the units, MAXOCPU of one, and
# addresses of 72 bits.
images=drive small 3@172 cut:4640 ; text=image Geometry Profile 6/
images=drive small 1@176 cut:4640 ; text=image Geometry Profile 7/
images=drive small 32@40 32@41 cut:4640 ; text=image Geometry Profile 8/
images=drive small 7@100 1@12 cut:4640 ; text=image Geometry Profile 2/
# Settings: a sector of 768 bytes, a capacity of 91, and a ring of 65.
images=drive small 3@13 cut:4640 ; text=image Settings 1/
images=drive small 91@16 65@24 cut:4128 ; text=image Settings 4/
images=drive small 65@24 cut:4128 ; text=image Settings 5/
# Chunks, in their order, and of each the least rule.
images=drive small 0@4384 3@4616 cut:4640 ; text=image Chunk 1 0 1/
images=drive small 2@4161 1@4168 cut:4640 ; text=image Chunk 0 1 2/
images=drive small 9@4617 cut:4640 ; text=image Chunk 1 7 3/
images=drive small 23@4624 cut:4640 ; text=image Chunk 1 7 4/
images=drive small 2@4632 cut:4640 ; text=image Chunk 1 7 5/
";

#[test]
fn images_are_refused(rt: HostRuntime) -> Result<(), Fail> {
    check(
        &rt,
        rt.alloc(),
        "call=geometry|image ; script=thread/x/ ; status=3",
        REFUSED,
    )?;
    check(
        &rt,
        rt.alloc(),
        "call=run|image|script ; script=thread/x/ ; status=3",
        REFUSED,
    )
}

// A script, and an image of a drive that was written, whose first chunk's pointer is changed.
const OTHERS: &str = "
images=thread/w 5 1 17/ ; text=image Short 16/
images=drive small 0=1 3@4152 ; text=image Chunk 0 0 5/
";

#[test]
fn a_script_and_a_wrong_pointer_are_refused(rt: HostRuntime) -> Result<(), Fail> {
    check(
        &rt,
        rt.alloc(),
        "call=geometry|image ; script=thread/x/ ; status=3",
        OTHERS,
    )?;
    check(
        &rt,
        rt.alloc(),
        "call=run|image|script ; script=thread/x/ ; status=3",
        OTHERS,
    )
}

// Scripts that are refused, so that nothing is done on the drive, beside images of which a chunk
// isn't Free: it is Open, Closed or Offline.
const BESIDE: &str = "
script=thread/x/ ; text=script Form 2/
script=thread/w 0 1 1/f/thread/await x/ ; text=script NeverPosted 5/
";

#[test]
fn scripts_beside_written_images_are_refused(rt: HostRuntime) -> Result<(), Fail> {
    check(
        &rt,
        rt.alloc(),
        "call=run|image|script ; images=drive small 0=1, drive small 2@4128 cut:4640, drive small 8@4608 cut:4640, drive small 4@4256 2@4280 cut:5696 ; status=2",
        BESIDE,
    )
}

// Words, the files, and which is missing: the image is read before the script, and both before
// either is judged.
const MISSING: &str = "
call=geometry|image ; images=absent ; text=files Missing image/
call=geometry|script ; images=drive small ; text=files Missing script/
call=run|image|script ; images=absent ; script=x ; text=files Missing image/
call=run|image|script ; images=absent ; text=files Missing image/
call=run|image|script ; images=drive small ; text=files Missing script/
call=run|image|script ; images= ; text=files Missing script/
call=run|image|a b/c ; images=drive small ; text=files Missing a b\\x0ac/
call=geometry|\u{1f}\u{7f}é ; images=drive small ; text=files Missing \\x1f\\x7fé/
";

#[test]
fn missing_files_are_named(rt: HostRuntime) -> Result<(), Fail> {
    check(&rt, rt.alloc(), "status=4", MISSING)
}
