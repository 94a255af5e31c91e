//! `create`: images that are made, and numbers of which no image is made.

use crate::harness::check;
use std::test::Fail;

// Words, and the drive whose blank image they make: where there is no file, and over a file that
// is no image or is this one.
const MADE: &str = "
call=create|image ; images=absent, old, drive small ; text=created 4640/ ; after=drive small
call=create|image|--groups|1|--units|2|--chunks|8|--blocks|24|--ws-min|2|--ws-opt|4|--mw|8|--sector|512|--capacity|64|--ring|64 ; images=absent, old, drive small ; text=created 4640/ ; after=drive small
call=create|--sector=4096|--mw=0|--capacity=90|image ; images=absent, old, drive large ; text=created 4640/ ; after=drive large
# 48 chunks.
call=create|--groups|2|image|--units=3|--ring|256|--capacity|297 ; images=absent, old, drive groups ; text=created 5664/ ; after=drive groups
call=create|image|--units|1|--chunks|12|--blocks|84|--ws-min|1|--ws-opt|6|--mw|54|--capacity|1|--ring|128 ; images=absent, old, drive unit ; text=created 4512/ ; after=drive unit
# Numbers at their edges: the capacity, the ring, the blocks of 256 MiB, and the chunks.
call=create|image|--capacity|90 ; images=absent, old, drive capacity-90 ; text=created 4640/ ; after=drive capacity-90
call=create|image|--capacity|1 ; images=absent, old, drive capacity-1 ; text=created 4640/ ; after=drive capacity-1
call=create|image|--ring|16384 ; images=absent, old, drive ring-16384 ; text=created 4640/ ; after=drive ring-16384
call=create|image|--blocks|32768 ; images=absent, old, drive blocks-32768 ; text=created 4640/ ; after=drive blocks-32768
call=create|image|--chunks|1024|--blocks|32|--sector|4096 ; images=absent, old, drive chunks-1024 ; text=created 69664/ ; after=drive chunks-1024
# Among 33 chunks an address has one bit more than among 32.
call=create|image|--chunks|33 ; images=absent, old, drive chunks-33 ; text=created 6240/ ; after=drive chunks-33
";

#[test]
fn blank_images_are_made(rt: HostRuntime) -> Result<(), Fail> {
    check(&rt, rt.alloc(), "script=absent", MADE)
}

// Words, and why nothing is made: where there is no file, and over a file.
const REFUSED: &str = "
call=create|image|--groups|0 ; text=image Geometry Field 64/
call=create|image|--units|0 ; text=image Geometry Field 66/
call=create|image|--chunks|0 ; text=image Geometry Field 68/
call=create|image|--blocks|0 ; text=image Geometry Field 72/
call=create|image|--ws-min|0 ; text=image Geometry Field 128/
call=create|image|--ws-opt|0 ; text=image Geometry Field 132/
call=create|image|--units|65 ; text=image Geometry Profile 1/
call=create|image|--groups|65535|--units|65535 ; text=image Geometry Profile 1/
call=create|image|--groups|13|--units|5 ; text=image Geometry Profile 1/
call=create|image|--chunks|7 ; text=image Geometry Profile 2/
call=create|image|--chunks|1025 ; text=image Geometry Profile 2/
call=create|image|--chunks|4294967295 ; text=image Geometry Profile 2/
call=create|image|--ws-min|3 ; text=image Geometry Profile 3/
call=create|image|--ws-min|8 ; text=image Geometry Profile 3/
call=create|image|--ws-opt|66|--blocks|132|--mw|66 ; text=image Geometry Profile 3/
call=create|image|--blocks|26 ; text=image Geometry Profile 4/
call=create|image|--blocks|4294967295 ; text=image Geometry Profile 4/
call=create|image|--mw|6 ; text=image Geometry Profile 5/
call=create|image|--mw|24 ; text=image Geometry Profile 5/
call=create|image|--sector|0 ; text=image Settings 1/
call=create|image|--sector|513 ; text=image Settings 1/
call=create|image|--sector|8192 ; text=image Settings 1/
call=create|image|--blocks|32772 ; text=image Settings 2/
call=create|image|--blocks|4294967292 ; text=image Settings 2/
call=create|image|--chunks|1024|--blocks|36|--sector|4096 ; text=image Settings 2/
call=create|image|--blocks|20 ; text=image Settings 3/
call=create|image|--chunks|1024 ; text=image Settings 3/
call=create|image|--capacity|0 ; text=image Settings 4/
call=create|image|--capacity|91 ; text=image Settings 4/
call=create|image|--capacity|18446744073709551615 ; text=image Settings 4/
call=create|image|--ring|0 ; text=image Settings 5/
call=create|image|--ring|32 ; text=image Settings 5/
call=create|image|--ring|96 ; text=image Settings 5/
call=create|image|--ring|32768 ; text=image Settings 5/
# Several at once: the fields come first, in their order, then the rules, then the settings.
call=create|image|--chunks|0|--ws-opt|0 ; text=image Geometry Field 68/
call=create|image|--ws-min|0|--units|65 ; text=image Geometry Field 128/
call=create|image|--chunks|7|--units|65 ; text=image Geometry Profile 1/
call=create|image|--capacity|91|--mw|24 ; text=image Geometry Profile 5/
call=create|image|--capacity|91|--sector|513 ; text=image Settings 1/
call=create|image|--capacity|91|--blocks|20 ; text=image Settings 3/
call=create|image|--ring|32|--capacity|91 ; text=image Settings 4/
";

#[test]
fn refused_numbers_make_nothing(rt: HostRuntime) -> Result<(), Fail> {
    check(&rt, rt.alloc(), "images=absent, kept ; status=3", REFUSED)
}
