//! `geometry`: what it prints of an image.

use crate::harness::check;
use std::test::Fail;

// Images, and what is printed.
const PRINTED: &str = "
images=drive small ; text=groups 1/units 2/chunks 8/blocks 24/ws_min 2/ws_opt 4/mw_cunits 8/maxoc 0/maxocpu 0/sector 512/capacity 64/ring 64/free 16/open 0/closed 0/offline 0/
images=drive large ; text=groups 1/units 2/chunks 8/blocks 24/ws_min 2/ws_opt 4/mw_cunits 0/maxoc 0/maxocpu 0/sector 4096/capacity 90/ring 64/free 16/open 0/closed 0/offline 0/
images=drive groups ; text=groups 2/units 6/chunks 8/blocks 24/ws_min 2/ws_opt 4/mw_cunits 8/maxoc 0/maxocpu 0/sector 512/capacity 297/ring 256/free 48/open 0/closed 0/offline 0/
images=drive unit ; text=groups 1/units 1/chunks 12/blocks 84/ws_min 1/ws_opt 6/mw_cunits 54/maxoc 0/maxocpu 0/sector 512/capacity 1/ring 128/free 12/open 0/closed 0/offline 0/
# A line of which both units have a stripe, and of the large sectors one unit has two.
images=drive large 3=1 3=2 3=3 3=4 3=5 ; text=groups 1/units 2/chunks 8/blocks 24/ws_min 2/ws_opt 4/mw_cunits 0/maxoc 0/maxocpu 0/sector 4096/capacity 90/ring 64/free 14/open 2/closed 0/offline 0/
# Chunk 3 of unit 0 and chunk 7 of unit 1 are Offline; chunks 1 and 2 of unit 0 were closed by
# writes of which nothing landed.
images=drive small 0=1 2@4160 2@4192 8@4224 8@4608 ; text=groups 1/units 2/chunks 8/blocks 24/ws_min 2/ws_opt 4/mw_cunits 8/maxoc 0/maxocpu 0/sector 512/capacity 64/ring 64/free 10/open 2/closed 2/offline 2/
# At most 4 chunks are open, and 2 in a unit; 2.7, with the numbers 1 and 3 for MCCAP and WIT; and
# a byte of the geometry and of a descriptor that say nothing.
images=drive small 7@33 1@48 3@64 4@172 2@176 9@4127 9@4131 ; text=groups 1/units 2/chunks 8/blocks 24/ws_min 2/ws_opt 4/mw_cunits 8/maxoc 4/maxocpu 2/sector 512/capacity 64/ring 64/free 16/open 0/closed 0/offline 0/
";

#[test]
fn the_numbers_of_images_are_printed(rt: HostRuntime) -> Result<(), Fail> {
    check(&rt, rt.alloc(), "call=geometry|image", PRINTED)
}
