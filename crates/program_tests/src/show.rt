//! `show` and `report`: what they print of images.

use crate::harness::check;
use std::test::Fail;

// Images, and what `show` prints.
const SHOWN: &str = "
images=drive small ; text=end 0 sectors 64/
images=drive small 5=17 ; text=5 17/end 1 sectors 64/
# A sector that was written twice.
images=drive small 3=7 63=1 3=8 ; text=3 8/63 1/end 3 sectors 64/
# The last sector alone, of the greatest tag; and a sector that was written with zeros.
images=drive large 89=18446744073709551615 0=0 ; text=89 18446744073709551615/end 2 sectors 90/
# A stripe that was written whole, which stands at the positions 4 to 7, so that the positions 0 to
# 3 are missing; its first block is at byte 6752.
images=drive small 4=9 5=9 6=9 7=9 4@7272 5@7800 6@8328 7@8856 ; text=end 0 sectors 64/
# A byte of the first sector that was written.
images=drive small 4=9 5=9 6=9 7=9 1@7000 ; text=4 mixed/5 9/6 9/7 9/end 4 sectors 64/
# A byte of the start record's header.
images=drive small 4=9 5=9 6=9 7=9 0@4640 ; text=end 0 sectors 64/
";

#[test]
fn the_sectors_of_images_are_listed(rt: HostRuntime) -> Result<(), Fail> {
    check(&rt, rt.alloc(), "call=show|image", SHOWN)
}

// Images, and what `report` prints.
const REPORTED: &str = r#"
images=drive small ; text={"capacity":64,"closed":0,"counted":0,"end":0,"free":16,"head":null,"live":0,"offline":0,"open":0,"seq":0}/
images=drive small 5=17 ; text={"capacity":64,"closed":0,"counted":1,"end":1,"free":14,"head":0,"live":1,"offline":0,"open":2,"seq":1}/
# A sector that was written twice.
images=drive small 3=7 63=1 3=8 ; text={"capacity":64,"closed":0,"counted":3,"end":3,"free":14,"head":0,"live":2,"offline":0,"open":2,"seq":1}/
# The stripe over missing positions.
images=drive small 4=9 5=9 6=9 7=9 4@7272 5@7800 6@8328 7@8856 ; text={"capacity":64,"closed":0,"counted":0,"end":0,"free":14,"head":0,"live":0,"offline":0,"open":2,"seq":1}/
"#;

#[test]
fn the_numbers_of_contents_are_printed(rt: HostRuntime) -> Result<(), Fail> {
    check(&rt, rt.alloc(), "call=report|image", REPORTED)
}
