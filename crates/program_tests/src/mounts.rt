//! Several calls on one image, each on what the one before it left.

use crate::harness::check;
use std::test::Fail;

const MOUNTS: &str = r#"
# Four sectors in a stripe that was written whole, and the bytes by which it stands at the positions
# 4 to 7. It doesn't come back when the positions below, which are all missing, are written.
call=show|image ; images=drive small 4=9 5=9 6=9 7=9 4@7272 5@7800 6@8328 7@8856 ; text=end 0 sectors 64/
call=run|image|script ; script=thread/w 10 4 5/f/ ; text=h 0 0 10 5/h 1 0 11 5/h 2 0 12 5/h 3 0 13 5/f 0 1 4/kept 4/
call=show|image ; text=10 5/11 5/12 5/13 5/end 4 sectors 64/
call=report|image ; text={"capacity":64,"closed":0,"counted":4,"end":4,"free":14,"head":1,"live":4,"offline":0,"open":2,"seq":2}/
# Three mounts on each other's images: a sector of the first is overwritten in the second, and read
# in the third.
call=run|image|script ; images=drive small ; script=thread/w 5 1 17/r 5 1/f/ ; text=h 0 0 5 17/r 0 1 1 17/f 0 2 1/kept 1/
call=show|image ; text=5 17/end 1 sectors 64/
call=run|image|script ; script=thread/r 5 1/w 4 3 20/r 4 3/f/ ; text=h 0 0 4 20/h 1 0 5 20/h 2 0 6 20/r 0 0 0 17/r 0 2 3 20 20 20/f 0 3 3/kept 3/
call=report|image ; text={"capacity":64,"closed":2,"counted":4,"end":4,"free":12,"head":1,"live":3,"offline":0,"open":2,"seq":2}/
call=run|image|script ; script=thread/r 3 4/w 6 1 30/f/r 4 4/ ; text=h 0 0 6 30/r 0 0 0 0 20 20 20/f 0 2 1/r 0 3 1 20 20 30 0/kept 1/
call=show|image ; text=4 20/5 20/6 30/end 5 sectors 64/
call=report|image ; text={"capacity":64,"closed":2,"counted":4,"end":5,"free":12,"head":0,"live":3,"offline":0,"open":2,"seq":3}/
# A mount in which nothing is written, and one in which nothing is run.
call=run|image|script ; images=drive small 5=17 ; script=thread/r 5 1/f/ ; text=r 0 0 0 17/f 0 1 0/kept 0/
call=run|image|script ; script= ; text=kept 0/
call=show|image ; text=5 17/end 1 sectors 64/
call=report|image ; text={"capacity":64,"closed":2,"counted":1,"end":1,"free":14,"head":0,"live":1,"offline":0,"open":0,"seq":1}/
# A Closed chunk of no block, whose line has no start record: it is Offline once it was reset.
call=run|image|script ; images=drive small 2@4128 cut:4640 ; script=thread/r 0 1/ ; text=r 0 0 0 0/kept 0/
call=run|image|script ; script=thread/w 0 1 6/f/ ; text=h 0 0 0 6/f 0 1 1/kept 1/
call=show|image ; text=0 6/end 1 sectors 64/
call=report|image ; text={"capacity":64,"closed":0,"counted":1,"end":1,"free":14,"head":0,"live":1,"offline":1,"open":1,"seq":1}/
# An Offline chunk.
call=run|image|script ; images=drive small 8@4608 cut:4640 ; script=thread/r 0 1/ ; text=r 0 0 0 0/kept 0/
call=run|image|script ; script=thread/w 0 1 6/f/ ; text=h 0 0 0 6/f 0 1 1/kept 1/
call=show|image ; text=0 6/end 1 sectors 64/
call=report|image ; text={"capacity":64,"closed":0,"counted":1,"end":1,"free":13,"head":0,"live":1,"offline":1,"open":2,"seq":1}/
# An Open chunk of a line that has no start record: it is Free once it was padded and reset.
call=run|image|script ; images=drive small 4@4256 2@4280 cut:5696 ; script=thread/r 0 1/ ; text=r 0 0 0 0/kept 0/
call=report|image ; text={"capacity":64,"closed":1,"counted":0,"end":0,"free":15,"head":null,"live":0,"offline":0,"open":0,"seq":0}/
call=run|image|script ; script=thread/w 0 1 6/f/ ; text=h 0 0 0 6/f 0 1 1/kept 1/
call=show|image ; text=0 6/end 1 sectors 64/
call=report|image ; text={"capacity":64,"closed":0,"counted":1,"end":1,"free":14,"head":0,"live":1,"offline":0,"open":2,"seq":1}/
"#;

#[test]
fn images_are_run_on_again(rt: HostRuntime) -> Result<(), Fail> {
    check(&rt, rt.alloc(), "images=left ; after=untold", MOUNTS)
}
