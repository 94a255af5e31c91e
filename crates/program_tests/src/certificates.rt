//! `certify` and `check`: the certificates of images.

use crate::harness::check;
use crate::parities::{RUNS, after_run};
use crate::stops::called;
use std::alloc::{AllocError, Global};
use std::sync::Wait;
use std::test::Fail;
use std::thread::Threads;

// Images, and their certificates, which take the images' places.
const MADE: &str = "
images=drive small ; after=head none/end 0/ ; text=certified 16/
after=head 0/end 1/line 0 1 0/bear 0 0 4/win 5 0 0 4/live 0 1/ ; text=certified 56/
images=absent ; status=4 ; text=files Missing image/
images=drive small 5=17 cut:100 ; status=3 ; text=image Short 100/
files=1 ; status=4 ; text=files Failed image/
images=drive small ; output=1 ; after=head none/end 0/ ; status=8 ; text=certif
";

#[test]
fn certificates_are_made(rt: HostRuntime) -> Result<(), Fail> {
    check(
        &rt,
        rt.alloc(),
        "call=certify|image|image ; images=drive small 5=17",
        MADE,
    )
}

// Images, and what is told of them by one certificate.
const CHECKED: &str = "
images=drive small 5=17 ; text=yes/tidy yes/
# Another content of the sector changes nothing that the certificate says.
images=drive small 5=18 ; text=yes/tidy yes/
images=drive small 6=17 ; status=3 ; text=check Winner 5/
images=drive small 5=17 5=18 ; status=3 ; text=check End/
images=drive small ; status=3 ; text=check Line 0/
images=absent ; status=4 ; text=files Missing image/
images=drive small 5=17 cut:100 ; status=3 ; text=image Short 100/
images=drive small 5=17 ; files=1 ; status=4 ; text=files Failed image/
images=drive small 5=17 ; files=2 ; status=4 ; text=files Failed script/
images=drive small 5=17 ; output=1 ; status=8 ; text=yes/ti
";

#[test]
fn certificates_are_checked(rt: HostRuntime) -> Result<(), Fail> {
    let usual =
        "call=check|image|script ; script=head 0/end 1/line 0 1 0/bear 0 0 4/win 5 0 0 4/live 0 1/";
    check(&rt, rt.alloc(), usual, CHECKED)
}

// Certificates of one image that aren't right, and what is told of them.
const WRONG: &str = "
script=head 0/end 1/line 0 2 0/bear 0 0 4/win 5 0 0 4/live 0 1/ ; text=check Line 0/
script=head none/end 1/line 0 1 0/bear 0 0 4/win 5 0 0 4/live 0 1/ ; text=check Head/
script=head 0/end 1/line 0 1 0/bear 0 0 5/win 5 0 0 4/live 0 1/ ; text=check Bearer 0/
script=head 0/end 1/line 0 1 0/bear 0 0 4/win 5 0 0 4/live 0 2/ ; text=check Live 0/
# The image is judged before the certificate.
images=drive small 5=17 cut:100 ; script=/ ; text=image Short 100/
script=/ ; text=certificate Form 1/
script=head 0/ ; text=certificate Form 2/
script=absent ; status=4 ; text=files Missing script/
";

#[test]
fn wrong_certificates_are_refused(rt: HostRuntime) -> Result<(), Fail> {
    let usual = "call=check|image|script ; images=drive small 5=17 ; status=3";
    check(&rt, rt.alloc(), usual, WRONG)
}

// What goes otherwise where the image is certified after a run, and that is checked, if anything.
fn wrong_run<R: Threads + Wait + Sync>(
    rt: &R,
    alloc: Global,
    run: &str,
    status: u8,
) -> Result<&'static str, AllocError> {
    let Some(mut files) = after_run(rt, alloc, run, status)? else {
        return Ok("run");
    };
    let (ended, text) = called(rt, alloc, &mut files, "certify|image|kept")?;
    if ended != 0 || !text.starts_with(b"certified ") {
        return Ok("certify");
    }
    let (ended, text) = called(rt, alloc, &mut files, "check|image|kept")?;
    if ended != 0 || !text.starts_with(b"yes\ntidy ") {
        return Ok("check");
    }
    Ok("")
}

#[test]
fn what_is_certified_is_right(rt: HostRuntime) -> Result<(), Fail> {
    for (run, status) in &RUNS {
        assert_eq!(rt; wrong_run(&rt, rt.alloc(), run, *status)?, "", "{run}");
    }
    Ok(())
}
