//! Scripts that `run` refuses, on the blank small drive.

use crate::harness::check;
use std::test::Fail;

// Scripts, and why they are refused.
const REFUSED: &str = "
script=x ; text=script Form 1/
script=w 5 1 17/ ; text=script Form 1/
script=/#//thread/w 5 1/ ; text=script Form 5/
script=thread/w  5 1 17/ ; text=script Form 2/
script=thread/w 05 1 17/ ; text=script Form 2/
script=thread/r 5 1 / ; text=script Form 2/
script=thread\r/ ; text=script Form 1/
script=thread/w 5 1 18446744073709551616/ ; text=script Form 2/
script=thread/post A/ ; text=script Form 2/
script=thread/post a/thread/post a/ ; text=script Form 4/
script=thread/w 5 0 17/ ; text=script Limit 2/
script=thread/r 64 17/ ; text=script Limit 2/
script=thread/thread/thread/thread/thread/thread/thread/thread/thread/thread/thread/thread/thread/thread/thread/thread/thread/ ; text=script Limit 17/
script=thread/w 60 5 1/ ; text=script Range 2/
script=thread/r 64 1/ ; text=script Range 2/
script=thread/r 18446744073709551615 16/ ; text=script Range 2/
script=thread/r 63 1/r 63 2/x/ ; text=script Range 3/
script=thread/await x/ ; text=script NeverPosted 2/
script=thread/await a/post a/await b/ ; text=script NeverPosted 4/
script=thread/await a/post a/ ; text=script Stuck 2/
script=thread/await a/post b/thread/await b/post a/ ; text=script Stuck 2/
script=thread/f/thread/post c/await a/post b/thread/await c/await b/post a/ ; text=script Stuck 5/
script=thread/await p/post a/thread/await a/post b/thread/await b/post p/ ; text=script Stuck 2/
script=thread/r 0 1/thread/r 64 1/ ; text=script Range 4/
";

#[test]
fn scripts_are_refused(rt: HostRuntime) -> Result<(), Fail> {
    check(
        &rt,
        rt.alloc(),
        "call=run|image|script ; images=drive small ; status=2",
        REFUSED,
    )
}

// An image in place of a script.
const IMAGE: &str = "
call=run|image|image ; images=drive small ; status=2 ; text=script Form 1/
";

#[test]
fn an_image_is_no_script(rt: HostRuntime) -> Result<(), Fail> {
    check(&rt, rt.alloc(), "script=absent", IMAGE)
}
