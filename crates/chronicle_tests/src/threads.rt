//! Authors that append to one chronicle, each in a thread of its own.

use chronicle_crew::{Job, Meets, run};
use std::test::Fail;

// That each log then has as many events as its author appended, the clauses say.
#[test]
fn eight_authors_append_and_tell_each_other(rt: HostRuntime) -> Result<(), Fail> {
    let job = Job {
        authors: 8,
        turns: 12_500,
        meets: Meets::Board,
    };
    assert_eq!(rt; run(&rt, rt.alloc(), job)?, 100_000);
    Ok(())
}

#[test]
fn two_authors_tell_their_own_tokens(rt: HostRuntime) -> Result<(), Fail> {
    let job = Job {
        authors: 2,
        turns: 1000,
        meets: Meets::Own,
    };
    assert_eq!(rt; run(&rt, rt.alloc(), job)?, 2000);
    Ok(())
}
