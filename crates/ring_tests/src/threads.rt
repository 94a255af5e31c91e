//! Entries from many threads, while another takes them.

use ring_crew::{Job, Tally, make_and_take};
use std::test::Fail;

#[test]
fn eight_makers_wrap_a_ring(rt: HostRuntime) -> Result<(), Fail> {
    let job = Job {
        size: 4096,
        sector: 16,
        makers: 8,
        batch: 5,
        turns: 5000,
        looks: true,
    };
    let tally = make_and_take(&rt, rt.alloc(), job)?;
    assert_eq!(rt;
        tally,
        Tally {
            taken: 200_000,
            right: 200_000
        }
    );
    Ok(())
}

#[test]
fn a_pass_is_split_for_each_maker_and_joined_again(rt: HostRuntime) -> Result<(), Fail> {
    let job = Job {
        size: 16,
        sector: 16,
        makers: 126,
        batch: 1,
        turns: 20,
        looks: true,
    };
    let tally = make_and_take(&rt, rt.alloc(), job)?;
    assert_eq!(rt;
        tally,
        Tally {
            taken: 2520,
            right: 2520
        }
    );
    Ok(())
}
