//! What scripts are answered through a plain port.

use crate::port::harness::told;
use plain_port::Planned;
use std::test::Fail;

// Scripts of one thread at most, and their answers where nothing is refused.
const ANSWERED: &[(&str, &str)] = &[
    ("", ""),
    ("thread\n", ""),
    (
        "thread\nw 5 1 17\nr 5 1\nf\npost a\nawait a\n",
        "placed 0 1\nwords 1 1 17\nsynced 1 1\ndone\ndone\n",
    ),
    (
        "thread\nw 3 1 7\nw 3 1 8\nr 3 1\n",
        "placed 0 1\nplaced 1 1\nwords 2 2 8\n",
    ),
    ("thread\nr 9 2\n", "words 0 0 0 0\n"),
    (
        "thread\nf\nw 0 16 1\nr 14 4\nf\n",
        "synced 0 0\nplaced 0 16\nwords 16 16 1 1 0 0\nsynced 16 16\n",
    ),
    // The last sectors, and the greatest tag.
    (
        "thread\nw 63 1 18446744073709551615\nw 48 16 2\nr 62 2\n",
        "placed 0 1\nplaced 1 16\nwords 17 17 2 2\n",
    ),
    (
        "thread\nw 63 1 18446744073709551615\nr 63 1\n",
        "placed 0 1\nwords 1 1 18446744073709551615\n",
    ),
    (
        "thread\npost a\nw 0 2 3\npost b\nawait a\nawait b\nr 0 3\nawait b\n",
        "done\nplaced 0 2\ndone\ndone\ndone\nwords 2 2 3 3 0\ndone\n",
    ),
];

#[test]
fn scripts_are_answered(rt: HostRuntime) -> Result<(), Fail> {
    for &(script, says) in ANSWERED {
        assert_eq!(rt;
            told(&rt, rt.alloc(), script, &[])?.as_str(),
            says,
            "{script}"
        );
    }
    Ok(())
}

// A thread goes on after a command that wasn't made. A command that wasn't made writes nothing.
#[test]
fn troubles_are_answered(rt: HostRuntime) -> Result<(), Fail> {
    let drive = Some(Planned::Drive { unit: 1, event: 9 });
    let worn = Some(Planned::Worn {
        wanted: 12,
        have: 8,
    });
    let script = "thread\nw 0 1 1\nw 1 1 2\nr 0 2\nr 0 2\nf\nf\nf\npost a\nw 0 1 3\n";
    let plan = [None, None, worn, drive, None, drive, worn, None];
    let says =
        "placed 0 1\nworn 12 8\ndrive 1 9\nwords 1 1 1 0\ndrive 1 9\nworn 12 8\nsynced 1 1\ndone\nplaced 1 1\n";
    assert_eq!(rt; told(&rt, rt.alloc(), script, &plan)?.as_str(), says);
    Ok(())
}
