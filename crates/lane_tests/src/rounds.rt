//! Rounds over all sectors of the small drive, in which lines are freed for later ones.

use crate::harness::{created, run};
use std::alloc::{AllocError, Global};
use std::test::Fail;

/// The script of so many rounds, which writes all sectors in each, flushes, and reads.
pub(crate) fn rounds(alloc: Global, count: u64) -> Result<String, AllocError> {
    let mut script = String::from_str(alloc, "thread\n")?;
    for round in 1..count.saturating_add(1) {
        for lba in [0, 16, 32, 48] {
            write!(script, "w {lba} 16 {round}\n")?;
        }
    }
    script.push_str("f\nr 0 16\n")?;
    Ok(script)
}

// What is told of forty rounds.
fn forty_text(alloc: Global) -> Result<String, AllocError> {
    let mut text = String::new(alloc);
    for number in 0..2560_u64 {
        write!(text, "h {number} 0 {} {}\n", number % 64, number / 64 + 1)?;
    }
    text.push_str("f 0 160 2560\nr 0 161 2560")?;
    for _ in 0..16 {
        text.push_str(" 40")?;
    }
    text.push_str("\nkept 2560\n")?;
    Ok(text)
}

#[test]
fn lanes_and_a_collector_change_no_text(rt: HostRuntime) -> Result<(), Fail> {
    let image = created(&rt, rt.alloc(), "")?;
    let script = rounds(rt.alloc(), 40)?;
    let text = forty_text(rt.alloc())?;
    for way in ["", " --lanes 2 --collector", " --lanes 8", " --collector"] {
        let told = run(&rt, rt.alloc(), &image, &script, way)?;
        assert_eq!(rt; told.status, 0, "{way}");
        assert!(rt; told.text.as_str() == text.as_str(), "{way}");
    }
    Ok(())
}
