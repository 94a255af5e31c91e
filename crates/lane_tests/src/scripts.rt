//! Scripts of several threads, with lanes and a collector and without them.

use crate::harness::{created, run};
use crate::judge::wrong;
use std::alloc::{AllocError, Global};
use std::test::Fail;

// How a script is run: by its threads alone, beside lanes, a collector, or both.
const WAYS: [&str; 5] = [
    "",
    " --lanes 1",
    " --collector",
    " --lanes=2 --collector",
    " --lanes 8",
];

// Posts that put threads in order.
const POSTS: &str =
    "thread\nw 3 1 7\npost a\nthread\nawait a\nw 3 1 8\npost b\nthread\nawait b\nr 3 1\n";

const POSTED: &str = "h 0 0 3 7\nh 1 1 3 8\nr 2 1 2 8\nkept 2\n";

// A post that comes before its await, and one that a thread hears of itself.
const HEARD: &str = "thread\npost b\nawait b\nw 0 2 5\npost a\nawait a\nr 0 2\nf\npost c\n\
    thread\nawait c\nr 1 1\nf\nthread\n";

const HEARD_TEXT: &str = "h 0 0 0 5\nh 1 0 1 5\nr 0 5 2 5 5\nf 0 6 2\nr 1 1 2 5\nf 1 2 2\nkept 2\n";

#[test]
fn posts_put_threads_in_order(rt: HostRuntime) -> Result<(), Fail> {
    let image = created(&rt, rt.alloc(), "")?;
    for way in &WAYS {
        for (script, text) in [(POSTS, POSTED), (HEARD, HEARD_TEXT), ("", "kept 0\n")] {
            let told = run(&rt, rt.alloc(), &image, script, way)?;
            assert_eq!(rt; told.status, 0, "{way}");
            assert_eq!(rt; told.text.as_str(), text, "{way}");
        }
    }
    Ok(())
}

// Sixteen threads, and what is told of them. Each writes a sector once it has heard of the thread
// before, and the first one hears of the last in the end.
fn ring(alloc: Global) -> Result<(String, String), AllocError> {
    let mut script = String::new(alloc);
    let mut text = String::new(alloc);
    for thread in 0..16_u64 {
        let next = thread.saturating_add(1);
        script.push_str("thread\n")?;
        if thread > 0 {
            write!(script, "await p{thread}\nr 0 16\n")?;
        }
        write!(script, "w {thread} 1 {next}\npost p{next}\n")?;
        if thread == 0 {
            script.push_str("await p16\nr 0 16\n")?;
        }
        write!(text, "h {thread} {thread} {thread} {next}\n")?;
    }
    add_read(&mut text, 0, 3, 16)?;
    for thread in 1..16_u64 {
        add_read(&mut text, thread, 1, thread)?;
    }
    text.push_str("kept 16\n")?;
    Ok((script, text))
}

// A read of sixteen sectors, of which so many are written, each with its tag.
fn add_read(text: &mut String, thread: u64, command: u64, front: u64) -> Result<(), AllocError> {
    write!(text, "r {thread} {command} {front}")?;
    for tag in 1..17_u64 {
        let word = if tag <= front { tag } else { 0 };
        write!(text, " {word}")?;
    }
    text.push_str("\n")
}

#[test]
fn sixteen_threads_hear_of_one_another(rt: HostRuntime) -> Result<(), Fail> {
    let image = created(&rt, rt.alloc(), "")?;
    let (script, text) = ring(rt.alloc())?;
    for way in &WAYS {
        let told = run(&rt, rt.alloc(), &image, &script, way)?;
        assert_eq!(rt; told.status, 0, "{way}");
        assert_eq!(rt; told.text.as_str(), text.as_str(), "{way}");
    }
    Ok(())
}

// A script of so many threads, whose commands are writes and reads of the same sixteen sectors, and
// flushes. No two writes have the same tag.
fn crowd(alloc: Global, threads: u64, commands: u64) -> Result<String, AllocError> {
    let mut script = String::new(alloc);
    for thread in 0..threads {
        script.push_str("thread\n")?;
        for command in 0..commands {
            let mixed = thread.wrapping_mul(3).wrapping_add(command.wrapping_mul(5));
            let (lba, count) = (mixed % 12, mixed.wrapping_add(thread) % 4);
            match mixed % 7 {
                0 => script.push_str("f\n")?,
                1 | 2 => write!(script, "r {lba} 4\n")?,
                _ => {
                    let tag = thread
                        .wrapping_mul(1000)
                        .wrapping_add(command)
                        .wrapping_add(1);
                    let written = count.wrapping_add(1);
                    write!(script, "w {lba} {written} {tag}\n")?;
                }
            }
        }
    }
    Ok(script)
}

// How many threads there are, and how many commands each has.
const CROWDS: [(u64, u64); 3] = [(2, 100), (4, 50), (16, 20)];

#[test]
fn threads_that_write_the_same_sectors_are_told_what_is_right(rt: HostRuntime) -> Result<(), Fail> {
    let image = created(&rt, rt.alloc(), "")?;
    for (threads, commands) in &CROWDS {
        let script = crowd(rt.alloc(), *threads, *commands)?;
        for way in &WAYS {
            let told = run(&rt, rt.alloc(), &image, &script, way)?;
            assert_eq!(rt; told.status, 0, "{threads} threads{way}");
            let wrong = wrong(rt.alloc(), &script, &told.text)?;
            assert!(rt; wrong.is_empty(), "{wrong} of {threads} threads{way}");
        }
    }
    Ok(())
}
