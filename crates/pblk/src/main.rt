//! The program `pblk`: runs its words over the system's files and standard output, and ends with the status.
#![tactic(auto)]

use pblk_cli::pblk_program;
use pblk_outside::{RealFiles, RealOut, Sink, real_words};
use std::process::ExitCode;

/// The status for want of memory.
const MEMORY: u8 = 7;

fn main(rt: HostRuntime) -> ExitCode {
    let alloc = rt.alloc();
    let mut out = RealOut::new(rt);
    let Ok(mut files) = RealFiles::new(alloc, rt) else {
        // The status tells it where the line can't be written.
        let _ = out.write(b"memory\n");
        return ExitCode::from(MEMORY);
    };
    pblk_program(&rt, alloc, real_words(alloc, &rt), &mut files, &mut out)
}
