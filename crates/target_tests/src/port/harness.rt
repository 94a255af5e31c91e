//! Scripts that are run through a plain port, and what is told of them.

use crate::harness::lines;
use plain_port::{PlainPort, Planned};
use run_script::read_script;
use run_threads::run;
use std::alloc::{AllocError, Global};
use std::sync::Wait;
use std::thread::Threads;

/// What is told of a script that is run through a plain port of 64 sectors of 512 bytes: its
/// answers, a line each. The port has the plan that is given, its last call first.
pub fn told<R: Threads + Wait + Sync>(
    rt: &R,
    alloc: Global,
    script: &str,
    plan: &[Option<Planned>],
) -> Result<String, AllocError> {
    let script = match read_script(alloc, script.as_bytes(), 64) {
        Ok(script) => script,
        Err(_) => return format!(in alloc; "no script"),
    };
    if script.as_slice().len() > 1 {
        return format!(in alloc; "more threads than one");
    }
    let mut ports = Vec::new(alloc);
    if script.as_slice().len() == 1 {
        ports.push(PlainPort::new(alloc, 64, 512, Vec::from_slice(alloc, plan)?)?)?;
    }
    match run(rt, alloc, &script, ports) {
        Err((e, _)) => Err(e),
        Ok((records, _)) => lines(alloc, &records),
    }
}
