//! Sixteen threads that hear one another.
ghost use Rattle.std.specs.Prelude.{◌≡◌, ◌≤◌, length, IfOk};
ghost use Rattle.std.specs.List.{AllByRecursion};

use plain_port::PlainPort;
use run_script::read_script;
use run_threads::{Answer, Records, run};
use std::alloc::{AllocError, Global};
use std::test::Fail;

/// A script has at most so many threads.
const MOST: usize = 16;

// A script in which each thread writes once it has heard the one before, and the first thread hears
// the last one at the end.
fn script_of_a_ring(alloc: Global) -> Result<String, AllocError> {
    let first = "thread\nw 0 1 7\npost p0\nawait p15\nf\n";
    let mut text = String::from_str(alloc, first)?;
    for k in 1..MOST {
        let before = k - 1;
        let thread = format!(in alloc; "thread\nawait p{before}\nw 0 1 7\npost p{k}\n")?;
        text.push_str(thread.as_str())?;
    }
    Ok(text)
}

// So many plain ports of 64 sectors.
fn plain_ports(alloc: Global, count: usize) -> Result<Vec<PlainPort>, AllocError>
    ensures count { IfOk result (λ ports. length ports.items ≡ count) }
    ensures capacity { IfOk result (λ ports.
        AllByRecursion (λ port. 64 ≤ port.capacity) ports.items) }
{
    let mut ports = Vec::new(alloc);
    for _ in 0..count {
        ports.push(PlainPort::new(alloc, 64, 512, Vec::new(alloc))?)?;
    }
    Ok(ports)
}

// Where each thread wrote and what it flushed, a line each.
fn positions(alloc: Global, records: &Records) -> Result<String, AllocError> {
    let mut text = String::new(alloc);
    for answers in records.threads.as_slice() {
        for answer in answers.as_slice() {
            let piece = match answer {
                Answer::Placed(place) => format!(in alloc; "wrote {} ", place.first)?,
                Answer::Synced(front) => format!(in alloc; "flushed {} ", front.position)?,
                Answer::Done => continue,
                _ => format!(in alloc; "other ")?,
            };
            text.push_str(piece.as_str())?;
        }
    }
    Ok(text)
}

// A write stands past all that its thread has seen, and no port knows the others' writes: so the
// places count how far the posts came.
#[test]
fn sixteen_threads_hear_one_another(rt: HostRuntime) -> Result<(), Fail> {
    let alloc = rt.alloc();
    let text = script_of_a_ring(alloc)?;
    let Ok(script) = read_script(alloc, text.as_str().as_bytes(), 64) else {
        panic!(rt; "it is a script");
    };
    let ports = plain_ports(alloc, script.as_slice().len())?;
    let Ok((records, _)) = run(&rt, alloc, &script, ports) else {
        return Err(AllocError.into());
    };
    let told = "wrote 0 flushed 16 wrote 1 wrote 2 wrote 3 wrote 4 wrote 5 wrote 6 wrote 7 wrote 8 \
        wrote 9 wrote 10 wrote 11 wrote 12 wrote 13 wrote 14 wrote 15 ";
    assert_eq!(rt; positions(alloc, &records)?.as_str(), told);
    Ok(())
}
