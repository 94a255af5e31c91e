//! Two threads that run at once.
ghost use Rattle.std.specs.Prelude.{◌≡◌, ◌≤◌, length, IfOk};
ghost use Rattle.std.specs.List.{AllByRecursion};

use crate::gate::{Gate, GatedPort};
use plain_port::PlainPort;
use run_script::read_script;
use run_threads::{Answer, Records, run};
use std::alloc::{AllocError, Global};
use std::test::Fail;

// The two ports at a gate, of 64 sectors each.
fn gated_ports<'g>(alloc: Global, gate: &'g Gate) -> Result<Vec<GatedPort<'g>>, AllocError>
    ensures count { IfOk result (λ ports. length ports.items ≡ 2) }
    ensures capacity { IfOk result (λ ports.
        AllByRecursion (λ g. 64 ≤ g.port.capacity) ports.items) }
{
    let first = PlainPort::new(alloc, 64, 512, Vec::new(alloc))?;
    let second = PlainPort::new(alloc, 64, 512, Vec::new(alloc))?;
    let mut ports = Vec::new(alloc);
    ports.push(GatedPort::new(first, gate, true))?;
    ports.push(GatedPort::new(second, gate, false))?;
    Ok(ports)
}

// Whether each thread was answered one place.
fn are_placed(records: &Records) -> bool {
    for answers in records.threads.as_slice() {
        if !matches!(answers.as_slice(), [Answer::Placed(_)]) {
            return false;
        }
    }
    true
}

// Each of two writes waits until the other has begun, so both are under way at once.
#[test]
fn two_writes_are_under_way_at_once(rt: HostRuntime) -> Result<(), Fail> {
    let alloc = rt.alloc();
    let Ok(script) = read_script(alloc, b"thread\nw 0 1 7\nthread\nw 1 1 9\n", 64) else {
        panic!(rt; "it is a script");
    };
    assert!(rt; script.as_slice().len() == 2);
    let gate = Gate::new();
    let ports = gated_ports(alloc, &gate)?;
    let Ok((records, ports)) = run(&rt, alloc, &script, ports) else {
        return Err(AllocError.into());
    };
    assert!(rt; are_placed(&records));
    for port in &ports {
        assert!(rt; !port.waited_in_vain());
    }
    Ok(())
}
