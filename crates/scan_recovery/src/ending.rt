//! Where the positions of a head's mount end.

ghost use Rattle.std.specs.Prelude.{◌≡◌, ◌+◌, ◌<◌, ◌≤◌, ◌^◌, ◌++◌, [], ◌∷◌, ℕ, Bool, List, length, IfOk, IfSome};
ghost use Rattle.std.specs.Option.{option_map};
ghost use Rattle.pblk_model.specs.Records.{Record};
ghost use Rattle.pblk_model.specs.Contents.{least_missing, end_after};
ghost use Rattle.pblk_meta.specs.Records.{start_numbers};
ghost use Rattle.pblk_model.specs.Tables.{IsTable};
ghost use Rattle.scan_recovery.specs.Traces.{bare, bares, borne_at};

use crate::trace::Trace;
use pblk_meta::StartRecord;
use std::alloc::{AllocError, Global};

/// The least position from the head's front on that no record bears in a line of the head's mount,
/// and 0 without a head. It takes memory for a flag for each record.
pub(crate) fn end_after(
    alloc: Global,
    traces: &[Trace],
    head: &Option<StartRecord>,
) -> Result<u64, AllocError>
    requires low { IfSome head.now (λ h. h.front < 2 ^ 61) }
    requires few { length traces.now ≤ 2 ^ 26 }
    ensures { IfOk result (λ p. p
        ≡ end_after (bares traces.now) (option_map start_numbers head.now)) }
{
    match head {
        None => Ok(0),
        Some(head) => {
            let borne = borne_from(alloc, traces, head)?;
            Ok(first_missing(&borne, head.front))
        }
    }
}

// The front and as many positions behind it as flags are set from the first on.
fn first_missing(borne: &[bool], front: u64) -> u64
    requires low { front < 2 ^ 61 }
    requires few { length borne.now ≤ 2 ^ 26 }
    ensures { (f : ℕ → Bool) → IsTable (length borne.now) (λ k. f (front + k)) borne.now
        → result ≡ least_missing f (length borne.now) front }
{
    let mut position = front;
    for seen in borne {
        if !*seen {
            return position;
        }
        position += 1;
    }
    position
}

// A flag for each position from the head's front on, for as many as there are records: whether one
// bears it.
fn borne_from(alloc: Global, traces: &[Trace], head: &StartRecord) -> Result<Vec<bool>, AllocError>
    ensures { IfOk result
        (λ v. IsTable (length traces.now) (borne_at (bares traces.now) (start_numbers head.now))
        v.items) }
{
    let mut borne = vec![in alloc; false; traces.len()]?;
    for t in traces {
        note_position(&mut borne, head, t);
    }
    Ok(borne)
}

// Sets the flag of a record's position, if there is one.
fn note_position(borne: &mut [bool], head: &StartRecord, t: &Trace)
    ensures { (n : ℕ) (rs : List Record)
        → IsTable n (borne_at rs (start_numbers head.now)) borne.old
        → IsTable n (borne_at (rs ++ bare t.now ∷ []) (start_numbers head.now)) borne.new }
{
    if head.first_seq <= t.seq && head.front <= t.position {
        let place = t.position - head.front;
        if place < borne.len() as u64 {
            borne[place as usize] = true;
        }
    }
}
