//! What `report` prints.
ghost use Rattle.std.specs.Prelude.{◌≡◌, IfOk, string_bytes};
ghost use Rattle.serde_json.specs.View.{view};
ghost use Rattle.ocssd_drive.specs.Drive.{stored};
ghost use Rattle.run_report.specs.Numbers.{report_object, report_text, seq_of};
ghost use Rattle.run_report.specs.Objects.{line_data, report_data};

use command_text::chunks_in;
use ocssd_drive::{ChunkState, Drive};
use scan_recovery::{Head, Summary};
use serde_json::{Value, json};
use std::alloc::{AllocError, Global};

/// What `report` prints: the drive's capacity in sectors, how many of its chunks are in each state, and what its image
/// holds, as one object of JSON and a newline. Fails only for want of memory.
pub fn report(alloc: Global, drive: &Drive, summary: &Summary) -> Result<String, AllocError>
    ensures { IfOk result (λ text. string_bytes text ≡ report_text (stored drive.now) summary.now) }
{
    let mut text = object_text(alloc, drive, summary)?;
    text.push('\n')?;
    Ok(text)
}

// The object's text.
fn object_text(alloc: Global, drive: &Drive, summary: &Summary) -> Result<String, AllocError>
    ensures { IfOk result
        (λ text. string_bytes text ≡ report_object (stored drive.now) summary.now) }
{
    let object = object(alloc, drive, summary)?;
    object.to_string(alloc)
}

// The object.
fn object(alloc: Global, drive: &Drive, summary: &Summary) -> Result<Value, AllocError>
    ensures { IfOk result (λ value. view value ≡ report_data (stored drive.now) summary.now) }
{
    json!(in alloc; {
        "capacity": drive.capacity,
        "closed": chunks_in(drive, ChunkState::Closed),
        "counted": summary.counted,
        "end": summary.end,
        "free": chunks_in(drive, ChunkState::Free),
        "head": line_of(summary.head),
        "live": summary.live,
        "offline": chunks_in(drive, ChunkState::Offline),
        "open": chunks_in(drive, ChunkState::Open),
        "seq": seq_of(summary.head)
    })
}

// The head's line, or null.
fn line_of(head: Option<Head>) -> Value
    ensures { view result ≡ line_data head }
{
    match head {
        None => Value::Null,
        Some(head) => Value::from(head.line),
    }
}

// The head's sequence number, and 0 without a head.
fn seq_of(head: Option<Head>) -> u64
    ensures { result ≡ seq_of head }
{
    match head {
        None => 0,
        Some(head) => head.seq,
    }
}
