//! Records without their sectors.

ghost use Rattle.std.specs.Prelude.{◌≡◌, ◌==◌, ◌&&◌, ◌||◌, nat_lt};
ghost use Rattle.pblk_model.specs.Contents.{is_newer};
ghost use Rattle.scan_recovery.specs.Traces.{bare};

/// What a written block bears, all but its sector: the line, the line's sequence number, the line
/// address of the block, the position, and the sector that the block holds, or none where the
/// position was given up.
#[derive(Clone, Copy, Debug)]
pub(crate) struct Trace {
    pub line: u32,
    pub seq: u64,
    pub at: u32,
    pub position: u64,
    pub lba: Option<u64>,
}

// Of two records of one position and sequence number that of the later line address is newer, and
// at one address that of the lesser line.
fn is_later_place(a: &Trace, b: &Trace) -> bool
    ensures { result ≡ (nat_lt a.now.at b.now.at
        || ((a.now.at == b.now.at) && nat_lt b.now.line a.now.line)) }
{
    a.at < b.at || (a.at == b.at && b.line < a.line)
}

/// Whether the second record is newer: by position, then by sequence number, then by line address;
/// of two that are alike in these the one in the lesser line is.
pub(crate) fn is_newer(a: &Trace, b: &Trace) -> bool
    ensures { result ≡ is_newer (bare a.now) (bare b.now) }
{
    a.position < b.position
        || (a.position == b.position && (a.seq < b.seq || (a.seq == b.seq && is_later_place(a, b))))
}
