//! Blocks that can be read from now on.

ghost use Rattle.std.specs.Prelude.{ℕ, ◌≡◌, ◌+◌, ◌-◌, ◌<◌, ◌≤◌, ◌^◌, [], List, length, true, Some, slice_get};
ghost use Rattle.std.specs.List.{Contains, filter_map, range_with_len};
ghost use Rattle.std.specs.Option.{option_and_then, option_to_list};
ghost use Rattle.std.specs.FinMap as fin;
ghost use Rattle.pblk_model.specs.Shape.{units};
ghost use Rattle.pblk_layout.specs.Online.{units_in};
ghost use Rattle.write_window.specs.Window.{IsHeld, has_landed_at};
ghost use Rattle.pblk_core.specs.Readable.{ReadBlock, reads_of, all_moved, all_readable, block_reads};

use crate::open_lines::OpenLine;
use l2p_map::{Map, Slot};
use pblk_layout::Layout;
use pblk_model::Mark;
use write_window::Window;

/// Notes that the blocks `from` to before `to` of a unit's chunk of an open line can be read from
/// now on: their entries can be given back, and their sectors, where they are still the latest, are
/// looked up on the drive.
///
/// The entries of these blocks are in the window and have landed.
pub(crate) fn make_readable(
    layout: &Layout,
    slot: &OpenLine,
    unit: u32,
    from: u32,
    to: u32,
    map: &mut Map,
    window: &mut Window,
)
    requires shape { slot.now.records.shape ≡ layout.now }
    requires online { slot.now.online < 2 ^ units layout.now }
    requires capacity { fin.len map.old ≡ layout.now.capacity }
    requires held { (b : ReadBlock) → Contains (reads_of slot.now unit from to) b
        → IsHeld window.old b.mark.position × (has_landed_at window.old b.mark.position ≡ true) }
    ensures window { window.new ≡ all_readable window.old (reads_of slot.now unit from to) }
    ensures map { map.new ≡ all_moved layout.now.capacity slot.now.records.line map.old
        (reads_of slot.now unit from to) }
    ensures capacity { fin.len map.new ≡ fin.len map.old }
{
    for block in from..to {
        make_block_readable(layout, slot, unit, block, map, window);
    }
}

// Notes that a block can be read from now on.
fn make_block_readable(
    layout: &Layout,
    slot: &OpenLine,
    unit: u32,
    block: u32,
    map: &mut Map,
    window: &mut Window,
)
    requires shape { slot.now.records.shape ≡ layout.now }
    requires online { slot.now.online < 2 ^ units layout.now }
    requires capacity { fin.len map.old ≡ layout.now.capacity }
    requires held { (b : ReadBlock) → block_reads slot.now unit block ≡ Some b
        → IsHeld window.old b.mark.position × (has_landed_at window.old b.mark.position ≡ true) }
    ensures window { window.new
        ≡ all_readable window.old (option_to_list (block_reads slot.now unit block)) }
    ensures map { map.new ≡ all_moved layout.now.capacity slot.now.records.line map.old
        (option_to_list (block_reads slot.now unit block)) }
    ensures capacity { fin.len map.new ≡ fin.len map.old }
{
    let at = match layout.addr_of(slot.online, unit, block) {
        Some(at) => at,
        None => return,
    };
    let mark = match slot.records.data_mark(at) {
        Some(mark) => mark,
        None => return,
    };
    if mark.lba == Mark::PAD_LBA {
        return;
    }
    let position = mark.position;
    window.readable(position);
    if mark.lba < layout.shape().capacity {
        let line = slot.records.line();
        map.set_if(
            mark.lba,
            Slot::Cached(position),
            Slot::Media { line, at, position },
        );
    }
}
