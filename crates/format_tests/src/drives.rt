//! The drives whose layouts are tested.

use pblk_layout::Layout;
use pblk_model::Shape;

/// 1 group of 2 units with 8 chunks of 24 blocks of 512 bytes, in stripes of 4.
pub(crate) fn small() -> Layout {
    Layout::new(&Shape::small())
}

/// 2 groups of 4 units with 64 chunks of 96 blocks of 4096 bytes, in stripes of 24.
pub(crate) fn two_groups() -> Layout {
    Layout::new(&Shape {
        groups: 2,
        pus: 4,
        chunks: 64,
        clba: 96,
        ws_min: 24,
        ws_opt: 24,
        mw_cunits: 48,
        sector: 4096,
        capacity: 24000,
        ring: 2048,
    })
}
