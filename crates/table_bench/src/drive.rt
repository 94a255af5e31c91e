//! The drives that are measured.

use pblk_layout::Layout;
use pblk_model::Shape;

/// A drive that is measured.
#[derive(Clone, Copy, Debug)]
pub(crate) struct Drive {
    pub(crate) layout: Layout,
}

impl Drive {
    pub(crate) fn shape(&self) -> &Shape {
        self.layout.shape()
    }
}

/// Two groups of four units of 64 chunks of 96 blocks, with sectors of 4096 bytes, and on it a target of
/// 24000 sectors with a write buffer of 2048 entries.
const REALISTIC: Shape = Shape {
    groups: 2,
    pus: 4,
    chunks: 64,
    clba: 96,
    ws_min: 24,
    ws_opt: 24,
    mw_cunits: 48,
    sector: 4096,
    capacity: 24000,
    ring: 2048,
};

/// The drive of this name.
pub(crate) fn drive_named(name: &str) -> Option<Drive> {
    let shape = match name {
        "small" => Shape::small(),
        "realistic" => REALISTIC,
        _ => return None,
    };
    match shape.refusal() {
        Some(_) => None,
        None => Some(Drive {
            layout: Layout::new(&shape),
        }),
    }
}
