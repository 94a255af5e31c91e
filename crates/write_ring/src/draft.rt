//! A frame on its way into the ring.

use sector_pool::{Frame, Source};

/// A filled frame that has no position yet. Like its frame it can't be dropped or copied.
pub struct Draft {
    /// Which sector of the target's capacity it is.
    pub lba: u64,
    /// None for a user's write.
    pub source: Option<Source>,
    /// Its bytes.
    pub frame: Frame,
}
