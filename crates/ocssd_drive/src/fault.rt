//! What befalls a command.

/// What befalls a unit's next command.
#[derive(Clone, Copy)]
pub(crate) enum Fault {
    /// Nothing: it is done.
    Nothing,
    /// A plan falls on it: it fails with this cut.
    Fails(u32),
    /// The fuse falls at it: the drive stops within it, with this cut.
    Stops(u32),
    /// The drive was stopped before.
    Stopped,
}
