//! Whether a mount is to close, as all threads see it.
ghost use Rattle.std.specs.Prelude.{◌≡◌, IfSome};
ghost use Rattle.pblk_engine.specs.Closings.{closing_of, set_of};

use std::sync::{OnceLock, OnceToken, Wait};

/// Whether a mount is to close. It is set once, and is set from then on.
#[derive(Drop)]
pub struct Closing {
    cell: OnceLock<()>,
}

/// Shows that a closing was set.
#[derive(Drop)]
pub struct IsSet<'a> {
    token: OnceToken<'a, ()>,
}

/// How a lane or a collector ended.
#[derive(Drop)]
pub enum LaneEnd<'a> {
    /// The closing was set.
    Closed(IsSet<'a>),
    /// This unit answered that it is stopped.
    Stopped(u32),
}

impl Closing {
    /// A closing that isn't set.
    pub fn new() -> Closing {
        Closing {
            cell: OnceLock::new(),
        }
    }

    /// Sets it, unless it is set. What comes back shows that it is.
    pub fn set<R: Wait>(&self, rt: &R) -> IsSet<'_>
        ensures of { set_of result ≡ closing_of self.now }
    {
        IsSet {
            token: self.cell.init(rt, || ()),
        }
    }

    /// Whether it is set. What comes back shows that.
    pub fn is_set(&self) -> Option<IsSet<'_>>
        ensures of { IfSome result (λ s. set_of s ≡ closing_of self.now) }
    {
        Some(IsSet {
            token: self.cell.witness()?,
        })
    }
}
