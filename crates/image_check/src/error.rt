//! Why a certificate isn't right.

ghost use Rattle.std.specs.Prelude.{◌≡◌};
ghost use Rattle.image_check.specs.declared.error.CheckErr.TheVariants.{Memory};

use std::alloc::AllocError;
use thiserror::Error;

/// Why a certificate isn't right for an image: the first reason in this order, with the least
/// number.
#[derive(Clone, Copy, Debug, PartialEq, Eq, Error)]
pub enum CheckErr {
    /// What is said of this line isn't so, or nothing is said of it.
    #[error("the row of line {0} is wrong")]
    Line(u32),
    /// The head is another one.
    #[error("the head is wrong")]
    Head,
    /// This position has no record that is said to bear it, or one that doesn't, or one that it
    /// must not have.
    #[error("the bearer of position {0} is wrong")]
    Bearer(u64),
    /// The end is another position.
    #[error("the end is wrong")]
    End,
    /// The newest counted record of this sector is another one, or there is none, or nothing is
    /// said of it.
    #[error("the winner of sector {0} is wrong")]
    Winner(u64),
    /// This line has another number of winners, or nothing is said of it.
    #[error("the number of winners of line {0} is wrong")]
    Live(u32),
    /// There wasn't enough memory.
    #[error("out of memory")]
    Memory,
}

impl From<AllocError> for CheckErr {
    ghost from_gives = { λ _ e. e ≡ Memory };

    fn from(_e: AllocError) -> Self {
        CheckErr::Memory
    }
}
