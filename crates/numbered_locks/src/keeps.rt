//! What a place says of its value.
ghost use Rattle.std.specs.Prelude.{ℕ};

/// What a place says of the value that it has. It is told at each lock, and owed at each unlock.
pub trait Keeps<V> {
    /// Of a place's number, from 0, and of its value.
    ghost keeps: { ℕ → V → Type 0 };
}
