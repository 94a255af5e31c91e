//! What lies in a slot.

/// What lies in a slot while its place is free.
#[derive(Drop)]
pub enum Cell<V> {
    /// The value of a place.
    Value(V),
    /// The vector in which the values came, which has room for them. The first slot has it, and no
    /// place.
    Spare(Vec<V>),
}
