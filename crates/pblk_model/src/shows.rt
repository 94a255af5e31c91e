//! Values that are shown to a log.

/// What a value shows to a log that it is added to: one row of that log.
///
/// The trait has no functions. Its one meaning, `shown`, is the row, and only contracts speak of it.
pub trait Shows {
    /// A row of the log.
    type Event;

    ghost shown: { Self → Self.Event };
}
