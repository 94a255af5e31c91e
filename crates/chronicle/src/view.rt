//! What each seat of a chronicle's table knows.

use std::marker::Model;

// No value of it can be made.
enum Unmade {}

/// What a seat owns and knows, and what it took in from another.
///
/// It is there in contracts alone, so no value of this type is ever made.
pub struct View {
    unmade: Unmade,
}

// Contracts see what the seat owns, knows and took in.
impl Model for View {
    ghost use Rattle.chronicle.specs.Views.{View as ViewOf};

    ghost Value = { ViewOf };

    ghost view = { λ v. elim v.unmade as (λ _. ViewOf) [ ] };
}
