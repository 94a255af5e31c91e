//! What each seat of the board's table knows.

use std::marker::Model;

// No value of it can be made.
enum Unmade {}

/// The words that a seat may post, and what it knows of words that were posted.
///
/// It is there in contracts alone, so no value of this type is ever made.
pub struct View {
    unmade: Unmade,
}

// Contracts see the words and what is known.
impl Model for View {
    ghost use Rattle.run_threads.specs.Views.{View as ViewOf};

    ghost Value = { ViewOf };

    ghost view = { λ v. elim v.unmade as (λ _. ViewOf) [ ] };
}
