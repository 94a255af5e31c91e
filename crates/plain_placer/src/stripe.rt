//! What became of a stripe.

ghost use Rattle.std.specs.Prelude.{◌≡◌};
ghost use Rattle.stripe_placer.specs.OpenLines.{is_unplaced, is_unanswered, is_landed, is_lost};
ghost use Rattle.plain_placer.specs.Fates.{stripe_of};

use std::marker::Model;

/// What became of a stripe.
#[derive(Clone, Copy, Debug, PartialEq, Eq)]
pub(crate) enum Fate {
    Unplaced,
    Unanswered,
    Landed,
    Lost,
}

/// A stripe of a line.
#[derive(Drop)]
pub(crate) struct PlainStripe {
    fate: Fate,
}

impl Model for PlainStripe {
    ghost use Rattle.stripe_placer.specs.OpenLines.{Stripe};
    ghost use Rattle.plain_placer.specs.Fates.{stripe_of};

    ghost Value = { Stripe };

    ghost view = { λ s. stripe_of s.fate };
}

impl PlainStripe {
    pub(crate) fn new(fate: Fate) -> PlainStripe
        ensures { result ≡ stripe_of fate }
    {
        PlainStripe { fate }
    }

    pub(crate) fn is_unplaced(&self) -> bool
        ensures { result ≡ is_unplaced self.now }
    {
        matches!(self.fate, Fate::Unplaced)
    }

    pub(crate) fn is_unanswered(&self) -> bool
        ensures { result ≡ is_unanswered self.now }
    {
        matches!(self.fate, Fate::Unanswered)
    }

    pub(crate) fn is_landed(&self) -> bool
        ensures { result ≡ is_landed self.now }
    {
        matches!(self.fate, Fate::Landed)
    }

    pub(crate) fn is_lost(&self) -> bool
        ensures { result ≡ is_lost self.now }
    {
        matches!(self.fate, Fate::Lost)
    }
}
