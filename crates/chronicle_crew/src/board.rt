//! A token that threads share, by which authors learn of each other.
ghost use Rattle.std.specs.Prelude.{◌≡◌};
ghost use Rattle.atomic_table.specs.Seated.{TableId};
ghost use Rattle.chronicle_crew.specs.Ready.{IsHand, no_table};

use crate::hand::Hand;
use chronicle::{Chronicle, Token};
use std::marker::{Brand, PhantomData};

/// Which chronicle it is. Each call of a program picks it.
pub(crate) trait Which {
    ghost chronicle: { TableId };
}

impl Which for Brand {
    ghost chronicle = { no_table };
}

/// A token of that chronicle, to lie under a lock.
#[derive(Drop)]
pub(crate) struct Board<M: Which> {
    token: Token,
    of: PhantomData<M>,
    ghost its: { token.chronicle ≡ M.chronicle },
}

impl<M: Which> Board<M> {
    /// A board with this token.
    pub(crate) fn new(token: Token) -> Board<M>
        requires { token.chronicle ≡ M.chronicle }
    {
        Board {
            token,
            of: PhantomData,
        }
    }

    /// The token learns what the author knows, and then the author what the token knows.
    pub(crate) fn meet(&mut self, chronicle: &Chronicle, hand: &mut Hand)
        requires of { chronicle.now ≡ M.chronicle }
        requires hand { IsHand chronicle.now hand.old }
        ensures hand { IsHand chronicle.now hand.new }
        ensures number { hand.new.author.number ≡ hand.old.author.number }
        ensures count { hand.new.count ≡ hand.old.count }
    {
        let note = hand.author.note(chronicle);
        self.token.meet(chronicle, note);
        let note = self.token.note(chronicle);
        hand.author.meet(chronicle, note);
    }
}
