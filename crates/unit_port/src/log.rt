//! Lists that grow without memory.
ghost use Rattle.std.specs.Prelude.{◌≡◌, [], ◌∷◌, ◌++◌, length, IfOk};

use atomic_table::{Play, Seat, Table, TableRule};
use pblk_model::Shows;
use std::alloc::{AllocError, Global};
use std::collections::LinkedList;
use std::marker::{Brand, Model, PhantomData};

/// A list that contracts see and that takes no memory as it grows: one word, whose only view is the list.
///
/// The word holds the list's length modulo 2^64. A row is added by one atomic step, which stores the new
/// length. Nothing of it can be read back by code.
#[derive(Drop)]
pub struct Log<E> {
    table: Table<(), LinkedList<E>, (), LogRule, Global>,
    seat: Seat<(), LinkedList<E>>,
    // the length modulo 2^64
    len: u64,
}

// Contracts see the list, oldest row first.
impl<E> Model for Log<E> {
    ghost use Rattle.std.specs.Prelude.{List, length, ◌≡◌, ◌%◌, ◌^◌};

    ghost Value = { List E };

    ghost view = { λ l. l.seat.me.0 };

    ghost invariant = { λ l. (l.seat.table_id ≡ l.table.shared.table_id)
        × (l.table.shared.table_id.words ≡ 1) × (l.len ≡ length l.seat.me.0 % 2 ^ 64) };
}

// The view is the list, and the word its length modulo 2^64.
struct LogRule;

impl<E> TableRule<(), LinkedList<E>, ()> for LogRule {
    ghost use Rattle.std.specs.Prelude.{[]};
    ghost use Rattle.unit_port.specs.Log.{IsLogWord};

    ghost holds = { λ _ s. IsLogWord s };

    ghost first = { λ _. [] };
}

// The rows that a step adds, which its caller picks.
trait Rows<E> {
    ghost use Rattle.std.specs.Prelude.{List};

    ghost rows: { List E };
}

impl<E> Rows<E> for Brand {
    ghost rows = { [] };
}

// A step that adds them to the view.
struct Adds<R> {
    rows: PhantomData<R>,
}

impl<E, R: Rows<E>> Play<(), LinkedList<E>> for Adds<R> {
    ghost then = { λ _ before _ after. after.0 ≡ before.0 ++ R.rows };
}

impl<E> Log<E> {
    /// The empty list. Takes memory for one word, and fails only where there is none.
    pub fn new(alloc: Global) -> Result<Log<E>, AllocError>
        ensures { IfOk result (λ log. log ≡ []) }
    {
        let (table, seat) = Table::of_words(alloc, &[0], &())?;
        Ok(Log {
            table,
            seat,
            len: 0,
        })
    }

    /// Adds the row that the value shows, at the end. It is one step, and takes no memory.
    pub fn add<S: Shows<Event = E>>(&mut self, shown: &S)
        ensures { self.new ≡ self.old ++ S.shown shown.now ∷ [] }
    {
        self.append::<S, Brand>(shown);
    }

    // The call picks the row, which is why it is handed the value that shows it.
    fn append<S, R: Rows<E>>(&mut self, _shown: &S)
        requires { length R.rows ≡ 1 }
        ensures { self.new ≡ self.old ++ R.rows }
    {
        let len = self.len.wrapping_add(1);
        let table = &self.table;
        table.shared.store::<Adds<R>>(&mut self.seat, 0, len);
        self.len = len;
    }
}
