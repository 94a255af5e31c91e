//! The stop word of a drive that was armed with a fuse: one word that its units share, 0 until the fuse
//! falls and then 1.
ghost use Rattle.std.specs.Prelude.{◌≡◌, ◌+◌, true, false, IfOk};
ghost use Rattle.ocssd_drive.specs.StopWord.{keeper, other_unit, looked, blown, joined};

use atomic_table::{Join, Play, Seat, Split, Table, TableRule};
use std::alloc::{AllocError, Global};
use std::marker::Model;
use std::sync::Arc;

/// What a unit knows of the stop word: whether it is the fuse's unit, whether the fuse fell there,
/// whether it found the word set, and how many loads it made. The loads count every load of the unit,
/// and of each unit whose seat it took in. No value of it is made.
pub(crate) struct StopView {
    pub(crate) fuse: bool,
    pub(crate) fell: bool,
    pub(crate) found: bool,
    pub(crate) loads: u64,
}

/// A unit's seat at the stop word of its drive.
#[derive(Drop)]
pub(crate) struct StopSeat {
    table: Arc<Table<(), StopView, (), StopRule, Global>>,
    seat: Seat<(), StopView>,
}

// Contracts see which word it is, and what the unit knows of it.
impl Model for StopSeat {
    ghost use Rattle.ocssd_drive.specs.StopWord.{SeatView};

    ghost Value = { SeatView };

    ghost use Rattle.std.specs.Prelude.{◌≡◌, []};
    ghost use Rattle.std.specs.Arc.{arc_value};

    ghost view = { λ s. record { word = s.seat.table_id; view = s.seat.me.0 } };

    ghost invariant = { λ s. (s.seat.table_id ≡ (arc_value s.table).shared.table_id)
        × ((arc_value s.table).shared.table_id.words ≡ 1) × (s.seat.me.1 ≡ []) };
}

// The word is 1 exactly where the fuse's unit, which has a seat, says that it fell there, and who found it
// set did so while it is 1.
struct StopRule;

impl TableRule<(), StopView, ()> for StopRule {
    ghost use Rattle.ocssd_drive.specs.StopWord.{IsStopWord, keeper};

    ghost holds = { λ _ s. IsStopWord s };

    ghost first = { λ _. keeper };
}

// A load.
struct Loads;

impl Play<(), StopView> for Loads {
    ghost use Rattle.ocssd_drive.specs.StopWord.{Looks};

    ghost then = { Looks };
}

// The store of 1.
struct Falls;

impl Play<(), StopView> for Falls {
    ghost use Rattle.ocssd_drive.specs.StopWord.{Blows};

    ghost then = { Blows };
}

// The seat of another unit is cut off, and joined again.
struct Units;

impl Split<StopView> for Units {
    ghost use Rattle.ocssd_drive.specs.StopWord.{other_unit};

    ghost left = { λ v. v };

    ghost right = { λ _. other_unit };
}

impl Join<StopView> for Units {
    ghost use Rattle.ocssd_drive.specs.StopWord.{joined, other_unit};

    ghost both = { joined };

    ghost spent = { other_unit };
}

impl StopSeat {
    /// A new word, which is 0, and the seat of the fuse's unit.
    pub(crate) fn new(alloc: Global) -> Result<StopSeat, AllocError>
        ensures { IfOk result (λ s. s.view ≡ keeper) }
    {
        let (table, seat) = Table::of_words(alloc, &[0], &())?;
        let table = Arc::new(alloc, table)?;
        Ok(StopSeat { table, seat })
    }

    /// A seat for another unit.
    pub(crate) fn split(&mut self) -> Result<StopSeat, AllocError>
        ensures same { self.new ≡ self.old }
        ensures other { IfOk result (λ s. s ≡ record { word = self.old.word; view = other_unit }) }
    {
        let table = Arc::try_clone(&self.table)?;
        let seat = self.table.shared.split_seat::<Units>(&mut self.seat);
        Ok(StopSeat { table, seat })
    }

    /// Loads the word: whether it is set.
    pub(crate) fn load(&mut self) -> bool
        ensures view { self.new
            ≡ record { word = self.old.word; view = looked self.old.view result } }
        ensures found { self.old.view.found ≡ true → result ≡ true }
        ensures fell { self.old.view.fuse ≡ true → result ≡ self.old.view.fell }
    {
        self.table.shared.load::<Loads>(&mut self.seat, 0) == 1
    }

    /// Sets the word. The seat is that of the fuse's unit.
    pub(crate) fn blow(&mut self)
        requires { self.old.view.fuse ≡ true }
        ensures { self.new ≡ record { word = self.old.word; view = blown self.old.view } }
    {
        self.table.shared.store::<Falls>(&mut self.seat, 0, 1);
    }

    /// Takes in the seat of another unit.
    pub(crate) fn join(&mut self, other: StopSeat)
        requires word { other.word ≡ self.old.word }
        requires other { other.view.fuse ≡ false }
        ensures { self.new
            ≡ record { word = self.old.word; view = joined self.old.view other.view } }
    {
        let StopSeat { table: _, seat } = other;
        self.table.shared.join_seat::<Units>(&mut self.seat, seat);
    }
}
