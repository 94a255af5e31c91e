//! A unit's log, what the unit is armed with, and what that makes of its next command.
ghost use Rattle.std.specs.Prelude.{◌≡◌, ◌-◌, ◌^◌, ◌+◌, ◌∷◌, ◌++◌, [], true, false, length, min, List, None, IfOk};
ghost use Rattle.std.specs.Option.{IsSome};
ghost use Rattle.pblk_model.specs.UnitLog.{UnitEvent};
ghost use Rattle.unit_port.specs.Armed.{Armed, events_since, has_stopped, is_fail, is_stop, unarmed};
ghost use Rattle.ocssd_drive.specs.Faults.{changes_of, count_of, fault_of, fuse_cut, is_change, is_failing, is_stopping, kind_of, planned};
ghost use Rattle.ocssd_drive.specs.Tally.{IsTally};
ghost use Rattle.ocssd_drive.specs.Journal.{FitsArming, IsCalm, word_of, SeatTells};
ghost use Rattle.ocssd_drive.specs.Faults.{fuse_is_at};
ghost use Rattle.ocssd_drive.specs.Arming.{AreTallies, IsLoaded, MayFall, finds, own_fuse, seat_after};
ghost use Rattle.unit_port.specs.declared.armed.CommandKind.TheVariants as kinds;

use crate::fault::Fault;
use crate::shown::Arms;
use crate::stop_word::StopSeat;
use crate::tally::Tally;
use pblk_model::{Shows, UnitEvent};
use std::alloc::{AllocError, Global};
use std::marker::Model;
use unit_port::{Armed, CommandKind, FaultPlan, Fuse, Log};

/// What a unit is to be armed with, made before anything is changed.
#[derive(Drop)]
pub(crate) struct Arming {
    pub(crate) programs: Tally,
    pub(crate) fetches: Tally,
    pub(crate) resets: Tally,
    pub(crate) stop: Option<StopSeat>,
}

/// A unit's log, and what decides whether its next command fails or is stopped.
#[derive(Drop)]
pub(crate) struct Journal {
    log: Log<UnitEvent>,
    events: u64,
    arms: Log<Armed>,
    armed: Arming,
    // Where the fuse falls on this unit.
    fuse: Option<Fuse>,
}

// Contracts see the log, what the unit was armed with, and its seat at the stop word.
impl Model for Journal {
    ghost use Rattle.ocssd_drive.specs.Journal.{JournalView};

    ghost Value = { JournalView };

    ghost use Rattle.ocssd_drive.specs.Fields.{journal_view, AreFieldsOf};

    ghost view = { journal_view };

    ghost invariant = { AreFieldsOf };
}

impl Journal {
    /// An empty log of a unit that isn't armed.
    pub(crate) fn new(alloc: Global) -> Result<Journal, AllocError>
        ensures { IfOk result (λ j. j ≡ record { log = []; armed = unarmed 0; seat = None }) }
    {
        let log = Log::new(alloc)?;
        let arms = Log::new(alloc)?;
        Ok(Journal {
            log,
            events: 0,
            arms,
            armed: Arming {
                programs: Tally::idle(alloc),
                fetches: Tally::idle(alloc),
                resets: Tally::idle(alloc),
                stop: None,
            },
            fuse: None,
        })
    }

    /// What befalls the next command, which is of this kind. The stop word is loaded first, where there is
    /// one.
    pub(crate) fn fault(&mut self, kind: CommandKind) -> Fault
        ensures same { (self.new.log ≡ self.old.log) × (self.new.armed ≡ self.old.armed) }
        ensures loaded { IsLoaded self.old.seat self.new.seat (finds self.new.seat) }
        ensures fault { result
            ≡ fault_of self.new.armed (events_since self.new.armed self.new.log)
            (finds self.new.seat) kind }
        ensures found { finds self.new.seat ≡ true → IsSome self.new.armed.fuse }
        ensures stays { has_stopped self.old.armed self.old.log ≡ true
            → finds self.new.seat ≡ true }
        ensures own { fuse_is_at self.old.armed ≡ true → finds self.new.seat ≡ true
            → has_stopped self.old.armed self.old.log ≡ true }
    {
        if finds_stop(&mut self.armed.stop) {
            return Fault::Stopped;
        }
        self.armed.next_fault(self.fuse, kind)
    }

    /// Adds the event of a command that met this fault.
    pub(crate) fn note<S: Shows<Event = UnitEvent>>(
        &mut self,
        kind: CommandKind,
        fault: Fault,
        shown: &S,
    )
        requires kind { kind_of (S.shown shown.now).command ≡ kind }
        requires fault { fault
            ≡ fault_of self.old.armed (events_since self.old.armed self.old.log)
            (finds self.old.seat) kind }
        requires fails { is_fail (S.shown shown.now).outcome ≡ is_failing fault }
        requires stops { is_stop (S.shown shown.now).outcome ≡ is_stopping fault }
        ensures log { self.new.log ≡ self.old.log ++ S.shown shown.now ∷ [] }
        ensures armed { self.new.armed ≡ self.old.armed }
        ensures seat { self.new.seat ≡ seat_after fault self.old.seat }
        ensures calm { IsCalm self.new.armed self.new.log }
    {
        blow_at(&mut self.armed.stop, fault);
        self.armed.count(kind);
        self.events = self.events.saturating_add(1);
        self.log.add(shown);
    }

    /// How many events the log has, or 2^64 - 1 where that is less.
    pub(crate) fn events(&self) -> u64
        ensures { result ≡ min (length self.now.log) (2 ^ 64 - 1) }
    {
        self.events
    }

    /// Arms the unit, which has this number in its drive, with what was made of these plans and this fuse.
    pub(crate) fn arm(&mut self, arming: Arming, unit: u32, plans: &[FaultPlan], fuse: Option<Fuse>)
        requires programs { IsTally plans.now unit kinds.Program 0 arming.programs }
        requires fetches { IsTally plans.now unit kinds.Fetch 0 arming.fetches }
        requires resets { IsTally plans.now unit kinds.Reset 0 arming.resets }
        requires stop { FitsArming unit fuse arming.stop }
        ensures log { self.new.log ≡ self.old.log }
        ensures armed { self.new.armed ≡ record {
          unit = unit;
          plans = plans.now;
          fuse = fuse;
          word = word_of arming.stop;
          since = length self.old.log;
        } }
        ensures seat { self.new.seat ≡ arming.stop }
    {
        self.arms.add(&Arms {
            unit,
            plans,
            fuse: &fuse,
            stop: &arming.stop,
            log: &self.log,
        });
        self.armed = arming;
        self.fuse = fuse_of(unit, fuse);
    }

    /// Whether the fuse that the unit is armed with falls at its own commands.
    pub(crate) fn has_fuse(&self) -> bool
        ensures { result ≡ fuse_is_at self.now.armed }
    {
        self.fuse.is_some()
    }

    /// Takes plans and fuse away, and gives the seat at the stop word.
    pub(crate) fn disarm(&mut self) -> Option<StopSeat>
        ensures log { self.new.log ≡ self.old.log }
        ensures armed { self.new.armed ≡ unarmed (length self.old.log) }
        ensures none { self.new.seat ≡ None }
        ensures calm { IsCalm self.old.armed self.old.log }
        ensures seat { SeatTells self.old.armed self.old.log result }
    {
        self.arms.add(&Arms {
            unit: 0,
            plans: &[],
            fuse: &None,
            stop: &None,
            log: &self.log,
        });
        self.fuse = None;
        self.armed.programs.clear();
        self.armed.fetches.clear();
        self.armed.resets.clear();
        self.armed.stop.take()
    }
}

impl Arming {
    // What befalls the next command, which is of this kind, where the stop word isn't set. `fuse` is the
    // fuse, where it falls on this unit.
    fn next_fault(&self, fuse: Option<Fuse>, kind: CommandKind) -> Fault
        ensures { (a : Armed) (events : List UnitEvent)
            → AreTallies a events self.now.programs self.now.fetches self.now.resets
            → fuse ≡ own_fuse a.unit a.fuse → result ≡ fault_of a events false kind }
    {
        match self.stop_cut(fuse, kind) {
            Some(cut) => Fault::Stops(cut),
            None => match self.fail_cut(kind) {
                Some(cut) => Fault::Fails(cut),
                None => Fault::Nothing,
            },
        }
    }

    // The fuse's cut, where it falls at the next command.
    fn stop_cut(&self, fuse: Option<Fuse>, kind: CommandKind) -> Option<u32>
        ensures { (a : Armed) (events : List UnitEvent)
            → AreTallies a events self.now.programs self.now.fetches self.now.resets
            → fuse ≡ own_fuse a.unit a.fuse
            → result ≡ fuse_cut a.fuse a.unit kind (changes_of events) }
    {
        match fuse {
            Some(fuse) if is_change(kind) && u64::from(fuse.nth) == self.next_change() => {
                Some(fuse.cut)
            }
            _ => None,
        }
    }

    // The number of the next program or reset, or 2^64 - 1 where that is less.
    fn next_change(&self) -> u64
        ensures { (a : Armed) (events : List UnitEvent)
            → AreTallies a events self.now.programs self.now.fetches self.now.resets
            → result ≡ min (changes_of events + 1) (2 ^ 64 - 1) }
    {
        let programs = self.programs.count();
        let resets = self.resets.count();
        programs.saturating_add(resets).saturating_add(1)
    }

    // The cut of the plan that falls on the next command, if one does.
    fn fail_cut(&self, kind: CommandKind) -> Option<u32>
        ensures { (a : Armed) (events : List UnitEvent)
            → AreTallies a events self.now.programs self.now.fetches self.now.resets
            → result ≡ planned a.plans a.unit kind (count_of kind events + 1) }
    {
        match kind {
            CommandKind::Program => self.programs.next(),
            CommandKind::Fetch => self.fetches.next(),
            CommandKind::Reset => self.resets.next(),
        }
    }

    // Counts a command.
    fn count(&mut self, kind: CommandKind)
        ensures tallies { (a : Armed) (events : List UnitEvent) (event : UnitEvent)
            → kind_of event.command ≡ kind
            → AreTallies a events self.old.programs self.old.fetches self.old.resets
            → AreTallies a (events ++ event ∷ []) self.new.programs self.new.fetches
            self.new.resets }
        ensures stop { self.new.stop ≡ self.old.stop }
    {
        match kind {
            CommandKind::Program => self.programs.advance(),
            CommandKind::Fetch => self.fetches.advance(),
            CommandKind::Reset => self.resets.advance(),
        }
    }
}

// Programs and resets change the media.
fn is_change(kind: CommandKind) -> bool
    ensures { result ≡ is_change kind }
{
    match kind {
        CommandKind::Program | CommandKind::Reset => true,
        CommandKind::Fetch => false,
    }
}

// Loads the stop word, where there is one: whether it is set.
fn finds_stop(stop: &mut Option<StopSeat>) -> bool
    ensures { IsLoaded stop.old stop.new result }
{
    match stop {
        Some(stop) => stop.load(),
        None => false,
    }
}

// Sets the stop word, where the fault is that the fuse falls.
fn blow_at(stop: &mut Option<StopSeat>, fault: Fault)
    requires { MayFall fault stop.old }
    ensures { stop.new ≡ seat_after fault stop.old }
{
    if let (Fault::Stops(_), Some(stop)) = (fault, stop) {
        stop.blow();
    }
}

// The fuse, where it falls on this unit.
fn fuse_of(unit: u32, fuse: Option<Fuse>) -> Option<Fuse>
    ensures { result ≡ own_fuse unit fuse }
{
    match fuse {
        Some(fuse) if fuse.unit == unit => Some(fuse),
        _ => None,
    }
}
