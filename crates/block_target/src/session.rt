//! Sessions of a target: each is a port, for one thread.
ghost use Rattle.std.specs.Prelude.{OnErr, IsErrOf, IfOk, IfErr, OnOk, IsTrue, Err, [], ◌++◌, length, map, max, ℕ, ◌↔◌, ◌≡◌, ◌<◌, ◌≤◌, ◌+◌, ◌*◌, ◌^◌};
ghost use Rattle.std.specs.List.{AllByRecursion};
ghost use Rattle.block_port.specs.Own.{placed_from, sectors_of};
ghost use Rattle.block_port.specs.Port.{AreSectors, IsPastEnd, IsSameTarget, IsSectorSize, Learns, IsWritten, IsSeen, AreShort, count_in, sectors_at, written_by};
ghost use Rattle.block_port.specs.Port.{write_faults, write_worns, read_faults, flush_faults, flush_worns};
ghost use Rattle.pblk_world.specs.Fronts.{taken};
ghost use Rattle.chronicle.specs.Prefixes.{AreLegalLogs, logs_of};
ghost use Rattle.pblk_engine.specs.Endings.{IsPassIn};
ghost use Rattle.pblk_engine.specs.Hearts.{IsRingOf};
ghost use Rattle.pblk_engine.specs.Waits.{AsksUpTo};
ghost use Rattle.sector_pool.specs.declared.entry.Class.TheVariants as kind;
ghost use Rattle.write_ring.specs.Batches.{CanPut, rows_from};
ghost use Rattle.write_ring.specs.Handles.{HasPlace, pass_view};
ghost use Rattle.write_ring.specs.declared.view.Key.{Key as KeyOf};
ghost use Rattle.block_target.specs.Causes.{FoundFull, FoundRaced, HasCause, TellsFlush, TellsPut, TellsRead, TellsSync, TellsWrite};
ghost use Rattle.block_target.specs.Sessions.{IsPlacedAt, device, row_of};

use crate::target::Target;
use block_port::{
    DriveAnswer, FlushErr, Front, Note, OwnWrite, Place, Port, ReadErr, WornAnswer, WriteErr,
    Written,
};
use crossbeam_utils::Backoff;
use pblk_engine::{Did, DriveErr, Engine, Flushed, Mount, Roomed, SettleErr, Worker};
use std::marker::Model;
use std::sync::Wait;
use std::time::Duration;
use thiserror::Error;
use unit_port::{Log, Unit};
use write_ring::{Batch, Pass, Ring, TryPut};

/// What a session has between two threads: its worker, its share of the write ring with its claims,
/// frames for 16 sectors, and what it has seen and answered. It can't be dropped.
pub struct Ticket<M: Mount> {
    pub(crate) worker: Worker<M>,
    pub(crate) pass: Pass,
    pub(crate) batch: Batch,
    // how many sectors there are, and how many bytes each has
    pub(crate) capacity: u64,
    pub(crate) sector: u32,
    pub(crate) seen: u64,
    // how many sectors it has written
    pub(crate) written: u64,
    pub(crate) own: Log<OwnWrite>,
    pub(crate) faults: Log<DriveAnswer>,
    pub(crate) worns: Log<WornAnswer>,
}

// Contracts see its worker, its part of the ring, and what it has seen, written and answered.
impl<M: Mount> Model for Ticket<M> {
    ghost use Rattle.write_ring.specs.Handles.{pass_view};
    ghost use Rattle.block_target.specs.Sessions.{IsHeld, IsSession, SessionView, session_view};

    ghost Value = { SessionView };

    ghost view = { λ t. session_view t.worker (pass_view t.pass) t.seen t.own t.faults t.worns };

    ghost invariant = { λ t. IsHeld M.ring M.past M.key t.pass t.batch t.capacity t.sector
        × IsSession M.past M.handed t.written
        (session_view t.worker (pass_view t.pass) t.seen t.own t.faults t.worns) };
}

/// A session of a target, for one thread.
///
/// A write goes to the write ring without any lock, as long as there is room. A read looks its
/// sectors up under the engine's lock, and fetches them from the drive under their units' locks.
/// What the target has to do is done by the sessions' own calls, and by lanes and a collector where
/// there are some.
pub struct Session<'t, M: Mount, U: Unit> {
    pub(crate) engine: &'t Engine<M, U>,
    pub(crate) ticket: Ticket<M>,
}

// Contracts see what they see of its ticket.
impl<'t, M: Mount, U: Unit> Model for Session<'t, M, U> {
    ghost use Rattle.block_target.specs.Sessions.{SessionView};

    ghost Value = { SessionView };

    ghost view = { λ s. s.ticket };
}

/// Why a write wasn't made at once.
#[derive(Clone, Copy, Debug, PartialEq, Eq, Error)]
pub enum TryWriteErr {
    /// Its sectors aren't all below the capacity.
    #[error("a sector is past the capacity")]
    Range,
    /// The positions from `claimed` on aren't granted: those below `limit` are.
    #[error("positions from {claimed} on were asked for, and those below {limit} are granted")]
    Full { claimed: u64, limit: u64 },
    /// Another session claimed positions between: `expected` was the next one, and then `found`.
    #[error("{found} was found where {expected} was expected")]
    Raced { expected: u64, found: u64 },
}

// How long a session waits at most for what others grant, in microseconds, before it looks again.
const PATIENCE: u64 = 200;

// Sleeps after a pump that did nothing for the session: until more is granted than `granted`, and
// for a limited time at most.
fn pause<R: Wait>(rt: &R, ring: &Ring, granted: u64, did: Did) {
    match did {
        Did::Nothing(_) | Did::NotCopied | Did::Other => {
            ring.await_grant(rt, granted, Duration::from_micros(PATIENCE));
        }
        _ => {}
    }
}

// Fills frames of a batch with sectors, which are those from `lba` on.
fn fill(batch: &mut Batch, size: u32, lba: u64, bytes: &[u8], count: u32)
    requires size { size ≡ batch.old.region.size }
    requires bytes { length bytes.now ≡ count * size }
    requires end { lba + count < 2 ^ 64 }
    requires free { count ≤ batch.old.free }
    requires few { count ≤ 16 }
    requires empty { batch.old.drafts ≡ [] }
    ensures rows { (first : ℕ) → rows_from kind.User first batch.new.drafts
        ≡ map row_of (placed_from first lba (sectors_of size count bytes.now)) }
    ensures fits { (key : KeyOf) → lba + count ≤ key.capacity
        → AllByRecursion (CanPut kind.User key) batch.new.drafts }
    ensures count { length batch.new.drafts ≡ count }
    ensures free { batch.new.free + count ≡ batch.old.free }
    ensures region { batch.new.region ≡ batch.old.region }
{
    let size = size as usize;
    for index in 0..count {
        let at = index as usize * size;
        batch.fill(lba + u64::from(index), None, &bytes[at..at + size]);
    }
}

// Waits until all positions below that one are claimed.
fn wait_for_claims<M: Mount, U: Unit, R: Wait>(
    engine: &Engine<M, U>,
    rt: &R,
    pass: &mut Pass,
    seen: u64,
)
    requires pass { IsPassIn M.ring M.key pass.old }
    ensures pass { IsPassIn M.ring M.key pass.new }
    ensures part { (pass_view pass.new).pass ≡ (pass_view pass.old).pass }
    ensures rises { (pass_view pass.old).found.claimed ≤ (pass_view pass.new).found.claimed }
    ensures seen { seen ≤ (pass_view pass.new).found.claimed }
    ensures most { (pass_view pass.new).found.claimed ≤ 2 ^ 62 }
{
    let backoff = Backoff::new();
    for _ in rt.forever() {
        if seen <= engine.ring().claimed(pass) {
            return;
        }
        backoff.snooze();
    }
    unreachable!()
}

// Puts the filled frames of a batch into the ring, once there is room. It is refused for want of
// room only where nobody else claimed a position between the try and the refusal.
fn put<M: Mount, U: Unit, R: Wait>(
    engine: &Engine<M, U>,
    rt: &R,
    worker: &mut Worker<M>,
    pass: &mut Pass,
    batch: &mut Batch,
) -> Result<Place, SettleErr>
    requires pass { IsPassIn M.ring M.key pass.old }
    requires some { 0 < length batch.old.drafts }
    requires few { length batch.old.drafts ≤ 16 }
    requires fits { AllByRecursion (CanPut kind.User M.key) batch.old.drafts }
    requires own { batch.old.region ≡ M.key.origin.region }
    ensures pass { IsPassIn M.ring M.key pass.new }
    ensures rises { (pass_view pass.old).found.claimed ≤ (pass_view pass.new).found.claimed }
    ensures region { batch.new.region ≡ batch.old.region }
    ensures shares { (pass_view pass.new).pass.shares ≡ (pass_view pass.old).pass.shares }

    // The place, and what is there.
    ensures place { IfOk result (λ p. HasPlace kind.User batch.old.drafts
        (record { first = p.first; count = p.count }) (pass_view pass.old) (pass_view pass.new)) }
    ensures past { IfOk result (λ p. (pass_view pass.old).found.claimed ≤ p.first) }
    ensures low { IfOk result (λ p. p.first ≤ 2 ^ 62) }
    ensures empty { OnOk result (batch.new.drafts ≡ []) }
    ensures free { OnOk result (batch.new.free ≡ batch.old.free + length batch.old.drafts) }

    // Where it isn't put, nothing was claimed.
    ensures unchanged { IfErr result (λ _. (pass_view pass.new).pass
        ≡ (pass_view pass.old).pass) }
    ensures same_batch { IfErr result (λ _. batch.new ≡ batch.old) }
    ensures cause { HasCause worker.old worker.new (λ more. TellsPut M.past.image M.handed
        (length batch.old.drafts) (pass_view pass.new).found.claimed worker.new more result) }
    ensures asked { worker.new.asked ≡ worker.old.asked }
    ensures legal { AreLegalLogs M.past.image worker.new.known }
{
    worker.stands();
    let backoff = Backoff::new();
    let count = batch.filled();
    for _ in rt.forever() {
        let full = match engine.ring().put(rt, pass, batch) {
            Ok(place) => {
                return Ok(Place {
                    first: place.first,
                    count: place.count,
                });
            }
            Err(full) => full,
        };
        if engine.is_contended() {
            // Others work for the target now, and grant more.
            engine
                .ring()
                .await_grant(rt, full.limit, Duration::from_micros(PATIENCE));
            continue;
        }
        let roomed = engine.room(rt, worker, full.claimed + u64::from(count), count);
        worker.stands();
        match roomed {
            Ok(Roomed::There) => backoff.reset(),
            Ok(Roomed::Pumped(did)) => pause(rt, engine.ring(), full.limit, did),
            Err(e) => match e {
                SettleErr::Drive { unit, event } => {
                    return Err(SettleErr::Drive { unit, event });
                }
                SettleErr::Worn { wanted, have } => {
                    if engine.claimed(rt, worker, pass) == full.claimed {
                        return Err(SettleErr::Worn { wanted, have });
                    }
                    // Others have claimed positions since the try: there may be room.
                    backoff.snooze();
                }
            },
        }
    }
    unreachable!()
}

// Waits until all positions below that one are on the drive.
fn sync<M: Mount, U: Unit, R: Wait>(
    engine: &Engine<M, U>,
    rt: &R,
    worker: &mut Worker<M>,
    position: u64,
) -> Result<Front, SettleErr>
    ensures cause { HasCause worker.old worker.new
        (λ more. TellsSync M.past.image M.handed position worker.new more result) }
    ensures asked { AsksUpTo position worker.old worker.new }
    ensures worn_asked { (wanted have : ℕ) → result ≡ Err (SettleErr.Worn wanted have)
        → worker.new.asked ≡ max worker.old.asked position }
    ensures legal { AreLegalLogs M.past.image worker.new.known }
{
    worker.stands();
    for _ in rt.forever() {
        let granted = engine.ring().peek_granted();
        let flushed = engine.flush(rt, worker, position);
        worker.stands();
        match flushed {
            Ok(found) => match found {
                Flushed::Synced(front) => return Ok(front),
                Flushed::Pumped(did) => pause(rt, engine.ring(), granted, did),
            },
            Err(e) => return Err(e),
        }
    }
    unreachable!()
}

// Waits until all that was seen or claimed is on the drive. It is refused only where all that was
// claimed was taken: where others have claimed positions meanwhile, it waits for these too.
fn sync_all<M: Mount, U: Unit, R: Wait>(
    engine: &Engine<M, U>,
    rt: &R,
    worker: &mut Worker<M>,
    pass: &mut Pass,
    seen: u64,
) -> Result<Front, SettleErr>
    requires pass { IsPassIn M.ring M.key pass.old }
    ensures pass { IsPassIn M.ring M.key pass.new }
    ensures part { (pass_view pass.new).pass ≡ (pass_view pass.old).pass }
    ensures cause { (position claimed : ℕ) × (position ≡ max seen claimed)
        × ((pass_view pass.old).found.claimed ≤ claimed)
        × (claimed ≤ (pass_view pass.new).found.claimed)
        × HasCause worker.old worker.new
        (λ more. TellsSync M.past.image M.handed position worker.new more result)
        × AsksUpTo position worker.old worker.new }
    ensures all_taken { (wanted have : ℕ) → result ≡ Err (SettleErr.Worn wanted have)
        → (pass_view pass.new).found.claimed ≡ taken (logs_of worker.new.known 0) }
    ensures legal { AreLegalLogs M.past.image worker.new.known }
{
    let mut claimed = engine.ring().claimed(pass);
    for _ in rt.forever() {
        let position = seen.max(claimed);
        match sync(engine, rt, worker, position) {
            Ok(front) => return Ok(front),
            Err(SettleErr::Drive { unit, event }) => return Err(SettleErr::Drive { unit, event }),
            Err(SettleErr::Worn { wanted, have }) => {
                claimed = engine.claimed(rt, worker, pass);
                if claimed <= position {
                    return Err(SettleErr::Worn { wanted, have });
                }
            }
        }
    }
    unreachable!()
}

impl<M: Mount> Ticket<M> {
    // Whether so many bytes are too many sectors from `lba` on: not all of these are below the
    // capacity.
    fn is_past_end(&self, lba: u64, len: usize) -> bool
        ensures { IsTrue result
            ↔ IsPastEnd (device M.past M.handed M.wear self.now) lba len }
    {
        self.worker.stands();
        match lba.checked_add((len / self.sector as usize) as u64) {
            None => true,
            Some(end) => end > self.capacity,
        }
    }

    // Writes sectors if there is room.
    fn try_write(&mut self, ring: &Ring, lba: u64, bytes: &[u8]) -> Result<Place, TryWriteErr>
        requires ring { IsRingOf M.ring M.key ring.now }
        requires sectors { AreSectors (device M.past M.handed M.wear self.old).sector
            (length bytes.now) }
        ensures range { IsErrOf result TryWriteErr.Range
            ↔ IsPastEnd (device M.past M.handed M.wear self.old) lba (length bytes.now) }
        ensures placed { IfOk result (λ place. IsPlacedAt lba bytes.now place
            (device M.past M.handed M.wear self.old) (device M.past M.handed M.wear self.new)) }
        ensures unchanged { IfErr result
            (λ _. self.new ≡ record self.old { found = self.new.found }) }
        ensures full { (claimed limit : ℕ) → result ≡ Err (TryWriteErr.Full claimed limit)
            → FoundFull (count_in (device M.past M.handed M.wear self.old) (length bytes.now))
            claimed limit self.new.found }
        ensures raced { (expected found : ℕ) → result ≡ Err (TryWriteErr.Raced expected found)
            → FoundRaced expected found self.new.found }
        ensures worker { self.new.worker ≡ self.old.worker }
    {
        if self.is_past_end(lba, bytes.len()) {
            return Err(TryWriteErr::Range);
        }
        self.worker.stands();
        let count = (bytes.len() / self.sector as usize) as u32;
        fill(&mut self.batch, self.sector, lba, bytes, count);
        match ring.try_put(&mut self.pass, &mut self.batch) {
            Ok(place) => {
                let place = Place {
                    first: place.first,
                    count: place.count,
                };
                self.own.add(&Written {
                    place,
                    lba,
                    size: self.sector,
                    bytes,
                });
                self.written += u64::from(count);
                self.seen = self.seen.max(place.first + u64::from(count));
                Ok(place)
            }
            Err(refused) => {
                self.batch.clear();
                Err(match refused {
                    TryPut::Full { claimed, limit } => TryWriteErr::Full { claimed, limit },
                    TryPut::Raced { expected, found } => TryWriteErr::Raced { expected, found },
                })
            }
        }
    }

    // Writes sectors, and waits for room.
    fn write<U: Unit, R: Wait>(
        &mut self,
        engine: &Engine<M, U>,
        rt: &R,
        lba: u64,
        bytes: &[u8],
    ) -> Result<Place, WriteErr>
        requires sectors { AreSectors (device M.past M.handed M.wear self.old).sector
            (length bytes.now) }
        ensures cause { let count
            = count_in (device M.past M.handed M.wear self.old) (length bytes.now) in
            HasCause self.old.worker self.new.worker
            (λ more. TellsWrite M.past.image M.handed count self.new.worker more result) }
        ensures asked { self.new.worker.asked ≡ self.old.worker.asked }
        ensures all_taken { (wanted have : ℕ) → result ≡ Err (WriteErr.Worn wanted have)
            → self.new.found.claimed ≡ taken (logs_of self.new.worker.known 0) }
        ensures range { IsErrOf result WriteErr.Range
            ↔ IsPastEnd (device M.past M.handed M.wear self.old) lba (length bytes.now) }
        ensures untouched { IsErrOf result WriteErr.Range
            → device M.past M.handed M.wear self.new ≡ device M.past M.handed M.wear self.old }
        ensures written { IfOk result (λ place. IsWritten lba bytes.now place
            (device M.past M.handed M.wear self.old) (device M.past M.handed M.wear self.new)) }
        ensures refused_own { OnErr result (self.new.own ≡ self.old.own) }
        ensures refused_seen { OnErr result (self.new.seen ≡ self.old.seen) }
        ensures faults { self.new.faults ≡ self.old.faults ++ write_faults result }
        ensures worns { let old = device M.past M.handed M.wear self.old in
            self.new.worns ≡ self.old.worns
            ++ write_worns (written_by old) (count_in old (length bytes.now)) result }
        ensures short { let old = device M.past M.handed M.wear self.old in
            AreShort (write_worns (written_by old) (count_in old (length bytes.now)) result) }
        ensures learns { Learns (device M.past M.handed M.wear self.old)
            (device M.past M.handed M.wear self.new) }
    {
        if self.is_past_end(lba, bytes.len()) {
            return Err(WriteErr::Range);
        }
        self.worker.stands();
        wait_for_claims(engine, rt, &mut self.pass, self.seen);
        let count = (bytes.len() / self.sector as usize) as u32;
        fill(&mut self.batch, self.sector, lba, bytes, count);
        let put = put(
            engine,
            rt,
            &mut self.worker,
            &mut self.pass,
            &mut self.batch,
        );
        match put {
            Ok(place) => {
                self.own.add(&Written {
                    place,
                    lba,
                    size: self.sector,
                    bytes,
                });
                self.written += u64::from(count);
                self.seen = place.first + u64::from(count);
                Ok(place)
            }
            Err(e) => {
                self.batch.clear();
                match e {
                    SettleErr::Drive { unit, event } => {
                        self.faults.add(&DriveAnswer { unit, event });
                        Err(WriteErr::Drive { unit, event })
                    }
                    SettleErr::Worn { wanted, have } => {
                        self.worns.add(&WornAnswer {
                            written: self.written,
                            count,
                            wanted,
                            have,
                        });
                        Err(WriteErr::Worn { wanted, have })
                    }
                }
            }
        }
    }

    // Reads sectors, each with its latest write at a front.
    fn read<U: Unit, R: Wait>(
        &mut self,
        engine: &Engine<M, U>,
        rt: &R,
        lba: u64,
        out: &mut [u8],
    ) -> Result<Front, ReadErr>
        requires sectors { AreSectors (device M.past M.handed M.wear self.old).sector
            (length out.old) }
        ensures cause { HasCause self.old.worker self.new.worker
            (λ more. TellsRead M.past M.handed lba (length out.old) self.old.worker self.new.worker
            more result) }
        ensures asked { self.new.worker.asked ≡ self.old.worker.asked }
        ensures range { IsErrOf result ReadErr.Range
            ↔ IsPastEnd (device M.past M.handed M.wear self.old) lba (length out.old) }
        ensures untouched { IsErrOf result ReadErr.Range
            → device M.past M.handed M.wear self.new ≡ device M.past M.handed M.wear self.old }
        ensures front { IfOk result (λ front. IsSeen front (device M.past M.handed M.wear self.old)
            (device M.past M.handed M.wear self.new)) }
        ensures words { let old = device M.past M.handed M.wear self.old in
            let count = count_in old (length out.old) in
            IfOk result (λ front. sectors_of old.sector count out.new
            ≡ sectors_at (device M.past M.handed M.wear self.new) front lba count) }
        ensures refused_seen { OnErr result (self.new.seen ≡ self.old.seen) }
        ensures own { self.new.own ≡ self.old.own }
        ensures faults { self.new.faults ≡ self.old.faults ++ read_faults result }
        ensures worns { self.new.worns ≡ self.old.worns }
        ensures learns { Learns (device M.past M.handed M.wear self.old)
            (device M.past M.handed M.wear self.new) }
    {
        if self.is_past_end(lba, out.len()) {
            return Err(ReadErr::Range);
        }
        self.worker.stands();
        let read = engine.read(rt, &mut self.worker, self.seen, lba, out);
        self.worker.stands();
        match read {
            Ok(front) => {
                self.seen = front.position;
                Ok(front)
            }
            Err(DriveErr { unit, event }) => {
                self.faults.add(&DriveAnswer { unit, event });
                Err(ReadErr::Drive { unit, event })
            }
        }
    }

    // Brings all that was seen or claimed to the drive.
    fn flush<U: Unit, R: Wait>(&mut self, engine: &Engine<M, U>, rt: &R) -> Result<Front, FlushErr>
        ensures cause { (position claimed : ℕ) × (position ≡ max self.old.seen claimed)
            × (self.old.found.claimed ≤ claimed) × (claimed ≤ self.new.found.claimed)
            × HasCause self.old.worker self.new.worker
            (λ more. TellsFlush M.past.image M.handed position self.new.worker more result)
            × AsksUpTo position self.old.worker self.new.worker }
        ensures all_taken { (wanted have : ℕ) → result ≡ Err (FlushErr.Worn wanted have)
            → self.new.found.claimed ≡ taken (logs_of self.new.worker.known 0) }
        ensures front { IfOk result (λ front. IsSeen front (device M.past M.handed M.wear self.old)
            (device M.past M.handed M.wear self.new)) }
        ensures flushed { IfOk result
            (λ front. front.position ≤ (device M.past M.handed M.wear self.new).flushed) }
        ensures refused_seen { OnErr result (self.new.seen ≡ self.old.seen) }
        ensures own { self.new.own ≡ self.old.own }
        ensures faults { self.new.faults ≡ self.old.faults ++ flush_faults result }
        ensures worns { let old = device M.past M.handed M.wear self.old in
            self.new.worns ≡ self.old.worns ++ flush_worns (written_by old) result }
        ensures short { let old = device M.past M.handed M.wear self.old in
            AreShort (flush_worns (written_by old) result) }
        ensures learns { Learns (device M.past M.handed M.wear self.old)
            (device M.past M.handed M.wear self.new) }
    {
        self.worker.stands();
        match sync_all(engine, rt, &mut self.worker, &mut self.pass, self.seen) {
            Ok(front) => {
                self.seen = front.position;
                Ok(front)
            }
            Err(SettleErr::Drive { unit, event }) => {
                self.faults.add(&DriveAnswer { unit, event });
                Err(FlushErr::Drive { unit, event })
            }
            Err(SettleErr::Worn { wanted, have }) => {
                self.worns.add(&WornAnswer {
                    written: self.written,
                    count: 0,
                    wanted,
                    have,
                });
                Err(FlushErr::Worn { wanted, have })
            }
        }
    }

    // What the session has seen.
    fn tell(&self) -> Note
        ensures { result.position ≡ self.now.seen }
    {
        Note {
            position: self.seen,
        }
    }

    // It has seen what the note tells too.
    fn hear(&mut self, note: Note)
        ensures { self.new ≡ record self.old { seen = max self.old.seen note.position } }
    {
        self.seen = self.seen.max(note.position);
    }

    // How many bytes a sector has.
    fn sector(&self) -> u32
        ensures sector { result ≡ M.past.image.shape.sector }
        ensures size { IsSectorSize result }
    {
        self.worker.stands();
        self.sector
    }
}

impl<M: Mount, U: Unit> Target<M, U> {
    /// A session with this ticket, for one thread.
    pub fn session(&self, ticket: Ticket<M>) -> Session<'_, M, U>
        ensures { result ≡ ticket }
    {
        Session {
            engine: &self.engine,
            ticket,
        }
    }
}

impl<'t, M: Mount, U: Unit> Session<'t, M, U> {
    /// Ends the session, and gives its ticket back.
    pub fn end(self) -> Ticket<M>
        ensures { result ≡ self.entry }
    {
        let Session { engine: _, ticket } = self;
        ticket
    }

    /// Writes 1 to 16 sectors from `lba` on if there is room, and gives their place in the order of
    /// all writes. What the session has seen passes it. It takes no lock and never waits.
    ///
    /// `Range` comes first, exactly where the sectors aren't all below the capacity. `Full` and
    /// `Raced` come as those of `Ring::try_put`, with numbers that were found in this call. After a
    /// refusal nothing is written, and the session has seen no more than before.
    pub fn try_write(&mut self, lba: u64, bytes: &[u8]) -> Result<Place, TryWriteErr>
        requires sectors { AreSectors (device M.past M.handed M.wear self.old).sector
            (length bytes.now) }
        ensures range { IsErrOf result TryWriteErr.Range
            ↔ IsPastEnd (device M.past M.handed M.wear self.old) lba (length bytes.now) }
        ensures placed { IfOk result (λ place. IsPlacedAt lba bytes.now place
            (device M.past M.handed M.wear self.old) (device M.past M.handed M.wear self.new)) }
        ensures unchanged { IfErr result
            (λ _. self.new ≡ record self.old { found = self.new.found }) }
        ensures full { (claimed limit : ℕ) → result ≡ Err (TryWriteErr.Full claimed limit)
            → FoundFull (count_in (device M.past M.handed M.wear self.old) (length bytes.now))
            claimed limit self.new.found }
        ensures raced { (expected found : ℕ) → result ≡ Err (TryWriteErr.Raced expected found)
            → FoundRaced expected found self.new.found }
        ensures worker { self.new.worker ≡ self.old.worker }
    {
        self.ticket.try_write(self.engine.ring(), lba, bytes)
    }
}

impl<'t, M: Mount, U: Unit> Port for Session<'t, M, U> {
    ghost model = { device M.past M.handed M.wear };

    /// Writes 1 to 16 sectors from `lba` on, and waits for room.
    ///
    /// `Worn` comes where the target is at rest without room for them. All that was claimed, as
    /// loaded in this call, was taken then.
    fn write<R: Wait>(&mut self, rt: &R, lba: u64, bytes: &[u8]) -> Result<Place, WriteErr>
        requires sectors { AreSectors (device M.past M.handed M.wear self.old).sector
            (length bytes.now) }
        ensures cause { let count
            = count_in (device M.past M.handed M.wear self.old) (length bytes.now) in
            HasCause self.old.worker self.new.worker
            (λ more. TellsWrite M.past.image M.handed count self.new.worker more result) }
        ensures asked { self.new.worker.asked ≡ self.old.worker.asked }
        ensures all_taken { (wanted have : ℕ) → result ≡ Err (WriteErr.Worn wanted have)
            → self.new.found.claimed ≡ taken (logs_of self.new.worker.known 0) }

        // What each `Port` ensures.
        ensures range { IsErrOf result WriteErr.Range
            ↔ IsPastEnd (device M.past M.handed M.wear self.old) lba (length bytes.now) }
        ensures untouched { IsErrOf result WriteErr.Range
            → device M.past M.handed M.wear self.new ≡ device M.past M.handed M.wear self.old }
        ensures written { IfOk result (λ place. IsWritten lba bytes.now place
            (device M.past M.handed M.wear self.old) (device M.past M.handed M.wear self.new)) }
        ensures refused_own { OnErr result ((device M.past M.handed M.wear self.new).own
            ≡ (device M.past M.handed M.wear self.old).own) }
        ensures refused_seen { OnErr result ((device M.past M.handed M.wear self.new).seen
            ≡ (device M.past M.handed M.wear self.old).seen) }
        ensures faults { (device M.past M.handed M.wear self.new).faults
            ≡ (device M.past M.handed M.wear self.old).faults ++ write_faults result }
        ensures worns { let old = device M.past M.handed M.wear self.old in
            (device M.past M.handed M.wear self.new).worns ≡ old.worns
            ++ write_worns (written_by old) (count_in old (length bytes.now)) result }
        ensures short { let old = device M.past M.handed M.wear self.old in
            AreShort (write_worns (written_by old) (count_in old (length bytes.now)) result) }
        ensures learns { Learns (device M.past M.handed M.wear self.old)
            (device M.past M.handed M.wear self.new) }
        ensures target { IsSameTarget (device M.past M.handed M.wear self.old)
            (device M.past M.handed M.wear self.new) }
    {
        self.ticket.write(self.engine, rt, lba, bytes)
    }

    fn read<R: Wait>(&mut self, rt: &R, lba: u64, out: &mut [u8]) -> Result<Front, ReadErr>
        requires sectors { AreSectors (device M.past M.handed M.wear self.old).sector
            (length out.old) }
        ensures cause { HasCause self.old.worker self.new.worker
            (λ more. TellsRead M.past M.handed lba (length out.old) self.old.worker self.new.worker
            more result) }
        ensures asked { self.new.worker.asked ≡ self.old.worker.asked }

        // What each `Port` ensures.
        ensures range { IsErrOf result ReadErr.Range
            ↔ IsPastEnd (device M.past M.handed M.wear self.old) lba (length out.old) }
        ensures untouched { IsErrOf result ReadErr.Range
            → device M.past M.handed M.wear self.new ≡ device M.past M.handed M.wear self.old }
        ensures front { IfOk result (λ front. IsSeen front (device M.past M.handed M.wear self.old)
            (device M.past M.handed M.wear self.new)) }
        ensures words { let old = device M.past M.handed M.wear self.old in
            let count = count_in old (length out.old) in
            IfOk result (λ front. sectors_of old.sector count out.new
            ≡ sectors_at (device M.past M.handed M.wear self.new) front lba count) }
        ensures refused_seen { OnErr result ((device M.past M.handed M.wear self.new).seen
            ≡ (device M.past M.handed M.wear self.old).seen) }
        ensures own { (device M.past M.handed M.wear self.new).own
            ≡ (device M.past M.handed M.wear self.old).own }
        ensures faults { (device M.past M.handed M.wear self.new).faults
            ≡ (device M.past M.handed M.wear self.old).faults ++ read_faults result }
        ensures worns { (device M.past M.handed M.wear self.new).worns
            ≡ (device M.past M.handed M.wear self.old).worns }
        ensures learns { Learns (device M.past M.handed M.wear self.old)
            (device M.past M.handed M.wear self.new) }
        ensures target { IsSameTarget (device M.past M.handed M.wear self.old)
            (device M.past M.handed M.wear self.new) }
    {
        self.ticket.read(self.engine, rt, lba, out)
    }

    /// Brings all that was seen or claimed to the drive.
    ///
    /// `Worn` comes where the target is at rest: all that was claimed, as loaded in this call, was
    /// taken then, and not all of it is on the drive. Where others have claimed positions by then,
    /// these are waited for too.
    fn flush<R: Wait>(&mut self, rt: &R) -> Result<Front, FlushErr>
        ensures cause { (position claimed : ℕ) × (position ≡ max self.old.seen claimed)
            × (self.old.found.claimed ≤ claimed) × (claimed ≤ self.new.found.claimed)
            × HasCause self.old.worker self.new.worker
            (λ more. TellsFlush M.past.image M.handed position self.new.worker more result)
            × AsksUpTo position self.old.worker self.new.worker }
        ensures all_taken { (wanted have : ℕ) → result ≡ Err (FlushErr.Worn wanted have)
            → self.new.found.claimed ≡ taken (logs_of self.new.worker.known 0) }

        // What each `Port` ensures.
        ensures front { IfOk result (λ front. IsSeen front (device M.past M.handed M.wear self.old)
            (device M.past M.handed M.wear self.new)) }
        ensures flushed { IfOk result
            (λ front. front.position ≤ (device M.past M.handed M.wear self.new).flushed) }
        ensures refused_seen { OnErr result ((device M.past M.handed M.wear self.new).seen
            ≡ (device M.past M.handed M.wear self.old).seen) }
        ensures own { (device M.past M.handed M.wear self.new).own
            ≡ (device M.past M.handed M.wear self.old).own }
        ensures faults { (device M.past M.handed M.wear self.new).faults
            ≡ (device M.past M.handed M.wear self.old).faults ++ flush_faults result }
        ensures worns { let old = device M.past M.handed M.wear self.old in
            (device M.past M.handed M.wear self.new).worns ≡ old.worns
            ++ flush_worns (written_by old) result }
        ensures short { let old = device M.past M.handed M.wear self.old in
            AreShort (flush_worns (written_by old) result) }
        ensures learns { Learns (device M.past M.handed M.wear self.old)
            (device M.past M.handed M.wear self.new) }
        ensures target { IsSameTarget (device M.past M.handed M.wear self.old)
            (device M.past M.handed M.wear self.new) }
    {
        self.ticket.flush(self.engine, rt)
    }

    fn tell(&self) -> Note {
        self.ticket.tell()
    }

    fn hear(&mut self, note: Note) {
        self.ticket.hear(note);
    }

    fn sector(&self) -> u32 {
        self.ticket.sector()
    }
}
