//! The core of a target: its tables, and how it begins, answers and ends.

ghost use Rattle.std.specs.Prelude.{ℕ, ◌≡◌, ◌+◌, ◌-◌, ◌*◌, ◌<◌, ◌^◌, ◌↔◌, ◌++◌, true, false, List, [], length, drop, Some, IfOk, IfSome, IsNone, IsTrue, OnSome, IfNone, slice_get};
ghost use Rattle.std.specs.FinMap as fin;
ghost use Rattle.pblk_model.specs.Accepted.{IsAccepted};
ghost use Rattle.pblk_model.specs.Found.{IsFitFound};
ghost use Rattle.pblk_model.specs.Image.{Image, IsFit};
ghost use Rattle.pblk_model.specs.Shape.{units};
ghost use Rattle.pblk_world.specs.Events.{Logged};
ghost use Rattle.pblk_world.specs.EngineLog.{Placed, answers, is_answered, placements, turn};
ghost use Rattle.pblk_world.specs.World.{World, log_of};
ghost use Rattle.pblk_world.specs.Lines.{known_image, is_given_up, are_empty};
ghost use Rattle.pblk_world.specs.Fronts.{taken, synced, user_takes};
ghost use Rattle.write_window.specs.Window as view;
ghost use Rattle.pblk_world.specs.LegalMounts.{IsLegalMount};
ghost use Rattle.core_laws.specs.PlacerOf.{unanswered_on};
ghost use Rattle.core_laws.specs.SlotOf.{slot_of};
ghost use Rattle.pblk_core.specs.Resets.{resets_of};
ghost use Rattle.pblk_core.specs.Named.{pad_of, padded};
ghost use Rattle.pblk_layout.specs.Online.{units_in};
ghost use Rattle.pblk_model.specs.LineOrder.{line_order};
ghost use Rattle.pblk_model.specs.Frames.{count_out};
ghost use Rattle.core_laws.specs.WindowOf.{users_below};
ghost use Rattle.pblk_core.specs.Collecting.{Collects};
ghost use Rattle.pblk_core.specs.Copies.{is_copying};
ghost use Rattle.pblk_core.specs.Made.{IsMadeOn};
ghost use Rattle.pblk_core.specs.Landing.{IsUnderWayOn, NoneUnderWay};
ghost use Rattle.pblk_core.specs.Losing.{HasItsEntries};
ghost use Rattle.pblk_core.specs.declared.target_core.Core.{Core};
ghost use Rattle.pblk_core.specs.Mounts.{BeginsWith, CollectsStill, InItsMount, StandsStill};
ghost use Rattle.pblk_core.specs.Stands.{Stands, IsStanding, answer_count, turn_told};

use crate::collecting::Collection;
use crate::hold::Holds;
use crate::line_notes::LineNotes;
use crate::open_lines::OpenLines;
use crate::opening::{all_online_units, found_map, next_seq, no_answers, older_rows};
use crate::resets::Resets;
use l2p_map::{Map, Slot};
use line_table::Lines;
use pblk_layout::{Layout, LineUnits};
use pblk_meta::StartRecord;
use pblk_model::{Found, Front, NUMBER_LIMIT, Shape};
use sector_pool::{Frame, Pool};
use std::alloc::{AllocError, Global};
use stripe_placer::Placer;
use write_window::Window;

/// Where all positions end, but for a mount that began beyond it.
pub(crate) const LAST_POSITION: u64 = NUMBER_LIMIT - 2;

/// The tables of a target, and the steps that it makes over them (Bjørling, González, Bonnet, FAST
/// 2017, write buffering and mapping; the rules of lines, placing and space are this project's).
///
/// All memory is taken when it is made. Contracts say what its tables hold by the logs of a mount.
pub struct Core {
    pub(crate) layout: Layout,
    pub(crate) map: Map,
    pub(crate) lines: Lines,
    pub(crate) window: Window,
    pub(crate) placer: Placer,
    pub(crate) holds: Holds,
    pub(crate) open: OpenLines,
    // the online units of each line
    pub(crate) online: Vec<LineUnits>,
    // the chunks that are still to be reset, of strays and of lines that were freed, and the used
    // units of each line
    pub(crate) resets: Resets,
    // what tells when a line may be freed
    pub(crate) notes: LineNotes,
    // what the start record of the next line says, but for the line and the front
    pub(crate) start: StartRecord,
    // the mount's first position
    pub(crate) first: u64,
    // how many positions were placed
    pub(crate) placed: u64,
    // the data addresses of the open lines that have no entry yet
    pub(crate) left: u64,
    // how many stripes are placed and neither landed nor lost
    pub(crate) under_way: u32,
    // how many users' writes were taken
    pub(crate) users: u64,
    // how many stripes of each unit were answered, or 2^64 - 1 where that is less
    pub(crate) answers: Vec<u64>,
    // the victim at work, and how far its sectors were copied
    pub(crate) collection: Collection,
}

impl Core {
    /// The core of a target that opens on a drive of an accepted shape, of which recovery found
    /// this (Bjørling, González, Bonnet, FAST 2017, recovery): it begins at the end that was found.
    /// The findings fit the shape, as those of any image of it do, and no chunk of the image is
    /// Open. The pad target is 0. Fails only where there isn't the memory, of which it takes all
    /// that the core uses.
    pub fn new(alloc: Global, shape: &Shape, found: Found) -> Result<Core, AllocError>
        requires accepted { IsAccepted shape.now }
        requires fit { IsFitFound shape.now found }
        ensures stands { IfOk result (λ core.
            BeginsWith shape.now found (λ i logs. Stands i logs core)) }
        ensures collects { IfOk result (λ core.
            BeginsWith shape.now found (λ i logs. Collects i logs core)) }
        ensures idle { IfOk result (λ core. is_copying core ≡ false) }
        ensures pad { IfOk result (λ core. pad_of core ≡ 0) }
        ensures resting { IfOk result NoneUnderWay }
    {
        let mut core = Core::made(alloc, shape, &found)?;
        core.choose();
        Ok(core)
    }

    // A core that holds what was found, and nothing more.
    fn made(alloc: Global, shape: &Shape, found: &Found) -> Result<Core, AllocError>
        requires accepted { IsAccepted shape.now }
        requires fit { IsFitFound shape.now found.now }
        ensures { IfOk result (λ core. IsMadeOn shape.now found.now core) }
    {
        let layout = Layout::new(shape);
        let states = found.chunks.as_slice();
        let map = found_map(alloc, shape.capacity, found.winners.as_slice())?;
        let lines = Lines::new(alloc, &layout, found)?;
        let placer = Placer::new(alloc, &layout)?;
        let holds = Holds::new(alloc, shape.ring)?;
        let open = OpenLines::new(alloc, &layout)?;
        let online = all_online_units(alloc, &layout, found)?;
        let resets = Resets::new(alloc, shape, states, found.strays.as_slice())?;
        let notes = LineNotes::new(alloc, found.lines.as_slice(), found.head, found.front)?;
        let answers = no_answers(alloc, shape.units())?;
        let collection = Collection::new(alloc, shape.chunks)?;
        let seq = next_seq(found.lines.as_slice(), found.head);
        let start = StartRecord {
            line: 0,
            width: 0,
            seq,
            first_seq: seq,
            front: 0,
            capacity: shape.capacity,
            rows: older_rows(alloc, found.lines.as_slice(), found.end)?,
        };
        Ok(Core {
            layout,
            map,
            lines,
            window: Window::new(alloc, shape.ring, found.end)?,
            placer,
            holds,
            open,
            online,
            resets,
            notes,
            start,
            first: found.end,
            placed: 0,
            left: 0,
            under_way: 0,
            users: 0,
            answers,
            collection,
        })
    }

    /// Raises the pad target: entries that are fewer than a stripe holds are placed with Pad blocks
    /// where one of them lies below it. It never falls.
    pub fn ask_pad(&mut self, to: u64)
        ensures stands { StandsStill self.old self.new }
        ensures collects { CollectsStill self.old self.new }
        ensures raised { self.new ≡ padded self.old to }
    {
        self.placer.pad_to(to);
    }

    /// The pad target.
    pub fn pad_target(&self) -> u64
        ensures { result ≡ pad_of self.now }
    {
        self.placer.pad_target()
    }

    /// The front taken: all that was taken so far.
    pub fn front(&self) -> Front
        ensures position { result.position ≡ view.taken self.now.window }
        ensures taken { InItsMount self.now (λ i w. (result.position ≡ taken (log_of w 0))
            × (result.users ≡ length (user_takes (log_of w 0)))) }
    {
        Front {
            users: self.users,
            position: self.window.taken(),
        }
    }

    /// The front synced: all below it is on the drive.
    pub fn synced(&self) -> Front
        ensures { InItsMount self.now (λ i w. let front = synced i.shape (log_of w 0)
            in result ≡ record { users = users_below (log_of w 0) front; position = front }) }
    {
        self.window.synced()
    }

    /// How many stripes of a unit of the drive were answered, or 2^64 - 1 where that is less. A
    /// stripe whose turn it is isn't answered.
    pub fn answers(&self, unit: u32) -> u64
        requires standing { IsStanding self.now }
        requires inside { unit < units self.now.layout }
        ensures { InItsMount self.now (λ i w. result ≡ answer_count (log_of w 0) unit) }
    {
        self.answers[unit as usize]
    }

    /// Whether the program of a stripe is under way on a unit of the drive: the stripe was placed,
    /// isn't answered, and isn't to be offered again.
    pub fn is_under_way(&self, unit: u32) -> bool
        requires standing { IsStanding self.now }
        requires inside { unit < units self.now.layout }
        ensures { IsTrue result ↔ IsUnderWayOn self.now unit }
    {
        self.placer.under_way(unit).is_some()
    }

    /// Where the latest content of a sector is. The sector is below the capacity.
    pub fn look(&self, lba: u64) -> Slot
        requires { lba < fin.len self.now.map }
        ensures { InItsMount self.now (λ i w. result ≡ slot_of i (log_of w) lba) }
    {
        self.map.get(lba)
    }

    /// The sector of an entry in the window. None exactly where the window doesn't hold it.
    pub fn bytes(&self, position: u64) -> Option<&[u8]>
        ensures none { IsNone result ↔ (¬ view.IsHeld self.now.window position) }
        ensures sector { IfSome result (λ s. view.sector_at self.now.window position ≡ Some s.now) }
    {
        self.window.get(position)
    }

    /// The unit and the block of a line address. The line is one of the drive, and the address is
    /// below its width times CLBA.
    pub fn address(&self, line: u32, at: u32) -> (u32, u32)
        requires line { line < length self.now.online.items }
        requires online { (online : ℕ) → slice_get self.now.online.items line ≡ Some online
            → online < 2 ^ units self.now.layout }
        requires inside { (online : ℕ) → slice_get self.now.online.items line ≡ Some online
            → at < length (units_in online) * self.now.layout.clba }
        ensures { (online : ℕ) → slice_get self.now.online.items line ≡ Some online
            → slice_get (line_order self.now.layout (units_in online)) at ≡ Some result }
    {
        self.layout.place(self.online[line as usize].bits(), at)
    }

    /// A frame that the window gives back: that of the position at its front `freed`. None exactly
    /// where no block of that position can be read.
    pub fn pop_free(&mut self) -> Option<Frame>
        ensures none { let old = self.old.window
            in IsNone result ↔ (view.is_readable_at old old.freed ≡ false) }
        ensures stands { InItsMount self.old (λ i w. Stands i (log_of w) self.new) }
        ensures collects { CollectsStill self.old self.new }
        ensures frame { let old = self.old.window
            in IfSome result (λ f. view.frame_at old old.freed ≡ Some f) }
        ensures freed { OnSome result (self.new.window.freed ≡ self.old.window.freed + 1) }
        ensures entries { OnSome result (self.new.window.entries ≡ drop 1 self.old.window.entries) }
        ensures unchanged { IfNone result (self.new ≡ self.old) }
        ensures rest { self.new ≡ record self.old { window = self.new.window } }
    {
        self.window.pop_free()
    }

    /// Gives the window's frames back. They are of this pool.
    pub fn close(self, pool: &mut Pool)
        requires own { view.AreOf pool.old.region self.window.entries }
        ensures region { pool.new.region ≡ pool.old.region }
        ensures fewer_out { count_out pool.old.left
            ≡ count_out pool.new.left + length self.window.entries }
    {
        let Core {
            layout: _,
            map: _,
            lines: _,
            window,
            placer: _,
            holds: _,
            open: _,
            online: _,
            resets: _,
            notes: _,
            start: _,
            first: _,
            placed: _,
            left: _,
            under_way: _,
            users: _,
            answers: _,
            collection: _,
        } = self;
        window.close(pool);
    }
}

/// A world of no events, over a fit image of an accepted shape, is a legal mount.
pub fn a_world_of_no_events_is_legal()
    ensures { (i : Image) (w : World) → IsAccepted i.shape → IsFit i
        → ((author : ℕ) → log_of w author ≡ []) → IsLegalMount i w }
{}

/// A stripe that was placed isn't answered just as long as its turn is the number of its unit's
/// answers. Each unit has at most one such stripe.
pub fn a_stripe_waits_while_its_turn_is_the_number_of_answers()
    ensures { (i : Image) (w : World) (k : ℕ) (p : Placed) → IsLegalMount i w
        → slice_get (placements (log_of w 0)) k ≡ Some p → (is_answered (log_of w 0) p ≡ false)
        ↔ (turn (log_of w 0) p ≡ length (answers (log_of w 0) p.stripe.unit)) }
{}

/// A stripe tells its turn, and a core how many stripes of a unit were answered, both as far as
/// numbers below 2^64 - 1 tell. Where the two are one number below that, the stripe is the one of
/// its unit that isn't answered. The turn of a stripe that isn't answered is the number of its
/// unit's answers, and it stays as the log grows.
///
/// Where the program of that stripe is under way, the core has the entries that it holds.
pub fn a_turn_tells_which_stripe_waits()
    ensures waits { (i : Image) (w : World) (k : ℕ) (p : Placed) → IsLegalMount i w
        → slice_get (placements (log_of w 0)) k ≡ Some p
        → turn_told (log_of w 0) p ≡ answer_count (log_of w 0) p.stripe.unit
        → turn_told (log_of w 0) p < 2 ^ 64 - 1
        → unanswered_on (log_of w 0) p.stripe.unit ≡ Some p }
    ensures turn { (log : List Logged) (unit : ℕ) (p : Placed) → unanswered_on log unit ≡ Some p
        → turn_told log p ≡ answer_count log unit }
    ensures stays { (log more : List Logged) (k : ℕ) (p : Placed)
        → slice_get (placements log) k ≡ Some p
        → (slice_get (placements (log ++ more)) k ≡ Some p)
        × (turn_told (log ++ more) p ≡ turn_told log p) }
    ensures entries { (i : Image) (w : World) (c : Core) (p : Placed) → IsLegalMount i w
        → Stands i (log_of w) c → unanswered_on (log_of w 0) p.stripe.unit ≡ Some p
        → HasItsEntries c p.stripe }
{}

/// Where no reset is named, each chunk of a line that was given up is Free or Offline.
pub fn a_line_is_empty_once_it_was_reset()
    ensures { (i : Image) (w : World) (line : ℕ) → IsLegalMount i w → resets_of i (log_of w) ≡ []
        → line < i.shape.chunks → is_given_up (log_of w 0) line ≡ true
        → are_empty (known_image i (log_of w)) line ≡ true }
{}
