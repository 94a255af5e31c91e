//! The plain placer.

ghost use Rattle.std.specs.Prelude.{◌≡◌, ◌≢◌, ◌<◌, ◌≤◌, ◌^◌, ◌++◌, length, map, replicate, slice_get, slice_set, false, IfOk, OnOk, OnErr};
ghost use Rattle.std.specs.List.{All, Contains, filter, filter_map, find, flat_map};
ghost use Rattle.std.specs.Option.{option_map, option_map_or};
ghost use Rattle.std.specs.Bool.{OnTrue};
ghost use Rattle.pblk_model.specs.Shape.{units};
ghost use Rattle.pblk_model.specs.LineOrder.{data_len};
ghost use Rattle.pblk_layout.specs.Online.{units_in};
ghost use Rattle.stripe_placer.specs.OpenLines.{has_left, in_line};
ghost use Rattle.stripe_placer.specs.Placing.{nothing_placed, held, waits, padded_to, begun};
ghost use Rattle.stripe_placer.specs.Placing.{Program, placement, program, next_stripe, IsUnderWay};
ghost use Rattle.stripe_placer.specs.Placing.{placed, answered, landed, lost, stopped, is_stopped};
ghost use Rattle.stripe_placer.specs.Placing.{is_ready, stopped_in, allows, next_positions, next_in, positions_in};
ghost use Rattle.stripe_placer.specs.Placing.UnitRow.{Idle};
ghost use Rattle.plain_placer.specs.Fates.{stripe_of};
ghost use Rattle.plain_placer.specs.Fitting.{FitsLine, FitLines};

use crate::entries::PlainEntries;
use crate::line::{PlainLine, is_in};
use crate::row::PlainRow;
use crate::stripe::Fate;
use pblk_layout::Layout;
use std::alloc::{AllocError, Global};
use std::marker::Model;
use stripe_placer::{Placement, StripeKind};

/// What a placer has: the entries that wait, what each unit has, and the open lines with each of
/// their stripes.
///
/// Its calls are those of `stripe_placer::Placer`, where they take what they list from the
/// allocator.
#[derive(Drop)]
pub struct PlainPlacer {
    layout: Layout,
    entries: PlainEntries,
    units: Vec<PlainRow>,
    lines: Vec<PlainLine>,
}

impl Model for PlainPlacer {
    ghost use Rattle.stripe_placer.specs.Placing.{Placing};
    ghost use Rattle.plain_placer.specs.Fitting.{FitLines};
    ghost use Rattle.plain_placer.specs.PlacerView.{placing};

    ghost Value = { Placing };

    ghost view = { placing };

    ghost invariant = { λ p. FitLines p.layout p.lines.items };
}

// So many units that have nothing.
fn idle_rows(alloc: Global, count: u32) -> Result<Vec<PlainRow>, AllocError>
    ensures { IfOk result (λ rows. rows.items ≡ replicate count Idle) }
{
    let mut rows = Vec::new(alloc);
    for _ in 0..count {
        rows.push(PlainRow::idle(alloc))?;
    }
    Ok(rows)
}

// Whether a unit takes a program.
fn is_ready(rows: &[PlainRow], busy: u64, unit: u32) -> bool
    ensures { result ≡ is_ready rows.now busy unit }
{
    if is_in(busy, unit) {
        return false;
    }
    match rows.get(unit as usize) {
        None => true,
        Some(row) => !row.is_under_way(),
    }
}

// The first stripe that was stopped, by unit, and whose unit is ready.
fn next_stopped(rows: &[PlainRow], busy: u64) -> Option<Placement>
    ensures { result ≡ option_map placement
        (find (λ of. is_ready rows.now busy of.unit) (filter_map stopped_in rows.now)) }
{
    for row in rows {
        if let Some(of) = row.stopped_in() {
            if is_ready(rows, busy, of.unit) {
                return Some(of);
            }
        }
    }
    None
}

// Whether a stripe of this kind may be placed in a line.
fn allows(layout: &Layout, entries: &PlainEntries, line: &PlainLine, kind: StripeKind) -> bool
    ensures { result ≡ allows layout.now entries.now line.now kind }
{
    match kind {
        StripeKind::Start => true,
        StripeKind::Data => {
            line.start_has_landed() && entries.has_stripe(layout.shape().ws_opt as usize)
        }
        StripeKind::Pad => true,
        StripeKind::End => line.data_has_landed(),
    }
}

// How many entries the next stripe of a kind takes.
fn next_count(layout: &Layout, entries: &PlainEntries, kind: StripeKind) -> u32
    ensures { result ≡ length (next_positions layout.now entries.now kind) }
{
    match kind {
        StripeKind::Data => entries.count_first(layout.shape().ws_opt),
        _ => 0,
    }
}

// The next stripe of a line, where it may be placed.
fn next_in(layout: &Layout, entries: &PlainEntries, line: &PlainLine) -> Option<Placement>
    requires { FitsLine layout.now line.now }
    ensures { result ≡ option_map placement (next_in layout.now entries.now line.now) }
{
    let stripe = line.next()?;
    let kind = line.kind(stripe);
    if !allows(layout, entries, line, kind) {
        return None;
    }
    let blocks = layout.shape().ws_opt as usize;
    let count = next_count(layout, entries, kind);
    Some(Placement {
        line: line.line(),
        at: (stripe * blocks) as u32,
        unit: line.unit(stripe),
        block: (stripe / line.width() * blocks) as u32,
        kind,
        count,
    })
}

// The first of the lines' next stripes whose unit is ready.
fn next_new(
    layout: &Layout,
    entries: &PlainEntries,
    rows: &[PlainRow],
    lines: &[PlainLine],
    busy: u64,
) -> Option<Placement>
    requires { FitLines layout.now lines.now }
    ensures { result ≡ option_map placement (find (λ of. is_ready rows.now busy of.unit)
        (filter_map (next_in layout.now entries.now) lines.now)) }
{
    for line in lines {
        if let Some(of) = next_in(layout, entries, line) {
            if is_ready(rows, busy, of.unit) {
                return Some(of);
            }
        }
    }
    None
}

// The first of these and those whose unit is ready.
fn next_offer(
    layout: &Layout,
    entries: &PlainEntries,
    rows: &[PlainRow],
    lines: &[PlainLine],
    busy: u64,
) -> Option<Placement>
    requires { FitLines layout.now lines.now }
    ensures { result ≡ option_map placement (find (λ of. is_ready rows.now busy of.unit)
        (filter_map stopped_in rows.now ++ filter_map (next_in layout.now entries.now) lines.now)) }
{
    match next_stopped(rows, busy) {
        Some(of) => Some(of),
        None => next_new(layout, entries, rows, lines, busy),
    }
}

// Another thing became of a stripe of the line of this number.
fn turn(lines: &mut [PlainLine], line: u32, stripe: usize, to: Fate)
    ensures { lines.new ≡ map (in_line line stripe (stripe_of to)) lines.old }
{
    for index in 0..lines.len() {
        lines[index].turn(line, stripe, to);
    }
}

fn turn_lines(lines: &mut Vec<PlainLine>, line: u32, stripe: u32, to: Fate)
    ensures { lines.new.items ≡ map (in_line line stripe (stripe_of to)) lines.old.items }
{
    turn(lines, line, stripe as usize, to);
}

// Takes out the lines without a stripe left.
fn close_lines(lines: &mut Vec<PlainLine>)
    ensures { lines.new.items ≡ filter has_left lines.old.items }
{
    lines.retain(|line| line.has_left());
}

// Adds the positions of the entries of all units.
fn append_all(rows: &[PlainRow], positions: &mut Vec<u64>) -> Result<(), AllocError>
    ensures { OnOk result (positions.new.items ≡ positions.old.items
        ++ flat_map positions_in rows.now) }
{
    for row in rows {
        row.append_to(positions)?;
    }
    Ok(())
}

// Whether none of the lines has this number.
fn are_others(lines: &[PlainLine], line: u32) -> bool
    ensures { OnTrue result (All (λ l. l.line ≢ line) lines.now) }
{
    lines.iter().all(|other| other.line() != line)
}

// Whether all units of a set are below `count`.
fn are_units(count: u32, set: u64) -> bool
    ensures { OnTrue result (set < 2 ^ count) }
{
    count >= 64 || set < 1 << count
}

fn put(rows: &mut [PlainRow], unit: u32, row: PlainRow)
    ensures { rows.new ≡ slice_set rows.old unit row }
{
    let index = unit as usize;
    if index < rows.len() {
        rows[index] = row;
    }
}

// The stripe of a unit is answered.
fn end(rows: &mut [PlainRow], unit: u32)
    ensures { rows.new ≡ slice_set rows.old unit Idle }
{
    let index = unit as usize;
    if index < rows.len() {
        rows[index].end();
    }
}

impl PlainPlacer {
    /// Nothing waits, no line is open, and the pad target is 0.
    pub fn new(alloc: Global, layout: &Layout) -> Result<PlainPlacer, AllocError>
        ensures { IfOk result (λ p. p ≡ nothing_placed layout.now) }
    {
        Ok(PlainPlacer {
            layout: *layout,
            entries: PlainEntries::new(alloc),
            units: idle_rows(alloc, layout.shape().units())?,
            lines: Vec::new(alloc),
        })
    }

    /// The positions of all entries that wait or stand in a stripe that is neither landed nor lost.
    pub fn held(&self, alloc: Global) -> Result<Vec<u64>, AllocError>
        ensures { IfOk result (λ v. v.items ≡ held self.now) }
    {
        let mut positions = self.entries.all(alloc)?;
        append_all(&self.units, &mut positions)?;
        Ok(positions)
    }

    /// Whether an entry can wait: fewer entries wait or stand in stripes than the ring has slots,
    /// this one isn't among them, and a new one is above all that wait and weren't lost.
    pub fn can_wait(&self, alloc: Global, position: u64, lost: bool) -> Result<bool, AllocError>
        ensures room { IfOk result (λ b. OnTrue b (length (held self.now) < self.now.shape.ring)) }
        ensures another { IfOk result (λ b. OnTrue b (Contains (held self.now) position → ⊥)) }
        ensures rises { IfOk result (λ b. OnTrue b (lost ≡ false
            → All (λ q. q < position) self.now.entries.fresh)) }
    {
        let held = self.held(alloc)?;
        Ok(
            held.len() < self.layout.shape().ring as usize
                && !held.contains(&position)
                && (lost || self.entries.are_below(position)),
        )
    }

    /// Whether a line can be begun: it is one of the drive's and isn't open, its units are some of
    /// the drive's and leave room for data, and at most one line is open.
    pub fn can_begin(&self, line: u32, online: u64) -> bool
        ensures line { OnTrue result (line < self.now.shape.chunks) }
        ensures another { OnTrue result (All (λ l. l.line ≢ line) self.now.lines) }
        ensures units { OnTrue result (online < 2 ^ units self.now.shape) }
        ensures data { OnTrue result (data_len self.now.shape (length (units_in online)) ≢ 0) }
        ensures few { OnTrue result (length self.now.lines ≤ 1) }
    {
        let shape = self.layout.shape();
        line < shape.chunks
            && self.lines.len() <= 1
            && are_others(&self.lines, line)
            && are_units(shape.units(), online)
            && self.layout.data_len(self.layout.width(online)) != 0
    }

    /// Whether this stripe's program is under way.
    pub fn is_under_way(&self, of: &Placement) -> bool
        ensures { OnTrue result (IsUnderWay self.now (program self.now of.now)) }
    {
        match self.units.get(of.unit as usize) {
            None => false,
            Some(row) => row.has(of),
        }
    }

    /// Lets an entry wait for a stripe: a new one, or one that was lost with its stripe.
    pub fn wait(&mut self, alloc: Global, position: u64, lost: bool) -> Result<(), AllocError>
        ensures ok { OnOk result (self.new ≡ waits self.old position lost) }
        ensures err { OnErr result (self.new ≡ self.old) }
    {
        self.entries.wait(alloc, position, lost)
    }

    /// Raises the pad target.
    pub fn pad_to(&mut self, position: u64)
        ensures { self.new ≡ padded_to self.old position }
    {
        self.entries.pad_to(position);
    }

    /// Notes that a line of the drive was opened. It has data. Bit `u` of `online` is set for each
    /// unit `u` whose chunk isn't Offline.
    pub fn begin(&mut self, alloc: Global, line: u32, online: u64) -> Result<(), AllocError>
        requires units { online < 2 ^ units self.old.shape }
        requires data { data_len self.old.shape (length (units_in online)) ≢ 0 }
        ensures ok { OnOk result (self.new ≡ begun self.old line online) }
        ensures err { OnErr result (self.new ≡ self.old) }
    {
        let opened = PlainLine::open(alloc, &self.layout, line, online)?;
        self.lines.push(opened)?;
        Ok(())
    }

    /// The next stripe. Bit `u` of `busy` is set for each unit `u` that takes none. None exactly
    /// where there is none.
    pub fn next_stripe(&self, busy: u64) -> Option<Placement>
        ensures { result ≡ option_map placement (next_stripe self.now busy) }
    {
        next_offer(&self.layout, &self.entries, &self.units, &self.lines, busy)
    }

    /// The positions of the entries of a stripe: of the one that its unit has, and else the first
    /// that wait.
    pub fn positions_of(&self, alloc: Global, of: &Placement) -> Result<Vec<u64>, AllocError>
        ensures { IfOk result (λ v. v.items ≡ Program.positions (program self.now of.now)) }
    {
        match self.units.get(of.unit as usize) {
            None => self.entries.first(alloc, of.count as usize),
            Some(row) => {
                if row.is_idle() {
                    self.entries.first(alloc, of.count as usize)
                } else {
                    row.positions(alloc)
                }
            }
        }
    }

    fn is_stopped(&self, unit: u32) -> bool
        ensures { result ≡ option_map_or is_stopped (slice_get self.now.units unit) false }
    {
        match self.units.get(unit as usize) {
            None => false,
            Some(row) => row.is_stopped(),
        }
    }

    // A program is answered.
    fn answer(&mut self, of: &Placement, to: Fate)
        ensures { self.new ≡ answered self.old (program self.old of.now) (stripe_of to) }
    {
        end(&mut self.units, of.unit);
        let stripe = of.at / self.layout.shape().ws_opt;
        turn_lines(&mut self.lines, of.line, stripe, to);
        close_lines(&mut self.lines);
    }

    /// Notes that the program of a stripe is under way.
    pub fn placed(&mut self, alloc: Global, of: &Placement) -> Result<(), AllocError>
        ensures ok { OnOk result (self.new ≡ placed self.old (program self.old of.now)) }
        ensures err { OnErr result (self.new ≡ self.old) }
    {
        let positions = self.positions_of(alloc, of)?;
        if !self.is_stopped(of.unit) {
            self.entries.remove_first(of.count as usize);
            let stripe = of.at / self.layout.shape().ws_opt;
            turn_lines(&mut self.lines, of.line, stripe, Fate::Unanswered);
        }
        let row = PlainRow::under_way(of, positions);
        put(&mut self.units, of.unit, row);
        Ok(())
    }

    /// Notes that all blocks of a stripe have landed.
    pub fn landed(&mut self, of: &Placement)
        ensures { self.new ≡ landed self.old (program self.old of.now) }
    {
        self.answer(of, Fate::Landed);
    }

    /// Notes that the program of a stripe failed.
    pub fn lost(&mut self, of: &Placement)
        ensures { self.new ≡ lost self.old (program self.old of.now) }
    {
        self.answer(of, Fate::Lost);
    }

    /// Notes that the program of a stripe was stopped.
    pub fn stopped(&mut self, of: &Placement)
        requires { IsUnderWay self.old (program self.old of.now) }
        ensures { self.new ≡ stopped self.old (program self.old of.now) }
    {
        self.units[of.unit as usize].stop();
    }
}
