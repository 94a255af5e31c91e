//! A line.

ghost use Rattle.std.specs.Prelude.{◌≡◌, ◌≢◌, ◌<◌, ◌^◌, length, replicate, IfOk, IfSome};
ghost use Rattle.std.specs.List.{list_any};
ghost use Rattle.pblk_model.specs.Shape.{units};
ghost use Rattle.pblk_model.specs.LineOrder.{data_len};
ghost use Rattle.pblk_layout.specs.Online.{is_in, units_in};
ghost use Rattle.stripe_placer.specs.OpenLines.{opened, width, unit_of, in_one_chunk, stripe_is, numbers, is_unplaced, is_unanswered, is_lost};
ghost use Rattle.stripe_placer.specs.OpenLines.{has_failed, is_closed, is_to_place, next_of, has_left, kind_of};
ghost use Rattle.stripe_placer.specs.OpenLines.{start_has_landed, data_has_landed, in_line};
ghost use Rattle.stripe_placer.specs.OpenLines.Stripe.{Unplaced};
ghost use Rattle.plain_placer.specs.Fates.{stripe_of};
ghost use Rattle.plain_placer.specs.Fitting.{FitsLine};

use crate::stripe::{Fate, PlainStripe};
use pblk_layout::Layout;
use pblk_model::a_line_is_short;
use std::alloc::{AllocError, Global};
use std::marker::Model;
use stripe_placer::StripeKind;

/// An open line, with each of its stripes.
#[derive(Drop)]
pub(crate) struct PlainLine {
    line: u32,
    online: u64,
    // those of `online`, rising
    units: Vec<u32>,
    start_count: u32,
    data_count: u32,
    stripes: Vec<PlainStripe>,
}

impl Model for PlainLine {
    ghost use Rattle.std.specs.Prelude.{◌≡◌, ◌<◌, length};
    ghost use Rattle.pblk_layout.specs.Online.{units_in};
    ghost use Rattle.stripe_placer.specs.OpenLines.{OpenLine};
    ghost use Rattle.plain_placer.specs.LineView.{open_line};

    ghost Value = { OpenLine };

    ghost view = { open_line };

    ghost invariant = { λ l. (l.units.items ≡ units_in l.online) × (0 < length l.units.items) };
}

/// Whether a unit is in the set.
pub(crate) fn is_in(set: u64, unit: u32) -> bool
    ensures { result ≡ is_in set unit }
{
    unit < 64 && (set >> unit) & 1 == 1
}

// The units of a set, rising.
#[tactic(auto, unfolding(pblk_layout::specs::Online::units_in))]
fn units_in(alloc: Global, set: u64) -> Result<Vec<u32>, AllocError>
    ensures { IfOk result (λ units. units.items ≡ units_in set) }
{
    (0..64u32).filter(|unit| is_in(set, *unit)).collect(alloc)
}

// So many stripes that weren't placed.
fn unplaced(alloc: Global, count: usize) -> Result<Vec<PlainStripe>, AllocError>
    ensures { IfOk result (λ stripes. stripes.items ≡ replicate count Unplaced) }
{
    let mut stripes = Vec::new(alloc);
    for _ in 0..count {
        stripes.push(PlainStripe::new(Fate::Unplaced))?;
    }
    Ok(stripes)
}

impl PlainLine {
    /// A line that was opened.
    pub(crate) fn open(
        alloc: Global,
        layout: &Layout,
        line: u32,
        online: u64,
    ) -> Result<PlainLine, AllocError>
        requires units { online < 2 ^ units layout.now }
        requires data { data_len layout.now (length (units_in online)) ≢ 0 }
        ensures opened { IfOk result (λ l. l ≡ opened layout.now line online) }
        ensures short { IfOk result (FitsLine layout.now) }
    {
        a_line_is_short();
        let shape = layout.shape();
        let units = units_in(alloc, online)?;
        let width = layout.width(online);
        let data_count = layout.data_len(width) / shape.ws_opt;
        let count = width as usize * (shape.clba / shape.ws_opt) as usize;
        Ok(PlainLine {
            line,
            online,
            units,
            start_count: layout.start_len() / shape.ws_opt,
            data_count,
            stripes: unplaced(alloc, count)?,
        })
    }

    pub(crate) fn line(&self) -> u32
        ensures { result ≡ self.now.line }
    {
        self.line
    }

    pub(crate) fn width(&self) -> usize
        ensures width { result ≡ width self.now }
        ensures some { 0 < result }
    {
        self.units.len()
    }

    /// The unit of a stripe.
    pub(crate) fn unit(&self, stripe: usize) -> u32
        ensures { result ≡ unit_of self.now stripe }
    {
        self.units[stripe % self.units.len()]
    }

    fn are_in_one_chunk(&self, i: usize, j: usize) -> bool
        ensures { result ≡ in_one_chunk self.now i j }
    {
        i % self.units.len() == j % self.units.len()
    }

    fn is_unplaced(&self, stripe: usize) -> bool
        ensures { result ≡ stripe_is self.now is_unplaced stripe }
    {
        match self.stripes.get(stripe) {
            None => false,
            Some(stripe) => stripe.is_unplaced(),
        }
    }

    fn is_lost(&self, stripe: usize) -> bool
        ensures { result ≡ stripe_is self.now is_lost stripe }
    {
        match self.stripes.get(stripe) {
            None => false,
            Some(stripe) => stripe.is_lost(),
        }
    }

    fn has_failed(&self) -> bool
        ensures { result ≡ has_failed self.now }
    {
        self.stripes.iter().any(|stripe| stripe.is_lost())
    }

    fn is_closed(&self, stripe: usize) -> bool
        ensures { result ≡ is_closed self.now stripe }
    {
        (0..self.stripes.len()).any(|i| self.is_lost(i) && self.are_in_one_chunk(i, stripe))
    }

    fn is_to_place(&self, stripe: usize) -> bool
        ensures { result ≡ is_to_place self.now stripe }
    {
        self.is_unplaced(stripe) && !self.is_closed(stripe)
    }

    /// The next stripe that is to be placed.
    pub(crate) fn next(&self) -> Option<usize>
        ensures next { result ≡ next_of self.now }
        ensures inside { IfSome result (λ j. j < length self.now.stripes) }
    {
        (0..self.stripes.len()).find(|stripe| self.is_to_place(*stripe))
    }

    fn has_to_place(&self) -> bool
        ensures { result ≡ list_any (is_to_place self.now) (numbers self.now) }
    {
        (0..self.stripes.len()).any(|stripe| self.is_to_place(stripe))
    }

    fn has_unanswered(&self) -> bool
        ensures { result ≡ list_any is_unanswered self.now.stripes }
    {
        self.stripes.iter().any(|stripe| stripe.is_unanswered())
    }

    pub(crate) fn has_left(&self) -> bool
        ensures { result ≡ has_left self.now }
    {
        self.has_to_place() || self.has_unanswered()
    }

    /// What a stripe holds that is to be placed.
    pub(crate) fn kind(&self, stripe: usize) -> StripeKind
        ensures { result ≡ kind_of self.now stripe }
    {
        if self.has_failed() {
            StripeKind::Pad
        } else if stripe < self.start_count as usize {
            StripeKind::Start
        } else if stripe < self.start_count as usize + self.data_count as usize {
            StripeKind::Data
        } else {
            StripeKind::End
        }
    }

    pub(crate) fn start_has_landed(&self) -> bool
        ensures { result ≡ start_has_landed self.now }
    {
        self.stripes
            .iter()
            .take(self.start_count as usize)
            .all(|stripe| stripe.is_landed())
    }

    pub(crate) fn data_has_landed(&self) -> bool
        ensures { result ≡ data_has_landed self.now }
    {
        self.stripes
            .iter()
            .skip(self.start_count as usize)
            .take(self.data_count as usize)
            .all(|stripe| stripe.is_landed())
    }

    /// Another thing became of a stripe of the line of this number.
    pub(crate) fn turn(&mut self, line: u32, stripe: usize, to: Fate)
        ensures { self.new ≡ in_line line stripe (stripe_of to) self.old }
    {
        if self.line == line && stripe < self.stripes.len() {
            self.stripes[stripe] = PlainStripe::new(to);
        }
    }
}
