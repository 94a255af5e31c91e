//! An open line.

ghost use Rattle.std.specs.Prelude.{ℕ, ◌≡◌, ◌≢◌, ◌<◌, ◌^◌, false, length, replicate, slice_get};
ghost use Rattle.std.specs.Prelude.{Some, IfSome};
ghost use Rattle.pblk_model.specs.Shape.{units};
ghost use Rattle.pblk_model.specs.LineOrder.{data_len};
ghost use Rattle.pblk_layout.specs.Online.{units_in};
ghost use Rattle.stripe_placer.specs.OpenLines.{opened, next_of, kind_of, has_left, with_stripe};
ghost use Rattle.stripe_placer.specs.OpenLines.{start_has_landed, data_has_landed, in_one_chunk};
ghost use Rattle.stripe_placer.specs.OpenLines.Stripe.{Unanswered, Landed, Lost};
ghost use Rattle.stripe_placer.specs.Slots.{is_closed_chunk};
ghost use Rattle.stripe_placer.specs.Inside.{FitsShape};
ghost use Rattle.stripe_placer.specs.declared.slot.Chunk.TheVariants.{Open};

use crate::placement::StripeKind;
use pblk_layout::Layout;
use pblk_model::a_line_is_short;
use std::marker::Model;

/// What a chunk of an open line waits for.
#[derive(Clone, Copy, Debug, PartialEq, Eq)]
pub(crate) enum Chunk {
    /// All stripes that were placed in it have landed.
    Open,
    /// This stripe isn't answered.
    Unanswered(u32),
    /// This stripe was lost.
    Closed(u32),
}

impl Chunk {
    fn is_closed(self) -> bool
        ensures { result ≡ is_closed_chunk self }
    {
        matches!(self, Chunk::Closed(_))
    }
}

/// An open line, and how far it is filled.
#[derive(Drop)]
pub(crate) struct Slot {
    line: u32,
    online: u64,
    // how many chunks it has, of which these are the first
    width: u32,
    chunks: [Chunk; 64],
    start_count: u32,
    data_count: u32,
    stripe_count: u32,
    // one past the last stripe that was placed
    next: u32,
    // how many start and data stripes haven't landed
    start_left: u32,
    data_left: u32,
    // how many stripes aren't answered, and how many were lost
    unanswered: u32,
    lost: u32,
}

impl Model for Slot {
    ghost use Rattle.stripe_placer.specs.OpenLines.{OpenLine};

    ghost Value = { OpenLine };

    ghost use Rattle.stripe_placer.specs.Slots.{open_line, IsSlot};

    ghost view = { open_line };

    ghost invariant = { IsSlot };
}

fn all_open() -> [Chunk; 64]
    ensures { result ≡ replicate 64 Open }
{
    [Chunk::Open; 64]
}

impl Slot {
    /// A line that was opened. Its units are some of the drive's, and it has data.
    pub(crate) fn new(layout: &Layout, line: u32, online: u64) -> Slot
        requires online { online < 2 ^ units layout.now }
        requires data { data_len layout.now (length (units_in online)) ≢ 0 }
        ensures opened { result ≡ opened layout.now line online }
        ensures fits { FitsShape layout.now result }
    {
        a_line_is_short();
        let shape = layout.shape();
        let width = layout.width(online);
        let start_count = layout.start_len() / shape.ws_opt;
        let data_count = layout.data_len(width) / shape.ws_opt;
        Slot {
            line,
            online,
            width,
            chunks: all_open(),
            start_count,
            data_count,
            stripe_count: width * (shape.clba / shape.ws_opt),
            next: 0,
            start_left: start_count,
            data_left: data_count,
            unanswered: 0,
            lost: 0,
        }
    }

    /// Its number.
    pub(crate) fn line(&self) -> u32
        ensures { result ≡ self.now.line }
    {
        self.line
    }

    /// Its units.
    pub(crate) fn online(&self) -> u64
        ensures { result ≡ self.now.online }
    {
        self.online
    }

    /// Its next stripe that is to be placed.
    pub(crate) fn next(&self) -> Option<u32>
        ensures next { result ≡ next_of self.now }
        ensures inside { IfSome result (λ j. j < length self.now.stripes) }
    {
        let end = self.stripe_count.min(self.next + self.width);
        for stripe in self.next..end {
            if !self.chunks[(stripe % self.width) as usize].is_closed() {
                return Some(stripe);
            }
        }
        None
    }

    /// What a stripe of it holds that is to be placed.
    pub(crate) fn kind(&self, stripe: u32) -> StripeKind
        ensures { result ≡ kind_of self.now stripe }
    {
        if self.lost > 0 {
            StripeKind::Pad
        } else if stripe < self.start_count {
            StripeKind::Start
        } else if stripe < self.start_count + self.data_count {
            StripeKind::Data
        } else {
            StripeKind::End
        }
    }

    pub(crate) fn start_has_landed(&self) -> bool
        ensures { result ≡ start_has_landed self.now }
    {
        self.start_left == 0
    }

    pub(crate) fn data_has_landed(&self) -> bool
        ensures { result ≡ data_has_landed self.now }
    {
        self.data_left == 0
    }

    pub(crate) fn has_left(&self) -> bool
        ensures { result ≡ has_left self.now }
    {
        self.unanswered > 0 || self.next().is_some()
    }

    /// A stripe is placed: the next one, whose chunk has none that isn't answered.
    pub(crate) fn place(&mut self, stripe: u32)
        requires next { next_of self.old ≡ Some stripe }
        requires alone { (i : ℕ) → slice_get self.old.stripes i ≡ Some Unanswered
            → in_one_chunk self.old i stripe ≡ false }
        ensures { self.new ≡ with_stripe self.old stripe Unanswered }
    {
        self.chunks[(stripe % self.width) as usize] = Chunk::Unanswered(stripe);
        self.next = stripe + 1;
        self.unanswered += 1;
    }

    /// A stripe that wasn't answered has landed.
    pub(crate) fn land(&mut self, stripe: u32)
        requires { slice_get self.old.stripes stripe ≡ Some Unanswered }
        ensures { self.new ≡ with_stripe self.old stripe Landed }
    {
        self.chunks[(stripe % self.width) as usize] = Chunk::Open;
        self.unanswered -= 1;
        if stripe < self.start_count {
            self.start_left -= 1;
        } else if stripe < self.start_count + self.data_count {
            self.data_left -= 1;
        }
    }

    /// A stripe that wasn't answered was lost, and its chunk is closed.
    pub(crate) fn lose(&mut self, stripe: u32)
        requires { slice_get self.old.stripes stripe ≡ Some Unanswered }
        ensures { self.new ≡ with_stripe self.old stripe Lost }
    {
        self.chunks[(stripe % self.width) as usize] = Chunk::Closed(stripe);
        self.unanswered -= 1;
        self.lost += 1;
    }
}
