//! Stripes that are answered: what one that has landed and one that is lost have in common.

ghost use Rattle.std.specs.Prelude.{ℕ, ◌≡◌, ◌<◌, ◌≤◌, ◌+◌, ◌-◌, ◌^◌, true, length, min, Some, slice_get, slice_set};
ghost use Rattle.std.specs.List.{Contains};
ghost use Rattle.stripe_placer.specs.Placing.{program};
ghost use Rattle.stripe_placer.specs.Placing.UnitRow.{UnderWay};
ghost use Rattle.write_window.specs.Window.{IsHeld, has_landed_at};
ghost use Rattle.pblk_core.specs.Answering.{IsAnsweredInto, IsLineOf, IsPlaceOn, IsStandingBut};
ghost use Rattle.pblk_core.specs.Landing.{IsUnderWayOn};
ghost use Rattle.pblk_core.specs.Readable.{ReadBlock, reads_of};
ghost use Rattle.pblk_core.specs.Stands.{IsStanding};
ghost use Rattle.pblk_core.specs.declared.open_lines.OpenLine.{OpenLine};

use crate::reading::make_readable;
use crate::stripe::Stripe;
use crate::target_core::Core;
use stripe_placer::Placement;

/// What an answer tells of the line of its stripe.
#[derive(Clone, Copy, Debug)]
pub(crate) struct LineTold {
    /// A bit for each unit whose chunk of it isn't Offline.
    pub(crate) online: u64,
    /// How many data addresses of it have no entry yet.
    pub(crate) data_left: u64,
    /// Whether no stripe of it is left.
    pub(crate) is_done: bool,
}

impl Core {
    /// The place of a stripe whose program is under way.
    pub(crate) fn place_of(&self, stripe: &Stripe) -> Placement
        requires standing { IsStanding self.now }
        requires under_way { IsUnderWayOn self.now stripe.now.stripe.unit }
        ensures { IsPlaceOn self.now stripe.now.stripe.unit result }
    {
        match self.placer.under_way(stripe.unit()) {
            Some(of) => of,
            None => unreachable!(),
        }
    }

    /// A stripe is answered, of which the first `written` positions are written. The blocks `from`
    /// to before `to` of its chunk can be read from now on, and its line has so many stripes less
    /// left. A line of which none is left is open no more: it is closed, and the chunks of it that
    /// are used are kept. Tells of the line what was kept while it was open.
    pub(crate) fn answer(
        &mut self,
        of: &Placement,
        written: usize,
        from: u32,
        to: u32,
        stripes: u32,
    ) -> LineTold
        requires standing { IsStandingBut self.old }
        requires under_way { slice_get self.old.placer.units of.now.unit
            ≡ Some (UnderWay (program self.old.placer of.now)) }
        requires written { written ≤ of.now.count }
        requires noted { of.now.line < length self.old.notes.rows.items }
        requires held { (k : ℕ) (slot : OpenLine) → IsLineOf self.old.open of.now.line k slot
            → (b : ReadBlock) → Contains (reads_of slot of.now.unit from to) b
            → IsHeld self.old.window b.mark.position
            × (has_landed_at self.old.window b.mark.position ≡ true) }
        requires stripes { (k : ℕ) (slot : OpenLine) → IsLineOf self.old.open of.now.line k slot
            → stripes ≤ slot.stripes_left }
        ensures { IsAnsweredInto self.old self.new (program self.old.placer of.now) written from to
            stripes result }
    {
        let positions = self.placer.positions(of.unit);
        self.notes.add(of.line, &positions[..written]);
        let index = self.open.find(of.line);
        let slot = self.open.get(index);
        make_readable(
            &self.layout,
            slot,
            of.unit,
            from,
            to,
            &mut self.map,
            &mut self.window,
        );
        let online = slot.online;
        let data_left = slot.records.data_left();
        self.under_way -= 1;
        add_answer(&mut self.answers, of.unit);
        if self.open.answer(index, stripes) == 0 {
            self.resets.set_used(of.line, self.online[of.line as usize]);
            self.notes.close(of.line);
            self.open.remove(index);
            LineTold {
                online,
                data_left,
                is_done: true,
            }
        } else {
            LineTold {
                online,
                data_left,
                is_done: false,
            }
        }
    }
}

// One more stripe of a unit was answered.
fn add_answer(answers: &mut Vec<u64>, unit: u32)
    requires inside { unit < length answers.old.items }
    ensures { (n : ℕ) → slice_get answers.old.items unit ≡ Some n
        → answers.new.items ≡ slice_set answers.old.items unit (min (n + 1) (2 ^ 64 - 1)) }
{
    let count = &mut answers[unit as usize];
    *count = count.saturating_add(1);
}
