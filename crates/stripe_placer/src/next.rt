//! The next stripe of a line.

ghost use Rattle.std.specs.Prelude.{◌≡◌, ◌<◌, ◌≤◌, [], ◌∷◌, length, IfSome};
ghost use Rattle.std.specs.Option.{option_map};
ghost use Rattle.pblk_model.specs.Shape.{units};
ghost use Rattle.stripe_placer.specs.OpenLines.{OpenLine};
ghost use Rattle.stripe_placer.specs.Placing.{placement, allows, next_positions, next_in, is_ready};
ghost use Rattle.stripe_placer.specs.Inside.{IsAmongLines, FitsShape, first_given};

use crate::placement::{Placement, StripeKind};
use crate::queue::Queue;
use crate::slot::Slot;
use crate::unit_state::{UnitState, is_ready};
use pblk_layout::Layout;
use pblk_model::{a_line_is_short, line_order_is};

// Whether a stripe of this kind may be placed in a line.
fn allows(layout: &Layout, queue: &Queue, slot: &Slot, kind: StripeKind) -> bool
    ensures { result ≡ allows layout.now queue.now.entries slot.now kind }
{
    match kind {
        StripeKind::Start => true,
        StripeKind::Data => slot.start_has_landed() && queue.has_stripe(layout.shape().ws_opt),
        StripeKind::Pad => true,
        StripeKind::End => slot.data_has_landed(),
    }
}

// How many entries the next stripe of a kind takes.
fn next_count(layout: &Layout, queue: &Queue, kind: StripeKind) -> u32
    ensures { result ≡ length (next_positions layout.now queue.now.entries kind) }
{
    match kind {
        StripeKind::Data => queue.count_first(layout.shape().ws_opt),
        _ => 0,
    }
}

// The next stripe of a line, where it may be placed.
fn next_in(layout: &Layout, queue: &Queue, slot: &Slot) -> Option<Placement>
    requires { FitsShape layout.now slot.now }
    ensures next { result
        ≡ option_map placement (next_in layout.now queue.now.entries slot.now) }
    ensures unit { IfSome result (λ of. of.unit < units layout.now) }
{
    a_line_is_short();
    line_order_is();
    let stripe = slot.next()?;
    let kind = slot.kind(stripe);
    if !allows(layout, queue, slot, kind) {
        return None;
    }
    let at = stripe * layout.shape().ws_opt;
    let (unit, block) = layout.place(slot.online(), at);
    let count = next_count(layout, queue, kind);
    Some(Placement {
        line: slot.line(),
        at,
        unit,
        block,
        kind,
        count,
    })
}

// The same, where its unit is ready.
fn ready_in(
    layout: &Layout,
    queue: &Queue,
    states: &[UnitState],
    slot: &Slot,
    busy: u64,
) -> Option<Placement>
    requires units { length states.now ≡ units layout.now }
    requires few { length states.now ≤ 64 }
    requires fits { FitsShape layout.now slot.now }
    ensures { result ≡ option_map placement (first_given (λ of. is_ready states.now busy of.unit)
        (next_in layout.now queue.now.entries) (slot.now ∷ [])) }
{
    let of = next_in(layout, queue, slot)?;
    if is_ready(states, busy, of.unit) {
        Some(of)
    } else {
        None
    }
}

/// The first of the lines' next stripes whose unit is ready.
pub(crate) fn next_new(
    layout: &Layout,
    queue: &Queue,
    states: &[UnitState],
    slots: &[Slot],
    busy: u64,
) -> Option<Placement>
    requires units { length states.now ≡ units layout.now }
    requires few { length states.now ≤ 64 }
    requires fit { (l : OpenLine) → IsAmongLines slots.now l → FitsShape layout.now l }
    ensures { result ≡ option_map placement (first_given (λ of. is_ready states.now busy of.unit)
        (next_in layout.now queue.now.entries) slots.now) }
{
    for index in 0..slots.len() {
        if let Some(of) = ready_in(layout, queue, states, &slots[index], busy) {
            return Some(of);
        }
    }
    None
}
