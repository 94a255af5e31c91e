//! Line addresses, and the blocks that stand at them.

ghost use Rattle.std.specs.Prelude.{◌≡◌, ◌*◌, ◌<◌, ◌≤◌, ◌^◌, ◌↔◌, ◌⊎◌, ℕ, length, slice_get, Some, IfSome, IsNone};
ghost use Rattle.std.specs.Int.{bit_at};
ghost use Rattle.pblk_model.specs.Accepted.{IsAccepted};
ghost use Rattle.pblk_model.specs.Shape.{units};
ghost use Rattle.pblk_model.specs.LineOrder.{line_order};
ghost use Rattle.pblk_layout.specs.Online.{units_in};

use crate::online::{is_in, nth, rank, width};
use pblk_model::{Shape, a_line_is_short, address_is_of, line_order_is, one_to_one};

/// The block at a line address.
pub(crate) fn place(shape: &Shape, online: u64, at: u32) -> (u32, u32)
    requires accepted { IsAccepted shape.now }
    requires inside { at < length (units_in online) * shape.now.clba }
    ensures { slice_get (line_order shape.now (units_in online)) at ≡ Some result }
{
    one_to_one();
    line_order_is();
    let width = width(online);
    let stripe = at / shape.ws_opt;
    let unit = nth(online, stripe % width);
    let block = stripe / width * shape.ws_opt + at % shape.ws_opt;
    (unit, block)
}

/// The line address of a block.
pub(crate) fn addr_of(shape: &Shape, online: u64, unit: u32, block: u32) -> Option<u32>
    requires accepted { IsAccepted shape.now }
    requires online { online < 2 ^ units shape.now }
    ensures found { IfSome result (λ a.
        slice_get (line_order shape.now (units_in online)) a ≡ Some (unit, block)) }
    ensures only { (a : ℕ)
        → slice_get (line_order shape.now (units_in online)) a ≡ Some (unit, block)
        → result ≡ Some a }
    ensures none { IsNone result ↔ ((bit_at online unit ≡ 0) ⊎ (shape.now.clba ≤ block)) }
{
    one_to_one();
    a_line_is_short();
    address_is_of();
    line_order_is();
    if !is_in(online, unit) || block >= shape.clba {
        return None;
    }
    let stripe = block / shape.ws_opt * width(online) + rank(online, unit);
    Some(stripe * shape.ws_opt + block % shape.ws_opt)
}
