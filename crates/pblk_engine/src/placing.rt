//! How a line is opened and a stripe is placed, by the core and the engine's author.

ghost use Rattle.std.specs.Prelude.{◌≡◌, ◌⊎◌, true};
ghost use Rattle.pblk_world.specs.Orders.{NoneToFree};
ghost use Rattle.chronicle.specs.Prefixes.{logs_of};
ghost use Rattle.core_laws.specs.PlacerOf.{was_stopped_on};
ghost use Rattle.pblk_core.specs.Keeping.{KeepsOtherStripes, KeepsStripes};
ghost use Rattle.pblk_core.specs.Landing.{IsUnderWayOn};
ghost use Rattle.pblk_core.specs.Named.{named, pad_of};
ghost use Rattle.pblk_core.specs.declared.work.Work.TheVariants as works;
ghost use Rattle.pblk_engine.specs.Asks.{IsRaisedByVictims};
ghost use Rattle.pblk_engine.specs.Placements.{IsPlacedAs};
ghost use Rattle.pblk_engine.specs.WorkSince.{HasOpened, HasWorkSince};
ghost use Rattle.pblk_engine.specs.Hearts.{HasDecided, IsBeating, parts};

use crate::engine_author::EngineAuthor;
use crate::shown::{Placed, decide};
use chronicle::Chronicle;
use pblk_core::{Core, Stripe};
use std::marker::Brand;
use write_ring::Intake;

/// Opens the line that the core names.
pub(crate) fn open_line(
    core: &mut Core,
    author: &mut EngineAuthor,
    chronicle: &Chronicle,
    intake: &Intake,
)
    requires of { author.old.chronicle ≡ chronicle.now }
    requires beating { IsBeating (parts core.old author.old intake.now.seat.me.0) }
    requires none { NoneToFree author.old.past.image (logs_of author.old.known) }
    requires named { named core.old ≡ works.Open }
    ensures beating { IsBeating (parts core.new author.new intake.now.seat.me.0) }
    ensures decided { HasDecided author.old author.new }
    ensures opened { HasOpened author.old.known author.new.known }
    ensures kept { KeepsStripes core.old core.new }
    ensures pads { IsRaisedByVictims author.new.past.image (logs_of author.new.known)
        (pad_of core.old) (pad_of core.new) }
{
    decide::<Core, Brand>(author, chronicle, core);
    core.open_line();
}

/// Places the stripe that the core names, and fills `into` with it. A stripe that was placed before
/// is under way again, and isn't placed a second time.
pub(crate) fn place(
    core: &mut Core,
    author: &mut EngineAuthor,
    chronicle: &Chronicle,
    intake: &Intake,
    into: &mut Stripe,
)
    requires of { author.old.chronicle ≡ chronicle.now }
    requires beating { IsBeating (parts core.old author.old intake.now.seat.me.0) }
    requires none { NoneToFree author.old.past.image (logs_of author.old.known) }
    requires named { named core.old ≡ works.Program }
    requires shape { into.old.shape ≡ author.old.past.image.shape }
    ensures beating { IsBeating (parts core.new author.new intake.now.seat.me.0) }
    ensures decided { HasDecided author.old author.new }
    ensures placed { IsPlacedAs (logs_of author.new.known 0) into.new }
    ensures worked { HasWorkSince author.old.known author.new.known
        ⊎ (was_stopped_on (logs_of author.old.known 0) into.new.stripe.unit ≡ true) }
    ensures under_way { IsUnderWayOn core.new into.new.stripe.unit }
    ensures shape { into.new.shape ≡ into.old.shape }
    ensures kept { KeepsOtherStripes into.new.stripe.unit core.old core.new }
    ensures pads { IsRaisedByVictims author.new.past.image (logs_of author.new.known)
        (pad_of core.old) (pad_of core.new) }
{
    core.place(into);
    if !into.is_again() {
        author.append(chronicle, &Placed { stripe: into });
    }
}
