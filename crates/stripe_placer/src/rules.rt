//! What the definition of the next stripe comes to.

ghost use Rattle.std.specs.Prelude.{ℕ, ◌≡◌, ◌≢◌, true, take, slice_get, [], Some};
ghost use Rattle.pblk_model.specs.declared.shape.Shape.{Shape};
ghost use Rattle.stripe_placer.specs.declared.placement.StripeKind.TheVariants.{Data, Pad, End};
ghost use Rattle.stripe_placer.specs.Entries.{Entries, waiting, has_stripe};
ghost use Rattle.stripe_placer.specs.OpenLines.{OpenLine, has_failed};
ghost use Rattle.stripe_placer.specs.OpenLines.{start_has_landed, data_has_landed};
ghost use Rattle.stripe_placer.specs.Placing.{Program, Placing, next_in, next_stripe, is_ready};
ghost use Rattle.stripe_placer.specs.Placing.UnitRow.{Stopped};

/// The next stripe of a line. Data wait until the start record has landed whole and there are
/// entries for a stripe, and the end record until every data stripe has landed. A line of which a
/// stripe was lost has pads alone.
pub fn a_line_takes()
    ensures start { (s : Shape) (e : Entries) (l : OpenLine) (of : Program)
        → next_in s e l ≡ Some of → of.kind ≡ Data → start_has_landed l ≡ true }
    ensures entries { (s : Shape) (e : Entries) (l : OpenLine) (of : Program)
        → next_in s e l ≡ Some of → of.kind ≡ Data → has_stripe s.ws_opt e ≡ true }
    ensures positions { (s : Shape) (e : Entries) (l : OpenLine) (of : Program)
        → next_in s e l ≡ Some of → of.kind ≡ Data → of.positions ≡ take s.ws_opt (waiting e) }
    ensures no_positions { (s : Shape) (e : Entries) (l : OpenLine) (of : Program)
        → next_in s e l ≡ Some of → of.kind ≢ Data → of.positions ≡ [] }
    ensures all_data { (s : Shape) (e : Entries) (l : OpenLine) (of : Program)
        → next_in s e l ≡ Some of → of.kind ≡ End → data_has_landed l ≡ true }
    ensures pads { (s : Shape) (e : Entries) (l : OpenLine) (of : Program)
        → next_in s e l ≡ Some of → has_failed l ≡ true → of.kind ≡ Pad }
{}

/// The next stripe of all is on a unit that is ready, and one that was stopped where a unit with
/// such a stripe is.
pub fn a_unit_takes()
    ensures ready { (p : Placing) (busy : ℕ) (of : Program) → next_stripe p busy ≡ Some of
        → is_ready p.units busy of.unit ≡ true }
    ensures stopped_first { (p : Placing) (busy : ℕ) (of other : Program) (unit : ℕ)
        → next_stripe p busy ≡ Some of → slice_get p.units unit ≡ Some (Stopped other)
        → is_ready p.units busy other.unit ≡ true
        → (first : ℕ) × (slice_get p.units first ≡ Some (Stopped of)) }
{}
