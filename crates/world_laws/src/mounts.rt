//! Laws over legal worlds: each is the contract of a function that does nothing.

ghost use Rattle.std.specs.Prelude.{◌≡◌, ◌≤◌, ◌↔◌, ℕ, take, length, IsTrue};
ghost use Rattle.std.specs.List.{Contains};
ghost use Rattle.pblk_model.specs.Chunk.{Block};
ghost use Rattle.pblk_model.specs.Image.{Image};
ghost use Rattle.pblk_model.specs.Sealed.{BeginsNarrower};
ghost use Rattle.pblk_model.specs.Shape.{units};
ghost use Rattle.pblk_model.specs.StartRecord.{StartRecord, start_fits};
ghost use Rattle.pblk_world.specs.Events.{Step, Stripe};
ghost use Rattle.pblk_world.specs.World.{World, Logs, log_of, known};
ghost use Rattle.pblk_world.specs.Legal.{IsLegal, IsLegalStep};
ghost use Rattle.pblk_world.specs.EngineLog.{Begun, Opened, Opening, openings, Placed, placements};
ghost use Rattle.pblk_world.specs.Lines.{known_image, is_free_line};
ghost use Rattle.pblk_world.specs.Starts.{newest_start, seq_of};
ghost use Rattle.pblk_world.specs.Opening.{MayOpen};
ghost use Rattle.pblk_world.specs.Placing.{MayPlace};
ghost use Rattle.pblk_world.specs.Space.{is_due, room};
ghost use Rattle.pblk_world.specs.Victims.{live, taken_up_to, victim};
ghost use Rattle.world_laws.specs.KnownCut.{cut, IsClosedCut};
ghost use Rattle.pblk_world.specs.LegalMounts.{IsLegalMount};
ghost use Rattle.world_laws.specs.SameTold.{AreSameNamed, AreSameTold};

/// Let a prefix of each log of a legal world be known, and let no event of these prefixes name more
/// than is known. Then what is known is a legal world by itself, and its logs are these prefixes.
///
/// A step of an author whose own log is known whole, and that names no more than is known, is legal
/// after what is known exactly where it is legal after the whole. Here the events of the prefixes
/// may name more.
pub fn what_is_known_is_a_legal_world()
    ensures legal { (i : Image) (w : World) (lengths : ℕ → ℕ) → IsLegal i w → IsClosedCut lengths w
        → IsLegal i (cut lengths w) }
    ensures logs { (w : World) (lengths : ℕ → ℕ) (author : ℕ)
        → log_of (cut lengths w) author ≡ take (lengths author) (log_of w author) }
    ensures step { (i : Image) (w : World) (lengths : ℕ → ℕ) (step : Step)
        → length (log_of w step.author) ≤ lengths step.author
        → ((other : ℕ) → known step.logged other ≤ lengths other)
        → IsLegalStep i (log_of (cut lengths w)) step ↔ IsLegalStep i (log_of w) step }
{}

/// What a target's tables hold depends on the engine's log, on the image that the mount found and
/// on the unit events that this log names as landed, lost or reset (`AreSameTold`): so the image
/// that the engine knows, the Free lines, sequence numbers and the newest start record, what is
/// live in a line and what took from it, the victim, the room, and which openings and stripes are
/// allowed.
///
/// In a legal world nothing of it depends on what a unit did beyond the prefixes that the engine's
/// events name (clause `since`). What became of lines and stripes, fronts and entries are by the
/// engine's log alone.
pub fn tables_are_by_what_was_told()
    ensures since { (i : Image) (w : World) (other : Logs) → IsLegal i w
        → AreSameNamed (log_of w) other → AreSameTold i (log_of w) other }
    ensures image { (i : Image) (logs other : Logs) → AreSameTold i logs other
        → known_image i other ≡ known_image i logs }
    ensures free { (i : Image) (logs other : Logs) → AreSameTold i logs other → (line : ℕ)
        → is_free_line i other line ≡ is_free_line i logs line }
    ensures seq { (i : Image) (logs other : Logs) → AreSameTold i logs other → (line : ℕ)
        → seq_of i other line ≡ seq_of i logs line }
    ensures newest { (i : Image) (logs other : Logs) → AreSameTold i logs other
        → newest_start i other ≡ newest_start i logs }
    ensures live { (i : Image) (logs other : Logs) → AreSameTold i logs other → (line : ℕ)
        → live i other line ≡ live i logs line }
    ensures takers { (i : Image) (logs other : Logs) → AreSameTold i logs other → (line : ℕ)
        → taken_up_to i other line ≡ taken_up_to i logs line }
    ensures due { (i : Image) (logs other : Logs) → AreSameTold i logs other
        → is_due i other ≡ is_due i logs }
    ensures victim { (i : Image) (logs other : Logs) → AreSameTold i logs other → (n : ℕ)
        → victim i other n ≡ victim i logs n }
    ensures room { (i : Image) (logs other : Logs) → AreSameTold i logs other
        → room i other ≡ room i logs }
    ensures opening { (i : Image) (logs other : Logs) → AreSameTold i logs other
        → (begun : Begun) (line : ℕ) (start : StartRecord)
        → MayOpen i logs begun line start ↔ MayOpen i other begun line start }
    ensures stripe { (i : Image) (logs other : Logs) → AreSameTold i logs other → (stripe : Stripe)
        → MayPlace i logs stripe ↔ MayPlace i other stripe }
{}

/// Each line is opened with a start record that fits it, so that its spelling reads back as this
/// record. The line is at most as wide as there are units.
pub fn a_line_is_opened_with_a_record_of_it()
    ensures fits { (i : Image) (w : World) (o : Opening) → IsLegalMount i w
        → Contains (openings (log_of w 0)) o
        → IsTrue (start_fits i.shape o.line o.start.width o.start) }
    ensures width { (i : Image) (w : World) (o : Opening) → IsLegalMount i w
        → Contains (openings (log_of w 0)) o → o.start.width ≤ units i.shape }
{}

/// No block of a stripe looks like the first block of a start record of a width below that of its
/// line's opening. So what a mount writes never becomes a start record when chunks of its line go
/// Offline.
pub fn no_stripe_begins_a_narrower_line()
    ensures { (i : Image) (w : World) (p : Placed) (o : Opening) (width : ℕ) (b : Block)
        → IsLegalMount i w → Contains (placements (log_of w 0)) p → p.life ≡ Opened o
        → width ≤ o.start.width → Contains p.stripe.blocks b → ¬ BeginsNarrower width b }
{}
