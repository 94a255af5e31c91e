//! Laws on resets that the engine has noted: each is the contract of a function that does nothing.

ghost use Rattle.std.specs.Prelude.{◌≡◌, ◌⊎◌, ℕ, suc, true, false, [], ◌∷◌, length, Some};
ghost use Rattle.std.specs.List.{list_any};
ghost use Rattle.pblk_model.specs.Chunk.{Chunk};
ghost use Rattle.pblk_model.specs.Found.{IsUsed};
ghost use Rattle.pblk_model.specs.Image.{Image};
ghost use Rattle.pblk_model.specs.UnitLog.{UnitEvent};
ghost use Rattle.pblk_laws.specs.LineBlocks.{chunk_in};
ghost use Rattle.pblk_world.specs.AtRest.{AreResetsNoted, logs_at};
ghost use Rattle.pblk_world.specs.Commanding.{has_stopped, is_reset, is_stopped_reset, was_stopped};
ghost use Rattle.pblk_world.specs.EngineLog.{Begun, begun, is_opened, life_of, named_by};
ghost use Rattle.pblk_world.specs.Events.{Step};
ghost use Rattle.pblk_world.specs.Legal.{IsLegal};
ghost use Rattle.pblk_world.specs.Lines.{known_image};
ghost use Rattle.pblk_world.specs.World.{World, Logs, log_of, media, unit_event_of, unit_events};
ghost use Rattle.world_laws.specs.Merged.{AreMerged};

/// That the engine has noted each reset that wasn't stopped is a fact of what one author knows. It
/// holds of what two authors know together where it holds of each of them. It holds of the logs at
/// the end of the engine's log, and before the mount begins. Each step keeps it that isn't a reset,
/// or is one that was stopped. A reset keeps it with the engine's event that names it.
pub fn resets_stay_noted()
    ensures merged { (a b merged : Logs) → AreMerged a b merged → AreResetsNoted a
        → AreResetsNoted b → AreResetsNoted merged }
    ensures at_rest { (logs : Logs) → AreResetsNoted logs
        → AreResetsNoted (logs_at (length (logs 0)) logs) }
    ensures before { (i : Image) (w : World) → IsLegal i w → log_of w 0 ≡ []
        → AreResetsNoted (log_of w) }
    ensures kept { (w : World) (step : Step) → ((e : UnitEvent)
        → unit_event_of step.logged.event ≡ Some e → is_reset e.command ≡ true
        → was_stopped e.outcome ≡ true)
        → AreResetsNoted (log_of w) → AreResetsNoted (log_of (step ∷ w)) }
    ensures noted { (w : World) (unit : ℕ) (reset note : Step) → reset.author ≡ suc unit
        → note.author ≡ 0
        → named_by unit note.logged.event ≡ Some (length (log_of w (suc unit)))
        → AreResetsNoted (log_of w) → AreResetsNoted (log_of (note ∷ reset ∷ w)) }
{}

/// Let the engine have noted each reset that wasn't stopped. A chunk that it knows to be used is
/// used, unless a reset of it was stopped. Where a line isn't opened and no command of a unit was
/// stopped, the engine knows the unit's chunk of that line as it is.
pub fn a_chunk_is_as_it_is_known()
    ensures used { (i : Image) (w : World) (legal : IsLegal i w) (b : Begun)
        (begins : begun (log_of w 0) ≡ Some b) (unit line : ℕ) (c : Chunk)
        → AreResetsNoted (log_of w) → chunk_in (known_image i (log_of w)) line unit ≡ Some c
        → IsUsed c.state
        → (d : Chunk) × (chunk_in (media i (log_of w)) line unit ≡ Some d)
        × (IsUsed d.state
        ⊎ (list_any (is_stopped_reset line) (unit_events (log_of w) unit) ≡ true)) }
    ensures unopened { (i : Image) (w : World) (legal : IsLegal i w) (b : Begun)
        (begins : begun (log_of w 0) ≡ Some b) (unit line : ℕ) (c : Chunk)
        → AreResetsNoted (log_of w) → is_opened (life_of (log_of w 0) line) ≡ false
        → has_stopped (unit_events (log_of w) unit) ≡ false
        → chunk_in (known_image i (log_of w)) line unit ≡ Some c
        → chunk_in (media i (log_of w)) line unit ≡ Some c }
{}
