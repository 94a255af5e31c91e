//! What a unit's events leave.

ghost use Rattle.std.specs.Prelude.{◌≡◌, ◌<◌, ℕ, List, [], ◌∷◌, ◌++◌, length, Option};
ghost use Rattle.std.specs.List.{AllByRecursion};
ghost use Rattle.pblk_model.specs.declared.shape.Shape.{Shape};
ghost use Rattle.pblk_model.specs.Chunk.{Chunk, IsChunk};
ghost use Rattle.pblk_model.specs.ChunkStep.{ChunkCommand, ChunkAnswer, ChunkStep, ChunkFails, ChunkStops};
ghost use Rattle.pblk_model.specs.UnitLog.{Answered, Failed, Stopped, UnitEvent, NotRefused, IsOutcome, IsEvent, IsUnitLog, InFlight, IsCut, after_outcome, after_event, after_log};
ghost use Rattle.pblk_laws.specs.StopLog.{WritesInFlight, IsStopOf};

/// What an event leaves of its chunk is what the chunk table says, for an answer, a failure and a
/// stop.
pub fn events_follow_the_table()
    ensures answered { (s : Shape) (c : Chunk) (command : ChunkCommand) (answer : ChunkAnswer)
        → IsOutcome s c command (Answered answer)
        → ChunkStep s c command answer (after_outcome s c command (Answered answer)) }
    ensures failed { (s : Shape) (c : Chunk) (command : ChunkCommand) (k : ℕ)
        → IsOutcome s c command (Failed k)
        → ChunkFails s c command (after_outcome s c command (Failed k)) }
    ensures stopped { (s : Shape) (c : Chunk) (command : ChunkCommand) (k : ℕ)
        → IsOutcome s c command (Stopped k)
        → ChunkStops s c command (after_outcome s c command (Stopped k)) }
{}

/// Whatever a stop may leave of a chunk within a command, some stopped event of that command
/// leaves.
pub fn stops_are_events()
    ensures { (s : Shape) (c new : Chunk) (command : ChunkCommand) → ChunkStops s c command new
        → (k : ℕ) × IsOutcome s c command (Stopped k)
        × (new ≡ after_outcome s c command (Stopped k)) }
{}

/// A log that gets an event over the chunks which it leaves is a log, and then leaves what that
/// event leaves of them.
pub fn a_log_grows()
    ensures is_log { (s : Shape) (chunks : List Chunk) (log : List UnitEvent) (e : UnitEvent)
        → IsUnitLog s chunks log → IsEvent s (after_log s chunks log) e
        → IsUnitLog s chunks (log ++ (e ∷ [])) }
    ensures leaves { (s : Shape) (chunks : List Chunk) (log : List UnitEvent) (e : UnitEvent)
        → after_log s chunks (log ++ (e ∷ [])) ≡ after_event s (after_log s chunks log) e }
{}

/// A failure that the chunk table allows is a failed event. An answer that it allows, other than a
/// refusal, is an answered event.
pub fn failures_are_events()
    ensures failed { (s : Shape) (c new : Chunk) (command : ChunkCommand)
        → ChunkFails s c command new → (k : ℕ) × IsOutcome s c command (Failed k)
        × (new ≡ after_outcome s c command (Failed k)) }
    ensures answered { (s : Shape) (c new : Chunk) (command : ChunkCommand) (answer : ChunkAnswer)
        → NotRefused answer → ChunkStep s c command answer new
        → IsOutcome s c command (Answered answer)
        × (new ≡ after_outcome s c command (Answered answer)) }
{}

/// A log over chunks of a drive's shape leaves as many chunks, and each of them is one of that
/// shape.
pub fn a_log_keeps_chunks()
    ensures each { (s : Shape) (chunks : List Chunk) (log : List UnitEvent) → 0 < s.ws_min
        → AllByRecursion (IsChunk s) chunks → IsUnitLog s chunks log
        → AllByRecursion (IsChunk s) (after_log s chunks log) }
    ensures count { (s : Shape) (chunks : List Chunk) (log : List UnitEvent)
        → length (after_log s chunks log) ≡ length chunks }
{}

/// Let a unit have a log, and perhaps a command in flight, whose blocks are of the drive's shape.
/// Whatever a stop may then leave of the unit is left by that log, or by that log with one stopped
/// event of the command more. And whatever such a log leaves, a stop may leave.
pub fn cuts_are_logs()
    ensures cut { (s : Shape) (chunks left : List Chunk) (log : List UnitEvent)
        (flight : Option InFlight) → IsUnitLog s chunks log → WritesInFlight s flight
        → IsCut s (after_log s chunks log) flight left → (more : List UnitEvent)
        × IsStopOf flight more × IsUnitLog s chunks (log ++ more)
        × (left ≡ after_log s chunks (log ++ more)) }
    ensures log { (s : Shape) (chunks : List Chunk) (log more : List UnitEvent)
        (flight : Option InFlight) → IsStopOf flight more → IsUnitLog s chunks (log ++ more)
        → IsCut s (after_log s chunks log) flight (after_log s chunks (log ++ more)) }
{}
