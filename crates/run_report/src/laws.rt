//! The transcript of a run is in the relation of its script, the contents before and those after.

ghost use Rattle.std.specs.Prelude.{ℕ, ◌^◌, ◌<◌, ◌≤◌, ◌≡◌, List, [], ◌∷◌, ◌++◌, Some, None, length, map, take};
ghost use Rattle.std.specs.List.{AllByRecursion};
ghost use Rattle.block_port.specs.Own.{PlacedSector};
ghost use Rattle.block_port.specs.Port.{ModelPort, positions};
ghost use Rattle.pblk_model.specs.declared.script.Command.{Command};
ghost use Rattle.pblk_model.specs.History.{after, users};
ghost use Rattle.pblk_model.specs.Script.{ScriptFits};
ghost use Rattle.pblk_model.specs.Transcript.{IsRun, IsTranscript, closing_event, events, sector_writes};
ghost use Rattle.run_report.specs.Ports.{AreKeptBelow, IsRunOfPorts, events_of};
ghost use Rattle.run_report.specs.Recorded.{IsRecorded};
ghost use Rattle.run_report.specs.Report.{closing_of, transcript_of};
ghost use Rattle.run_threads.specs.declared.records.Records.{Records};
ghost use Rattle.run_threads.specs.declared.records.Trouble.TheVariants.{Drive};
ghost use Rattle.run_threads.specs.Run.{EachThread, IsEvent, Runs};

/// What the threads of a script were answered through ports answers the script, so there is a
/// transcript of it. Each port has as many sectors as the script may name.
pub fn a_run_is_recorded()
    ensures { (told : List ℕ → ℕ) (capacity : ℕ) (script : List (List Command))
        (records : Records) (olds news : List ModelPort)
        → capacity < 2 ^ 64 → ScriptFits capacity script
        → AllByRecursion (λ port. capacity ≤ length port.start) olds
        → records.opening ≡ None
        → EachThread (λ commands answers before after. Runs told before commands answers after)
        script records.threads olds news
        → IsRecorded script records }
{}

/// Where the threads of a script are run through ports of one target, each through a port of its
/// own, the history of the transcript of their records is all that was known at last, of which as
/// many lines are kept as stand at positions below `end`; and it names the events that the ports
/// answered, thread after thread, and then that of the close. It is a transcript of the script from
/// the ports' contents at the beginning. Where all positions that were flushed are below `end`, and
/// all that are known where closing met no trouble, it is one of a run that leaves these contents
/// after the lines that are kept.
pub fn a_run_through_ports()
    ensures told { (size : ℕ) (start : List (List ℕ)) (script : List (List Command))
        (records : Records) (olds news : List ModelPort) (known : List PlacedSector) (end : ℕ)
        → IsRunOfPorts size start script records olds news known
        → IsTranscript size script start (transcript_of script records end) }
    ensures run { (size : ℕ) (start : List (List ℕ)) (script : List (List Command))
        (records : Records) (olds news : List ModelPort) (known : List PlacedSector) (end : ℕ)
        → IsRunOfPorts size start script records olds news known
        → AreKeptBelow records news known end
        → let t = transcript_of script records end in
        let kept = sector_writes size (take t.kept t.history) in
        IsRun size script start t (after start kept) }
    ensures history { (size : ℕ) (start : List (List ℕ)) (script : List (List Command))
        (records : Records) (olds news : List ModelPort) (known : List PlacedSector) (end : ℕ)
        → IsRunOfPorts size start script records olds news known
        → let t = transcript_of script records end in
        sector_writes size t.history ≡ map (λ line. line.write) known }
    ensures kept { (size : ℕ) (start : List (List ℕ)) (script : List (List Command))
        (records : Records) (olds news : List ModelPort) (known : List PlacedSector) (end : ℕ)
        → IsRunOfPorts size start script records olds news known
        → let t = transcript_of script records end in
        t.kept ≡ users (positions known) end }
    ensures events { (size : ℕ) (start : List (List ℕ)) (script : List (List Command))
        (records : Records) (olds news : List ModelPort) (known : List PlacedSector) (end : ℕ)
        → IsRunOfPorts size start script records olds news known
        → let t = transcript_of script records end in
        events t ≡ events_of news ++ closing_event (closing_of records.closing) }
{}

/// Where opening answered an event, and so no command was run, the transcript of the records is one
/// of a run that changes nothing.
pub fn a_run_that_was_not_opened()
    ensures { (size : ℕ) (script : List (List Command)) (records : Records)
        (contents : List (List ℕ)) (end unit event : ℕ)
        → records.threads ≡ [] → records.opening ≡ Some (Drive unit event)
        → records.closing ≡ None → IsEvent unit event
        → IsRun size script contents (transcript_of script records end) contents }
{}
