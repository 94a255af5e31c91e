//! Laws on how a mount begins, on the commands of its workers, and on their pumps: each is the
//! contract of a function that does nothing.

ghost use Rattle.std.specs.Prelude.{◌≡◌, ◌+◌, ◌≤◌, ℕ, suc, List, length, slice_get, Some};
ghost use Rattle.pblk_model.specs.declared.found.Found.{Found};
ghost use Rattle.pblk_model.specs.declared.shape.Shape.{Shape};
ghost use Rattle.pblk_model.specs.Accepted.{IsAccepted};
ghost use Rattle.pblk_model.specs.Found.{IsFitFound};
ghost use Rattle.pblk_model.specs.Image.{Image};
ghost use Rattle.pblk_model.specs.UnitLog.{UnitEvent};
ghost use Rattle.pblk_world.specs.Events.{Does, Logged};
ghost use Rattle.pblk_world.specs.Makers.{HasMakers};
ghost use Rattle.pblk_world.specs.World.{World, log_of};
ghost use Rattle.rest_laws.specs.Work.{work_of};
ghost use Rattle.scan_recovery.specs.Readying.{IsFoundAfter};
ghost use Rattle.scan_recovery.specs.Units.{AreFit, image_of};
ghost use Rattle.step_laws.specs.Opened.{AreArmed};
ghost use Rattle.unit_port.specs.Unit.{ModelUnit};
ghost use Rattle.world_laws.specs.EarlyLogs.{AreEarly};
ghost use Rattle.write_ring.specs.declared.view.Key.{Key};
ghost use Rattle.chronicle.specs.Prefixes.{AreLegalLogs, AreOpeningLogs, logs_of};
ghost use Rattle.chronicle.specs.Views.{Past};
ghost use Rattle.pblk_engine.specs.Arms.{IsArm};
ghost use Rattle.pblk_engine.specs.Beginnings.{IsFirstPast, opened_past};
ghost use Rattle.pblk_engine.specs.Endings.{HasMadeAll};
ghost use Rattle.pblk_engine.specs.Hearts.{IsRingFor};
ghost use Rattle.pblk_engine.specs.Mounts.{IsMounted};
ghost use Rattle.pblk_engine.specs.Ticks.{ArePumps, NoneStopped, Pump, worked_of};
ghost use Rattle.pblk_engine.specs.Workers.{WorkerView};

/// A mount begins with what was found on its drive once that was padded and scanned. Its past is
/// the drive as it was handed in, and the world of the opening. A chronicle may begin with that,
/// and the units are as it leaves them.
pub fn an_opening_is_a_past()
    ensures begun { (s : Shape) (old new : List ModelUnit) (f : Found) → IsAccepted s
        → AreFit s old → AreArmed old → IsFoundAfter s old new f
        → IsFirstPast (opened_past s old new f) f }
    ensures fit { (s : Shape) (old new : List ModelUnit) (f : Found) → IsAccepted s
        → AreFit s old → IsFoundAfter s old new f → IsFitFound s f }
    ensures opening { (s : Shape) (old new : List ModelUnit) (f : Found) → IsAccepted s
        → AreFit s old → AreArmed old → IsFoundAfter s old new f
        → AreOpeningLogs (image_of s old) (opened_past s old new f).logs }
    ensures units { (s : Shape) (old new : List ModelUnit) (f : Found) → IsAccepted s
        → AreFit s old → AreArmed old → IsFoundAfter s old new f → (number : ℕ) (u : ModelUnit)
        → slice_get new number ≡ Some u
        → (was : ModelUnit) × (slice_get old number ≡ Some was)
        × IsArm (image_of s old) (logs_of (opened_past s old new f).logs) number was u }
{}

/// What has just begun is a mount over the units that were handed in, with a ring that is made for
/// drives like its own and begins at the end that was found.
pub fn what_has_just_begun_is_mounted()
    ensures legal { (past : Past) (f : Found) → IsFirstPast past f
        → AreLegalLogs past.image past.logs }
    ensures early { (past : Past) (f : Found) → IsFirstPast past f
        → AreEarly (logs_of past.logs) }
    ensures mounted { (past : Past) (f : Found) (key : Key) (handed : List ModelUnit)
        (wear : List (List ℕ)) → IsFirstPast past f → AreFit past.image.shape handed
        → past.image ≡ image_of past.image.shape handed → AreArmed handed
        → length wear ≡ length handed → IsRingFor past.image key → key.first ≡ f.end
        → IsMounted past key handed wear }
{}

/// In a world in which each command says how many its worker had made before it, each command of a
/// worker stands in the worker's list, in its place: so none is left out.
pub fn each_command_stands_in_its_list()
    ensures { (w : World) (v : WorkerView) → HasMakers w → HasMadeAll w v
        → (unit number made : ℕ) (l : Logged) (e : UnitEvent)
        → slice_get (log_of w (suc unit)) number ≡ Some l
        → l.event ≡ Does e (record { worker = v.number; made = made })
        → slice_get v.made made ≡ Some (record { unit = unit; number = number; event = e }) }
{}

/// Of pumps that a worker made one after another, at most as many did something as the engine's log
/// got pieces of work meanwhile: entries that were taken, lines that were opened, stripes that were
/// placed, and resets. So it is where no program was stopped by all that the worker knows at the
/// end.
pub fn each_pump_that_did_something_is_a_piece_of_work()
    ensures { (i : Image) (handed : List ModelUnit) (old new : WorkerView) (pumps : List Pump)
        → ArePumps i handed old pumps new → NoneStopped (logs_of new.known 0)
        → worked_of pumps + work_of (logs_of old.known 0) ≤ work_of (logs_of new.known 0) }
{}
