//! Laws on runs: each is the contract of a function that does no work.

ghost use Rattle.std.specs.Prelude.{ℕ, ◌≡◌, ◌≤◌, ◌⊎◌, [], List, length, None, Some};
ghost use Rattle.std.specs.Bool.{IsTrue};
ghost use Rattle.std.specs.List.{Contains};
ghost use Rattle.block_port.specs.declared.rows.WornAnswer.{WornAnswer};
ghost use Rattle.block_target.specs.Moments.{IsMoment};
ghost use Rattle.block_target.specs.Refusals.{AreRefusals};
ghost use Rattle.command_words.specs.Grammar.{RunOptions};
ghost use Rattle.pblk_model.specs.declared.script.Command.{Command};
ghost use Rattle.pblk_model.specs.CommandText.{CreateNumbers, created_drive, geometry_text};
ghost use Rattle.core_laws.specs.FaultlessMounts.{IsFaultlessMount};
ghost use Rattle.pblk_model.specs.Contents.{contents, end, head};
ghost use Rattle.pblk_model.specs.ImageFile.{Drive, StoredChunk, image_of};
ghost use Rattle.pblk_model.specs.Sealed.{IsSealed};
ghost use Rattle.pblk_model.specs.Text.{Transcript};
ghost use Rattle.pblk_model.specs.Transcript.{events};
ghost use Rattle.pblk_outside.specs.Files.{FilesView};
ghost use Rattle.pblk_world.specs.EngineLog.{Begun, begun};
ghost use Rattle.pblk_world.specs.Fronts.{taken};
ghost use Rattle.pblk_world.specs.World.{World, log_of, media};
ghost use Rattle.unit_port.specs.declared.armed.CommandKind.TheVariants as kinds;
ghost use Rattle.unit_port.specs.declared.armed.Fuse.{Fuse};
ghost use Rattle.rest_laws.specs.Tidy.{IsTidy};
ghost use Rattle.pblk_world.specs.LegalMounts.{NoStripeLost};
ghost use Rattle.pblk_cli.specs.Commands.{CreateComesTo, IsDriveOf, IsRunBetween, IsWorldBetween, RunMade};
ghost use Rattle.pblk_cli.specs.Complete.{HasSmallNumbers, IsComplete};
ghost use Rattle.pblk_cli.specs.Laws.{with_units};
ghost use Rattle.pblk_cli.specs.Status.{status_of_run};
ghost use Rattle.pblk_cli.specs.Stops.{HasFallen, HasPlan, fuse_on};
ghost use Rattle.pblk_cli.specs.Telling.{Gives};
ghost use Rattle.pblk_cli.specs.Worn.{worns_of};

use block_target::a_refused_flush_tells_the_end;

/// The next command on an image finds the drive that a run left there.
pub fn the_drive_left_is_found()
    ensures { (image script : List ℕ) (options : RunOptions) (status : ℕ) (text : List ℕ)
        (old new : FilesView) → (made : RunMade image script options status text old new)
        → IsDriveOf image new made.left }
{}

/// The drive on which the next run on the image stands is the one that a run left there, as far as
/// the files tell what they hold. So after a run that did all on a tidy drive the next one does
/// too.
pub fn the_next_run_is_on_the_drive_left()
    ensures { (image script next : List ℕ) (options later : RunOptions) (status again : ℕ)
        (text more : List ℕ) (old mid new : FilesView) → IsTrue mid.told
        → (made : RunMade image script options status text old mid)
        → (after : RunMade image next later again more mid new)
        → after.input.drive ≡ made.left }
{}

/// The drive on which the first run on an image stands is the one that `create` made, which is
/// tidy, as far as the files tell what they hold.
pub fn the_first_run_is_on_the_drive_made()
    ensures { (image script : List ℕ) (n : CreateNumbers) (options : RunOptions)
        (status again : ℕ) (text more : List ℕ) (old mid new : FilesView) → IsTrue mid.told
        → CreateComesTo image n (Gives status text) old mid
        → (after : RunMade image script options again more mid new)
        → after.input.drive ≡ created_drive n }
{}

/// Of what `geometry` prints a run changes nothing but how many chunks are in each state.
pub fn a_run_keeps_the_numbers()
    ensures { (found left : Drive) (options : RunOptions) (commands : List (List Command))
        (text : List ℕ) (units : List (List StoredChunk))
        → IsRunBetween found options commands text left
        → geometry_text (with_units units left) ≡ geometry_text (with_units units found) }
{}

/// An `e` line comes only where the named stop fell, or where a plan was named by which a fetch of
/// that line's unit fails. So the status is 5 only where one of these was named.
pub fn an_event_line_has_its_cause()
    ensures line { (found left : Drive) (options : RunOptions) (commands : List (List Command))
        (t : Transcript) (event : ℕ × ℕ) → (run : IsWorldBetween found left options commands t)
        → Contains (events t) event
        → HasFallen (fuse_on (image_of found) options.stop) (log_of run.world)
        ⊎ HasPlan options.plans kinds.Fetch event.0 }
    ensures status { (found left : Drive) (options : RunOptions) (commands : List (List Command))
        (t : Transcript) → IsWorldBetween found left options commands t → status_of_run t ≡ 5
        → ((fuse : Fuse) × (options.stop ≡ Some fuse))
        ⊎ ((unit : ℕ) × HasPlan options.plans kinds.Fetch unit) }
{}

/// Where no plan is named by which a program fails, the engine hears of no lost stripe.
pub fn a_run_loses_only_what_is_planned()
    ensures { (found left : Drive) (options : RunOptions) (commands : List (List Command))
        (t : Transcript) → (run : IsWorldBetween found left options commands t)
        → ((unit : ℕ) → ¬ HasPlan options.plans kinds.Program unit)
        → NoStripeLost (log_of run.world 0) }
{}

/// A run that is told of no stop and of no plan names no event of a unit: each command of its world
/// was done. The mount has begun there. Over a tidy image it did all that it was told to, as long
/// as the numbers of the image left are far from their ends.
pub fn a_run_without_a_stop_or_plans_is_faultless()
    ensures events { (found left : Drive) (options : RunOptions) (commands : List (List Command))
        (text : List ℕ) → (run : IsRunBetween found options commands text left)
        → options.stop ≡ None → options.plans ≡ [] → events run.transcript ≡ [] }
    ensures mount { (found left : Drive) (options : RunOptions) (commands : List (List Command))
        (text : List ℕ) → (run : IsRunBetween found options commands text left)
        → options.stop ≡ None → options.plans ≡ []
        → IsFaultlessMount (image_of found) run.world.world }
    ensures begun { (found left : Drive) (options : RunOptions) (commands : List (List Command))
        (text : List ℕ) → (run : IsRunBetween found options commands text left)
        → options.stop ≡ None → options.plans ≡ []
        → (beginning : Begun) × (begun (log_of run.world.world 0) ≡ Some beginning) }
    ensures complete { (found left : Drive) (options : RunOptions) (commands : List (List Command))
        (text : List ℕ) → (run : IsRunBetween found options commands text left)
        → options.stop ≡ None → options.plans ≡ [] → IsTidy (image_of found)
        → HasSmallNumbers (image_of left) → IsComplete found left commands run.transcript }
{}

/// A run whose opening answers an event of a unit runs no command, and keeps nothing. Over a sealed
/// image it leaves the contents and the end as they were.
pub fn a_stopped_opening_changes_nothing()
    ensures none { (found left : Drive) (options : RunOptions) (commands : List (List Command))
        (text : List ℕ) (event : ℕ × ℕ) → (run : IsRunBetween found options commands text left)
        → run.transcript.opening ≡ Some event → (run.transcript.outcomes ≡ [])
        × (run.transcript.history ≡ []) × (run.transcript.kept ≡ 0) }
    ensures contents { (found left : Drive) (options : RunOptions)
        (commands : List (List Command)) (text : List ℕ) (event : ℕ × ℕ)
        → (run : IsRunBetween found options commands text left)
        → run.transcript.opening ≡ Some event → IsSealed (image_of found)
        → (contents (image_of left) ≡ contents (image_of found))
        × (end (image_of left) ≡ end (image_of found)) }
{}

/// Over a sealed image a run that leaves the head which it found keeps no line of its history.
pub fn a_run_that_leaves_the_head_keeps_nothing()
    ensures { (found left : Drive) (options : RunOptions) (commands : List (List Command))
        (text : List ℕ) → (run : IsRunBetween found options commands text left)
        → IsSealed (image_of found) → head (image_of left) ≡ head (image_of found)
        → run.transcript.kept ≡ 0 }
{}

/// A script of one thread has nobody beside it. Where one of its lines is `worn`, what it had
/// written is just what users' writes took by then, and a write wants room just behind all that was
/// taken. These lengths of the engine's log never fall from one line to the next, the close's
/// included.
pub fn a_thread_alone_is_refused_for_its_own()
    ensures { (found left : Drive) (options : RunOptions) (commands : List (List Command))
        (t : Transcript) → (run : IsWorldBetween found left options commands t)
        → length commands ≤ 1
        → AreRefusals (image_of found) (log_of run.world) 0 (worns_of commands t) }
{}

/// A flush, or the close, that a run answers `worn` tells what is on the drive, as long as the
/// engine hears of no lost stripe. Over a sealed image there was a moment at which all that it
/// wanted was taken, and what recovery would have found ended at what it has.
pub fn a_worn_flush_tells_the_end()
    ensures { (found left : Drive) (options : RunOptions) (commands : List (List Command))
        (t : Transcript) (a : WornAnswer) → (run : IsWorldBetween found left options commands t)
        → NoStripeLost (log_of run.world 0)
        → IsSealed (image_of found) → Contains (worns_of commands t) a → a.count ≡ 0
        → (n : ℕ) × (past : World) × IsMoment run.world n past
        × (a.wanted ≤ taken (log_of past 0))
        × (end (media (image_of found) (log_of past)) ≡ a.have) }
{
    a_refused_flush_tells_the_end();
}
