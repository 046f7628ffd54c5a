//! Laws of steps, over the definitions alone.

ghost use Rattle.std.specs.Prelude.{◌≡◌, ◌↔◌, ℕ, false, true, List, [], Option, Some, None, Ok};
ghost use Rattle.std.specs.List.{AllByRecursion};
ghost use Rattle.merge_policy.specs.Chosen.{chosen};
ghost use Rattle.meta_store.specs.History.{history, last_opstamp};
ghost use Rattle.meta_store.specs.Planning.{config_fits, is_behind};
ghost use Rattle.meta_store.specs.Readings.{config_of};
ghost use Rattle.meta_store.specs.Rows.{rows};
ghost use Rattle.meta_store.specs.State.{Legal};
ghost use Rattle.meta_store.specs.declared.config.Config.{Config};
ghost use Rattle.source_log.specs.Log.{Log};
ghost use Rattle.index_world.specs.Calls.{asked_and_looked};
ghost use Rattle.index_world.specs.Config.{reads};
ghost use Rattle.index_world.specs.Core.{Core, IsOther};
ghost use Rattle.index_world.specs.Gate.{IsSoundCore};
ghost use Rattle.index_world.specs.World.{GoesOn};
ghost use Rattle.upkeep_run.specs.Losing.{CanRaise, CanReplace, LosesUnless};
ghost use Rattle.upkeep_run.specs.Outcomes.{Nothing};
ghost use Rattle.upkeep_run.specs.Places.{WorkerHeld, IsUploadedHeld, IsWork, WorkerPlace, Work, fetching, idle, number_held, uploaded};
ghost use Rattle.upkeep_run.specs.Standing.{PlaceStands};
ghost use Rattle.upkeep_run.specs.Steps.{WorkerLuck, drops_none, first_number, rows_in, step_worker};
ghost use Rattle.upkeep_run.specs.declared.work.Aim.{Aim};
ghost use Rattle.upkeep_run.specs.declared.work.Aim.TheVariants.{Deleting, Merging};
ghost use Rattle.upkeep_run.specs.declared.work.WorkerPlace.{WorkerPlace as HeldPlace};

/// An idle worker has nothing to do exactly where its plan was made and has no row, and memory is there.
pub fn nothing_is_exact()
    ensures step { (aim : Aim) (luck : WorkerLuck) (log : Log) (core : Core) →
        ((step_worker aim luck log idle core).outcome ≡ Some Nothing)
        ↔ ((luck.short ≡ false) × ((asked_and_looked luck.world core).answer ≡ Ok tt) × (rows_in aim (asked_and_looked luck.world core).core ≡ [])) }
    // A plan for a merge has no row exactly where the policy chooses none. (The numbers of each accepted configuration fit: meta_store `ranges_fit`.)
    ensures merging { (core : Core) (config : Config) → Legal reads (history core.history) → config_of reads (history core.history) ≡ Some config → config_fits config.settings.index ≡ true →
        ((rows_in Merging core ≡ []) ↔ (chosen config.settings.index.policy config.settings.index.docs_target core.moment (rows (history core.history)) ≡ None)) }
    // One for deletes has none exactly where each published row is applied up to the last task.
    ensures deleting { (core : Core) (config : Config) → config_of reads (history core.history) ≡ Some config →
        ((rows_in Deleting core ≡ []) ↔ AllByRecursion (λ row. is_behind (last_opstamp (history core.history)) row ≡ false) (rows (history core.history))) }
{}

/// A worker stands for the same where others went on by a call about another number than the one that it holds.
pub fn others_leave_it()
    ensures { (aim : Aim) (core after : Core) (log : Log) (one : Option ℕ) (kept : HeldPlace) (place : WorkerPlace) → GoesOn one core after → Legal reads (history after.history) →
        ((n : ℕ) → number_held place ≡ Some n → IsOther one n) → PlaceStands aim log core kept place → PlaceStands aim log after kept place }
{}

/// Planned rows are lost exactly where one of them isn't published or the own row isn't staged for a replacement: a step that replaces
/// is Lost where the history that it came to has no such rows, and Replaced where the one before its entry has. So is one that raises.
pub fn lost_is_exact()
    ensures replaces { (aim : Aim) (luck : WorkerLuck) (log : Log) (core : Core) (held : WorkerHeld) → let step = step_worker aim luck log (uploaded held) core in
        IsUploadedHeld log core held → GoesOn (Some held.number) core step.core → IsSoundCore step.core log → LosesUnless (λ rows. CanReplace rows held.number held.old) step.outcome step.core }
    ensures raises { (luck : WorkerLuck) (log : Log) (core : Core) (work : Work) → let step = step_worker Deleting luck log (fetching work) core in
        work.unfetched ≡ [] → drops_none work core ≡ true → IsWork log core work → GoesOn None core step.core → IsSoundCore step.core log →
        LosesUnless (λ rows. CanRaise rows (first_number work.rows)) step.outcome step.core }
{}
