//! What holds behind a crash of the disk that the objects are on. Each law is the contract of a function that does nothing.
//!
//! A crash at a call is a disk that fails this call and each behind it (`DyingDisk`): the life before it ends so, by its own contract.

ghost use Rattle.std.specs.Prelude.{◌≡◌, ℕ, List, Some};
ghost use Rattle.meta_journal.specs.declared.entry.Entry.{Entry};
ghost use Rattle.source_log.specs.Log.{IsLog};
ghost use Rattle.real_edge.specs.Objects.{state_in};
ghost use Rattle.quick_node.specs.AfterCrash.{BeginsAgain, IsKeptWhole, GoesOnTwice};
ghost use Rattle.command_words.specs.declared.run.RunOptions.{RunOptions};
ghost use Rattle.quick_node.specs.Creating.{Creates};
ghost use Rattle.quick_node.specs.Runs.{Runs};
ghost use Rattle.quick_node.specs.Serve.{Before, After, Drives};

use real_edge::{Disk, FolderStore};

/// Behind a life of `drive` over the objects of a disk, however it ended, a crash leaves the index whole, for the store that is opened
/// over what it left.
pub fn a_crash_leaves_the_index<D: Disk, E: Disk>(store: &FolderStore<D>, opened: &FolderStore<E>)
    ensures { (history : List Entry) (before next : Before) (after : After) (status : ℕ) → IsLog before.log → (life : Drives history before after status) →
        state_in (D.told store.now.disk) store.now.is_lost (D.crashed store.now.disk) ≡ Some after.kept →
        BeginsAgain (D.crashed store.now.disk) (E.told opened.now.disk) opened.now.is_lost (E.crashed opened.now.disk) before.log next →
        IsKeptWhole life.exit before.log next }
{
    store.what_a_crash_leaves();
}

/// So it does behind one of `run`.
pub fn a_crash_leaves_the_index_of_a_run<D: Disk, E: Disk>(
    store: &FolderStore<D>,
    opened: &FolderStore<E>,
)
    ensures { (asked : RunOptions) (history : List Entry) (before next : Before) (after : After) (status : ℕ) → IsLog before.log → (life : Runs asked history before after status) →
        state_in (D.told store.now.disk) store.now.is_lost (D.crashed store.now.disk) ≡ Some after.kept →
        BeginsAgain (D.crashed store.now.disk) (E.told opened.now.disk) opened.now.is_lost (E.crashed opened.now.disk) before.log next →
        IsKeptWhole life.exit before.log next }
{
    store.what_a_crash_leaves();
}

/// So it does behind one of `create`.
pub fn a_crash_leaves_the_new_index<D: Disk, E: Disk>(
    store: &FolderStore<D>,
    opened: &FolderStore<E>,
)
    ensures { (history : List Entry) (before next : Before) (moment : ℕ) (after : After) (status : ℕ) → IsLog before.log → (life : Creates history before moment after status) →
        state_in (D.told store.now.disk) store.now.is_lost (D.crashed store.now.disk) ≡ Some after.kept →
        BeginsAgain (D.crashed store.now.disk) (E.told opened.now.disk) opened.now.is_lost (E.crashed opened.now.disk) before.log next →
        IsKeptWhole life.exit before.log next }
{
    store.what_a_crash_leaves();
}

/// And over what it left a second life of `drive` goes on from all that the first told: no entry of the journal is lost, each record
/// stands once, and each row that was published at a revision of either life and still is has its file.
pub fn a_second_life_goes_on()
    ensures { (history : List Entry) (before next : Before) (after last : After) (status later : ℕ) → (life : Drives history before after status) →
        IsKeptWhole life.exit before.log next → (again : Drives life.exit next last later) → GoesOnTwice history life.exit again.exit last.kept next.log }
{}

/// The same of a second life of `run`.
pub fn a_second_run_goes_on()
    ensures { (asked again_asked : RunOptions) (history : List Entry) (before next : Before) (after last : After) (status later : ℕ) → (life : Runs asked history before after status) →
        IsKeptWhole life.exit before.log next → (again : Runs again_asked life.exit next last later) → GoesOnTwice history life.exit again.exit last.kept next.log }
{}
