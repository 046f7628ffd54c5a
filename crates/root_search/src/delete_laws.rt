//! Laws of deletes, over the definitions alone.

ghost use Rattle.std.specs.Prelude.{◌≡◌, List, ℕ, Ok, Err};
ghost use Rattle.index_config.specs.declared.config.IndexConfig.{IndexConfig};
ghost use Rattle.index_world.specs.Calls.{Fate, gives, refused};
ghost use Rattle.index_world.specs.Core.{Core, IsConfigured};
ghost use Rattle.index_world.specs.Gate.{CanAddTask, IsSoundCore, task_call};
ghost use Rattle.index_world.specs.declared.tokens.DeleteAsk.{DeleteAsk};
ghost use Rattle.meta_store.specs.declared.refusal.Refusal.{Refusal as StateRefusal};
ghost use Rattle.search_api.specs.Resolved.{IsDelete};
ghost use Rattle.search_api.specs.declared.resolved.Deletion.{Deletion};
ghost use Rattle.source_log.specs.Log.{Log};
ghost use Rattle.root_search.specs.Deletes.{AreTooMany, EndsInTask};
ghost use Rattle.root_search.specs.Requests.{ask_of, asked_of};

/// A task that was added is the last entry, and a task of a delete that a text asks of an index is refused by the
/// index's state only where as many tasks stand as there may be.
pub fn task_laws()
    ensures added { (ask : DeleteAsk) (fate : Fate) (core after : Core) → task_call ask fate core ≡ gives (Ok tt) after → EndsInTask ask core.history after.history }
    ensures many { (text : List ℕ) (config : IndexConfig) (deletion : Deletion) (fate : Fate) (core after : Core) (log : Log) (refusal : StateRefusal) →
        asked_of config text ≡ Ok (IsDelete deletion) → CanAddTask (ask_of deletion) → IsSoundCore after log → IsConfigured config after →
        task_call (ask_of deletion) fate core ≡ gives (Err (refused refusal)) after → AreTooMany refusal after.history }
{}
