//! Laws of replies, over the definitions alone.

ghost use Rattle.std.specs.Prelude.{◌≡◌, ◌≤◌, ℕ, List, length, Result, Ok};
ghost use Rattle.std.specs.List.{AllByRecursion};
ghost use Rattle.std.specs.declared.alloc.AllocError.{AllocError};
ghost use Rattle.byte_fields.specs.Causes.{last_count};
ghost use Rattle.index_config.specs.declared.config.IndexConfig.{IndexConfig};
ghost use Rattle.index_world.specs.CallsMade.{CallMade};
ghost use Rattle.index_world.specs.Core.{Core, IsConfigured, Nobody};
ghost use Rattle.index_world.specs.Gate.{IsSoundCore};
ghost use Rattle.index_world.specs.World.{GoesFor};
ghost use Rattle.meta_journal.specs.declared.entry.Entry.{Entry};
ghost use Rattle.search_api.specs.declared.reply.Reply.{Reply};
ghost use Rattle.source_log.specs.Log.{Log};
ghost use Rattle.root_search.specs.AnswerAll.{ClientDid};
ghost use Rattle.root_search.specs.Steps.{Client};
ghost use Rattle.root_search.specs.declared.searcher.Searcher.{Searcher};
ghost use Rattle.root_search.specs.Replied.{AreReplied, AsksTexts, IsTimed, NeverFall};

use index_world::Gate;

/// What a client was answered through a gate, while a sound index goes on to a later one, it was replied so: each search over what its own
/// plan left, each delete with the task that it added, each refusal with its cause.
pub fn client_replies<G: Gate>()
    ensures replied { (config : IndexConfig) (log : Log) (texts : List (List ℕ)) (replies : List Reply) (result : Result (Unit {0}) AllocError) (searcher : Searcher) (client : Client) (first core after end : Core) (made : List CallMade) →
        IsSoundCore first log → IsConfigured config first → GoesFor Nobody first core → GoesFor Nobody after end → IsSoundCore end log → end.store_faults ≤ last_count →
        AsksTexts config → client.front ≤ length core.history →
        AllByRecursion IsTimed made → ClientDid G.Between log texts replies result searcher client core made after →
        AreReplied config log end.history client.name client.front core texts replies made after }
    // Where there was memory, each text has its reply.
    ensures all { (log : Log) (texts : List (List ℕ)) (replies : List Reply) (searcher : Searcher) (client : Client) (core after : Core) (made : List CallMade) →
        ClientDid G.Between log texts replies (Ok tt) searcher client core made after → length replies ≡ length texts }
    // The revisions of a client's replies never fall: what a delete added, each later search is over.
    ensures rises { (config : IndexConfig) (log : Log) (exit : List Entry) (name : List ℕ) (front : ℕ) (core after : Core) (texts : List (List ℕ)) (replies : List Reply) (made : List CallMade) →
        AreReplied config log exit name front core texts replies made after → NeverFall front replies }
{}
