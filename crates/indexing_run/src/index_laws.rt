//! What holds of an indexer that took its steps up to an end.

ghost use Rattle.std.specs.Prelude.{◌≡◌, ◌≢◌, ◌≤◌, ◌+◌, ◌-◌, ◌^◌, ℕ, List, length};
ghost use Rattle.source_log.specs.Log.{Log};
ghost use Rattle.index_world.specs.CallsMade.{CallMade};
ghost use Rattle.index_world.specs.Core.{Core, Nobody};
ghost use Rattle.index_world.specs.Gate.{IsSoundCore};
ghost use Rattle.index_world.specs.World.{GoesFor};
ghost use Rattle.indexing_run.specs.Asking.{IsIdle};
ghost use Rattle.indexing_run.specs.IndexAll.{IndexerDid};
ghost use Rattle.indexing_run.specs.Places.{Indexer as Actor};
ghost use Rattle.indexing_run.specs.Steps.{partitions_for};
ghost use Rattle.indexing_run.specs.declared.indexer.Indexer.{Indexer as Reader};
ghost use Rattle.indexing_run.specs.declared.indexing.IndexerEnd.{IndexerEnd as End};
ghost use Rattle.indexing_run.specs.declared.indexing.IndexerEnd.TheVariants as ends;
ghost use Rattle.indexing_run.specs.IndexLaws.{AreEnds, most_partitions, most_steps};

use index_world::Gate;
use source_log::SourceLog;

/// An indexer that was idle and has caught up leaves the checkpoints of its partitions at their ends, also where the index went on behind
/// it, as long as it is one.
pub fn caught_up_stays<L: SourceLog, G: Gate>()
    ensures { (log : Log) (turns : ℕ) (reader : Reader L) (indexer : Actor) (core after exit : Core) (made : List CallMade) → IsIdle indexer.place →
        IndexerDid L.told L.fault_count G.Between log turns ends.CaughtUp reader indexer core made after → GoesFor Nobody after exit → IsSoundCore exit log →
        AreEnds log (partitions_for indexer.assignment log) exit.history }
{}

/// An indexer that was idle uses up no more turns than this, by its partitions and by how many entries came to the history meanwhile,
/// whoever made them: each read takes a record or leaves a partition behind, so no batch waits for the clock, and none is stale or lost that
/// was not staged, which is an entry more.
pub fn turns_are_few<L: SourceLog, G: Gate>()
    ensures { (log : Log) (turns : ℕ) (reader : Reader L) (indexer : Actor) (core after : Core) (made : List CallMade) (entries : ℕ) → IsIdle indexer.place →
        IndexerDid L.told L.fault_count G.Between log turns ends.Turns reader indexer core made after → length after.history ≤ length core.history + entries →
        turns ≤ most_steps (length (partitions_for indexer.assignment log)) entries }
{}

/// So an indexer that was idle doesn't use up 2^64 - 1 turns while the index is one, of up to 2^40 partitions: its journal has 10,000,000
/// entries at most.
pub fn turns_are_enough<L: SourceLog, G: Gate>()
    ensures { (log : Log) (end : End) (reader : Reader L) (indexer : Actor) (core after exit : Core) (made : List CallMade) → IsIdle indexer.place →
        length (partitions_for indexer.assignment log) ≤ most_partitions →
        IndexerDid L.told L.fault_count G.Between log (2 ^ 64 - 1) end reader indexer core made after → GoesFor Nobody after exit → IsSoundCore exit log → end ≢ ends.Turns }
{}
