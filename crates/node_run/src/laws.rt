//! What holds of each node, whatever lands and fails. Each law is the contract of a function that does nothing.

ghost use Rattle.std.specs.Prelude.{◌≡◌, ◌⊎◌, ℕ, ◌^◌, ◌≤◌, ◌<◌, min, Bool, false, List, [], ◌∷◌, ◌++◌, length, All, Option, Some, None};
ghost use Rattle.meta_journal.specs.declared.entry.Entry.{Entry};
ghost use Rattle.meta_store.specs.History.{history, last_number};
ghost use Rattle.source_log.specs.Log.{Log};
ghost use Rattle.index_world.specs.Core.{Core, last_count};
ghost use Rattle.indexing_run.specs.Places.{Indexer};
ghost use Rattle.indexing_run.specs.Steps.{step_indexer};
ghost use Rattle.indexing_run.specs.Steps as indexing;
ghost use Rattle.root_search.specs.Steps.{Client, step_client};
ghost use Rattle.root_search.specs.Steps as searching;
ghost use Rattle.split_collector.specs.Steps.{step_collector};
ghost use Rattle.split_collector.specs.Steps as collecting;
ghost use Rattle.upkeep_run.specs.Places.{WorkerPlace as Worker};
ghost use Rattle.upkeep_run.specs.Steps.{step_worker};
ghost use Rattle.upkeep_run.specs.Steps as working;
ghost use Rattle.upkeep_run.specs.declared.work.Aim.{Aim};
ghost use Rattle.node_run.specs.Lines.{Spells};
ghost use Rattle.node_run.specs.Node.{Node, Line, Outcome};
ghost use Rattle.node_run.specs.Calm.{IsStill, log_counts, IsOfThese};
ghost use Rattle.node_run.specs.Turns.{Turn, Turns, turns, calm, collecting_luck, indexing_luck, searching_luck, working_luck};

/// A line adds to the history at its end, whatever it says.
pub fn line_adds_to_the_history()
    ensures { (node : Node) (line : Line) (said : Option Outcome) (last : Node) → Turn node line said last →
        (more : List Entry) × (last.core.history ≡ node.core.history ++ more) }
{}

/// So do lines one after another.
pub fn lines_add_to_the_history()
    ensures { (node last : Node) (lines : List Line) (outcomes : List Outcome) → Turns node lines outcomes last →
        (more : List Entry) × (last.core.history ≡ node.core.history ++ more) }
{}

/// Lines that were answered go on by one more that is answered.
pub fn lines_go_on_by_one()
    ensures { (node mid last : Node) (lines : List Line) (line : Line) (outcomes : List Outcome) (outcome : Outcome) →
        Turns node lines outcomes mid → Turn mid line (Some outcome) last → Turns node (lines ++ line ∷ []) (outcomes ++ outcome ∷ []) last }
{}

/// A text is the spelling of at most one line.
pub fn a_text_is_one_line()
    ensures { (text : List ℕ) (a b : Line) → Spells text a → Spells text b → a ≡ b }
{}

/// Lines never lower the count of the store's faults. It stands still at its type's end.
pub fn lines_never_lower_the_store_count()
    ensures { (node last : Node) (lines : List Line) (outcomes : List Outcome) → Turns node lines outcomes last →
        min node.core.store_faults last_count ≤ last.core.store_faults }
{}

/// Where nothing is late and no count rises, a step of an indexer is that of a calm luck, or finds no memory.
pub fn a_still_count_makes_an_indexer_step_calm()
    ensures { (luck : indexing.IndexerLuck) (log : Log) (indexer : Indexer) (core : Core) → IsStill core → indexer.log_faults < last_count →
        (step_indexer luck log indexer core).core.store_faults ≡ core.store_faults →
        (step_indexer luck log indexer core).indexer.log_faults ≡ indexer.log_faults →
        ((step_indexer luck log indexer core).outcome ≡ None)
        ⊎ (step_indexer luck log indexer core ≡ step_indexer (indexing_luck calm) log indexer core) }
{}

/// So is a step of a client.
pub fn a_still_count_makes_a_search_step_calm()
    ensures { (luck : searching.ClientLuck) (log : Log) (client : Client) (core : Core) → IsStill core →
        (step_client luck log client core).core.store_faults ≡ core.store_faults →
        ((step_client luck log client core).outcome ≡ None)
        ⊎ (step_client luck log client core ≡ step_client (searching_luck calm) log client core) }
{}

/// So is a step of a worker.
pub fn a_still_count_makes_a_worker_step_calm()
    ensures { (aim : Aim) (luck : working.WorkerLuck) (log : Log) (worker : Worker) (core : Core) → IsStill core →
        (step_worker aim luck log worker core).core.store_faults ≡ core.store_faults →
        ((step_worker aim luck log worker core).outcome ≡ None)
        ⊎ (step_worker aim luck log worker core ≡ step_worker aim (working_luck calm) log worker core) }
{}

/// So is a step of the collector, wherever its pages end, over numbers that a key can spell.
pub fn a_still_count_makes_a_collector_step_calm()
    ensures { (luck : collecting.CollectorLuck) (core : Core) → IsStill core → last_number (history (step_collector luck core).core.history) < 2 ^ 64 →
        (step_collector luck core).core.store_faults ≡ core.store_faults →
        ((step_collector luck core).outcome ≡ None)
        ⊎ (step_collector luck core ≡ step_collector (collecting_luck calm) core) }
{}

/// Where nothing is late and no count rises, a schedule is answered as with a calm luck.
pub fn still_counts_make_a_schedule_calm()
    ensures { (node last : Node) (lines : List Line) (outcomes : List Outcome) → IsStill node.core →
        All (λ n. n < last_count) (log_counts node.indexers) → All (IsOfThese (length node.indexers)) lines → Turns node lines outcomes last →
        last_number (history last.core.history) < 2 ^ 64 → last.core.store_faults ≡ node.core.store_faults → log_counts last.indexers ≡ log_counts node.indexers →
        outcomes ≡ (turns node lines).outcomes }
{}
