//! What a line of a schedule is answered.

ghost use Rattle.std.specs.Prelude.{◌≡◌, ◌++◌, ◌∷◌, [], IfOk, codes, decimal};
ghost use Rattle.index_world.specs.Calls.{Fault, faulted, not_read, no_index};
ghost use Rattle.index_world.specs.Loading.{IsUnread};
ghost use Rattle.indexing_run.specs.Outcomes as indexing;
ghost use Rattle.indexing_run.specs.Standing.{IsSaid};
ghost use Rattle.split_collector.specs.Outcomes as collecting;
ghost use Rattle.split_collector.specs.Standing.{IsSaid as IsCollected};
ghost use Rattle.upkeep_run.specs.Outcomes as working;
ghost use Rattle.upkeep_run.specs.Standing.{IsSaid as IsWorked};
ghost use Rattle.upkeep_run.specs.declared.work.Aim.TheVariants.{Deleting, Merging};
ghost use Rattle.node_run.specs.Lines.{outcome_text};
ghost use Rattle.node_run.specs.Node as said;
ghost use Rattle.node_run.specs.Printing.{collected_text, fault_text, said_text, worked_text};

use byte_fields::{Bytes, Client};
use index_world::{WorldError, put_fault, put_number, put_word};
use indexing_run::IndexerOutcome;
use root_search::SearchStep;
use split_collector::CollectorOutcome;
use std::alloc::{AllocError, Global};
use upkeep_run::UpkeepOutcome;

/// The printed answer to a line, without a line feed.
#[derive(Drop)]
pub struct OutLine {
    pub bytes: Bytes,
}

// `indexer`, its number and a text.
fn of_indexer(alloc: Global, number: u64, text: &[u8]) -> Result<OutLine, AllocError>
    ensures { IfOk result (λ out. out.bytes ≡ codes "indexer" ++ 32 ∷ (decimal number ++ 32 ∷ text.now)) }
{
    let mut bytes = Bytes::vacant(alloc);
    put_word(&mut bytes, b"indexer")?;
    put_number(alloc, &mut bytes, number)?;
    put_word(&mut bytes, text)?;
    Ok(OutLine { bytes })
}

// A word and a text.
fn behind_word(alloc: Global, word: &[u8], text: &[u8]) -> Result<OutLine, AllocError>
    ensures { IfOk result (λ out. out.bytes ≡ word.now ++ 32 ∷ text.now) }
{
    let mut bytes = Bytes::from_slice(alloc, word)?;
    bytes.push(b' ')?;
    bytes.append(text)?;
    Ok(OutLine { bytes })
}

// A client's name and a text.
fn named(alloc: Global, client: &Client, text: &[u8]) -> Result<OutLine, AllocError>
    ensures { IfOk result (λ out. out.bytes ≡ client.now ++ 32 ∷ text.now) }
{
    behind_word(alloc, client.as_bytes(), text)
}

// `merger` and a text.
fn of_merger(alloc: Global, text: &[u8]) -> Result<OutLine, AllocError>
    ensures { IfOk result (λ out. out.bytes ≡ codes "merger" ++ 32 ∷ text.now) }
{
    behind_word(alloc, b"merger", text)
}

// `deleter` and a text.
fn of_deleter(alloc: Global, text: &[u8]) -> Result<OutLine, AllocError>
    ensures { IfOk result (λ out. out.bytes ≡ codes "deleter" ++ 32 ∷ text.now) }
{
    behind_word(alloc, b"deleter", text)
}

// `collector` and a text.
fn of_collector(alloc: Global, text: &[u8]) -> Result<OutLine, AllocError>
    ensures { IfOk result (λ out. out.bytes ≡ codes "collector" ++ 32 ∷ text.now) }
{
    behind_word(alloc, b"collector", text)
}

impl OutLine {
    pub fn at(alloc: Global, moment: u64) -> Result<OutLine, AllocError>
        ensures { IfOk result (λ out. out.bytes ≡ outcome_text (said.at_said moment)) }
    {
        let mut bytes = Bytes::vacant(alloc);
        put_word(&mut bytes, b"at")?;
        put_number(alloc, &mut bytes, moment)?;
        Ok(OutLine { bytes })
    }

    pub fn assigned(alloc: Global, number: u64, count: usize) -> Result<OutLine, AllocError>
        ensures { IfOk result (λ out. out.bytes ≡ outcome_text (said.assigned number count)) }
    {
        let mut words = Bytes::vacant(alloc);
        put_word(&mut words, b"assigned")?;
        put_number(alloc, &mut words, count as u64)?;
        of_indexer(alloc, number, words.as_slice())
    }

    pub fn indexer_busy(alloc: Global, number: u64) -> Result<OutLine, AllocError>
        ensures { IfOk result (λ out. out.bytes ≡ outcome_text (said.indexer_busy number)) }
    {
        of_indexer(alloc, number, b"busy")
    }

    pub fn indexer_down(alloc: Global, number: u64) -> Result<OutLine, AllocError>
        ensures { IfOk result (λ out. out.bytes ≡ outcome_text (said.indexer_down number)) }
    {
        of_indexer(alloc, number, b"down")
    }

    pub fn indexer_restarted(alloc: Global, number: u64) -> Result<OutLine, AllocError>
        ensures { IfOk result (λ out. out.bytes ≡ outcome_text (said.indexer_restarted number)) }
    {
        of_indexer(alloc, number, b"restarted")
    }

    pub fn indexer(
        alloc: Global,
        number: u64,
        outcome: &IndexerOutcome,
    ) -> Result<OutLine, AllocError>
        ensures said { (answer : indexing.IndexerOutcome) → IsSaid outcome.now answer →
            IfOk result (λ out. out.bytes ≡ outcome_text (said.indexer_said number answer)) }
        // Whatever the outcome is.
        ensures exact { IfOk result (λ out. out.bytes ≡ said_text number outcome.now) }
    {
        let words = indexing_run::print_outcome(alloc, outcome)?;
        of_indexer(alloc, number, words.as_slice())
    }

    pub fn opened(alloc: Global, client: &Client) -> Result<OutLine, AllocError>
        ensures { IfOk result (λ out. out.bytes ≡ outcome_text (said.request_opened client.now)) }
    {
        named(alloc, client, b"opened")
    }

    pub fn busy(alloc: Global, client: &Client) -> Result<OutLine, AllocError>
        ensures { IfOk result (λ out. out.bytes ≡ outcome_text (said.request_busy client.now)) }
    {
        named(alloc, client, b"busy")
    }

    pub fn client_down(alloc: Global, client: &Client) -> Result<OutLine, AllocError>
        ensures { IfOk result (λ out. out.bytes ≡ outcome_text (said.client_down client.now)) }
    {
        named(alloc, client, b"down")
    }

    pub fn client_restarted(alloc: Global, client: &Client) -> Result<OutLine, AllocError>
        ensures { IfOk result (λ out. out.bytes ≡ outcome_text (said.client_restarted client.now)) }
    {
        named(alloc, client, b"restarted")
    }

    pub fn client(
        alloc: Global,
        client: &Client,
        outcome: &SearchStep,
    ) -> Result<OutLine, AllocError>
        ensures { IfOk result (λ out. out.bytes ≡ outcome_text (said.client_said client.now outcome.now)) }
    {
        let words = root_search::print_outcome(alloc, outcome)?;
        match outcome {
            SearchStep::Replied(_) => Ok(OutLine { bytes: words }),
            _ => named(alloc, client, words.as_slice()),
        }
    }

    pub fn merger(alloc: Global, outcome: &UpkeepOutcome) -> Result<OutLine, AllocError>
        ensures said { (answer : working.UpkeepOutcome) → IsWorked outcome.now answer →
            IfOk result (λ out. out.bytes ≡ outcome_text (said.worker_said Merging answer)) }
        // Whatever the outcome is.
        ensures exact { IfOk result (λ out. out.bytes ≡ worked_text Merging outcome.now) }
    {
        let words = upkeep_run::print_outcome(alloc, outcome)?;
        of_merger(alloc, words.as_slice())
    }

    pub fn merger_down(alloc: Global) -> Result<OutLine, AllocError>
        ensures { IfOk result (λ out. out.bytes ≡ outcome_text (said.worker_down Merging)) }
    {
        of_merger(alloc, b"down")
    }

    pub fn merger_restarted(alloc: Global) -> Result<OutLine, AllocError>
        ensures { IfOk result (λ out. out.bytes ≡ outcome_text (said.worker_restarted Merging)) }
    {
        of_merger(alloc, b"restarted")
    }

    pub fn deleter(alloc: Global, outcome: &UpkeepOutcome) -> Result<OutLine, AllocError>
        ensures said { (answer : working.UpkeepOutcome) → IsWorked outcome.now answer →
            IfOk result (λ out. out.bytes ≡ outcome_text (said.worker_said Deleting answer)) }
        // Whatever the outcome is.
        ensures exact { IfOk result (λ out. out.bytes ≡ worked_text Deleting outcome.now) }
    {
        let words = upkeep_run::print_outcome(alloc, outcome)?;
        of_deleter(alloc, words.as_slice())
    }

    pub fn deleter_down(alloc: Global) -> Result<OutLine, AllocError>
        ensures { IfOk result (λ out. out.bytes ≡ outcome_text (said.worker_down Deleting)) }
    {
        of_deleter(alloc, b"down")
    }

    pub fn deleter_restarted(alloc: Global) -> Result<OutLine, AllocError>
        ensures { IfOk result (λ out. out.bytes ≡ outcome_text (said.worker_restarted Deleting)) }
    {
        of_deleter(alloc, b"restarted")
    }

    pub fn collector(alloc: Global, outcome: &CollectorOutcome) -> Result<OutLine, AllocError>
        ensures said { (answer : collecting.Outcome) → IsCollected outcome.now answer →
            IfOk result (λ out. out.bytes ≡ outcome_text (said.collector_said answer)) }
        // Whatever the outcome is.
        ensures exact { IfOk result (λ out. out.bytes ≡ collected_text outcome.now) }
    {
        let words = split_collector::print_outcome(alloc, outcome)?;
        of_collector(alloc, words.as_slice())
    }

    pub fn collector_down(alloc: Global) -> Result<OutLine, AllocError>
        ensures { IfOk result (λ out. out.bytes ≡ outcome_text said.collector_down) }
    {
        of_collector(alloc, b"down")
    }

    pub fn collector_restarted(alloc: Global) -> Result<OutLine, AllocError>
        ensures { IfOk result (λ out. out.bytes ≡ outcome_text said.collector_restarted) }
    {
        of_collector(alloc, b"restarted")
    }

    pub fn node_restarted(alloc: Global, revision: u64) -> Result<OutLine, AllocError>
        ensures { IfOk result (λ out. out.bytes ≡ outcome_text (said.node_restarted revision)) }
    {
        let mut bytes = Bytes::vacant(alloc);
        put_word(&mut bytes, b"node")?;
        put_word(&mut bytes, b"restarted")?;
        put_number(alloc, &mut bytes, revision)?;
        Ok(OutLine { bytes })
    }

    pub fn node_fault(alloc: Global, error: &WorldError) -> Result<OutLine, AllocError>
        ensures fault { (fault : Fault) → IsUnread error.now (not_read (faulted fault)) →
            IfOk result (λ out. out.bytes ≡ outcome_text (said.node_failed (said.world_fault fault))) }
        ensures none { IsUnread error.now no_index → IfOk result (λ out. out.bytes ≡ outcome_text (said.node_failed said.no_index)) }
        // Whatever the error is.
        ensures exact { IfOk result (λ out. out.bytes ≡ fault_text error.now) }
    {
        let mut bytes = Bytes::vacant(alloc);
        put_word(&mut bytes, b"node")?;
        put_fault(alloc, &mut bytes, error)?;
        Ok(OutLine { bytes })
    }
}
