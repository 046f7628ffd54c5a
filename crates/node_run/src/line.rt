//! A line of a schedule, and how it is read.

ghost use Rattle.std.specs.Prelude.{◌≡◌, ◌≢◌, ◌<◌, ◌^◌, ◌++◌, ℕ, List, MatchResult, bytes_eq, codes, decimal};
ghost use Rattle.std.specs.List.{list_any};
ghost use Rattle.byte_fields.specs.ClientName.{IsClientName};
ghost use Rattle.source_checkpoint.specs.Names.{IsPartition};
ghost use Rattle.indexing_run.specs.Outcomes.{words};
ghost use Rattle.node_run.specs.Lines.{AreNames};
ghost use Rattle.node_run.specs.Seen.{IsBadWhere, IsRead};

use crate::pieces::{behind, first_word, number_in};
use byte_fields::{Client, Text};
use clock_time::MOMENT_END;
use source_checkpoint::Partition;
use source_log::Partitions;
use std::alloc::{AllocError, Global};
use std::str;
use thiserror::Error;

const MAX_PARTITIONS: usize = 64;

/// A line of a schedule.
#[derive(Drop)]
pub enum Line {
    /// From here on the clock tells this moment, in whole seconds.
    At {
        moment: u64,
    },
    /// The indexer reads these partitions alone, in this order.
    Assign {
        indexer: u64,
        partitions: Partitions,
    },
    /// A step of an indexer.
    Indexer {
        indexer: u64,
    },
    RestartIndexer {
        indexer: u64,
    },
    RestartClient {
        client: Client,
    },
    /// A step of the merger.
    Merger,
    RestartMerger,
    /// A step of the delete worker.
    Deleter,
    RestartDeleter,
    /// A step of the collector.
    Collector,
    RestartCollector,
    RestartNode,
    /// A client's request, the rest of the line as it stands.
    Open {
        client: Client,
        text: Text,
    },
    /// A step of a client.
    Client {
        client: Client,
    },
}

/// Why bytes are no line.
#[derive(Debug, Drop, Error)]
pub enum LineError {
    #[error("out of memory")]
    Memory(AllocError),
    #[error("no line of a schedule")]
    BadLine,
}

impl From<AllocError> for LineError {
    ghost use Rattle.std.specs.Prelude.{◌≡◌};
    ghost use Rattle.node_run.specs.declared.line.LineError.TheVariants.{Memory};

    ghost from_gives = { λ a e. e ≡ Memory a };

    fn from(refused: AllocError) -> Self {
        LineError::Memory(refused)
    }
}

fn number_of(word: &[u8]) -> Result<u64, LineError>
    ensures { MatchResult result (λ number. word.now ≡ decimal number)
        (λ e. IsBadWhere ((number : ℕ) → number < 2 ^ 64 → word.now ≢ decimal number) e) }
{
    number_in(word).ok_or(LineError::BadLine)
}

fn client_of(word: &[u8]) -> Result<Client, LineError>
    ensures { MatchResult result (λ client. (client ≡ word.now) × IsClientName word.now) (λ e. IsBadWhere (¬ (IsClientName word.now)) e) }
{
    let Ok(text) = str::from_utf8(word) else {
        return Err(LineError::BadLine);
    };
    Client::from_text(text).ok_or(LineError::BadLine)
}

fn partition_of(word: &[u8]) -> Result<Partition, LineError>
    ensures { MatchResult result (λ partition. (partition ≡ word.now) × IsPartition word.now) (λ e. IsBadWhere (¬ (IsPartition word.now)) e) }
{
    let Ok(text) = str::from_utf8(word) else {
        return Err(LineError::BadLine);
    };
    match Partition::from_text(text) {
        Ok(partition) => Ok(partition),
        Err(_) => Err(LineError::BadLine),
    }
}

fn at_line(rest: &[u8]) -> Result<Line, LineError>
    ensures { IsRead (codes "at " ++ rest.now) result }
{
    let moment = number_of(rest)?;
    if moment >= MOMENT_END {
        return Err(LineError::BadLine);
    }
    Ok(Line::At { moment })
}

fn is_among(partition: &Partition, partitions: &[Partition]) -> bool
    ensures { result ≡ list_any (λ other. bytes_eq other partition.now) partitions.now }
{
    partitions.iter().any(|other| other.is(partition))
}

/// One to 64 different partitions, one blank between.
fn partitions_of(alloc: Global, text: &[u8]) -> Result<Partitions, LineError>
    ensures { MatchResult result (λ names. (text.now ≡ words names) × AreNames names)
        (λ e. IsBadWhere ((names : List (List ℕ)) → AreNames names → text.now ≢ words names) e) }
{
    let mut partitions = Partitions::vacant(alloc);
    let mut rest = text;
    'words: while partitions.len() < MAX_PARTITIONS {
        let (word, more) = first_word(rest);
        let partition = partition_of(word)?;
        if is_among(&partition, partitions.as_slice()) {
            return Err(LineError::BadLine);
        }
        partitions.push(partition)?;
        match more {
            None => return Ok(partitions),
            Some(more) => rest = more,
        }
    }
    Err(LineError::BadLine)
}

fn assign_line(alloc: Global, rest: &[u8]) -> Result<Line, LineError>
    ensures { IsRead (codes "assign " ++ rest.now) result }
{
    let (number, names) = first_word(rest);
    let Some(names) = names else {
        return Err(LineError::BadLine);
    };
    let indexer = number_of(number)?;
    let partitions = partitions_of(alloc, names)?;
    Ok(Line::Assign {
        indexer,
        partitions,
    })
}

fn client_line(alloc: Global, rest: &[u8]) -> Result<Line, LineError>
    ensures { IsRead (codes "client " ++ rest.now) result }
{
    let (name, text) = first_word(rest);
    let client = client_of(name)?;
    match text {
        None => Ok(Line::Client { client }),
        Some(text) => Ok(Line::Open {
            client,
            text: Text::from_slice(alloc, text)?,
        }),
    }
}

fn restart_line(rest: &[u8]) -> Result<Line, LineError>
    ensures { IsRead (codes "restart " ++ rest.now) result }
{
    if rest == b"node".as_slice() {
        return Ok(Line::RestartNode);
    }
    if rest == b"merger".as_slice() {
        return Ok(Line::RestartMerger);
    }
    if rest == b"deleter".as_slice() {
        return Ok(Line::RestartDeleter);
    }
    if rest == b"collector".as_slice() {
        return Ok(Line::RestartCollector);
    }
    if let Some(number) = behind(rest, b"indexer ") {
        return Ok(Line::RestartIndexer {
            indexer: number_of(number)?,
        });
    }
    if let Some(name) = behind(rest, b"client ") {
        return Ok(Line::RestartClient {
            client: client_of(name)?,
        });
    }
    Err(LineError::BadLine)
}

/// The line that these bytes spell, without its line feed.
pub fn read_line(alloc: Global, bytes: &[u8]) -> Result<Line, LineError>
    ensures { IsRead bytes.now result }
{
    if let Some(rest) = behind(bytes, b"at ") {
        return at_line(rest);
    }
    if let Some(rest) = behind(bytes, b"assign ") {
        return assign_line(alloc, rest);
    }
    if let Some(number) = behind(bytes, b"indexer ") {
        return Ok(Line::Indexer {
            indexer: number_of(number)?,
        });
    }
    if let Some(rest) = behind(bytes, b"restart ") {
        return restart_line(rest);
    }
    if let Some(rest) = behind(bytes, b"client ") {
        return client_line(alloc, rest);
    }
    if bytes == b"merger".as_slice() {
        return Ok(Line::Merger);
    }
    if bytes == b"deleter".as_slice() {
        return Ok(Line::Deleter);
    }
    if bytes == b"collector".as_slice() {
        return Ok(Line::Collector);
    }
    Err(LineError::BadLine)
}
