//! The plain list: what each record of a log is, and what a query finds among those that the journal's entries show.

use crate::asked::{Asked, Document};
use crate::dice::Dice;
use crate::shown::{Seen, Shown};
use crate::wrong::Wrong;
use source_checkpoint::Partition;
use source_log::MemoryLog;
use std::alloc::Global;

/// A record of a partition.
#[derive(Drop)]
struct Record {
    text: String,
    // What is asked of a record that is a document of the index.
    document: Option<Document>,
}

/// A partition and its records.
#[derive(Drop)]
struct Source {
    name: String,
    partition: Partition,
    records: Vec<Record>,
}

/// The records of all partitions.
#[derive(Drop)]
pub struct Plain {
    alloc: Global,
    sources: Vec<Source>,
}

// A record: a document in most cases, and else no JSON, one with a field of another type or one that the index has not, or one
// without a time.
fn drawn_record(alloc: Global, dice: &mut Dice, source: u64, offset: u64) -> Result<Record, Wrong> {
    let kind = dice.below(16);
    let text = match kind {
        0 => String::from_str(alloc, "oops")?,
        1 => String::from_str(alloc, "{\"body\":7,\"ts\":1}")?,
        2 => String::from_str(alloc, "{\"other\":\"red\",\"ts\":1}")?,
        3 => String::from_str(alloc, "{\"body\":\"red fox\"}")?,
        _ => {
            let document = Document::drawn(dice);
            let (one, other) = (document.words.0.text(), document.words.1.text());
            let second = document.second;
            return Ok(Record {
                text: format!(in alloc;
                    "{{\"body\":\"{one} {other} p{source}x{offset}\",\"ts\":{second}}}"
                )?,
                document: Some(document),
            });
        }
    };
    Ok(Record {
        text,
        document: None,
    })
}

impl Plain {
    /// At most three partitions with at most twenty records each.
    pub fn drawn(alloc: Global, dice: &mut Dice) -> Result<Plain, Wrong> {
        let mut sources = Vec::new(alloc);
        for number in 0..dice.below(3).saturating_add(1) {
            let name = format!(in alloc; "p{number}")?;
            let Ok(partition) = Partition::from_text(name.as_str()) else {
                return Err(Wrong::seen(alloc, name.as_str(), "is no partition"));
            };
            let mut records = Vec::new(alloc);
            for offset in 0..dice.below(20) {
                records.push(drawn_record(alloc, dice, number, offset)?)?;
            }
            sources.push(Source {
                name,
                partition,
                records,
            })?;
        }
        Ok(Plain { alloc, sources })
    }

    /// A log of these records.
    pub fn log(&self) -> Result<MemoryLog, Wrong> {
        let mut log = MemoryLog::vacant(self.alloc);
        for source in self.sources.as_slice() {
            for record in source.records.as_slice() {
                log.push(self.alloc, &source.partition, record.text.as_bytes())?;
            }
        }
        Ok(log)
    }

    /// The name of a partition, the first one's where it has none of that number.
    pub fn name(&self, number: u64) -> &str {
        match self.sources.get(number as usize) {
            Some(source) => source.name.as_str(),
            None => "p0",
        }
    }

    pub fn count(&self) -> u64 {
        self.sources.len() as u64
    }

    // The documents of a partition that are asked for among those which are shown, as hits of an answer.
    fn add_hits(
        &self,
        source: &Source,
        shown: &Shown,
        asked: Asked,
        hits: &mut Hits,
    ) -> Result<(), Wrong> {
        for (offset, record) in source.records.iter().enumerate() {
            let Some(document) = record.document else {
                continue;
            };
            match shown.seen(&source.partition, offset as u64) {
                Seen::Nowhere => {}
                Seen::Once(since) => {
                    if asked.finds(document) && !shown.removes(since, document) {
                        hits.push(record.text.as_str())?;
                    }
                }
                Seen::Twice => {
                    return Err(Wrong::seen(self.alloc, "stands twice:", record.text.as_str()));
                }
            }
        }
        Ok(())
    }

    /// What is found among the records that are shown, by place.
    pub fn found(&self, shown: &Shown, asked: Asked) -> Result<Hits, Wrong> {
        let mut hits = Hits {
            text: String::new(self.alloc),
            count: 0,
        };
        for source in self.sources.as_slice() {
            self.add_hits(source, shown, asked, &mut hits)?;
        }
        Ok(hits)
    }

    /// Whether all records are shown, and all tasks were asked of each.
    pub fn is_shown(&self, shown: &Shown) -> bool {
        self.sources.iter().all(|source| {
            (0..source.records.len()).all(|offset| {
                shown.is_done(&source.partition, offset as u64)
            })
        })
    }

    /// How many documents there are.
    pub fn documents(&self) -> u64 {
        let mut count: u64 = 0;
        for source in self.sources.as_slice() {
            for record in source.records.as_slice() {
                if record.document.is_some() {
                    count = count.saturating_add(1);
                }
            }
        }
        count
    }
}

/// The hits of an answer, one behind another with commas between them, and how many they are.
#[derive(Drop)]
pub struct Hits {
    pub text: String,
    pub count: u64,
}

impl Hits {
    fn push(&mut self, hit: &str) -> Result<(), Wrong> {
        if self.count > 0 {
            self.text.push(',')?;
        }
        self.text.push_str(hit)?;
        self.count = self.count.saturating_add(1);
        Ok(())
    }
}
