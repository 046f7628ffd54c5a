//! Entries, from the words of a line.

use byte_fields::{Text, Texts};
use doc_value::{TagFacts, TimeRange};
use meta_journal::Act;
use source_checkpoint::{Delta, Part, Partition};
use split_states::{Numbers, RowFacts};
use std::alloc::{AllocError, Global};

/// The words of a line that are numbers.
pub fn numbers_of(alloc: Global, rest: &str) -> Result<Vec<u64>, AllocError> {
    let mut numbers = Vec::new(alloc);
    for word in rest.split(' ') {
        if let Ok(number) = word.parse::<u64>() {
            numbers.push(number)?;
        }
    }
    Ok(numbers)
}

/// The act of these numbers behind the moment. A Stage names its part's partition in its third word, or none.
pub fn act_of(
    alloc: Global,
    asked: &str,
    numbers: &[u64],
    rest: &str,
) -> Result<Option<Act>, AllocError> {
    let number = numbers.get(1).copied().unwrap_or(0);
    let upto = numbers.get(2).copied().unwrap_or(0);
    let act = match asked {
        "stage" => Act::Stage {
            number,
            delta: delta_of(alloc, numbers, rest)?,
            facts: facts(alloc),
        },
        "publish" => Act::Publish { number },
        "raise" => Act::Raise { number, upto },
        "replace" => Act::Replace {
            new: number,
            old: listed(alloc, numbers, 3)?,
            upto,
        },
        "task" => Act::Task {
            opstamp: number,
            text: Text::vacant(alloc),
            fields: Texts::vacant(alloc),
            times: TimeRange {
                start: start_of(numbers),
                end: None,
            },
        },
        "mark" => Act::MarkStaged {
            numbers: listed(alloc, numbers, 1)?,
        },
        "remove" => Act::Remove {
            numbers: listed(alloc, numbers, 1)?,
        },
        _ => return Ok(None),
    };
    Ok(Some(act))
}

/// A Task's times begin at the second behind its opstamp, where one stands there.
fn start_of(numbers: &[u64]) -> Option<i64> {
    let start = numbers.get(2)?;
    i64::try_from(*start).ok()
}

fn listed(alloc: Global, numbers: &[u64], from: usize) -> Result<Numbers, AllocError> {
    let list = numbers.get(from..).unwrap_or(&[]);
    Ok(Numbers::from_vec(Vec::from_slice(alloc, list)?))
}

fn delta_of(alloc: Global, numbers: &[u64], rest: &str) -> Result<Delta, AllocError> {
    let mut delta = Delta::vacant(alloc);
    let name = rest.split(' ').nth(2).unwrap_or("");
    if let Ok(partition) = Partition::from_text(name) {
        delta.push(Part {
            partition,
            from: numbers.get(2).copied().unwrap_or(0),
            to: numbers.get(3).copied().unwrap_or(0),
        })?;
    }
    Ok(delta)
}

fn facts(alloc: Global) -> RowFacts {
    RowFacts {
        docs: 1,
        rejected: 0,
        weight: 9,
        size: 9,
        digest: [0; 32],
        times: None,
        tags: TagFacts::vacant(alloc),
    }
}
