//! What is asked of a file, and the answers.

ghost use Rattle.std.specs.Prelude.{IfOk};
ghost use Rattle.doc_tallies.specs.Picked.{AllBelow};

use super::counted::terms;
use super::fields::schema;
use doc_tallies::{HitOrder, first_hits, near_of, within_times};
use doc_value::{Schema, TimeRange};
use split_bundle::{PartView, PlacedList, SplitError};
use std::alloc::{AllocError, Global};

/// The answer to a line: `times A B`, the documents from second A on and before B, where - is no edge; `terms N`, how many documents
/// have each text or number of field N; `hits N K`, the first K in the order of field N, from the greatest on where a - stands before
/// it, or of no field where N is -; `near N K`, the numbers of those that may be among the first K of that order.
pub fn answer(alloc: Global, file: &[u8], line: &str) -> Result<String, AllocError> {
    let schema = schema(alloc)?;
    match asked(alloc, &schema, file, line) {
        Ok(text) => Ok(text),
        Err(SplitError::Memory(refused)) => Err(refused),
        Err(fault) => format!(in alloc; "{fault}"),
    }
}

fn asked(alloc: Global, schema: &Schema, file: &[u8], line: &str) -> Result<String, SplitError> {
    let (asked, rest) = line.split_once(' ').unwrap_or((line, ""));
    let (first, second) = rest.split_once(' ').unwrap_or((rest, ""));
    match asked {
        "times" => times(alloc, schema, file, first, second),
        "terms" => terms(alloc, schema, file, first.parse::<u32>().unwrap_or(0)),
        "near" => near(
            alloc,
            schema,
            file,
            order_of(first),
            second.parse::<usize>().unwrap_or(0),
        ),
        _ => hits(
            alloc,
            schema,
            file,
            order_of(first),
            second.parse::<usize>().unwrap_or(0),
        ),
    }
}

/// The numbers of all documents.
pub fn all_numbers(alloc: Global, view: &PartView<'_>) -> Result<Vec<u32>, AllocError>
    ensures { IfOk result (λ numbers. AllBelow view.now.footer.layout.docs numbers.items) }
{
    let mut numbers = Vec::new(alloc);
    for number in 0..view.doc_count() {
        numbers.push(number)?;
    }
    Ok(numbers)
}

fn second(text: &str) -> Option<i64> {
    match text.parse::<i64>() {
        Ok(second) => Some(second),
        Err(_) => None,
    }
}

fn times(
    alloc: Global,
    schema: &Schema,
    file: &[u8],
    start: &str,
    end: &str,
) -> Result<String, SplitError> {
    let view = PartView::whole(alloc, file)?;
    let range = TimeRange {
        start: second(start),
        end: second(end),
    };
    let numbers = all_numbers(alloc, &view)?;
    let within = within_times(alloc, schema, &view, range, numbers.as_slice())?;
    Ok(listed(alloc, within.as_slice())?)
}

fn listed(alloc: Global, numbers: &[u32]) -> Result<String, AllocError> {
    let mut text = String::new(alloc);
    for number in numbers {
        text.push_str(format!(in alloc; "{number} ")?.as_str())?;
    }
    Ok(text)
}

fn order_of(text: &str) -> Option<HitOrder> {
    let (name, descending) = match text.strip_prefix("-") {
        Some(name) => (name, true),
        None => (text, false),
    };
    match name.parse::<u32>() {
        Ok(field) => Some(HitOrder { field, descending }),
        Err(_) => None,
    }
}

fn hits(
    alloc: Global,
    schema: &Schema,
    file: &[u8],
    order: Option<HitOrder>,
    wanted: usize,
) -> Result<String, SplitError> {
    let view = PartView::whole(alloc, file)?;
    let numbers = all_numbers(alloc, &view)?;
    let hits = first_hits(alloc, schema, &view, order, wanted, numbers.as_slice())?;
    Ok(placed(alloc, &hits)?)
}

fn near(
    alloc: Global,
    schema: &Schema,
    file: &[u8],
    order: Option<HitOrder>,
    wanted: usize,
) -> Result<String, SplitError> {
    let view = PartView::whole(alloc, file)?;
    let numbers = all_numbers(alloc, &view)?;
    let near = near_of(alloc, schema, &view, order, wanted, numbers.as_slice())?;
    Ok(listed(alloc, near.as_slice())?)
}

// Partitions and offsets.
fn placed(alloc: Global, hits: &PlacedList) -> Result<String, AllocError> {
    let mut text = String::new(alloc);
    for hit in hits.as_slice() {
        let partition = hit.partition.copy();
        let offset = hit.offset;
        text.push_str(format!(in alloc; "{partition}:{offset} ")?.as_str())?;
    }
    Ok(text)
}
