//! What a row keeps of documents beside their bytes, as far as they are read: the terms of tag fields, and the times; and the
//! values of fast fields.

ghost use Rattle.std.specs.Prelude.{◌≡◌, ◌+◌, ◌∷◌, ◌++◌, [], ℕ, ℤ, List, IfOk, OnOk};
ghost use Rattle.doc_value.specs.declared.schema.Schema.{Schema};
ghost use Rattle.doc_value.specs.Documents.{IsSchema};
ghost use Rattle.doc_value.specs.Terms.{term_bytes};
ghost use Rattle.split_bundle.specs.declared.placed.Placed.{Placed};
ghost use Rattle.split_build.specs.HeldTags.{HasTags, HasTerms};
ghost use Rattle.split_bundle.specs.Tagged.{value_term, second_of};
ghost use Rattle.split_build.specs.Times.{AreEnds, AreTimes, seconds_in};
ghost use Rattle.split_merge.specs.Lent.{Gains, value_of};

use crate::cells::add_column;
use crate::lent::LentValue;
use doc_value::{Schema, Value, term_bytes};
use split_build::{ColumnLog, TagLog, column_logs, tag_logs};
use split_states::Times;
use std::alloc::{AllocError, Global};
use text_tokens::MAX_TOKEN;

// So many distinct terms are listed of a field.
const MAX_TAGS: usize = 100;

// Adds the term of a value that is no text.
fn add_plain(alloc: Global, log: &mut TagLog, value: &Value) -> Result<(), AllocError>
    ensures number { log.new.number ≡ log.old.number }
    ensures terms { (terms : List (List ℕ)) → HasTerms log.old.terms.items terms → OnOk result (HasTerms log.new.terms.items (terms ++ term_bytes value.now ∷ [])) }
{
    let term = term_bytes(alloc, value)?;
    log.add_term(alloc, term.as_slice())
}

// Adds the term of a value, if it has one.
fn add_value(alloc: Global, log: &mut TagLog, value: LentValue<'_>) -> Result<(), AllocError>
    ensures number { log.new.number ≡ log.old.number }
    ensures terms { (terms : List (List ℕ)) → HasTerms log.old.terms.items terms → OnOk result (HasTerms log.new.terms.items (terms ++ value_term (value_of value.entry))) }
{
    if log.terms.len() > MAX_TAGS {
        return Ok(());
    }
    match value {
        LentValue::Text(text) => {
            if text.len() > MAX_TOKEN {
                return Ok(());
            }
            log.add_term(alloc, text.as_bytes())
        }
        LentValue::I64(number) => add_plain(alloc, log, &Value::I64(number)),
        LentValue::U64(number) => add_plain(alloc, log, &Value::U64(number)),
        LentValue::Bool(truth) => add_plain(alloc, log, &Value::Bool(truth)),
        LentValue::Datetime(seconds) => add_plain(alloc, log, &Value::Datetime(seconds)),
    }
}

// Adds a value of the field with a number to its log, if it has one.
fn add_tag(
    alloc: Global,
    logs: &mut Vec<TagLog>,
    number: usize,
    value: LentValue<'_>,
) -> Result<(), AllocError>
    ensures { (numbers : List ℕ) (documents : List Placed) (d e : Placed) → Gains number (value_of value.entry) d.doc e.doc → HasTags (documents ++ d ∷ []) numbers logs.old.items
        → OnOk result (HasTags (documents ++ e ∷ []) numbers logs.new.items) }
{
    for i in 0..logs.len() {
        let log = &mut logs[i];
        if log.number == number {
            add_value(alloc, log, value)?;
        }
    }
    Ok(())
}

// The ends of the seconds so far and of one more.
fn widened(times: Option<Times>, second: i64) -> Times
    ensures { (seconds : List ℤ) → AreTimes seconds times → AreEnds (seconds ++ second ∷ []) result }
{
    match times {
        None => Times {
            least: second,
            greatest: second,
        },
        Some(times) => Times {
            least: times.least.min(second),
            greatest: times.greatest.max(second),
        },
    }
}

// The ends of the seconds so far and of a value, if it has one.
fn widened_with(times: Option<Times>, value: LentValue<'_>) -> Option<Times>
    ensures { (seconds : List ℤ) → AreTimes seconds times → AreTimes (seconds ++ second_of (value_of value.entry)) result }
{
    match value {
        LentValue::Datetime(second) => Some(widened(times, second)),
        LentValue::Text(_) | LentValue::I64(_) | LentValue::U64(_) | LentValue::Bool(_) => times,
    }
}

// The times with a value of the field with a number, if they are those of the field.
fn times_with(
    timestamp: Option<usize>,
    times: Option<Times>,
    number: usize,
    value: LentValue<'_>,
) -> Option<Times>
    ensures { (documents : List Placed) (d e : Placed) → Gains number (value_of value.entry) d.doc e.doc → AreTimes (seconds_in timestamp (documents ++ d ∷ [])) times
        → AreTimes (seconds_in timestamp (documents ++ e ∷ [])) result }
{
    match timestamp {
        Some(own) => {
            if own == number {
                widened_with(times, value)
            } else {
                times
            }
        }
        None => times,
    }
}

/// How many documents there are, as far as they are read, the terms of their tag fields, their times, and the values of their
/// fast fields.
#[derive(Drop)]
pub(crate) struct FieldFacts {
    pub(crate) count: u32,
    pub(crate) timestamp: Option<usize>,
    pub(crate) tags: Vec<TagLog>,
    pub(crate) times: Option<Times>,
    pub(crate) columns: Vec<ColumnLog>,
}

// One more. There is no room for 2^32 documents.
fn one_more(count: u32) -> Result<u32, AllocError>
    ensures { IfOk result (λ n. n ≡ count + 1) }
{
    match count.checked_add(1) {
        Some(more) => Ok(more),
        None => Err(AllocError),
    }
}

impl FieldFacts {
    ghost use Rattle.split_merge.specs.Facts.{HasFacts};

    /// Of no documents.
    pub(crate) fn vacant(alloc: Global, schema: &Schema) -> Result<FieldFacts, AllocError>
        requires { IsSchema schema.now }
        ensures { IfOk result (λ f. HasFacts f schema.now []) }
    {
        Ok(FieldFacts {
            count: 0,
            timestamp: schema.timestamp,
            tags: tag_logs(alloc, schema)?,
            times: None,
            columns: column_logs(alloc, schema)?,
        })
    }

    /// Begins a document behind the others, so far without values.
    pub(crate) fn begin(&mut self) -> Result<(), AllocError>
        ensures { (s : Schema) (documents : List Placed) (d : Placed) → d.doc ≡ [] → HasFacts self.old s documents → OnOk result (HasFacts self.new s (documents ++ d ∷ [])) }
    {
        self.count = one_more(self.count)?;
        Ok(())
    }

    /// Adds a value of a field of the last document. After an `Err` nothing is said of what is held.
    pub(crate) fn add(
        &mut self,
        alloc: Global,
        number: usize,
        value: LentValue<'_>,
    ) -> Result<(), AllocError>
        ensures { (s : Schema) (documents : List Placed) (d e : Placed) → Gains number (value_of value.entry) d.doc e.doc → HasFacts self.old s (documents ++ d ∷ [])
            → OnOk result (HasFacts self.new s (documents ++ e ∷ [])) }
    {
        let last = self.count.saturating_sub(1);
        add_tag(alloc, &mut self.tags, number, value)?;
        add_column(alloc, &mut self.columns, last, number, value)?;
        self.times = times_with(self.timestamp, self.times, number, value);
        Ok(())
    }
}
