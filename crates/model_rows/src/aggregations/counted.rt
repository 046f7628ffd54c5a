//! What documents count.

ghost use Rattle.std.specs.Prelude.{◌≡◌, ◌<◌, ◌^◌, IfOk, length};
ghost use Rattle.agg_model.specs.Checking.{field_of, HaveIntervals};
ghost use Rattle.agg_model.specs.Partials.{IsPartialOf, documents_in};

use super::made::{document, request, schema};
use super::printed::answer;
use agg_model::{
    Agg, AggError, AggRequest, AggResult, Distance, Partial, check_aggs, collect_one, finish,
    merge_partials, vacant_partial,
};
use doc_value::{Kind, Text, Value};
use std::alloc::{AllocError, Global};

/// How many documents a row has at most on one side.
const MOST_WORDS: usize = 1000;

fn value_of(alloc: Global, kind: Kind, word: &str) -> Result<Value, AllocError> {
    match kind {
        Kind::Text => Ok(Value::Text(Text::from_str(alloc, word)?)),
        _ => Ok(Value::I64(word.parse::<i64>().unwrap_or(0))),
    }
}

// What documents of one value each count.
fn collected(
    alloc: Global,
    asked: &AggRequest,
    kind: Kind,
    words: &[&str],
) -> Result<Partial, AllocError>
    requires intervals { HaveIntervals asked.now }
    requires few { length words.now < 2 ^ 60 }
    ensures { IfOk result (λ p. IsPartialOf asked.now p × (documents_in p ≡ length words.now)) }
{
    let mut partial = vacant_partial(alloc, asked)?;
    for word in words {
        let doc = document(alloc, value_of(alloc, kind, word)?)?;
        collect_one(alloc, asked, &mut partial, &doc)?;
    }
    Ok(partial)
}

// What the words of both texts answer together.
fn merged(
    alloc: Global,
    asked: &AggRequest,
    kind: Kind,
    first: &[&str],
    second: &[&str],
) -> Result<String, AggError>
    requires intervals { HaveIntervals asked.now }
    requires few { length first.now < 2 ^ 60 }
    requires more { length second.now < 2 ^ 60 }
{
    let mut partial = collected(alloc, asked, kind, first)?;
    let other = collected(alloc, asked, kind, second)?;
    merge_partials(alloc, asked, &mut partial, &other)?;
    let results = finish(alloc, asked, &partial)?;
    Ok(answers(alloc, &results)?)
}

fn answers(alloc: Global, results: &AggResult) -> Result<String, AllocError> {
    let mut text = String::new(alloc);
    for result in results.as_slice() {
        text.push_str(answer(alloc, result)?.as_str())?;
    }
    Ok(text)
}

// A request of one aggregation that isn't refused over a field of this kind.
fn checked(alloc: Global, kind: Kind, fast: bool, agg: Agg) -> Result<AggRequest, AggError>
    requires { field_of agg < 1 }
    ensures { IfOk result HaveIntervals }
{
    let schema = schema(alloc, kind, fast)?;
    let asked = request(alloc, agg)?;
    check_aggs(alloc, &schema, &asked)?;
    Ok(asked)
}

fn answered(
    alloc: Global,
    kind: Kind,
    agg: Agg,
    first: &str,
    second: &str,
) -> Result<String, AggError>
    requires { field_of agg < 1 }
{
    let asked = checked(alloc, kind, true, agg)?;
    let first: Vec<&str> = first.split_whitespace().collect(alloc)?;
    let second: Vec<&str> = second.split_whitespace().collect(alloc)?;
    if first.len() > MOST_WORDS || second.len() > MOST_WORDS {
        return Ok(String::from_str(alloc, "too many words")?);
    }
    merged(alloc, &asked, kind, first.as_slice(), second.as_slice())
}

/// The texts that most documents have.
pub fn terms(alloc: Global, size: u32, words: &str) -> Result<String, AggError> {
    let (first, second) = words.split_once('/').unwrap_or((words, ""));
    let agg = Agg::Terms { field: 0, size };
    answered(alloc, Kind::Text, agg, first, second)
}

fn histogram(interval: i64, min_doc_count: u32, dated: bool) -> Agg
    ensures { field_of result ≡ 0 }
{
    Agg::Histogram {
        field: 0,
        interval: Distance::from(interval),
        offset: Distance::from(0i64),
        min_doc_count,
        dated,
    }
}

/// The steps in which enough numbers lie.
pub fn steps(alloc: Global, interval: i64, words: &str) -> Result<String, AggError> {
    let (least, numbers) = words.split_once(' ').unwrap_or((words, ""));
    let agg = histogram(interval, least.parse::<u32>().unwrap_or(0), false);
    answered(alloc, Kind::I64, agg, numbers, "")
}

/// Whether steps of this interval are refused: over numbers, also where there is no column (`slow`), over texts, and as dates over
/// numbers (`undated`) and over datetimes.
pub fn refused(alloc: Global, field: &str, interval: i64) -> Result<String, AggError> {
    let (kind, fast, dated) = match field {
        "number" => (Kind::I64, true, false),
        "slow" => (Kind::I64, false, false),
        "text" => (Kind::Text, true, false),
        "undated" => (Kind::I64, true, true),
        _ => (Kind::Datetime, true, true),
    };
    checked(alloc, kind, fast, histogram(interval, 0, dated))?;
    Ok(String::from_str(alloc, "none")?)
}
