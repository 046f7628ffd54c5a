//! Replies and their lines.

use agg_model::{AggAnswer, Bucket, Buckets, Key as BucketKey};
use agg_nested::{FlatAnswer, NestedAnswer, NestedResult};
use byte_fields::Client;
use doc_value::{Bytes, List, Text, Value};
use object_store::Key;
use search_api::{Hits, Refusal, Reply, Said, print_reply};
use std::alloc::{AllocError, Global};
use std::str;

/// The line of a reply to the client b at revision 3.
pub fn line_of(alloc: Global, said: Said) -> Result<String, AllocError> {
    let Some(client) = Client::from_text("b") else {
        return String::from_str(alloc, "no client");
    };
    let reply = Reply {
        client,
        revision: 3,
        said,
    };
    line_shown(alloc, &reply)
}

fn line_shown(alloc: Global, reply: &Reply) -> Result<String, AllocError> {
    let line = print_reply(alloc, reply)?;
    String::from_str(alloc, str::from_utf8(line.as_slice()).unwrap_or(""))
}

/// The line of the reply of this name.
pub fn printed(alloc: Global, name: &str) -> Result<String, AllocError> {
    let said = match name {
        "found" => found(alloc)?,
        "empty" => Said::Found {
            count: 0,
            hits: Hits::vacant(alloc),
            aggregations: NestedResult::vacant(alloc),
        },
        "deleted" => Said::Deleted { opstamp: 1 },
        _ => Said::Refused(refusal(name)),
    };
    line_of(alloc, said)
}

fn refusal(name: &str) -> Refusal {
    match name {
        "expired" => Refusal::Expired {
            planned_at: 1000,
            now: 1100,
        },
        "store" => Refusal::StoreFault {
            before: 0,
            after: 1,
        },
        "corrupt" => corrupt("splits/00000000000000000001"),
        "buckets" => Refusal::TooManyBuckets { count: 65_001 },
        "tasks" => Refusal::TooManyTasks { count: 10_000 },
        _ => Refusal::Full,
    }
}

fn corrupt(key: &str) -> Refusal {
    match Key::from_text(key) {
        Ok(key) => Refusal::Corrupt { key },
        Err(_) => Refusal::Full,
    }
}

fn found(alloc: Global) -> Result<Said, AllocError> {
    let hits = hits(alloc)?;
    let aggregations = aggregations(alloc)?;
    Ok(Said::Found {
        count: 6,
        hits,
        aggregations,
    })
}

fn hits(alloc: Global) -> Result<Hits, AllocError> {
    let mut hits = Hits::vacant(alloc);
    hits.push(Bytes::from_slice(alloc, br#"{"body":"red fox"}"#)?)?;
    hits.push(Bytes::from_slice(alloc, b"{}")?)?;
    Ok(hits)
}

fn aggregations(alloc: Global) -> Result<NestedResult, AllocError> {
    let mut results = NestedResult::vacant(alloc);
    results.push(histogram(alloc)?)?;
    results.push(first_texts(alloc)?)?;
    Ok(results)
}

fn histogram(alloc: Global) -> Result<NestedAnswer, AllocError> {
    let buckets = steps(alloc, &[(-10, 1), (0, 0), (10, 0), (20, 1)])?;
    plain(alloc, "h\"", AggAnswer::Histogram { buckets })
}

fn first_texts(alloc: Global) -> Result<NestedAnswer, AllocError> {
    let buckets = terms(alloc, &[("a", 2), ("c", 2)])?;
    plain(alloc, "t", AggAnswer::Terms { buckets, others: 2 })
}

/// An answer in which nothing is nested.
fn plain(alloc: Global, name: &str, answer: AggAnswer) -> Result<NestedAnswer, AllocError> {
    Ok(NestedAnswer {
        name: Text::from_str(alloc, name)?,
        answer: FlatAnswer::Counted(answer),
        nested: List::vacant(alloc),
    })
}

fn terms(alloc: Global, counts: &[(&str, u64)]) -> Result<Buckets, AllocError> {
    let mut buckets = Buckets::vacant(alloc);
    for (text, count) in counts {
        let value = Value::Text(Text::from_str(alloc, text)?);
        buckets.push(Bucket {
            key: BucketKey::Value(value),
            count: *count,
        })?;
    }
    Ok(buckets)
}

fn steps(alloc: Global, counts: &[(i128, u64)]) -> Result<Buckets, AllocError> {
    let mut buckets = Buckets::vacant(alloc);
    for (begin, count) in counts {
        buckets.push(Bucket {
            key: BucketKey::Step(*begin),
            count: *count,
        })?;
    }
    Ok(buckets)
}
