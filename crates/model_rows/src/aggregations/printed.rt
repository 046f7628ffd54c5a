use agg_model::{AggAnswer, Bucket, Key, NamedResult};
use doc_value::Value;
use std::alloc::{AllocError, Global};

// A bucket as its key and its count.
fn bucket(alloc: Global, bucket: &Bucket) -> Result<String, AllocError> {
    let count = bucket.count;
    match &bucket.key {
        Key::Value(Value::Text(text)) => format!(in alloc; "{}={count} ", text.as_str()),
        Key::Value(_) => String::from_str(alloc, "other "),
        Key::Step(step) => format!(in alloc; "{step}={count} "),
    }
}

/// The buckets of an answer, or their number where they are many, and the count of the others.
pub fn answer(alloc: Global, answer: &NamedResult) -> Result<String, AllocError> {
    let (buckets, others) = match &answer.result {
        AggAnswer::Terms { buckets, others } => (buckets, *others),
        AggAnswer::Histogram { buckets } => (buckets, 0),
    };
    if buckets.len() > 10 {
        let many = buckets.len();
        return format!(in alloc; "{many} buckets");
    }
    let mut text = String::new(alloc);
    for one in buckets.as_slice() {
        text.push_str(bucket(alloc, one)?.as_str())?;
    }
    text.push_str(format!(in alloc; "others={others}")?.as_str())?;
    Ok(text)
}
