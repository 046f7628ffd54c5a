//! What a line asks.

use crate::{aggregations, documents, histories, queries, requests};
use meta_store::Meta;
use std::alloc::{AllocError, Global};

/// `doc D`, `query Q`, `ask R`, `agg A` and `history H` ask what the modules of documents, queries, requests, aggregations and
/// histories answer.
pub fn answer(alloc: Global, meta: &mut Meta, line: &str) -> Result<String, AllocError> {
    let (asked, rest) = line.split_once(' ').unwrap_or((line, ""));
    match asked {
        "doc" => documents::answers::answer(alloc, rest),
        "query" => queries::answers::answer(alloc, rest),
        "ask" => requests::answers::answer(alloc, rest),
        "agg" => aggregations::answers::answer(alloc, rest),
        "history" => histories::questions::answer(alloc, meta, rest),
        _ => String::from_str(alloc, "nothing asked"),
    }
}
