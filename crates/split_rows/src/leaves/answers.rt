//! Requests, and what a split answers to them.

ghost use Rattle.std.specs.Prelude.{◌≤◌, IfOk, IfSome, length};
ghost use Rattle.agg_nested.specs.Buckets.{IsNestedPartial};
ghost use Rattle.agg_nested.specs.Checking.{HaveSteps};
ghost use Rattle.doc_value.specs.Documents.{IsSchema};

use super::views::view_of;
use agg_nested::finish_nested;
use byte_fields::Client;
use doc_tallies::HitOrder;
use doc_value::{Bytes, Schema};
use index_config::IndexConfig;
use leaf_search::{LeafAnswer, LeafError, LeafRequest, leaf};
use search_api::{
    Hits, Reply, Resolved, Said, SearchAsk, SortField, Unanswered, print_reply, read_request,
    resolve,
};
use split_bundle::PlacedList;
use std::alloc::{AllocError, Global};
use std::str;

fn order_of(sort: Option<SortField>) -> Option<HitOrder> {
    match sort {
        Some(sort) => Some(HitOrder {
            field: u32::try_from(sort.field).unwrap_or(u32::MAX),
            descending: sort.descending,
        }),
        None => None,
    }
}

// What a search asks of a split.
fn leaf_request(search: SearchAsk) -> LeafRequest
    requires { HaveSteps search.aggs }
    ensures { HaveSteps result.aggs }
{
    let wanted = search.start_offset.saturating_add(search.max_hits);
    LeafRequest {
        query: search.query,
        times: search.times,
        order: order_of(search.sort),
        wanted: wanted as usize,
        aggs: search.aggs,
    }
}

// The search that a text asks of the configuration's schema, unless it is a delete.
fn search_of(
    alloc: Global,
    config: &IndexConfig,
    text: &str,
) -> Result<Option<SearchAsk>, Unanswered>
    requires { IsSchema config.now.schema }
    ensures { IfOk result (λ o. IfSome o (λ search. HaveSteps search.aggs)) }
{
    let request = read_request(alloc, text.as_bytes())?;
    let defaults = config.default_fields.as_slice();
    match resolve(alloc, &config.schema, defaults, &request)? {
        Resolved::Search(search) => Ok(Some(search)),
        Resolved::Delete(_deletion) => Ok(None),
    }
}

// The places of hits, each as a text.
fn hits_of(alloc: Global, documents: &PlacedList) -> Result<Hits, AllocError> {
    let mut hits = Hits::vacant(alloc);
    for placed in documents.as_slice() {
        let (partition, offset) = (&placed.partition, placed.offset);
        let text = format!(in alloc; "\"{partition}:{offset}\"")?;
        hits.push(Bytes::from_slice(alloc, text.as_bytes())?)?;
    }
    Ok(hits)
}

// The line of a reply.
fn line_of(alloc: Global, said: Said) -> Result<String, AllocError> {
    let Some(client) = Client::from_text("a") else {
        return String::from_str(alloc, "no client");
    };
    let reply = Reply {
        client,
        revision: 1,
        said,
    };
    line_shown(alloc, &reply)
}

fn line_shown(alloc: Global, reply: &Reply) -> Result<String, AllocError> {
    let line = print_reply(alloc, reply)?;
    String::from_str(alloc, str::from_utf8(line.as_slice()).unwrap_or(""))
}

// The line of a refusal.
fn refused(alloc: Global, reason: Unanswered) -> Result<String, AllocError> {
    match reason {
        Unanswered::Refused(refusal) => line_of(alloc, Said::Refused(refusal)),
        Unanswered::Memory(error) => Err(error),
    }
}

// The line of what a split answers.
fn found(alloc: Global, request: &LeafRequest, answer: &LeafAnswer) -> Result<String, AllocError>
    requires intervals { HaveSteps request.now.aggs }
    requires partial { IsNestedPartial request.now.aggs answer.now.partial }
{
    match finish_nested(alloc, &request.aggs, &answer.partial) {
        Ok(aggregations) => {
            let said = Said::Found {
                count: answer.count,
                hits: hits_of(alloc, &answer.hits)?,
                aggregations,
            };
            line_of(alloc, said)
        }
        Err(error) => refused(alloc, Unanswered::from(error)),
    }
}

// What a file answers, with or without its documents.
fn leaf_answer(
    alloc: Global,
    schema: &Schema,
    file: &[u8],
    light: bool,
    request: &LeafRequest,
) -> Result<LeafAnswer, LeafError>
    requires fields { length schema.now.fields ≤ 256 }
    requires intervals { HaveSteps request.now.aggs }
    ensures { IfOk result (λ answer. IsNestedPartial request.now.aggs answer.partial) }
{
    let view = view_of(alloc, file, light)?;
    leaf(alloc, schema, request, &view)
}

fn searched(
    alloc: Global,
    schema: &Schema,
    file: &[u8],
    light: bool,
    search: SearchAsk,
) -> Result<String, AllocError>
    requires fields { length schema.now.fields ≤ 256 }
    requires intervals { HaveSteps search.aggs }
{
    let request = leaf_request(search);
    match leaf_answer(alloc, schema, file, light, &request) {
        Ok(answer) => found(alloc, &request, &answer),
        Err(LeafError::Memory(refused)) => Err(refused),
        Err(fault) => format!(in alloc; "{fault}"),
    }
}

/// The reply's line to the request of a line, or why the file has no answer. Before a request `light` asks a view without documents.
pub fn answer(
    alloc: Global,
    config: &IndexConfig,
    file: &[u8],
    line: &str,
) -> Result<String, AllocError>
    requires { IsSchema config.now.schema }
{
    let (light, text) = match line.strip_prefix("light ") {
        Some(text) => (true, text),
        None => (false, line),
    };
    match search_of(alloc, config, text) {
        Ok(Some(search)) => searched(alloc, &config.schema, file, light, search),
        Ok(None) => String::from_str(alloc, "no search"),
        Err(reason) => refused(alloc, reason),
    }
}
