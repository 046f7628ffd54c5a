// Requests that only count the documents of one token: the dictionary says how many these are.

ghost use Rattle.std.specs.Prelude.{◌≡◌, ◌≤◌, ◌∷◌, [], length, slice_get, List, IfOk, MatchResult};
ghost use Rattle.std.specs.Option.{option_and_then};
ghost use Rattle.doc_value.specs.declared.schema.Schema.{Schema};
ghost use Rattle.query_ast.specs.Sought.{view as query_view};
ghost use Rattle.agg_nested.specs.Buckets.{IsNestedPartial, documents_counted};
ghost use Rattle.agg_nested.specs.Checking.{HaveSteps};
ghost use Rattle.split_bundle.specs.declared.placed.Placed.{Placed};
ghost use Rattle.split_bundle.specs.Files.{Parts};
ghost use Rattle.split_bundle.specs.Lists.{posting_list};
ghost use Rattle.doc_sets.specs.Faults.{LacksPart};
ghost use Rattle.doc_sets.specs.Needed.{IsBlockFor, IsSearched};
ghost use Rattle.doc_sets.specs.Reads.{ReadsAll};
ghost use Rattle.doc_sets.specs.Texts as texts;
ghost use Rattle.doc_sets.specs.declared.dictionary_lookup.Lookup.TheVariants.{Count};
ghost use Rattle.leaf_search.specs.Counts as counts;

use crate::fields::field_at;
use crate::request::{LeafAnswer, LeafRequest};
use crate::timed::is_unlimited;
use byte_fields::Bytes;
use doc_sets::{LeafError, one_token, term_at};
use doc_tallies::valueless_partial;
use doc_value::Schema;
use query_ast::Query;
use split_bundle::{PartView, PlacedList};
use std::alloc::{AllocError, Global};

// Whether no hit is wanted, the times have no edge, and nothing is aggregated.
pub(crate) fn only_counts(request: &LeafRequest) -> bool
    ensures { result ≡ counts.only_counts request.now }
{
    request.wanted == 0 && is_unlimited(request.times) && request.aggs.as_slice().is_empty()
}

// The key of the token of a text that is one token.
fn key_of(
    alloc: Global,
    schema: &Schema,
    number: usize,
    text: &str,
) -> Result<Option<Bytes>, AllocError>
    requires { length schema.now.fields ≤ 256 }
    ensures { IfOk result (λ key. key ≡ option_and_then (λ f. texts.one_token f number text.now) (slice_get schema.now.fields number)) }
{
    match field_at(schema, number) {
        Some(field) => one_token(alloc, number, field, text),
        None => Ok(None),
    }
}

// The key of the token of a query that is one text of one token.
pub(crate) fn one_key(
    alloc: Global,
    schema: &Schema,
    query: &Query,
) -> Result<Option<Bytes>, AllocError>
    requires { length schema.now.fields ≤ 256 }
    ensures { IfOk result (λ key. key ≡ counts.one_key schema.now (query_view query.now)) }
{
    match query {
        Query::Word { field, text } => key_of(alloc, schema, *field, text.as_str()),
        Query::Quoted { field, text } => key_of(alloc, schema, *field, text.as_str()),
        Query::All => Ok(None),
        Query::Nothing => Ok(None),
        Query::Prefix { .. } => Ok(None),
        Query::Exists { .. } => Ok(None),
        Query::Range { .. } => Ok(None),
        Query::AnyOf { .. } => Ok(None),
        Query::Not(_) => Ok(None),
        Query::And(_) => Ok(None),
        Query::Or(_) => Ok(None),
    }
}

// The key of which a request counts the documents, where it asks nothing else.
pub(crate) fn counted_key(
    alloc: Global,
    schema: &Schema,
    request: &LeafRequest,
) -> Result<Option<Bytes>, AllocError>
    requires { length schema.now.fields ≤ 256 }
    ensures { IfOk result (λ key. key ≡ counts.counted_key schema.now request.now) }
{
    if only_counts(request) {
        one_key(alloc, schema, &request.query)
    } else {
        Ok(None)
    }
}

// The answer of so many documents to a request that only counts them.
pub(crate) fn answer_of_many(
    alloc: Global,
    request: &LeafRequest,
    count: u32,
) -> Result<LeafAnswer, AllocError>
    requires { HaveSteps request.now.aggs }
    ensures count { IfOk result (λ a. a.count ≡ count) }
    ensures hits { IfOk result (λ a. a.hits ≡ []) }
    ensures partial { IfOk result (λ a. IsNestedPartial request.now.aggs a.partial) }
    ensures many { IfOk result (λ a. documents_counted a.partial ≡ a.count) }
{
    let partial = valueless_partial(alloc, &request.aggs, u64::from(count))?;
    Ok(LeafAnswer {
        count: u64::from(count),
        hits: PlacedList::vacant(alloc),
        partial,
    })
}

// How many documents have a key, by the dictionary alone.
pub(crate) fn key_count(view: &PartView, key: &[u8]) -> Result<u32, LeafError>
    ensures only { (s : Schema) (documents : List Placed) (p : Parts) → IsSearched view.now s documents p
        → MatchResult result (λ n. n ≡ length (posting_list s documents key.now)) (LacksPart (IsBlockFor view.now s documents p key.now) view.now.pieces) }
    ensures reads { ReadsAll view.now (Count key.now ∷ []) result }
{
    match term_at(view.footer().index(), view, key)? {
        Some(info) => Ok(info.docs),
        None => Ok(0),
    }
}

// The answer to a request that only counts the documents of a key.
pub(crate) fn counted(
    alloc: Global,
    request: &LeafRequest,
    view: &PartView,
    key: &[u8],
) -> Result<LeafAnswer, LeafError>
    requires { HaveSteps request.now.aggs }
    ensures only { (s : Schema) (documents : List Placed) (p : Parts) → IsSearched view.now s documents p
        → MatchResult result (λ a. (a.count ≡ length (posting_list s documents key.now)) × (a.hits ≡ []) × (documents_counted a.partial ≡ a.count))
        (LacksPart (IsBlockFor view.now s documents p key.now) view.now.pieces) }
    ensures partial { IfOk result (λ a. IsNestedPartial request.now.aggs a.partial) }
    ensures many { IfOk result (λ a. documents_counted a.partial ≡ a.count) }
    ensures reads { ReadsAll view.now (Count key.now ∷ []) result }
{
    let count = key_count(view, key)?;
    Ok(answer_of_many(alloc, request, count)?)
}
