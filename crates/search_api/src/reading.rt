//! The request that a text is, or its first refusal.

ghost use Rattle.std.specs.Prelude.{◌≡◌, Some, IfOk};
ghost use Rattle.serde_json.specs.View.{view};
ghost use Rattle.search_api.specs.Answers.{Gives};
ghost use Rattle.search_api.specs.Requests as spec;

use crate::aggregations::aggs_at;
use crate::kinds::{
    count_at, missing_key, needed_text, paths_at, second_at, text_at, unknown_key as unknown,
    wrong_kind,
};
use crate::request::{Request, SearchRequest, Selection, SortBy};
use crate::request_error::RequestError;
use crate::unknown::unknown_key;
use doc_value::{Text, TimeRange};
use serde_json::Value;
use std::alloc::{AllocError, Global};
use std::str;

/// How many hits a search may reach: those that it passes over and those that it shows.
pub const MAX_WANTED: u64 = 10_000;

/// How many hits are shown where no number is given.
pub const DEFAULT_HITS: u32 = 20;

#[tactic(auto, unfolding(crate::specs::Requests::selection_of))]
fn selection_of(alloc: Global, object: &Value) -> Result<Selection, RequestError>
    ensures { Gives (spec.selection_of (view object.now)) result }
{
    let query = needed_text(alloc, object, "query")?;
    let fields = paths_at(alloc, object, "search_field")?;
    let start = second_at(alloc, object, "start_timestamp")?;
    let end = second_at(alloc, object, "end_timestamp")?;
    Ok(Selection {
        query,
        fields,
        times: TimeRange { start, end },
    })
}

/// A path, or a minus sign and a path.
fn sort_of(alloc: Global, text: &Text) -> Result<SortBy, AllocError>
    ensures { IfOk result (λ sort. sort ≡ spec.sort_of text.now) }
{
    match text.as_str().strip_prefix('-') {
        Some(path) => Ok(SortBy {
            path: Text::from_str(alloc, path)?,
            descending: true,
        }),
        None => Ok(SortBy {
            path: Text::from_str(alloc, text.as_str())?,
            descending: false,
        }),
    }
}

fn sort_at(alloc: Global, object: &Value) -> Result<Option<SortBy>, RequestError>
    ensures { Gives (spec.sort_at (view object.now)) result }
{
    match text_at(alloc, object, "sort_by")? {
        Some(text) => Ok(Some(sort_of(alloc, &text)?)),
        None => Ok(None),
    }
}

/// A search as it is written, however many hits it wants.
#[tactic(auto, unfolding(crate::specs::Requests::written_search))]
fn written_search(alloc: Global, object: &Value) -> Result<SearchRequest, RequestError>
    ensures { Gives (spec.written_search (view object.now)) result }
{
    let selection = selection_of(alloc, object)?;
    let start_offset = count_at(alloc, object, "start_offset", 0, u32::MAX)?;
    let max_hits = count_at(alloc, object, "max_hits", 0, u32::MAX)?;
    let sort_by = sort_at(alloc, object)?;
    let aggs = aggs_at(alloc, object)?;
    Ok(SearchRequest {
        selection,
        start_offset: start_offset.unwrap_or(0),
        max_hits: max_hits.unwrap_or(DEFAULT_HITS),
        sort_by,
        aggs,
    })
}

#[tactic(auto, unfolding(crate::specs::Requests::search_of))]
fn search_of(alloc: Global, value: &Value) -> Result<Request, RequestError>
    ensures { Gives (spec.search_of (view value.now)) result }
{
    if !value.is_object() {
        return Err(wrong_kind(alloc, "search"));
    }
    let search = written_search(alloc, value)?;
    let wanted = u64::from(search.start_offset) + u64::from(search.max_hits);
    if wanted > MAX_WANTED {
        return Err(RequestError::TooManyHits { wanted });
    }
    Ok(Request::Search(search))
}

#[tactic(auto, unfolding(crate::specs::Requests::delete_of))]
fn delete_of(alloc: Global, value: &Value) -> Result<Request, RequestError>
    ensures { Gives (spec.delete_of (view value.now)) result }
{
    if !value.is_object() {
        return Err(wrong_kind(alloc, "delete"));
    }
    Ok(Request::Delete(selection_of(alloc, value)?))
}

fn request_in(alloc: Global, value: &Value) -> Result<Request, RequestError>
    ensures { Gives (spec.request_in (Some (view value.now))) result }
{
    if !value.is_object() {
        return Err(wrong_kind(alloc, "request"));
    }
    if let Some(key) = unknown_key(value) {
        return Err(unknown(alloc, key));
    }
    if let Some(delete) = value.get("delete") {
        return delete_of(alloc, delete);
    }
    match value.get("search") {
        Some(search) => search_of(alloc, search),
        None => Err(missing_key(alloc, "search")),
    }
}

/// The request that a text is, or its first refusal: NotJson; UnknownKey, the least key in byte order of the outermost
/// object that has one; then WrongKind and MissingKey key by key, an aggregation's keys where it stands; last TooManyHits.
pub fn read_request(alloc: Global, text: &[u8]) -> Result<Request, RequestError>
    ensures { Gives (spec.request_of text.now) result }
{
    let Ok(text) = str::from_utf8(text) else {
        return Err(RequestError::NotJson);
    };
    match Value::from_str(alloc, text) {
        Ok(value) => request_in(alloc, &value),
        Err(error) => {
            if error.is_memory() {
                Err(RequestError::Memory(AllocError))
            } else {
                Err(RequestError::NotJson)
            }
        }
    }
}
