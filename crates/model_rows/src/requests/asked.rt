//! What is read and resolved of a request.

use super::refusals::{over_logs, refused};
use super::schemas::logs;
use agg_model::Agg;
use agg_nested::{FlatAgg, MetricKind, NestedAgg, WholeRange};
use doc_value::Text;
use query_ast::Query;
use query_reader::print_query;
use search_api::{
    AggShape, AskedAgg, Deletion, Paths, Request, Resolved, SearchAsk, SearchRequest, Selection,
    read_request,
};
use std::alloc::{AllocError, Global};

/// What a request is without a schema.
pub fn read(alloc: Global, text: &str) -> Result<String, AllocError> {
    match read_request(alloc, text.as_bytes()) {
        Ok(Request::Search(search)) => search_shown(alloc, &search),
        Ok(Request::Delete(selection)) => selected(alloc, &selection),
        Err(error) => format!(in alloc; "{error}"),
    }
}

fn search_shown(alloc: Global, search: &SearchRequest) -> Result<String, AllocError> {
    let mut shown = selected(alloc, &search.selection)?;
    shown.push_str(page(alloc, search.start_offset, search.max_hits)?.as_str())?;
    if let Some(sort) = &search.sort_by {
        let order = order(sort.descending);
        let path = sort.path.as_str();
        shown.push_str(format!(in alloc; "; {order} {path}")?.as_str())?;
    }
    for asked in search.aggs.as_slice() {
        shown.push_str(agg_asked(alloc, asked)?.as_str())?;
    }
    Ok(shown)
}

fn page(alloc: Global, start_offset: u32, max_hits: u32) -> Result<String, AllocError> {
    format!(in alloc; "; from {start_offset}, show {max_hits}")
}

fn order(descending: bool) -> &'static str {
    if descending { "falling" } else { "rising" }
}

/// The query's text, the fields of a clause without one, and the times.
fn selected(alloc: Global, selection: &Selection) -> Result<String, AllocError> {
    let mut shown = String::from_str(alloc, selection.query.as_str())?;
    if let Some(paths) = &selection.fields {
        shown.push_str(searched(alloc, paths)?.as_str())?;
    }
    if let Some(start) = selection.times.start {
        shown.push_str(format!(in alloc; "; since {start}")?.as_str())?;
    }
    if let Some(end) = selection.times.end {
        shown.push_str(format!(in alloc; "; before {end}")?.as_str())?;
    }
    Ok(shown)
}

fn searched(alloc: Global, paths: &Paths) -> Result<String, AllocError> {
    let mut shown = String::from_str(alloc, "; in")?;
    let mut between = " ";
    for path in paths.as_slice() {
        shown.push_str(between)?;
        shown.push_str(path.as_str())?;
        between = ", ";
    }
    Ok(shown)
}

/// An aggregation, and those that are nested in it in brackets.
fn agg_asked(alloc: Global, asked: &AskedAgg) -> Result<String, AllocError> {
    let mut shown = String::from_str(alloc, "; ")?;
    let own = shape_asked(alloc, &asked.name, &asked.path, &asked.shape)?;
    shown.push_str(own.as_str())?;
    for flat in asked.nested.as_slice() {
        let inner = shape_asked(alloc, &flat.name, &flat.path, &flat.shape)?;
        shown.push_str(format!(in alloc; " ({})", inner.as_str())?.as_str())?;
    }
    Ok(shown)
}

fn shape_asked(
    alloc: Global,
    name: &Text,
    path: &Text,
    shape: &AggShape,
) -> Result<String, AllocError> {
    let over = path.as_str();
    match shape {
        AggShape::Terms { size } => first_terms(alloc, name, over, *size),
        AggShape::Histogram {
            interval,
            offset,
            min_doc_count,
            dated,
        } => {
            let scale = (interval.whole(), offset.whole());
            in_steps(alloc, name, over, scale, *min_doc_count, *dated)
        }
        AggShape::Min => metric(alloc, name, over, MetricKind::Min),
        AggShape::Max => metric(alloc, name, over, MetricKind::Max),
        AggShape::Sum => metric(alloc, name, over, MetricKind::Sum),
        AggShape::ValueCount => metric(alloc, name, over, MetricKind::ValueCount),
        AggShape::Range { ranges } => in_ranges(alloc, name, over, ranges.as_slice()),
    }
}

fn first_terms(alloc: Global, name: &Text, over: &str, size: u32) -> Result<String, AllocError> {
    let name = name.as_str();
    format!(in alloc; "{name} over {over}, the first {size}")
}

fn in_steps(
    alloc: Global,
    name: &Text,
    over: &str,
    scale: (i128, i128),
    least: u32,
    dated: bool,
) -> Result<String, AllocError> {
    let name = name.as_str();
    let (interval, offset) = scale;
    let dated = if dated { ", dated" } else { "" };
    format!(in alloc;
        "{name} over {over} in steps of {interval} from {offset} by at least {least}{dated}"
    )
}

fn metric(alloc: Global, name: &Text, over: &str, kind: MetricKind) -> Result<String, AllocError> {
    let name = name.as_str();
    let number = match kind {
        MetricKind::Min => "least",
        MetricKind::Max => "greatest",
        MetricKind::Sum => "sum",
        MetricKind::ValueCount => "count",
    };
    format!(in alloc; "{name} over {over}, the {number}")
}

fn in_ranges(
    alloc: Global,
    name: &Text,
    over: &str,
    ranges: &[WholeRange],
) -> Result<String, AllocError> {
    let mut shown = format!(in alloc; "{} over {over} in", name.as_str())?;
    for range in ranges {
        shown.push_str(edge(alloc, " from", range.from)?.as_str())?;
        shown.push_str(edge(alloc, " to", range.to)?.as_str())?;
    }
    Ok(shown)
}

fn edge(alloc: Global, word: &str, edge: Option<i128>) -> Result<String, AllocError> {
    match edge {
        Some(edge) => format!(in alloc; "{word} {edge}"),
        None => Ok(String::new(alloc)),
    }
}

/// What a request is over the schema.
pub fn resolved(alloc: Global, text: &str) -> Result<String, AllocError> {
    match over_logs(alloc, text.as_bytes()) {
        Ok(Resolved::Search(search)) => ask_shown(alloc, &search),
        Ok(Resolved::Delete(deletion)) => deletion_shown(alloc, &deletion),
        Err(reason) => refused(alloc, reason),
    }
}

fn ask_shown(alloc: Global, search: &SearchAsk) -> Result<String, AllocError> {
    let mut shown = query_shown(alloc, &search.query)?;
    shown.push_str(page(alloc, search.start_offset, search.max_hits)?.as_str())?;
    if let Some(sort) = search.sort {
        let order = order(sort.descending);
        let field = sort.field;
        shown.push_str(format!(in alloc; "; {order} field {field}")?.as_str())?;
    }
    for named in search.aggs.as_slice() {
        shown.push_str(agg_shown(alloc, named)?.as_str())?;
    }
    Ok(shown)
}

fn query_shown(alloc: Global, query: &Query) -> Result<String, AllocError> {
    let schema = logs(alloc)?;
    let printed = print_query(alloc, &schema, query)?;
    String::from_str(alloc, printed.as_str())
}

fn agg_shown(alloc: Global, asked: &NestedAgg) -> Result<String, AllocError> {
    let mut shown = String::from_str(alloc, "; ")?;
    shown.push_str(flat_shown(alloc, &asked.name, &asked.agg)?.as_str())?;
    for flat in asked.nested.as_slice() {
        let inner = flat_shown(alloc, &flat.name, &flat.agg)?;
        shown.push_str(format!(in alloc; " ({})", inner.as_str())?.as_str())?;
    }
    Ok(shown)
}

fn flat_shown(alloc: Global, name: &Text, agg: &FlatAgg) -> Result<String, AllocError> {
    match agg {
        FlatAgg::Counted(agg) => counted_shown(alloc, name, agg),
        FlatAgg::Metric { kind, field } => {
            let over = format!(in alloc; "field {field}")?;
            metric(alloc, name, over.as_str(), *kind)
        }
        FlatAgg::Ranges { field, ranges } => {
            let over = format!(in alloc; "field {field}")?;
            in_ranges(alloc, name, over.as_str(), ranges.as_slice())
        }
    }
}

fn counted_shown(alloc: Global, name: &Text, agg: &Agg) -> Result<String, AllocError> {
    match agg {
        Agg::Terms { field, size } => {
            let over = format!(in alloc; "field {field}")?;
            first_terms(alloc, name, over.as_str(), *size)
        }
        Agg::Histogram {
            field,
            interval,
            offset,
            min_doc_count,
            dated,
        } => {
            let over = format!(in alloc; "field {field}")?;
            let scale = (interval.whole(), offset.whole());
            in_steps(alloc, name, over.as_str(), scale, *min_doc_count, *dated)
        }
    }
}

fn deletion_shown(alloc: Global, deletion: &Deletion) -> Result<String, AllocError> {
    let mut shown = String::from_str(alloc, "delete ")?;
    shown.push_str(deletion.text.as_str())?;
    shown.push_str(searched(alloc, &deletion.fields)?.as_str())?;
    if deletion.times.start.is_some() || deletion.times.end.is_some() {
        shown.push_str("; timed")?;
    }
    Ok(shown)
}
