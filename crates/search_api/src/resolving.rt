//! A request over a schema.

ghost use Rattle.std.specs.Prelude.{◌≡◌, ◌++◌, ◌∷◌, [], IfOk, OnOk, length, map, option_and_then};
ghost use Rattle.agg_nested.specs.Checking.{HaveFields};
ghost use Rattle.agg_nested.specs.declared.request.FlatAgg.TheVariants as flats;
ghost use Rattle.query_ast.specs.Meaning.{is_text};
ghost use Rattle.search_api.specs.declared.reply.Refusal.TheVariants as refusals;
ghost use Rattle.search_api.specs.declared.unanswered.Unanswered.TheVariants as reasons;
ghost use Rattle.query_ast.specs.Sought as sought;
ghost use Rattle.search_api.specs.Unanswered.{WantsMemory, Shows};
ghost use Rattle.search_api.specs.Answerable.{CanAnswer};
ghost use Rattle.search_api.specs.Resolved as spec;
ghost use Rattle.search_api.specs.Same.{same};
ghost use Rattle.std.specs.Option.{IfSome};
ghost use Rattle.doc_value.specs.Documents.{IsDynamic, number_of};

use crate::reply::Refusal;
use crate::request::{
    AggShape, AskedAgg, AskedFlat, Paths, Request, SearchRequest, Selection, SortBy,
};
use crate::resolved::{Deletion, Resolved, SearchAsk, SortField};
use crate::unanswered::Unanswered;
use agg_model::Agg;
use agg_nested::{FlatAgg, MetricKind, NamedFlat, NestedAgg, NestedRequest, check_nested};
use doc_value::{Field, Kind, List, Replica, Schema, Text, TimeRange};
use query_ast::Query;
use query_reader::{FieldNumbers, read_query};
use std::alloc::{AllocError, Global};

/// The number of the field with this path.
fn number_of(fields: &[Field], path: &Text) -> Option<usize>
    ensures { result ≡ number_of fields.now path.now }
{
    for (number, field) in fields.iter().enumerate() {
        if field.path.as_slice() == path.as_slice() {
            return Some(number);
        }
    }
    None
}

/// The refusal of a path that no field has.
fn unknown_field(alloc: Global, path: &Text) -> Unanswered
    ensures { ¬ WantsMemory result → result ≡ reasons.Refused (refusals.UnknownField path.now) }
{
    match path.copy(alloc) {
        Ok(name) => Unanswered::Refused(Refusal::UnknownField { name }),
        Err(error) => Unanswered::Memory(error),
    }
}

fn not_fast(alloc: Global, path: &Text) -> Unanswered
    ensures { ¬ WantsMemory result → result ≡ reasons.Refused (refusals.NotFast path.now) }
{
    match path.copy(alloc) {
        Ok(field) => Unanswered::Refused(Refusal::NotFast { field }),
        Err(error) => Unanswered::Memory(error),
    }
}

fn known(alloc: Global, fields: &[Field], path: &Text) -> Result<usize, Unanswered>
    ensures { Shows same (spec.known path.now (number_of fields.now path.now)) result }
{
    match number_of(fields, path) {
        Some(number) => Ok(number),
        None => Err(unknown_field(alloc, path)),
    }
}

fn is_text(kind: Kind) -> bool
    ensures { result ≡ is_text kind }
{
    match kind {
        Kind::Text => true,
        Kind::TextList => true,
        Kind::I64 => false,
        Kind::U64 => false,
        Kind::Bool => false,
        Kind::Datetime => false,
    }
}

fn has_text(fields: &[Field], number: usize) -> bool
    ensures { result ≡ spec.has_text fields.now number }
{
    match fields.get(number) {
        Some(field) => is_text(field.kind),
        None => false,
    }
}

fn is_fast(fields: &[Field], number: usize) -> bool
    ensures { result ≡ spec.is_fast fields.now number }
{
    match fields.get(number) {
        Some(field) => field.fast,
        None => false,
    }
}

fn text_number(alloc: Global, fields: &[Field], path: &Text) -> Result<usize, Unanswered>
    ensures { Shows same (spec.text_number fields.now path.now) result }
{
    let number = known(alloc, fields, path)?;
    if has_text(fields, number) {
        Ok(number)
    } else {
        Err(unknown_field(alloc, path))
    }
}

#[tactic(auto, using(crate::proofs::Numbered::numbers_none, crate::proofs::Numbered::numbers_step, crate::proofs::Numbered::numbers_fail))]
fn text_numbers(alloc: Global, fields: &[Field], paths: &[Text]) -> Result<FieldNumbers, Unanswered>
    ensures { Shows same (spec.text_numbers fields.now paths.now) result }
{
    let mut numbers = FieldNumbers::vacant(alloc);
    for path in paths {
        numbers.push(text_number(alloc, fields, path)?)?;
    }
    Ok(numbers)
}

/// The fields that a clause without one asks.
fn searched(
    alloc: Global,
    fields: &[Field],
    defaults: &[usize],
    paths: &Option<Paths>,
) -> Result<FieldNumbers, Unanswered>
    ensures { Shows same (spec.searched fields.now defaults.now paths.now) result }
{
    match paths {
        Some(paths) => text_numbers(alloc, fields, paths.as_slice()),
        None => Ok(FieldNumbers::from_slice(alloc, defaults)?),
    }
}

fn sort_of(
    alloc: Global,
    fields: &[Field],
    sort: &Option<SortBy>,
) -> Result<Option<SortField>, Unanswered>
    ensures { Shows same (spec.sort_of fields.now sort.now) result }
{
    match sort {
        Some(sort) => Ok(Some(SortField {
            field: known(alloc, fields, &sort.path)?,
            descending: sort.descending,
        })),
        None => Ok(None),
    }
}

fn narrow(number: Option<usize>) -> Option<u32>
    ensures { result ≡ option_and_then spec.narrow number }
{
    match number {
        Some(number) => {
            if number <= u32::MAX as usize {
                Some(number as u32)
            } else {
                None
            }
        }
        None => None,
    }
}

fn counted_number(alloc: Global, fields: &[Field], path: &Text) -> Result<u32, Unanswered>
    ensures { Shows same (spec.counted_number fields.now path.now) result }
{
    match narrow(number_of(fields, path)) {
        Some(field) => Ok(field),
        None => Err(unknown_field(alloc, path)),
    }
}

fn metric_over(kind: MetricKind, field: u32) -> FlatAgg
    ensures { result ≡ flats.Metric kind field }
{
    FlatAgg::Metric { kind, field }
}

fn flat_over(alloc: Global, field: u32, shape: &AggShape) -> Result<FlatAgg, AllocError>
    ensures { IfOk result (λ flat. flat ≡ spec.flat_over field shape.now) }
{
    match shape {
        AggShape::Terms { size } => Ok(FlatAgg::Counted(Agg::Terms { field, size: *size })),
        AggShape::Histogram {
            interval,
            offset,
            min_doc_count,
            dated,
        } => Ok(FlatAgg::Counted(Agg::Histogram {
            field,
            interval: *interval,
            offset: *offset,
            min_doc_count: *min_doc_count,
            dated: *dated,
        })),
        AggShape::Min => Ok(metric_over(MetricKind::Min, field)),
        AggShape::Max => Ok(metric_over(MetricKind::Max, field)),
        AggShape::Sum => Ok(metric_over(MetricKind::Sum, field)),
        AggShape::ValueCount => Ok(metric_over(MetricKind::ValueCount, field)),
        AggShape::Range { ranges } => Ok(FlatAgg::Ranges {
            field,
            ranges: ranges.copy(alloc)?,
        }),
    }
}

fn flat_of(alloc: Global, fields: &[Field], asked: &AskedFlat) -> Result<NamedFlat, Unanswered>
    ensures { Shows same (spec.flat_of fields.now asked.now) result }
{
    let field = counted_number(alloc, fields, &asked.path)?;
    Ok(NamedFlat {
        name: asked.name.copy(alloc)?,
        agg: flat_over(alloc, field, &asked.shape)?,
    })
}

#[tactic(auto, using(crate::proofs::Numbered::flats_none, crate::proofs::Numbered::flats_step, crate::proofs::Numbered::flats_fail))]
fn flats_of(
    alloc: Global,
    fields: &[Field],
    asked: &[AskedFlat],
) -> Result<List<NamedFlat>, Unanswered>
    ensures { Shows same (spec.flats_of fields.now asked.now) result }
{
    let mut flats = List::vacant(alloc);
    for one in asked {
        flats.push(flat_of(alloc, fields, one)?)?;
    }
    Ok(flats)
}

/// An aggregation's field, then those of its nested ones.
fn agg_of(alloc: Global, fields: &[Field], asked: &AskedAgg) -> Result<NestedAgg, Unanswered>
    ensures { Shows same (spec.agg_of fields.now asked.now) result }
{
    let field = counted_number(alloc, fields, &asked.path)?;
    let nested = flats_of(alloc, fields, asked.nested.as_slice())?;
    Ok(NestedAgg {
        name: asked.name.copy(alloc)?,
        agg: flat_over(alloc, field, &asked.shape)?,
        nested,
    })
}

#[tactic(auto, using(crate::proofs::Numbered::aggs_none, crate::proofs::Numbered::aggs_step, crate::proofs::Numbered::aggs_fail))]
fn aggs_of(alloc: Global, fields: &[Field], asked: &[AskedAgg]) -> Result<NestedRequest, Unanswered>
    ensures { Shows same (spec.aggs_of fields.now asked.now) result }
{
    let mut aggs = NestedRequest::vacant(alloc);
    for one in asked {
        aggs.push(agg_of(alloc, fields, one)?)?;
    }
    Ok(aggs)
}

/// What is sorted by is fast.
fn fast_sort(
    alloc: Global,
    fields: &[Field],
    asked: &Option<SortBy>,
    sort: Option<SortField>,
) -> Result<Option<SortField>, Unanswered>
    ensures { Shows same (spec.fast_sort fields.now asked.now sort) result }
{
    if let Some(asked) = asked
        && let Some(sort) = sort
        && !is_fast(fields, sort.field)
    {
        return Err(not_fast(alloc, &asked.path));
    }
    Ok(sort)
}

/// Times need a timestamp field.
fn timed(schema: &Schema, times: TimeRange) -> Result<TimeRange, Unanswered>
    ensures { Shows same (spec.timed schema.now times) result }
{
    let given = times.start.is_some() || times.end.is_some();
    if given && schema.timestamp.is_none() {
        return Err(Unanswered::Refused(Refusal::NoTimestampField));
    }
    Ok(times)
}

fn query_in(
    alloc: Global,
    schema: &Schema,
    numbers: &FieldNumbers,
    text: &Text,
) -> Result<Query, Unanswered>
    ensures { Shows sought.view (spec.query_in schema.now numbers.now text.now) result }
{
    match read_query(alloc, schema, numbers, text.as_str()) {
        Ok(query) => Ok(query),
        Err(error) => Err(Unanswered::from(error)),
    }
}

/// The aggregations, where none is refused.
fn checked(alloc: Global, schema: &Schema, aggs: NestedRequest) -> Result<NestedRequest, Unanswered>
    requires { HaveFields (length schema.now.fields) aggs }
    ensures { Shows same (spec.checked schema.now aggs) result }
{
    match check_nested(alloc, schema, &aggs) {
        Ok(()) => Ok(aggs),
        Err(error) => Err(Unanswered::from(error)),
    }
}

#[tactic(auto, unfolding(crate::specs::Resolved::search_in))]
fn search_in(
    alloc: Global,
    schema: &Schema,
    defaults: &[usize],
    asked: &SearchRequest,
) -> Result<SearchAsk, Unanswered>
    ensures { Shows spec.search_view (spec.search_in schema.now defaults.now asked.now) result }
{
    let fields = schema.fields.as_slice();
    let numbers = searched(alloc, fields, defaults, &asked.selection.fields)?;
    let named = sort_of(alloc, fields, &asked.sort_by)?;
    let aggs = aggs_of(alloc, fields, asked.aggs.as_slice())?;
    let sort = fast_sort(alloc, fields, &asked.sort_by, named)?;
    let times = timed(schema, asked.selection.times)?;
    let query = query_in(alloc, schema, &numbers, &asked.selection.query)?;
    let aggs = checked(alloc, schema, aggs)?;
    Ok(SearchAsk {
        query,
        times,
        start_offset: asked.start_offset,
        max_hits: asked.max_hits,
        sort,
        aggs,
    })
}

fn push_path(
    alloc: Global,
    paths: &mut Paths,
    fields: &[Field],
    number: usize,
) -> Result<(), AllocError>
    ensures { OnOk result (paths.new ≡ paths.old ++ spec.path_at fields.now number ∷ []) }
{
    match fields.get(number) {
        Some(field) => paths.push(field.path.copy(alloc)?),
        None => paths.push(Text::vacant(alloc)),
    }
}

fn paths_of(alloc: Global, fields: &[Field], numbers: &[usize]) -> Result<Paths, AllocError>
    ensures { IfOk result (λ paths. paths ≡ map (spec.path_at fields.now) numbers.now) }
{
    let mut paths = Paths::vacant(alloc);
    for number in numbers {
        push_path(alloc, &mut paths, fields, *number)?;
    }
    Ok(paths)
}

fn searched_paths(
    alloc: Global,
    fields: &[Field],
    defaults: &[usize],
    paths: &Option<Paths>,
) -> Result<Paths, AllocError>
    ensures { IfOk result (λ names. names ≡ spec.searched_paths fields.now defaults.now paths.now) }
{
    match paths {
        Some(paths) => paths.copy(alloc),
        None => paths_of(alloc, fields, defaults),
    }
}

#[tactic(auto, unfolding(crate::specs::Resolved::delete_in))]
fn delete_in(
    alloc: Global,
    schema: &Schema,
    defaults: &[usize],
    asked: &Selection,
) -> Result<Deletion, Unanswered>
    ensures { Shows same (spec.delete_in schema.now defaults.now asked.now) result }
{
    let fields = schema.fields.as_slice();
    let numbers = searched(alloc, fields, defaults, &asked.fields)?;
    let times = timed(schema, asked.times)?;
    let _query = query_in(alloc, schema, &numbers, &asked.query)?;
    Ok(Deletion {
        text: asked.query.copy(alloc)?,
        fields: searched_paths(alloc, fields, defaults, &asked.fields)?,
        times,
    })
}

/// A request over a schema with these default fields, or its first refusal: UnknownField of `search_field`, `sort_by` and
/// the aggregations, NotFast of `sort_by`, NoTimestampField, the query's, and NotFast and BadInterval of the aggregations.
pub fn resolve(
    alloc: Global,
    schema: &Schema,
    defaults: &[usize],
    request: &Request,
) -> Result<Resolved, Unanswered>
    ensures resolved { Shows spec.view (spec.resolved schema.now defaults.now request.now) result }
    // What it gives can be answered from the index of the schema, whose field for what is not mapped, if it has one, is a
    // list of whole texts, as each schema's is.
    ensures answerable { IfSome schema.now.dynamic (IsDynamic schema.now.fields) →
        IfOk result (λ asked. CanAnswer schema.now (spec.view asked)) }
{
    match request {
        Request::Search(asked) => {
            let search = search_in(alloc, schema, defaults, asked)?;
            Ok(Resolved::Search(search))
        }
        Request::Delete(asked) => {
            let deletion = delete_in(alloc, schema, defaults, asked)?;
            Ok(Resolved::Delete(deletion))
        }
    }
}
