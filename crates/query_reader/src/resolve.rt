// What a query as it is written means over a schema.

ghost use Rattle.std.specs.Prelude.{◌≡◌, IfOk, map, Ok};
ghost use Rattle.query_ast.specs.Sought.{view, view_all, no_more};
ghost use Rattle.query_ast.specs.Sought as sought;
ghost use Rattle.query_reader.specs.Tree.{view_ask, view as tree, trees_after, no_trees};
ghost use Rattle.query_reader.specs.Resolve as spec;

use crate::asked::{asked_of, bad_value, unplaced};
use crate::fault::{Fault, QuerySyntaxError};
use crate::numbers::FieldNumbers;
use crate::reader::read_whole;
use crate::refusal::QueryError;
use crate::texts::text_of;
use crate::tree::{Ask, Clause, Raw};
use crate::unmapped::leaf_clause;
use doc_value::{Field, Schema, Text};
use dynamic_paths::MAX_LEAF_TEXT;
use query_ast::Query;
use std::alloc::{AllocError, Global};

/// The number of the field with this path.
fn number_of(fields: &[Field], path: &Text) -> Option<usize>
    ensures { result ≡ spec.number_of fields.now path.now 0 }
{
    for (number, field) in fields.iter().enumerate() {
        if field.path.as_slice() == path.as_slice() {
            return Some(number);
        }
    }
    None
}

fn is_indexed(fields: &[Field], number: usize) -> bool
    ensures { result ≡ spec.indexed_at fields.now number }
{
    match fields.get(number) {
        Some(field) => field.indexed,
        None => true,
    }
}

fn are_indexed(fields: &[Field], numbers: &[usize]) -> bool
    ensures { result ≡ spec.all_indexed fields.now numbers.now }
{
    for number in numbers {
        if !is_indexed(fields, *number) {
            return false;
        }
    }
    true
}

fn bad_at(
    alloc: Global,
    fields: &[Field],
    text: &[u8],
    ask: &Ask,
    number: usize,
) -> Result<Option<usize>, AllocError>
    ensures { IfOk result (λ o. o ≡ spec.bad_at fields.now text.now (view_ask ask.now) number) }
{
    match fields.get(number) {
        Some(field) => bad_value(alloc, text, ask, field),
        None => Ok(None),
    }
}

fn first_bad(
    alloc: Global,
    fields: &[Field],
    text: &[u8],
    ask: &Ask,
    numbers: &[usize],
) -> Result<Option<usize>, AllocError>
    ensures { IfOk result (λ o. o ≡ spec.first_bad fields.now text.now (view_ask ask.now) numbers.now) }
{
    for number in numbers {
        if let Some(at) = bad_at(alloc, fields, text, ask, *number)? {
            return Ok(Some(at));
        }
    }
    Ok(None)
}

fn unplaced_at(
    alloc: Global,
    fields: &[Field],
    text: &[u8],
    ask: &Ask,
    number: usize,
) -> Result<Option<usize>, AllocError>
    ensures { IfOk result (λ o. o ≡ spec.unplaced_at fields.now text.now (view_ask ask.now) number) }
{
    match fields.get(number) {
        Some(field) => unplaced(alloc, text, ask, field),
        None => Ok(None),
    }
}

fn first_unplaced(
    alloc: Global,
    fields: &[Field],
    text: &[u8],
    ask: &Ask,
    numbers: &[usize],
) -> Result<Option<usize>, AllocError>
    ensures { IfOk result (λ o. o ≡ spec.first_unplaced fields.now text.now (view_ask ask.now) numbers.now) }
{
    for number in numbers {
        if let Some(at) = unplaced_at(alloc, fields, text, ask, *number)? {
            return Ok(Some(at));
        }
    }
    Ok(None)
}

fn asked_at(
    alloc: Global,
    fields: &[Field],
    text: &[u8],
    ask: &Ask,
    number: usize,
) -> Result<Query, AllocError>
    ensures { IfOk result (λ q. view q ≡ spec.asked_at fields.now text.now (view_ask ask.now) number) }
{
    match fields.get(number) {
        Some(field) => asked_of(alloc, text, ask, number, field),
        None => Ok(Query::Nothing),
    }
}

fn asked_each(
    alloc: Global,
    fields: &[Field],
    text: &[u8],
    ask: &Ask,
    numbers: &[usize],
) -> Result<Vec<Query>, AllocError>
    ensures { IfOk result (λ v. view_all v.items ≡ spec.asked_after fields.now text.now no_more (view_ask ask.now) numbers.now) }
{
    let mut queries = Vec::new(alloc);
    for number in numbers {
        let query = asked_at(alloc, fields, text, ask, *number)?;
        queries.push(query)?;
    }
    Ok(queries)
}

fn and_of(queries: Vec<Query>) -> Query
    ensures { view result ≡ sought.And (view_all queries.items) }
{
    Query::And(queries)
}

fn or_of(queries: Vec<Query>) -> Query
    ensures { view result ≡ sought.Or (view_all queries.items) }
{
    Query::Or(queries)
}

/// The Or over the fields that a clause asks, or the one question where there is one.
fn over_fields(mut queries: Vec<Query>, at: usize) -> Result<Query, QueryError>
    ensures { spec.Gives view (spec.over_fields (view_all queries.items) at) result }
{
    let list = queries.as_slice();
    let count = list.len();
    if count == 0 {
        return Err(QueryError::NoDefaultField { at });
    }
    if count == 1 {
        return Ok(queries.remove(0));
    }
    Ok(or_of(queries))
}

/// A clause over some fields.
fn clause_of(
    alloc: Global,
    fields: &[Field],
    text: &[u8],
    ask: &Ask,
    at: usize,
    numbers: &[usize],
) -> Result<Query, QueryError>
    ensures { spec.Gives view (spec.clause_of fields.now text.now (view_ask ask.now) at numbers.now) result }
{
    if !are_indexed(fields, numbers) {
        return Err(QueryError::NotIndexed { at });
    }
    if let Some(place) = first_bad(alloc, fields, text, ask, numbers)? {
        return Err(QueryError::BadValue { at: place });
    }
    if let Some(place) = first_unplaced(alloc, fields, text, ask, numbers)? {
        return Err(QueryError::NoPositions { at: place });
    }
    let queries = asked_each(alloc, fields, text, ask, numbers)?;
    over_fields(queries, at)
}

/// The first byte of the value, or of the clause where there is no value.
fn first_byte(ask: &Ask, clause: usize) -> usize
    ensures { result ≡ spec.first_byte (view_ask ask.now) clause }
{
    match ask {
        Ask::Any => clause,
        Ask::Word(span) => span.from,
        Ask::Prefix(span) => span.from,
        Ask::Quoted(span) => span.from.saturating_sub(1),
        Ask::Within(from, _) => *from,
        Ask::OneOf(from, _) => *from,
    }
}

/// A clause on a path that no field has.
fn unnamed_clause(
    alloc: Global,
    schema: &Schema,
    text: &[u8],
    path: Text,
    ask: &Ask,
) -> Result<Query, QueryError>
    ensures { spec.Gives view (spec.unnamed_clause text.now path schema.now.dynamic (view_ask ask.now)) result }
{
    match schema.dynamic {
        Some(number) if path.as_slice().len() <= MAX_LEAF_TEXT => {
            leaf_clause(alloc, text, &path, ask, number)
        }
        Some(_) => overlong_clause(alloc, ask),
        None => Err(QueryError::UnknownField { name: path }),
    }
}

/// A clause on a path so long that no text is kept under it: nothing matches. Each member of a set would take as much memory.
fn overlong_clause(alloc: Global, ask: &Ask) -> Result<Query, QueryError>
    ensures { spec.Gives view (spec.overlong_clause (view_ask ask.now)) result }
{
    match ask {
        Ask::Within(from, _) => Err(QueryError::BadValue { at: *from }),
        Ask::Any | Ask::Word(_) | Ask::Prefix(_) | Ask::Quoted(_) | Ask::OneOf(_, _) => negated(
            alloc,
            Query::All,
        ),
    }
}

/// A clause over the field that it names, or over the default fields.
fn resolve_clause(
    alloc: Global,
    schema: &Schema,
    defaults: &[usize],
    text: &[u8],
    clause: &Clause,
) -> Result<Query, QueryError>
    ensures { spec.Gives view (spec.resolve_clause schema.now defaults.now text.now clause.now.field (view_ask clause.now.ask)) result }
{
    let fields = schema.fields.as_slice();
    match clause.field {
        Some(span) => {
            let path = text_of(alloc, text, span)?;
            let at = first_byte(&clause.ask, span.from);
            match number_of(fields, &path) {
                Some(number) => clause_of(alloc, fields, text, &clause.ask, at, &[number]),
                None => unnamed_clause(alloc, schema, text, path, &clause.ask),
            }
        }
        None => match clause.ask {
            Ask::Any => Ok(Query::All),
            _ => {
                let at = first_byte(&clause.ask, 0);
                clause_of(alloc, fields, text, &clause.ask, at, defaults)
            }
        },
    }
}

fn negated(alloc: Global, query: Query) -> Result<Query, QueryError>
    ensures { spec.Gives view (Ok (sought.Not (view query))) result }
{
    let inner = Box::new(alloc, query)?;
    Ok(Query::Not(inner))
}

/// What a written query means, or its first refusal from the left.
#[cycle(resolve)]
fn resolve(
    alloc: Global,
    schema: &Schema,
    defaults: &[usize],
    text: &[u8],
    raw: &Raw,
) -> Result<Query, QueryError>
    ensures { spec.Gives view (spec.resolve schema.now defaults.now text.now (tree raw.now)) result }
{
    match raw {
        Raw::Leaf(clause) => resolve_clause(alloc, schema, defaults, text, clause),
        Raw::Group(inner) => resolve(alloc, schema, defaults, text, inner),
        Raw::Not(inner) => match resolve(alloc, schema, defaults, text, inner) {
            Ok(query) => negated(alloc, query),
            Err(refusal) => Err(refusal),
        },
        Raw::And(parts) => match resolve_each(alloc, schema, defaults, text, parts.as_slice()) {
            Ok(queries) => Ok(and_of(queries)),
            Err(refusal) => Err(refusal),
        },
        Raw::Or(parts) => match resolve_each(alloc, schema, defaults, text, parts.as_slice()) {
            Ok(queries) => Ok(or_of(queries)),
            Err(refusal) => Err(refusal),
        },
    }
}

#[cycle(resolve)]
fn resolve_each(
    alloc: Global,
    schema: &Schema,
    defaults: &[usize],
    text: &[u8],
    parts: &[Raw],
) -> Result<Vec<Query>, QueryError>
    ensures { spec.Gives (λ v. view_all v.items) (spec.resolve_after schema.now defaults.now text.now no_more (map tree parts.now)) result }
{
    let mut queries = Vec::new(alloc);
    for part in parts {
        match resolve(alloc, schema, defaults, text, part) {
            Ok(query) => queries.push(query)?,
            Err(refusal) => return Err(refusal),
        }
    }
    Ok(queries)
}

/// Reads a query. A clause without a field asks the default fields, and one on a path that no field has asks the field that
/// holds what is not mapped, where the schema has one.
pub fn read_query(
    alloc: Global,
    schema: &Schema,
    defaults: &FieldNumbers,
    text: &str,
) -> Result<Query, QueryError>
    // What is read is what the text is over the schema, or its refusal, unless memory runs out.
    ensures { spec.Gives view (spec.query_of schema.now defaults.now text.now) result }
{
    match read_whole(alloc, text) {
        Ok(raw) => resolve(alloc, schema, defaults.as_slice(), text.as_bytes(), &raw),
        Err(QuerySyntaxError::Memory) => Err(QueryError::Memory(AllocError)),
        Err(QuerySyntaxError::Refused(Fault::Syntax { at })) => Err(QueryError::Syntax { at }),
        Err(QuerySyntaxError::Refused(Fault::TooDeep { at })) => Err(QueryError::TooDeep { at }),
    }
}
