// Copies of queries.

ghost use Rattle.std.specs.Prelude.{◌≡◌, IfOk, map};
ghost use Rattle.query_ast.specs.Sought.{view, view_all};
ghost use Rattle.query_ast.specs.Sought as sought;

use crate::query::{Edge, Items, Query};
use doc_value::{Replica, Text};
use std::alloc::{AllocError, Global};
use std::mem;

fn and_of(parts: Vec<Query>) -> Query
    ensures { view result ≡ sought.And (view_all parts.items) }
{
    Query::And(parts)
}

fn or_of(parts: Vec<Query>) -> Query
    ensures { view result ≡ sought.Or (view_all parts.items) }
{
    Query::Or(parts)
}

fn copy_word(alloc: Global, field: usize, text: &Text) -> Result<Query, AllocError>
    ensures { IfOk result (λ q. view q ≡ sought.Word field text.now) }
{
    match text.copy(alloc) {
        Ok(text) => Ok(Query::Word { field, text }),
        Err(error) => Err(error),
    }
}

fn copy_quoted(alloc: Global, field: usize, text: &Text) -> Result<Query, AllocError>
    ensures { IfOk result (λ q. view q ≡ sought.Quoted field text.now) }
{
    match text.copy(alloc) {
        Ok(text) => Ok(Query::Quoted { field, text }),
        Err(error) => Err(error),
    }
}

fn copy_prefix(alloc: Global, field: usize, text: &Text) -> Result<Query, AllocError>
    ensures { IfOk result (λ q. view q ≡ sought.Prefix field text.now) }
{
    match text.copy(alloc) {
        Ok(text) => Ok(Query::Prefix { field, text }),
        Err(error) => Err(error),
    }
}

fn copy_range(alloc: Global, field: usize, low: &Edge, high: &Edge) -> Result<Query, AllocError>
    ensures { IfOk result (λ q. view q ≡ sought.Range field low.now high.now) }
{
    let low = low.copy(alloc)?;
    match high.copy(alloc) {
        Ok(high) => Ok(Query::Range { field, low, high }),
        Err(error) => {
            mem::drop(low);
            Err(error)
        }
    }
}

fn copy_set(alloc: Global, field: usize, items: &Items) -> Result<Query, AllocError>
    ensures { IfOk result (λ q. view q ≡ sought.AnyOf field items.now) }
{
    match items.copy(alloc) {
        Ok(items) => Ok(Query::AnyOf { field, items }),
        Err(error) => Err(error),
    }
}

/// A copy of a query in memory of its own: the same query.
#[cycle(copy_query)]
pub fn copy_query(alloc: Global, query: &Query) -> Result<Query, AllocError>
    ensures { IfOk result (λ q. view q ≡ view query.now) }
{
    match query {
        Query::All => Ok(Query::All),
        Query::Nothing => Ok(Query::Nothing),
        Query::Word { field, text } => copy_word(alloc, *field, text),
        Query::Quoted { field, text } => copy_quoted(alloc, *field, text),
        Query::Prefix { field, text } => copy_prefix(alloc, *field, text),
        Query::Exists { field } => Ok(Query::Exists { field: *field }),
        Query::Range { field, low, high } => copy_range(alloc, *field, low, high),
        Query::AnyOf { field, items } => copy_set(alloc, *field, items),
        Query::Not(inner) => Ok(Query::Not(Box::new(alloc, copy_query(alloc, inner)?)?)),
        Query::And(parts) => match copy_queries(alloc, parts.as_slice()) {
            Ok(copies) => Ok(and_of(copies)),
            Err(error) => Err(error),
        },
        Query::Or(parts) => match copy_queries(alloc, parts.as_slice()) {
            Ok(copies) => Ok(or_of(copies)),
            Err(error) => Err(error),
        },
    }
}

/// Copies of queries, in their order.
#[cycle(copy_query)]
pub fn copy_queries(alloc: Global, queries: &[Query]) -> Result<Vec<Query>, AllocError>
    ensures { IfOk result (λ copies. map view copies.items ≡ map view queries.now) }
{
    let mut copies = Vec::new(alloc);
    for query in queries {
        let copy = copy_query(alloc, query)?;
        copies.push(copy)?;
    }
    Ok(copies)
}
