// What a clause asks of one field, and where it is refused.

ghost use Rattle.std.specs.Prelude.{◌≡◌, IfOk, is_some, map, not};
ghost use Rattle.query_ast.specs.Meaning.{is_text};
ghost use Rattle.query_ast.specs.Queries.{has_order};
ghost use Rattle.query_ast.specs.Spelled.{spelled};
ghost use Rattle.query_ast.specs.Sought.{view};
ghost use Rattle.query_ast.specs.Sought as sought;
ghost use Rattle.query_reader.specs.Texts.{text_at, run_at};
ghost use Rattle.query_reader.specs.Tree.{view_ask};
ghost use Rattle.query_reader.specs.Resolve as spec;

use crate::special::{Bound, Compare, Member, Ranged};
use crate::texts::{run_of, text_of};
use crate::tree::{Ask, Span};
use doc_value::{Field, Kind, Text, Value};
use query_ast::{Edge, Item, Items, Query, tokens_of, value_of};
use std::alloc::{AllocError, Global};
use std::mem;

fn is_text_kind(kind: Kind) -> bool
    ensures { result ≡ is_text kind }
{
    matches!(kind, Kind::Text | Kind::TextList)
}

/// Ranges and comparisons are of numbers and datetimes.
fn is_ordered(kind: Kind) -> bool
    ensures { result ≡ has_order kind }
{
    matches!(kind, Kind::I64 | Kind::U64 | Kind::Datetime)
}

fn unless(good: bool, at: usize) -> Option<usize>
    ensures { result ≡ spec.place_unless good at }
{
    if good { None } else { Some(at) }
}

fn first(one: Option<usize>, other: Option<usize>) -> Option<usize>
    ensures { result ≡ spec.first_of one other }
{
    match one {
        Some(at) => Some(at),
        None => other,
    }
}

fn spells(alloc: Global, kind: Kind, text: &Text) -> Result<bool, AllocError>
    ensures { IfOk result (λ b. b ≡ is_some (spelled kind text.now)) }
{
    match value_of(alloc, kind, text.as_str()) {
        Ok(value) => Ok(value.is_some()),
        Err(error) => Err(error),
    }
}

/// The first byte of a member: of a quoted one, its quotation mark.
fn member_byte(member: &Member) -> usize
    ensures { result ≡ spec.member_byte member.now }
{
    if member.quoted {
        member.place.from.saturating_sub(1)
    } else {
        member.place.from
    }
}

/// The place, where the text of a word or a quote is no value of the kind.
fn bad_text(
    alloc: Global,
    text: &[u8],
    kind: Kind,
    span: Span,
    at: usize,
) -> Result<Option<usize>, AllocError>
    ensures { IfOk result (λ o. o ≡ spec.place_unless (is_some (spelled kind (text_at text.now span))) at) }
{
    let value = text_of(alloc, text, span)?;
    match spells(alloc, kind, &value) {
        Ok(good) => Ok(unless(good, at)),
        Err(error) => Err(error),
    }
}

/// The same of a run of an edge, at its first byte.
fn bad_run(alloc: Global, text: &[u8], kind: Kind, span: Span) -> Result<Option<usize>, AllocError>
    ensures { IfOk result (λ o. o ≡ spec.place_unless (is_some (spelled kind (run_at text.now span))) span.from) }
{
    let value = run_of(alloc, text, span)?;
    match spells(alloc, kind, &value) {
        Ok(good) => Ok(unless(good, span.from)),
        Err(error) => Err(error),
    }
}

fn bad_bound(
    alloc: Global,
    text: &[u8],
    kind: Kind,
    bound: Bound,
) -> Result<Option<usize>, AllocError>
    ensures { IfOk result (λ o. o ≡ spec.bad_bound text.now kind bound) }
{
    match bound {
        Bound::Unbounded => Ok(None),
        Bound::Quoted(span) => bad_text(alloc, text, kind, span, span.from.saturating_sub(1)),
        Bound::Run(span) => bad_run(alloc, text, kind, span),
    }
}

fn bad_range(
    alloc: Global,
    text: &[u8],
    kind: Kind,
    ranged: Ranged,
) -> Result<Option<usize>, AllocError>
    ensures { IfOk result (λ o. o ≡ spec.bad_range text.now kind ranged) }
{
    match ranged {
        Ranged::Between { low, high, .. } => {
            let below = bad_bound(alloc, text, kind, low)?;
            let above = bad_bound(alloc, text, kind, high)?;
            Ok(first(below, above))
        }
        Ranged::Compared { bound, .. } => bad_bound(alloc, text, kind, bound),
    }
}

fn bad_members(
    alloc: Global,
    text: &[u8],
    kind: Kind,
    members: &[Member],
) -> Result<Option<usize>, AllocError>
    ensures { IfOk result (λ o. o ≡ spec.bad_members text.now kind members.now) }
{
    for member in members {
        if let Some(at) = bad_text(alloc, text, kind, member.place, member_byte(member))? {
            return Ok(Some(at));
        }
    }
    Ok(None)
}

/// Where a clause has no value of the field.
pub fn bad_value(
    alloc: Global,
    text: &[u8],
    ask: &Ask,
    field: &Field,
) -> Result<Option<usize>, AllocError>
    ensures { IfOk result (λ o. o ≡ spec.bad_value text.now (view_ask ask.now) field.now) }
{
    match ask {
        Ask::Any => Ok(None),
        Ask::Word(span) => bad_text(alloc, text, field.kind, *span, span.from),
        Ask::Prefix(span) => Ok(unless(is_text_kind(field.kind), span.from)),
        Ask::Quoted(span) => bad_text(alloc, text, field.kind, *span, span.from.saturating_sub(1)),
        Ask::Within(from, ranged) => {
            if is_ordered(field.kind) {
                bad_range(alloc, text, field.kind, *ranged)
            } else {
                Ok(Some(*from))
            }
        }
        Ask::OneOf(_, members) => bad_members(alloc, text, field.kind, members.as_slice()),
    }
}

/// Whether a text has several tokens on a text field without positions.
fn lacks_positions(alloc: Global, field: &Field, text: &Text) -> Result<bool, AllocError>
    ensures { IfOk result (λ b. b ≡ spec.is_unplaced field.now text.now) }
{
    if is_text_kind(field.kind) && !field.positions {
        match tokens_of(alloc, field, text.as_str()) {
            Ok(tokens) => Ok(1 < tokens.len()),
            Err(error) => Err(error),
        }
    } else {
        Ok(false)
    }
}

/// The place, where a text needs positions that the field lacks.
fn unplaced_text(
    alloc: Global,
    text: &[u8],
    field: &Field,
    span: Span,
    at: usize,
) -> Result<Option<usize>, AllocError>
    ensures { IfOk result (λ o. o ≡ spec.place_unless (not (spec.is_unplaced field.now (text_at text.now span))) at) }
{
    let value = text_of(alloc, text, span)?;
    match lacks_positions(alloc, field, &value) {
        Ok(lacking) => Ok(unless(!lacking, at)),
        Err(error) => Err(error),
    }
}

fn unplaced_members(
    alloc: Global,
    text: &[u8],
    field: &Field,
    members: &[Member],
) -> Result<Option<usize>, AllocError>
    ensures { IfOk result (λ o. o ≡ spec.unplaced_members text.now field.now members.now) }
{
    for member in members {
        if member.quoted {
            if let Some(at) = unplaced_text(
                alloc,
                text,
                field,
                member.place,
                member_byte(member),
            )? {
                return Ok(Some(at));
            }
        }
    }
    Ok(None)
}

/// Where a clause needs positions that the field lacks.
pub fn unplaced(
    alloc: Global,
    text: &[u8],
    ask: &Ask,
    field: &Field,
) -> Result<Option<usize>, AllocError>
    ensures { IfOk result (λ o. o ≡ spec.unplaced text.now (view_ask ask.now) field.now) }
{
    match ask {
        Ask::Quoted(span) => {
            unplaced_text(alloc, text, field, *span, span.from.saturating_sub(1))
        }
        Ask::OneOf(_, members) => unplaced_members(alloc, text, field, members.as_slice()),
        _ => Ok(None),
    }
}

fn edge_with(closed: bool, value: Option<Value>) -> Edge
    ensures { result ≡ spec.edge_with closed value }
{
    match value {
        None => Edge::Unbounded,
        Some(value) => {
            if closed {
                Edge::Included(value)
            } else {
                Edge::Excluded(value)
            }
        }
    }
}

fn edge_of(
    alloc: Global,
    text: &[u8],
    kind: Kind,
    closed: bool,
    bound: Bound,
) -> Result<Edge, AllocError>
    ensures { IfOk result (λ e. e ≡ spec.edge_of text.now kind closed bound) }
{
    match bound {
        Bound::Unbounded => Ok(Edge::Unbounded),
        Bound::Quoted(span) => {
            let text = text_of(alloc, text, span)?;
            match value_of(alloc, kind, text.as_str()) {
                Ok(value) => Ok(edge_with(closed, value)),
                Err(error) => Err(error),
            }
        }
        Bound::Run(span) => {
            let text = run_of(alloc, text, span)?;
            match value_of(alloc, kind, text.as_str()) {
                Ok(value) => Ok(edge_with(closed, value)),
                Err(error) => Err(error),
            }
        }
    }
}

fn range_of(
    alloc: Global,
    text: &[u8],
    kind: Kind,
    field: usize,
    ranged: Ranged,
) -> Result<Query, AllocError>
    ensures { IfOk result (λ q. view q ≡ spec.range_of text.now kind field ranged) }
{
    match ranged {
        Ranged::Between {
            low_closed,
            low,
            high,
            high_closed,
        } => {
            let low = edge_of(alloc, text, kind, low_closed, low)?;
            match edge_of(alloc, text, kind, high_closed, high) {
                Ok(high) => Ok(Query::Range { field, low, high }),
                Err(error) => {
                    mem::drop(low);
                    Err(error)
                }
            }
        }
        Ranged::Compared { compare, bound } => compared(alloc, text, kind, field, compare, bound),
    }
}

/// The range from an edge on.
fn from_edge(
    alloc: Global,
    text: &[u8],
    kind: Kind,
    field: usize,
    closed: bool,
    bound: Bound,
) -> Result<Query, AllocError>
    ensures { IfOk result (λ q. view q ≡ sought.Range field (spec.edge_of text.now kind closed bound) Edge.Unbounded) }
{
    match edge_of(alloc, text, kind, closed, bound) {
        Ok(low) => Ok(Query::Range {
            field,
            low,
            high: Edge::Unbounded,
        }),
        Err(error) => Err(error),
    }
}

/// The range to an edge.
fn to_edge(
    alloc: Global,
    text: &[u8],
    kind: Kind,
    field: usize,
    closed: bool,
    bound: Bound,
) -> Result<Query, AllocError>
    ensures { IfOk result (λ q. view q ≡ sought.Range field Edge.Unbounded (spec.edge_of text.now kind closed bound)) }
{
    match edge_of(alloc, text, kind, closed, bound) {
        Ok(high) => Ok(Query::Range {
            field,
            low: Edge::Unbounded,
            high,
        }),
        Err(error) => Err(error),
    }
}

fn compared(
    alloc: Global,
    text: &[u8],
    kind: Kind,
    field: usize,
    compare: Compare,
    bound: Bound,
) -> Result<Query, AllocError>
    ensures { IfOk result (λ q. view q ≡ spec.range_of text.now kind field (Ranged.Compared compare bound)) }
{
    match compare {
        Compare::AtLeast => from_edge(alloc, text, kind, field, true, bound),
        Compare::Above => from_edge(alloc, text, kind, field, false, bound),
        Compare::AtMost => to_edge(alloc, text, kind, field, true, bound),
        Compare::Below => to_edge(alloc, text, kind, field, false, bound),
    }
}

fn items_of(alloc: Global, text: &[u8], members: &[Member]) -> Result<Items, AllocError>
    ensures { IfOk result (λ items. items ≡ map (spec.item_of text.now) members.now) }
{
    let mut items = Items::vacant(alloc);
    for member in members {
        let value = text_of(alloc, text, member.place)?;
        items.push(Item {
            text: value,
            quoted: member.quoted,
        })?;
    }
    Ok(items)
}

/// What a clause asks of a field.
pub fn asked_of(
    alloc: Global,
    text: &[u8],
    ask: &Ask,
    number: usize,
    field: &Field,
) -> Result<Query, AllocError>
    ensures { IfOk result (λ q. view q ≡ spec.asked_of text.now (view_ask ask.now) number field.now) }
{
    match ask {
        Ask::Any => Ok(Query::Exists { field: number }),
        Ask::Word(span) => match text_of(alloc, text, *span) {
            Ok(text) => Ok(Query::Word {
                field: number,
                text,
            }),
            Err(error) => Err(error),
        },
        Ask::Prefix(span) => match text_of(alloc, text, *span) {
            Ok(text) => Ok(Query::Prefix {
                field: number,
                text,
            }),
            Err(error) => Err(error),
        },
        Ask::Quoted(span) => match text_of(alloc, text, *span) {
            Ok(text) => Ok(Query::Quoted {
                field: number,
                text,
            }),
            Err(error) => Err(error),
        },
        Ask::Within(_, ranged) => range_of(alloc, text, field.kind, number, *ranged),
        Ask::OneOf(_, members) => Ok(Query::AnyOf {
            field: number,
            items: items_of(alloc, text, members.as_slice())?,
        }),
    }
}
