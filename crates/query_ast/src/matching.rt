// What a query means on a document, the slow plain way.

ghost use Rattle.std.specs.Prelude.{◌≡◌, IfOk, nat_eq, Some, Option, ℤ};
ghost use Rattle.std.specs.List.{starts_with};
ghost use Rattle.query_ast.specs.FieldTokens.{field_tokens};
ghost use Rattle.query_ast.specs.Sought.{view};
ghost use Rattle.query_ast.specs.Sought as sought;
ghost use Rattle.query_ast.specs.Meaning.{same_value, value_below, is_above, is_below, between, equals_some, has_token, has_prefix, has_token_at, stands_at, stands_at_one, first_position, tokens_in, is_text, some_has_token, some_has_prefix, some_has_phrase, each_stands, phrase_holds, quoted_holds, word_holds, item_holds, some_item_holds, meaning, all_in, some_in, from_start, before_end, second_within, some_within, has_time_within, within_times};
ghost use Rattle.doc_value.specs.Documents.{values_in};

use crate::fields::field_at;
use crate::query::{Edge, Item, Query};
use crate::tokens::{folded_prefix, tokens_of};
use crate::values::value_of;
use doc_value::{Doc, DocField, Field, Kind, Schema, TimeRange, Value};
use std::alloc::{AllocError, Global};
use text_tokens::{Token, Tokens};

fn values_of(fields: &[DocField], number: usize) -> &[Value]
    ensures { result.now ≡ values_in fields.now number }
{
    for f in fields {
        if f.number == number {
            return f.values.as_slice();
        }
    }
    &[]
}

fn same(a: &Value, b: &Value) -> bool
    ensures { result ≡ same_value a.now b.now }
{
    match (a, b) {
        (Value::Text(a), Value::Text(b)) => a.as_str() == b.as_str(),
        (Value::I64(a), Value::I64(b)) => a <= b && b <= a,
        (Value::U64(a), Value::U64(b)) => a == b,
        (Value::Bool(false), Value::Bool(b)) => !*b,
        (Value::Bool(true), Value::Bool(b)) => *b,
        (Value::Datetime(a), Value::Datetime(b)) => a <= b && b <= a,
        _ => false,
    }
}

fn is_less(a: &Value, b: &Value) -> bool
    ensures { result ≡ value_below a.now b.now }
{
    match (a, b) {
        (Value::I64(a), Value::I64(b)) => a < b,
        (Value::U64(a), Value::U64(b)) => a < b,
        (Value::Datetime(a), Value::Datetime(b)) => a < b,
        _ => false,
    }
}

fn lies_above(edge: &Edge, v: &Value) -> bool
    ensures { result ≡ is_above edge.now v.now }
{
    match edge {
        Edge::Unbounded => true,
        Edge::Included(e) => is_less(e, v) || same(e, v),
        Edge::Excluded(e) => is_less(e, v),
    }
}

fn lies_below(edge: &Edge, v: &Value) -> bool
    ensures { result ≡ is_below edge.now v.now }
{
    match edge {
        Edge::Unbounded => true,
        Edge::Included(e) => is_less(v, e) || same(v, e),
        Edge::Excluded(e) => is_less(v, e),
    }
}

fn some_between(low: &Edge, high: &Edge, values: &[Value]) -> bool
    ensures { result ≡ between low.now high.now values.now }
{
    for v in values {
        if lies_above(low, v) && lies_below(high, v) {
            return true;
        }
    }
    false
}

fn some_equals(wanted: &Option<Value>, values: &[Value]) -> bool
    ensures { result ≡ equals_some wanted.now values.now }
{
    match wanted {
        None => false,
        Some(w) => some_same(w, values),
    }
}

fn some_same(wanted: &Value, values: &[Value]) -> bool
    ensures { result ≡ equals_some (Some wanted.now) values.now }
{
    for v in values {
        if same(v, wanted) {
            return true;
        }
    }
    false
}

fn contains(tokens: &[Token], text: &str) -> bool
    ensures { result ≡ has_token text.now (tokens.now) }
{
    for t in tokens {
        if t.text.as_str() == text {
            return true;
        }
    }
    false
}

fn begins(text: &str, front: &str) -> bool
    ensures { result ≡ starts_with nat_eq text.now front.now }
{
    text.as_bytes().starts_with(front.as_bytes())
}

fn contains_prefix(tokens: &[Token], text: &str) -> bool
    ensures { result ≡ has_prefix text.now (tokens.now) }
{
    for t in tokens {
        if begins(t.text.as_str(), text) {
            return true;
        }
    }
    false
}

fn contains_at(tokens: &[Token], text: &str, shift: u128, from: usize) -> bool
    ensures { result ≡ has_token_at text.now shift from (tokens.now) }
{
    for t in tokens {
        if t.text.as_str() == text && t.position as u128 + from as u128 == shift {
            return true;
        }
    }
    false
}

fn all_stand_at(phrase: &[Token], start: usize, from: usize, tokens: &[Token]) -> bool
    ensures { result ≡ stands_at (phrase.now) start from (tokens.now) }
{
    for t in phrase {
        if !contains_at(
            tokens,
            t.text.as_str(),
            start as u128 + t.position as u128,
            from,
        ) {
            return false;
        }
    }
    true
}

fn contains_phrase(phrase: &[Token], from: usize, tokens: &[Token]) -> bool
    ensures { result ≡ stands_at_one (phrase.now) from (tokens.now) (tokens.now) }
{
    for t in tokens {
        if all_stand_at(phrase, t.position, from, tokens) {
            return true;
        }
    }
    false
}

fn value_tokens(alloc: Global, field: &Field, value: &Value) -> Result<Tokens, AllocError>
    ensures { IfOk result (λ v. v ≡ tokens_in field.now value.now) }
{
    match value {
        Value::Text(text) => tokens_of(alloc, field, text.as_str()),
        _ => Ok(Tokens::vacant(alloc)),
    }
}

fn some_contains(
    alloc: Global,
    field: &Field,
    text: &str,
    values: &[Value],
) -> Result<bool, AllocError>
    ensures { IfOk result (λ b. b ≡ some_has_token field.now text.now values.now) }
{
    for v in values {
        let tokens = value_tokens(alloc, field, v)?;
        if contains(tokens.as_slice(), text) {
            return Ok(true);
        }
    }
    Ok(false)
}

fn some_contains_prefix(
    alloc: Global,
    field: &Field,
    text: &str,
    values: &[Value],
) -> Result<bool, AllocError>
    ensures { IfOk result (λ b. b ≡ some_has_prefix field.now text.now values.now) }
{
    for v in values {
        let tokens = value_tokens(alloc, field, v)?;
        if contains_prefix(tokens.as_slice(), text) {
            return Ok(true);
        }
    }
    Ok(false)
}

fn some_contains_phrase(
    alloc: Global,
    field: &Field,
    phrase: &[Token],
    from: usize,
    values: &[Value],
) -> Result<bool, AllocError>
    requires { from ≡ first_position (phrase.now) }
    ensures { IfOk result (λ b. b ≡ some_has_phrase field.now (phrase.now) values.now) }
{
    for v in values {
        let tokens = value_tokens(alloc, field, v)?;
        if contains_phrase(phrase, from, tokens.as_slice()) {
            return Ok(true);
        }
    }
    Ok(false)
}

fn each_is_contained(
    alloc: Global,
    field: &Field,
    phrase: &[Token],
    values: &[Value],
) -> Result<bool, AllocError>
    ensures { IfOk result (λ b. b ≡ each_stands field.now (phrase.now) values.now) }
{
    for t in phrase {
        match some_contains(alloc, field, t.text.as_str(), values) {
            Ok(true) => {}
            Ok(false) => return Ok(false),
            Err(error) => return Err(error),
        }
    }
    Ok(true)
}

fn holds_phrase(
    alloc: Global,
    field: &Field,
    phrase: &[Token],
    values: &[Value],
) -> Result<bool, AllocError>
    ensures { IfOk result (λ b. b ≡ phrase_holds field.now (phrase.now) values.now) }
{
    match phrase {
        [] => Ok(false),
        [only] => some_contains(alloc, field, only.text.as_str(), values),
        [first, ..] => { some_contains_phrase(alloc, field, phrase, first.position, values) }
    }
}

fn has_kind_of_text(field: &Field) -> bool
    ensures { result ≡ is_text field.now.kind }
{
    matches!(field.kind, Kind::Text | Kind::TextList)
}

fn holds_quoted(
    alloc: Global,
    field: &Field,
    text: &str,
    values: &[Value],
) -> Result<bool, AllocError>
    ensures { IfOk result (λ b. b ≡ quoted_holds field.now text.now values.now) }
{
    if has_kind_of_text(field) {
        match tokens_of(alloc, field, text) {
            Ok(phrase) => holds_phrase(alloc, field, phrase.as_slice(), values),
            Err(error) => Err(error),
        }
    } else {
        match value_of(alloc, field.kind, text) {
            Ok(wanted) => Ok(some_equals(&wanted, values)),
            Err(error) => Err(error),
        }
    }
}

fn holds_word(
    alloc: Global,
    field: &Field,
    text: &str,
    values: &[Value],
) -> Result<bool, AllocError>
    ensures { IfOk result (λ b. b ≡ word_holds field.now text.now values.now) }
{
    if has_kind_of_text(field) && !field.positions {
        let phrase = tokens_of(alloc, field, text)?;
        if phrase.len() == 0 {
            return Ok(false);
        }
        each_is_contained(alloc, field, phrase.as_slice(), values)
    } else {
        holds_quoted(alloc, field, text, values)
    }
}

fn holds_item(
    alloc: Global,
    field: &Field,
    values: &[Value],
    item: &Item,
) -> Result<bool, AllocError>
    ensures { IfOk result (λ b. b ≡ item_holds field.now values.now item.now) }
{
    if item.quoted {
        holds_quoted(alloc, field, item.text.as_str(), values)
    } else {
        holds_word(alloc, field, item.text.as_str(), values)
    }
}

fn holds_some_item(
    alloc: Global,
    field: &Field,
    values: &[Value],
    items: &[Item],
) -> Result<bool, AllocError>
    ensures { IfOk result (λ b. b ≡ some_item_holds field.now values.now items.now) }
{
    for item in items {
        match holds_item(alloc, field, values, item) {
            Ok(true) => return Ok(true),
            Ok(false) => {}
            Err(error) => return Err(error),
        }
    }
    Ok(false)
}

/// Whether the document meets a word of the field.
fn meets_word(
    alloc: Global,
    schema: &Schema,
    field: usize,
    text: &str,
    doc: &Doc,
) -> Result<bool, AllocError>
    ensures { IfOk result (λ b. b ≡ meaning schema.now doc.now (sought.Word field text.now)) }
{
    match field_at(schema, field) {
        Some(f) => holds_word(alloc, f, text, values_of(doc.as_slice(), field)),
        None => Ok(false),
    }
}

/// Whether the document meets a quoted text of the field.
fn meets_quoted(
    alloc: Global,
    schema: &Schema,
    field: usize,
    text: &str,
    doc: &Doc,
) -> Result<bool, AllocError>
    ensures { IfOk result (λ b. b ≡ meaning schema.now doc.now (sought.Quoted field text.now)) }
{
    match field_at(schema, field) {
        Some(f) => holds_quoted(alloc, f, text, values_of(doc.as_slice(), field)),
        None => Ok(false),
    }
}

/// Whether the document meets a prefix of the field.
fn meets_prefix(
    alloc: Global,
    schema: &Schema,
    field: usize,
    text: &str,
    doc: &Doc,
) -> Result<bool, AllocError>
    ensures { IfOk result (λ b. b ≡ meaning schema.now doc.now (sought.Prefix field text.now)) }
{
    match field_at(schema, field) {
        Some(f) => {
            let front = folded_prefix(alloc, f, text)?;
            some_contains_prefix(alloc, f, front.as_str(), values_of(doc.as_slice(), field))
        }
        None => Ok(false),
    }
}

/// Whether the document meets a set of the field.
fn meets_set(
    alloc: Global,
    schema: &Schema,
    field: usize,
    items: &[Item],
    doc: &Doc,
) -> Result<bool, AllocError>
    ensures { IfOk result (λ b. b ≡ meaning schema.now doc.now (sought.AnyOf field items.now)) }
{
    match field_at(schema, field) {
        Some(f) => holds_some_item(alloc, f, values_of(doc.as_slice(), field), items),
        None => Ok(false),
    }
}

/// Whether the document meets the query.
#[cycle(matches)]
pub fn matches(alloc: Global, schema: &Schema, query: &Query, doc: &Doc) -> Result<bool, AllocError>
    ensures { IfOk result (λ b. b ≡ meaning schema.now doc.now (view query.now)) }
{
    match query {
        Query::All => Ok(true),
        Query::Nothing => Ok(false),
        Query::Word { field, text } => meets_word(alloc, schema, *field, text.as_str(), doc),
        Query::Quoted { field, text } => meets_quoted(alloc, schema, *field, text.as_str(), doc),
        Query::Prefix { field, text } => meets_prefix(alloc, schema, *field, text.as_str(), doc),
        Query::Exists { field } => Ok(!values_of(doc.as_slice(), *field).is_empty()),
        Query::Range { field, low, high } => {
            Ok(some_between(low, high, values_of(doc.as_slice(), *field)))
        }
        Query::AnyOf { field, items } => meets_set(alloc, schema, *field, items.as_slice(), doc),
        Query::Not(inner) => match matches(alloc, schema, inner, doc) {
            Ok(holds) => Ok(!holds),
            Err(error) => Err(error),
        },
        Query::And(parts) => all_match(alloc, schema, parts.as_slice(), doc),
        Query::Or(parts) => some_match(alloc, schema, parts.as_slice(), doc),
    }
}

#[cycle(matches)]
fn all_match(alloc: Global, schema: &Schema, parts: &[Query], doc: &Doc) -> Result<bool, AllocError>
    ensures { IfOk result (λ b. b ≡ all_in schema.now doc.now parts.now) }
{
    for part in parts {
        match matches(alloc, schema, part, doc) {
            Ok(true) => {}
            Ok(false) => return Ok(false),
            Err(error) => return Err(error),
        }
    }
    Ok(true)
}

#[cycle(matches)]
fn some_match(
    alloc: Global,
    schema: &Schema,
    parts: &[Query],
    doc: &Doc,
) -> Result<bool, AllocError>
    ensures { IfOk result (λ b. b ≡ some_in schema.now doc.now parts.now) }
{
    for part in parts {
        match matches(alloc, schema, part, doc) {
            Ok(true) => return Ok(true),
            Ok(false) => {}
            Err(error) => return Err(error),
        }
    }
    Ok(false)
}

/// Whether the second is not before the start.
fn is_from(start: Option<i64>, second: i64) -> bool
    ensures { result ≡ from_start start second }
{
    match start {
        Some(start) => start <= second,
        None => true,
    }
}

/// Whether the second is before the end.
fn is_before(end: Option<i64>, second: i64) -> bool
    ensures { result ≡ before_end end second }
{
    match end {
        Some(end) => second < end,
        None => true,
    }
}

fn is_within(times: &TimeRange, value: &Value) -> bool
    ensures { result ≡ second_within times.now value.now }
{
    match value {
        Value::Datetime(second) => is_from(times.start, *second) && is_before(times.end, *second),
        _ => false,
    }
}

fn some_are_within(times: &TimeRange, values: &[Value]) -> bool
    ensures { result ≡ some_within times.now values.now }
{
    for value in values {
        if is_within(times, value) {
            return true;
        }
    }
    false
}

/// Whether a document lies in a range of times: the range has neither edge, or the document has a value of the
/// timestamp field from the start on and before the end, as far as they stand.
pub fn lies_in(schema: &Schema, times: &TimeRange, doc: &Doc) -> bool
    ensures { result ≡ within_times schema.now times.now doc.now }
{
    match (times.start, times.end) {
        (None, None) => true,
        _ => match schema.timestamp {
            Some(number) => some_are_within(times, values_of(doc.as_slice(), number)),
            None => false,
        },
    }
}
