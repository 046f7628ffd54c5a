// Whether a document with some tag facts can meet a query.

ghost use Rattle.std.specs.Prelude.{◌≡◌, List, false, option_map};
ghost use Rattle.query_ast.specs.Meaning.{meaning};
ghost use Rattle.query_ast.specs.Sought.{view};
ghost use Rattle.query_ast.specs.Pruning.{is_listed, has_listed, signed_term, unsigned_term, truth_term, term_of, allows, allowed, is_looked_up, has_list, can_equal, some_can_equal, can_be_among, can_match, all_can_in, some_can_in, AreFactsOf};
ghost use Rattle.doc_value.specs.declared.doc.DocField.{DocField};

use crate::fields::field_at;
use crate::query::{Item, Query};
use crate::values::{datetime, signed, truth, unsigned};
use doc_value::{Bytes, Field, FieldTags, Kind, Schema, TagFacts, Tags, Tokenizer, turned};

fn contains_term(terms: &[Bytes], bytes: &[u8]) -> bool
    ensures { result ≡ is_listed bytes.now terms.now }
{
    for term in terms {
        if term.as_slice() == bytes {
            return true;
        }
    }
    false
}

fn contains_signed(terms: &[Bytes], number: Option<i64>) -> bool
    ensures { result ≡ has_listed (option_map signed_term number) terms.now }
{
    match number {
        Some(number) => contains_term(terms, &turned(number).to_be_bytes()),
        None => false,
    }
}

fn contains_unsigned(terms: &[Bytes], number: Option<u64>) -> bool
    ensures { result ≡ has_listed (option_map unsigned_term number) terms.now }
{
    match number {
        Some(number) => contains_term(terms, &number.to_be_bytes()),
        None => false,
    }
}

fn contains_truth(terms: &[Bytes], truth: Option<bool>) -> bool
    ensures { result ≡ has_listed (option_map truth_term truth) terms.now }
{
    match truth {
        Some(truth) => contains_term(terms, &[u8::from(truth)]),
        None => false,
    }
}

/// Whether the term of the value that the text spells is listed.
fn contains_value(terms: &[Bytes], kind: Kind, text: &str) -> bool
    ensures { result ≡ has_listed (term_of kind text.now) terms.now }
{
    match kind {
        Kind::Text | Kind::TextList => contains_term(terms, text.as_bytes()),
        Kind::I64 => contains_signed(terms, signed(text.as_bytes())),
        Kind::U64 => contains_unsigned(terms, unsigned(text.as_bytes())),
        Kind::Bool => contains_truth(terms, truth(text.as_bytes())),
        Kind::Datetime => contains_signed(terms, datetime(text)),
    }
}

fn tags_allow(tags: &Tags, kind: Kind, text: &str) -> bool
    ensures { result ≡ allows tags.now (term_of kind text.now) }
{
    match tags {
        Tags::Many => true,
        Tags::Listed(terms) => contains_value(terms.as_slice(), kind, text),
    }
}

fn facts_allow(facts: &[FieldTags], number: usize, kind: Kind, text: &str) -> bool
    ensures { result ≡ allowed facts.now number (term_of kind text.now) }
{
    for field in facts {
        if field.number == number {
            return tags_allow(&field.tags, kind, text);
        }
    }
    true
}

/// A tag field is looked up, unless its texts are cut into tokens.
fn is_looked_up(field: &Field) -> bool
    ensures { result ≡ is_looked_up field.now }
{
    field.tag
        && (matches!(field.tokenizer, Tokenizer::Raw)
            || !matches!(field.kind, Kind::Text | Kind::TextList))
}

fn may_equal(schema: &Schema, facts: &[FieldTags], number: usize, text: &str) -> bool
    ensures { result ≡ can_equal schema.now facts.now number text.now }
{
    match field_at(schema, number) {
        Some(field) => {
            if is_looked_up(field) {
                facts_allow(facts, number, field.kind, text)
            } else {
                true
            }
        }
        None => true,
    }
}

fn some_may_equal(schema: &Schema, facts: &[FieldTags], number: usize, items: &[Item]) -> bool
    ensures { result ≡ some_can_equal schema.now facts.now number items.now }
{
    for item in items {
        if may_equal(schema, facts, number, item.text.as_str()) {
            return true;
        }
    }
    false
}

fn lists_values(facts: &[FieldTags], number: usize) -> bool
    ensures { result ≡ has_list facts.now number }
{
    for field in facts {
        if field.number == number {
            return matches!(field.tags, Tags::Listed(_));
        }
    }
    false
}

fn may_be_among(schema: &Schema, facts: &[FieldTags], number: usize, items: &[Item]) -> bool
    ensures { result ≡ can_be_among schema.now facts.now number items.now }
{
    match field_at(schema, number) {
        Some(field) => {
            if is_looked_up(field) && lists_values(facts, number) {
                some_may_equal(schema, facts, number, items)
            } else {
                true
            }
        }
        None => true,
    }
}

/// Whether a document with these tag facts may meet the query. It looks at words, quoted texts and sets on tag fields
/// whose values the facts list: the term of the value that a text spells stands among the listed ones. Of fields whose
/// texts are cut into tokens, and of anything else, it knows nothing.
pub fn possible(schema: &Schema, query: &Query, tags: &TagFacts) -> bool
    ensures rule { result ≡ can_match schema.now tags.now (view query.now) }
    // Where it is false, no document with those tag facts matches.
    ensures none { result ≡ false → (doc : List DocField) → AreFactsOf tags.now doc → meaning schema.now doc (view query.now) ≡ false }
{
    may_match(schema, tags.as_slice(), query)
}

#[cycle(may_match)]
fn may_match(schema: &Schema, facts: &[FieldTags], query: &Query) -> bool
    ensures { result ≡ can_match schema.now facts.now (view query.now) }
{
    match query {
        Query::Word { field, text } => may_equal(schema, facts, *field, text.as_str()),
        Query::Quoted { field, text } => may_equal(schema, facts, *field, text.as_str()),
        Query::AnyOf { field, items } => may_be_among(schema, facts, *field, items.as_slice()),
        Query::And(parts) => all_may_match(schema, facts, parts.as_slice()),
        Query::Or(parts) => some_may_match(schema, facts, parts.as_slice()),
        _ => true,
    }
}

#[cycle(may_match)]
fn all_may_match(schema: &Schema, facts: &[FieldTags], parts: &[Query]) -> bool
    ensures { result ≡ all_can_in schema.now facts.now parts.now }
{
    for part in parts {
        if !may_match(schema, facts, part) {
            return false;
        }
    }
    true
}

#[cycle(may_match)]
fn some_may_match(schema: &Schema, facts: &[FieldTags], parts: &[Query]) -> bool
    ensures { result ≡ some_can_in schema.now facts.now parts.now }
{
    for part in parts {
        if may_match(schema, facts, part) {
            return true;
        }
    }
    false
}
