// The text of a query.

ghost use Rattle.std.specs.Prelude.{◌≡◌, ◌++◌, ◌∷◌, ◌||◌, [], ◌↔◌, IsTrue, IfOk, OnOk, not};
ghost use Rattle.std.specs.Prelude.{if◌then◌else◌};
ghost use Rattle.clock_time.specs.Datetimes.{IsTimestampSecond};
ghost use Rattle.query_ast.specs.Sought.{view, view_all};
ghost use Rattle.query_reader.specs.Kinds.{kind_of};
ghost use Rattle.query_reader.specs.Printed as spec;

use crate::kind::{Kind, Said, byte_kind, is_in, what_is_said};
use crate::texts::as_text;
use clock_time::print_rfc3339;
use doc_value::{Field, Schema, Text, Value};
use query_ast::{Edge, Item, Items, Query};
use std::alloc::{AllocError, Global};

/// Whether a byte stands behind a backslash, in a quote or in a word.
fn hides(quoted: bool, byte: u8) -> bool
    ensures { result ≡ (if quoted then spec.hides_in_quote byte else spec.hides_in_word byte) }
{
    let kind = byte_kind(byte);
    if quoted {
        matches!(kind, Kind::Quote | Kind::Escape)
    } else {
        !matches!(kind, Kind::Plain | Kind::Angle | Kind::Minus)
    }
}

/// A byte, behind a backslash where it is hidden.
fn push_byte(out: &mut Vec<u8>, hidden: bool, byte: u8) -> Result<(), AllocError>
    ensures { OnOk result (out.new.items ≡ out.old.items ++ (if hidden then 92 ∷ byte ∷ [] else byte ∷ [])) }
{
    if hidden {
        out.push(b'\\')?;
    }
    out.push(byte)?;
    Ok(())
}

/// A text with backslashes, in a quote.
fn push_quoted(out: &mut Vec<u8>, text: &[u8]) -> Result<(), AllocError>
    ensures { OnOk result (out.new.items ≡ out.old.items ++ spec.hiding spec.hides_in_quote text.now) }
{
    for byte in text {
        push_byte(out, hides(true, *byte), *byte)?;
    }
    Ok(())
}

/// A text with backslashes, in a word.
fn push_escaped(out: &mut Vec<u8>, text: &[u8]) -> Result<(), AllocError>
    ensures { OnOk result (out.new.items ≡ out.old.items ++ spec.hiding spec.hides_in_word text.now) }
{
    for byte in text {
        push_byte(out, hides(false, *byte), *byte)?;
    }
    Ok(())
}

#[tactic(auto, unfolding(crate::specs::Kinds::said, crate::specs::Kinds::names_set))]
fn is_keyword(text: &[u8]) -> bool
    ensures { result ≡ spec.is_keyword text.now }
{
    match what_is_said(true, text) {
        Said::SaidWord => is_in(text),
        _ => true,
    }
}

/// Whether the first byte of a word stands behind a backslash.
fn hides_first(word: &[u8], first: u8) -> bool
    ensures { result ≡ (spec.is_keyword word.now || not (spec.is_plain_kind (kind_of first))) }
{
    is_keyword(word) || byte_kind(first) != Kind::Plain
}

fn push_word(out: &mut Vec<u8>, text: &[u8]) -> Result<(), AllocError>
    ensures { OnOk result (out.new.items ≡ out.old.items ++ spec.word_text text.now) }
{
    match text {
        [] => Ok(()),
        [first, rest @ ..] => {
            push_byte(out, hides_first(text, *first), *first)?;
            push_escaped(out, rest)
        }
    }
}

/// A word as it is printed.
fn word_of(alloc: Global, text: &str) -> Result<Text, AllocError>
    ensures { IfOk result (λ t. t ≡ spec.word_text text.now) }
{
    let mut bytes = Vec::new(alloc);
    push_word(&mut bytes, text.as_bytes())?;
    as_text(alloc, bytes.as_slice())
}

/// A text in quotation marks.
fn quote_of(alloc: Global, text: &str) -> Result<Text, AllocError>
    ensures { IfOk result (λ t. t ≡ spec.quote_text text.now) }
{
    let mut bytes = Vec::new(alloc);
    bytes.push(b'"')?;
    push_quoted(&mut bytes, text.as_bytes())?;
    bytes.push(b'"')?;
    as_text(alloc, bytes.as_slice())
}

/// Whether the digits of a second read back as that second.
fn is_plain(seconds: i64) -> bool
    ensures { IsTrue result ↔ spec.IsPlainSecond seconds }
{
    0 <= seconds && seconds <= 8_589_934_591
}

/// Whether a datetime has the second.
fn is_dated(seconds: i64) -> bool
    ensures { IsTrue result ↔ IsTimestampSecond seconds }
{
    -377_705_023_201 <= seconds && seconds <= 253_402_207_200
}

/// A second as it is printed.
fn second_of(alloc: Global, seconds: i64) -> Result<Text, AllocError>
    ensures { IfOk result (λ t. spec.IsSecondText seconds t) }
{
    if is_plain(seconds) {
        return Ok(Text::from_string(seconds.to_string(alloc)?));
    }
    if is_dated(seconds) {
        let date = print_rfc3339(alloc, seconds)?;
        return quote_of(alloc, date.as_str());
    }
    Ok(Text::from_string(seconds.to_string(alloc)?))
}

/// Some bytes of the text.
fn push_piece(out: &mut Text, piece: &str) -> Result<(), AllocError>
    ensures { OnOk result (spec.Appends out.old out.new (spec.Piece.Written piece.now ∷ [])) }
{
    out.extend(piece)
}

fn push_value(alloc: Global, out: &mut Text, value: &Value) -> Result<(), AllocError>
    ensures { OnOk result (spec.Appends out.old out.new (spec.value_pieces value.now)) }
{
    match value {
        Value::Text(text) => push_piece(out, text.as_str()),
        Value::I64(number) => push_piece(out, number.to_string(alloc)?.as_str()),
        Value::U64(number) => push_piece(out, number.to_string(alloc)?.as_str()),
        Value::Bool(true) => push_piece(out, "true"),
        Value::Bool(false) => push_piece(out, "false"),
        Value::Datetime(seconds) => push_second(alloc, out, *seconds),
    }
}

fn push_second(alloc: Global, out: &mut Text, seconds: i64) -> Result<(), AllocError>
    ensures { OnOk result (spec.Appends out.old out.new (spec.Piece.Second seconds ∷ [])) }
{
    let second = second_of(alloc, seconds)?;
    out.extend(second.as_str())
}

fn push_edge(alloc: Global, out: &mut Text, edge: &Edge) -> Result<(), AllocError>
    ensures { OnOk result (spec.Appends out.old out.new (spec.edge_pieces edge.now)) }
{
    match edge {
        Edge::Unbounded => push_piece(out, "*"),
        Edge::Included(value) => push_value(alloc, out, value),
        Edge::Excluded(value) => push_value(alloc, out, value),
    }
}

fn opening(low: &Edge) -> &str
    ensures { result.now ≡ spec.opening low.now }
{
    match low {
        Edge::Excluded(_) => "{",
        _ => "[",
    }
}

fn closing(high: &Edge) -> &str
    ensures { result.now ≡ spec.closing high.now }
{
    match high {
        Edge::Excluded(_) => "}",
        _ => "]",
    }
}

fn push_range(alloc: Global, out: &mut Text, low: &Edge, high: &Edge) -> Result<(), AllocError>
    ensures { OnOk result (spec.Appends out.old out.new (spec.range_pieces low.now high.now)) }
{
    push_piece(out, opening(low))?;
    push_edge(alloc, out, low)?;
    push_piece(out, " TO ")?;
    push_edge(alloc, out, high)?;
    push_piece(out, closing(high))
}

fn item_of(alloc: Global, item: &Item) -> Result<Text, AllocError>
    ensures { IfOk result (λ t. t ≡ spec.item_text item.now) }
{
    if item.quoted {
        quote_of(alloc, item.text.as_str())
    } else {
        word_of(alloc, item.text.as_str())
    }
}

fn push_item(alloc: Global, out: &mut Text, item: &Item) -> Result<(), AllocError>
    ensures { OnOk result (out.new ≡ out.old ++ spec.item_text item.now) }
{
    let text = item_of(alloc, item)?;
    out.extend(text.as_str())
}

fn push_items(alloc: Global, out: &mut Text, items: &[Item]) -> Result<(), AllocError>
    ensures { OnOk result (out.new ≡ out.old ++ spec.items_rest items.now) }
{
    for item in items {
        out.extend(" ")?;
        push_item(alloc, out, item)?;
    }
    Ok(())
}

fn set_of(alloc: Global, items: &Items) -> Result<Text, AllocError>
    ensures { IfOk result (λ t. t ≡ spec.set_text items.now) }
{
    let mut text = Text::from_str(alloc, "IN [")?;
    match items.as_slice() {
        [] => {}
        [first, rest @ ..] => {
            push_item(alloc, &mut text, first)?;
            push_items(alloc, &mut text, rest)?;
        }
    }
    text.extend("]")?;
    Ok(text)
}

fn path_of<'a>(fields: &'a [Field], number: usize) -> &'a str
    ensures { result.now ≡ spec.path_of fields.now number }
{
    match fields.get(number) {
        Some(field) => field.path.as_str(),
        None => "",
    }
}

/// A field and its colon.
fn push_field(
    alloc: Global,
    out: &mut Text,
    fields: &[Field],
    number: usize,
) -> Result<(), AllocError>
    ensures { OnOk result (spec.Appends out.old out.new (spec.Piece.Written (spec.field_text fields.now number) ∷ [])) }
{
    let mut field = word_of(alloc, path_of(fields, number))?;
    field.extend(":")?;
    push_piece(out, field.as_str())
}

/// A field and what is asked of it.
fn push_asked(
    alloc: Global,
    out: &mut Text,
    fields: &[Field],
    number: usize,
    asked: &str,
) -> Result<(), AllocError>
    ensures { OnOk result (spec.Appends out.old out.new (spec.asked fields.now number asked.now)) }
{
    push_field(alloc, out, fields, number)?;
    push_piece(out, asked)
}

fn bracket_before(query: &Query) -> &str
    ensures { result.now ≡ spec.bracket_before (view query.now) }
{
    match query {
        Query::And(_) | Query::Or(_) => "(",
        _ => "",
    }
}

fn bracket_behind(query: &Query) -> &str
    ensures { result.now ≡ spec.bracket_behind (view query.now) }
{
    match query {
        Query::And(_) | Query::Or(_) => ")",
        _ => "",
    }
}

fn prefix_of(alloc: Global, text: &str) -> Result<Text, AllocError>
    ensures { IfOk result (λ t. t ≡ spec.word_text text.now ++ 42 ∷ []) }
{
    let mut word = word_of(alloc, text)?;
    word.extend("*")?;
    Ok(word)
}

/// A field and a word that is asked of it.
fn push_asked_word(
    alloc: Global,
    out: &mut Text,
    fields: &[Field],
    number: usize,
    text: &str,
) -> Result<(), AllocError>
    ensures { OnOk result (spec.Appends out.old out.new (spec.asked fields.now number (spec.word_text text.now))) }
{
    let word = word_of(alloc, text)?;
    push_asked(alloc, out, fields, number, word.as_str())
}

/// A field and a quoted text that is asked of it.
fn push_asked_quote(
    alloc: Global,
    out: &mut Text,
    fields: &[Field],
    number: usize,
    text: &str,
) -> Result<(), AllocError>
    ensures { OnOk result (spec.Appends out.old out.new (spec.asked fields.now number (spec.quote_text text.now))) }
{
    let quote = quote_of(alloc, text)?;
    push_asked(alloc, out, fields, number, quote.as_str())
}

/// A field and a prefix that is asked of it.
fn push_asked_prefix(
    alloc: Global,
    out: &mut Text,
    fields: &[Field],
    number: usize,
    text: &str,
) -> Result<(), AllocError>
    ensures { OnOk result (spec.Appends out.old out.new (spec.asked fields.now number (spec.word_text text.now ++ 42 ∷ []))) }
{
    let prefix = prefix_of(alloc, text)?;
    push_asked(alloc, out, fields, number, prefix.as_str())
}

/// A field and a set that is asked of it.
fn push_asked_set(
    alloc: Global,
    out: &mut Text,
    fields: &[Field],
    number: usize,
    items: &Items,
) -> Result<(), AllocError>
    ensures { OnOk result (spec.Appends out.old out.new (spec.asked fields.now number (spec.set_text items.now))) }
{
    let set = set_of(alloc, items)?;
    push_asked(alloc, out, fields, number, set.as_str())
}

/// A field and a range that is asked of it.
fn push_asked_range(
    alloc: Global,
    out: &mut Text,
    fields: &[Field],
    number: usize,
    low: &Edge,
    high: &Edge,
) -> Result<(), AllocError>
    ensures { OnOk result (spec.Appends out.old out.new (spec.Piece.Written (spec.field_text fields.now number) ∷ spec.range_pieces low.now high.now)) }
{
    push_field(alloc, out, fields, number)?;
    push_range(alloc, out, low, high)
}

#[cycle(print)]
fn push_query(
    alloc: Global,
    out: &mut Text,
    fields: &[Field],
    query: &Query,
) -> Result<(), AllocError>
    ensures { OnOk result (spec.Appends out.old out.new (spec.printed fields.now (view query.now))) }
{
    match query {
        Query::All => push_piece(out, "*"),
        Query::Nothing => push_piece(out, "NOT *"),
        Query::Word { field, text } => {
            push_asked_word(alloc, out, fields, *field, text.as_str())
        }
        Query::Quoted { field, text } => {
            push_asked_quote(alloc, out, fields, *field, text.as_str())
        }
        Query::Prefix { field, text } => {
            push_asked_prefix(alloc, out, fields, *field, text.as_str())
        }
        Query::Exists { field } => push_asked(alloc, out, fields, *field, "*"),
        Query::Range { field, low, high } => {
            push_asked_range(alloc, out, fields, *field, low, high)
        }
        Query::AnyOf { field, items } => push_asked_set(alloc, out, fields, *field, items),
        Query::Not(query) => {
            push_piece(out, "NOT ")?;
            push_inner(alloc, out, fields, query)
        }
        Query::And(parts) => push_all(alloc, out, fields, " AND ", parts.as_slice()),
        Query::Or(parts) => push_all(alloc, out, fields, " OR ", parts.as_slice()),
    }
}

/// A query inside another one, in brackets where it is an And or an Or.
#[cycle(print)]
fn push_inner(
    alloc: Global,
    out: &mut Text,
    fields: &[Field],
    query: &Query,
) -> Result<(), AllocError>
    ensures { OnOk result (spec.Appends out.old out.new (spec.inner (view query.now) (spec.printed fields.now (view query.now)))) }
{
    push_piece(out, bracket_before(query))?;
    push_query(alloc, out, fields, query)?;
    push_piece(out, bracket_behind(query))
}

/// The members of an And or an Or.
#[cycle(print)]
fn push_all(
    alloc: Global,
    out: &mut Text,
    fields: &[Field],
    between: &str,
    parts: &[Query],
) -> Result<(), AllocError>
    ensures { OnOk result (spec.Appends out.old out.new (spec.printed_all fields.now between.now [] (view_all parts.now))) }
{
    let mut gap = "";
    for part in parts {
        push_piece(out, gap)?;
        push_inner(alloc, out, fields, part)?;
        gap = between;
    }
    Ok(())
}

/// Prints a query over a schema's fields.
pub fn print_query(alloc: Global, schema: &Schema, query: &Query) -> Result<Text, AllocError>
    // What is printed is the query's text.
    ensures { IfOk result (λ t. spec.Spells (spec.printed schema.now.fields (view query.now)) t) }
{
    let mut text = Text::vacant(alloc);
    push_query(alloc, &mut text, schema.fields.as_slice(), query)?;
    Ok(text)
}
