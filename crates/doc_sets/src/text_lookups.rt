// What is looked up for what a query asks of one field.

ghost use Rattle.std.specs.Prelude.{◌≡◌, ◌<◌, ◌++◌, ◌∷◌, [], Bool, Some, length, nat_lt, IfOk, OnOk, if◌then◌else◌};
ghost use Rattle.query_ast.specs.FieldTokens.{prefix_text};
ghost use Rattle.query_ast.specs.Spelled.{spelled};
ghost use Rattle.split_bundle.specs.Keys.{field_key, presence_key};
ghost use Rattle.doc_sets.specs.Needed.{token_keys};
ghost use Rattle.doc_sets.specs.Texts.{item_lookups, lookups_for, one_token, text_lookups, value_keys};
ghost use Rattle.doc_sets.specs.Ranged.{range_lookup};
ghost use Rattle.doc_sets.specs.declared.dictionary_lookup.Lookup.TheVariants.{Documents, Places, Walk};
ghost use Rattle.doc_sets.specs.declared.wanted.Wanted.TheVariants.{Each};

use crate::dictionary_lookup::{Lookup, Lookups};
use crate::texts::is_text;
use crate::value_columns::goes_by_column;
use crate::values::{presence_bytes, value_bytes};
use crate::wanted::{Wanted, between};
use crate::words::key_bytes;
use byte_fields::Bytes;
use doc_value::{Field, Kind, Value};
use query_ast::{Edge, Item, folded_prefix, tokens_of, value_of};
use split_bundle::Footer;
use std::alloc::{AllocError, Global};
use text_tokens::Token;

// The places of a key or its documents.
fn lookup_of(places: bool, key: Bytes) -> Lookup
    ensures { result ≡ (if places then Places key else Documents key) }
{
    if places {
        Lookup::Places(key)
    } else {
        Lookup::Documents(key)
    }
}

// Puts in what is looked up for the tokens of a text.
fn add_tokens(
    alloc: Global,
    lookups: &mut Lookups,
    number: usize,
    tokens: &[Token],
) -> Result<(), AllocError>
    requires { number < 256 }
    ensures { OnOk result (lookups.new ≡ lookups.old ++ lookups_for (token_keys number tokens.now)) }
{
    let several = tokens.len() > 1;
    for token in tokens {
        let key = key_bytes(alloc, number, token.text.as_slice())?;
        lookups.push(lookup_of(several, Bytes::from_vec(key)))?;
    }
    Ok(())
}

// Puts in what is looked up for a value.
fn push_value(
    alloc: Global,
    lookups: &mut Lookups,
    number: usize,
    value: &Value,
) -> Result<(), AllocError>
    requires { number < 256 }
    ensures { OnOk result (lookups.new ≡ lookups.old ++ lookups_for (value_keys number (Some value.now))) }
{
    let key = value_bytes(alloc, number, value)?;
    lookups.push(Lookup::Documents(Bytes::from_vec(key)))
}

// Puts in what is looked up for the value that a text spells.
fn add_value(
    alloc: Global,
    lookups: &mut Lookups,
    number: usize,
    kind: Kind,
    text: &str,
) -> Result<(), AllocError>
    requires { number < 256 }
    ensures { OnOk result (lookups.new ≡ lookups.old ++ lookups_for (value_keys number (spelled kind text.now))) }
{
    match value_of(alloc, kind, text)? {
        Some(value) => push_value(alloc, lookups, number, &value),
        None => Ok(()),
    }
}

/// Puts in what is looked up for a text, as a word or quoted.
pub fn add_text(
    alloc: Global,
    lookups: &mut Lookups,
    number: usize,
    field: &Field,
    text: &str,
) -> Result<(), AllocError>
    requires { number < 256 }
    ensures { OnOk result (lookups.new ≡ lookups.old ++ text_lookups field.now number text.now) }
{
    if is_text(field.kind) {
        let tokens = tokens_of(alloc, field, text)?;
        add_tokens(alloc, lookups, number, tokens.as_slice())
    } else {
        add_value(alloc, lookups, number, field.kind, text)
    }
}

/// Puts in what is looked up for the members of a set.
pub fn add_items(
    alloc: Global,
    lookups: &mut Lookups,
    number: usize,
    field: &Field,
    items: &[Item],
) -> Result<(), AllocError>
    requires { number < 256 }
    ensures { OnOk result (lookups.new ≡ lookups.old ++ item_lookups field.now number items.now) }
{
    for item in items {
        add_text(alloc, lookups, number, field, item.text.as_str())?;
    }
    Ok(())
}

/// What is looked up for the tokens that begin so.
pub fn prefix_lookup(
    alloc: Global,
    number: usize,
    field: &Field,
    text: &str,
) -> Result<Lookup, AllocError>
    requires { number < 256 }
    ensures { IfOk result (λ l. l ≡ Walk (field_key number (prefix_text field.now text.now)) Each) }
{
    let folded = folded_prefix(alloc, field, text)?;
    let prefix = key_bytes(alloc, number, folded.as_slice())?;
    Ok(Lookup::Walk(Bytes::from_vec(prefix), Wanted::Each))
}

/// What is looked up for the values between two edges, by the field's column or by its keys.
pub fn range_lookup(
    alloc: Global,
    footer: &Footer,
    number: usize,
    field: &Field,
    low: &Edge,
    high: &Edge,
) -> Result<Lookup, AllocError>
    requires { number < 256 }
    ensures { IfOk result (λ l. l ≡ range_lookup footer.now number field.now low.now high.now) }
{
    let range = between(field.kind, low, high);
    if goes_by_column(footer, number, field) {
        return Ok(Lookup::Values(number, range));
    }
    let prefix = key_bytes(alloc, number, &[])?;
    Ok(Lookup::Walk(Bytes::from_vec(prefix), Wanted::Within(range)))
}

/// What is looked up for the documents that have a value of a field.
pub fn presence_lookup(alloc: Global, number: usize) -> Result<Lookup, AllocError>
    requires { number < 256 }
    ensures { IfOk result (λ l. l ≡ Documents (presence_key number)) }
{
    let key = presence_bytes(alloc, number)?;
    Ok(Lookup::Documents(Bytes::from_vec(key)))
}

/// The key of a text of a field of texts, if the text is one token.
pub fn one_token(
    alloc: Global,
    number: usize,
    field: &Field,
    text: &str,
) -> Result<Option<Bytes>, AllocError>
    requires { number < 256 }
    ensures { IfOk result (λ key. key ≡ one_token field.now number text.now) }
{
    if !is_text(field.kind) {
        return Ok(None);
    }
    let tokens = tokens_of(alloc, field, text)?;
    match tokens.as_slice() {
        [] => Ok(None),
        [only] => {
            let key = key_bytes(alloc, number, only.text.as_slice())?;
            Ok(Some(Bytes::from_vec(key)))
        }
        [_first, _second, ..] => Ok(None),
    }
}
