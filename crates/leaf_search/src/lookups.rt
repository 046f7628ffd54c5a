// What a request looks up in a split.

ghost use Rattle.std.specs.Prelude.{◌≡◌, ◌≤◌, ◌++◌, length, IfOk, OnOk};
ghost use Rattle.query_ast.specs.Sought.{view, view_all};
ghost use Rattle.query_ast.specs.Sought as sought;
ghost use Rattle.leaf_search.specs.Asks.{lookups_of, lookups_of_each};
ghost use Rattle.leaf_search.specs.Counts as counts;

use crate::fields::field_at;
use crate::request::LeafRequest;
use crate::token_counts::counted_key;
use doc_sets::{
    Lookup, Lookups, add_items, add_text, prefix_lookup, presence_lookup, range_lookup,
};
use doc_value::Schema;
use query_ast::{Edge, Item, Query};
use split_bundle::Footer;
use std::alloc::{AllocError, Global};

// Puts in what is looked up for a text of a field.
fn look_for_text(
    alloc: Global,
    footer: &Footer,
    schema: &Schema,
    lookups: &mut Lookups,
    number: usize,
    text: &str,
) -> Result<(), AllocError>
    requires { length schema.now.fields ≤ 256 }
    ensures word { OnOk result (lookups.new ≡ lookups.old ++ lookups_of footer.now schema.now (sought.Word number text.now)) }
    ensures quoted { OnOk result (lookups.new ≡ lookups.old ++ lookups_of footer.now schema.now (sought.Quoted number text.now)) }
{
    match field_at(schema, number) {
        Some(field) => add_text(alloc, lookups, number, field, text),
        None => Ok(()),
    }
}

// Puts in what is looked up for a prefix.
fn look_for_prefix(
    alloc: Global,
    footer: &Footer,
    schema: &Schema,
    lookups: &mut Lookups,
    number: usize,
    text: &str,
) -> Result<(), AllocError>
    requires { length schema.now.fields ≤ 256 }
    ensures { OnOk result (lookups.new ≡ lookups.old ++ lookups_of footer.now schema.now (sought.Prefix number text.now)) }
{
    match field_at(schema, number) {
        Some(field) => {
            let lookup = prefix_lookup(alloc, number, field, text)?;
            lookups.push(lookup)
        }
        None => Ok(()),
    }
}

// Puts in what is looked up for the documents that have a value.
fn look_for_value(
    alloc: Global,
    footer: &Footer,
    schema: &Schema,
    lookups: &mut Lookups,
    number: usize,
) -> Result<(), AllocError>
    requires { length schema.now.fields ≤ 256 }
    ensures { OnOk result (lookups.new ≡ lookups.old ++ lookups_of footer.now schema.now (sought.Exists number)) }
{
    match field_at(schema, number) {
        Some(_field) => {
            let lookup = presence_lookup(alloc, number)?;
            lookups.push(lookup)
        }
        None => Ok(()),
    }
}

// Puts in what is looked up for a range of values.
fn look_for_range(
    alloc: Global,
    footer: &Footer,
    schema: &Schema,
    lookups: &mut Lookups,
    number: usize,
    low: &Edge,
    high: &Edge,
) -> Result<(), AllocError>
    requires { length schema.now.fields ≤ 256 }
    ensures { OnOk result (lookups.new ≡ lookups.old ++ lookups_of footer.now schema.now (sought.Range number low.now high.now)) }
{
    match field_at(schema, number) {
        Some(field) => {
            let lookup = range_lookup(alloc, footer, number, field, low, high)?;
            lookups.push(lookup)
        }
        None => Ok(()),
    }
}

// Puts in what is looked up for the members of a set.
fn look_for_items(
    alloc: Global,
    footer: &Footer,
    schema: &Schema,
    lookups: &mut Lookups,
    number: usize,
    items: &[Item],
) -> Result<(), AllocError>
    requires { length schema.now.fields ≤ 256 }
    ensures { OnOk result (lookups.new ≡ lookups.old ++ lookups_of footer.now schema.now (sought.AnyOf number items.now)) }
{
    match field_at(schema, number) {
        Some(field) => add_items(alloc, lookups, number, field, items),
        None => Ok(()),
    }
}

// Puts in what is looked up for a query.
#[cycle(looking)]
fn look_for(
    alloc: Global,
    footer: &Footer,
    schema: &Schema,
    lookups: &mut Lookups,
    query: &Query,
) -> Result<(), AllocError>
    requires { length schema.now.fields ≤ 256 }
    ensures { OnOk result (lookups.new ≡ lookups.old ++ lookups_of footer.now schema.now (view query.now)) }
{
    match query {
        Query::All => Ok(()),
        Query::Nothing => Ok(()),
        Query::Word { field, text } => {
            look_for_text(alloc, footer, schema, lookups, *field, text.as_str())
        }
        Query::Quoted { field, text } => {
            look_for_text(alloc, footer, schema, lookups, *field, text.as_str())
        }
        Query::Prefix { field, text } => {
            look_for_prefix(alloc, footer, schema, lookups, *field, text.as_str())
        }
        Query::Exists { field } => look_for_value(alloc, footer, schema, lookups, *field),
        Query::Range { field, low, high } => {
            look_for_range(alloc, footer, schema, lookups, *field, low, high)
        }
        Query::AnyOf { field, items } => {
            look_for_items(alloc, footer, schema, lookups, *field, items.as_slice())
        }
        Query::Not(inner) => look_for(alloc, footer, schema, lookups, inner),
        Query::And(parts) => look_for_each(alloc, footer, schema, lookups, parts.as_slice()),
        Query::Or(parts) => look_for_each(alloc, footer, schema, lookups, parts.as_slice()),
    }
}

// Puts in what is looked up for each of some queries.
#[cycle(looking)]
fn look_for_each(
    alloc: Global,
    footer: &Footer,
    schema: &Schema,
    lookups: &mut Lookups,
    parts: &[Query],
) -> Result<(), AllocError>
    requires { length schema.now.fields ≤ 256 }
    ensures { OnOk result (lookups.new ≡ lookups.old ++ lookups_of_each footer.now schema.now (view_all parts.now)) }
{
    for each in parts {
        look_for(alloc, footer, schema, lookups, each)?;
    }
    Ok(())
}

// What a request looks up.
pub(crate) fn request_lookups(
    alloc: Global,
    footer: &Footer,
    schema: &Schema,
    request: &LeafRequest,
) -> Result<Lookups, AllocError>
    requires { length schema.now.fields ≤ 256 }
    ensures { IfOk result (λ ls. ls ≡ counts.request_lookups footer.now schema.now request.now) }
{
    match counted_key(alloc, schema, request)? {
        Some(key) => Lookups::one(alloc, Lookup::Count(key)),
        None => {
            let mut lookups = Lookups::vacant(alloc);
            look_for(alloc, footer, schema, &mut lookups, &request.query)?;
            Ok(lookups)
        }
    }
}
