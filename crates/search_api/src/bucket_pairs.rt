//! The pairs of a bucket: its own among those of its nested answers.

ghost use Rattle.std.specs.Prelude.{◌≡◌, ◌++◌, ◌∷◌, [], IfOk, OnOk, map, true, false, codes};
ghost use Rattle.std.specs.Fmt.{decimal, signed_decimal};
ghost use Rattle.doc_value.specs.Printed.{comma, quoted, value_text};
ghost use Rattle.search_api.specs.Replies as spec;

use crate::pairs::{push_digits, push_key};
use agg_model::Key;
use agg_nested::WholeRange;
use doc_value::values::push_quoted;
use doc_value::{Bytes, List, Text, Value};
use std::alloc::{AllocError, Global};
use std::cmp::Ordering;
use std::string::ToString;

/// A key, and its value as it is printed.
#[derive(Drop)]
pub struct Pair {
    pub key: Text,
    pub text: Bytes,
}

/// The pairs of the nested answers of a bucket.
pub type Pairs = List<Pair>;

pub fn push_signed(alloc: Global, out: &mut Bytes, number: i128) -> Result<(), AllocError>
    ensures { OnOk result (out.new ≡ out.old ++ signed_decimal number) }
{
    out.extend(number.to_string(alloc)?.as_bytes())
}

fn push_value(alloc: Global, out: &mut Bytes, value: &Value) -> Result<(), AllocError>
    ensures { OnOk result (out.new ≡ out.old ++ value_text value.now) }
{
    match value {
        Value::Text(text) => push_quoted(out, text.as_slice()),
        Value::I64(number) => out.extend(number.to_string(alloc)?.as_bytes()),
        Value::U64(number) => push_digits(alloc, out, *number as u128),
        Value::Bool(true) => out.extend(b"true"),
        Value::Bool(false) => out.extend(b"false"),
        Value::Datetime(seconds) => out.extend(seconds.to_string(alloc)?.as_bytes()),
    }
}

fn push_key_value(alloc: Global, out: &mut Bytes, key: &Key) -> Result<(), AllocError>
    ensures { OnOk result (out.new ≡ out.old ++ spec.key_text key.now) }
{
    match key {
        Key::Value(value) => push_value(alloc, out, value),
        Key::Step(begin) => push_signed(alloc, out, *begin),
    }
}

fn is_below(key: &[u8], other: &[u8]) -> bool
    ensures { result ≡ spec.is_below key.now other.now }
{
    key.cmp(other) == Ordering::Less
}

#[tactic(auto, using(crate::proofs::Objects::keyed))]
fn push_pair(out: &mut Bytes, first: bool, pair: &Pair) -> Result<(), AllocError>
    ensures { OnOk result (out.new ≡ out.old ++ (comma first ++ spec.line_of pair.now)) }
{
    push_key(out, first, pair.key.as_slice())?;
    out.extend(pair.text.as_slice())
}

/// Writes the pairs at the front whose keys lie below a key.
fn push_before(out: &mut Bytes, begins: bool, pairs: &[Pair], key: &[u8]) -> Result<(), AllocError>
    ensures { OnOk result (out.new ≡ out.old ++ spec.with_commas begins (map spec.line_of (spec.before key.now pairs.now))) }
{
    let mut first = begins;
    for pair in pairs {
        if !is_below(pair.key.as_slice(), key) {
            return Ok(());
        }
        push_pair(out, first, pair)?;
        first = false;
    }
    Ok(())
}

/// The pairs behind those.
pub fn behind<'a>(pairs: &'a [Pair], key: &[u8]) -> &'a [Pair]
    ensures { result.now ≡ spec.behind key.now pairs.now }
{
    let mut rest = pairs;
    while let [pair, more @ ..] = rest {
        if !is_below(pair.key.as_slice(), key) {
            return rest;
        }
        rest = more;
    }
    rest
}

/// A key of the bucket's own, behind the pairs whose keys lie below it.
#[tactic(auto, unfolding(crate::specs::Replies::own_key_text))]
fn push_own_key(out: &mut Bytes, begins: bool, pairs: &[Pair], key: &[u8]) -> Result<(), AllocError>
    ensures { OnOk result (out.new ≡ out.old ++ spec.own_key_text begins key.now pairs.now) }
{
    push_before(out, begins, pairs, key)?;
    push_key(out, begins && behind(pairs, key).len() == pairs.len(), key)
}

/// How many documents the bucket has: the first of its own pairs.
#[tactic(auto, using(crate::proofs::Among::own_pair))]
pub fn push_own_count(
    alloc: Global,
    out: &mut Bytes,
    pairs: &[Pair],
    count: u64,
) -> Result<(), AllocError>
    ensures { OnOk result (out.new ≡ out.old ++ spec.own_text true (spec.pair (codes "doc_count") (decimal count) ∷ []) pairs.now) }
{
    push_own_key(out, true, pairs, b"doc_count")?;
    push_digits(alloc, out, count as u128)
}

/// Its key, a value or where a step begins.
#[tactic(auto, using(crate::proofs::Among::own_pair))]
pub fn push_value_key(
    alloc: Global,
    out: &mut Bytes,
    pairs: &[Pair],
    key: &Key,
) -> Result<(), AllocError>
    ensures { OnOk result (out.new ≡ out.old ++ spec.own_text false (spec.pair (codes "key") (spec.key_text key.now) ∷ []) pairs.now) }
{
    push_own_key(out, false, pairs, b"key")?;
    push_key_value(alloc, out, key)
}

/// A pair whose value is printed already, behind one of its own.
#[tactic(auto, using(crate::proofs::Among::own_pair))]
fn push_own_text(out: &mut Bytes, pairs: &[Pair], key: &[u8], text: &[u8]) -> Result<(), AllocError>
    ensures { OnOk result (out.new ≡ out.old ++ spec.own_text false (spec.pair key.now text.now ∷ []) pairs.now) }
{
    push_own_key(out, false, pairs, key)?;
    out.extend(text)
}

/// An edge of its range, if it is there.
#[tactic(auto, using(crate::proofs::Among::own_none))]
pub fn push_edge(
    alloc: Global,
    out: &mut Bytes,
    pairs: &[Pair],
    key: &[u8],
    edge: Option<i128>,
) -> Result<(), AllocError>
    ensures { OnOk result (out.new ≡ out.old ++ spec.own_text false (spec.edge_pairs key.now edge) pairs.now) }
{
    match edge {
        Some(edge) => push_own_text(out, pairs, key, edge.to_string(alloc)?.as_bytes()),
        None => Ok(()),
    }
}

/// The pairs behind an edge.
pub fn behind_edge<'a>(pairs: &'a [Pair], key: &[u8], edge: Option<i128>) -> &'a [Pair]
    ensures { result.now ≡ spec.behind_all (spec.edge_pairs key.now edge) pairs.now }
{
    match edge {
        Some(_) => behind(pairs, key),
        None => pairs,
    }
}

fn edge_text(alloc: Global, out: &mut Bytes, edge: Option<i128>) -> Result<(), AllocError>
    ensures { OnOk result (out.new ≡ out.old ++ spec.edge_text edge) }
{
    match edge {
        Some(edge) => push_signed(alloc, out, edge),
        None => out.push(b'*'),
    }
}

/// The key of a range: its edges with a minus sign between, a star for one that is absent.
fn range_key(alloc: Global, range: &WholeRange) -> Result<Bytes, AllocError>
    ensures { IfOk result (λ key. key ≡ spec.range_key range.now) }
{
    let mut key = Bytes::vacant(alloc);
    edge_text(alloc, &mut key, range.from)?;
    key.push(b'-')?;
    edge_text(alloc, &mut key, range.to)?;
    Ok(key)
}

fn quoted_range_key(alloc: Global, range: &WholeRange) -> Result<Bytes, AllocError>
    ensures { IfOk result (λ text. text ≡ quoted (spec.range_key range.now)) }
{
    let key = range_key(alloc, range)?;
    let mut text = Bytes::vacant(alloc);
    push_quoted(&mut text, key.as_slice())?;
    Ok(text)
}

pub fn push_range_key(
    alloc: Global,
    out: &mut Bytes,
    pairs: &[Pair],
    range: &WholeRange,
) -> Result<(), AllocError>
    ensures { OnOk result (out.new ≡ out.old ++ spec.own_text false (spec.pair (codes "key") (quoted (spec.range_key range.now)) ∷ []) pairs.now) }
{
    let text = quoted_range_key(alloc, range)?;
    push_own_text(out, pairs, b"key", text.as_slice())
}

/// The pairs that are left.
#[tactic(auto, unfolding(crate::specs::Replies::left_text))]
pub fn push_pairs(out: &mut Bytes, pairs: &[Pair]) -> Result<(), AllocError>
    ensures { OnOk result (out.new ≡ out.old ++ spec.left_text pairs.now) }
{
    for pair in pairs {
        push_pair(out, false, pair)?;
    }
    Ok(())
}
