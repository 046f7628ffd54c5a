//! Refusals as they are printed.

ghost use Rattle.std.specs.Prelude.{◌≡◌, ◌++◌, OnOk};
ghost use Rattle.search_api.specs.Replies as spec;

use crate::pairs::{push_number, push_text};
use crate::reply::Refusal;
use doc_value::Bytes;
use object_store::Key;
use std::alloc::{AllocError, Global};

#[tactic(auto, using(crate::proofs::Objects::one_pair), unfolding(crate::specs::Replies::alone))]
fn push_alone(out: &mut Bytes, kind: &[u8]) -> Result<(), AllocError>
    ensures { OnOk result (out.new ≡ out.old ++ spec.object_text (spec.alone kind.now)) }
{
    out.push(b'{')?;
    push_text(out, true, b"kind", kind)?;
    out.push(b'}')
}

#[tactic(auto, using(crate::proofs::Objects::two_pairs), unfolding(crate::specs::Replies::with_name))]
fn push_with_name(out: &mut Bytes, kind: &[u8], name: &[u8]) -> Result<(), AllocError>
    ensures { OnOk result (out.new ≡ out.old ++ spec.object_text (spec.with_name kind.now name.now)) }
{
    out.push(b'{')?;
    push_text(out, true, b"kind", kind)?;
    push_text(out, false, b"name", name)?;
    out.push(b'}')
}

#[tactic(auto, using(crate::proofs::Objects::two_pairs), unfolding(crate::specs::Replies::with_place))]
fn push_with_place(
    alloc: Global,
    out: &mut Bytes,
    kind: &[u8],
    place: usize,
) -> Result<(), AllocError>
    ensures { OnOk result (out.new ≡ out.old ++ spec.object_text (spec.with_place kind.now place)) }
{
    out.push(b'{')?;
    push_number(alloc, out, true, b"at", place as u128)?;
    push_text(out, false, b"kind", kind)?;
    out.push(b'}')
}

#[tactic(auto, using(crate::proofs::Objects::two_pairs), unfolding(crate::specs::Replies::with_count))]
fn push_with_count(
    alloc: Global,
    out: &mut Bytes,
    kind: &[u8],
    count: u128,
) -> Result<(), AllocError>
    ensures { OnOk result (out.new ≡ out.old ++ spec.object_text (spec.with_count kind.now count)) }
{
    out.push(b'{')?;
    push_number(alloc, out, true, b"count", count)?;
    push_text(out, false, b"kind", kind)?;
    out.push(b'}')
}

#[tactic(auto, using(crate::proofs::Objects::two_pairs), unfolding(crate::specs::Replies::with_key))]
fn push_with_key(out: &mut Bytes, kind: &[u8], key: &Key) -> Result<(), AllocError>
    ensures { OnOk result (out.new ≡ out.old ++ spec.object_text (spec.with_key kind.now key.now)) }
{
    out.push(b'{')?;
    push_text(out, true, b"key", key.as_bytes())?;
    push_text(out, false, b"kind", kind)?;
    out.push(b'}')
}

#[tactic(auto, using(crate::proofs::Objects::two_pairs), unfolding(crate::specs::Replies::too_many_hits))]
fn push_too_many_hits(alloc: Global, out: &mut Bytes, wanted: u64) -> Result<(), AllocError>
    ensures { OnOk result (out.new ≡ out.old ++ spec.object_text (spec.too_many_hits wanted)) }
{
    out.push(b'{')?;
    push_text(out, true, b"kind", b"TooManyHits")?;
    push_number(alloc, out, false, b"wanted", wanted as u128)?;
    out.push(b'}')
}

#[tactic(auto, using(crate::proofs::Objects::two_pairs), unfolding(crate::specs::Replies::not_fast))]
fn push_not_fast(out: &mut Bytes, field: &[u8]) -> Result<(), AllocError>
    ensures { OnOk result (out.new ≡ out.old ++ spec.object_text (spec.not_fast field.now)) }
{
    out.push(b'{')?;
    push_text(out, true, b"field", field)?;
    push_text(out, false, b"kind", b"NotFast")?;
    out.push(b'}')
}

#[tactic(auto, using(crate::proofs::Objects::three_pairs), unfolding(crate::specs::Replies::expired))]
fn push_expired(alloc: Global, out: &mut Bytes, planned_at: u64, now: u64) -> Result<(), AllocError>
    ensures { OnOk result (out.new ≡ out.old ++ spec.object_text (spec.expired planned_at now)) }
{
    out.push(b'{')?;
    push_text(out, true, b"kind", b"Expired")?;
    push_number(alloc, out, false, b"now", now as u128)?;
    push_number(alloc, out, false, b"planned_at", planned_at as u128)?;
    out.push(b'}')
}

#[tactic(auto, using(crate::proofs::Objects::three_pairs), unfolding(crate::specs::Replies::store_fault))]
fn push_store_fault(
    alloc: Global,
    out: &mut Bytes,
    before: u64,
    after: u64,
) -> Result<(), AllocError>
    ensures { OnOk result (out.new ≡ out.old ++ spec.object_text (spec.store_fault before after)) }
{
    out.push(b'{')?;
    push_number(alloc, out, true, b"after", after as u128)?;
    push_number(alloc, out, false, b"before", before as u128)?;
    push_text(out, false, b"kind", b"StoreFault")?;
    out.push(b'}')
}

/// A refusal's name and what is kept of it.
pub fn push_refusal(alloc: Global, out: &mut Bytes, refusal: &Refusal) -> Result<(), AllocError>
    ensures { OnOk result (out.new ≡ out.old ++ spec.object_text (spec.refusal_pairs refusal.now)) }
{
    match refusal {
        Refusal::NotJson => push_alone(out, b"NotJson"),
        Refusal::UnknownKey { name } => push_with_name(out, b"UnknownKey", name.as_slice()),
        Refusal::WrongKind { name } => push_with_name(out, b"WrongKind", name.as_slice()),
        Refusal::MissingKey { name } => push_with_name(out, b"MissingKey", name.as_slice()),
        Refusal::TooManyHits { wanted } => push_too_many_hits(alloc, out, *wanted),
        Refusal::UnknownField { name } => push_with_name(out, b"UnknownField", name.as_slice()),
        Refusal::NotFast { field } => push_not_fast(out, field.as_slice()),
        Refusal::NoTimestampField => push_alone(out, b"NoTimestampField"),
        Refusal::Syntax { at } => push_with_place(alloc, out, b"Syntax", *at),
        Refusal::TooDeep { at } => push_with_place(alloc, out, b"TooDeep", *at),
        Refusal::NotIndexed { at } => push_with_place(alloc, out, b"NotIndexed", *at),
        Refusal::BadValue { at } => push_with_place(alloc, out, b"BadValue", *at),
        Refusal::NoDefaultField { at } => push_with_place(alloc, out, b"NoDefaultField", *at),
        Refusal::NoPositions { at } => push_with_place(alloc, out, b"NoPositions", *at),
        Refusal::BadInterval { name } => push_with_name(out, b"BadInterval", name.as_slice()),
        Refusal::Expired { planned_at, now } => push_expired(alloc, out, *planned_at, *now),
        Refusal::StoreFault { before, after } => push_store_fault(alloc, out, *before, *after),
        Refusal::Missing { key } => push_with_key(out, b"Missing", key),
        Refusal::Corrupt { key } => push_with_key(out, b"Corrupt", key),
        Refusal::Foreign { key } => push_with_key(out, b"Foreign", key),
        Refusal::TooManyBuckets { count } => push_with_count(alloc, out, b"TooManyBuckets", *count),
        Refusal::TooManyTasks { count } => {
            push_with_count(alloc, out, b"TooManyTasks", *count as u128)
        }
        Refusal::Full => push_alone(out, b"Full"),
    }
}
