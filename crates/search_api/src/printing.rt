//! The line of a reply.

ghost use Rattle.std.specs.Prelude.{◌≡◌, ◌++◌, IfOk, OnOk, true, false, codes};
ghost use Rattle.doc_value.specs.Printed.{comma};
ghost use Rattle.search_api.specs.Replies as spec;

use crate::buckets::push_aggs;
use crate::pairs::{push_comma, push_key, push_number, push_text};
use crate::refusals::push_refusal;
use crate::reply::{Refusal, Reply, Said};
use agg_nested::NestedAnswer;
use byte_fields::Bytes as Line;
use doc_value::Bytes;
use std::alloc::{AllocError, Global};

fn push_hits(out: &mut Bytes, hits: &[Bytes]) -> Result<(), AllocError>
    ensures { OnOk result (out.new ≡ out.old ++ spec.with_commas true hits.now) }
{
    let mut first = true;
    for hit in hits {
        push_comma(out, first)?;
        out.extend(hit.as_slice())?;
        first = false;
    }
    Ok(())
}

#[tactic(auto, using(crate::proofs::Objects::keyed, crate::proofs::Objects::bracketed), unfolding(crate::specs::Replies::list_text))]
fn push_hit_list(out: &mut Bytes, hits: &[Bytes]) -> Result<(), AllocError>
    ensures { OnOk result (out.new ≡ out.old ++ (comma false ++ spec.pair_text (codes "hits") (spec.list_text hits.now))) }
{
    push_key(out, false, b"hits")?;
    out.push(b'[')?;
    push_hits(out, hits)?;
    out.push(b']')
}

#[tactic(auto, using(crate::proofs::Objects::keyed))]
fn push_aggregations(
    alloc: Global,
    out: &mut Bytes,
    results: &[NestedAnswer],
) -> Result<(), AllocError>
    ensures { OnOk result (out.new ≡ out.old ++ (comma true ++ spec.pair_text (codes "aggregations") (spec.aggs_text results.now))) }
{
    push_key(out, true, b"aggregations")?;
    push_aggs(alloc, out, results)
}

#[tactic(auto, using(crate::proofs::Objects::keyed))]
fn push_error(alloc: Global, out: &mut Bytes, refusal: &Refusal) -> Result<(), AllocError>
    ensures { OnOk result (out.new ≡ out.old ++ (comma false ++ spec.pair_text (codes "error") (spec.object_text (spec.refusal_pairs refusal.now)))) }
{
    push_key(out, false, b"error")?;
    push_refusal(alloc, out, refusal)
}

#[tactic(auto, using(crate::proofs::Objects::five_pairs), unfolding(crate::specs::Replies::found_text))]
fn print_found(
    alloc: Global,
    client: &[u8],
    revision: u64,
    count: u64,
    hits: &[Bytes],
    aggregations: &[NestedAnswer],
) -> Result<Bytes, AllocError>
    ensures { IfOk result (λ line. line ≡ spec.found_text client.now revision count hits.now aggregations.now) }
{
    let mut out = Bytes::vacant(alloc);
    out.push(b'{')?;
    push_aggregations(alloc, &mut out, aggregations)?;
    push_text(&mut out, false, b"client", client)?;
    push_hit_list(&mut out, hits)?;
    push_number(alloc, &mut out, false, b"num_hits", count as u128)?;
    push_number(alloc, &mut out, false, b"revision", revision as u128)?;
    out.push(b'}')?;
    Ok(out)
}

#[tactic(auto, using(crate::proofs::Objects::three_pairs), unfolding(crate::specs::Replies::deleted_text))]
fn print_deleted(
    alloc: Global,
    client: &[u8],
    revision: u64,
    opstamp: u64,
) -> Result<Bytes, AllocError>
    ensures { IfOk result (λ line. line ≡ spec.deleted_text client.now revision opstamp) }
{
    let mut out = Bytes::vacant(alloc);
    out.push(b'{')?;
    push_text(&mut out, true, b"client", client)?;
    push_number(alloc, &mut out, false, b"opstamp", opstamp as u128)?;
    push_number(alloc, &mut out, false, b"revision", revision as u128)?;
    out.push(b'}')?;
    Ok(out)
}

#[tactic(auto, using(crate::proofs::Objects::three_pairs), unfolding(crate::specs::Replies::refused_text))]
fn print_refused(
    alloc: Global,
    client: &[u8],
    revision: u64,
    refusal: &Refusal,
) -> Result<Bytes, AllocError>
    ensures { IfOk result (λ line. line ≡ spec.refused_text client.now revision refusal.now) }
{
    let mut out = Bytes::vacant(alloc);
    out.push(b'{')?;
    push_text(&mut out, true, b"client", client)?;
    push_error(alloc, &mut out, refusal)?;
    push_number(alloc, &mut out, false, b"revision", revision as u128)?;
    out.push(b'}')?;
    Ok(out)
}

/// The reply's line in compact JSON, the keys of each object in byte order, without a line feed.
pub fn print_reply(alloc: Global, reply: &Reply) -> Result<Line, AllocError>
    ensures { IfOk result (λ line. line ≡ spec.reply_text reply.now) }
{
    let client = reply.client.as_bytes();
    let revision = reply.revision;
    let line = match &reply.said {
        Said::Found {
            count,
            hits,
            aggregations,
        } => {
            let results = aggregations.as_slice();
            print_found(alloc, client, revision, *count, hits.as_slice(), results)?
        }
        Said::Deleted { opstamp } => print_deleted(alloc, client, revision, *opstamp)?,
        Said::Refused(refusal) => print_refused(alloc, client, revision, refusal)?,
    };
    Ok(Line::from_vec(line.into_vec()))
}
