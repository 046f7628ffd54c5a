//! The answers of splits, joined.

ghost use Rattle.std.specs.Prelude.{◌≡◌, ◌+◌, ◌^◌, ◌<◌, ◌++◌, ◌∷◌, [], ℕ, List, IfOk, IfNone, IsPermutation};
ghost use Rattle.std.specs.Option.{option_to_list};
ghost use Rattle.doc_value.specs.declared.schema.Schema.{Schema};
ghost use Rattle.split_bundle.specs.declared.placed.Placed.{Placed};
ghost use Rattle.doc_tallies.specs.Firsts.{sorted_by};
ghost use Rattle.doc_tallies.specs.Orders as orders;
ghost use Rattle.doc_tallies.specs.Orders.{firsts};
ghost use Rattle.leaf_search.specs.Answers.{IsAnswerOf};
ghost use Rattle.root_search.specs.Leaves.{AreJoined, AreSomeOf, IsCounted};

use agg_nested::merge_nested;
use doc_tallies::{HitOrder, comes_before};
use leaf_search::{LeafAnswer, LeafRequest};
use split_bundle::{Placed, PlacedList};
use std::alloc::{AllocError, Global};
use std::collections::VecDeque;

// The first hit of two lists in order leaves its list. Of hits of which none comes before the other it is the left one.
fn next_hit(
    order: Option<HitOrder>,
    left: &mut VecDeque<Placed>,
    right: &mut VecDeque<Placed>,
) -> Option<Placed>
    ensures first { sorted_by (orders.comes_before order) left.old.items ≡ left.old.items → sorted_by (orders.comes_before order) right.old.items ≡ right.old.items
        → sorted_by (orders.comes_before order) (left.old.items ++ right.old.items) ≡ option_to_list result ++ sorted_by (orders.comes_before order) (left.new.items ++ right.new.items) }
    ensures none { IfNone result (left.old.items ++ right.old.items ≡ []) }
    ensures left { sorted_by (orders.comes_before order) left.old.items ≡ left.old.items → sorted_by (orders.comes_before order) left.new.items ≡ left.new.items }
    ensures drawn { IsPermutation (option_to_list result ++ (left.new.items ++ right.new.items)) (left.old.items ++ right.old.items) }
    ensures right { sorted_by (orders.comes_before order) right.old.items ≡ right.old.items → sorted_by (orders.comes_before order) right.new.items ≡ right.new.items }
{
    match (left.front(), right.front()) {
        (Some(one), Some(other)) => {
            if comes_before(order, other, one) {
                right.pop_front()
            } else {
                left.pop_front()
            }
        }
        (Some(_), None) => left.pop_front(),
        (None, _) => right.pop_front(),
    }
}

// The first so many hits of two lists of first hits.
fn merged_hits(
    alloc: Global,
    order: Option<HitOrder>,
    wanted: usize,
    one: PlacedList,
    other: PlacedList,
) -> Result<PlacedList, AllocError>
    ensures only { (xs ys : List Placed) → one ≡ firsts wanted order xs → other ≡ firsts wanted order ys → IfOk result (λ hits. hits ≡ firsts wanted order (xs ++ ys)) }
    // Of any lists.
    ensures drawn { IfOk result (λ hits. AreSomeOf hits (one ++ other)) }
{
    let mut left = VecDeque::from_vec(one.into_vec());
    let mut right = VecDeque::from_vec(other.into_vec());
    let mut hits = Vec::new(alloc);
    while hits.len() < wanted {
        match next_hit(order, &mut left, &mut right) {
            Some(hit) => hits.push(hit)?,
            None => break,
        }
    }
    Ok(PlacedList::from_vec(hits))
}

/// The answers to one request over two lists of documents, joined: the answer over the one list and then the other.
pub(crate) fn merged(
    alloc: Global,
    request: &LeafRequest,
    one: LeafAnswer,
    other: LeafAnswer,
) -> Result<LeafAnswer, AllocError>
    requires one { IsCounted request.now one }
    requires other { IsCounted request.now other }
    requires room { one.count + other.count < 2 ^ 62 }
    ensures only { (s : Schema) (xs ys : List Placed) → IsAnswerOf s request.now xs one → IsAnswerOf s request.now ys other
        → IfOk result (IsAnswerOf s request.now (xs ++ ys)) }
    // Of any answers.
    ensures counted { IfOk result (IsCounted request.now) }
    ensures count { IfOk result (λ joined. joined.count ≡ one.count + other.count) }
    ensures joined { IfOk result (AreJoined request.now (one ∷ other ∷ [])) }
{
    let LeafAnswer {
        count,
        hits,
        mut partial,
    } = one;
    merge_nested(alloc, &request.aggs, &mut partial, &other.partial)?;
    Ok(LeafAnswer {
        count: count + other.count,
        hits: merged_hits(alloc, request.order, request.wanted, hits, other.hits)?,
        partial,
    })
}
