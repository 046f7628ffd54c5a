//! Shares of the hits that are wanted, which splits give first, and whether these are enough.

ghost use Rattle.std.specs.Prelude.{◌≡◌, ◌-◌, ◌<◌, ◌≤◌, true, false, not, count_by, length, IfNone, IfOk, IfSome, Option};
ghost use Rattle.std.specs.Bool.{OnTrue};
ghost use Rattle.std.specs.List.{AllByRecursion, filter};
ghost use Rattle.doc_tallies.specs.declared.hit_order.HitOrder.{HitOrder as Order};
ghost use Rattle.doc_tallies.specs.Orders as orders;
ghost use Rattle.doc_tallies.specs.Shares.{joined};
ghost use Rattle.root_search.specs.Shares.{AreEnough, IsUsedUp, IsWhole, hits_in};

use byte_fields::List;
use doc_tallies::{HitOrder, comes_before};
use leaf_search::LeafAnswer;
use split_bundle::Placed;
use std::alloc::{AllocError, Global};
use std::cmp::Ordering;

/// What a split answers, and how many hits are wanted of it.
#[derive(Drop)]
pub(crate) struct SplitShare {
    pub wanted: usize,
    pub answer: LeafAnswer,
}

/// What splits answer so, in their order.
pub(crate) type SplitShares = List<SplitShare>;

// So few hits are asked of each split at once.
const FEW: usize = 256;

// So many hits more than its part are asked of a split, at the least.
const SPARE: usize = 64;

// The bar is sought among one of so many hits of each share.
const STRIDE: usize = 16;

/// How many hits are wanted of each of so many splits first: its part of those that are wanted of all, a quarter more, and some. There are none where
/// that would be all of them, where few are wanted, and of one split.
pub(crate) fn share_of(wanted: usize, splits: usize) -> Option<usize>
    ensures some { IfSome result (λ share. 0 < share) }
    ensures part { IfSome result (λ share. share ≤ wanted) }
    ensures many { IfSome result (λ share. 256 < wanted) }
    ensures several { IfSome result (λ share. 2 ≤ splits) }
{
    if wanted <= FEW || splits < 2 {
        return None;
    }
    let part = wanted / splits;
    let share = part.saturating_add(part / 4 + SPARE);
    if share < wanted { Some(share) } else { None }
}

// The order of two hits.
fn order_of(order: Option<HitOrder>, one: &Placed, other: &Placed) -> Ordering {
    if comes_before(order, one, other) {
        Ordering::Less
    } else if comes_before(order, other, one) {
        Ordering::Greater
    } else {
        Ordering::Equal
    }
}

// A hit behind which, if the shares are in order, as many as are wanted do not stand: so many strides of hits end with it or before it. There is none
// where the shares have fewer whole strides.
fn bar_of<'a>(
    alloc: Global,
    order: Option<HitOrder>,
    wanted: usize,
    shares: &'a [SplitShare],
) -> Result<Option<&'a Placed>, AllocError> {
    let mut last = Vec::new(alloc);
    for share in shares {
        for stride in share.answer.hits.as_slice().chunks_exact(STRIDE) {
            if let Some(hit) = stride.last() {
                last.push(hit)?;
            }
        }
    }
    last.sort_by(|one, other| order_of(order, one, other))?;
    Ok(last.get(wanted.saturating_sub(1) / STRIDE).copied())
}

// How many are missing where those of some hits are counted that do not stand behind the bar.
fn missing_behind(order: Option<HitOrder>, bar: &Placed, missing: usize, hits: &[Placed]) -> usize
    ensures { result ≡ missing - count_by (λ y. not (orders.comes_before order bar.now y)) hits.now }
{
    let reaching = hits.iter().filter(|hit| !comes_before(order, bar, hit));
    missing.saturating_sub(reaching.count())
}

// Whether as many hits as are wanted do not stand behind the bar.
fn have_enough(order: Option<HitOrder>, wanted: usize, bar: &Placed, shares: &[SplitShare]) -> bool
    ensures { OnTrue result (wanted ≤ length (filter (λ y. not (orders.comes_before order bar.now y)) (joined (hits_in shares.now)))) }
{
    let mut missing = wanted;
    for share in shares {
        missing = missing_behind(order, bar, missing, share.answer.hits.as_slice());
    }
    missing == 0
}

/// Whether a split gave as many hits as are wanted of all, or has no others.
pub(crate) fn is_whole(wanted: usize, share: &SplitShare) -> bool
    ensures whole { (order : Option Order) → OnTrue result (IsWhole order wanted share.now) }
    ensures full { result ≡ false → share.now.wanted ≤ length share.now.answer.hits }
{
    share.wanted == wanted || share.answer.hits.len() < share.wanted
}

// The same, or the hits that it did not give stand behind the bar, since the last one that it gave does.
fn is_used_up(order: Option<HitOrder>, wanted: usize, bar: &Placed, share: &SplitShare) -> bool
    ensures { OnTrue result (IsUsedUp order wanted bar.now share.now) }
{
    if is_whole(wanted, share) {
        return true;
    }
    match share.answer.hits.as_slice().last() {
        Some(last) => comes_before(order, bar, last),
        None => false,
    }
}

// Whether the hits of a share end before those of the one at a place, if there is one.
fn ends_first(
    order: Option<HitOrder>,
    shares: &[SplitShare],
    place: Option<usize>,
    share: &SplitShare,
) -> bool
    ensures { IfNone place (result ≡ true) }
{
    let Some(place) = place else {
        return true;
    };
    let Some(other) = shares.get(place) else {
        return true;
    };
    match (
        share.answer.hits.as_slice().last(),
        other.answer.hits.as_slice().last(),
    ) {
        (Some(one), Some(other)) => comes_before(order, one, other),
        _ => false,
    }
}

// The place of the share, among those that are not used up, whose hits end first.
fn open_behind(
    order: Option<HitOrder>,
    wanted: usize,
    bar: &Placed,
    shares: &[SplitShare],
) -> Option<usize>
    ensures { IfNone result (AllByRecursion (IsUsedUp order wanted bar.now) shares.now) }
{
    let mut chosen = None;
    for (place, share) in shares.iter().enumerate() {
        if !is_used_up(order, wanted, bar, share) && ends_first(order, shares, chosen, share) {
            chosen = Some(place);
        }
    }
    chosen
}

// The place of the first share that is not whole.
fn first_open(wanted: usize, shares: &[SplitShare]) -> Option<usize>
    ensures { (order : Option Order) → IfNone result (AllByRecursion (IsWhole order wanted) shares.now) }
{
    for (place, share) in shares.iter().enumerate() {
        if !is_whole(wanted, share) {
            return Some(place);
        }
    }
    None
}

/// The place of a share behind which others of its split may be among the first hits. Where there is none, the shares are enough.
pub(crate) fn open_share(
    alloc: Global,
    order: Option<HitOrder>,
    wanted: usize,
    shares: &[SplitShare],
) -> Result<Option<usize>, AllocError>
    ensures { IfOk result (λ place. IfNone place (AreEnough order wanted shares.now)) }
{
    if let Some(bar) = bar_of(alloc, order, wanted, shares)? {
        if have_enough(order, wanted, bar, shares) {
            return Ok(open_behind(order, wanted, bar, shares));
        }
    }
    Ok(first_open(wanted, shares))
}
