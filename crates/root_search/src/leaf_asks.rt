//! What a search asks of each split.

ghost use Rattle.std.specs.Prelude.{◌≡◌, ◌^◌, ◌<◌, ◌+◌, ◌==◌, if◌then◌else◌};
ghost use Rattle.std.specs.Option.{ForSome};
ghost use Rattle.doc_value.specs.declared.schema.Schema.{Schema};
ghost use Rattle.agg_nested.specs.Checking.{HaveSteps};
ghost use Rattle.leaf_search.specs.Answers.{IsAsked};
ghost use Rattle.search_api.specs.Answerable.{IsAnswerable};
ghost use Rattle.search_api.specs.Resolved.{search_view};
ghost use Rattle.root_search.specs.Answer.{order_of};
ghost use Rattle.root_search.specs.LeafAsks.{Asks, wanted_of};

use doc_tallies::HitOrder;
use leaf_search::LeafRequest;
use search_api::{SearchAsk, SortField};

/// Which of the hits in order are shown: `shown` of them at most, behind the first `passed`.
#[derive(Clone, Copy)]
pub(crate) struct Page {
    pub passed: usize,
    pub shown: usize,
}

/// What a search asks of each split, and which of the hits of all of them are shown.
#[derive(Drop)]
pub(crate) struct LeafAsk {
    pub request: LeafRequest,
    pub page: Page,
}

// By what hits are sorted.
fn order_of(sort: Option<SortField>) -> Option<HitOrder>
    requires { ForSome sort (λ sort. sort.field < 2 ^ 32) }
    ensures { result ≡ order_of sort }
{
    match sort {
        Some(sort) => Some(HitOrder {
            field: sort.field as u32,
            descending: sort.descending,
        }),
        None => None,
    }
}

// How many hits of each split are wanted: those that are passed over too, but none where none is shown.
fn wanted_of(passed: u32, shown: u32) -> usize
    ensures { result ≡ (if shown == 0 then 0 else passed + shown) }
{
    if shown == 0 {
        0
    } else {
        passed as usize + shown as usize
    }
}

/// What a search asks of each split. The number of the field by which it sorts is below 2^32, as each of a schema is.
pub(crate) fn leaf_ask(ask: SearchAsk) -> LeafAsk
    requires { ForSome ask.sort (λ sort. sort.field < 2 ^ 32) }
    ensures asks { Asks (search_view ask) result }
    // What the index of a schema can answer, a split of the schema can.
    ensures can { (s : Schema) → IsAnswerable s (search_view ask) → IsAsked s result.request }
    ensures intervals { (s : Schema) → IsAnswerable s (search_view ask) → HaveSteps result.request.aggs }
{
    let SearchAsk {
        query,
        times,
        start_offset,
        max_hits,
        sort,
        aggs,
    } = ask;
    LeafAsk {
        request: LeafRequest {
            query,
            times,
            order: order_of(sort),
            wanted: wanted_of(start_offset, max_hits),
            aggs,
        },
        page: Page {
            passed: start_offset as usize,
            shown: max_hits as usize,
        },
    }
}
