//! The replies of a run in the order of its requests.

ghost use Rattle.std.specs.Prelude.{◌≡◌, ◌<◌, false, IfOk, map};
ghost use Rattle.std.specs.List.{AllByRecursion};
ghost use Rattle.thread_run.specs.Replying.{by_client, replies_by};

use crate::filling::either;
use crate::outcome::Served;
use crate::serving::Answered;
use crate::turning::turns_of;
use run_plan::dealt;
use search_api::Reply;
use std::alloc::{AllocError, Global};

/// Lists, and whether there was no memory for all that they should have.
#[derive(Drop)]
pub struct Noted<A> {
    pub all: Vec<A>,
    pub short: bool,
}

// What each searcher answered.
fn answered_by(alloc: Global, served: Vec<Served>) -> Result<Noted<Vec<Answered>>, AllocError>
    ensures lists { IfOk result (λ noted. noted.all.items ≡ map (λ one. one.answered) served.items) }
    ensures whole { IfOk result (λ noted. noted.short ≡ false → AllByRecursion (λ one. one.short ≡ false) served.items) }
{
    let mut all = Vec::new(alloc);
    let mut lacks = false;
    for one in served {
        let Served { answered, short } = one;
        all.push(answered)?;
        lacks = either(lacks, short);
    }
    Ok(Noted { all, short: lacks })
}

// The replies of each client.
fn replies_in(alloc: Global, answered: Vec<Answered>) -> Result<Noted<Vec<Reply>>, AllocError>
    ensures lists { IfOk result (λ noted. noted.all.items ≡ map (λ one. one.replies) answered.items) }
    ensures whole { IfOk result (λ noted. noted.short ≡ false → AllByRecursion (λ one. one.short ≡ false) answered.items) }
{
    let mut all = Vec::new(alloc);
    let mut lacks = false;
    for one in answered {
        let Answered {
            client: _,
            replies,
            short,
        } = one;
        all.push(replies)?;
        lacks = either(lacks, short);
    }
    Ok(Noted { all, short: lacks })
}

/// The replies in the order of the requests, where `by` says of each request which client asks it, and the clients were shared out among
/// searchers, in turn.
pub fn replies_of(
    alloc: Global,
    by: &[usize],
    clients: usize,
    searchers: usize,
    served: Vec<Served>,
) -> Result<Noted<Reply>, AllocError>
    requires { 0 < searchers }
    ensures replies { IfOk result (λ noted. noted.all.items ≡ replies_by by.now (by_client searchers clients served.items)) }
    ensures served { IfOk result (λ noted. noted.short ≡ false → AllByRecursion (λ one. one.short ≡ false) served.items) }
    ensures answered { IfOk result (λ noted. noted.short ≡ false → AllByRecursion (λ one. one.short ≡ false) (by_client searchers clients served.items)) }
{
    let turns = turns_of(alloc, searchers, clients)?;
    let lists = answered_by(alloc, served)?;
    let answered = dealt(alloc, turns.as_slice(), lists.all)?;
    let replies = replies_in(alloc, answered)?;
    let short = either(lists.short, replies.short);
    let all = dealt(alloc, by, replies.all)?;
    Ok(Noted { all, short })
}
