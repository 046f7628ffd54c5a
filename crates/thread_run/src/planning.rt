//! Who answers which request.

ghost use Rattle.std.specs.Prelude.{◌<◌, IfOk};
ghost use Rattle.run_plan.specs.Asked.{AreAsked};
ghost use Rattle.thread_run.specs.Planning.{IsPlanned};

use crate::sharing::shared_out;
use run_plan::{Asking, Clients, Request};
use std::alloc::{AllocError, Global};

/// The clients of a run, shared out among its searchers.
#[derive(Drop)]
pub struct Plan {
    /// The clients of each searcher.
    pub shares: Vec<Vec<Asking>>,
    /// Of each request which of the clients asks it.
    pub by: Vec<usize>,
    /// How many clients there are.
    pub clients: usize,
}

// The clients of requests, with what each of them asks.
fn clients_of(alloc: Global, requests: Vec<Request>) -> Result<Clients, AllocError>
    ensures { IfOk result (λ clients. AreAsked requests.items clients.askings.items clients.by.items) }
{
    let mut clients = Clients::none(alloc);
    for request in requests {
        clients.add(alloc, request)?;
    }
    Ok(clients)
}

/// Shares the clients of requests out among so many searchers.
pub fn planned(alloc: Global, requests: Vec<Request>, searchers: usize) -> Result<Plan, AllocError>
    requires { 0 < searchers }
    ensures { IfOk result (IsPlanned requests.items searchers) }
{
    let clients = clients_of(alloc, requests)?;
    let Clients { askings, by, .. } = clients;
    let clients = askings.len();
    let shares = shared_out(alloc, askings, searchers)?;
    Ok(Plan {
        shares,
        by,
        clients,
    })
}
