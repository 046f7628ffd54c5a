//! The requests of a run, by their clients.

ghost use Rattle.std.specs.Prelude.{◌≡◌, ◌++◌, ◌∷◌, [], ◌<◌, ℕ, List, IfOk, IfSome, OnOk, length, vec_len, Some};
ghost use Rattle.run_plan.specs.Asked.{AreAsked, HasPlaces, names_of, place_in};

use byte_fields::{Client, Text};
use std::alloc::{AllocError, Global};
use std::collections::BTreeMap;

/// A line of a run's input.
#[derive(Drop)]
pub struct Request {
    pub client: Client,
    pub text: Text,
}

/// What a client asks, in its order.
#[derive(Drop)]
pub struct Asking {
    pub client: Client,
    pub texts: Vec<Text>,
}

/// The clients of requests, in the order in which they first ask, and of each request which of them asks it.
#[derive(Drop)]
pub struct Clients {
    pub askings: Vec<Asking>,
    pub by: Vec<usize>,
    // The place of each client among them.
    places: BTreeMap<Client, usize>,
}

// The place of a client, where it asked before.
fn place_of(askings: &[Asking], places: &BTreeMap<Client, usize>, client: &Client) -> Option<usize>
    ensures within { IfSome result (λ place. place < length askings.now) }
    ensures exact { HasPlaces places.now.entries (names_of askings.now) → result ≡ place_in client.now (names_of askings.now) }
{
    match places.get(client) {
        Some(place) if *place < askings.len() => Some(*place),
        _ => None,
    }
}

// The place of a client, which begins to ask where it didn't before.
fn known(
    alloc: Global,
    askings: &mut Vec<Asking>,
    places: &mut BTreeMap<Client, usize>,
    client: &Client,
) -> Result<usize, AllocError>
    ensures within { IfOk result (λ place. place < vec_len askings.new) }
    ensures asked { IfOk result (λ place. (requests : List _) (by : List ℕ) → HasPlaces places.old.entries (names_of askings.old.items) → AreAsked requests askings.old.items by →
        HasPlaces places.new.entries (names_of askings.new.items) × AreAsked requests askings.new.items by × (place_in client.now (names_of askings.new.items) ≡ Some place)) }
{
    match place_of(askings.as_slice(), places, client) {
        Some(place) => Ok(place),
        None => {
            let place = askings.len();
            askings.reserve(1)?;
            places.insert(*client, place)?;
            let asking = Asking {
                client: *client,
                texts: Vec::new(alloc),
            };
            match askings.push(asking) {
                Ok(()) => Ok(place),
                Err(_) => unreachable!(),
            }
        }
    }
}

impl Clients {
    /// No requests yet.
    pub fn none(alloc: Global) -> Clients
        ensures { HasPlaces result.places.entries (names_of result.askings.items) × AreAsked [] result.askings.items result.by.items }
    {
        Clients {
            askings: Vec::new(alloc),
            by: Vec::new(alloc),
            places: BTreeMap::new(alloc),
        }
    }

    /// One request more. After want of memory they are of no use.
    pub fn add(&mut self, alloc: Global, request: Request) -> Result<(), AllocError>
        ensures { OnOk result ((requests : List Request) → HasPlaces self.old.places.entries (names_of self.old.askings.items) → AreAsked requests self.old.askings.items self.old.by.items →
            HasPlaces self.new.places.entries (names_of self.new.askings.items) × AreAsked (requests ++ request ∷ []) self.new.askings.items self.new.by.items) }
    {
        let Request { client, text } = request;
        let place = known(alloc, &mut self.askings, &mut self.places, &client)?;
        self.by.push(place)?;
        self.askings[place].texts.push(text)?;
        Ok(())
    }
}
