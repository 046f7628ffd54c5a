//! What may hold a search back.

use byte_fields::Client;

/// Is told of a client's search before its splits are searched, and of its reply.
pub trait LeafHold: Sync {
    /// All planned splits are fetched, and the next step searches them.
    fn before_leaf(&self, client: &Client);

    /// The client has its reply.
    fn after_reply(&self, client: &Client);
}

/// Holds nothing back.
#[derive(Drop)]
pub struct NoHold;

impl LeafHold for NoHold {
    fn before_leaf(&self, _client: &Client) {}

    fn after_reply(&self, _client: &Client) {}
}
