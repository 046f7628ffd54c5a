//! What a split of some documents is, and what it is merged to.

pub mod answers;
mod merged;
mod shown;
