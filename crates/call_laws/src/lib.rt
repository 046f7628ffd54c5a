//! Laws of the calls of a world: how they move a core, and what they tell over a sound index.
#![tactic(auto)]
