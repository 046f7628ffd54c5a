//! Laws of requests: what one is refused for is of its text.
#![tactic(auto)]
