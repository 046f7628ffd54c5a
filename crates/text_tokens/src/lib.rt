//! The three tokenizers.
#![tactic(auto)]

pub mod laws;
pub mod runs;
pub mod token_text;
pub mod tokens;

pub use token_text::TokenText;
pub use tokens::{MAX_TOKEN, Token, Tokens, default_tokens, raw_tokens, whitespace_tokens};
