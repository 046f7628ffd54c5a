//! The tokens of a text.

use std::alloc::{AllocError, Global};
use text_tokens::tokens::{Token, default_tokens, raw_tokens, whitespace_tokens};

/// Each token with its place in the text and its position.
pub fn cut(alloc: Global, tokenizer: &str, text: &str) -> Result<String, AllocError> {
    let tokens = match tokenizer {
        "raw" => raw_tokens(alloc, text)?,
        "whitespace" => whitespace_tokens(alloc, text)?,
        _ => default_tokens(alloc, text)?,
    };
    shown(alloc, tokens.as_slice())
}

fn shown(alloc: Global, tokens: &[Token]) -> Result<String, AllocError> {
    let mut shown = String::new(alloc);
    for token in tokens {
        let word = token.text.as_str();
        let part = format!(in alloc; "{word} {}..{} {};", token.from, token.to, token.position)?;
        shown.push_str(part.as_str())?;
    }
    Ok(shown)
}
