// The tokens of a field.

ghost use Rattle.std.specs.Prelude.{◌≡◌, IfOk};
ghost use Rattle.query_ast.specs.FieldTokens.{field_tokens, prefix_text};
ghost use Rattle.text_tokens.specs.Tokens.{folded};

use caseless::default_case_fold_str;
use doc_value::{Field, Text, Tokenizer};
use std::alloc::{AllocError, Global};
use text_tokens::{Tokens, default_tokens, raw_tokens, whitespace_tokens};

/// The tokens that the field's tokenizer makes of a text.
pub fn tokens_of(alloc: Global, field: &Field, text: &str) -> Result<Tokens, AllocError>
    ensures { IfOk result (λ tokens. tokens ≡ field_tokens field.now text.now) }
{
    match field.tokenizer {
        Tokenizer::Raw => raw_tokens(alloc, text),
        Tokenizer::Whitespace => whitespace_tokens(alloc, text),
        Tokenizer::Default => default_tokens(alloc, text),
    }
}

/// The text with case folded.
fn folded_text(alloc: Global, text: &str) -> Result<Text, AllocError>
    ensures { IfOk result (λ t. t ≡ folded text.now) }
{
    match default_case_fold_str(alloc, text) {
        Ok(string) => Ok(Text::from_string(string)),
        Err(error) => Err(error),
    }
}

/// A prefix as the field's tokens begin with it: with case folded where the tokenizer is Default.
pub fn folded_prefix(alloc: Global, field: &Field, text: &str) -> Result<Text, AllocError>
    ensures { IfOk result (λ t. t ≡ prefix_text field.now text.now) }
{
    match field.tokenizer {
        Tokenizer::Default => folded_text(alloc, text),
        _ => Text::from_str(alloc, text),
    }
}
