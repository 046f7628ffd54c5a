ghost use Rattle.std.specs.Prelude.{◌≡◌, ◌<◌, ◌∷◌, [], ◌++◌, length, slice_get, Some, IfOk, OnOk, OnErr};
ghost use Rattle.std.specs.Str.{chars};
ghost use Rattle.text_tokens.specs.Runs.{runs_from};
ghost use Rattle.text_tokens.specs.Tokens as spec;

use crate::runs::{Cut, Run, runs_of};
use crate::token_text::TokenText;
use caseless::default_case_fold_str;
use std::alloc::{AllocError, Global};
use std::marker::Model;

/// The longest text in bytes that makes a raw token, and the longest run that makes a default token.
pub const MAX_TOKEN: usize = 255;

/// A token: its text, the bytes `from..to` of the source that it comes of, and its place among the runs.
#[derive(Drop)]
pub struct Token {
    pub text: TokenText,
    pub from: usize,
    pub to: usize,
    pub position: usize,
}

/// The tokens of a text, in its order.
#[derive(Drop)]
pub struct Tokens {
    list: Vec<Token>,
}

impl Model for Tokens {
    ghost use Rattle.std.specs.Prelude.{List};
    ghost use Rattle.text_tokens.specs.declared.tokens.Token.{Token};

    ghost Value = { List Token };

    ghost view = { λ t. t.list.items };
}

impl Tokens {
    pub fn vacant(alloc: Global) -> Tokens
        ensures { result ≡ [] }
    {
        Tokens {
            list: Vec::new(alloc),
        }
    }

    pub fn as_slice(&self) -> &[Token]
        ensures { result.now ≡ self.now }
    {
        self.list.as_slice()
    }

    pub fn len(&self) -> usize
        ensures { result ≡ length self.now }
    {
        self.list.len()
    }

    pub fn at(&self, index: usize) -> &Token
        requires { index < length self.now }
        ensures { slice_get self.now index ≡ Some result.now }
    {
        &self.as_slice()[index]
    }

    pub fn push(&mut self, token: Token) -> Result<(), AllocError>
        ensures ok { OnOk result (self.new ≡ self.old ++ token ∷ []) }
        ensures err { OnErr result (self.new ≡ self.old) }
    {
        self.list.push(token)?;
        Ok(())
    }
}

/// The whole text as one token at position 0, also the empty text; none of a text over 255 bytes.
pub fn raw_tokens(alloc: Global, text: &str) -> Result<Tokens, AllocError>
    ensures { IfOk result (λ tokens. tokens ≡ spec.raw_tokens text.now) }
{
    let mut tokens = Tokens::vacant(alloc);
    if text.len() <= MAX_TOKEN {
        tokens.push(Token {
            text: TokenText::from_str(alloc, text)?,
            from: 0,
            to: text.len(),
            position: 0,
        })?;
    }
    Ok(tokens)
}

/// The maximal runs of characters that aren't white space, whatever their length.
pub fn whitespace_tokens(alloc: Global, text: &str) -> Result<Tokens, AllocError>
    ensures { IfOk result (λ tokens. tokens ≡ spec.whitespace_tokens text.now) }
{
    tokens_of(alloc, Cut::Blanks, text)
}

/// The maximal runs of letters and numbers with case folded. A run over 255 bytes gives no token, and its position is
/// counted.
pub fn default_tokens(alloc: Global, text: &str) -> Result<Tokens, AllocError>
    ensures { IfOk result (λ tokens. tokens ≡ spec.default_tokens text.now) }
{
    tokens_of(alloc, Cut::Words, text)
}

fn tokens_of(alloc: Global, cut: Cut, text: &str) -> Result<Tokens, AllocError>
    ensures { IfOk result (λ tokens. tokens ≡ spec.numbered cut 0 (runs_from cut 0 (chars text.now))) }
{
    let runs = runs_of(alloc, cut, text)?;
    let mut tokens = Vec::new(alloc);
    for (position, run) in runs.iter().enumerate() {
        if let Some(token) = token_of(alloc, cut, position, run)? {
            tokens.push(token)?;
        }
    }
    Ok(Tokens { list: tokens })
}

/// The token of a run, if it has one.
fn token_of(
    alloc: Global,
    cut: Cut,
    position: usize,
    run: &Run,
) -> Result<Option<Token>, AllocError>
    ensures { IfOk result (λ token. token ≡ spec.token_of cut position run.now) }
{
    match cut {
        Cut::Blanks => Ok(Some(Token {
            text: run.text.copy(alloc)?,
            from: run.from,
            to: run.to,
            position,
        })),
        Cut::Words => {
            if run.text.len() > MAX_TOKEN {
                return Ok(None);
            }
            let text = default_case_fold_str(alloc, run.text.as_str())?;
            Ok(Some(Token {
                text: TokenText::from_string(text),
                from: run.from,
                to: run.to,
                position,
            }))
        }
    }
}
