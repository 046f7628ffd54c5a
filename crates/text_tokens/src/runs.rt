ghost use Rattle.std.specs.Prelude.{◌≡◌, ◌++◌, IfOk, OnOk};
ghost use Rattle.std.specs.Str.{chars};
ghost use Rattle.text_tokens.specs.Runs.{is_number as is_numeral, is_inside as belongs, runs_from, closed};

use crate::token_text::TokenText;
use std::alloc::{AllocError, Global};
use unicode::properties::{GeneralCategory, is_alphabetic};

/// How a text is cut into runs: between blanks, or into words of letters and numbers.
#[derive(Clone, Copy)]
pub enum Cut {
    Blanks,
    Words,
}

/// A run of a text's characters: its bytes, and where it begins and ends in the text, in bytes.
#[derive(Drop)]
pub struct Run {
    pub text: TokenText,
    pub from: usize,
    pub to: usize,
}

fn is_number(category: GeneralCategory) -> bool
    ensures { result ≡ is_numeral category }
{
    matches!(
        category,
        GeneralCategory::DecimalNumber
            | GeneralCategory::LetterNumber
            | GeneralCategory::OtherNumber
    )
}

/// Whether a character belongs to a run.
fn is_inside(cut: Cut, letter: char) -> bool
    ensures { result ≡ belongs cut letter }
{
    match cut {
        Cut::Blanks => !letter.is_whitespace(),
        Cut::Words => is_alphabetic(letter) || is_number(GeneralCategory::for_char(letter)),
    }
}

/// The maximal runs of a text, in order.
pub fn runs_of(alloc: Global, cut: Cut, text: &str) -> Result<Vec<Run>, AllocError>
    ensures { IfOk result (λ runs. runs.items ≡ runs_from cut 0 (chars text.now)) }
{
    let mut runs = Vec::new(alloc);
    let mut run = Run {
        text: TokenText::vacant(alloc),
        from: 0,
        to: 0,
    };
    for letter in text.chars() {
        let next = run.to + letter.len_utf8();
        if is_inside(cut, letter) {
            run.text.push(letter)?;
            run.to = next;
        } else {
            close(&mut runs, run)?;
            run = Run {
                text: TokenText::vacant(alloc),
                from: next,
                to: next,
            };
        }
    }
    close(&mut runs, run)?;
    Ok(runs)
}

/// Keeps a run that has characters.
fn close(runs: &mut Vec<Run>, run: Run) -> Result<(), AllocError>
    ensures { OnOk result (runs.new.items ≡ runs.old.items ++ closed run) }
{
    if run.text.len() > 0 {
        runs.push(run)?;
    }
    Ok(())
}
