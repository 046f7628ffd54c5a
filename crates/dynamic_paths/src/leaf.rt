//! The text under which a leaf is listed.

ghost use Rattle.std.specs.Prelude.{◌≡◌, ◌<◌, ◌≤◌, length, decimal, IfOk};
ghost use Rattle.dynamic_paths.specs.LeafTexts as spec;

use doc_value::Text;
use std::alloc::{AllocError, Global};
use std::string::ToString;

/// How many bytes a leaf text has at most; a longer one is dropped.
pub const MAX_LEAF_TEXT: usize = 255;

/// The path's length in bytes in decimal, `:`, the path, `:`, the text.
pub fn leaf_text(alloc: Global, path: &str, text: &str) -> Result<Text, AllocError>
    ensures { IfOk result (λ leaf. leaf ≡ spec.leaf_text path.now text.now) }
{
    let digits = path.len().to_string(alloc)?;
    let room = digits
        .len()
        .saturating_add(path.len())
        .saturating_add(text.len())
        .saturating_add(2);
    let mut held = String::with_capacity(alloc, room)?;
    held.push_str(digits.as_str())?;
    held.push(':')?;
    held.push_str(path)?;
    held.push(':')?;
    held.push_str(text)?;
    Ok(Text::from_string(held))
}

/// Whether the leaf text of a path and a text is kept; it is not made for this.
pub fn fits(path: &str, text: &str) -> bool
    ensures { result ≡ spec.fits (spec.leaf_text path.now text.now) }
{
    let path_len = path.len();
    let text_len = text.len();
    if path_len > MAX_LEAF_TEXT || text_len > MAX_LEAF_TEXT {
        return false;
    }
    count_digits(path_len) + path_len + text_len + 2 <= MAX_LEAF_TEXT
}

/// How many digits a number has that is below 1,000.
fn count_digits(number: usize) -> usize
    requires { number < 1000 }
    ensures digits { result ≡ length (decimal number) }
    ensures few { result ≤ 3 }
{
    if number < 10 {
        1
    } else if number < 100 {
        2
    } else {
        3
    }
}
