//! The parts of compact JSON.

ghost use Rattle.std.specs.Prelude.{◌≡◌, ◌++◌, OnOk};
ghost use Rattle.std.specs.Fmt.{decimal};
ghost use Rattle.doc_value.specs.Printed.{comma, quoted};
ghost use Rattle.search_api.specs.Replies as spec;

use doc_value::Bytes;
use doc_value::values::push_quoted;
use std::alloc::{AllocError, Global};
use std::string::ToString;

/// A comma before all but the first.
pub fn push_comma(out: &mut Bytes, first: bool) -> Result<(), AllocError>
    ensures { OnOk result (out.new ≡ out.old ++ comma first) }
{
    if first { Ok(()) } else { out.push(b',') }
}

/// A key and its colon, behind a comma unless it is the first.
#[tactic(auto, unfolding(crate::specs::Replies::begun_pair))]
pub fn push_key(out: &mut Bytes, first: bool, key: &[u8]) -> Result<(), AllocError>
    ensures { OnOk result (out.new ≡ out.old ++ spec.begun_pair first key.now) }
{
    push_comma(out, first)?;
    push_quoted(out, key)?;
    out.push(b':')
}

pub fn push_digits(alloc: Global, out: &mut Bytes, number: u128) -> Result<(), AllocError>
    ensures { OnOk result (out.new ≡ out.old ++ decimal number) }
{
    out.extend(number.to_string(alloc)?.as_bytes())
}

/// A key and a text.
#[tactic(auto, using(crate::proofs::Objects::keyed))]
pub fn push_text(out: &mut Bytes, first: bool, key: &[u8], text: &[u8]) -> Result<(), AllocError>
    ensures { OnOk result (out.new ≡ out.old ++ (comma first ++ spec.pair_text key.now (quoted text.now))) }
{
    push_key(out, first, key)?;
    push_quoted(out, text)
}

/// A key and a number.
#[tactic(auto, using(crate::proofs::Objects::keyed))]
pub fn push_number(
    alloc: Global,
    out: &mut Bytes,
    first: bool,
    key: &[u8],
    number: u128,
) -> Result<(), AllocError>
    ensures { OnOk result (out.new ≡ out.old ++ (comma first ++ spec.pair_text key.now (decimal number))) }
{
    push_key(out, first, key)?;
    push_digits(alloc, out, number)
}
