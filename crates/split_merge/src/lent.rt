//! The values of a document, read in place.

ghost use Rattle.std.specs.Prelude.{◌≤◌, ℕ, length, IfOk};
ghost use Rattle.byte_fields.specs.Spelling.{SpelledAt};
ghost use Rattle.byte_fields.specs.Steps.{Gives};
ghost use Rattle.doc_value.specs.declared.doc.Value.{Value};
ghost use Rattle.split_bundle.specs.DocReading.{value_at};
ghost use Rattle.split_bundle.specs.Documents.{value_bytes};
ghost use Rattle.split_bundle.specs.Held.{IsHeldValue};
ghost use Rattle.split_merge.specs.Lent.{value_of};

use byte_fields::{Corrupt, take_flag, take_signed, take_text, take_varint};
use doc_value::Kind;

/// A value of a document, whose text is lent.
#[derive(Clone, Copy)]
pub(crate) enum LentValue<'a> {
    Text(&'a str),
    I64(i64),
    U64(u64),
    Bool(bool),
    Datetime(i64),
}

/// The value of a kind at a place, and the place behind it.
#[tactic(auto, unfolding(split_bundle::specs::DocReading::value_at, split_bundle::specs::DocReading::text_value_at))]
pub(crate) fn take_value(
    kind: Kind,
    bytes: &[u8],
    at: usize,
) -> Result<(LentValue<'_>, usize), Corrupt>
    requires { at ≤ length bytes.now }
    ensures found { IfOk result (λ x. SpelledAt bytes.now at (value_bytes (value_of x.0)) x.1) }
    ensures held { IfOk result (λ x. IsHeldValue (value_of x.0)) }
    ensures exact { Gives {Y = Value × ℕ} (λ x. (value_of x.0, x.1)) result (value_at kind bytes.now at) }
{
    match kind {
        Kind::Text | Kind::TextList => {
            let (text, next) = take_text(bytes, at)?;
            Ok((LentValue::Text(text), next))
        }
        Kind::I64 => {
            let (number, next) = take_signed(bytes, at)?;
            Ok((LentValue::I64(number), next))
        }
        Kind::U64 => {
            let (number, next) = take_varint(bytes, at)?;
            Ok((LentValue::U64(number), next))
        }
        Kind::Bool => {
            let (flag, next) = take_flag(bytes, at)?;
            Ok((LentValue::Bool(flag), next))
        }
        Kind::Datetime => {
            let (seconds, next) = take_signed(bytes, at)?;
            Ok((LentValue::Datetime(seconds), next))
        }
    }
}
