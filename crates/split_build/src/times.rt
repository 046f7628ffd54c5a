//! The least and the greatest second of documents.

ghost use Rattle.std.specs.Prelude.{◌≡◌, ◌∷◌, ◌++◌, [], ℤ, List};
ghost use Rattle.std.specs.List.{flat_map};
ghost use Rattle.split_build.specs.Times.{AreEnds, AreTimes};
ghost use Rattle.split_bundle.specs.Tagged.{second_of};

use doc_value::Value;
use split_states::Times;

// The ends of the seconds so far and of one more.
fn widened(times: Option<Times>, second: i64) -> Times
    ensures { (seconds : List ℤ) → AreTimes seconds times → AreEnds (seconds ++ second ∷ []) result }
{
    match times {
        None => Times {
            least: second,
            greatest: second,
        },
        Some(times) => Times {
            least: times.least.min(second),
            greatest: times.greatest.max(second),
        },
    }
}

// The ends of the seconds so far and of a value, if it has one.
fn widened_with(times: Option<Times>, value: &Value) -> Option<Times>
    ensures { (seconds : List ℤ) → AreTimes seconds times → AreTimes (seconds ++ second_of value.now) result }
{
    match value {
        Value::Datetime(second) => Some(widened(times, *second)),
        _ => times,
    }
}

/// The ends of the seconds so far and of those of some values.
pub(crate) fn widened_by(times: Option<Times>, values: &[Value]) -> Option<Times>
    ensures { (seconds : List ℤ) → AreTimes seconds times → AreTimes (seconds ++ flat_map second_of values.now) result }
{
    let mut times = times;
    let mut rest = values;
    while let Some((value, behind)) = rest.split_first() {
        times = widened_with(times, value);
        rest = behind;
    }
    times
}
