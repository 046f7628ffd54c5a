//! What a line asks.

use super::answered::answered;
use super::counted::{refused, steps, terms};
use agg_model::AggError;
use std::alloc::{AllocError, Global};

/// `terms N A/B` answers the N texts that most of the words of A and B are, where each word is a document and those of A and of B are
/// counted apart and merged; `steps I M Z` the steps of I in which at least M of the numbers Z lie; `check K I` whether steps of I
/// of a field of kind K are refused; `reply L=S .. + L=S ../T` the line of the reply to the request T over documents of a level L and a
/// size S, counted apart before the plus sign and behind it.
pub fn answer(alloc: Global, line: &str) -> Result<String, AllocError> {
    let (asked, rest) = line.split_once(' ').unwrap_or((line, ""));
    if asked == "reply" {
        return answered(alloc, rest);
    }
    let (number, rest) = rest.split_once(' ').unwrap_or((rest, ""));
    let counted = match asked {
        "terms" => terms(alloc, number.parse::<u32>().unwrap_or(0), rest),
        "steps" => steps(alloc, number.parse::<i64>().unwrap_or(0), rest),
        _ => refused(alloc, number, rest.parse::<i64>().unwrap_or(0)),
    };
    match counted {
        Ok(text) => Ok(text),
        Err(AggError::Memory(error)) => Err(error),
        Err(error) => format!(in alloc; "{error}"),
    }
}
