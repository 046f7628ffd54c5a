//! Requests that are refused, by reading or over the schema.

ghost use Rattle.std.specs.Prelude.{◌≡◌, None, IfOk};
ghost use Rattle.doc_value.specs.declared.schema.Schema.{Schema};
ghost use Rattle.search_api.specs.Answerable.{CanAnswer};
ghost use Rattle.search_api.specs.Resolved.{view};

use super::replies::line_of;
use super::schemas::logs;
use doc_value::{Bytes, Schema};
use search_api::{Resolved, Said, Unanswered, read_request, resolve};
use std::alloc::{AllocError, Global};

/// A request over the schema, whose first field is its default field.
pub fn over_logs(alloc: Global, text: &[u8]) -> Result<Resolved, Unanswered>
    ensures { IfOk result (λ asked. (schema : Schema) × CanAnswer schema (view asked)) }
{
    let schema = logs(alloc)?;
    over(alloc, &schema, text)
}

fn over(alloc: Global, schema: &Schema, text: &[u8]) -> Result<Resolved, Unanswered>
    requires { schema.now.dynamic ≡ None }
    ensures { IfOk result (λ asked. CanAnswer schema.now (view asked)) }
{
    let request = read_request(alloc, text)?;
    resolve(alloc, schema, &[0], &request)
}

/// The line of a refusal.
pub fn refused(alloc: Global, reason: Unanswered) -> Result<String, AllocError> {
    match reason {
        Unanswered::Refused(refusal) => line_of(alloc, Said::Refused(refusal)),
        Unanswered::Memory(error) => Err(error),
    }
}

/// The line of the refusal of a request, or `ok`.
pub fn answered(alloc: Global, text: &[u8]) -> Result<String, AllocError> {
    match over_logs(alloc, text) {
        Ok(_) => String::from_str(alloc, "ok"),
        Err(reason) => refused(alloc, reason),
    }
}

/// A request of so many opening brackets.
pub fn nested(alloc: Global, many: &str) -> Result<String, AllocError> {
    let mut text = Bytes::vacant(alloc);
    for _ in 0..many.parse::<u32>().unwrap_or(0) {
        text.push(b'[')?;
    }
    answered(alloc, text.as_slice())
}
