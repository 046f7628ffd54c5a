//! Which documents the tasks remove.

ghost use Rattle.std.specs.Prelude.{◌≡◌, ◌&&◌, IfOk, nat_lt, nat_le};
ghost use Rattle.delete_tasks.specs.Removes.{removes};
ghost use Rattle.delete_tasks.specs.Removed.{covered, covered_by};

use crate::task::Task;
use crate::tasks::Tasks;
use doc_value::{Doc, Schema};
use query_ast::{lies_in, matches};
use source_checkpoint::Span;
use std::alloc::{AllocError, Global};

/// Whether the task stands behind the one opstamp and not behind the other.
fn is_between(task: &Task, admitted: u64, upto: u64) -> bool
    ensures { result ≡ (nat_lt admitted task.now.opstamp && nat_le task.now.opstamp upto) }
{
    admitted < task.opstamp && task.opstamp <= upto
}

/// Whether the document lies within the task's times and meets its query.
fn is_removed(alloc: Global, task: &Task, schema: &Schema, doc: &Doc) -> Result<bool, AllocError>
    ensures { IfOk result (λ b. b ≡ removes schema.now doc.now task.now) }
{
    if !lies_in(schema, &task.times, doc) {
        return Ok(false);
    }
    matches(alloc, schema, &task.query, doc)
}

/// Whether some task behind the span's `admitted` and up to `upto` removes the document: it lies within the task's
/// times and meets its query.
pub fn covers(
    alloc: Global,
    tasks: &Tasks,
    span: &Span,
    upto: u64,
    schema: &Schema,
    doc: &Doc,
) -> Result<bool, AllocError>
    ensures { IfOk result (λ b. b ≡ covered schema.now doc.now tasks.now.list span.now.admitted upto) }
{
    for task in tasks.as_slice() {
        if is_between(task, span.admitted, upto) && is_removed(alloc, task, schema, doc)? {
            return Ok(true);
        }
    }
    Ok(false)
}
