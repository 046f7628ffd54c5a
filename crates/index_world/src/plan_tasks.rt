//! Copies of the tasks: those up to an opstamp, and those that a plan takes along.

ghost use Rattle.std.specs.Prelude.{◌≡◌, IfOk, drop, slice_get};
ghost use Rattle.index_world.specs.PlanTasks as spec;

use byte_fields::List;
use delete_tasks::Task;
use meta_store::{Choice, PlanRow};
use query_ast::copy_query;
use source_checkpoint::Span;
use std::alloc::{AllocError, Global};

// The least task behind which a record of these spans was taken in, and at most the last one.
fn least_of(upto: u64, spans: &[Span]) -> u64
    ensures { result ≡ spec.least_of upto spans.now }
{
    let mut least = upto;
    for span in spans {
        least = least.min(span.admitted);
    }
    least
}

// The spans of the first of some planned rows.
fn first_spans(rows: &[PlanRow]) -> &[Span]
    ensures { result.now ≡ spec.spans_in (slice_get rows.now 0) }
{
    match rows.get(0) {
        Some(row) => match &row.work {
            Some(work) => work.spans.as_slice(),
            None => &[],
        },
        None => &[],
    }
}

// The tasks behind this one, in their order.
fn tasks_behind(tasks: &[Task], behind: u64) -> &[Task]
    ensures { result.now ≡ drop behind tasks.now }
{
    let from = behind.min(tasks.len() as u64) as usize;
    &tasks[from..]
}

fn copied_task(alloc: Global, task: &Task) -> Result<Task, AllocError>
    ensures { IfOk result (λ copy. copy ≡ task.now) }
{
    Ok(Task {
        opstamp: task.opstamp,
        query: copy_query(alloc, &task.query)?,
        times: task.times,
    })
}

fn copied_tasks(alloc: Global, tasks: &[Task]) -> Result<List<Task>, AllocError>
    ensures { IfOk result (λ copies. copies ≡ tasks.now) }
{
    let mut copies = List::vacant(alloc);
    for task in tasks {
        copies.push(copied_task(alloc, task)?)?;
    }
    Ok(copies)
}

/// Copies of the tasks whose opstamps are at most `upto`, in their order.
pub(crate) fn copied_upto(
    alloc: Global,
    tasks: &[Task],
    upto: u64,
) -> Result<List<Task>, AllocError>
    ensures { IfOk result (λ copies. copies ≡ spec.tasks_upto upto tasks.now) }
{
    let mut copies = List::vacant(alloc);
    for task in tasks {
        if task.opstamp <= upto {
            copies.push(copied_task(alloc, task)?)?;
        }
    }
    Ok(copies)
}

/// Copies of the tasks that a plan of these rows takes along, of all tasks up to the last one.
pub(crate) fn plan_tasks(
    alloc: Global,
    choice: &Choice,
    upto: u64,
    rows: &[PlanRow],
    tasks: &[Task],
) -> Result<List<Task>, AllocError>
    ensures { IfOk result (λ copies. copies ≡ spec.plan_tasks choice.now upto rows.now tasks.now) }
{
    match choice {
        Choice::Deletes => {
            let least = least_of(upto, first_spans(rows));
            copied_tasks(alloc, tasks_behind(tasks, least))
        }
        Choice::Search { .. } | Choice::Merge | Choice::Every | Choice::Look => {
            Ok(List::vacant(alloc))
        }
    }
}
