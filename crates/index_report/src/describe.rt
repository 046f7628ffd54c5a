//! The index as a whole.

ghost use Rattle.std.specs.Prelude.{◌≡◌, ◌++◌, ◌∷◌, [], IfOk, OnOk, string_bytes, flat_map, decimal};
ghost use Rattle.index_report.specs.Reports as spec;

use crate::counts::count_rows;
use meta_store::Meta;
use source_checkpoint::Checkpoint;
use split_states::Row;
use std::alloc::{AllocError, Global};
use std::fmt::Write;

fn put_numbered(out: &mut String, word: &str, number: u64) -> Result<(), AllocError>
    ensures { OnOk result (string_bytes out.new ≡ string_bytes out.old ++ spec.line (word.now ∷ decimal number ∷ [])) }
{
    writeln!(out, "{word} {number}")
}

/// How many rows stand in each state, and what the Published ones have.
fn put_counts(out: &mut String, rows: &[Row]) -> Result<(), AllocError>
    ensures { OnOk result (string_bytes out.new ≡ string_bytes out.old ++ (spec.states_line rows.now ++ spec.records_line rows.now)) }
{
    let counts = count_rows(rows);
    let staged = counts.staged;
    let published = counts.published;
    let marked = counts.marked;
    writeln!(out, "staged {staged} published {published} marked {marked}")?;
    writeln!(out, "docs {} rejected {}", counts.docs, counts.rejected)
}

fn put_checkpoint(out: &mut String, checkpoint: &Checkpoint) -> Result<(), AllocError>
    ensures { OnOk result (string_bytes out.new ≡ string_bytes out.old ++ spec.checkpoint_line checkpoint.now) }
{
    writeln!(out, "checkpoint {} {}", checkpoint.partition, checkpoint.at)
}

fn put_checkpoints(out: &mut String, checkpoints: &[Checkpoint]) -> Result<(), AllocError>
    ensures { OnOk result (string_bytes out.new ≡ string_bytes out.old ++ flat_map spec.checkpoint_line checkpoints.now) }
{
    for checkpoint in checkpoints {
        put_checkpoint(out, checkpoint)?;
    }
    Ok(())
}

/// What is told of an index as a whole: its revision, its last task, how many rows stand in each state, the documents
/// and refused records of the Published ones, and each partition's checkpoint in the order of the names.
#[tactic(auto, unfolding(crate::specs::Reports::describe_text))]
pub fn print_describe(alloc: Global, meta: &Meta) -> Result<String, AllocError>
    ensures { IfOk result (λ text. string_bytes text ≡ spec.describe_text meta.now.state) }
{
    let mut out = String::new(alloc);
    put_numbered(&mut out, "revision", meta.revision())?;
    put_numbered(&mut out, "opstamp", meta.last_opstamp())?;
    put_counts(&mut out, meta.rows().as_slice())?;
    put_checkpoints(&mut out, meta.checkpoints().as_slice())?;
    Ok(out)
}
