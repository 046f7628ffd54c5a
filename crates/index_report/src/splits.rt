//! A line for each row.

ghost use Rattle.std.specs.Prelude.{◌≡◌, ◌++◌, ◌∷◌, IfOk, OnOk, string_bytes, map, flat_map};
ghost use Rattle.split_states.specs.Rows.{RowsRise};
ghost use Rattle.index_report.specs.Reports as spec;

use meta_store::Meta;
use source_checkpoint::Span;
use split_states::{Row, RowState, Times};
use std::alloc::{AllocError, Global};
use std::fmt::Write;

fn state_word(state: RowState) -> &'static str
    ensures { result.now ≡ spec.state_word state }
{
    match state {
        RowState::Staged => "staged",
        RowState::Published => "published",
        RowState::Marked => "marked",
    }
}

fn put_times(out: &mut String, times: Option<Times>) -> Result<(), AllocError>
    ensures { OnOk result (string_bytes out.new ≡ string_bytes out.old ++ spec.times_word times) }
{
    match times {
        None => out.push_str("none"),
        Some(times) => write!(out, "{}..{}", times.least, times.greatest),
    }
}

fn put_span(out: &mut String, span: &Span) -> Result<(), AllocError>
    ensures { OnOk result (string_bytes out.new ≡ string_bytes out.old ++ 32 ∷ spec.span_word span.now) }
{
    write!(
        out,
        " {}:{}-{}:{}:{}",
        span.partition, span.from, span.to, span.admitted, span.applied
    )
}

fn put_spans(out: &mut String, spans: &[Span]) -> Result<(), AllocError>
    ensures { OnOk result (string_bytes out.new ≡ string_bytes out.old ++ spec.line_on (map spec.span_word spans.now)) }
{
    for span in spans {
        put_span(out, span)?;
    }
    out.push_str("\n")?;
    Ok(())
}

fn put_all_spans(out: &mut String, spans: &[Span]) -> Result<(), AllocError>
    ensures { OnOk result (string_bytes out.new ≡ string_bytes out.old ++ spec.line_on (spec.span_words spans.now)) }
{
    if spans.is_empty() {
        return out.push_str(" none\n");
    }
    put_spans(out, spans)
}

fn put_row(out: &mut String, row: &Row) -> Result<(), AllocError>
    ensures { OnOk result (string_bytes out.new ≡ string_bytes out.old ++ spec.row_line row.now) }
{
    write!(
        out,
        "{} {} docs {} rejected {} merges {} times ",
        row.number,
        state_word(row.state),
        row.facts.docs,
        row.facts.rejected,
        row.merge_ops
    )?;
    put_times(out, row.facts.times)?;
    out.push_str(" spans")?;
    put_all_spans(out, row.spans.as_slice())
}

fn print_rows(alloc: Global, rows: &[Row]) -> Result<String, AllocError>
    ensures { IfOk result (λ text. string_bytes text ≡ flat_map spec.row_line rows.now) }
{
    let mut out = String::new(alloc);
    for row in rows {
        put_row(&mut out, row)?;
    }
    Ok(out)
}

/// A line for each row, by number.
#[tactic(auto, unfolding(crate::specs::Reports::splits_text))]
pub fn print_splits(alloc: Global, meta: &Meta) -> Result<String, AllocError>
    ensures text { IfOk result (λ text. string_bytes text ≡ spec.splits_text meta.now.state.rows) }
    // The rows of a state stand by number.
    ensures order { RowsRise meta.now.state.rows }
{
    print_rows(alloc, meta.rows().as_slice())
}
