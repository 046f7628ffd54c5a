//! Which documents of a planned row's file tasks drop, by the file's dictionary, lists and columns.

ghost use Rattle.std.specs.Prelude.{◌≡◌, ◌≤◌, ◌==◌, ◌||◌, ◌&&◌, ◌<◌, ◌++◌, ◌∷◌, [], ℕ, List, length, nat_lt, IfOk, IsOkAnd, MatchResult};
ghost use Rattle.std.specs.List.{All};
ghost use Rattle.delete_tasks.specs.Removed.{lies_in};
ghost use Rattle.doc_sets.specs.Bits.{has};
ghost use Rattle.doc_sets.specs.BitWords.{members};
ghost use Rattle.doc_sets.specs.Faults.{IsMemory};
ghost use Rattle.doc_sets.specs.Sets.{is_one_of};
ghost use Rattle.doc_value.specs.declared.schema.Schema.{Schema};
ghost use Rattle.query_ast.specs.Askable.{CanAsk};
ghost use Rattle.source_checkpoint.specs.Deltas.{range_of};
ghost use Rattle.source_checkpoint.specs.declared.span.Span.{Span};
ghost use Rattle.split_bundle.specs.Files.{Parts, file_bytes};
ghost use Rattle.split_bundle.specs.Lending.{IsPartOf};
ghost use Rattle.split_bundle.specs.Splits.{IsSplit};
ghost use Rattle.split_bundle.specs.Wholes.{HaveAll};
ghost use Rattle.split_bundle.specs.declared.placed.Placed.{Placed};
ghost use Rattle.split_merge.specs.Keeping.{RiseFrom};
ghost use Rattle.upkeep_run.specs.Dropping.{AreAsked, HasDropped, IsAdmitted, IsDropSet, drops, holds, is_before, place_at};

use delete_tasks::Task;
use doc_sets::{DocBits, LeafError};
use doc_value::Schema;
use leaf_search::matching_numbers;
use source_checkpoint::Span;
use split_bundle::{Address, PartView};
use std::alloc::{AllocError, Global};

// Whether the record at an address is one of a span.
fn has_record(span: &Span, at: &Address) -> bool
    ensures { result ≡ lies_in (range_of span.now) (place_at at.now) }
{
    span.partition.is(&at.partition) && span.from <= at.offset && at.offset < span.to
}

// One span more: behind which task the record at an address was taken in.
fn admitted_with(admitted: u64, span: &Span, at: &Address) -> u64
    ensures { (spans : List Span) (upto : ℕ) → IsAdmitted spans upto (place_at at.now) admitted → IsAdmitted (spans ++ span.now ∷ []) upto (place_at at.now) result }
{
    if has_record(span, at) {
        admitted.min(span.admitted)
    } else {
        admitted
    }
}

// Behind which task the record at an address was taken in: the least one where several spans have it, and the last where none does.
fn admitted_at(spans: &[Span], upto: u64, at: &Address) -> u64
    ensures { IsAdmitted spans.now upto (place_at at.now) result }
{
    let mut admitted = upto;
    for span in spans {
        admitted = admitted_with(admitted, span, at);
    }
    admitted
}

// Puts a document in whose record was taken in before a task.
fn put_before(number: u32, admitted: u64, opstamp: u64, bits: &mut DocBits)
    requires { number < bits.old.size }
    ensures size { bits.new.size ≡ bits.old.size }
    ensures has { (k : ℕ) → has bits.new k ≡ (has bits.old k || ((k == number) && nat_lt admitted opstamp)) }
{
    if admitted < opstamp {
        bits.insert(number);
    }
}

// Puts those of some documents of a view in whose records were taken in before a task up to the last. Of no other document the
// address is read.
fn put_each(
    numbers: &[u32],
    spans: &[Span],
    upto: u64,
    opstamp: u64,
    view: &PartView<'_>,
    bits: &mut DocBits,
) -> Result<(), LeafError>
    requires below { All (λ n. n < view.now.footer.layout.docs) numbers.now }
    requires size { bits.old.size ≡ view.now.footer.layout.docs }
    requires task { opstamp ≤ upto }
    ensures size { bits.new.size ≡ bits.old.size }
    // Of a split of documents, where the pieces have every part of the file, nothing is wanting.
    ensures there { (s : Schema) (documents : List Placed) (p : Parts) → IsPartOf view.now s documents p → HaveAll (file_bytes p) view.now.pieces →
        IsOkAnd result (λ _. (k : ℕ) → has bits.new k ≡ (has bits.old k || (is_one_of k numbers.now && holds (is_before spans.now opstamp) documents k))) }
{
    for number in numbers {
        let at = view.address(*number)?;
        put_before(*number, admitted_at(spans, upto, &at), opstamp, bits);
    }
    Ok(())
}

// Puts in what a task drops, if it is one up to the last.
fn put_dropped(
    alloc: Global,
    schema: &Schema,
    spans: &[Span],
    task: &Task,
    upto: u64,
    view: &PartView<'_>,
    bits: &mut DocBits,
) -> Result<(), LeafError>
    requires fields { length schema.now.fields ≤ 256 }
    requires size { bits.old.size ≡ view.now.footer.layout.docs }
    ensures size { bits.new.size ≡ bits.old.size }
    ensures there { (documents : List Placed) (p : Parts) → IsPartOf view.now schema.now documents p → HaveAll (file_bytes p) view.now.pieces → CanAsk schema.now task.now.query →
        MatchResult result (λ _. (k : ℕ) → k < length documents → has bits.new k ≡ (has bits.old k || holds (λ d. drops schema.now spans.now upto d task.now) documents k)) IsMemory }
{
    if upto < task.opstamp {
        return Ok(());
    }
    let numbers = matching_numbers(alloc, schema, &task.query, task.times, view)?;
    put_each(numbers.as_slice(), spans, upto, task.opstamp, view, bits)
}

// The numbers of a set, as places.
fn places_of(alloc: Global, bits: &DocBits) -> Result<Vec<u64>, AllocError>
    ensures { IfOk result (λ places. places.items ≡ members (has bits.now) 0 bits.now.size) }
{
    let numbers = bits.numbers(alloc)?;
    let mut places = Vec::new(alloc);
    for number in numbers.as_slice() {
        places.push(u64::from(*number))?;
    }
    Ok(places)
}

// The set of the documents of a view that tasks drop.
fn dropped_in(
    alloc: Global,
    schema: &Schema,
    spans: &[Span],
    tasks: &[Task],
    upto: u64,
    view: &PartView<'_>,
) -> Result<DocBits, LeafError>
    requires { length schema.now.fields ≤ 256 }
    ensures size { IfOk result (λ bits. bits.size ≡ view.now.footer.layout.docs) }
    ensures there { (documents : List Placed) (p : Parts) → IsPartOf view.now schema.now documents p → HaveAll (file_bytes p) view.now.pieces → AreAsked schema.now tasks.now →
        MatchResult result (HasDropped schema.now spans.now tasks.now upto documents) IsMemory }
{
    let mut bits = DocBits::vacant(alloc, view.doc_count())?;
    for task in tasks {
        put_dropped(alloc, schema, spans, task, upto, view, &mut bits)?;
    }
    Ok(bits)
}

/// The places of a file's documents that tasks up to one drop: those that a task removes whose records were taken in before it, by
/// these spans.
pub(crate) fn dropped(
    alloc: Global,
    schema: &Schema,
    spans: &[Span],
    tasks: &[Task],
    upto: u64,
    file: &[u8],
) -> Result<Vec<u64>, LeafError>
    requires { length schema.now.fields ≤ 256 }
    // Whatever the bytes are, the places rise.
    ensures rise { IfOk result (λ places. RiseFrom 0 places.items) }
    // Of a split of documents of which all tasks can be asked: its drop set, or want of memory.
    ensures there { (documents : List Placed) → IsSplit schema.now file.now documents → AreAsked schema.now tasks.now →
        MatchResult result (λ places. IsDropSet schema.now spans.now tasks.now upto documents places.items) IsMemory }
{
    let view = PartView::whole(alloc, file)?;
    let bits = dropped_in(alloc, schema, spans, tasks, upto, &view)?;
    Ok(places_of(alloc, &bits)?)
}
