//! Classes of documents that count alike for an aggregation.

ghost use Rattle.std.specs.Prelude.{◌≡◌, false, ◌<◌, ◌+◌, ◌^◌, ◌≤◌, ◌↔◌, ℕ, ℤ, pos, ◌≤ℤ◌, List, Option, IfOk, IfSome, IsTrue, length, vec_len};
ghost use Rattle.std.specs.Bool.{OnTrue};
ghost use Rattle.std.specs.Int.{int_div_euclid};
ghost use Rattle.std.specs.Int.RustNames.{unsigned_abs};
ghost use Rattle.std.specs.List.{All};
ghost use Rattle.agg_model.specs.Checking.{HasInterval};
ghost use Rattle.agg_model.specs.declared.request.Agg.{Agg};
ghost use Rattle.doc_value.specs.declared.schema.Kind.{Kind};
ghost use Rattle.agg_model.specs.Counting as counting;
ghost use Rattle.fast_fields.specs.Readers.{Holds};
ghost use Rattle.fast_fields.specs.declared.entries.Entry.{Entry};
ghost use Rattle.doc_tallies.specs.Classes.{AreClasses, IsCounted, IsMarked, IsRegrouped, class_sum};
ghost use Rattle.doc_tallies.specs.Marks as marks;
ghost use Rattle.doc_tallies.specs.Picked.{AllBelow};

use crate::column_values::signed;
use crate::field_column::FieldColumn;
use crate::places::{places_of, reach_of};
use crate::tables::tabled;
use agg_model::{Agg, Distance};
use doc_value::Kind;
use std::alloc::{AllocError, Global};

/// How many documents count alike, by what they count for, and the number of one of them.
#[derive(Clone, Copy)]
pub(crate) struct Class {
    pub mark: Option<i128>,
    pub count: u64,
    pub sample: u32,
}

// A prime, so that marks which are multiples of one another are looked for at places apart.
const PRIME: u16 = 16_381;

// At how many places the class of a mark is looked for, and how far apart these are: a prime beyond all places.
const TRIES: usize = 16;

const STRIDE: usize = 31_337;

// The whole number for which a number of a column of a kind stands.
fn whole_number(kind: Kind, number: u64) -> i128
    ensures value { result ≡ marks.whole_number kind number }
    ensures small { unsigned_abs result ≤ 2 ^ 64 }
{
    match kind {
        Kind::I64 | Kind::Datetime => i128::from(signed(number)),
        Kind::Text | Kind::TextList | Kind::U64 | Kind::Bool => i128::from(number),
    }
}

// The quotient of numbers that have 64 bits each, which is found faster than that of others.
fn small_quotient(from: i128, interval: i128) -> Option<i128>
    requires { pos 1 ≤ℤ interval }
    ensures { IfSome result (λ step. step ≡ int_div_euclid from interval) }
{
    let Ok(from) = i64::try_from(from) else {
        return None;
    };
    let Ok(interval) = i64::try_from(interval) else {
        return None;
    };
    Some(i128::from(from.div_euclid(interval)))
}

// The number of the step in which a whole number lies.
fn step_of(interval: Distance, offset: Distance, whole: i128) -> i128
    requires some { pos 1 ≤ℤ interval }
    requires small { unsigned_abs whole ≤ 2 ^ 64 }
    ensures { result ≡ counting.step_of interval offset whole }
{
    let from = whole - offset.whole();
    let interval = interval.whole();
    match small_quotient(from, interval) {
        Some(step) => step,
        None => from.div_euclid(interval),
    }
}

// What a number of a column counts for: itself, or the step in which it lies.
pub(crate) fn mark_of(agg: &Agg, kind: Kind, number: u64) -> i128
    requires { HasInterval agg.now }
    ensures { result ≡ marks.mark_of agg.now kind number }
{
    match agg {
        Agg::Terms { .. } => i128::from(number),
        Agg::Histogram {
            interval,
            offset,
            ..
        } => step_of(*interval, *offset, whole_number(kind, number)),
    }
}

// What a document counts for, if it has a value.
fn mark_at(agg: &Agg, field: &FieldColumn<'_>, document: u32) -> Option<i128>
    requires { HasInterval agg.now }
    ensures { (texts : List (List ℕ)) (entries : List Entry) → Holds field.now.column texts entries → result ≡ marks.mark_at agg.now field.now.kind entries document }
{
    match field.column.value_at(document) {
        Some(number) => Some(mark_of(agg, field.kind, number)),
        None => None,
    }
}

fn is_same(a: Option<i128>, b: Option<i128>) -> bool
    ensures { IsTrue result ↔ (a ≡ b) }
{
    match (a, b) {
        (None, None) => true,
        (Some(a), Some(b)) => a == b,
        (None, Some(_)) | (Some(_), None) => false,
    }
}

// Where the class of a mark is looked for first.
fn place_of(mark: Option<i128>) -> usize
    ensures { result < 16384 }
{
    let Some(mark) = mark else {
        return 0;
    };
    match i64::try_from(mark) {
        Ok(mark) => mark.rem_euclid(PRIME as i64) as usize,
        Err(_) => mark.rem_euclid(PRIME as i128) as usize,
    }
}

// Counts so many documents, of which this is one, in the class at a place. It answers false where the class of another mark stands there.
fn count_at(
    classes: &mut Vec<Class>,
    place: usize,
    mark: Option<i128>,
    more: u64,
    document: u32,
) -> bool
    requires { place < vec_len classes.old }
    ensures len { vec_len classes.new ≡ vec_len classes.old }
    ensures kept { result ≡ false → classes.new.items ≡ classes.old.items }
    ensures counted { OnTrue result (IsCounted mark more document classes.old.items classes.new.items) }
{
    let class = classes[place];
    if class.count > u64::MAX - more || class.count != 0 && !is_same(class.mark, mark) {
        return false;
    }
    classes[place] = Class {
        mark,
        count: class.count + more,
        sample: document,
    };
    true
}

// Counts so many documents, of which this is one, in the class of their mark. It answers false where at each of the places that it may
// have the class of another mark stands.
fn count_many(classes: &mut Vec<Class>, mark: Option<i128>, more: u64, document: u32) -> bool
    requires { 0 < vec_len classes.old }
    ensures len { vec_len classes.new ≡ vec_len classes.old }
    ensures counted { OnTrue result (IsCounted mark more document classes.old.items classes.new.items) }
{
    let first = place_of(mark);
    for step in 0..TRIES {
        let place = (first + step * STRIDE) % classes.len();
        if count_at(classes, place, mark, more, document) {
            return true;
        }
    }
    false
}

// Counts a document in the class of its mark. It answers false where there is no place for that.
pub(crate) fn count_one(classes: &mut Vec<Class>, mark: Option<i128>, document: u32) -> bool
    requires { 0 < vec_len classes.old }
    ensures len { vec_len classes.new ≡ vec_len classes.old }
    ensures counted { OnTrue result (IsCounted mark 1 document classes.old.items classes.new.items) }
{
    count_many(classes, mark, 1, document)
}

// Adds the documents of some classes to those of the same marks, if there is room for all.
pub(crate) fn regrouped(classes: &mut Vec<Class>, cells: &[Class]) -> bool
    requires { 0 < vec_len classes.old }
    ensures marked { (agg : Agg) (kind : Kind) (entries : List Entry) (bound : ℕ) → All (IsMarked agg kind entries bound) cells.now → All (IsMarked agg kind entries bound) classes.old.items
        → OnTrue result (IsRegrouped agg kind entries bound cells.now classes.old.items classes.new.items) }
    ensures total { OnTrue result (class_sum classes.new.items ≡ class_sum classes.old.items + class_sum cells.now) }
{
    for cell in cells {
        if cell.count != 0 && !count_many(classes, cell.mark, cell.count, cell.sample) {
            return false;
        }
    }
    true
}

// So many classes that have no documents.
pub(crate) fn no_classes(alloc: Global, places: usize) -> Result<Vec<Class>, AllocError>
    ensures len { IfOk result (λ classes. vec_len classes ≡ places) }
    ensures none { IfOk result (λ classes. All (λ c. c.count ≡ 0) classes.items) }
{
    let mut classes = Vec::with_capacity(alloc, places)?;
    for _place in 0..places {
        classes.push(Class {
            mark: None,
            count: 0,
            sample: 0,
        })?;
    }
    Ok(classes)
}

// The same one after the other.
fn classes_each(
    alloc: Global,
    agg: &Agg,
    field: &FieldColumn<'_>,
    numbers: &[u32],
) -> Result<Option<Vec<Class>>, AllocError>
    requires { HasInterval agg.now }
    ensures only { (texts : List (List ℕ)) (entries : List Entry) (bound : ℕ) → Holds field.now.column texts entries → AllBelow bound numbers.now
        → IfOk result (λ o. IfSome o (λ classes. AreClasses agg.now field.now.kind entries bound numbers.now classes.items)) }
    ensures total { IfOk result (λ o. IfSome o (λ classes. class_sum classes.items ≡ length numbers.now)) }
{
    let reach = reach_of(&field.column, numbers);
    let places = places_of(agg, field, reach, numbers.len());
    let mut classes = no_classes(alloc, places)?;
    for number in numbers {
        let mark = mark_at(agg, field, *number);
        if !count_one(&mut classes, mark, *number) {
            return Ok(None);
        }
    }
    Ok(Some(classes))
}

// Fewer documents are counted without a table.
const MANY: usize = 32_768;

// Some documents in classes of those that count alike by a column, if there is room for all classes.
pub(crate) fn classes_of(
    alloc: Global,
    agg: &Agg,
    field: &FieldColumn<'_>,
    numbers: &[u32],
) -> Result<Option<Vec<Class>>, AllocError>
    requires { HasInterval agg.now }
    ensures only { (texts : List (List ℕ)) (entries : List Entry) (bound : ℕ) → Holds field.now.column texts entries → AllBelow bound numbers.now
        → IfOk result (λ o. IfSome o (λ classes. AreClasses agg.now field.now.kind entries bound numbers.now classes.items)) }
    ensures total { IfOk result (λ o. IfSome o (λ classes. class_sum classes.items ≡ length numbers.now)) }
{
    if numbers.len() < MANY {
        return classes_each(alloc, agg, field, numbers);
    }
    tabled(alloc, agg, field, numbers)
}
