ghost use Rattle.std.specs.Prelude.{◌≡◌, Some, None, is_some, IsTrue};
ghost use Rattle.std.specs.Ordering.{nat_cmp, is_lt};
ghost use Rattle.std.specs.Cmp.Lexicographic.{slice_cmp};
ghost use Rattle.serde_json.specs.View.{view, items_view};
ghost use Rattle.clock_time.specs.Datetimes.{rfc3339_seconds, unix_seconds};
ghost use Rattle.serde_json.specs.Find.{as_str, as_array};
ghost use Rattle.doc_value.specs.Documents as words;
ghost use Rattle.doc_value.specs.Documents.{PathsRise, mapped_fields};
ghost use Rattle.dynamic_paths.specs.Leaves.{is_object};
ghost use Rattle.index_config.specs.Accepted.{BeginPlain};
ghost use Rattle.doc_mapping.specs.Faults as spec;
ghost use Rattle.doc_mapping.specs.Walk.{AreFlat, AreRegular};

use crate::finder::Finder;
use doc_value::{Field, Fields, Schema};
use dynamic_paths::is_dynamic;
use index_config::{FieldFormats, Formats};
use std::cmp::Ordering;

/// The spellings that a field takes.
pub fn formats_at(formats: &FieldFormats, number: usize) -> Formats
    ensures { result ≡ spec.formats_at formats.now number }
{
    if number < formats.len() {
        return formats.at(number);
    }
    Formats {
        rfc3339: true,
        unix: true,
    }
}

/// Whether some mapped field lies in the object whose path and dot these bytes are, where the paths rise: if some path begins
/// so, the first one does that doesn't come before, or the next one where that is the path of the field for what is not mapped.
pub fn is_object_by_halves(schema: &Schema, start: &[u8]) -> bool
    requires { PathsRise schema.now.fields }
    ensures { result ≡ is_object (mapped_fields schema.now) start.now }
{
    let fields = &schema.fields;
    let mut low = 0;
    let mut high = fields.len();
    while low < high {
        let middle = low + (high - low) / 2;
        if is_before(fields.at(middle).path.as_slice(), start) {
            low = middle + 1;
        } else {
            high = middle;
        }
    }
    if low >= fields.len() {
        return false;
    }
    if !is_dynamic(schema, low) {
        return fields.at(low).path.as_slice().starts_with(start);
    }
    if low + 1 >= fields.len() {
        return false;
    }
    fields.at(low + 1).path.as_slice().starts_with(start)
}

/// Whether one path comes before another in byte order.
fn is_before(path: &[u8], other: &[u8]) -> bool
    ensures { result ≡ is_lt (slice_cmp nat_cmp path.now other.now) }
{
    path.cmp(other) == Ordering::Less
}

/// Whether each path comes before the next.
fn paths_rise(fields: &Fields) -> bool
    ensures rise { IsTrue result → PathsRise fields.now }
    ensures only { PathsRise fields.now → IsTrue result }
{
    let mut left = fields.len();
    while left > 1 {
        left -= 1;
        let path = fields.at(left - 1).path.as_slice();
        if !is_before(path, fields.at(left).path.as_slice()) {
            return false;
        }
    }
    true
}

/// Whether no path begins with a dot.
fn begin_plain(fields: &Fields) -> bool
    ensures plain { IsTrue result → BeginPlain fields.now }
    ensures only { BeginPlain fields.now → IsTrue result }
{
    for field in fields.as_slice() {
        if field.path.as_slice().starts_with(b".") {
            return false;
        }
    }
    true
}

/// Whether the paths of the fields rise and none begins with a dot.
pub fn are_regular(fields: &Fields) -> bool
    ensures regular { IsTrue result → AreRegular fields.now }
    ensures only { AreRegular fields.now → IsTrue result }
{
    paths_rise(fields) && begin_plain(fields)
}

/// Whether no path has a dot.
pub fn are_flat(fields: &Fields) -> bool
    ensures flat { IsTrue result → AreFlat fields.now }
    ensures only { AreFlat fields.now → IsTrue result }
{
    for field in fields.as_slice() {
        if has_dot(field.path.as_slice()) {
            return false;
        }
    }
    true
}

/// A dot in a key is none between names.
pub fn has_dot(key: &[u8]) -> bool
    ensures { result ≡ spec.has_dot key.now }
{
    key.contains(&b'.')
}

/// The number of the mapped field with this path.
#[inline(always)]
pub fn number_of(schema: &Schema, finder: &Finder, guess: usize, path: &[u8]) -> Option<usize>
    requires { IsTrue finder.now.regular → AreRegular schema.now.fields }
    ensures { result ≡ spec.number_of_mapped schema.now path.now }
{
    match any_number_of(schema, finder, guess, path) {
        Some(number) => {
            if is_dynamic(schema, number) {
                return None;
            }
            Some(number)
        }
        None => None,
    }
}

/// The number of the field with this path: where the fields are regular the guess or the finder's, if one is right, or
/// else found in logarithmic time.
#[inline(always)]
fn any_number_of(schema: &Schema, finder: &Finder, guess: usize, path: &[u8]) -> Option<usize>
    requires { IsTrue finder.now.regular → AreRegular schema.now.fields }
    ensures { result ≡ words.number_of schema.now.fields path.now }
{
    if !finder.regular {
        return first_number_of(schema.fields.as_slice(), path);
    }
    if is_at(&schema.fields, guess, path) {
        return Some(guess);
    }
    let likely = finder.likely(path);
    if is_at(&schema.fields, likely, path) {
        return Some(likely);
    }
    unlikely_number_of(schema, finder, path)
}

/// The same where the finder's first number is not right.
#[inline(never)]
fn unlikely_number_of(schema: &Schema, finder: &Finder, path: &[u8]) -> Option<usize>
    requires { PathsRise schema.now.fields }
    ensures { result ≡ words.number_of schema.now.fields path.now }
{
    let likely = finder.less_likely(path);
    if is_at(&schema.fields, likely, path) {
        return Some(likely);
    }
    schema.number_of(path)
}

/// Whether the field of this number has this path.
fn is_at(fields: &Fields, number: usize, path: &[u8]) -> bool
    requires { PathsRise fields.now }
    ensures { IsTrue result → Some number ≡ words.number_of fields.now path.now }
{
    number < fields.len() && fields.at(number).path.as_slice() == path
}

/// The number of the first field with this path, looked for one by one.
fn first_number_of(fields: &[Field], path: &[u8]) -> Option<usize>
    ensures { result ≡ words.number_of fields.now path.now }
{
    for (number, field) in fields.iter().enumerate() {
        if field.path.as_slice() == path {
            return Some(number);
        }
    }
    None
}
