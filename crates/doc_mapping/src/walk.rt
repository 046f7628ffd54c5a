ghost use Rattle.std.specs.Prelude.{◌≡◌, ◌<◌, ◌≤◌, ◌++◌, ◌∷◌, [], length, slice_get, IfOk, OnOk, IsTrue, true, false, Some, None, is_some};
ghost use Rattle.doc_value.specs.Documents.{mapped_fields};
ghost use Rattle.dynamic_paths.specs.Leaves.{is_object};
ghost use Rattle.serde_json.specs.Data.{depth, members_depth};
ghost use Rattle.serde_json.specs.View.{view, members_view};
ghost use Rattle.doc_mapping.specs.Faults as spec;
ghost use Rattle.serde_json.specs.Find.{as_object, as_null};
ghost use Rattle.doc_mapping.specs.declared.reject.Reject.TheVariants.{WrongType};
ghost use Rattle.doc_mapping.specs.Walk.{AreFlat, AreRegular, Enters, GatherAll, GatherInner, Gathers, HasEntered, RiseFrom};
ghost use Rattle.doc_mapping.specs.Held.{values_at};

use crate::accepting::MAX_LEVELS;
use crate::documents::one_value;
use crate::faults::{formats_at, has_dot, is_object_by_halves, number_of};
use crate::finder::Finder;
use crate::misfit::{fitting_values, single_value};
use crate::parts::{Parts, next_number, put};
use crate::reject::Reject;
use crate::taking::into_members;
use doc_value::{Text, Value as DocValue};
use dynamic_paths::is_object;
use index_config::{IndexConfig, Mode};
use serde_json::{Map, Value};
use std::alloc::{AllocError, Global};
use std::mem;

/// The first refusal of a record; where there is none, the parts have its values.
pub fn record_fault(
    alloc: Global,
    config: &IndexConfig,
    finder: &Finder,
    root: Value,
    parts: &mut Parts,
) -> Result<Option<Reject>, AllocError>
    requires rising { IsTrue finder.now.regular → AreRegular config.now.schema.fields }
    requires flat { IsTrue finder.now.flat → AreFlat config.now.schema.fields }
    requires shallow { depth (view root) ≤ 32 }
    ensures fault { IfOk result (λ fault. fault ≡ spec.inner_fault config.now [] (view root)) }
    ensures gathers { IfOk result (λ fault. fault ≡ None →
        GatherInner config.now.schema [] (as_object (view root)) parts.old.items parts.new.items) }
{
    if !finder.flat {
        return inner_fault(alloc, config, finder, "", root, MAX_LEVELS, parts);
    }
    match into_members(root) {
        Ok(map) => flat_faults(alloc, config, finder, map, parts),
        Err(other) => type_fault(alloc, "", other),
    }
}

/// The first refusal among a record's keys where no field's path has a dot; where there is none, the parts have its values.
fn flat_faults(
    alloc: Global,
    config: &IndexConfig,
    finder: &Finder,
    map: Map<String, Value>,
    parts: &mut Parts,
) -> Result<Option<Reject>, AllocError>
    requires rising { IsTrue finder.now.regular → AreRegular config.now.schema.fields }
    requires flat { AreFlat config.now.schema.fields }
    ensures fault { IfOk result (λ fault. fault ≡ spec.members_fault config.now [] (members_view map.entries)) }
    ensures gathers { IfOk result (λ fault. fault ≡ None →
        GatherAll config.now.schema [] (members_view map.entries) parts.old.items parts.new.items) }
{
    for (key, value) in map {
        let fault = flat_fault(alloc, config, finder, key.as_str(), value, parts);
        mem::drop(key);
        match fault {
            Ok(None) => {}
            Ok(Some(refusal)) => return Ok(Some(refusal)),
            Err(error) => return Err(error),
        }
    }
    Ok(None)
}

/// The first refusal of a record's key where no field's path has a dot: the key is a field's path, or none begins so.
#[inline(always)]
fn flat_fault(
    alloc: Global,
    config: &IndexConfig,
    finder: &Finder,
    key: &str,
    value: Value,
    parts: &mut Parts,
) -> Result<Option<Reject>, AllocError>
    requires rising { IsTrue finder.now.regular → AreRegular config.now.schema.fields }
    requires flat { AreFlat config.now.schema.fields }
    ensures fault { IfOk result (λ fault. fault ≡
        spec.key_fault config.now key.now key.now (view value) (spec.inner_fault config.now key.now (view value))) }
    ensures dotted { spec.has_dot key.now ≡ true → parts.new.items ≡ parts.old.items }
    ensures gathers { spec.has_dot key.now ≡ false → IfOk result (λ fault. fault ≡ None →
        Gathers config.now.schema key.now (view value) parts.old.items parts.new.items) }
{
    match number_of(&config.schema, finder, next_number(parts), key.as_bytes()) {
        Some(number) => field_fault(alloc, config, number, key, value, parts),
        None => {
            mem::drop(value);
            unmapped_path(alloc, config, key)
        }
    }
}

/// The first refusal among the keys of an object with this path; where there is none, the parts have its values.
#[cycle(walk)]
fn members_fault(
    alloc: Global,
    config: &IndexConfig,
    finder: &Finder,
    prefix: &str,
    map: Map<String, Value>,
    levels: usize,
    parts: &mut Parts,
) -> Result<Option<Reject>, AllocError>
    requires rising { IsTrue finder.now.regular → AreRegular config.now.schema.fields }
    requires shallow { members_depth (members_view map.entries) ≤ levels }
    ensures fault { IfOk result (λ fault. fault ≡ spec.members_fault config.now prefix.now (members_view map.entries)) }
    ensures gathers { IfOk result (λ fault. fault ≡ None →
        GatherAll config.now.schema prefix.now (members_view map.entries) parts.old.items parts.new.items) }
{
    for (key, value) in map {
        let fault = key_fault(
            alloc,
            config,
            finder,
            prefix,
            key.as_str(),
            value,
            levels,
            parts,
        );
        mem::drop(key);
        match fault {
            Ok(None) => {}
            Ok(Some(refusal)) => return Ok(Some(refusal)),
            Err(error) => return Err(error),
        }
    }
    Ok(None)
}

/// The first refusal of a key of an object with this path, and of what lies in its value.
#[cycle(walk)]
fn key_fault(
    alloc: Global,
    config: &IndexConfig,
    finder: &Finder,
    prefix: &str,
    key: &str,
    value: Value,
    levels: usize,
    parts: &mut Parts,
) -> Result<Option<Reject>, AllocError>
    requires rising { IsTrue finder.now.regular → AreRegular config.now.schema.fields }
    requires shallow { depth (view value) ≤ levels }
    ensures fault { IfOk result (λ fault. fault ≡
        spec.key_fault config.now (spec.under prefix.now key.now) key.now (view value)
        (spec.inner_fault config.now (spec.under prefix.now key.now) (view value))) }
    ensures dotted { spec.has_dot key.now ≡ true → parts.new.items ≡ parts.old.items }
    ensures gathers { spec.has_dot key.now ≡ false → IfOk result (λ fault. fault ≡ None →
        Gathers config.now.schema (spec.under prefix.now key.now) (view value) parts.old.items parts.new.items) }
{
    if has_dot(key.as_bytes()) {
        mem::drop(value);
        return unmapped_key(alloc, config, prefix, key);
    }
    if prefix.is_empty() {
        return path_fault(alloc, config, finder, key, value, levels, parts);
    }
    match under(alloc, prefix, key) {
        Ok(path) => {
            let fault = path_fault(alloc, config, finder, path.as_str(), value, levels, parts);
            mem::drop(path);
            fault
        }
        Err(error) => {
            mem::drop(value);
            Err(error)
        }
    }
}

/// The first refusal of a value at this path, behind a key without a dot.
#[cycle(walk)]
fn path_fault(
    alloc: Global,
    config: &IndexConfig,
    finder: &Finder,
    path: &str,
    value: Value,
    levels: usize,
    parts: &mut Parts,
) -> Result<Option<Reject>, AllocError>
    requires rising { IsTrue finder.now.regular → AreRegular config.now.schema.fields }
    requires shallow { depth (view value) ≤ levels }
    ensures fault { IfOk result (λ fault. fault ≡
        spec.path_fault config.now path.now (view value) (spec.inner_fault config.now path.now (view value))
        (spec.number_of_mapped config.now.schema path.now)) }
    ensures gathers { IfOk result (λ fault. fault ≡ None →
        Gathers config.now.schema path.now (view value) parts.old.items parts.new.items) }
{
    if let Some(number) = number_of(&config.schema, finder, next_number(parts), path.as_bytes()) {
        return field_fault(alloc, config, number, path, value, parts);
    }
    match lies_above_fields(alloc, config, finder.regular, path) {
        Ok(true) => inner_fault(alloc, config, finder, path, value, levels, parts),
        Ok(false) => {
            mem::drop(value);
            unmapped_path(alloc, config, path)
        }
        Err(error) => {
            mem::drop(value);
            Err(error)
        }
    }
}

/// The first refusal of a value where an object is asked.
#[cycle(walk)]
fn inner_fault(
    alloc: Global,
    config: &IndexConfig,
    finder: &Finder,
    path: &str,
    value: Value,
    levels: usize,
    parts: &mut Parts,
) -> Result<Option<Reject>, AllocError>
    requires rising { IsTrue finder.now.regular → AreRegular config.now.schema.fields }
    requires shallow { depth (view value) ≤ levels }
    ensures fault { IfOk result (λ fault. fault ≡ spec.inner_fault config.now path.now (view value)) }
    ensures gathers { IfOk result (λ fault. fault ≡ None →
        GatherInner config.now.schema path.now (as_object (view value)) parts.old.items parts.new.items) }
{
    match into_members(value) {
        Ok(inner) => members_fault(alloc, config, finder, path, inner, levels - 1, parts),
        Err(other) => type_fault(alloc, path, other),
    }
}

/// The first refusal of a value at the path of this field; where it fits, the parts have its values. One value, as
/// most fields have, is put at once.
#[inline(always)]
fn field_fault(
    alloc: Global,
    config: &IndexConfig,
    number: usize,
    path: &str,
    value: Value,
    parts: &mut Parts,
) -> Result<Option<Reject>, AllocError>
    requires { number < length config.now.schema.fields }
    ensures fault { IfOk result (λ fault. fault ≡
        spec.field_fault config.now path.now (view value) number (slice_get config.now.schema.fields number)) }
    ensures enters { IfOk result (λ fault. fault ≡ None → RiseFrom 0 parts.old.items → values_at parts.old.items number ≡ [] →
        HasEntered config.now.schema.fields number (view value) parts.old.items parts.new.items) }
{
    let kind = config.schema.fields.at(number).kind;
    let formats = formats_at(&config.formats, number);
    match single_value(kind, formats, value) {
        Ok(single) => put_single(alloc, number, single, parts),
        Err(other) => kind_fault(alloc, config, number, path, other, parts),
    }
}

/// Puts the one value of a field, which is no fault.
#[inline(always)]
fn put_single(
    alloc: Global,
    number: usize,
    single: DocValue,
    parts: &mut Parts,
) -> Result<Option<Reject>, AllocError>
    ensures none { IfOk result (λ fault. fault ≡ None) }
    ensures enters { OnOk result (RiseFrom 0 parts.old.items → values_at parts.old.items number ≡ [] → Enters number (single ∷ []) parts.old.items parts.new.items) }
{
    put(parts, number, one_value(alloc, single)?)?;
    Ok(None)
}

/// The same of a value of any kind.
#[inline(never)]
fn kind_fault(
    alloc: Global,
    config: &IndexConfig,
    number: usize,
    path: &str,
    value: Value,
    parts: &mut Parts,
) -> Result<Option<Reject>, AllocError>
    requires { number < length config.now.schema.fields }
    ensures fault { IfOk result (λ fault. fault ≡
        spec.field_fault config.now path.now (view value) number (slice_get config.now.schema.fields number)) }
    ensures enters { IfOk result (λ fault. fault ≡ None → RiseFrom 0 parts.old.items → values_at parts.old.items number ≡ [] →
        HasEntered config.now.schema.fields number (view value) parts.old.items parts.new.items) }
{
    let kind = config.schema.fields.at(number).kind;
    let formats = formats_at(&config.formats, number);
    match fitting_values(alloc, kind, formats, value)? {
        Ok(values) => {
            put(parts, number, values)?;
            Ok(None)
        }
        Err(misfit) => Ok(Some(misfit.refusal(Text::from_str(alloc, path)?))),
    }
}

/// A value where an object is asked that is none: null fits, and nothing else.
fn type_fault(alloc: Global, path: &str, value: Value) -> Result<Option<Reject>, AllocError>
    requires { as_object (view value) ≡ None }
    ensures { IfOk result (λ fault. fault ≡ spec.unless (is_some (as_null (view value))) (WrongType path.now)) }
{
    let fits = value.is_null();
    mem::drop(value);
    if fits {
        return Ok(None);
    }
    Ok(Some(Reject::WrongType {
        path: Text::from_str(alloc, path)?,
    }))
}

/// A path that the schema doesn't have is refused in strict mode.
fn unmapped_path(
    alloc: Global,
    config: &IndexConfig,
    path: &str,
) -> Result<Option<Reject>, AllocError>
    ensures { IfOk result (λ fault. fault ≡ spec.unmapped config.now.mode path.now) }
{
    match config.mode {
        Mode::Strict => Ok(Some(Reject::Unmapped {
            path: Text::from_str(alloc, path)?,
        })),
        Mode::Lenient => Ok(None),
        Mode::Dynamic => Ok(None),
    }
}

/// The same of the path of a key in an object with this path.
fn unmapped_key(
    alloc: Global,
    config: &IndexConfig,
    prefix: &str,
    key: &str,
) -> Result<Option<Reject>, AllocError>
    ensures { IfOk result (λ fault. fault ≡ spec.unmapped config.now.mode (spec.under prefix.now key.now)) }
{
    match config.mode {
        Mode::Strict => Ok(Some(Reject::Unmapped {
            path: under(alloc, prefix, key)?,
        })),
        Mode::Lenient => Ok(None),
        Mode::Dynamic => Ok(None),
    }
}

/// Whether a path is that of an object in which some mapped field lies.
fn lies_above_fields(
    alloc: Global,
    config: &IndexConfig,
    regular: bool,
    path: &str,
) -> Result<bool, AllocError>
    requires { IsTrue regular → AreRegular config.now.schema.fields }
    ensures { IfOk result (λ above. above ≡ is_object (mapped_fields config.now.schema) (path.now ++ 46 ∷ [])) }
{
    if !regular {
        return Ok(is_object(&config.schema, path.as_bytes()));
    }
    let start = joined(alloc, path, "")?;
    Ok(is_object_by_halves(&config.schema, start.as_slice()))
}

/// The path of a key in an object with this path; the record itself has the empty path.
fn under(alloc: Global, prefix: &str, key: &str) -> Result<Text, AllocError>
    ensures { IfOk result (λ path. path ≡ spec.under prefix.now key.now) }
{
    if prefix.is_empty() {
        return Text::from_str(alloc, key);
    }
    joined(alloc, prefix, key)
}

/// Two names with a dot between them.
fn joined(alloc: Global, front: &str, back: &str) -> Result<Text, AllocError>
    ensures { IfOk result (λ path. path ≡ front.now ++ 46 ∷ back.now) }
{
    let room = front.len().saturating_add(back.len()).saturating_add(1);
    let mut held = String::with_capacity(alloc, room)?;
    held.push_str(front)?;
    held.push('.')?;
    held.push_str(back)?;
    Ok(Text::from_string(held))
}
