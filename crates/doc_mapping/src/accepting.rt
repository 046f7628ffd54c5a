ghost use Rattle.std.specs.Prelude.{◌≡◌, [], nat_le, true, Ok, Err, Some, MatchResult, MatchOption, IsTrue, IfOk, unwrap_or};
ghost use Rattle.serde_json.specs.Data.{Data, Members, depth};
ghost use Rattle.serde_json.specs.Find.{as_object};
ghost use Rattle.serde_json.specs.View.{view};
ghost use Rattle.index_config.specs.declared.config.IndexConfig.{IndexConfig as Config};
ghost use Rattle.doc_mapping.specs.Answer.{answer, counted_answer, leaf_fault, lacks_timestamp, read_answer, timed_answer, IsMemory};
ghost use Rattle.doc_mapping.specs.Documents.{doc_from, has_number};
ghost use Rattle.doc_mapping.specs.Leaves.{AreOf};
ghost use Rattle.doc_mapping.specs.Walk.{AreFlat, AreRegular};

use crate::documents::doc_of;
use crate::finder::Finder;
use crate::leaf_texts::{LeafTexts, leaf_texts, with_leaves};
use crate::levels::is_within;
use crate::parts::Parts;
use crate::reject::Reject;
use crate::walk::record_fault;
use doc_value::{Doc, Schema};
use index_config::IndexConfig;
use serde_json::Value;
use std::alloc::{AllocError, Global};
use std::{mem, str};

/// The longest record in bytes.
pub const MAX_RECORD: usize = 1_048_576;

/// How deep objects and arrays may nest.
pub const MAX_LEVELS: usize = 32;

/// The document of a record, or the first refusal: TooLong over 1,048,576 bytes, NotJson, NotObject, TooDeep over 32
/// levels, then key by key in byte order Unmapped (in strict mode), WrongType or BadDate, behind all keys TooManyLeaves over 65,536
/// leaves (where the schema has a field for what is not mapped), and last MissingTimestamp.
pub fn accept(alloc: Global, config: &IndexConfig, bytes: &[u8]) -> Result<Doc, Reject>
    ensures { MatchResult result
        (λ doc. answer config.now bytes.now ≡ Ok doc)
        (λ refusal. ¬ IsMemory refusal → answer config.now bytes.now ≡ Err refusal) }
{
    let finder = Finder::for_one(&config.schema.fields);
    accept_by(alloc, config, &finder, bytes)
}

/// The same, told where fields are looked for first.
pub fn accept_by(
    alloc: Global,
    config: &IndexConfig,
    finder: &Finder,
    bytes: &[u8],
) -> Result<Doc, Reject>
    requires rising { IsTrue finder.now.regular → AreRegular config.now.schema.fields }
    requires flat { IsTrue finder.now.flat → AreFlat config.now.schema.fields }
    ensures { MatchResult result
        (λ doc. answer config.now bytes.now ≡ Ok doc)
        (λ refusal. ¬ IsMemory refusal → answer config.now bytes.now ≡ Err refusal) }
{
    if bytes.len() > MAX_RECORD {
        return Err(Reject::TooLong { size: bytes.len() });
    }
    let Ok(text) = str::from_utf8(bytes) else {
        return Err(Reject::NotJson);
    };
    match Value::from_str(alloc, text) {
        Ok(value) => accept_value(alloc, config, finder, value),
        Err(error) => {
            if error.is_memory() {
                Err(Reject::Memory(AllocError))
            } else {
                Err(Reject::NotJson)
            }
        }
    }
}

fn accept_value(
    alloc: Global,
    config: &IndexConfig,
    finder: &Finder,
    value: Value,
) -> Result<Doc, Reject>
    requires rising { IsTrue finder.now.regular → AreRegular config.now.schema.fields }
    requires flat { IsTrue finder.now.flat → AreFlat config.now.schema.fields }
    ensures { MatchResult result
        (λ doc. read_answer config.now (Some (view value)) ≡ Ok doc)
        (λ refusal. ¬ IsMemory refusal → read_answer config.now (Some (view value)) ≡ Err refusal) }
{
    if let Some(refusal) = shape_fault(&value) {
        mem::drop(value);
        return Err(refusal);
    }
    match leaf_texts(alloc, &config.schema, &value) {
        Ok(texts) => accept_object(alloc, config, finder, value, texts),
        Err(error) => {
            mem::drop(value);
            Err(Reject::Memory(error))
        }
    }
}

/// The same of an object that nests to few levels, told the texts of its leaves, which were taken before its values are moved.
fn accept_object(
    alloc: Global,
    config: &IndexConfig,
    finder: &Finder,
    value: Value,
    texts: LeafTexts,
) -> Result<Doc, Reject>
    requires rising { IsTrue finder.now.regular → AreRegular config.now.schema.fields }
    requires flat { IsTrue finder.now.flat → AreFlat config.now.schema.fields }
    requires object { (members : Members) × (Some members ≡ as_object (view value)) }
    requires shallow { nat_le (depth (view value)) 32 ≡ true }
    requires texts { AreOf config.now.schema (view value) texts }
    ensures { MatchResult result
        (λ doc. read_answer config.now (Some (view value)) ≡ Ok doc)
        (λ refusal. ¬ IsMemory refusal → read_answer config.now (Some (view value)) ≡ Err refusal) }
{
    let (looked_for, mut parts) = match begun(alloc, &config.schema, finder.regular, &value) {
        Ok(begun) => begun,
        Err(error) => {
            mem::drop(value);
            mem::drop(texts);
            return Err(Reject::Memory(error));
        }
    };
    let fault = record_fault(alloc, config, finder, value, &mut parts);
    let doc = doc_by(looked_for, parts);
    match fault {
        Ok(None) => whole(config, doc, texts),
        Ok(Some(refusal)) => {
            mem::drop(doc);
            mem::drop(texts);
            Err(refusal)
        }
        Err(error) => {
            mem::drop(doc);
            mem::drop(texts);
            Err(Reject::Memory(error))
        }
    }
}

/// The document of what the fields take and of the leaves' texts, unless there are too many leaves or a timestamp is missing.
fn whole(config: &IndexConfig, doc: Doc, texts: LeafTexts) -> Result<Doc, Reject>
    ensures { (d : Data) → AreOf config.now.schema d texts → doc ≡ doc_from config.now.schema.dynamic [] 0 config.now.schema.fields d →
        MatchResult result
        (λ whole. counted_answer config.now d (leaf_fault config.now.schema d) ≡ Ok whole)
        (λ refusal. ¬ IsMemory refusal → counted_answer config.now d (leaf_fault config.now.schema d) ≡ Err refusal) }
{
    match texts {
        LeafTexts::Dropped => timed(config.timestamp_field, doc),
        LeafTexts::TooMany { count } => {
            mem::drop(doc);
            Err(Reject::TooManyLeaves { count })
        }
        LeafTexts::Kept { number, values } => {
            match with_leaves(&config.schema, doc, number, values) {
                Ok(whole) => timed(config.timestamp_field, whole),
                Err(error) => Err(Reject::Memory(error)),
            }
        }
    }
}

/// The refusal of a value that is no object or nests too deep.
fn shape_fault(value: &Value) -> Option<Reject>
    ensures { MatchOption result
        (((members : Members) × (Some members ≡ as_object (view value.now))) × (nat_le (depth (view value.now)) 32 ≡ true))
        (λ refusal. (config : Config) → read_answer config (Some (view value.now)) ≡ Err refusal) }
{
    if !value.is_object() {
        return Some(Reject::NotObject);
    }
    if !is_within(value, MAX_LEVELS) {
        return Some(Reject::TooDeep);
    }
    None
}

/// What the walk over a record begins with: the document where it is looked for path by path, and no parts.
fn begun(
    alloc: Global,
    schema: &Schema,
    regular: bool,
    value: &Value,
) -> Result<(Option<Doc>, Parts), AllocError>
    ensures found { IfOk result (λ x. MatchOption x.0 (IsTrue regular) (λ doc. doc ≡ doc_from schema.now.dynamic [] 0 schema.now.fields (view value.now))) }
    ensures empty { IfOk result (λ x. x.1.items ≡ []) }
{
    let members = match value.as_object() {
        Some(map) => map.len(),
        None => 0,
    };
    let parts = Parts::with_capacity(alloc, members.min(schema.fields.len()))?;
    match looked_for(alloc, schema, regular, value) {
        Ok(found) => Ok((found, parts)),
        Err(error) => {
            mem::drop(parts);
            Err(error)
        }
    }
}

/// Where the fields are not regular, the document that is looked for path by path.
fn looked_for(
    alloc: Global,
    schema: &Schema,
    regular: bool,
    value: &Value,
) -> Result<Option<Doc>, AllocError>
    ensures { IfOk result (λ found. MatchOption found (IsTrue regular) (λ doc. doc ≡ doc_from schema.now.dynamic [] 0 schema.now.fields (view value.now))) }
{
    if regular {
        return Ok(None);
    }
    Ok(Some(doc_of(alloc, schema, value)?))
}

/// The document: what was looked for, or else the parts that the walk gathered.
fn doc_by(looked_for: Option<Doc>, parts: Parts) -> Doc
    ensures { result ≡ unwrap_or looked_for parts.items }
{
    match looked_for {
        Some(doc) => doc,
        None => Doc::from_vec(parts),
    }
}

/// A document that has a timestamp where one is asked.
fn timed(timestamp: Option<usize>, doc: Doc) -> Result<Doc, Reject>
    ensures { result ≡ timed_answer timestamp doc }
{
    if is_timestamp_missing(timestamp, &doc) {
        mem::drop(doc);
        return Err(Reject::MissingTimestamp);
    }
    Ok(doc)
}

fn is_timestamp_missing(timestamp: Option<usize>, doc: &Doc) -> bool
    ensures { result ≡ lacks_timestamp timestamp doc.now }
{
    match timestamp {
        Some(number) => !has_field(doc, number),
        None => false,
    }
}

fn has_field(doc: &Doc, number: usize) -> bool
    ensures { result ≡ has_number doc.now number }
{
    for part in doc.as_slice() {
        if part.number == number {
            return true;
        }
    }
    false
}
