//! Configurations, documents of records, and their split.

ghost use Rattle.std.specs.Prelude.{IfOk, IfSome, OnOk};
ghost use Rattle.std.specs.List.{AllByRecursion};
ghost use Rattle.doc_value.specs.Documents.{IsSchema, IsOfSchema};

use doc_mapping::laws::document_laws;
use doc_mapping::{Reject, accept};
use doc_value::Bytes;
use index_config::laws::accepted_laws;
use index_config::{ConfigError, IndexConfig, read_config};
use source_checkpoint::Partition;
use split_build::{BuildError, BuiltSplit, build};
use split_bundle::{Placed, PlacedList};
use std::alloc::{AllocError, Global};

/// The configuration of a text, if it is one.
pub fn config_of(alloc: Global, text: &str) -> Result<Option<IndexConfig>, AllocError>
    ensures { IfOk result (λ o. IfSome o (λ config. IsSchema config.schema)) }
{
    match read_config(alloc, text.as_bytes()) {
        Ok(config) => {
            accepted_laws();
            Ok(Some(config))
        }
        Err(ConfigError::Memory(refused)) => Err(refused),
        Err(_) => Ok(None),
    }
}

// The document of a partition's name, an offset and a record, with blanks between, if there is one.
fn placed_of(alloc: Global, config: &IndexConfig, text: &str) -> Result<Option<Placed>, AllocError>
    ensures { IfOk result (λ o. IfSome o (λ d. IsOfSchema config.now.schema d.doc)) }
{
    let Some((name, rest)) = text.split_once(' ') else {
        return Ok(None);
    };
    let Some((offset, record)) = rest.split_once(' ') else {
        return Ok(None);
    };
    let Ok(partition) = Partition::from_text(name) else {
        return Ok(None);
    };
    let Ok(offset) = offset.parse::<u64>() else {
        return Ok(None);
    };
    match accept(alloc, config, record.as_bytes()) {
        Ok(doc) => {
            document_laws();
            Ok(Some(Placed {
                partition,
                offset,
                doc,
            }))
        }
        Err(Reject::Memory(refused)) => Err(refused),
        Err(_) => Ok(None),
    }
}

// What stands before the first `|`, and what behind it, if there is one.
fn first_of(text: &str) -> (&str, Option<&str>) {
    match text.split_once('|') {
        Some((piece, behind)) => (piece, Some(behind)),
        None => (text, None),
    }
}

// Adds the document of such a text, if there is one.
fn add_placed(
    alloc: Global,
    config: &IndexConfig,
    list: &mut PlacedList,
    text: &str,
) -> Result<(), AllocError>
    ensures { AllByRecursion (λ d. IsOfSchema config.now.schema d.doc) list.old → OnOk result (AllByRecursion (λ d. IsOfSchema config.now.schema d.doc) list.new) }
{
    match placed_of(alloc, config, text)? {
        Some(placed) => list.push(placed),
        None => Ok(()),
    }
}

// Adds so many documents of one record, at the offsets from 0 on of a partition.
fn add_many(
    alloc: Global,
    config: &IndexConfig,
    list: &mut PlacedList,
    count: u64,
    text: &str,
) -> Result<(), AllocError>
    ensures { AllByRecursion (λ d. IsOfSchema config.now.schema d.doc) list.old → OnOk result (AllByRecursion (λ d. IsOfSchema config.now.schema d.doc) list.new) }
{
    let (name, record) = text.split_once(' ').unwrap_or((text, ""));
    for offset in 0..count {
        let text = format!(in alloc; "{name} {offset} {record}")?;
        add_placed(alloc, config, list, text.as_str())?;
    }
    Ok(())
}

// Adds the documents of a piece: `COUNT times NAME RECORD`, or one document.
fn add_piece(
    alloc: Global,
    config: &IndexConfig,
    list: &mut PlacedList,
    piece: &str,
) -> Result<(), AllocError>
    ensures { AllByRecursion (λ d. IsOfSchema config.now.schema d.doc) list.old → OnOk result (AllByRecursion (λ d. IsOfSchema config.now.schema d.doc) list.new) }
{
    match piece.split_once(" times ") {
        Some((count, text)) => {
            let count = count.parse::<u64>().unwrap_or(0);
            add_many(alloc, config, list, count, text)
        }
        None => add_placed(alloc, config, list, piece),
    }
}

/// The documents of such pieces with `|` between; what gives none is left out.
pub fn documents_of(
    alloc: Global,
    config: &IndexConfig,
    text: &str,
) -> Result<PlacedList, AllocError>
    ensures { IfOk result (λ list. AllByRecursion (λ d. IsOfSchema config.now.schema d.doc) list) }
{
    let mut list = PlacedList::vacant(alloc);
    let mut rest = Some(text);
    for _ in 0..text.len() {
        let Some(left) = rest else {
            return Ok(list);
        };
        let (piece, behind) = first_of(left);
        rest = behind;
        add_piece(alloc, config, &mut list, piece)?;
    }
    Ok(list)
}

/// The file of their split; of too many of them no bytes.
pub fn file_of(
    alloc: Global,
    config: &IndexConfig,
    documents: &PlacedList,
) -> Result<Bytes, AllocError>
    requires schema { IsSchema config.now.schema }
    requires documents { AllByRecursion (λ d. IsOfSchema config.now.schema d.doc) documents.now }
{
    match build(alloc, &config.schema, documents) {
        Ok(BuiltSplit { bytes, facts: _ }) => Ok(bytes),
        Err(BuildError::Memory(refused)) => Err(refused),
        Err(_) => Ok(Bytes::vacant(alloc)),
    }
}
