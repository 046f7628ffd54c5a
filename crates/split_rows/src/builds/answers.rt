//! What is asked, and the answers.

ghost use Rattle.std.specs.List.{AllByRecursion};
ghost use Rattle.doc_value.specs.Documents.{IsSchema, IsOfSchema};

use super::merged::merged;
use super::shown::{digits, facts, file, postings};
use crate::configs::config_text;
use crate::documents::{config_of, documents_of};
use index_config::IndexConfig;
use split_build::{BuildError, Builder, BuiltSplit, build};
use split_bundle::PlacedList;
use std::alloc::{AllocError, Global};

// The file in digits that a builder makes of the documents one by one.
fn one_by_one(
    alloc: Global,
    config: &IndexConfig,
    documents: &PlacedList,
) -> Result<String, BuildError>
    requires schema { IsSchema config.now.schema }
    requires documents { AllByRecursion (λ d. IsOfSchema config.now.schema d.doc) documents.now }
{
    let mut builder = Builder::vacant(alloc, &config.schema)?;
    let mut rest = documents.as_slice();
    while let Some((placed, behind)) = rest.split_first() {
        builder.add(alloc, placed)?;
        rest = behind;
    }
    let split = builder.finish(alloc)?;
    Ok(digits(alloc, split.bytes.as_slice())?)
}

fn shown(alloc: Global, question: &str, split: &BuiltSplit) -> Result<String, AllocError> {
    match question {
        "file" => file(alloc, split),
        "facts" => facts(alloc, &split.facts),
        _ => postings(alloc, split),
    }
}

// What is told of the split of these documents.
fn told(
    alloc: Global,
    question: &str,
    config: &IndexConfig,
    documents: &PlacedList,
) -> Result<String, BuildError>
    requires schema { IsSchema config.now.schema }
    requires documents { AllByRecursion (λ d. IsOfSchema config.now.schema d.doc) documents.now }
{
    if question == "one" {
        return one_by_one(alloc, config, documents);
    }
    let split = build(alloc, &config.schema, documents)?;
    match question {
        "alone" => Ok(merged(alloc, &config.schema, &split, false)?),
        "twice" => Ok(merged(alloc, &config.schema, &split, true)?),
        _ => Ok(shown(alloc, question, &split)?),
    }
}

// An answer, or why there is none.
fn answered(alloc: Global, answer: Result<String, BuildError>) -> Result<String, AllocError> {
    match answer {
        Ok(text) => Ok(text),
        Err(BuildError::Memory(refused)) => Err(refused),
        Err(fault) => format!(in alloc; "{fault}"),
    }
}

fn told_of(
    alloc: Global,
    config: &IndexConfig,
    question: &str,
    text: &str,
) -> Result<String, AllocError>
    requires { IsSchema config.now.schema }
{
    let documents = documents_of(alloc, config, text)?;
    answered(alloc, told(alloc, question, config, &documents))
}

/// The answer to a line: a question, a configuration's name, and documents.
pub fn answer(alloc: Global, line: &str) -> Result<String, AllocError> {
    let Some((question, rest)) = line.split_once(' ') else {
        return String::from_str(alloc, "what?");
    };
    let (name, text) = match rest.split_once(' ') {
        Some(parts) => parts,
        None => (rest, ""),
    };
    let Some(config) = config_of(alloc, config_text(name))? else {
        return String::from_str(alloc, "no configuration");
    };
    told_of(alloc, &config, question, text)
}
