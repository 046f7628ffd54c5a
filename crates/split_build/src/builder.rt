//! A split built from placed documents, one after the other or from a list of them.

ghost use Rattle.std.specs.Prelude.{◌≡◌, ◌∷◌, ◌++◌, [], List, IfOk, OnOk, MatchResult};
ghost use Rattle.std.specs.List.{AllByRecursion};
ghost use Rattle.doc_value.specs.declared.schema.Schema.{Schema};
ghost use Rattle.doc_value.specs.Documents.{IsSchema, IsOfSchema};
ghost use Rattle.sha2.specs.Sha256.{sha256};
ghost use Rattle.split_bundle.specs.declared.placed.Placed.{Placed};
ghost use Rattle.split_build.specs.Times.{AreTimes, seconds_in};

use crate::bodies::put_body;
use crate::build_error::BuildError;
use crate::column_parts::{add_columns, column_logs};
use crate::columns::ColumnLog;
use crate::documents::DocumentLog;
use crate::occurrences::{Walker, values_in};
use crate::sections::file_of;
use crate::tag_parts::{add_tags, tag_facts, tag_logs};
use crate::tags::TagLog;
use crate::terms::TermLog;
use crate::times::widened_by;
use crate::weights::WEIGHT_BESIDE;
use doc_value::{Bytes, Replica, Schema};
use sha2::{Digest, Sha256};
use split_bundle::Placed;
use split_states::{MAX_WEIGHT, RowFacts, Times};
use std::alloc::{AllocError, Global};

/// A split file and its facts.
#[derive(Drop)]
pub struct BuiltSplit {
    pub bytes: Bytes,
    pub facts: RowFacts,
}

/// What builds a split from documents that it is given one after the other.
#[derive(Drop)]
pub struct Builder {
    pub schema: Schema,
    pub count: u32,
    pub weight: u64,
    pub documents: DocumentLog,
    pub terms: TermLog,
    pub columns: Vec<ColumnLog>,
    pub tags: Vec<TagLog>,
    pub times: Option<Times>,
    pub walker: Walker,
    pub body: Vec<u8>,
}

fn digest_of(bytes: &[u8]) -> [u8; 32]
    ensures { result ≡ sha256 bytes.now }
{
    let mut hasher = Sha256::new();
    hasher.update(bytes);
    hasher.finalize()
}

impl Builder {
    ghost use Rattle.split_build.specs.Builders.{CanTake, HasTaken, IsBuilt, KeepsTaken};
    ghost use Rattle.split_build.specs.Limits.{MakeNone};

    /// With no documents.
    pub fn vacant(alloc: Global, schema: &Schema) -> Result<Builder, AllocError>
        requires { IsSchema schema.now }
        ensures { IfOk result (λ b. HasTaken b schema.now []) }
    {
        Ok(Builder {
            schema: schema.copy(alloc)?,
            terms: TermLog::vacant(alloc)?,
            columns: column_logs(alloc, schema)?,
            tags: tag_logs(alloc, schema)?,
            documents: DocumentLog::vacant(alloc),
            count: 0,
            weight: 0,
            times: None,
            walker: Walker::vacant(alloc),
            body: Vec::new(alloc),
        })
    }

    // The times with those of a document.
    fn times_with(&self, placed: &Placed) -> Option<Times>
        ensures { (documents : List Placed) → AreTimes (seconds_in self.now.schema.timestamp documents) self.now.times
            → AreTimes (seconds_in self.now.schema.timestamp (documents ++ placed.now ∷ [])) result }
    {
        match self.schema.timestamp {
            None => self.times,
            Some(number) => widened_by(self.times, values_in(placed.doc.as_slice(), number)),
        }
    }

    // Takes a document that stands in bytes in the buffer and is within the limits.
    fn take(&mut self, alloc: Global, placed: &Placed) -> Result<(), AllocError>
        requires { ∥ ((s : Schema) × (documents : List Placed) × CanTake self.old s documents placed.now) ∥₁ }
        ensures { (s : Schema) (documents : List Placed) → CanTake self.old s documents placed.now → OnOk result (HasTaken self.new s (documents ++ placed.now ∷ [])) }
    {
        let document = self.count;
        let doc = placed.doc.as_slice();
        self.walker
            .add_document(&mut self.terms, &self.schema, document, doc)?;
        add_columns(alloc, &mut self.columns, document, placed)?;
        add_tags(alloc, &mut self.tags, placed)?;
        self.times = self.times_with(placed);
        self.documents.add(&placed.partition, &self.body)?;
        self.weight += WEIGHT_BESIDE + self.body.len() as u64;
        self.count += 1;
        Ok(())
    }

    /// Adds a document behind the others. With it they have to be within the limits of a split, or it is refused and the
    /// builder stays as it was. After want of memory nothing is said of the builder.
    pub fn add(&mut self, alloc: Global, placed: &Placed) -> Result<(), BuildError>
        requires { ∥ ((s : Schema) × (documents : List Placed) × HasTaken self.old s documents × IsOfSchema s placed.now.doc) ∥₁ }
        ensures { (s : Schema) (documents : List Placed) → HasTaken self.old s documents → IsOfSchema s placed.now.doc
            → MatchResult result (λ _. HasTaken self.new s (documents ++ placed.now ∷ []))
            (λ e. MakeNone (documents ++ placed.now ∷ []) e × KeepsTaken self.new s documents e) }
    {
        self.body.clear();
        put_body(&mut self.body, placed)?;
        let weight = self.weight + WEIGHT_BESIDE + self.body.len() as u64;
        if weight > MAX_WEIGHT {
            return Err(BuildError::TooLarge { weight });
        }
        self.take(alloc, placed)?;
        Ok(())
    }

    /// The split of the documents that were added.
    pub fn finish(self, alloc: Global) -> Result<BuiltSplit, AllocError>
        requires { ∥ ((s : Schema) × (documents : List Placed) × HasTaken self s documents) ∥₁ }
        ensures { (s : Schema) (documents : List Placed) → HasTaken self s documents → IfOk result (IsBuilt s documents) }
    {
        let Builder {
            schema,
            count,
            weight,
            documents,
            terms,
            columns,
            tags,
            times,
            ..
        } = self;
        let file = file_of(alloc, &schema, count, documents, terms, columns)?;
        let facts = RowFacts {
            docs: u64::from(count),
            rejected: 0,
            weight,
            size: file.len() as u64,
            digest: digest_of(&file),
            times,
            tags: tag_facts(alloc, tags)?,
        };
        Ok(BuiltSplit {
            bytes: Bytes::from_vec(file),
            facts,
        })
    }
}
