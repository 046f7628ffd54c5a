//! The documents of a batch.

ghost use Rattle.std.specs.Prelude.{◌≡◌, ◌≤◌, ◌++◌, ◌∷◌, [], ℕ, suc, List, false, OnOk, IfOk, nat_lt};
ghost use Rattle.doc_value.specs.Documents.{IsSchema, IsOfSchema};
ghost use Rattle.index_world.specs.Accepted as spec;
ghost use Rattle.split_bundle.specs.Documents.{weight as weight_of};
ghost use Rattle.split_bundle.specs.declared.placed.Placed.{Placed};

use byte_fields::Bytes;
use doc_mapping::{Mapping, Reject};
use doc_value::Doc;
use index_config::IndexConfig;
use source_checkpoint::Partition;
use split_build::{BuildError, Builder, BuiltSplit};
use split_bundle::Placed;
use split_laws::built_is_one;
use std::alloc::{AllocError, Global};
use std::mem;

/// Documents of a greater weight take no further one.
const CLOSING_WEIGHT: u64 = 134_217_728;

/// The documents that a mapping accepts, as what builds their split has taken them.
#[derive(Drop)]
pub struct Documents {
    pub mapping: Mapping,
    builder: Builder,
}

// The document of a record with these bytes, or none where the mapping does not accept it.
fn accepted(alloc: Global, mapping: &Mapping, bytes: &[u8]) -> Result<Option<Doc>, AllocError>
    ensures { IfOk result (λ doc. doc ≡ spec.accepted mapping.now bytes.now) }
{
    match mapping.accept(alloc, bytes) {
        Ok(doc) => Ok(Some(doc)),
        Err(Reject::Memory(refused)) => Err(refused),
        Err(_) => Ok(None),
    }
}

impl Documents {
    ghost use Rattle.indexing_run.specs.Gathering.{HasDocuments};
    ghost use Rattle.indexing_run.specs.Steps.{with_record, taken_so_far};
    ghost use Rattle.meta_journal.specs.Spelling.{CanSpellFacts};
    ghost use Rattle.split_build.specs.Builders.{IsBuilt};
    ghost use Rattle.split_form.specs.Facts.{facts_of};
    ghost use Rattle.split_form.specs.Form.{file_of};

    /// None so far, under a configuration.
    pub fn vacant(alloc: Global, config: IndexConfig) -> Result<Documents, AllocError>
        requires { ∥ IsSchema config.schema ∥₁ }
        ensures mapping { IfOk result (λ documents. documents.mapping ≡ config) }
        ensures taken { IfOk result (λ documents. HasDocuments documents []) }
    {
        match Builder::vacant(alloc, &config.schema) {
            Ok(builder) => Ok(Documents {
                mapping: Mapping::new(config),
                builder,
            }),
            Err(refused) => {
                mem::drop(config);
                Err(refused)
            }
        }
    }

    /// The configuration that they are accepted under.
    pub fn config(&self) -> &IndexConfig
        ensures { result.now ≡ self.now.mapping }
    {
        self.mapping.config()
    }

    /// Whether they take no further one.
    pub fn are_heavy(&self) -> bool
        ensures { result ≡ nat_lt 134217728 self.now.builder.weight }
    {
        self.builder.weight > CLOSING_WEIGHT
    }

    // Adds a document that is no heavier than all may be before it.
    fn add(&mut self, alloc: Global, placed: &Placed) -> Result<(), AllocError>
        requires taken { ∥ ((list : List Placed) × HasDocuments self.old list) ∥₁ }
        requires room { self.old.builder.weight ≤ 134217728 }
        requires of_schema { IsOfSchema self.old.mapping.schema placed.now.doc }
        requires light { weight_of placed.now ≤ 134217728 }
        ensures mapping { self.new.mapping ≡ self.old.mapping }
        ensures taken { (list : List Placed) → HasDocuments self.old list → OnOk result (HasDocuments self.new (list ++ placed.now ∷ [])) }
    {
        match self.builder.add(alloc, placed) {
            Ok(()) => Ok(()),
            Err(error) => match error {
                BuildError::Memory(refused) => Err(refused),
                _ => unreachable!(),
            },
        }
    }

    /// Takes the record at an offset: a document where the mapping accepts it. After an `Err` nothing is said of what is held.
    pub fn take(
        &mut self,
        alloc: Global,
        partition: &Partition,
        offset: u64,
        bytes: &Bytes,
    ) -> Result<(), AllocError>
        requires taken { ∥ ((list : List Placed) × HasDocuments self.old list) ∥₁ }
        requires room { nat_lt 134217728 self.old.builder.weight ≡ false }
        ensures mapping { self.new.mapping ≡ self.old.mapping }
        ensures taken { (n : ℕ) (list : List Placed) → HasDocuments self.old list → OnOk result ((after : List Placed) × HasDocuments self.new after
            × (with_record partition.now offset (spec.accepted self.old.mapping bytes.now) (taken_so_far n list) ≡ taken_so_far (suc n) after)) }
    {
        let Some(doc) = accepted(alloc, &self.mapping, bytes.as_slice())? else {
            return Ok(());
        };
        let placed = Placed {
            partition: partition.copy(),
            offset,
            doc,
        };
        self.add(alloc, &placed)
    }

    /// Their split: its file and its facts.
    pub fn finish(self, alloc: Global) -> Result<BuiltSplit, AllocError>
        requires { ∥ ((list : List Placed) × HasDocuments self list) ∥₁ }
        ensures built { (list : List Placed) → HasDocuments self list → IfOk result (IsBuilt self.mapping.schema list) }
        ensures bytes { (list : List Placed) → HasDocuments self list → IfOk result (λ split. split.bytes ≡ file_of self.mapping.schema list) }
        ensures facts { (list : List Placed) → HasDocuments self list → IfOk result (λ split. split.facts ≡ facts_of self.mapping.schema list 0) }
        ensures can { IfOk result (λ split. CanSpellFacts split.facts) }
    {
        let Documents { mapping, builder } = self;
        mem::drop(mapping);
        let split = builder.finish(alloc)?;
        built_is_one(&split);
        Ok(split)
    }
}
