//! The sections of a split, written from what was taken of its documents.

ghost use Rattle.std.specs.Prelude.{◌≡◌, List, IfOk, length};
ghost use Rattle.split_bundle.specs.declared.placed.Placed.{Placed};
ghost use Rattle.split_bundle.specs.Documents.{documents_section};
ghost use Rattle.split_bundle.specs.Splits.{IsSplit};
ghost use Rattle.split_build.specs.HeldDocuments.{HasDocuments};
ghost use Rattle.split_build.specs.Sections.{AreLogs, ArePartsOf};

use crate::column_parts::write_columns;
use crate::columns::ColumnLog;
use crate::documents::DocumentLog;
use crate::file::FileParts;
use crate::term_parts::write_terms;
use crate::terms::TermLog;
use doc_value::Schema;
use source_checkpoint::Partition;
use std::alloc::{AllocError, Global};

// The section of documents. What was taken of them is let go.
fn section_of(
    alloc: Global,
    documents: DocumentLog,
    partitions: &[Partition],
) -> Result<Vec<u8>, AllocError>
    requires { ∥ ((ds : List Placed) × HasDocuments documents ds) ∥₁ }
    ensures { (ds : List Placed) → HasDocuments documents ds → IfOk result (λ out. out.items ≡ documents_section partitions.now ds) }
{
    let mut out = Vec::new(alloc);
    documents.put_section(alloc, partitions, &mut out)?;
    Ok(out)
}

// The sections of so many documents. What was taken of them is let go section by section.
fn write_parts(
    alloc: Global,
    schema: &Schema,
    count: u32,
    documents: DocumentLog,
    terms: TermLog,
    columns: Vec<ColumnLog>,
) -> Result<FileParts, AllocError>
    requires { ∥ ((ds : List Placed) × AreLogs schema.now ds documents terms columns.items) ∥₁ }
    ensures count { IfOk result (λ f. f.docs ≡ count) }
    ensures parts { (ds : List Placed) → AreLogs schema.now ds documents terms columns.items → IfOk result (ArePartsOf schema.now ds) }
{
    let terms = write_terms(alloc, schema, terms)?;
    let columns = write_columns(alloc, schema, &columns)?;
    let partitions = documents.partitions(alloc)?;
    let documents = section_of(alloc, documents, &partitions)?;
    Ok(FileParts {
        docs: count,
        documents,
        terms,
        columns,
        partitions,
    })
}

/// The split file of so many documents.
pub(crate) fn file_of(
    alloc: Global,
    schema: &Schema,
    count: u32,
    documents: DocumentLog,
    terms: TermLog,
    columns: Vec<ColumnLog>,
) -> Result<Vec<u8>, AllocError>
    requires { ∥ ((ds : List Placed) × AreLogs schema.now ds documents terms columns.items) ∥₁ }
    ensures { (ds : List Placed) → AreLogs schema.now ds documents terms columns.items → count ≡ length ds → IfOk result (λ file. IsSplit schema.now file.items ds) }
{
    let parts = write_parts(alloc, schema, count, documents, terms, columns)?;
    parts.write_file(alloc)
}
