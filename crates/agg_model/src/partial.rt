//! What some documents count, in a form that is collected and merged.

ghost use Rattle.std.specs.Prelude.{◌≡◌, ◌+◌, ◌^◌, ◌<◌, ◌∷◌, [], ◌++◌, List, IfOk, OnOk};
ghost use Rattle.std.specs.List.{AllZip};
ghost use Rattle.doc_value.specs.declared.doc.DocField.{DocField};
ghost use Rattle.agg_model.specs.Checking.{HaveIntervals};
ghost use Rattle.agg_model.specs.Partials.{IsPart, AreCollected, IsPartialOf, StandsFor, documents_in};

use crate::collecting::collect_part;
use crate::counts::Counts;
use crate::request::{AggRequest, DocValues, NamedAgg};
use std::alloc::{AllocError, Global};

/// What some documents count for each aggregation of a request.
#[derive(Drop)]
pub struct Partial {
    pub(crate) documents: u64,
    pub(crate) parts: Vec<Counts>,
}

/// The partial of no documents.
pub fn vacant_partial(alloc: Global, request: &AggRequest) -> Result<Partial, AllocError>
    ensures partial { IfOk result (IsPartialOf request.now) }
    ensures stands { IfOk result (λ partial. StandsFor request.now partial []) }
{
    let mut parts = Vec::new(alloc);
    for _named in request.as_slice() {
        parts.push(Counts::vacant(alloc))?;
    }
    Ok(Partial {
        documents: 0,
        parts,
    })
}

fn collect_parts(
    alloc: Global,
    request: &[NamedAgg],
    parts: &mut Vec<Counts>,
    doc: &DocValues,
    documents: u64,
) -> Result<(), AllocError>
    requires intervals { HaveIntervals request.now }
    requires few { documents + 1 < 2 ^ 62 }
    requires parts { AllZip (λ named counts. IsPart documents named.agg counts) request.now parts.old.items }
    ensures { OnOk result (AreCollected documents doc.now request.now parts.old.items parts.new.items) }
{
    for (i, named) in request.iter().enumerate() {
        collect_part(alloc, &named.agg, &mut parts[i], doc, documents)?;
    }
    Ok(())
}

/// Counts one more document. After want of memory the partial is spent.
pub fn collect_one(
    alloc: Global,
    request: &AggRequest,
    partial: &mut Partial,
    doc: &DocValues,
) -> Result<(), AllocError>
    requires intervals { HaveIntervals request.now }
    requires partial { IsPartialOf request.now partial.old }
    requires room { documents_in partial.old + 1 < 2 ^ 62 }
    ensures partial { OnOk result (IsPartialOf request.now partial.new) }
    ensures many { OnOk result (documents_in partial.new ≡ documents_in partial.old + 1) }
    ensures stands { OnOk result ((documents : List (List DocField)) → StandsFor request.now partial.old documents
        → StandsFor request.now partial.new (documents ++ doc.now ∷ [])) }
{
    collect_parts(
        alloc,
        request.as_slice(),
        &mut partial.parts,
        doc,
        partial.documents,
    )?;
    partial.documents += 1;
    Ok(())
}
