//! Two partials of one request are made one.

ghost use Rattle.std.specs.Prelude.{◌≡◌, ◌+◌, ◌^◌, ◌<◌, ◌++◌, List, OnOk, length};
ghost use Rattle.std.specs.List.{All};
ghost use Rattle.doc_value.specs.declared.doc.DocField.{DocField};
ghost use Rattle.agg_model.specs.Partials.{HasRoom, AreMerged, IsPartialOf, StandsFor, documents_in};

use crate::counts::Counts;
use crate::partial::Partial;
use crate::request::AggRequest;
use std::alloc::{AllocError, Global};

fn merge_parts(alloc: Global, parts: &mut Vec<Counts>, others: &[Counts]) -> Result<(), AllocError>
    requires same { length parts.old.items ≡ length others.now }
    requires mine { All HasRoom parts.old.items }
    requires yours { All HasRoom others.now }
    ensures { OnOk result (AreMerged parts.old.items others.now parts.new.items) }
{
    for (i, other) in others.iter().enumerate() {
        parts[i].merge(alloc, other)?;
    }
    Ok(())
}

/// Adds what another partial of the same request counts. After want of memory the partial is spent.
pub fn merge_partials(
    alloc: Global,
    request: &AggRequest,
    into: &mut Partial,
    other: &Partial,
) -> Result<(), AllocError>
    requires mine { IsPartialOf request.now into.old }
    requires yours { IsPartialOf request.now other.now }
    requires room { documents_in into.old + documents_in other.now < 2 ^ 62 }
    ensures partial { OnOk result (IsPartialOf request.now into.new) }
    ensures many { OnOk result (documents_in into.new ≡ documents_in into.old + documents_in other.now) }
    ensures stands { OnOk result ((mine yours : List (List DocField)) → StandsFor request.now into.old mine → StandsFor request.now other.now yours
        → StandsFor request.now into.new (mine ++ yours)) }
{
    merge_parts(alloc, &mut into.parts, other.parts.as_slice())?;
    into.documents += other.documents;
    Ok(())
}
