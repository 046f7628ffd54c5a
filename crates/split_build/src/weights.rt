//! What documents weigh.

ghost use Rattle.std.specs.Prelude.{◌≡◌, IfOk, min};
ghost use Rattle.split_bundle.specs.Documents.{total_weight};
ghost use Rattle.split_build.specs.Limits.{most};

use crate::bodies::put_body;
use split_bundle::Placed;
use std::alloc::{AllocError, Global};

/// What a document weighs beside its bytes: one for the place of its partition, and 256.
pub(crate) const WEIGHT_BESIDE: u64 = 257;

// What documents weigh together, or 2^64 - 1 where that is more.
pub(crate) fn weight_of(alloc: Global, documents: &[Placed]) -> Result<u64, AllocError>
    ensures { IfOk result (λ weight. weight ≡ min (total_weight documents.now) most) }
{
    let mut weight: u64 = 0;
    let mut body = Vec::new(alloc);
    let mut rest = documents;
    while let Some((placed, behind)) = rest.split_first() {
        body.clear();
        put_body(&mut body, placed)?;
        weight = weight.saturating_add(WEIGHT_BESIDE + body.len() as u64);
        rest = behind;
    }
    Ok(weight)
}
