// The numbers of a set as a rising list.

ghost use Rattle.std.specs.Prelude.{◌≡◌, ◌<◌, Bool, List, IfOk};
ghost use Rattle.std.specs.List.{All};
ghost use Rattle.doc_value.specs.declared.doc.DocField.{DocField};
ghost use Rattle.split_bundle.specs.declared.placed.Placed.{Placed};
ghost use Rattle.doc_sets.specs.Sets.{IsSetOf};
ghost use Rattle.leaf_search.specs.Numbers.{numbers_of};

use doc_sets::DocBits;
use std::alloc::{AllocError, Global};

// The numbers that a set has.
pub(crate) fn numbers_in(alloc: Global, bits: &DocBits) -> Result<Vec<u32>, AllocError>
    ensures below { IfOk result (λ ns. All (λ n. n < bits.now.size) ns.items) }
    ensures only { (test : List DocField → Bool) (documents : List Placed) → IsSetOf test documents bits.now → IfOk result (λ ns. ns.items ≡ numbers_of test documents) }
{
    bits.numbers(alloc)
}
