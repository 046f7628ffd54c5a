// Sets of documents by tests, and what is made of sets.

ghost use Rattle.std.specs.Prelude.{◌≡◌, ℕ, ◌&&◌, ◌||◌, not, true, false, Bool, List, IfOk, MatchResult};
ghost use Rattle.doc_value.specs.declared.doc.DocField.{DocField};
ghost use Rattle.doc_value.specs.declared.schema.Schema.{Schema};
ghost use Rattle.split_bundle.specs.declared.placed.Placed.{Placed};
ghost use Rattle.split_bundle.specs.Files.{Parts};
ghost use Rattle.doc_sets.specs.Bits.{has};
ghost use Rattle.doc_sets.specs.Needed.{IsSearched};
ghost use Rattle.doc_sets.specs.Sets.{IsSetOf};

use crate::bits::DocBits;
use crate::leaf_error::LeafError;
use split_bundle::PartView;
use std::alloc::{AllocError, Global};

/// No document.
pub fn no_documents(alloc: Global, part: &PartView) -> Result<DocBits, AllocError>
    ensures size { IfOk result (λ b. b.size ≡ part.now.footer.layout.docs) }
    ensures only { (s : Schema) (documents : List Placed) (p : Parts) → IsSearched part.now s documents p → IfOk result (IsSetOf (λ d. false) documents) }
    // Over any bytes.
    ensures none { IfOk result (λ b. (k : ℕ) → has b k ≡ false) }
{
    DocBits::vacant(alloc, part.doc_count())
}

/// Every document.
pub fn all_documents(alloc: Global, part: &PartView) -> Result<DocBits, AllocError>
    ensures size { IfOk result (λ b. b.size ≡ part.now.footer.layout.docs) }
    ensures only { (s : Schema) (documents : List Placed) (p : Parts) → IsSearched part.now s documents p → IfOk result (IsSetOf (λ d. true) documents) }
{
    DocBits::filled(alloc, part.doc_count())
}

/// The documents that are in both sets.
pub fn keep_both(bits: &mut DocBits, other: &DocBits)
    requires { bits.old.size ≡ other.now.size }
    ensures size { bits.new.size ≡ bits.old.size }
    ensures only { (p q : List DocField → Bool) (documents : List Placed) → IsSetOf p documents bits.old → IsSetOf q documents other.now → IsSetOf (λ d. p d && q d) documents bits.new }
{
    bits.keep(other);
}

/// The documents that are in one of the sets.
pub fn add_other(bits: &mut DocBits, other: &DocBits)
    requires { bits.old.size ≡ other.now.size }
    ensures size { bits.new.size ≡ bits.old.size }
    ensures only { (p q : List DocField → Bool) (documents : List Placed) → IsSetOf p documents bits.old → IsSetOf q documents other.now → IsSetOf (λ d. p d || q d) documents bits.new }
{
    bits.add(other);
}

/// The documents that are not in a set.
pub fn take_others(bits: &mut DocBits)
    ensures size { bits.new.size ≡ bits.old.size }
    ensures only { (p : List DocField → Bool) (documents : List Placed) → IsSetOf p documents bits.old → IsSetOf (λ d. not (p d)) documents bits.new }
{
    bits.turn();
}
