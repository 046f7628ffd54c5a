//! What an answer does not depend on.

ghost use Rattle.std.specs.Prelude.{List, IsPermutation};
ghost use Rattle.doc_value.specs.declared.schema.Schema.{Schema};
ghost use Rattle.split_bundle.specs.declared.placed.Placed.{Placed};
ghost use Rattle.leaf_search.specs.Answers.{IsAnswerOf};
ghost use Rattle.leaf_search.specs.declared.request.LeafRequest.{LeafRequest};
ghost use Rattle.leaf_search.specs.declared.request.LeafAnswer.{LeafAnswer};
ghost use Rattle.root_search.specs.Places.{OneAtEach};

/// An answer over documents of which no two have one place is that over the same documents in any order.
pub fn same_answers()
    ensures { (s : Schema) (r : LeafRequest) (documents others : List Placed) (a : LeafAnswer) → IsPermutation documents others → OneAtEach documents → IsAnswerOf s r documents a → IsAnswerOf s r others a }
{}
