// Laws of built splits, over the definitions alone.

ghost use Rattle.std.specs.Prelude.{◌≡◌, ◌<◌, ℕ, List};
ghost use Rattle.std.specs.List.{AllByRecursion};
ghost use Rattle.doc_value.specs.declared.schema.Schema.{Schema};
ghost use Rattle.split_states.specs.declared.facts.RowFacts.{RowFacts};
ghost use Rattle.split_bundle.specs.declared.placed.Placed.{Placed};
ghost use Rattle.split_build.specs.declared.builder.BuiltSplit.{BuiltSplit as Split};
ghost use Rattle.split_build.specs.Builders.{IsBuilt};
ghost use Rattle.split_build.specs.Facts.{AreFacts};
ghost use Rattle.split_form.specs.Facts.{facts_of};
ghost use Rattle.split_form.specs.Form.{file_of};

use split_build::BuiltSplit;
use split_form::file_is_one;

/// The facts of the file of documents.
pub fn facts_laws()
    // What are facts of a split of documents, whose bytes are their file, are the facts of that file.
    ensures { (s : Schema) (documents : List Placed) (rejected : ℕ) (bytes : List ℕ) (facts : RowFacts) → AreFacts s documents rejected bytes facts → bytes ≡ file_of s documents
        → facts ≡ facts_of s documents rejected }
{}

/// What is built of documents.
pub fn built_laws()
    // Its bytes are the file of these documents, and its facts those of the file.
    ensures { (s : Schema) (documents : List Placed) (split : Split) → IsBuilt s documents split → AllByRecursion (λ b. b < 256) split.bytes
        → (split.bytes ≡ file_of s documents) × (split.facts ≡ facts_of s documents 0) }
{}

/// This split is the file of whatever documents it is built of, with their facts.
pub fn built_is_one(split: &BuiltSplit)
    ensures { (s : Schema) (documents : List Placed) → IsBuilt s documents split.now
        → (split.now.bytes ≡ file_of s documents) × (split.now.facts ≡ facts_of s documents 0) }
{
    file_is_one(split.bytes.as_slice());
}
