// Laws of the file of documents, over its definitions alone.

ghost use Rattle.std.specs.Prelude.{◌≡◌, ◌↔◌, ◌<◌, ℕ, List, Contains};
ghost use Rattle.std.specs.List.{AllByRecursion};
ghost use Rattle.doc_value.specs.declared.schema.Schema.{Schema};
ghost use Rattle.split_bundle.specs.declared.placed.Placed.{Placed};
ghost use Rattle.split_bundle.specs.Splits.{AreKeys, AreRising, IsSplit};
ghost use Rattle.split_form.specs.Form.{file_of, keys_in};
ghost use Rattle.split_form.specs.Sorted.{sorted};

/// The distinct ones of some texts, rising.
pub fn sorted_laws()
    // They rise.
    ensures rising { (texts : List (List ℕ)) → AreRising (sorted texts) }
    // They are these texts.
    ensures exact { (texts : List (List ℕ)) (text : List ℕ) → Contains (sorted texts) text ↔ Contains texts text }
    // No other rising texts are these texts.
    ensures only { (texts others : List (List ℕ)) → AreRising others → ((text : List ℕ) → Contains others text ↔ Contains texts text) → others ≡ sorted texts }
{}

/// The keys that documents say.
pub fn keys_laws()
    // They are the keys of a split of these documents, and no other texts are.
    ensures are { (s : Schema) (documents : List Placed) → AreKeys s documents (keys_in s documents) }
    ensures only { (s : Schema) (documents : List Placed) (keys : List (List ℕ)) → AreKeys s documents keys → keys ≡ keys_in s documents }
{}

/// The file of documents.
pub fn file_laws()
    // Bytes that are a split of documents are the file of these documents.
    ensures { (s : Schema) (bytes : List ℕ) (documents : List Placed) → IsSplit s bytes documents → AllByRecursion (λ b. b < 256) bytes → bytes ≡ file_of s documents }
{}

/// These bytes are the file of whatever documents they are a split of.
pub fn file_is_one(bytes: &[u8])
    ensures { (s : Schema) (documents : List Placed) → IsSplit s bytes.now documents → bytes.now ≡ file_of s documents }
{
    // read, so that each byte is known to be below 256
    let _bytes = bytes;
}
