// What a query means on a document, by the keys of the document.

ghost use Rattle.std.specs.Prelude.{◌≡◌, ℕ, ◌<◌, ◌≤◌, ◌∷◌, true, false, List, Some, length, slice_get};
ghost use Rattle.doc_value.specs.declared.schema.Field.{Field};
ghost use Rattle.doc_value.specs.declared.schema.Schema.{Schema};
ghost use Rattle.doc_value.specs.declared.doc.DocField.{DocField};
ghost use Rattle.doc_value.specs.declared.doc.Value.{Value};
ghost use Rattle.doc_value.specs.Documents.{IsOfKind, AreOfKind, values_in};
ghost use Rattle.doc_value.specs.Terms.{term_bytes};
ghost use Rattle.doc_sets.specs.Values.{Has64, AllHave64};
ghost use Rattle.query_ast.specs.Meaning.{is_text, is_there, equals_some, some_has_token, some_has_phrase, some_has_prefix, each_stands};
ghost use Rattle.split_bundle.specs.Keys.{Occurrence, field_key, presence_key, keys_of};
ghost use Rattle.split_bundle.specs.Lists.{has_key};
ghost use Rattle.doc_sets.specs.Asked.{AreTexts, AllNear, IsShort, begins, beginning, has_each, has_run, has_some, is_listed};
ghost use Rattle.text_tokens.specs.declared.tokens.Token.{Token};

/// A token stands in a document exactly where the document has its key.
pub fn word_by_keys()
    ensures { (s : Schema) (n : ℕ) (f : Field) (term : List ℕ) (d : List DocField) → slice_get s.fields n ≡ Some f → n < 65280 → f.indexed ≡ true → AreTexts (values_in d n)
        → some_has_token f term (values_in d n) ≡ has_key (field_key n term) (keys_of s d) }
{}

/// A field has a value in a document exactly where the document has the field's presence key.
pub fn presence_by_keys()
    ensures { (s : Schema) (n : ℕ) (f : Field) (d : List DocField) → slice_get s.fields n ≡ Some f → length s.fields ≤ 65280 → f.indexed ≡ true
        → is_there (values_in d n) ≡ has_key (presence_key n) (keys_of s d) }
{}

/// A value that is no text stands in a document exactly where the document has its key.
pub fn value_by_keys()
    ensures { (s : Schema) (n : ℕ) (f : Field) (w : Value) (d : List DocField) → slice_get s.fields n ≡ Some f → n < 65280 → f.indexed ≡ true → is_text f.kind ≡ false
        → AreOfKind f.kind (values_in d n) → IsOfKind f.kind w → AllHave64 (values_in d n) → Has64 w
        → equals_some (Some w) (values_in d n) ≡ has_key (field_key n (term_bytes w)) (keys_of s d) }
{}

/// Each of some tokens stands in a document exactly where the document has the key of each.
pub fn each_by_keys()
    ensures { (s : Schema) (n : ℕ) (f : Field) (ts : List Token) (d : List DocField) → slice_get s.fields n ≡ Some f → n < 65280 → f.indexed ≡ true → AreTexts (values_in d n)
        → each_stands f ts (values_in d n) ≡ has_each n ts (keys_of s d) }
{}

/// A phrase stands in one value of a document exactly where the places of its tokens have its distances.
pub fn phrase_by_keys()
    ensures { (s : Schema) (n : ℕ) (f : Field) (t : Token) (ts : List Token) (d : List DocField) → slice_get s.fields n ≡ Some f → n < 65280 → f.indexed ≡ true → AreTexts (values_in d n)
        → AllNear f (values_in d n) → IsShort t.position (t ∷ ts) → some_has_phrase f (t ∷ ts) (values_in d n) ≡ has_run n (t ∷ ts) (keys_of s d) }
{}

/// A token of a field begins so exactly where some key of the document begins with the key made of it.
pub fn prefix_by_keys()
    ensures { (s : Schema) (n : ℕ) (f : Field) (u : List ℕ) (d : List DocField) → slice_get s.fields n ≡ Some f → n < 65280 → f.indexed ≡ true → AreTexts (values_in d n)
        → some_has_prefix f u (values_in d n) ≡ begins (field_key n u) (keys_of s d) }
{}

/// Some key of a document begins so exactly where it has one of the listed keys that begin so, where all its keys are listed.
pub fn prefix_by_dictionary()
    ensures { (prefix : List ℕ) (keys : List (List ℕ)) (os : List Occurrence) → ((key : List ℕ) → has_key key os ≡ true → is_listed key keys ≡ true)
        → begins prefix os ≡ has_some (beginning prefix keys) os }
{}
