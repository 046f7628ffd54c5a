// Laws of the documents of records, over the definitions alone.

ghost use Rattle.std.specs.Prelude.{◌≡◌, ◌↔◌, ℕ, List, Some, Ok, true, Contains, IfSome, IsTrue};
ghost use Rattle.serde_json.specs.Data.{Data};
ghost use Rattle.doc_value.specs.Documents.{IsDynamic, IsOfSchema, PathsRise};
ghost use Rattle.doc_value.specs.declared.doc.DocField.{DocField};
ghost use Rattle.doc_value.specs.declared.doc.Value.TheVariants as values;
ghost use Rattle.dynamic_paths.specs.LeafTexts.{fits, leaf_text};
ghost use Rattle.dynamic_paths.specs.Leaves.{leaf_list};
ghost use Rattle.index_config.specs.declared.config.IndexConfig.{IndexConfig};
ghost use Rattle.doc_mapping.specs.Answer.{answer, value_of};
ghost use Rattle.doc_mapping.specs.Documents.{has_number};
ghost use Rattle.doc_mapping.specs.Held.{IsHeldBy, values_at};
ghost use Rattle.index_config.specs.Accepted.{BeginPlain};

/// What holds of each document that a record has, whatever the configuration is.
pub fn document_laws()
    // It is of the schema: its fields stand in order, each value is of its field's kind, and only lists have more than one.
    ensures fits { (config : IndexConfig) (bytes : List ℕ) (doc : List DocField) → answer config bytes ≡ Ok doc → IsOfSchema config.schema doc }
    // Where the configuration has a timestamp field, the document has values of it.
    ensures stamped { (config : IndexConfig) (bytes : List ℕ) (doc : List DocField) → answer config bytes ≡ Ok doc →
        IfSome config.timestamp_field (λ n. IsTrue (has_number doc n)) }
{}

/// What a record that is accepted holds, where the paths of the fields rise and none begins with a dot.
pub fn record_laws()
    // At each field's path stands nothing, null, or just the document's values, an empty array being no value of a list;
    // at each object's path nothing, null or an object; in strict mode nothing else stands; and a field for what is not mapped
    // has the texts of the leaves that are kept.
    ensures held { (config : IndexConfig) (bytes : List ℕ) (doc : List DocField) → PathsRise config.schema.fields → BeginPlain config.schema.fields →
        answer config bytes ≡ Ok doc → (d : Data) × ((value_of bytes ≡ Some d) × IsHeldBy config d doc) }
{}

/// What a document has of the leaves of its record, where the schema has a field for what is not mapped.
pub fn leaf_laws()
    // That field has just the leaf texts that are kept of the record's leaves.
    ensures { (config : IndexConfig) (bytes : List ℕ) (doc : List DocField) (n : ℕ) (path text : List ℕ) → answer config bytes ≡ Ok doc →
        config.schema.dynamic ≡ Some n → IsDynamic config.schema.fields n →
        Contains (values_at doc n) (values.Text (leaf_text path text))
        ↔ ((d : Data) × ((value_of bytes ≡ Some d) × Contains (leaf_list config.schema d) (path, text) × (fits (leaf_text path text) ≡ true))) }
{}
