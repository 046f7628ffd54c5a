//! Laws of printed documents, over the definitions alone.

ghost use Rattle.std.specs.Prelude.{◌≡◌, ◌≤◌, ℕ, List, Some, length, Ok};
ghost use Rattle.doc_mapping.specs.Answer.{answer};
ghost use Rattle.doc_mapping.specs.Held.{values_at};
ghost use Rattle.doc_value.specs.Documents.{IsOfSchema, PathsRise};
ghost use Rattle.doc_value.specs.Printed.{printed_doc};
ghost use Rattle.doc_value.specs.declared.doc.DocField.{DocField};
ghost use Rattle.doc_value.specs.declared.schema.Schema.{Schema};
ghost use Rattle.index_config.specs.Answer.{config_answer};
ghost use Rattle.index_config.specs.declared.config.IndexConfig.{IndexConfig};
ghost use Rattle.document_laws.specs.ReadBack.{AllApart, AreShort, HasNumbers, HasRisingKeys, IsBeside, ReadsBack, paths_of};
ghost use Rattle.document_laws.specs.Sizes.{mapped_size, max_leaf_size, values_size};

/// What is printed of a document of a schema, where no two of its fields have one path and none lies in another.
pub fn printing_laws()
    // The keys of each object rise.
    ensures rise { (schema : Schema) (doc : List DocField) → IsOfSchema schema doc → AllApart (paths_of schema.fields doc) → HasNumbers doc →
        HasRisingKeys (printed_doc schema doc) }
    // Where no path has more than 126 names, it reads back.
    ensures back { (schema : Schema) (doc : List DocField) → IsOfSchema schema doc → AllApart (paths_of schema.fields doc) → HasNumbers doc →
        AreShort (paths_of schema.fields doc) → ReadsBack schema doc }
{}

/// What is printed of the document of a record that is accepted, where the paths of the fields rise, and no field's path goes
/// on behind that of a field for what is not mapped.
pub fn record_laws()
    // The keys of each object rise.
    ensures rise { (config : IndexConfig) (bytes : List ℕ) (doc : List DocField) → PathsRise config.schema.fields → IsBeside config.schema →
        answer config bytes ≡ Ok doc → HasNumbers doc → HasRisingKeys (printed_doc config.schema doc) }
    // It reads back.
    ensures back { (config : IndexConfig) (bytes : List ℕ) (doc : List DocField) → PathsRise config.schema.fields → IsBeside config.schema →
        answer config bytes ≡ Ok doc → HasNumbers doc → ReadsBack config.schema doc }
    // The texts of the mapped fields are together no longer than the record.
    ensures size { (config : IndexConfig) (bytes : List ℕ) (doc : List DocField) → PathsRise config.schema.fields → answer config bytes ≡ Ok doc →
        mapped_size config.schema.dynamic doc ≤ length bytes }
    // Those of the field for what is not mapped are at most 65,536 of 255 bytes.
    ensures leaves { (config : IndexConfig) (bytes : List ℕ) (doc : List DocField) (n : ℕ) → answer config bytes ≡ Ok doc →
        config.schema.dynamic ≡ Some n → values_size (values_at doc n) ≤ max_leaf_size }
    // Under a configuration that was read no path goes on behind that field's.
    ensures beside { (text : List ℕ) (config : IndexConfig) → config_answer text ≡ Ok config → IsBeside config.schema }
{}
