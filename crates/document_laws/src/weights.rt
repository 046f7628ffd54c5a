//! How heavy documents are, over the definitions alone.

ghost use Rattle.std.specs.Prelude.{◌≡◌, ◌+◌, ◌*◌, ◌^◌, ◌<◌, ◌≤◌, ℕ, List, length, Ok};
ghost use Rattle.doc_mapping.specs.Answer.{answer};
ghost use Rattle.doc_value.specs.Documents.{IsOfSchema, IsSchema};
ghost use Rattle.doc_value.specs.declared.doc.DocField.{DocField};
ghost use Rattle.doc_value.specs.declared.schema.Schema.{Schema};
ghost use Rattle.document_laws.specs.ReadBack.{HasNumbers};
ghost use Rattle.document_laws.specs.Sizes.{doc_size};
ghost use Rattle.index_config.specs.Answer.{config_answer};
ghost use Rattle.index_config.specs.declared.config.IndexConfig.{IndexConfig};
ghost use Rattle.split_bundle.specs.Documents.{weight};
ghost use Rattle.split_bundle.specs.declared.placed.Placed.{Placed};

/// The document of a record that is accepted.
pub fn number_laws()
    // Its numbers and datetimes have 64 bits.
    ensures { (config : IndexConfig) (bytes : List ℕ) (doc : List DocField) → answer config bytes ≡ Ok doc → HasNumbers doc }
{}

/// How heavy a document is.
pub fn weight_laws()
    // A document of a schema weighs at most ten times as much as its texts have bytes, and 8,000.
    ensures document { (s : Schema) (p : Placed) → IsSchema s → IsOfSchema s p.doc → HasNumbers p.doc → doc_size p.doc < 2 ^ 60 → p.offset < 2 ^ 64 →
        weight p ≤ 8000 + 10 * doc_size p.doc }
    // So the document of a record weighs at most ten times as much as the record has bytes, and 8,000, and what 65,536 leaf
    // texts of 255 bytes can weigh, each with the two bytes of its length.
    ensures record_bytes { (text bytes : List ℕ) (config : IndexConfig) (p : Placed) → config_answer text ≡ Ok config → answer config bytes ≡ Ok p.doc →
        p.offset < 2 ^ 64 → weight p ≤ 8000 + 10 * length bytes + 16842752 }
    // And that is less than half of what a split may weigh.
    ensures light { (text bytes : List ℕ) (config : IndexConfig) (p : Placed) → config_answer text ≡ Ok config → answer config bytes ≡ Ok p.doc →
        p.offset < 2 ^ 64 → weight p ≤ 134217728 }
{}
