// Laws of clauses on paths that no field has, over the definitions alone.

ghost use Rattle.std.specs.Prelude.{◌≡◌, ℕ, List, Some, Err};
ghost use Rattle.std.specs.List.{list_any};
ghost use Rattle.doc_value.specs.declared.doc.DocField.{DocField};
ghost use Rattle.doc_value.specs.declared.schema.Schema.{Schema};
ghost use Rattle.dynamic_laws.specs.Listed.{Lists, IsUnmapped, Means, has_kept, has_front, has_path};
ghost use Rattle.dynamic_paths.specs.LeafTexts.{Leaf};
ghost use Rattle.query_reader.specs.Asking as asks;
ghost use Rattle.query_reader.specs.Resolve.{resolve_clause};
ghost use Rattle.query_reader.specs.Texts.{text_at};
ghost use Rattle.query_reader.specs.declared.refusal.QueryError.TheVariants.{BadValue};
ghost use Rattle.query_reader.specs.declared.special.Member.{Member};
ghost use Rattle.query_reader.specs.declared.special.Ranged.{Ranged};
ghost use Rattle.query_reader.specs.declared.tree.Span.{Span};

/// What a clause on a path that no field has means over a document that lists the leaves of a record.
pub fn clause_laws()
    // A word holds just where the leaf of that path and text is there, and is kept.
    ensures word { (schema : Schema) (doc : List DocField) (leaves : List Leaf) → Lists schema doc leaves →
        (defaults text : List ℕ) (path words : Span) → IsUnmapped schema (text_at text path) →
        Means schema doc defaults text path (asks.Word words) (has_kept leaves (text_at text path) (text_at text words)) }
    // A quoted text too.
    ensures quoted { (schema : Schema) (doc : List DocField) (leaves : List Leaf) → Lists schema doc leaves →
        (defaults text : List ℕ) (path words : Span) → IsUnmapped schema (text_at text path) →
        Means schema doc defaults text path (asks.Quoted words) (has_kept leaves (text_at text path) (text_at text words)) }
    // A set holds just where that is so of one of its members.
    ensures set { (schema : Schema) (doc : List DocField) (leaves : List Leaf) → Lists schema doc leaves →
        (defaults text : List ℕ) (path : Span) (at : ℕ) (members : List Member) → IsUnmapped schema (text_at text path) →
        Means schema doc defaults text path (asks.OneOf at members)
        (list_any (λ member. has_kept leaves (text_at text path) (text_at text member.place)) members) }
    // A prefix holds just where some leaf of that path is kept whose text begins so.
    ensures prefix { (schema : Schema) (doc : List DocField) (leaves : List Leaf) → Lists schema doc leaves →
        (defaults text : List ℕ) (path front : Span) → IsUnmapped schema (text_at text path) →
        Means schema doc defaults text path (asks.Prefix front) (has_front leaves (text_at text path) (text_at text front)) }
    // A star holds just where some leaf of that path is kept.
    ensures presence { (schema : Schema) (doc : List DocField) (leaves : List Leaf) → Lists schema doc leaves →
        (defaults text : List ℕ) (path : Span) → IsUnmapped schema (text_at text path) →
        Means schema doc defaults text path asks.Any (has_path leaves (text_at text path)) }
    // A range or a comparison is refused at its bracket or sign.
    ensures range { (schema : Schema) (doc : List DocField) (leaves : List Leaf) → Lists schema doc leaves →
        (defaults text : List ℕ) (path : Span) (at : ℕ) (ranged : Ranged) → IsUnmapped schema (text_at text path) →
        resolve_clause schema defaults text (Some path) (asks.Within at ranged) ≡ Err (BadValue at) }
{}
