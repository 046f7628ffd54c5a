// Laws of the query language, over its definitions alone.

ghost use Rattle.std.specs.Prelude.{◌≡◌, ◌↔◌, ◌<◌, ◌≤◌, ℕ, List, Ok, Err};
ghost use Rattle.std.specs.Option.{IfSome};
ghost use Rattle.doc_value.specs.Documents.{IsDynamic};
ghost use Rattle.doc_value.specs.declared.schema.Schema.{Schema};
ghost use Rattle.query_ast.specs.Queries.{IsQueryOf};
ghost use Rattle.query_ast.specs.Sought.{Sought};
ghost use Rattle.query_reader.specs.Grammar.{IsQuery, IsLongestFront, IsTooDeepAt};
ghost use Rattle.query_reader.specs.Machine.{reads};
ghost use Rattle.query_reader.specs.Printed.{IsPrintedOf, nesting};
ghost use Rattle.query_reader.specs.Resolve.{query_of};
ghost use Rattle.query_reader.specs.Tree.{Tree};
ghost use Rattle.query_reader.specs.declared.refusal.QueryError.TheVariants.{TooDeep};
ghost use Rattle.query_reader.specs.declared.fault.Fault.TheVariants as fault;
ghost use Rattle.query_reader.specs.declared.fault.Fault.TheVariants.{Syntax};

/// What is read of a text is what the grammar says.
pub fn reading_laws()
    // Each text of the grammar that nests at most 64 deep is read, as the tree that the grammar gives it.
    ensures read { (text : List ℕ) (t : Tree) → IsQuery 64 text t → reads text ≡ Ok t }
    // No other text is read.
    ensures only { (text : List ℕ) (t : Tree) → reads text ≡ Ok t → IsQuery 64 text t }
    // A fault of syntax is the length of the longest prefix that some query has as its prefix too.
    ensures syntax { (text : List ℕ) (at : ℕ) → reads text ≡ Err (Syntax at) → IsLongestFront text at }
    // A text is too deep just where a bracket, a sign or a `NOT` stands in 64 others.
    ensures deep { (text : List ℕ) (at : ℕ) → (reads text ≡ Err (fault.TooDeep at)) ↔ IsTooDeepAt text at }
{}

/// What is printed of a query that was read is read as that query again, with whatever default fields, or nests too deep.
pub fn printing_laws()
    // Where brackets and NOTs of the printed text stand at most 64 one in another, that text is that query.
    ensures again { (schema : Schema) (defaults others text shown : List ℕ) (q : Sought) → IsPrintedOf schema defaults text q shown →
        nesting q ≤ 64 → query_of schema others shown ≡ Ok q }
    // Where they stand deeper, it is too deep.
    ensures deep { (schema : Schema) (defaults others text shown : List ℕ) (q : Sought) → IsPrintedOf schema defaults text q shown →
        64 < nesting q → (at : ℕ) × (query_of schema others shown ≡ Err (TooDeep at)) }
{}

/// A query that was read is of the schema that it was read for, whatever the default fields are.
pub fn schema_laws()
    // Its fields stand in the schema, its texts, members and edges are values of them, and And and Or have two members or more.
    // That holds of each schema, whose field for what is not mapped, if it has one, is a list of whole texts.
    ensures { (schema : Schema) (defaults text : List ℕ) (q : Sought) → IfSome schema.dynamic (IsDynamic schema.fields) →
        query_of schema defaults text ≡ Ok q → IsQueryOf schema q }
{}
