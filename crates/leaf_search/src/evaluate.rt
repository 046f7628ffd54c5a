// A query as the set of the documents that match it.

ghost use Rattle.std.specs.Prelude.{◌≡◌, ◌≤◌, length, List, IfOk, MatchResult};
ghost use Rattle.query_ast.specs.Meaning.{meaning, all_hold, some_hold};
ghost use Rattle.query_ast.specs.Sought.{view, view_all};
ghost use Rattle.query_ast.specs.Askable.{CanAsk, CanAskEach};
ghost use Rattle.split_bundle.specs.declared.placed.Placed.{Placed};
ghost use Rattle.split_bundle.specs.Files.{Parts};
ghost use Rattle.doc_sets.specs.Asking.{LacksLookups};
ghost use Rattle.doc_sets.specs.Needed.{IsSearched};
ghost use Rattle.doc_sets.specs.Reads.{ReadsAll};
ghost use Rattle.doc_sets.specs.Sets.{IsSetOf};
ghost use Rattle.leaf_search.specs.Asks.{lookups_of, lookups_of_each};

use crate::fields::{with_prefix, with_quoted, with_some, with_value, with_word, within_range};
use doc_sets::{
    DocBits, LeafError, add_other, all_documents, keep_both, no_documents, take_others,
};
use doc_value::Schema;
use query_ast::Query;
use split_bundle::PartView;
use std::alloc::Global;
use term_dict::BlockIndex;

// The documents that match a query.
#[cycle(evaluate)]
pub(crate) fn matching(
    alloc: Global,
    index: &BlockIndex,
    part: &PartView,
    schema: &Schema,
    query: &Query,
) -> Result<DocBits, LeafError>
    requires index { index.now ≡ part.now.footer.index }
    requires few { length schema.now.fields ≤ 256 }
    ensures size { IfOk result (λ b. b.size ≡ part.now.footer.layout.docs) }
    ensures only { (documents : List Placed) (p : Parts) → IsSearched part.now schema.now documents p → CanAsk schema.now (view query.now)
        → MatchResult result (IsSetOf (λ d. meaning schema.now d (view query.now)) documents) (LacksLookups part.now schema.now documents p (lookups_of part.now.footer schema.now (view query.now))) }
    ensures reads { ReadsAll part.now (lookups_of part.now.footer schema.now (view query.now)) result }
{
    match query {
        Query::All => Ok(all_documents(alloc, part)?),
        Query::Nothing => Ok(no_documents(alloc, part)?),
        Query::Word { field, text } => {
            with_word(alloc, index, part, schema, *field, text.as_str())
        }
        Query::Quoted { field, text } => {
            with_quoted(alloc, index, part, schema, *field, text.as_str())
        }
        Query::Prefix { field, text } => {
            with_prefix(alloc, index, part, schema, *field, text.as_str())
        }
        Query::Exists { field } => with_value(alloc, index, part, schema, *field),
        Query::Range { field, low, high } => {
            within_range(alloc, index, part, schema, *field, low, high)
        }
        Query::AnyOf { field, items } => {
            with_some(alloc, index, part, schema, *field, items.as_slice())
        }
        Query::Not(inner) => {
            let mut bits = matching(alloc, index, part, schema, inner)?;
            take_others(&mut bits);
            Ok(bits)
        }
        Query::And(parts) => all_matching(alloc, index, part, schema, parts.as_slice()),
        Query::Or(parts) => some_matching(alloc, index, part, schema, parts.as_slice()),
    }
}

// The documents that match each of some queries.
#[cycle(evaluate)]
fn all_matching(
    alloc: Global,
    index: &BlockIndex,
    part: &PartView,
    schema: &Schema,
    parts: &[Query],
) -> Result<DocBits, LeafError>
    requires index { index.now ≡ part.now.footer.index }
    requires few { length schema.now.fields ≤ 256 }
    ensures size { IfOk result (λ b. b.size ≡ part.now.footer.layout.docs) }
    ensures only { (documents : List Placed) (p : Parts) → IsSearched part.now schema.now documents p → CanAskEach schema.now (view_all parts.now)
        → MatchResult result (IsSetOf (λ d. all_hold schema.now d (view_all parts.now)) documents) (LacksLookups part.now schema.now documents p (lookups_of_each part.now.footer schema.now (view_all parts.now))) }
    ensures reads { ReadsAll part.now (lookups_of_each part.now.footer schema.now (view_all parts.now)) result }
{
    let mut bits = all_documents(alloc, part)?;
    for each in parts {
        let other = matching(alloc, index, part, schema, each)?;
        keep_both(&mut bits, &other);
    }
    Ok(bits)
}

// The documents that match some of the queries.
#[cycle(evaluate)]
fn some_matching(
    alloc: Global,
    index: &BlockIndex,
    part: &PartView,
    schema: &Schema,
    parts: &[Query],
) -> Result<DocBits, LeafError>
    requires index { index.now ≡ part.now.footer.index }
    requires few { length schema.now.fields ≤ 256 }
    ensures size { IfOk result (λ b. b.size ≡ part.now.footer.layout.docs) }
    ensures only { (documents : List Placed) (p : Parts) → IsSearched part.now schema.now documents p → CanAskEach schema.now (view_all parts.now)
        → MatchResult result (IsSetOf (λ d. some_hold schema.now d (view_all parts.now)) documents) (LacksLookups part.now schema.now documents p (lookups_of_each part.now.footer schema.now (view_all parts.now))) }
    ensures reads { ReadsAll part.now (lookups_of_each part.now.footer schema.now (view_all parts.now)) result }
{
    let mut bits = no_documents(alloc, part)?;
    for each in parts {
        let other = matching(alloc, index, part, schema, each)?;
        add_other(&mut bits, &other);
    }
    Ok(bits)
}
