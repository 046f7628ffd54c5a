// How many documents match a query.

ghost use Rattle.std.specs.Prelude.{◌≡◌, ◌≤◌, length, filter, List, MatchResult};
ghost use Rattle.query_ast.specs.Meaning.{meaning};
ghost use Rattle.query_ast.specs.Sought.{view};
ghost use Rattle.split_bundle.specs.declared.placed.Placed.{Placed};
ghost use Rattle.split_bundle.specs.Files.{Parts};
ghost use Rattle.doc_sets.specs.Asking.{LacksLookups};
ghost use Rattle.doc_sets.specs.Needed.{IsSearched};
ghost use Rattle.doc_sets.specs.Reads.{ReadsAll};
ghost use Rattle.query_ast.specs.Askable.{CanAsk};
ghost use Rattle.leaf_search.specs.Asks.{lookups_of};
ghost use Rattle.leaf_search.specs.Counts.{count_lookups, plain_lookups};

use crate::evaluate::matching;
use crate::token_counts::{key_count, one_key};
use doc_sets::LeafError;
use doc_value::Schema;
use query_ast::Query;
use split_bundle::PartView;
use std::alloc::Global;

// How many documents match a query, by their set.
fn set_count(
    alloc: Global,
    part: &PartView,
    schema: &Schema,
    query: &Query,
) -> Result<u32, LeafError>
    requires { length schema.now.fields ≤ 256 }
    ensures only { (documents : List Placed) (p : Parts) → IsSearched part.now schema.now documents p → CanAsk schema.now (view query.now)
        → MatchResult result (λ n. n ≡ length (filter (λ d. meaning schema.now d.doc (view query.now)) documents)) (LacksLookups part.now schema.now documents p (lookups_of part.now.footer schema.now (view query.now))) }
    ensures reads { ReadsAll part.now (lookups_of part.now.footer schema.now (view query.now)) result }
{
    let bits = matching(alloc, part.footer().index(), part, schema, query)?;
    Ok(bits.count())
}

// The same, of one token by the dictionary alone.
fn plain_count(
    alloc: Global,
    part: &PartView,
    schema: &Schema,
    query: &Query,
) -> Result<u32, LeafError>
    requires { length schema.now.fields ≤ 256 }
    ensures only { (documents : List Placed) (p : Parts) → IsSearched part.now schema.now documents p → CanAsk schema.now (view query.now)
        → MatchResult result (λ n. n ≡ length (filter (λ d. meaning schema.now d.doc (view query.now)) documents)) (LacksLookups part.now schema.now documents p (lookups_of part.now.footer schema.now (view query.now))) }
    ensures reads { ReadsAll part.now (plain_lookups part.now.footer schema.now (view query.now)) result }
{
    match one_key(alloc, schema, query)? {
        Some(key) => key_count(part, key.as_slice()),
        None => set_count(alloc, part, schema, query),
    }
}

// How many documents match a query. Those of a NOT are all but the others.
pub(crate) fn matching_count(
    alloc: Global,
    part: &PartView,
    schema: &Schema,
    query: &Query,
) -> Result<u32, LeafError>
    requires { length schema.now.fields ≤ 256 }
    ensures only { (documents : List Placed) (p : Parts) → IsSearched part.now schema.now documents p → CanAsk schema.now (view query.now)
        → MatchResult result (λ n. n ≡ length (filter (λ d. meaning schema.now d.doc (view query.now)) documents)) (LacksLookups part.now schema.now documents p (lookups_of part.now.footer schema.now (view query.now))) }
    ensures reads { ReadsAll part.now (count_lookups part.now.footer schema.now (view query.now)) result }
{
    match query {
        Query::Not(inner) => {
            let others = plain_count(alloc, part, schema, inner)?;
            Ok(part.doc_count().saturating_sub(others))
        }
        _ => plain_count(alloc, part, schema, query),
    }
}
