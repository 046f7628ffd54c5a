// What a clause asks of a path that no field has.

ghost use Rattle.std.specs.Prelude.{◌≡◌, IfOk, map};
ghost use Rattle.dynamic_paths.specs.LeafTexts as leaves;
ghost use Rattle.query_ast.specs.Sought.{view};
ghost use Rattle.query_reader.specs.Texts.{text_at};
ghost use Rattle.query_reader.specs.Tree.{view_ask};
ghost use Rattle.query_reader.specs.Resolve as spec;

use crate::refusal::QueryError;
use crate::special::Member;
use crate::texts::text_of;
use crate::tree::{Ask, Span};
use doc_value::Text;
use dynamic_paths::leaf_text;
use query_ast::{Item, Items, Query};
use std::alloc::{AllocError, Global};

/// The leaf text of a path and of the text that stands here.
fn leaf_at(alloc: Global, text: &[u8], path: &Text, span: Span) -> Result<Text, AllocError>
    ensures { IfOk result (λ t. t ≡ leaves.leaf_text path.now (text_at text.now span)) }
{
    let value = text_of(alloc, text, span)?;
    leaf_text(alloc, path.as_str(), value.as_str())
}

fn leaf_items(
    alloc: Global,
    text: &[u8],
    path: &Text,
    members: &[Member],
) -> Result<Items, AllocError>
    ensures { IfOk result (λ items. items ≡ map (spec.leaf_item text.now path.now) members.now) }
{
    let mut items = Items::vacant(alloc);
    for member in members {
        let leaf = leaf_at(alloc, text, path, member.place)?;
        items.push(Item {
            text: leaf,
            quoted: member.quoted,
        })?;
    }
    Ok(items)
}

/// What a clause asks of the field that holds the leaf texts of what is not mapped.
pub fn leaf_clause(
    alloc: Global,
    text: &[u8],
    path: &Text,
    ask: &Ask,
    number: usize,
) -> Result<Query, QueryError>
    ensures { spec.Gives view (spec.leaf_clause text.now path.now number (view_ask ask.now)) result }
{
    match ask {
        Ask::Any => Ok(Query::Prefix {
            field: number,
            text: leaf_text(alloc, path.as_str(), "")?,
        }),
        Ask::Word(span) => Ok(Query::Word {
            field: number,
            text: leaf_at(alloc, text, path, *span)?,
        }),
        Ask::Prefix(span) => Ok(Query::Prefix {
            field: number,
            text: leaf_at(alloc, text, path, *span)?,
        }),
        Ask::Quoted(span) => Ok(Query::Quoted {
            field: number,
            text: leaf_at(alloc, text, path, *span)?,
        }),
        Ask::Within(from, _) => Err(QueryError::BadValue { at: *from }),
        Ask::OneOf(_, members) => Ok(Query::AnyOf {
            field: number,
            items: leaf_items(alloc, text, path, members.as_slice())?,
        }),
    }
}
