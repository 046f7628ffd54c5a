//! What a client's text asks.

ghost use Rattle.std.specs.Prelude.{◌≡◌, ◌^◌, ◌<◌, true, IfOk};
ghost use Rattle.std.specs.Option.{ForSome};
ghost use Rattle.doc_value.specs.Documents.{IsSchema};
ghost use Rattle.doc_value.specs.declared.schema.Schema.{Schema};
ghost use Rattle.meta_journal.specs.Spelling.{AreAll, IsText};
ghost use Rattle.search_api.specs.Answerable.{CanAnswer, IsAnswerable};
ghost use Rattle.search_api.specs.Resolved.{resolved, search_view, view as asked_view};
ghost use Rattle.search_api.specs.Unanswered.{Shows};
ghost use Rattle.root_search.specs.Intervals.{have_steps};
ghost use Rattle.root_search.specs.ReadSearches.{IsRead, IsReadDelete, Reads};
ghost use Rattle.root_search.specs.Requests.{asked_of};

use crate::leaf_asks::leaf_ask;
use crate::reads::{ReadRequest, ReadSearch};
use byte_fields::{Text as KeptText, Texts};
use doc_value::Text;
use index_config::IndexConfig;
use index_world::DeleteAsk;
use meta_store::Choice;
use query_ast::copy_query;
use search_api::{Deletion, Request, Resolved, SearchAsk, Unanswered, resolve};
use std::alloc::{AllocError, Global};
use std::mem;

// What a request asks of the schema of an index, or its first refusal.
fn resolve_in(
    alloc: Global,
    config: &IndexConfig,
    request: &Request,
) -> Result<Resolved, Unanswered>
    requires { ∥ IsSchema config.now.schema ∥₁ }
    ensures resolved { Shows asked_view (resolved config.now.schema config.now.default_fields request.now) result }
    ensures answerable { IfOk result (λ asked. CanAnswer config.now.schema (asked_view asked)) }
{
    resolve(
        alloc,
        &config.schema,
        config.default_fields.as_slice(),
        request,
    )
}

// The search or the delete that a text asks of an index, or its first refusal.
fn asked_in(alloc: Global, config: &IndexConfig, text: &[u8]) -> Result<Resolved, Unanswered>
    requires { ∥ IsSchema config.now.schema ∥₁ }
    ensures asked { Shows asked_view (asked_of config.now text.now) result }
    ensures answerable { IfOk result (λ asked. CanAnswer config.now.schema (asked_view asked)) }
{
    let request = search_api::read_request(alloc, text)?;
    let resolved = resolve_in(alloc, config, &request);
    mem::drop(request);
    resolved
}

// The rows that are chosen for a search, and what it asks of each split.
fn read_search(alloc: Global, search: SearchAsk) -> Result<ReadSearch, AllocError>
    requires narrow { ForSome search.sort (λ sort. sort.field < 2 ^ 32) }
    requires steps { have_steps search.aggs ≡ true }
    ensures { (s : Schema) → IsAnswerable s (search_view search) → IfOk result (λ read. IsRead s (search_view search) read) }
{
    match copy_query(alloc, &search.query) {
        Ok(query) => {
            let times = search.times;
            let choice = Choice::Search { query, times };
            let ask = leaf_ask(search);
            Ok(ReadSearch { choice, ask })
        }
        Err(refused) => {
            mem::drop(search);
            Err(refused)
        }
    }
}

// A text as the journal keeps it.
fn kept_text(alloc: Global, text: &Text) -> Result<KeptText, AllocError>
    ensures same { IfOk result (λ kept. kept ≡ text.now) }
    ensures can { IfOk result (λ kept. IsText kept) }
{
    let bytes = text.as_str().as_bytes();
    let kept = KeptText::from_slice(alloc, bytes)?;
    let _count = kept.len();
    Ok(kept)
}

fn kept_texts(alloc: Global, texts: &[Text]) -> Result<Texts, AllocError>
    ensures same { IfOk result (λ kept. kept ≡ texts.now) }
    ensures can { IfOk result (λ kept. AreAll IsText kept) }
{
    let mut kept = Texts::vacant(alloc);
    for text in texts {
        kept.push(kept_text(alloc, text)?)?;
    }
    let _count = kept.len();
    Ok(kept)
}

// The task of a delete, as the index is asked for it.
fn read_delete(alloc: Global, deletion: &Deletion) -> Result<DeleteAsk, AllocError>
    ensures { IfOk result (λ ask. IsReadDelete deletion.now ask) }
{
    let text = kept_text(alloc, &deletion.text)?;
    let fields = kept_texts(alloc, deletion.fields.as_slice())?;
    let times = deletion.times;
    Ok(DeleteAsk {
        text,
        fields,
        times,
    })
}

/// The search or the delete that a text asks of an index, or its first refusal.
pub(crate) fn read_request(
    alloc: Global,
    config: &IndexConfig,
    text: &[u8],
) -> Result<ReadRequest, Unanswered>
    requires { ∥ IsSchema config.now.schema ∥₁ }
    ensures { Reads config.now.schema (asked_of config.now text.now) result }
{
    let asked = asked_in(alloc, config, text)?;
    match asked {
        Resolved::Search(search) => {
            let read = read_search(alloc, search)?;
            Ok(ReadRequest::Search(read))
        }
        Resolved::Delete(deletion) => {
            let ask = read_delete(alloc, &deletion)?;
            Ok(ReadRequest::Delete(ask))
        }
    }
}
