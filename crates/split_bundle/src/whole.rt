//! A whole split file is read.

ghost use Rattle.std.specs.Prelude.{◌≡◌, List, IfOk, IsOkAnd};
ghost use Rattle.doc_value.specs.declared.schema.Schema.{Schema};
ghost use Rattle.split_bundle.specs.declared.placed.Placed.{Placed};
ghost use Rattle.split_bundle.specs.Files.{Parts, file_bytes};
ghost use Rattle.split_bundle.specs.Splits.{IsSplitOf};
ghost use Rattle.split_bundle.specs.Reading.{Gives};
ghost use Rattle.split_bundle.specs.SplitViews.{IsViewOf, split_of, laid};

use crate::footer::{LaidFooter, check_head, lay_out};
use crate::{SplitError, SplitView};

/// The split file that these bytes are.
pub fn read_split(bytes: &[u8]) -> Result<SplitView<'_>, SplitError>
    // Of a split of documents: its view.
    ensures only { (s : Schema) (documents : List Placed) (p : Parts) → IsSplitOf s documents p → bytes.now ≡ file_bytes p → IsOkAnd result (λ v. IsViewOf v s documents p) }
    // Over any bytes: the footer and what it says, or the first fault that is met.
    ensures exact { Gives laid result (split_of bytes.now) }
    ensures whole { IfOk result (λ v. v.bytes.now ≡ bytes.now) }
{
    view_of(bytes)
}

#[tactic(auto, unfolding(crate::specs::SplitViews::split_of))]
fn view_of(bytes: &[u8]) -> Result<SplitView<'_>, SplitError>
    ensures exact { Gives laid result (split_of bytes.now) }
    ensures whole { IfOk result (λ v. v.bytes.now ≡ bytes.now) }
{
    check_head(bytes)?;
    let LaidFooter {
        bytes: footer,
        layout,
    } = lay_out(bytes, bytes.len() as u64)?;
    Ok(SplitView {
        bytes,
        footer,
        layout,
    })
}
