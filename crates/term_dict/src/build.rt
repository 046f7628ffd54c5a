ghost use Rattle.std.specs.Prelude.{◌≡◌, ◌++◌, ◌∷◌, [], List, IfOk, OnOk};
ghost use Rattle.term_dict.specs.Terms.{IsRising, IsDict, Fits, term_bytes};
ghost use Rattle.term_dict.specs.Blocks.{with_block};
ghost use Rattle.term_dict.specs.Builders.{term_with};
ghost use Rattle.term_dict.specs.declared.term.Term.{Term};

use crate::{BlockIndex, BlockStart, TermInfo, TermList};
use byte_fields::{Bytes, put_bytes, put_varint};
use std::alloc::{AllocError, Global};

const BLOCK_TERMS: u64 = 64;

/// The area of blocks of these terms and its index.
pub fn build_dict(alloc: Global, terms: &TermList) -> Result<(Bytes, BlockIndex), AllocError>
    requires { IsRising terms.now }
    ensures { IfOk result (λ dict. IsDict dict.0 dict.1 terms.now) }
{
    let mut area = Vec::new(alloc);
    let mut index = BlockIndex::vacant(alloc);
    for (number, term) in terms.as_slice().iter().enumerate() {
        let key = term.key.as_slice();
        start_block(alloc, &mut index, number as u64, key, area.len() as u64)?;
        put_term(&mut area, key, &term.info)?;
    }
    Ok((Bytes::from_vec(area), index))
}

/// A dictionary that is built term by term, with the bytes of `build_dict`.
#[derive(Drop)]
pub struct DictBuilder {
    pub(crate) area: Vec<u8>,
    pub(crate) index: BlockIndex,
    // How many terms were taken.
    pub(crate) count: u64,
}

impl DictBuilder {
    ghost use Rattle.term_dict.specs.Builders.{HasTaken};

    /// With no terms.
    pub fn vacant(alloc: Global) -> DictBuilder
        ensures { HasTaken result [] }
    {
        DictBuilder {
            area: Vec::new(alloc),
            index: BlockIndex::vacant(alloc),
            count: 0,
        }
    }

    /// Appends a term, whose key is to be above those before. After an `Err` nothing is said of what is built.
    pub fn append(&mut self, alloc: Global, key: &[u8], info: &TermInfo) -> Result<(), AllocError>
        ensures { (terms : List Term) → HasTaken self.old terms → IsRising (terms ++ term_with key.now info.now ∷ [])
            → OnOk result (HasTaken self.new (terms ++ term_with key.now info.now ∷ [])) }
    {
        start_block(
            alloc,
            &mut self.index,
            self.count,
            key,
            self.area.len() as u64,
        )?;
        put_term(&mut self.area, key, info)?;
        self.count = self.count.saturating_add(1);
        Ok(())
    }

    /// The area of blocks and its index.
    pub fn finish(self) -> (Bytes, BlockIndex)
        ensures { (terms : List Term) → HasTaken self terms → IsDict result.0 result.1 terms }
    {
        let DictBuilder { area, index, .. } = self;
        (Bytes::from_vec(area), index)
    }
}

// Starts a block with the term of this number, where one begins.
fn start_block(
    alloc: Global,
    index: &mut BlockIndex,
    number: u64,
    key: &[u8],
    start: u64,
) -> Result<(), AllocError>
    ensures { OnOk result (index.new ≡ with_block index.old number key.now start) }
{
    if number % BLOCK_TERMS == 0 {
        let first = Bytes::from_slice(alloc, key)?;
        index.push(BlockStart { first, start })?;
    }
    Ok(())
}

fn put_term(out: &mut Vec<u8>, key: &[u8], info: &TermInfo) -> Result<(), AllocError>
    ensures ok { OnOk result (out.new.items ≡ out.old.items ++ term_bytes (term_with key.now info.now)) }
    ensures fits { OnOk result (Fits (term_with key.now info.now)) }
{
    put_bytes(out, key)?;
    let TermInfo {
        docs,
        postings,
        postings_len,
        positions,
        positions_len,
    } = *info;
    put_varint(out, u64::from(docs))?;
    put_varint(out, postings)?;
    put_varint(out, postings_len)?;
    put_varint(out, positions)?;
    put_varint(out, positions_len)?;
    Ok(())
}
