ghost use Rattle.std.specs.Prelude.{◌≡◌, ◌<◌, [], IfOk};
ghost use Rattle.std.specs.List.{AllByRecursion};
ghost use Rattle.term_postings.specs.Postings.{AreRising, documents};

use std::alloc::{AllocError, Global};
use std::test::Fail;
use term_postings::*;

// The documents 0 to count - 1, without positions.
fn listed(alloc: Global, count: u32) -> Result<PostingList, AllocError>
    ensures documents { IfOk result (λ l. AreRising (documents l)) }
    ensures positions { IfOk result (λ l. AllByRecursion (λ p. p.positions ≡ []) l) }
{
    let mut list = PostingList::vacant(alloc);
    for document in 0..count {
        list.push(Posting {
            document,
            positions: Positions::vacant(alloc),
        })?;
    }
    Ok(list)
}

#[test]
fn two_blocks_with_a_head(rt: HostRuntime) -> Result<(), Fail> {
    let alloc = rt.alloc();
    let list = listed(alloc, 129)?;
    let (bytes, _positions) = encode_postings(alloc, &list, false)?;
    let whole = bytes.as_slice();
    assert!(rt; whole.len() == 4 + 128 + 1);
    assert!(rt; whole.starts_with(&[0x7f, 0x80, 1, 0, 0, 1, 1]) && whole.ends_with(&[1, 1]));
    Ok(())
}

// The documents 0 and 1, each with the positions 1 and 300.
const ROWS: [Row; 2] = [
    Row {
        document: 0,
        positions: &[1, 300],
    },
    Row {
        document: 1,
        positions: &[1, 300],
    },
];

#[test]
fn rows_are_appended(rt: HostRuntime) -> Result<(), Fail> {
    let alloc = rt.alloc();
    let mut postings = vec![in alloc; 9]?;
    let mut places = Vec::new(alloc);
    append_postings(alloc, &ROWS, true, &mut postings, &mut places)?;
    assert!(rt; postings.as_slice() == [9, 0, 2, 1, 2].as_slice());
    assert!(rt; places.as_slice() == [1, 0xab, 2, 1, 0xab, 2].as_slice());
    Ok(())
}
