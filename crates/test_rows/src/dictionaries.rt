use byte_fields::Bytes;
use std::test::Fail;
use term_dict::*;

const FOX: TermInfo = TermInfo {
    docs: 300,
    postings: 0,
    postings_len: 5,
    positions: 1000,
    positions_len: 2,
};

// The key of five bytes, and then the numbers of its term.
const AREA: [u8; 13] = [5, 0, 1, 102, 111, 120, 0xac, 2, 0, 5, 0xe8, 7, 2];

#[test]
fn one_term_in_bytes(rt: HostRuntime) -> Result<(), Fail> {
    let alloc = rt.alloc();
    let mut list = TermList::vacant(alloc);
    list.push(Term {
        key: Bytes::from_slice(alloc, b"\x00\x01fox")?,
        info: FOX,
    })?;
    if !list.is_rising() {
        return Err(Fail::from("one term does not rise"));
    }
    let (area, index) = build_dict(alloc, &list)?;
    assert!(rt; area.as_slice() == AREA.as_slice());
    let dict = Dict::read(area.as_slice(), &index)?;
    assert!(rt; dict.find(b"\x00\x01fox")? == Some(FOX));
    Ok(())
}

#[test]
fn one_term_appended(rt: HostRuntime) -> Result<(), Fail> {
    let alloc = rt.alloc();
    let mut builder = DictBuilder::vacant(alloc);
    builder.append(alloc, b"\x00\x01fox", &FOX)?;
    let (area, index) = builder.finish();
    assert!(rt; area.as_slice() == AREA.as_slice() && index.len() == 1);
    Ok(())
}
