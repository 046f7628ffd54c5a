use byte_fields::*;
use std::test::Fail;

// 300, 1000, -1, 25, the bytes `hi`, a flag, four bytes and eight.
const SPELLED: [u8; 22] = [
    0xac, 0x02, 0xe8, 0x07, 1, 50, 2, 104, 105, 1, 2, 1, 0, 0, 3, 0, 0, 0, 0, 0, 0, 0,
];

#[test]
fn fields_have_one_spelling(rt: HostRuntime) -> Result<(), Fail> {
    let mut out = Vec::new(rt.alloc());
    put_varint(&mut out, 300)?;
    put_varint(&mut out, 1000)?;
    put_signed(&mut out, -1)?;
    put_signed(&mut out, 25)?;
    put_bytes(&mut out, b"hi")?;
    put_flag(&mut out, true)?;
    put_four(&mut out, 258)?;
    put_eight(&mut out, 3)?;
    assert!(rt; out.as_slice() == SPELLED.as_slice());
    Ok(())
}

#[test]
fn faults_have_their_places(rt: HostRuntime) {
    assert!(rt; take_varint(&[0x80, 0], 0) == Err(FieldError::NotMinimal { at: 0 }));
    assert!(rt; take_varint(&[0x80], 0) == Err(FieldError::Short { at: 1 }));
}

// Reads twice through the trait's bound.
fn read_twice<S: Source>(source: &mut S) -> [Result<usize, Failed>; 2] {
    let mut buffer = [0u8; 2];
    let first = source.read(&mut buffer);
    [first, source.read(&mut buffer)]
}

#[test]
fn a_read_fails(rt: HostRuntime) -> Result<(), Fail> {
    let mut source = MemorySource::from_bytes(Bytes::from_slice(rt.alloc(), &[1, 2, 3])?);
    source.fail_call(2)?;
    assert!(rt; read_twice(&mut source) == [Ok(2), Err(Failed)]);
    Ok(())
}

fn write_twice<S: Sink>(sink: &mut S, piece: &[u8]) -> [Result<usize, Failed>; 2] {
    let first = sink.write(piece);
    [first, sink.write(piece)]
}

#[test]
fn a_write_fails(rt: HostRuntime) -> Result<(), Fail> {
    let mut sink = MemorySink::with_room(rt.alloc(), 3)?;
    sink.fail_call(2)?;
    assert!(rt; write_twice(&mut sink, b"ab") == [Ok(2), Err(Failed)]);
    assert!(rt; sink.content() == b"ab".as_slice());
    Ok(())
}

#[test]
fn lists_grow(rt: HostRuntime) -> Result<(), Fail> {
    let alloc = rt.alloc();
    let mut bytes = Bytes::from_slice(alloc, b"ab")?;
    bytes.push(b'c')?;
    bytes.append(b"de")?;
    assert!(rt; bytes.as_slice() == b"abcde".as_slice());
    let mut texts = Texts::vacant(alloc);
    texts.push(Text::from_slice(alloc, b"z")?)?;
    assert!(rt; texts.len() == 1);
    Ok(())
}
