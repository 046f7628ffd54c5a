ghost use Rattle.std.specs.Prelude.{◌≡◌, IfOk};
ghost use Rattle.doc_value.specs.Documents.{IsOfKind};

use doc_value::{Field, Kind, Text, Tokenizer, Value, Values};
use fast_fields::*;
use std::alloc::{AllocError, Global};
use std::test::Fail;

fn field(alloc: Global, kind: Kind) -> Result<Field, AllocError>
    ensures { IfOk result (λ f. f.kind ≡ kind) }
{
    Ok(Field {
        path: Text::from_str(alloc, "a")?,
        kind,
        fast: true,
        indexed: false,
        tag: false,
        tokenizer: Tokenizer::Raw,
        positions: false,
    })
}

// The numbers -1 of document 0 and 1 of document 3, each above 2 ^ 63 by itself: two bits each, 0 and 2 above the least.
const SIGNED: [u8; 19] = [
    2, 0, 0, 0, 0, 3, 0, 0, 0, 0xff, 0xff, 0xff, 0xff, 0xff, 0xff, 0xff, 0x7f, 2, 0x08,
];

// False of document 0 and true of document 3, one bit each.
const TRUTHS: [u8; 19] = [2, 0, 0, 0, 0, 3, 0, 0, 0, 0, 0, 0, 0, 0, 0, 0, 0, 1, 0x02];

// The seconds 0 and 1 since 1970, of the documents 0 and 3.
const SECONDS: [u8; 19] = [
    2, 0, 0, 0, 0, 3, 0, 0, 0, 0, 0, 0, 0, 0, 0, 0, 0x80, 1, 0x02,
];

// The least and the greatest number of 64 bits, of the documents 0 and 3.
const WIDE: [u8; 34] = [
    2, 0, 0, 0, 0, 3, 0, 0, 0, 0, 0, 0, 0, 0, 0, 0, 0, 64, 0, 0, 0, 0, 0, 0, 0, 0, 0xff, 0xff,
    0xff, 0xff, 0xff, 0xff, 0xff, 0xff,
];

// The text `b` of document 0 and `a` of document 3.
const TWO_TEXTS: [u8; 24] = [
    2, 2, 1, 97, 1, 98, 0, 0, 0, 0, 3, 0, 0, 0, 0, 0, 0, 0, 0, 0, 0, 0, 1, 0x01,
];

// Whether a column of a value of document 0 and one of document 3 has these bytes.
fn has_bytes(
    alloc: Global,
    kind: Kind,
    first: Value,
    second: Value,
    bytes: &[u8],
) -> Result<bool, AllocError>
    requires first { IsOfKind kind first }
    requires second { IsOfKind kind second }
{
    let field = field(alloc, kind)?;
    let mut list = ColumnList::vacant(alloc);
    list.push(ColumnRow {
        document: 0,
        values: Values::one(alloc, first)?,
    })?;
    list.push(ColumnRow {
        document: 3,
        values: Values::one(alloc, second)?,
    })?;
    Ok(encode_column(alloc, &field, &list)?.as_slice() == bytes)
}

#[test]
fn each_kind_is_encoded(rt: HostRuntime) -> Result<(), Fail> {
    let alloc = rt.alloc();
    assert!(rt; has_bytes(alloc, Kind::I64, Value::I64(-1), Value::I64(1), &SIGNED)?);
    assert!(rt; has_bytes(alloc, Kind::U64, Value::U64(0), Value::U64(u64::MAX), &WIDE)?);
    assert!(rt;
        has_bytes(
            alloc,
            Kind::Bool,
            Value::Bool(false),
            Value::Bool(true),
            &TRUTHS
        )?
    );
    assert!(rt;
        has_bytes(
            alloc,
            Kind::Datetime,
            Value::Datetime(0),
            Value::Datetime(1),
            &SECONDS
        )?
    );
    let first = Value::Text(Text::from_str(alloc, "b")?);
    let second = Value::Text(Text::from_str(alloc, "a")?);
    assert!(rt; has_bytes(alloc, Kind::Text, first, second, &TWO_TEXTS)?);
    Ok(())
}

// The values 5, 7 of document 0 and 6 of document 2: two bits each, 0, 2 and 1 above the least.
const NUMBERS: [u8; 23] = [
    3, 0, 0, 0, 0, 0, 0, 0, 0, 2, 0, 0, 0, 5, 0, 0, 0, 0, 0, 0, 0, 2, 0x18,
];

#[test]
fn numbers_of_documents(rt: HostRuntime) -> Result<(), Fail> {
    let field = field(rt.alloc(), Kind::U64)?;
    let (column, _end) = Column::read(&field, &NUMBERS)?;
    let values = [column.value_at(0), column.value_at(1), column.value_at(2)];
    assert!(rt; values == [Some(5), None, Some(6)]);
    Ok(())
}

#[test]
fn numbers_are_appended(rt: HostRuntime) -> Result<(), Fail> {
    let alloc = rt.alloc();
    let entries = [
        Entry {
            document: 0,
            number: 5,
        },
        Entry {
            document: 0,
            number: 7,
        },
        Entry {
            document: 2,
            number: 6,
        },
    ];
    let mut area = Vec::new(alloc);
    put_column(&mut area, &field(alloc, Kind::U64)?, &[], &entries)?;
    assert!(rt; area.as_slice() == NUMBERS.as_slice());
    Ok(())
}
