ghost use Rattle.std.specs.Prelude.{◌≡◌, ◌++◌, List, ℕ, length, OnOk, OnErr};
ghost use Rattle.byte_fields.specs.Spelling.{varint, zigzag, signed, byte_string, flag, four, eight};

use std::alloc::AllocError;

/// Appends the one spelling of a number. An `Err` changes nothing.
pub fn put_varint(out: &mut Vec<u8>, value: u64) -> Result<(), AllocError>
    ensures ok { OnOk result (out.new.items ≡ out.old.items ++ varint value) }
    ensures err { OnErr result (out.new.items ≡ out.old.items) }
{
    let start = out.len();
    if let Err(refused) = append_varint(out, value) {
        out.truncate(start);
        return Err(refused);
    }
    Ok(())
}

fn append_varint(out: &mut Vec<u8>, value: u64) -> Result<(), AllocError>
    ensures ok { OnOk result (out.new.items ≡ out.old.items ++ varint value) }
    ensures front { (more : List ℕ) × (out.new.items ≡ out.old.items ++ more) }
{
    let mut rest = value;
    while rest >= 128 {
        out.push((rest % 128) as u8 + 128)?;
        rest /= 128;
    }
    out.push(rest as u8)?;
    Ok(())
}

// 0, -1, 1, -2 become 0, 1, 2, 3.
fn zigzag(value: i64) -> u64
    ensures { result ≡ zigzag value }
{
    if value >= 0 {
        2 * value as u64
    } else {
        2 * (-(value + 1)) as u64 + 1
    }
}

/// Appends the one spelling of a signed number. An `Err` changes nothing.
pub fn put_signed(out: &mut Vec<u8>, value: i64) -> Result<(), AllocError>
    ensures ok { OnOk result (out.new.items ≡ out.old.items ++ signed value) }
    ensures err { OnErr result (out.new.items ≡ out.old.items) }
{
    put_varint(out, zigzag(value))
}

/// Appends the length of the piece and its bytes. An `Err` changes nothing.
pub fn put_bytes(out: &mut Vec<u8>, piece: &[u8]) -> Result<(), AllocError>
    ensures ok { OnOk result (out.new.items ≡ out.old.items ++ byte_string piece.now) }
    ensures err { OnErr result (out.new.items ≡ out.old.items) }
{
    let start = out.len();
    put_varint(out, piece.len() as u64)?;
    if let Err(refused) = out.extend_from_slice(piece) {
        out.truncate(start);
        return Err(refused);
    }
    Ok(())
}

/// Appends one byte, 0 or 1. An `Err` changes nothing.
pub fn put_flag(out: &mut Vec<u8>, value: bool) -> Result<(), AllocError>
    ensures ok { OnOk result (out.new.items ≡ out.old.items ++ flag value) }
    ensures err { OnErr result (out.new.items ≡ out.old.items) }
{
    out.push(u8::from(value))?;
    Ok(())
}

/// Appends four bytes, the low one first. An `Err` changes nothing.
pub fn put_four(out: &mut Vec<u8>, value: u32) -> Result<(), AllocError>
    ensures ok { OnOk result (out.new.items ≡ out.old.items ++ four value) }
    ensures err { OnErr result (out.new.items ≡ out.old.items) }
{
    out.extend_from_slice(&value.to_le_bytes())
}

/// Appends eight bytes, the low one first. An `Err` changes nothing.
pub fn put_eight(out: &mut Vec<u8>, value: u64) -> Result<(), AllocError>
    ensures ok { OnOk result (out.new.items ≡ out.old.items ++ eight value) }
    ensures err { OnErr result (out.new.items ≡ out.old.items) }
{
    out.extend_from_slice(&value.to_le_bytes())
}
