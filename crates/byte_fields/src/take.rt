ghost use Rattle.std.specs.Prelude.{◌≡◌, ◌≤◌, ◌<◌, ◌+◌, ◌^◌, ◌++◌, ◌-◌, List, ℕ, ℤ, Bool, length, take, drop, IfOk, IfErr, Ok, Err};
ghost use Rattle.std.specs.Str.{IsUtf8};
ghost use Rattle.byte_fields.specs.Spelling.{varint, zigzag, signed, byte_string, flag, four, eight, SpelledAt};
ghost use Rattle.byte_fields.specs.Long.{EndsAt};
ghost use Rattle.byte_fields.specs.Reading.{varint_part, varint_at, unzigzag, signed_at, bytes_at, text_at, flag_at, four_at, eight_at, Gives};

use crate::FieldError;

// 64 bits less the seven of the first byte
const HIGH_END: u64 = 1 << 57;

/// The number at a place, and the place behind it.
#[inline(always)]
pub fn take_varint(bytes: &[u8], at: usize) -> Result<(u64, usize), FieldError>
    requires { at ≤ length bytes.now }
    // What is read is spelled there.
    ensures found { IfOk result (λ x. SpelledAt bytes.now at (varint x.0) x.1) }
    // What is spelled there is read.
    ensures only { (n : ℕ) (rest : List ℕ) → n < 2 ^ 64 → drop at bytes.now ≡ varint n ++ rest → result ≡ Ok (n, at + length (varint n)) }
    // Which fault it is.
    ensures exact { result ≡ varint_at bytes.now at }
{
    varint_whole(bytes, at)
}

// A number of one byte, which most are, is read where the call stands, before anything is called.
#[inline(always)]
#[tactic(auto, using(crate::proofs::Taken::parts), unfolding(crate::specs::Reading::varint_at))]
fn varint_whole(bytes: &[u8], at: usize) -> Result<(u64, usize), FieldError>
    requires { at ≤ length bytes.now }
    ensures { result ≡ varint_at bytes.now at }
{
    if at < bytes.len() {
        let byte = bytes[at];
        if byte < 128 {
            return Ok((u64::from(byte), at + 1));
        }
    }
    varint_more(bytes, at)
}

// The number at a place, which mostly has two bytes. It stays a call, so that what reads one byte is short enough to stand
// in line.
#[inline(never)]
#[tactic(auto, using(crate::proofs::Taken::two_read))]
fn varint_more(bytes: &[u8], start: usize) -> Result<(u64, usize), FieldError>
    requires { start ≤ length bytes.now }
    ensures { result ≡ varint_part 10 bytes.now start start }
{
    if bytes.len() - start >= 2 {
        let low = bytes[start];
        let high = bytes[start + 1];
        if low >= 128 && high < 128 && high > 0 {
            return Ok((u64::from(low - 128) + 128 * u64::from(high), start + 2));
        }
    }
    varint_long(bytes, start)
}

// Where the number's last byte stands.
fn last_of(bytes: &[u8], start: usize) -> Result<usize, FieldError>
    requires { start ≤ length bytes.now }
    ensures ok { IfOk result (λ last. EndsAt bytes.now start last) }
    ensures err { IfErr result (λ fault. varint_part 10 bytes.now start start ≡ Err fault) }
{
    let mut last = start;
    while last < bytes.len() {
        if bytes[last] < 128 {
            return Ok(last);
        }
        if last - start == 9 {
            return Err(FieldError::TooLarge { at: start });
        }
        last += 1;
    }
    Err(FieldError::Short { at: last })
}

// The number at a place, from its last byte to its first.
fn varint_long(bytes: &[u8], start: usize) -> Result<(u64, usize), FieldError>
    requires { start ≤ length bytes.now }
    ensures { result ≡ varint_part 10 bytes.now start start }
{
    let last = last_of(bytes, start)?;
    let mut value = u64::from(bytes[last]);
    if value == 0 && start < last {
        return Err(FieldError::NotMinimal { at: start });
    }
    let mut at = last;
    while start < at {
        if value >= HIGH_END {
            return Err(FieldError::TooLarge { at: start });
        }
        at -= 1;
        value = u64::from(bytes[at] - 128) + 128 * value;
    }
    Ok((value, last + 1))
}

/// A length at a place, and that many bytes, and the place behind them.
pub fn take_bytes(bytes: &[u8], at: usize) -> Result<(&[u8], usize), FieldError>
    requires { at ≤ length bytes.now }
    // What is read is spelled there.
    ensures found { IfOk result (λ x. SpelledAt bytes.now at (byte_string x.0.now) x.1) }
    // What is spelled there is read.
    ensures only { (text rest : List ℕ) → drop at bytes.now ≡ byte_string text ++ rest
        → Gives {Y = List ℕ × ℕ} (λ x. (x.0.now, x.1)) result (Ok (text, at + length (byte_string text))) }
    // Which fault it is.
    ensures exact { Gives {Y = List ℕ × ℕ} (λ x. (x.0.now, x.1)) result (bytes_at bytes.now at) }
{
    bytes_whole(bytes, at)
}

#[tactic(auto, unfolding(crate::specs::Reading::bytes_at))]
fn bytes_whole(bytes: &[u8], at: usize) -> Result<(&[u8], usize), FieldError>
    requires { at ≤ length bytes.now }
    ensures { Gives {Y = List ℕ × ℕ} (λ x. (x.0.now, x.1)) result (bytes_at bytes.now at) }
{
    let (len, from) = take_varint(bytes, at)?;
    let len = len as usize;
    if bytes.len() - from < len {
        return Err(FieldError::Short { at: bytes.len() });
    }
    Ok((&bytes[from..from + len], from + len))
}

/// A length at a place, and that many bytes that are UTF-8, and the place behind them.
pub fn take_text(bytes: &[u8], at: usize) -> Result<(&str, usize), FieldError>
    requires { at ≤ length bytes.now }
    // What is read is spelled there.
    ensures found { IfOk result (λ x. SpelledAt bytes.now at (byte_string x.0.now) x.1) }
    // What is spelled there is read.
    ensures only { (text rest : List ℕ) → IsUtf8 text → drop at bytes.now ≡ byte_string text ++ rest
        → Gives {Y = List ℕ × ℕ} (λ x. (x.0.now, x.1)) result (Ok (text, at + length (byte_string text))) }
    // Which fault it is.
    ensures exact { Gives {Y = List ℕ × ℕ} (λ x. (x.0.now, x.1)) result (text_at bytes.now at) }
{
    text_whole(bytes, at)
}

#[tactic(auto, unfolding(crate::specs::Reading::text_at))]
fn text_whole(bytes: &[u8], at: usize) -> Result<(&str, usize), FieldError>
    requires { at ≤ length bytes.now }
    ensures { Gives {Y = List ℕ × ℕ} (λ x. (x.0.now, x.1)) result (text_at bytes.now at) }
{
    let (piece, next) = take_bytes(bytes, at)?;
    match str::from_utf8(piece) {
        Ok(text) => Ok((text, next)),
        Err(_) => Err(FieldError::NotText { at }),
    }
}

// 0, 1, 2, 3 become 0, -1, 1, -2.
fn unzigzag(number: u64) -> i64
    ensures { result ≡ unzigzag number }
{
    let half = (number / 2) as i64;
    if number % 2 == 0 { half } else { -half - 1 }
}

/// The signed number at a place, and the place behind it.
#[inline]
pub fn take_signed(bytes: &[u8], at: usize) -> Result<(i64, usize), FieldError>
    requires { at ≤ length bytes.now }
    // What is read is spelled there.
    ensures found { IfOk result (λ x. SpelledAt bytes.now at (signed x.0) x.1) }
    // What is spelled there is read.
    ensures only { (z : ℤ) (rest : List ℕ) → zigzag z < 2 ^ 64 → drop at bytes.now ≡ signed z ++ rest → result ≡ Ok (z, at + length (signed z)) }
    // Which fault it is.
    ensures exact { result ≡ signed_at bytes.now at }
{
    signed_whole(bytes, at)
}

#[tactic(auto, unfolding(crate::specs::Reading::signed_at))]
fn signed_whole(bytes: &[u8], at: usize) -> Result<(i64, usize), FieldError>
    requires { at ≤ length bytes.now }
    ensures { result ≡ signed_at bytes.now at }
{
    let (number, next) = take_varint(bytes, at)?;
    Ok((unzigzag(number), next))
}

/// The flag at a place, and the place behind it.
pub fn take_flag(bytes: &[u8], at: usize) -> Result<(bool, usize), FieldError>
    requires { at ≤ length bytes.now }
    // What is read is spelled there.
    ensures found { IfOk result (λ x. SpelledAt bytes.now at (flag x.0) x.1) }
    // What is spelled there is read.
    ensures only { (b : Bool) (rest : List ℕ) → drop at bytes.now ≡ flag b ++ rest → result ≡ Ok (b, at + 1) }
    // Which fault it is.
    ensures exact { result ≡ flag_at bytes.now at }
{
    flag_whole(bytes, at)
}

#[tactic(auto, unfolding(crate::specs::Reading::flag_at))]
fn flag_whole(bytes: &[u8], at: usize) -> Result<(bool, usize), FieldError>
    requires { at ≤ length bytes.now }
    ensures { result ≡ flag_at bytes.now at }
{
    if at == bytes.len() {
        return Err(FieldError::Short { at });
    }
    match bytes[at] {
        0 => Ok((false, at + 1)),
        1 => Ok((true, at + 1)),
        _ => Err(FieldError::BadFlag { at }),
    }
}

/// Four bytes at a place, the low one first, and the place behind them.
pub fn take_four(bytes: &[u8], at: usize) -> Result<(u32, usize), FieldError>
    requires { at ≤ length bytes.now }
    // What is read is spelled there.
    ensures found { IfOk result (λ x. SpelledAt bytes.now at (four x.0) x.1) }
    // What is spelled there is read.
    ensures only { (n : ℕ) (rest : List ℕ) → n < 2 ^ 32 → drop at bytes.now ≡ four n ++ rest → result ≡ Ok (n, at + 4) }
    // Which fault it is.
    ensures exact { result ≡ four_at bytes.now at }
{
    four_whole(bytes, at)
}

#[tactic(auto, unfolding(crate::specs::Reading::four_at))]
fn four_whole(bytes: &[u8], at: usize) -> Result<(u32, usize), FieldError>
    requires { at ≤ length bytes.now }
    ensures { result ≡ four_at bytes.now at }
{
    if bytes.len() - at < 4 {
        return Err(FieldError::Short { at: bytes.len() });
    }
    let piece = &bytes[at..at + 4];
    let value = u32::from_le_bytes([piece[0], piece[1], piece[2], piece[3]]);
    Ok((value, at + 4))
}

/// Eight bytes at a place, the low one first, and the place behind them.
pub fn take_eight(bytes: &[u8], at: usize) -> Result<(u64, usize), FieldError>
    requires { at ≤ length bytes.now }
    // What is read is spelled there.
    ensures found { IfOk result (λ x. SpelledAt bytes.now at (eight x.0) x.1) }
    // What is spelled there is read.
    ensures only { (n : ℕ) (rest : List ℕ) → n < 2 ^ 64 → drop at bytes.now ≡ eight n ++ rest → result ≡ Ok (n, at + 8) }
    // Which fault it is.
    ensures exact { result ≡ eight_at bytes.now at }
{
    eight_whole(bytes, at)
}

#[tactic(auto, unfolding(crate::specs::Reading::eight_at))]
fn eight_whole(bytes: &[u8], at: usize) -> Result<(u64, usize), FieldError>
    requires { at ≤ length bytes.now }
    ensures { result ≡ eight_at bytes.now at }
{
    if bytes.len() - at < 8 {
        return Err(FieldError::Short { at: bytes.len() });
    }
    let piece = &bytes[at..at + 8];
    let value = u64::from_le_bytes([
        piece[0], piece[1], piece[2], piece[3], piece[4], piece[5], piece[6], piece[7],
    ]);
    Ok((value, at + 8))
}
