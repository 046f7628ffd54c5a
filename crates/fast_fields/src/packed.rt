ghost use Rattle.std.specs.Prelude.{◌≡◌, ◌≤◌, ◌<◌, ◌+◌, ◌-◌, ◌*◌, ◌^◌, ◌%◌, ◌/◌, ◌++◌, OnOk, IfOk, length, take, drop};
ghost use Rattle.byte_fields.specs.Spelling.{eight};
ghost use Rattle.fast_fields.specs.Lookups.{bits_at};
ghost use Rattle.fast_fields.specs.Packed.{number};

use byte_fields::put_eight;
use std::alloc::AllocError;

// The number of so many bits from one on, the low one first. At most nine bytes have them.
#[inline]
pub(crate) fn bits_from(bytes: &[u8], start: usize, width: u8) -> u64
    requires narrow { width ≤ 64 }
    requires within { start + width ≤ 8 * length bytes.now }
    ensures { result ≡ bits_at width bytes.now start }
{
    let at = start / 8;
    let shift = (start % 8) as u8;
    let low = window(bytes, at) >> shift;
    let mask = low_bits(width);
    if shift + width <= 64 {
        return low & mask;
    }
    let high = u64::from(bytes[at + 8]) << (64 - shift);
    low.wrapping_add(high) & mask
}

// A number whose low bits are ones, so many of them.
#[inline]
fn low_bits(width: u8) -> u64
    requires { width ≤ 64 }
    ensures { result ≡ 2 ^ width - 1 }
{
    if width == 0 {
        return 0;
    }
    u64::MAX >> (64 - width)
}

// The number of the eight bytes from a place on, or of those that are left, the low one first.
#[inline]
fn window(bytes: &[u8], at: usize) -> u64
    requires { at ≤ length bytes.now }
    ensures { result ≡ number (take 8 (drop at bytes.now)) }
{
    if bytes.len() - at < 8 {
        return last_bytes(bytes, at);
    }
    let piece = &bytes[at..at + 8];
    u64::from_le_bytes([
        piece[0], piece[1], piece[2], piece[3], piece[4], piece[5], piece[6], piece[7],
    ])
}

// The number of the bytes from a place on, the low one first.
#[cold]
fn last_bytes(bytes: &[u8], at: usize) -> u64
    requires within { at ≤ length bytes.now }
    requires few { length bytes.now - at < 8 }
    ensures { result ≡ number (drop at bytes.now) }
{
    let mut value = 0u64;
    for step in 0..bytes.len() - at {
        let byte = bytes[bytes.len() - 1 - step];
        value = value.wrapping_mul(256).wrapping_add(u64::from(byte));
    }
    value
}

// Bits that are not put yet: fewer than 64 of them, as one number, the first one low.
#[derive(Clone, Copy)]
pub(crate) struct Held {
    pub(crate) bits: u64,
    pub(crate) count: u8,
}

// Puts a number of so many bits behind those that are held, and hands out eight bytes where so many are there.
#[inline]
pub(crate) fn put_number(
    out: &mut Vec<u8>,
    held: Held,
    number: u64,
    width: u8,
) -> Result<Held, AllocError>
    requires few { held.count < 64 }
    requires narrow { width ≤ 64 }
    ensures below { held.count + width < 64 → IfOk result (λ next. (out.new.items ≡ out.old.items)
        × (next.bits ≡ (held.bits + number * 2 ^ held.count) % 2 ^ 64) × (next.count ≡ held.count + width)) }
    ensures above { 64 ≤ held.count + width → IfOk result (λ next. (out.new.items ≡ out.old.items ++ eight ((held.bits + number * 2 ^ held.count) % 2 ^ 64))
        × (next.bits ≡ (held.bits + number * 2 ^ held.count) / 2 ^ 64) × (next.count ≡ held.count + width - 64)) }
{
    let whole = u128::from(held.bits) + (u128::from(number) << held.count);
    let low = (whole % (1 << 64)) as u64;
    let count = held.count + width;
    if count < 64 {
        return Ok(Held { bits: low, count });
    }
    put_eight(out, low)?;
    Ok(Held {
        bits: (whole >> 64) as u64,
        count: count - 64,
    })
}

// Puts the bytes of the bits that are held.
pub(crate) fn put_last(out: &mut Vec<u8>, held: Held) -> Result<(), AllocError>
    requires { held.count < 64 }
    ensures { OnOk result (out.new.items ≡ out.old.items ++ take ((held.count + 7) / 8) (eight held.bits)) }
{
    let bytes = held.bits.to_le_bytes();
    let size = usize::from((held.count + 7) / 8);
    out.extend_from_slice(&bytes[..size])
}
