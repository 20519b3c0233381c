//! The hexadecimal text of bytes.
ghost use Rattle.std.specs.Prelude.{◌≡◌, ℕ, ◌++◌, ◌+◌, ◌*◌, ◌<◌, ◌≤◌, length, map, slice_index, take};
ghost use Rattle.std.specs.Simd.Lanes.{Each1, chunk};
ghost use Rattle.hex.specs.Hex.{encode_lower, lower_digits};

use std::simd::prelude::*;

/// How many bytes are written at a time.
const LANES: usize = 16;

const DIGITS: [u8; 16] = *b"0123456789abcdef";

/// The digits of `LANES` values.
#[inline(always)]
fn digits_of(values: u8x16) -> u8x16
    requires long { length values ≡ 16 }
    requires below { Each1 (λ v. v < 16) values }
    ensures { result ≡ map (λ v. slice_index lower_digits v) values }
{
    u8x16::from_array(DIGITS).swizzle_dyn(values)
}

/// Writes the digits of `LANES` bytes.
#[inline(always)]
fn put_lanes(text: &mut [u8], bytes: &[u8], from: usize)
    requires bytes { from + 16 ≤ length bytes.now }
    requires text { length text.old ≡ 2 * length bytes.now }
    ensures front { take (2 * from + 32) text.new ≡ take (2 * from) text.old ++ encode_lower (chunk from 16 bytes.now) }
    ensures back { (k : ℕ) → 2 * from + 32 ≤ k → slice_index text.new k ≡ slice_index text.old k }
{
    let lanes = u8x16::from_slice(&bytes[from..]);
    let (first, second) = (lanes >> u8x16::splat(4)).interleave(lanes & u8x16::splat(15));
    digits_of(first).copy_to_slice(&mut text[2 * from..]);
    digits_of(second).copy_to_slice(&mut text[2 * from + LANES..]);
}

/// Writes the text of these bytes in lower case, two digits for each.
pub fn put_hex(text: &mut [u8], bytes: &[u8])
    requires { length text.old ≡ 2 * length bytes.now }
    ensures { text.new ≡ encode_lower bytes.now }
{
    let mut done = 0;
    'lanes: while bytes.len() - done >= 4 * LANES {
        put_lanes(text, bytes, done);
        put_lanes(text, bytes, done + LANES);
        put_lanes(text, bytes, done + 2 * LANES);
        put_lanes(text, bytes, done + 3 * LANES);
        done += 4 * LANES;
    }
    'more: while bytes.len() - done >= LANES {
        put_lanes(text, bytes, done);
        done += LANES;
    }
    'rest: for i in done..bytes.len() {
        let byte = bytes[i];
        text[2 * i] = DIGITS[usize::from(byte >> 4)];
        text[2 * i + 1] = DIGITS[usize::from(byte & 0x0f)];
    }
}
