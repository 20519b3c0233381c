//! Bytes under a key that is repeated along them.
ghost use Rattle.std.specs.Prelude.{◌≡◌, ℕ, ◌+◌, ◌%◌, ◌<◌, ◌≤◌, bit_xor, length, slice_index};
ghost use Rattle.std.specs.Simd.Lanes.{chunk, put_chunk, zip2};
ghost use Rattle.ws_lanes.specs.Kernels.{masked};

use std::simd::prelude::*;

/// How many bytes are masked at a time.
const LANES: usize = 32;

/// The most bytes of a key, and of a key with as many behind it as are masked at a time.
const MOST_OF_A_KEY: usize = 64;

const MOST_REPEATED: usize = MOST_OF_A_KEY + LANES;

/// The key, and behind it the key again, so far that there are `LANES` bytes from each of its places on.
fn repeated(key: &[u8]) -> [u8; MOST_REPEATED]
    requires some { 0 < length key.now }
    requires most { length key.now ≤ 64 }
    ensures { (k : ℕ) → k < length key.now + 32 →
        slice_index result k ≡ slice_index key.now (k % length key.now) }
{
    let mut wide = [0; MOST_REPEATED];
    'first: for place in 0..key.len() {
        wide[place] = key[place];
    }
    'again: for place in key.len()..key.len() + LANES {
        wide[place] = wide[place - key.len()];
    }
    wide
}

/// The place in a key of so many bytes that is a step behind another.
#[inline(always)]
fn behind(at: usize, step: usize, length: usize) -> usize
    requires at { at < length }
    requires step { step ≤ length }
    requires few { length ≤ 64 }
    ensures { result ≡ (at + step) % length }
{
    let next = at + step;
    if next < length { next } else { next - length }
}

/// Masks `LANES` bytes.
#[inline(always)]
fn mask_lanes(block: &mut [u8], from: usize, wide: &[u8], at: usize)
    requires block { from + 32 ≤ length block.old }
    requires wide { at + 32 ≤ length wide.now }
    ensures { block.new ≡ put_chunk from block.old (zip2 bit_xor (chunk from 32 block.old) (chunk at 32 wide.now)) }
{
    let bytes = u8x32::from_slice(&block[from..]);
    let keys = u8x32::from_slice(&wide[at..]);
    (bytes ^ keys).copy_to_slice(&mut block[from..]);
}

/// Changes each byte of the block by xor into that byte and the key's at its place: the first of the block is at this
/// place, and the key is repeated.
pub fn mask(block: &mut [u8], key: &[u8], place: u64)
    requires some { 0 < length key.now }
    requires most { length key.now ≤ 64 }
    ensures { block.new ≡ masked key.now place block.old }
{
    let wide = repeated(key);
    let step = LANES % key.len();
    let mut at = (place % key.len() as u64) as usize;
    let mut done = 0;
    'lanes: while block.len() - done >= LANES {
        mask_lanes(block, done, &wide, at);
        at = behind(at, step, key.len());
        done += LANES;
    }
    'rest: for i in done..block.len() {
        block[i] ^= key[at];
        at = behind(at, 1, key.len());
    }
}
