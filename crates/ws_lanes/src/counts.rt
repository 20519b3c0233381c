//! How often a byte stands in a block.
ghost use Rattle.std.specs.Prelude.{◌≡◌, ◌==◌, ◌+◌, ◌≤◌, count_by, length};
ghost use Rattle.std.specs.Simd.Lanes.{chunk};

use std::simd::prelude::*;

/// How many bytes are compared at a time.
const LANES: usize = 32;

/// How often the byte stands among the next `LANES`.
#[inline(always)]
fn count_lanes(block: &[u8], from: usize, b: u8) -> u32
    requires { from + 32 ≤ length block.now }
    ensures { result ≡ count_by (λ x. x == b) (chunk from 32 block.now) }
{
    let bytes = u8x32::from_slice(&block[from..]);
    bytes.simd_eq(u8x32::splat(b)).to_bitmask().count_ones()
}

fn count_each(block: &[u8], b: u8) -> usize
    ensures { result ≡ count_by (λ x. x == b) block.now }
{
    block.iter().filter(|x| **x == b).count()
}

/// How often this byte stands in the block.
pub fn count_byte(block: &[u8], b: u8) -> u64
    ensures { result ≡ count_by (λ x. x == b) block.now }
{
    let mut count = 0;
    let mut done = 0;
    'lanes: while block.len() - done >= LANES {
        count += count_lanes(block, done, b) as u64;
        done += LANES;
    }
    count + count_each(&block[done..], b) as u64
}
