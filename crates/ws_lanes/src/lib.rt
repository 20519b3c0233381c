//! Kernels over blocks of bytes: each takes 16 or 32 bytes at a time by `std::simd`, and the rest byte by byte. None
//! takes memory.
#![tactic(auto)]

mod counts;
mod digits;
mod masks;

pub use counts::count_byte;
pub use digits::put_hex;
pub use masks::mask;
