ghost use Rattle.std.specs.Prelude.{◌≡◌, ◌==◌, ◌≤◌, IfOk, length, drop};

use crate::NoMemory;
use bytes::Bytes;
use std::alloc::Global;
use std::marker::Model;

/// The bytes of a vector from an index on.
#[derive(Drop)]
struct Tail {
    bytes: Vec<u8>,
    start: usize,
}

impl Model for Tail {
    ghost use Rattle.std.specs.Prelude.{◌≤◌, List, ℕ, length, drop};

    ghost Value = { List ℕ };

    ghost view = { λ tail. drop tail.start tail.bytes.items };

    ghost invariant = { λ tail. tail.start ≤ length tail.bytes.items };
}

impl Tail {
    fn len(&self) -> usize
        ensures { result ≡ length self.now }
    {
        self.bytes.len() - self.start
    }

    fn as_slice(&self) -> &[u8]
        ensures { result.now ≡ self.now }
    {
        &self.bytes[self.start..]
    }

    fn advance(&mut self, n: usize)
        requires { n ≤ length self.old }
        ensures { self.new ≡ drop n self.old }
    {
        self.start += n;
    }
}

/// Bytes that several chunks may share, or a buffer that one chunk owns.
#[derive(Drop)]
enum Held {
    Shared(Bytes),
    Owned(Tail),
}

/// Bytes that pass through a stream, seen as a list.
#[derive(Drop)]
pub struct Chunk {
    held: Held,
}

impl Model for Chunk {
    ghost use Rattle.std.specs.Prelude.{List, ℕ};

    ghost Value = { List ℕ };

    ghost use Rattle.ws_value.specs.Held.{bytes_of};

    ghost view = { λ chunk. bytes_of chunk.held };
}

impl Chunk {
    /// A chunk of these bytes, which are copied once; its copies share them.
    pub fn of(alloc: Global, bytes: &[u8]) -> Result<Chunk, NoMemory>
        ensures { IfOk result (λ chunk. chunk ≡ bytes.now) }
    {
        Ok(Chunk {
            held: Held::Shared(Bytes::copy_from_slice(alloc, bytes)?),
        })
    }

    /// The bytes of a vector, with no copy.
    pub fn from_vec(bytes: Vec<u8>) -> Chunk
        ensures { result ≡ bytes.items }
    {
        Chunk {
            held: Held::Owned(Tail { bytes, start: 0 }),
        }
    }

    pub fn len(&self) -> usize
        ensures { result ≡ length self.now }
    {
        match &self.held {
            Held::Shared(bytes) => bytes.len(),
            Held::Owned(tail) => tail.len(),
        }
    }

    pub fn is_empty(&self) -> bool
        ensures { result ≡ (length self.now == 0) }
    {
        self.len() == 0
    }

    pub fn as_slice(&self) -> &[u8]
        ensures { result.now ≡ self.now }
    {
        match &self.held {
            Held::Shared(bytes) => bytes.as_slice(),
            Held::Owned(tail) => tail.as_slice(),
        }
    }

    /// Drops the first `n` bytes, with no copy.
    pub fn advance(&mut self, n: usize)
        requires { n ≤ length self.old }
        ensures { self.new ≡ drop n self.old }
    {
        match &mut self.held {
            Held::Shared(bytes) => bytes.advance(n),
            Held::Owned(tail) => tail.advance(n),
        }
    }

    /// An equal chunk. Shared bytes are shared once more, and owned bytes are copied.
    pub fn copy(&self, alloc: Global) -> Result<Chunk, NoMemory>
        ensures { IfOk result (λ chunk. chunk ≡ self.now) }
    {
        match &self.held {
            Held::Shared(bytes) => Ok(Chunk {
                held: Held::Shared(bytes.clone()?),
            }),
            Held::Owned(tail) => Chunk::of(alloc, tail.as_slice()),
        }
    }
}
