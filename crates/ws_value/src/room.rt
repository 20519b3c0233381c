ghost use Rattle.std.specs.Prelude.{◌≡◌, ◌==◌, ◌≤◌, IfOk, length, take, replicate};
ghost use Rattle.std.specs.Borrow.{Lends, sem, Array, u8 as byte};
ghost use Rattle.ws_value.specs.contracts.room.Room.{the_row};
ghost use Rattle.ws_value.specs.Room.{overwritten};

use crate::{Chunk, NoMemory};
use std::alloc::Global;
use std::marker::Model;

/// An owned buffer that is still to be filled, seen as its bytes.
#[derive(Drop)]
pub struct Room {
    bytes: Vec<u8>,
}

impl Model for Room {
    ghost use Rattle.std.specs.Prelude.{List, ℕ};

    ghost Value = { List ℕ };

    ghost view = { λ room. room.bytes.items };
}

impl Room {
    /// A room of `len` zero bytes.
    pub fn of(alloc: Global, len: usize) -> Result<Room, NoMemory>
        ensures { IfOk result (λ room. room ≡ replicate len 0) }
    {
        Ok(Room {
            bytes: vec![in alloc; 0u8; len]?,
        })
    }

    /// The chunk of the first `n` bytes, with no copy.
    pub fn into_chunk(self, n: usize) -> Chunk
        requires { n ≤ length self }
        ensures { result ≡ take n self }
    {
        let mut bytes = self.bytes;
        bytes.truncate(n);
        Chunk::from_vec(bytes)
    }

    pub fn len(&self) -> usize
        ensures { result ≡ length self.now }
    {
        self.bytes.len()
    }

    pub fn is_empty(&self) -> bool
        ensures { result ≡ (length self.now == 0) }
    {
        self.len() == 0
    }

    pub fn as_slice(&self) -> &[u8]
        ensures { result.now ≡ self.now }
    {
        self.bytes.as_slice()
    }

    /// The room's bytes, to be written. The room keeps its length.
    pub fn as_mut_slice(&mut self) -> &mut [u8]
        ensures* writes_back { sem 𝓛 (Lends the_row (Array byte 0) self.entry result (overwritten self.old)) }
        ensures value { result.now ≡ self.old }
    {
        self.bytes.as_mut_slice()
    }
}
