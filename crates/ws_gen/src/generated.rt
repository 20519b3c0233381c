//! A source of bytes that are made of a number.
ghost use Rattle.std.specs.Prelude.{◌≡◌, ◌<◌, ◌≤◌, [], true, false, Some, length};
ghost use Rattle.ws_gen.specs.Bytes.{byte_of, generated, next_number, number_after};

use std::marker::Model;
use ws_io::{Failed, Source};

const MODULUS: u32 = 65_537;

fn next_number(number: u32) -> u32
    requires { number < 65537 }
    ensures next { result ≡ next_number number }
    ensures below { result < 65537 }
{
    (75 * number + 74) % MODULUS
}

fn byte_of(number: u32) -> u8
    ensures { result ≡ byte_of number }
{
    if number % 64 == 0 {
        b'\n'
    } else {
        b"0123456789abcdef"[(number % 16) as usize]
    }
}

/// Fills the room with the bytes of the numbers after this one, and answers the last of them.
fn fill(room: &mut [u8], number: u32) -> u32
    requires { number < 65537 }
    ensures bytes { room.new ≡ generated (length room.old) number }
    ensures last { result ≡ number_after (length room.old) number }
    ensures below { result < 65537 }
{
    let mut number = number;
    'bytes: for i in 0..room.len() {
        number = next_number(number);
        room[i] = byte_of(number);
    }
    number
}

/// Whether the end was met, once a read moved `count` bytes into so much room.
fn end_after(ended: bool, count: usize, room: usize) -> bool
    ensures met { count ≡ 0 → 0 < room → result ≡ true }
    ensures some { 0 < count → result ≡ ended }
    ensures no_room { room ≡ 0 → result ≡ ended }
{
    if count == 0 && room > 0 { true } else { ended }
}

/// A source of so many bytes. It takes no memory, and no read of it fails.
#[derive(Drop)]
pub struct Generated {
    count: u64,
    seed: u32,
    given: u64,
    number: u32,
    ended: bool,
}

impl Model for Generated {
    ghost use Rattle.std.specs.Prelude.{◌≡◌, ◌-◌, ◌<◌, ◌≤◌};
    ghost use Rattle.ws_gen.specs.Bytes.{generated, number_after};
    ghost use Rattle.ws_io.specs.Feed.{Feed};

    ghost Value = { Feed };

    ghost view = { λ s. record {
      taken = generated s.given s.seed;
      left = generated (s.count - s.given) s.number;
      ended = s.ended;
    } };

    ghost invariant = { λ s. (s.given ≤ s.count) × (s.number < 65537) × (s.number ≡ number_after s.given s.seed) };
}

impl Generated {
    /// A source of `count` bytes, of the numbers after `seed`.
    pub fn make(count: u64, seed: u16) -> Generated
        ensures { result ≡ record { taken = []; left = generated count seed; ended = false } }
    {
        Generated {
            count,
            seed: u32::from(seed),
            given: 0,
            number: u32::from(seed),
            ended: false,
        }
    }
}

impl Source for Generated {
    ghost faults = { λ s. 0 };

    ghost feed = { λ s. Some s };

    fn read(&mut self, room: &mut [u8]) -> Result<usize, Failed> {
        let count = (self.count - self.given).min(room.len() as u64) as usize;
        self.number = fill(&mut room[..count], self.number);
        self.given += count as u64;
        self.ended = end_after(self.ended, count, room.len());
        Ok(count)
    }

    /// All that are left, since none is asked of the system.
    fn ready(&self) -> usize {
        (self.count - self.given) as usize
    }
}
