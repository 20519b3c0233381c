ghost use Rattle.std.specs.Prelude.{◌≡◌, ◌<◌, [], true, false, ◌==◌, ◌&&◌, nat_lt, if◌then◌else◌, Some, IfOk, All, length};
ghost use Rattle.ws_io.specs.Faults.{HasCause};
ghost use Rattle.ws_io.specs.Feed.{HasAtLeast, Reads};
ghost use Rattle.ws_io.specs.Memory.{answer_of, after_read, room_after};

use crate::numbers::{contains, number_at};
use crate::{Failed, Source};
use std::alloc::Global;
use std::marker::Model;
use ws_value::NoMemory;

/// Whether the end was met, once a call moved `count` bytes into so much room.
fn end_after(ended: bool, count: usize, room: usize) -> bool
    ensures { result ≡ (if (count == 0) && nat_lt 0 room then true else ended) }
{
    if count == 0 && room > 0 { true } else { ended }
}

/// A source over bytes in memory.
#[derive(Drop)]
pub struct MemSource {
    bytes: Vec<u8>,
    given: usize,
    ended: bool,
    most: Vec<u64>,
    fails: Vec<u64>,
    calls: u64,
    count: u64,
}

impl Model for MemSource {
    ghost use Rattle.std.specs.Prelude.{◌<◌, ◌≤◌, take, drop, length, All};
    ghost use Rattle.ws_io.specs.Memory.{MemFeed};

    ghost Value = { MemFeed };

    ghost view = { λ s. record {
      feed = record { taken = take s.given s.bytes.items; left = drop s.given s.bytes.items; ended = s.ended };
      most = s.most.items;
      fails = s.fails.items;
      calls = s.calls;
      count = s.count;
    } };

    ghost invariant = { λ s. (s.given ≤ length s.bytes.items) × (0 < length s.most.items)
        × All (λ n. 0 < n) s.most.items };
}

impl MemSource {
    /// A source of these bytes. Call k, from 0, moves at most the number at k of `most`, whose last holds on; the
    /// calls `fails`, counted from 1, fail.
    pub fn make(
        alloc: Global,
        bytes: &[u8],
        most: &[u64],
        fails: &[u64],
    ) -> Result<MemSource, NoMemory>
        requires some { 0 < length most.now }
        requires each { All (λ n. 0 < n) most.now }
        ensures { IfOk result (λ source. source ≡ record {
          feed = record { taken = []; left = bytes.now; ended = false };
          most = most.now;
          fails = fails.now;
          calls = 0;
          count = 0;
        }) }
    {
        Ok(MemSource {
            bytes: bytes.to_vec(alloc)?,
            given: 0,
            ended: false,
            most: most.to_vec(alloc)?,
            fails: fails.to_vec(alloc)?,
            calls: 0,
            count: 0,
        })
    }

    /// How many reads were asked for, failed ones among them.
    pub fn calls(&self) -> u64
        ensures { result ≡ self.now.calls }
    {
        self.calls
    }
}

impl Source for MemSource {
    ghost faults = { λ s. s.count };

    ghost feed = { λ s. Some s.feed };

    fn read(&mut self, room: &mut [u8]) -> Result<usize, Failed>
        ensures answer { result ≡ answer_of self.old (length room.old) }
        ensures after { self.new ≡ after_read self.old (length room.old) }
        ensures room { room.new ≡ room_after self.old room.old }
        ensures bytes { Reads (Some self.old.feed) (Some self.new.feed) result room.new }
        ensures cause { HasCause self.old.count self.new.count result }
    {
        let index = self.calls;
        self.calls = index.saturating_add(1);
        if contains(self.fails.as_slice(), self.calls) {
            self.count = self.count.saturating_add(1);
            return Err(Failed);
        }
        let left = &self.bytes[self.given..];
        let most = number_at(self.most.as_slice(), index).min(room.len() as u64);
        let count = most.min(left.len() as u64) as usize;
        room[..count].copy_from_slice(&left[..count]);
        self.given += count;
        self.ended = end_after(self.ended, count, room.len());
        Ok(count)
    }
    /// Each read of it stands for one of the system.
    fn ready(&self) -> usize
        ensures none { result ≡ 0 }
        ensures ready { HasAtLeast (Some self.now.feed) result }
    {
        0
    }
}
