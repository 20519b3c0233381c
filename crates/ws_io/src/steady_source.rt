ghost use Rattle.std.specs.Prelude.{◌≡◌, ◌<◌, [], false, Some, IfOk, All, length};
ghost use Rattle.ws_io.specs.Faults.{HasCause};
ghost use Rattle.ws_io.specs.Feed.{HasAtLeast, Reads};
ghost use Rattle.ws_io.specs.Memory.{steady_moves, after_steady_read};

use crate::{Failed, MemSource, Source};
use std::alloc::Global;
use std::marker::Model;
use ws_value::NoMemory;

/// A source in memory whose calls don't fail.
#[derive(Drop)]
pub struct SteadySource {
    inner: MemSource,
}

impl Model for SteadySource {
    ghost use Rattle.std.specs.Prelude.{◌≡◌, [], ◌<◌, length, All};
    ghost use Rattle.ws_io.specs.Memory.{SteadyFeed};

    ghost Value = { SteadyFeed };

    ghost view = { λ s. record { feed = s.inner.feed; most = s.inner.most; calls = s.inner.calls } };

    ghost invariant = { λ s. s.inner.fails ≡ [] };
}

impl SteadySource {
    /// A source of these bytes, whose read k, from 0, moves at most the number at k of `most`, whose last holds on.
    pub fn make(alloc: Global, bytes: &[u8], most: &[u64]) -> Result<SteadySource, NoMemory>
        requires some { 0 < length most.now }
        requires each { All (λ n. 0 < n) most.now }
        ensures { IfOk result (λ source. source ≡ record {
          feed = record { taken = []; left = bytes.now; ended = false };
          most = most.now;
          calls = 0;
        }) }
    {
        Ok(SteadySource {
            inner: MemSource::make(alloc, bytes, most, &[])?,
        })
    }
}

impl Source for SteadySource {
    ghost faults = { λ s. 0 };

    ghost feed = { λ s. Some s.feed };

    fn read(&mut self, room: &mut [u8]) -> Result<usize, Failed>
        ensures answer { IfOk result (λ count. count ≡ steady_moves self.old (length room.old)) }
        ensures after { self.new ≡ after_steady_read self.old (length room.old) }
        ensures bytes { Reads (Some self.old.feed) (Some self.new.feed) result room.new }
        ensures cause { HasCause 0 0 result }
    {
        match self.inner.read(room) {
            Ok(count) => Ok(count),
            Err(Failed) => unreachable!(),
        }
    }

    fn ready(&self) -> usize
        ensures none { result ≡ 0 }
        ensures ready { HasAtLeast (Some self.now.feed) result }
    {
        0
    }
}
