ghost use Rattle.std.specs.Prelude.{◌≡◌, ◌<◌, [], false, Some, IfOk, OnOk, All, length};
ghost use Rattle.ws_io.specs.Faults.{HasCause};
ghost use Rattle.ws_io.specs.Gain.{Gains, IsEmptied, KeepsTold, Writes, Finishes, straight};
ghost use Rattle.ws_io.specs.Memory.{write_answer, after_write, finish_answer, after_finish};

use crate::numbers::{contains, number_at};
use crate::{Failed, Sink};
use std::alloc::Global;
use std::marker::Model;
use ws_value::NoMemory;

/// A sink that keeps its bytes, with room for so many.
#[derive(Drop)]
pub struct MemSink {
    bytes: Vec<u8>,
    room: usize,
    finished: bool,
    most: Vec<u64>,
    fails: Vec<u64>,
    finish_fails: Vec<u64>,
    writes: u64,
    finishes: u64,
    count: u64,
}

impl Model for MemSink {
    ghost use Rattle.std.specs.Prelude.{◌<◌, ◌≤◌, ◌+◌, length, All, vec_len, vec_capacity};
    ghost use Rattle.ws_io.specs.Memory.{MemGain};

    ghost Value = { MemGain };

    ghost view = { λ s. record {
      got = s.bytes.items;
      room = s.room;
      finished = s.finished;
      most = s.most.items;
      fails = s.fails.items;
      finish_fails = s.finish_fails.items;
      writes = s.writes;
      finishes = s.finishes;
      count = s.count;
    } };

    ghost invariant = { λ s. (vec_len s.bytes + s.room ≤ vec_capacity s.bytes) × (0 < length s.most.items)
        × All (λ n. 0 < n) s.most.items };
}

impl MemSink {
    /// A sink with room for `room` bytes. Write k, from 0, takes at most the number at k of `most`, whose last holds
    /// on. The writes `fails` and the finishes `finish_fails`, counted from 1, fail, and so does a write of bytes
    /// where no room is left.
    pub fn make(
        alloc: Global,
        room: usize,
        most: &[u64],
        fails: &[u64],
        finish_fails: &[u64],
    ) -> Result<MemSink, NoMemory>
        requires some { 0 < length most.now }
        requires each { All (λ n. 0 < n) most.now }
        ensures { IfOk result (λ sink. sink ≡ record {
          got = [];
          room = room;
          finished = false;
          most = most.now;
          fails = fails.now;
          finish_fails = finish_fails.now;
          writes = 0;
          finishes = 0;
          count = 0;
        }) }
    {
        Ok(MemSink {
            bytes: Vec::with_capacity(alloc, room)?,
            room,
            finished: false,
            most: most.to_vec(alloc)?,
            fails: fails.to_vec(alloc)?,
            finish_fails: finish_fails.to_vec(alloc)?,
            writes: 0,
            finishes: 0,
            count: 0,
        })
    }

    /// The bytes that were written.
    pub fn got(&self) -> &[u8]
        ensures { result.now ≡ self.now.got }
    {
        self.bytes.as_slice()
    }

    /// Whether a finish has succeeded.
    pub fn finished(&self) -> bool
        ensures { result ≡ self.now.finished }
    {
        self.finished
    }
}

impl Sink for MemSink {
    ghost faults = { λ s. s.count };

    ghost got = { λ s. straight (λ xs. xs ≡ s.got) };

    ghost finished = { λ s. Some s.finished };

    fn write(&mut self, piece: &[u8]) -> Result<usize, Failed>
        ensures answer { result ≡ write_answer self.old (length piece.now) }
        ensures after { self.new ≡ after_write self.old piece.now }
        ensures bytes { Writes (straight (λ xs. xs ≡ self.old.got)) (straight (λ xs. xs ≡ self.new.got)) result piece.now }
        ensures cause { HasCause self.old.count self.new.count result }
    {
        let index = self.writes;
        self.writes = index.saturating_add(1);
        if contains(self.fails.as_slice(), self.writes) || (!piece.is_empty() && self.room == 0) {
            self.count = self.count.saturating_add(1);
            return Err(Failed);
        }
        let most = number_at(self.most.as_slice(), index).min(piece.len() as u64);
        let count = most.min(self.room as u64) as usize;
        match self.bytes.extend_from_slice(&piece[..count]) {
            Ok(()) => {}
            Err(_) => unreachable!(),
        }
        self.room -= count;
        Ok(count)
    }

    fn flush(&mut self) -> Result<(), Failed>
        ensures same { self.new ≡ self.old }
        ensures emptied { OnOk result (IsEmptied (straight (λ xs. xs ≡ self.new.got))) }
        ensures bytes { Gains (straight (λ xs. xs ≡ self.old.got)) (straight (λ xs. xs ≡ self.new.got)) [] }
        ensures finished { KeepsTold (Some self.old.finished) (Some self.new.finished) }
        ensures cause { HasCause self.old.count self.new.count result }
    {
        Ok(())
    }

    fn finish(&mut self) -> Result<(), Failed>
        ensures answer { result ≡ finish_answer self.old }
        ensures after { self.new ≡ after_finish self.old }
        ensures finished { Finishes (Some self.old.finished) (Some self.new.finished) result }
        ensures emptied { OnOk result (IsEmptied (straight (λ xs. xs ≡ self.new.got))) }
        ensures bytes { Gains (straight (λ xs. xs ≡ self.old.got)) (straight (λ xs. xs ≡ self.new.got)) [] }
        ensures cause { HasCause self.old.count self.new.count result }
    {
        self.finishes = self.finishes.saturating_add(1);
        if contains(self.finish_fails.as_slice(), self.finishes) {
            self.count = self.count.saturating_add(1);
            return Err(Failed);
        }
        self.finished = true;
        Ok(())
    }
}
