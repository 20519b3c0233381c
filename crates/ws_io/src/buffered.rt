//! A sink that holds back what it takes: until its buffer is full, or it is flushed or finished. So many small writes are
//! one of the sink behind it.
ghost use Rattle.std.specs.Prelude.{◌≡◌, ◌≤◌, ◌+◌, ◌++◌, [], IfErr, OnOk, length, take, vec_capacity, vec_len};
ghost use Rattle.ws_io.specs.HeldBehind.{held_behind};
ghost use Rattle.ws_io.specs.Faults.{HasCause};
ghost use Rattle.ws_io.specs.Gain.{Finishes, Gains, IsEmptied, KeepsTold, Writes};

use crate::{Failed, Sink};
use std::alloc::Global;

/// The room of the buffer. A pipe of Linux has as much.
const ROOM: usize = 65_536;

/// A sink with a buffer in front of it.
#[derive(Drop)]
pub struct BufferedSink<K> {
    inner: K,
    held: Vec<u8>,
}

/// Writes until all is taken, or a write fails: then the answer is how many bytes were taken.
fn send<K: Sink>(output: &mut K, bytes: &[u8]) -> Result<(), usize>
    ensures all { OnOk result (Gains (K.got output.old) (K.got output.new) bytes.now) }
    ensures part { IfErr result (λ count. Gains (K.got output.old) (K.got output.new) (take count bytes.now)) }
    ensures within { IfErr result (λ count. count ≤ length bytes.now) }
    ensures finished { KeepsTold (K.finished output.old) (K.finished output.new) }
    ensures begun { K.begun output.new ≡ K.begun output.old }
    ensures cause { HasCause (K.faults output.old) (K.faults output.new) result }
{
    let mut count = 0;
    while count < bytes.len() {
        match output.write(&bytes[count..]) {
            Ok(more) => count += more,
            Err(Failed) => return Err(count),
        }
    }
    Ok(())
}

impl<K: Sink + Drop> BufferedSink<K> {
    /// A buffer in front of this sink, which holds nothing yet. Where there is no memory for it, each write goes
    /// straight through.
    pub fn over(alloc: Global, inner: K) -> BufferedSink<K>
        ensures inner { result.inner ≡ inner }
        ensures held { result.held.items ≡ [] }
    {
        let held = match Vec::with_capacity(alloc, ROOM) {
            Ok(held) => held,
            Err(_) => Vec::new(alloc),
        };
        BufferedSink { inner, held }
    }

    /// Holds a piece for which there is room.
    fn hold(&mut self, piece: &[u8]) -> usize
        requires { vec_len self.old.held + length piece.now ≤ vec_capacity self.old.held }
        ensures count { result ≡ length piece.now }
        ensures held { self.new.held.items ≡ self.old.held.items ++ piece.now }
        ensures inner { self.new.inner ≡ self.old.inner }
    {
        match self.held.extend_from_slice(piece) {
            Ok(()) => piece.len(),
            Err(_) => unreachable!(),
        }
    }

    /// Writes what is held. What the sink behind it didn't take is still held.
    fn empty(&mut self) -> Result<(), Failed>
        ensures all { OnOk result (self.new.held.items ≡ []) }
        ensures bytes { Gains (held_behind (K.got self.old.inner) self.old.held.items)
            (held_behind (K.got self.new.inner) self.new.held.items) [] }
        ensures finished { KeepsTold (K.finished self.old.inner) (K.finished self.new.inner) }
        ensures begun { K.begun self.new.inner ≡ K.begun self.old.inner }
        ensures cause { HasCause (K.faults self.old.inner) (K.faults self.new.inner) result }
    {
        match send(&mut self.inner, self.held.as_slice()) {
            Ok(()) => {
                self.held.clear();
                Ok(())
            }
            Err(count) => {
                let left = self.held.len() - count;
                self.held.rotate_left(count);
                self.held.truncate(left);
                Err(Failed)
            }
        }
    }
}

impl<K: Sink + Drop> Sink for BufferedSink<K> {
    ghost faults = { λ s. K.faults s.inner };

    ghost got = { λ s. held_behind (K.got s.inner) s.held.items };

    ghost finished = { λ s. K.finished s.inner };

    ghost begun = { λ s. K.begun s.inner };

    fn write(&mut self, piece: &[u8]) -> Result<usize, Failed> {
        if piece.len() <= self.held.capacity() - self.held.len() {
            return Ok(self.hold(piece));
        }
        self.empty()?;
        if piece.len() <= self.held.capacity() - self.held.len() {
            return Ok(self.hold(piece));
        }
        self.inner.write(piece)
    }

    fn flush(&mut self) -> Result<(), Failed> {
        self.empty()?;
        self.inner.flush()
    }

    fn finish(&mut self) -> Result<(), Failed> {
        self.empty()?;
        self.inner.finish()
    }
}
