ghost use Rattle.std.specs.Prelude.{◌≡◌, ◌≤◌, ◌<◌, [], None, IfOk, OnOk, OnErr, length};
ghost use Rattle.ws_io.specs.Faults.{HasCause};
ghost use Rattle.ws_io.specs.Gain.{Gains, IsEmptied, Writes, Finishes, KeepsTold, straight};
ghost use Rattle.ws_io.specs.Memory.{one_more};

use crate::std_source::REPEATS;
use crate::{Failed, Sink};
use std::io::{ErrorKind, Write};

/// One write, made again where it was interrupted. To take nothing of a piece that has bytes is a failure.
fn write_again<W: Write>(writer: &mut W, piece: &[u8]) -> Result<usize, Failed>
    ensures within { IfOk result (λ count. count ≤ length piece.now) }
    ensures some { IfOk result (λ count. 0 < length piece.now → 0 < count) }
{
    for _ in 0..=REPEATS {
        match writer.write(piece) {
            Ok(0) if !piece.is_empty() => return Err(Failed),
            Ok(count) => return Ok(count),
            Err(error) if error.kind() == ErrorKind::Interrupted => {}
            Err(_) => return Err(Failed),
        }
    }
    Err(Failed)
}

/// One flush, made again where it was interrupted.
fn flush_again<W: Write>(writer: &mut W) -> Result<(), Failed> {
    for _ in 0..=REPEATS {
        match writer.flush() {
            Ok(()) => return Ok(()),
            Err(error) if error.kind() == ErrorKind::Interrupted => {}
            Err(_) => return Err(Failed),
        }
    }
    Err(Failed)
}

/// A sink over a writer of std, whose bytes no contract tells: it stands for no list.
#[derive(Drop)]
pub struct StdSink<W> {
    inner: W,
    count: u64,
}

impl<W: Write + Drop> StdSink<W> {
    /// A sink over this writer, of which no call has failed.
    pub fn over(inner: W) -> StdSink<W>
        ensures { result ≡ record { inner = inner; count = 0 } }
    {
        StdSink { inner, count: 0 }
    }

    /// Counts a failure where there was one.
    fn counted<T: Drop>(&mut self, answer: Result<T, Failed>) -> Result<T, Failed>
        ensures answer { result ≡ answer }
        ensures cause { HasCause self.old.count self.new.count result }
        ensures count { OnErr result (self.new.count ≡ one_more self.old.count) }
    {
        if answer.is_err() {
            self.count = self.count.saturating_add(1);
        }
        answer
    }
}

impl<W: Write + Drop> Sink for StdSink<W> {
    ghost faults = { λ s. s.count };

    ghost got = { λ s. straight (λ xs. ⊥) };

    ghost finished = { λ s. None };

    fn write(&mut self, piece: &[u8]) -> Result<usize, Failed>
        ensures bytes { Writes (straight (λ xs. ⊥)) (straight (λ xs. ⊥)) result piece.now }
        ensures finished { KeepsTold None None }
        ensures cause { HasCause self.old.count self.new.count result }
        ensures count { OnErr result (self.new.count ≡ one_more self.old.count) }
    {
        let answer = write_again(&mut self.inner, piece);
        self.counted(answer)
    }

    fn flush(&mut self) -> Result<(), Failed>
        ensures emptied { OnOk result (IsEmptied (straight (λ xs. ⊥))) }
        ensures bytes { Gains (straight (λ xs. ⊥)) (straight (λ xs. ⊥)) [] }
        ensures finished { KeepsTold None None }
        ensures cause { HasCause self.old.count self.new.count result }
        ensures count { OnErr result (self.new.count ≡ one_more self.old.count) }
    {
        let answer = flush_again(&mut self.inner);
        self.counted(answer)
    }

    fn finish(&mut self) -> Result<(), Failed>
        ensures finished { Finishes None None result }
        ensures emptied { OnOk result (IsEmptied (straight (λ xs. ⊥))) }
        ensures bytes { Gains (straight (λ xs. ⊥)) (straight (λ xs. ⊥)) [] }
        ensures cause { HasCause self.old.count self.new.count result }
        ensures count { OnErr result (self.new.count ≡ one_more self.old.count) }
    {
        let answer = flush_again(&mut self.inner);
        self.counted(answer)
    }
}
