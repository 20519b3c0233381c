ghost use Rattle.std.specs.Prelude.{◌≡◌, ◌≤◌, [], None, IfOk, OnErr, length};
ghost use Rattle.std.specs.Io.Buffered.{reader_buffer, reader_inner};
ghost use Rattle.ws_io.specs.Faults.{HasCause};
ghost use Rattle.ws_io.specs.Feed.{HasAtLeast, Reads};
ghost use Rattle.ws_io.specs.Memory.{one_more};

use crate::{Failed, Source};
use std::alloc::Global;
use std::io::{BufReader, ErrorKind, Read};

/// The most bytes that are read ahead. A pipe of Linux has as many.
const ROOM: usize = 65_536;

/// How often one call of std is made again where it was interrupted.
pub(crate) const REPEATS: u32 = 100;

/// One read, made again where it was interrupted.
pub(crate) fn read_again<R: Read>(reader: &mut R, room: &mut [u8]) -> Result<usize, ErrorKind>
    ensures { IfOk result (λ count. count ≤ length room.old) }
{
    for _ in 0..=REPEATS {
        match reader.read(room) {
            Ok(count) => return Ok(count),
            Err(error) if error.kind() == ErrorKind::Interrupted => {}
            Err(error) => return Err(error.kind()),
        }
    }
    Err(ErrorKind::Interrupted)
}

/// A source over a reader of std, whose bytes no contract tells.
#[derive(Drop)]
pub struct StdSource<R: Read + Drop> {
    inner: BufReader<R, Global>,
    count: u64,
}

impl<R: Read + Drop> StdSource<R> {
    /// A source over this reader, of which no read has failed. It reads nothing ahead, for which no memory is taken.
    pub fn over(alloc: Global, reader: R) -> StdSource<R>
        ensures over { reader_inner result.inner ≡ reader }
        ensures unread { reader_buffer result.inner ≡ [] }
        ensures count { result.count ≡ 0 }
    {
        let Ok(inner) = BufReader::with_capacity(alloc, 0, reader) else {
            unreachable!()
        };
        StdSource { inner, count: 0 }
    }
}

impl<R: Read + Copy> StdSource<R> {
    /// The same, of which one read of the system's gives as much as its buffer has room for. Where there is no memory
    /// for the buffer, it reads nothing ahead.
    pub fn ahead(alloc: Global, reader: R) -> StdSource<R>
        ensures over { reader_inner result.inner ≡ reader }
        ensures unread { reader_buffer result.inner ≡ [] }
        ensures count { result.count ≡ 0 }
    {
        match BufReader::with_capacity(alloc, ROOM, reader) {
            Ok(inner) => StdSource { inner, count: 0 },
            Err(_) => StdSource::over(alloc, reader),
        }
    }
}

impl<R: Read + Drop> Source for StdSource<R> {
    ghost faults = { λ s. s.count };

    ghost feed = { λ s. None };

    fn read(&mut self, room: &mut [u8]) -> Result<usize, Failed>
        ensures bytes { Reads None None result room.new }
        ensures cause { HasCause self.old.count self.new.count result }
        ensures count { OnErr result (self.new.count ≡ one_more self.old.count) }
    {
        match read_again(&mut self.inner, room) {
            Ok(count) => Ok(count),
            Err(_) => {
                self.count = self.count.saturating_add(1);
                Err(Failed)
            }
        }
    }

    fn ready(&self) -> usize
        ensures { HasAtLeast None result }
    {
        self.inner.buffer().len()
    }
}
