//! A sink with a buffer in front of it, over a device that takes one byte a call and may be full, of which some calls are
//! interrupted.
use std::cell::Cell;
use std::io::{self, ErrorKind, Read, Write};
use std::test::Fail;
use ws_io::{BufferedSink, Sink, Source, StdSink, StdSource};

const TEXT: &[u8] = b"some bytes";

/// A device that counts the bytes that it takes, and fails where it is full and where a byte isn't the text's next.
#[derive(Clone, Copy)]
struct Device<'a> {
    taken: &'a Cell<usize>,
    most: usize,
    interrupted: &'a Cell<u32>,
}

impl Write for Device<'_> {
    fn write(&mut self, piece: &[u8]) -> io::Result<usize> {
        let left = self.interrupted.get();
        if left > 0 {
            self.interrupted.set(left - 1);
            return Err(io::Error::from(ErrorKind::Interrupted));
        }
        let taken = self.taken.get();
        if piece.is_empty() || taken >= self.most || TEXT.get(taken) != piece.first() {
            return Err(io::Error::from(ErrorKind::StorageFull));
        }
        self.taken.set(taken.saturating_add(1));
        Ok(1)
    }

    fn flush(&mut self) -> io::Result<()> {
        Ok(())
    }
}

/// Input that has these bytes for its first read and none for a later one, and counts its reads.
#[derive(Clone, Copy)]
struct Typed<'a> {
    bytes: &'a [u8; 4],
    reads: &'a Cell<u32>,
}

impl Read for Typed<'_> {
    fn read(&mut self, room: &mut [u8]) -> io::Result<usize> {
        let before = self.reads.get();
        self.reads.set(before.saturating_add(1));
        if before > 0 || room.len() < self.bytes.len() {
            return Ok(0);
        }
        let bytes = self.bytes;
        room[..4].copy_from_slice(bytes);
        Ok(4)
    }
}

/// That what was taken goes out as it is flushed or finished, no byte twice, also where a hundred calls are
/// interrupted; and that bytes that were read ahead are ready, and given without a read.
#[test]
fn held_bytes_go_out(rt: HostRuntime) -> Result<(), Fail> {
    for calls in [0, 1, 100] {
        let (taken, interrupted, reads) = (Cell::new(0), Cell::new(calls), Cell::new(0));
        let device = Device {
            taken: &taken,
            most: 10,
            interrupted: &interrupted,
        };
        let typed = Typed {
            bytes: b"abcd",
            reads: &reads,
        };
        let mut output = BufferedSink::over(rt.alloc(), StdSink::over(device));
        let mut source = StdSource::ahead(rt.alloc(), typed);
        let mut room = [0u8; 3];
        assert!(rt; output.write(b"some") == Ok(4));
        assert!(rt; taken.get() == 0 && source.ready() == 0);
        assert!(rt; output.flush() == Ok(()) && taken.get() == 4);
        assert!(rt; source.read(&mut room) == Ok(3) && &room == b"abc");
        assert!(rt; source.ready() == 1 && reads.get() == 1);
        assert!(rt; output.write(b" by") == Ok(3) && taken.get() == 4);
        assert!(rt; source.read(&mut room) == Ok(1) && room[0] == b'd');
        assert!(rt; source.ready() == 0 && reads.get() == 1);
        assert!(rt; output.write(b"tes") == Ok(3) && taken.get() == 4);
        assert!(rt; output.finish() == Ok(()) && taken.get() == 10);
    }
    Ok(())
}

/// That once a device that is full couldn't take all, what it didn't take is still held, and each flush fails.
#[test]
fn a_full_device_is_a_write_fault(rt: HostRuntime) -> Result<(), Fail> {
    let (taken, interrupted) = (Cell::new(0), Cell::new(0));
    let device = Device {
        taken: &taken,
        most: 7,
        interrupted: &interrupted,
    };
    let mut output = BufferedSink::over(rt.alloc(), StdSink::over(device));
    assert!(rt; output.write(TEXT) == Ok(10));
    assert!(rt; output.flush().is_err() && taken.get() == 7);
    assert!(rt; output.flush().is_err() && output.finish().is_err());
    assert!(rt; taken.get() == 7);
    Ok(())
}
