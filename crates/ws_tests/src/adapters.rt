//! The adapters over std, over a reader and a writer that move one byte a call, of which some are interrupted.
use crate::whole::{Said, perform};
use std::alloc::Global;
use std::cell::Cell;
use std::io::{self, ErrorKind, Read, Write};
use std::sync::Wait;
use std::test::Fail;
use std::thread::Threads;
use ws_io::{Files, LoadRefused, Status, StdFiles, StdSink, StdSource};
use ws_value::{NoMemory, Text};

const TEXT: &[u8] = b"some bytes";

/// So many calls are interrupted before one isn't.
#[derive(Drop)]
struct Interrupted {
    left: u32,
}

impl Interrupted {
    fn call(&mut self) -> io::Result<()> {
        if self.left == 0 {
            return Ok(());
        }
        self.left -= 1;
        Err(io::Error::from(ErrorKind::Interrupted))
    }
}

/// A reader that gives the text.
#[derive(Drop)]
struct SlowReader {
    given: usize,
    interrupted: Interrupted,
}

impl Read for SlowReader {
    fn read(&mut self, room: &mut [u8]) -> io::Result<usize> {
        self.interrupted.call()?;
        match (TEXT.get(self.given), room.first_mut()) {
            (Some(byte), Some(first)) => {
                *first = *byte;
                self.given += 1;
                Ok(1)
            }
            _ => Ok(0),
        }
    }
}

/// A writer that counts the bytes that it takes, and takes none where one isn't the text's next.
#[derive(Drop)]
struct SlowWriter<'a> {
    taken: &'a Cell<usize>,
    interrupted: Interrupted,
    flushes_interrupted: Interrupted,
}

impl Write for SlowWriter<'_> {
    fn write(&mut self, piece: &[u8]) -> io::Result<usize> {
        self.interrupted.call()?;
        let taken = self.taken.get();
        if piece.is_empty() || TEXT.get(taken) != piece.first() {
            return Ok(0);
        }
        self.taken.set(taken.saturating_add(1));
        Ok(1)
    }

    fn flush(&mut self) -> io::Result<()> {
        self.flushes_interrupted.call()
    }
}

/// How a copy ends of which so many first reads, writes and flushes are interrupted, and how many bytes came out.
fn copied<R: Threads + Wait + Sync>(
    rt: &R,
    alloc: Global,
    reads: u32,
    writes: u32,
    flushes: u32,
) -> Result<(Status, usize), NoMemory> {
    let taken = Cell::new(0);
    let mut input = StdSource::over(
        alloc,
        SlowReader {
            given: 0,
            interrupted: Interrupted { left: reads },
        },
    );
    let mut output = StdSink::over(SlowWriter {
        taken: &taken,
        interrupted: Interrupted { left: writes },
        flushes_interrupted: Interrupted { left: flushes },
    });
    let mut notes = StdSink::over(io::sink());
    let said = Said {
        words: &[b"run"],
        file: b"",
        failed_loads: &[],
    };
    let status = perform(rt, alloc, said, &mut input, &mut output, &mut notes)?;
    Ok((status, taken.get()))
}

/// That a call of the system's that is interrupted is made again a hundred times; and that a name that isn't UTF-8
/// names no file, which no word of the program can be.
#[test]
fn interrupted_calls(rt: HostRuntime) -> Result<(), Fail> {
    for (reads, writes, flushes, status, count) in [
        (0, 0, 0, Status::Done, 10),
        (100, 100, 100, Status::Done, 10),
        (101, 0, 0, Status::ReadFault, 0),
        (0, 101, 0, Status::WriteFault, 0),
        // a flush comes before the first read
        (0, 0, 101, Status::WriteFault, 0),
    ] {
        let ended = copied(&rt, rt.alloc(), reads, writes, flushes)?;
        assert!(rt; ended == (status, count), "{reads} {writes} {flushes}");
    }
    let name = Text::of(rt.alloc(), b"\xff\xfe")?;
    let loaded = StdFiles::over(&rt).load(rt.alloc(), &name);
    assert!(rt; matches!(loaded, Err(LoadRefused::Failed)));
    Ok(())
}
