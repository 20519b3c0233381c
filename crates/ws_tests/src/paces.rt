//! Runs over a source that fails where it is asked too soon, and a sink that fails at a wrong byte, behind a buffer: what
//! is held there goes out before the source is asked.
ghost use Rattle.std.specs.Prelude.{None};
ghost use Rattle.ws_io.specs.Gain.{straight};

use crate::whole::{Said, perform};
use std::alloc::Global;
use std::cell::Cell;
use std::sync::Wait;
use std::test::Fail;
use std::thread::Threads;
use ws_io::{BufferedSink, Failed, MemSink, Sink, Source, Status};
use ws_value::NoMemory;

/// A run over a text whose lines have so many bytes.
#[derive(Clone, Copy)]
struct Pace<'a> {
    said: Said<'a>,
    line: u64,
    total: u64,
    most_read: u64,
    most_written: usize,
    /// How many reads may lie between the source and the sink, and the fewest bytes that are written for each.
    ahead: u64,
    each: u64,
    /// How many bytes come out, and whether they are those of the text.
    written: u64,
    is_copy: bool,
}

/// The byte of the text at a place.
fn byte_at(place: u64, line: u64) -> u8 {
    let column = place % line.max(1);
    if column.saturating_add(1) >= line {
        return b'\n';
    }
    b'a' + (column % 26) as u8
}

/// Writes the text's bytes from a place on.
fn fill(place: u64, line: u64, room: &mut [u8]) {
    let mut next = place;
    for byte in room.iter_mut() {
        *byte = byte_at(next, line);
        next = next.saturating_add(1);
    }
}

/// Whether these are the text's bytes from a place on.
fn are_next(place: u64, line: u64, piece: &[u8]) -> bool {
    let mut next = place;
    for byte in piece {
        if *byte != byte_at(next, line) {
            return false;
        }
        next = next.saturating_add(1);
    }
    true
}

#[derive(Drop)]
struct PacedSource<'a> {
    pace: &'a Pace<'a>,
    written: &'a Cell<u64>,
    place: u64,
    reads: u64,
    count: u64,
}

impl Source for PacedSource<'_> {
    ghost faults = { λ s. s.count };

    ghost feed = { λ s. None };

    fn read(&mut self, room: &mut [u8]) -> Result<usize, Failed> {
        let passed = self.reads.saturating_sub(self.pace.ahead);
        let least = if self.pace.is_copy {
            self.place
        } else {
            passed.saturating_mul(self.pace.each)
        };
        if self.written.get() < least {
            self.count = self.count.saturating_add(1);
            return Err(Failed);
        }
        self.reads = self.reads.saturating_add(1);
        let left = self.pace.total.saturating_sub(self.place);
        let count = left.min(self.pace.most_read).min(room.len() as u64);
        fill(self.place, self.pace.line, &mut room[..count as usize]);
        self.place = self.place.saturating_add(count);
        Ok(count as usize)
    }

    fn ready(&self) -> usize {
        0
    }
}

#[derive(Drop)]
struct PacedSink<'a> {
    pace: &'a Pace<'a>,
    written: &'a Cell<u64>,
    count: u64,
}

impl Sink for PacedSink<'_> {
    ghost faults = { λ s. s.count };

    ghost got = { λ s. straight (λ xs. ⊥) };

    ghost finished = { λ s. None };

    fn write(&mut self, piece: &[u8]) -> Result<usize, Failed> {
        let place = self.written.get();
        if self.pace.is_copy && !are_next(place, self.pace.line, piece) {
            self.count = self.count.saturating_add(1);
            return Err(Failed);
        }
        let count = piece.len().min(self.pace.most_written.max(1));
        self.written.set(place.saturating_add(count as u64));
        Ok(count)
    }

    fn flush(&mut self) -> Result<(), Failed> {
        Ok(())
    }

    fn finish(&mut self) -> Result<(), Failed> {
        Ok(())
    }
}

/// How a run ends, and how many bytes came out.
fn paced<R: Threads + Wait + Sync>(
    rt: &R,
    alloc: Global,
    pace: &Pace,
) -> Result<(Status, u64), NoMemory> {
    let written = Cell::new(0);
    let mut input = PacedSource {
        pace,
        written: &written,
        place: 0,
        reads: 0,
        count: 0,
    };
    let sink = PacedSink {
        pace,
        written: &written,
        count: 0,
    };
    let mut output = BufferedSink::over(alloc, sink);
    let mut notes = MemSink::make(alloc, 16, &[5], &[], &[])?;
    let status = perform(rt, alloc, pace.said, &mut input, &mut output, &mut notes)?;
    Ok((status, written.get()))
}

/// A copy, of which all that was read is written before more is read.
const COPY: Pace = Pace {
    said: Said {
        words: &[b"run"],
        file: b"",
        failed_loads: &[1],
    },
    line: 251,
    total: 100_000,
    most_read: 1,
    most_written: 4095,
    ahead: 0,
    each: 0,
    written: 100_000,
    is_copy: true,
};

/// Lines that are numbered, of which at most nine lie in the source's stream, the three pipes, the four halves of
/// the two stages and the sink's stream.
const NUMBERED: Pace = Pace {
    said: Said {
        words: &[b"run", b"p"],
        file: b"version = 1\n[[stage]]\nkind = \"lines\"\n[[stage]]\nkind = \"number\"\n",
        failed_loads: &[2],
    },
    line: 16,
    total: 3200,
    most_read: 16,
    most_written: 1,
    ahead: 9,
    each: 18,
    written: 3892,
    is_copy: false,
};

/// Two workers, between which some blocks lie too.
const MASKED: Pace = Pace {
    said: Said {
        words: &[b"run", b"p"],
        file: b"version = 1\nworkers = 2\n[[stage]]\nkind = \"mask\"\nkey = \"01\"\n[[stage]]\nkind = \"hex\"\nworker = 2\n",
        failed_loads: &[2],
    },
    ahead: 40,
    each: 32,
    written: 6400,
    ..NUMBERED
};

static PACES: [Pace; 8] = [
    COPY,
    Pace {
        most_read: 7,
        most_written: 1,
        ..COPY
    },
    Pace {
        total: 1_000_000,
        most_read: 4096,
        written: 1_000_000,
        ..COPY
    },
    Pace {
        total: 1_000_000,
        most_read: 65_536,
        most_written: 10,
        written: 1_000_000,
        ..COPY
    },
    NUMBERED,
    Pace {
        most_written: 4096,
        ..NUMBERED
    },
    MASKED,
    Pace {
        most_written: 4096,
        ..MASKED
    },
];

/// That nothing is read before all that a copy read is written, nor far ahead of what a pipeline writes, and that a
/// copy's bytes come in order over a million of them.
#[test]
fn reads_wait_for_writes(rt: HostRuntime) -> Result<(), Fail> {
    for (number, pace) in PACES.iter().enumerate() {
        let ended = paced(&rt, rt.alloc(), pace)?;
        assert!(rt; ended == (Status::Done, pace.written), "case {number}");
    }
    Ok(())
}
