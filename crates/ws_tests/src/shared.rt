//! A source, a sink and a gate that see how many bytes were written.
ghost use Rattle.std.specs.Prelude.{None};
ghost use Rattle.ws_io.specs.Gain.{straight};

use crate::whole::{Said, perform_at};
use std::alloc::Global;
use std::sync::Wait;
use std::sync::atomic::{AtomicBool, AtomicU64, Ordering};
use std::test::Fail;
use std::thread::{Threads, yield_now};
use ws_io::{Failed, Gate, MemSink, Sink, Source, Status};
use ws_value::NoMemory;

const SAID: Said = Said {
    words: &[b"run", b"p"],
    file: b"version = 1\nworkers = 2\n[[stage]]\nkind = \"mask\"\nkey = \"01\"\n[[stage]]\nkind = \"hex\"\nworker = 2\n",
    failed_loads: &[],
};

/// How often so many bytes `a` are read, and how many bytes come out for each read.
const READS: u64 = 200;

const READ: usize = 16;

const EACH: u64 = 32;

/// How many bytes the sink took, and what worker 2 saw of it. In its first turn it looks so often.
#[derive(Drop)]
struct Watch {
    taken: AtomicU64,
    looks: u32,
    was_zero: AtomicBool,
    was_between: AtomicBool,
}

impl Watch {
    fn new(looks: u32) -> Watch {
        Watch {
            taken: AtomicU64::new(0),
            looks,
            was_zero: AtomicBool::new(false),
            was_between: AtomicBool::new(false),
        }
    }

    fn taken(&self) -> u64 {
        self.taken.load(Ordering::SeqCst)
    }

    fn hold(&self) {
        for _ in 0..self.looks {
            yield_now();
            self.was_zero.store(self.taken() == 0, Ordering::SeqCst);
        }
    }

    /// Whether nothing was written while worker 2 was held, and it had a turn while some was written and some wasn't.
    fn has_seen(&self) -> bool {
        self.was_zero.load(Ordering::SeqCst) && self.was_between.load(Ordering::SeqCst)
    }
}

impl Gate for Watch {
    fn enter(&self, worker: u32, turn: u64) {
        if worker != 2 {
            return;
        }
        if turn == 1 {
            self.hold();
            return;
        }
        let taken = self.taken();
        if taken > 0 && taken < EACH * READS {
            self.was_between.store(true, Ordering::SeqCst);
        }
    }
}

/// Read k, from 1, fails where fewer than 32 * (k - 41) bytes were written.
#[derive(Drop)]
struct Watched<'a> {
    watch: &'a Watch,
    reads: u64,
    count: u64,
}

impl Source for Watched<'_> {
    ghost faults = { λ s. s.count };

    ghost feed = { λ s. None };

    fn read(&mut self, room: &mut [u8]) -> Result<usize, Failed> {
        let least = self.reads.saturating_sub(40).saturating_mul(EACH);
        if self.watch.taken() < least || room.len() < READ {
            self.count = self.count.saturating_add(1);
            return Err(Failed);
        }
        self.reads = self.reads.saturating_add(1);
        if self.reads > READS {
            return Ok(0);
        }
        room[..READ].fill(b'a');
        Ok(READ)
    }

    fn ready(&self) -> usize {
        0
    }
}

/// A write fails where its bytes aren't the next of the text `60`, again and again.
#[derive(Drop)]
struct Counted<'a> {
    watch: &'a Watch,
    count: u64,
}

/// Whether these are the bytes of that text from a place on.
fn are_next(place: u64, piece: &[u8]) -> bool {
    let mut is_first = place % 2 == 0;
    for byte in piece {
        let wanted = if is_first { b'6' } else { b'0' };
        if *byte != wanted {
            return false;
        }
        is_first = !is_first;
    }
    true
}

impl Sink for Counted<'_> {
    ghost faults = { λ s. s.count };

    ghost got = { λ s. straight (λ xs. ⊥) };

    ghost finished = { λ s. None };

    fn write(&mut self, piece: &[u8]) -> Result<usize, Failed> {
        let place = self.watch.taken();
        if !are_next(place, piece) {
            self.count = self.count.saturating_add(1);
            return Err(Failed);
        }
        let taken = place.saturating_add(piece.len() as u64);
        self.watch.taken.store(taken, Ordering::SeqCst);
        Ok(piece.len())
    }

    fn flush(&mut self) -> Result<(), Failed> {
        Ok(())
    }

    fn finish(&mut self) -> Result<(), Failed> {
        Ok(())
    }
}

/// How a run ends.
fn run<R: Threads + Wait + Sync>(rt: &R, alloc: Global, watch: &Watch) -> Result<Status, NoMemory> {
    let mut input = Watched {
        watch,
        reads: 0,
        count: 0,
    };
    let mut output = Counted { watch, count: 0 };
    let mut notes = MemSink::make(alloc, 16, &[5], &[], &[])?;
    perform_at(rt, alloc, SAID, &mut input, &mut output, &mut notes, watch)
}

/// That at most forty reads are made ahead of what is written, also while worker 2 is held in its first turn for a
/// million looks, and that what is written goes through worker 2.
#[test]
fn bytes_go_through_the_workers(rt: HostRuntime) -> Result<(), Fail> {
    for looks in [1, 1_000_000] {
        let watch = Watch::new(looks);
        assert!(rt;
            run(&rt, rt.alloc(), &watch)? == Status::Done,
            "{looks} looks"
        );
        assert!(rt; watch.taken() == EACH * READS, "{looks} looks");
        assert!(rt; looks == 1 || watch.has_seen());
    }
    Ok(())
}
