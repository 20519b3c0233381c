//! Workers that run by themselves: a gate holds one of them until another has gone on.
use crate::whole::{Said, perform_at};
use std::alloc::Global;
use std::sync::Wait;
use std::sync::atomic::{AtomicBool, Ordering};
use std::test::Fail;
use std::thread::{Threads, yield_now};
use ws_io::{Gate, MemSink, MemSource, Status};
use ws_value::NoMemory;

/// How often a held worker looks whether it may go on.
const MOST_LOOKS: u32 = 10_000_000;

const SAID: Said = Said {
    words: &[b"run", b"p"],
    file: b"version = 1\nworkers = 2\n[[stage]]\nkind = \"lines\"\n[[stage]]\nkind = \"number\"\nworker = 2\n",
    failed_loads: &[],
};

/// Holds worker 1 in its first turn until worker 2 has entered a turn of its own.
#[derive(Drop)]
struct Holds {
    until: u64,
    entered: AtomicBool,
    in_time: AtomicBool,
}

impl Holds {
    /// Until worker 2 has entered this turn.
    fn until(turn: u64) -> Holds {
        Holds {
            until: turn,
            entered: AtomicBool::new(false),
            in_time: AtomicBool::new(false),
        }
    }

    fn hold(&self) {
        for _ in 0..MOST_LOOKS {
            if self.entered.load(Ordering::SeqCst) {
                self.in_time.store(true, Ordering::SeqCst);
                return;
            }
            yield_now();
        }
    }
}

impl Gate for Holds {
    fn enter(&self, worker: u32, turn: u64) {
        if worker == 2 && turn == self.until {
            self.entered.store(true, Ordering::SeqCst);
        }
        if worker == 1 && turn == 1 {
            self.hold();
        }
    }
}

/// Whether a run ends well while the gate holds worker 1, and writes what it is to write.
fn runs<R: Threads + Wait + Sync>(rt: &R, alloc: Global, gate: &Holds) -> Result<bool, NoMemory> {
    let mut input = MemSource::make(alloc, b"GET /a 200\nGET /b 404\n", &[7], &[])?;
    let mut output = MemSink::make(alloc, 100, &[5], &[], &[])?;
    let mut notes = MemSink::make(alloc, 16, &[5], &[], &[])?;
    let status = perform_at(rt, alloc, SAID, &mut input, &mut output, &mut notes, gate)?;
    Ok(status == Status::Done && output.got() == b"1 GET /a 200\n2 GET /b 404\n".as_slice())
}

/// Worker 1 waits in its first turn for the first turn of worker 2.
#[test]
fn workers_run_beside_each_other(rt: HostRuntime) -> Result<(), Fail> {
    let gate = Holds::until(1);
    assert!(rt; runs(&rt, rt.alloc(), &gate)?);
    assert!(rt; gate.in_time.load(Ordering::SeqCst));
    Ok(())
}

/// Worker 1 waits in its first turn for the second turn of worker 2.
#[test]
fn workers_run_in_no_rounds(rt: HostRuntime) -> Result<(), Fail> {
    let gate = Holds::until(2);
    assert!(rt; runs(&rt, rt.alloc(), &gate)?);
    assert!(rt; gate.in_time.load(Ordering::SeqCst));
    Ok(())
}
