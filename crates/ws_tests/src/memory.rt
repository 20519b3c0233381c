//! Calls in which an allocation is refused: `rt try --test --fail-alloc N` refuses the Nth.
use crate::whole::{Said, perform};
use std::alloc::Global;
use std::sync::Wait;
use std::test::Fail;
use std::thread::Threads;
use ws_io::{MemSink, MemSource, Status};
use ws_value::NoMemory;

/// What is said to the program with its input, and what it writes.
static CALLS: [(Said, &[u8], &[u8]); 3] = [
    (
        Said {
            words: &[b"run"],
            file: b"",
            failed_loads: &[],
        },
        b"abcdefghij",
        b"abcdefghij",
    ),
    (
        Said {
            words: &[b"run", b"p"],
            file: b"version = 1\n[[stage]]\nkind = \"lines\"\n[[stage]]\nkind = \"number\"\n",
            failed_loads: &[],
        },
        b"ab\ncde\nf",
        b"1 ab\n2 cde\n3 f",
    ),
    (
        Said {
            words: &[b"script"],
            file: b"",
            failed_loads: &[],
        },
        b"readable 0 count now\nreader s0\nread l0\nenqueue s0 n1\n",
        b"1 made s0\n2 lock l0\n3 promise p0\n  host h0 pull s0\n4 done\n  p0 given n1\n",
    ),
];

/// Whether a call writes this, or a first part of it where memory can't be had.
fn writes<R: Threads + Wait + Sync>(
    rt: &R,
    alloc: Global,
    said: Said,
    input: &[u8],
    written: &[u8],
) -> Result<bool, NoMemory> {
    let mut input = MemSource::make(alloc, input, &[3], &[])?;
    let mut output = MemSink::make(alloc, written.len(), &[2], &[], &[])?;
    let mut notes = MemSink::make(alloc, 16, &[5], &[], &[])?;
    let status = perform(rt, alloc, said, &mut input, &mut output, &mut notes)?;
    Ok(match status {
        Status::Done => output.got() == written && output.finished(),
        Status::NoMemory => written.starts_with(output.got()) && !output.finished(),
        _ => false,
    })
}

/// That where an allocation is refused, which no gate does, a call ends with status 7 or as if it weren't, and has
/// written a first part.
#[test]
fn a_refused_allocation(rt: HostRuntime) -> Result<(), Fail> {
    for (number, (said, input, written)) in CALLS.iter().enumerate() {
        match writes(&rt, rt.alloc(), *said, input, written) {
            Ok(holds) => assert!(rt; holds, "case {number}"),
            Err(NoMemory) => {}
        }
    }
    Ok(())
}
