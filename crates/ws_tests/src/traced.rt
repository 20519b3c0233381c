//! A traced run that ends with a write that fails.
use crate::whole::{Said, perform};
use std::alloc::Global;
use std::sync::Wait;
use std::test::Fail;
use std::thread::Threads;
use ws_io::{MemSink, MemSource, Status};
use ws_value::NoMemory;

const SAID: Said = Said {
    words: &[b"run", b"--trace", b"p"],
    file: b"version = 1\nworkers = 3\n[[stage]]\nkind = \"fixed\"\nn = 4\n[[stage]]\nkind = \"hex\"\nworker = 2\n[[stage]]\nkind = \"unhex\"\nworker = 3\n",
    failed_loads: &[],
};

/// How often the letters `abcdefghijkl` are read, which with the rest makes 4,000 bytes.
const TIMES: usize = 333;

fn text(alloc: Global) -> Result<Vec<u8>, NoMemory> {
    let mut text = Vec::new(alloc);
    for _ in 0..TIMES {
        text.extend_from_slice(b"abcdefghijkl")?;
    }
    text.extend_from_slice(b"abcd")?;
    Ok(text)
}

/// Whether the line says that an error went up an edge behind what else did, and how much of it was taken, which is no
/// more.
fn is_error_up(line: &str) -> bool {
    let Some((sent, taken)) = line.split_once(" error taken ") else {
        return false;
    };
    let Some((edge, pulls)) = sent.split_once(" up") else {
        return false;
    };
    let Ok(taken) = taken.parse::<usize>() else {
        return false;
    };
    edge.starts_with("edge ") && taken <= pulls.split_whitespace().count() + 1
}

/// How a run ends of which each read gives four bytes, the third write takes two and the fourth fails, what it writes,
/// and what it says.
fn run<R: Threads + Wait + Sync>(
    rt: &R,
    alloc: Global,
) -> Result<(Status, MemSink, MemSink), NoMemory> {
    let mut input = MemSource::make(alloc, &text(alloc)?, &[4], &[])?;
    let mut output = MemSink::make(alloc, 4000, &[4096, 4096, 2], &[4], &[])?;
    let mut notes = MemSink::make(alloc, 100_000, &[4096], &[], &[])?;
    let status = perform(rt, alloc, SAID, &mut input, &mut output, &mut notes)?;
    Ok((status, output, notes))
}

/// That an error goes up each edge, as its trace tells.
#[test]
fn three_workers_failing_sink_traced(rt: HostRuntime) -> Result<(), Fail> {
    let (status, output, notes) = run(&rt, rt.alloc())?;
    assert!(rt; status == Status::WriteFault);
    assert!(rt; output.got() == b"abcdefghij".as_slice());
    let told = str::from_utf8(notes.got())?;
    assert!(rt; told.lines().filter(|line| is_error_up(line)).count() == 4);
    assert!(rt; told.lines().count() == 9);
    Ok(())
}
