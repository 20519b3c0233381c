//! The program over objects in memory.
use std::alloc::Global;
use std::sync::Wait;
use std::thread::Threads;
use ws_cli::top;
use ws_io::{Gate, MemFiles, OpenGate, Sink, Source, Status};
use ws_value::{NoMemory, Text};

/// What is said to the program, the text of the file `p`, and the loads that fail.
#[derive(Clone, Copy)]
pub(crate) struct Said<'a> {
    pub(crate) words: &'a [&'a [u8]],
    pub(crate) file: &'a [u8],
    pub(crate) failed_loads: &'a [u64],
}

/// How the program ends.
pub(crate) fn perform<R: Threads + Wait + Sync, S: Source, K: Sink, E: Sink>(
    rt: &R,
    alloc: Global,
    said: Said,
    input: &mut S,
    output: &mut K,
    notes: &mut E,
) -> Result<Status, NoMemory> {
    perform_at(rt, alloc, said, input, output, notes, &OpenGate)
}

/// The same, with a gate that its workers enter.
pub(crate) fn perform_at<R: Threads + Wait + Sync, S: Source, K: Sink, E: Sink, G: Gate>(
    rt: &R,
    alloc: Global,
    said: Said,
    input: &mut S,
    output: &mut K,
    notes: &mut E,
    gate: &G,
) -> Result<Status, NoMemory> {
    let mut words = Vec::new(alloc);
    for word in said.words {
        words.push(Text::of(alloc, word)?)?;
    }
    let mut files = MemFiles::make(alloc, said.failed_loads)?;
    files.add(&Text::of(alloc, b"p")?, said.file)?;
    Ok(top(rt, alloc, &words, &mut files, input, output, notes, gate))
}
