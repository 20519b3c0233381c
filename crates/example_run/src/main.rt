//! An example of a run: a pipeline over bytes in memory, which cuts them into lines and numbers these.
#![tactic(auto)]

use std::alloc::Global;
use std::io::{self, Write};
use std::sync::Wait;
use std::thread::Threads;
use ws_io::{MemSink, MemSource, OpenGate, Status};
use ws_plan::{PlanRefused, read_plan};
use ws_runner::run_nodes;
use ws_value::NoMemory;

/// The pipeline file.
const FILE: &'static str =
    "version = 1\n[[stage]]\nkind = \"lines\"\nmax = 80\n[[stage]]\nkind = \"number\"\n";

/// What is read in one call, and what is written in one, at most.
const MOST: [u64; 1] = [4096];

/// Why the example ends early.
#[derive(Debug, Drop)]
enum Failed {
    NoMemory,
    /// The file says no pipeline.
    Plan,
    /// The run didn't end well.
    Run,
    Output(io::Error),
}

impl From<NoMemory> for Failed {
    fn from(_: NoMemory) -> Failed {
        Failed::NoMemory
    }
}

impl From<PlanRefused> for Failed {
    fn from(_: PlanRefused) -> Failed {
        Failed::Plan
    }
}

impl From<io::Error> for Failed {
    fn from(error: io::Error) -> Failed {
        Failed::Output(error)
    }
}

/// Runs the pipeline that a text says, over bytes in memory.
fn run_text<R: Threads + Wait + Sync>(
    rt: &R,
    alloc: Global,
    text: &[u8],
    input: &mut MemSource,
    output: &mut MemSink,
) -> Result<Status, PlanRefused> {
    match read_plan(alloc, text) {
        Ok(plan) => Ok(run_nodes(rt, alloc, &plan, input, output, &OpenGate, false).status),
        Err(why) => Err(why),
    }
}

fn main(rt: HostRuntime) -> Result<(), Failed> {
    let alloc = rt.alloc();
    let mut input = MemSource::make(alloc, b"GET /a 200\nGET /b 404\n", &MOST, &[])?;
    let mut output = MemSink::make(alloc, 1000, &MOST, &[], &[])?;
    match run_text(&rt, alloc, FILE.as_bytes(), &mut input, &mut output)? {
        Status::Done => Ok(rt.stdout().write_all(output.got())?),
        _ => Err(Failed::Run),
    }
}
