//! The runs of a pipeline: that of a file, and that without stages.
ghost use Rattle.std.specs.Prelude.{◌≡◌, ◌^◌, []};
ghost use Rattle.ws_io.specs.Emptied.{LeavesNothing};
ghost use Rattle.ws_io.specs.Gain.{IsEmptied};
ghost use Rattle.ws_io.specs.Moment.{moment};
ghost use Rattle.ws_node_rules.specs.Copies.{Copies};
ghost use Rattle.ws_cli.specs.Check.{shelf};
ghost use Rattle.ws_cli.specs.Planned.{PerformsRun};

use crate::file::load_plan;
use std::alloc::Global;
use std::sync::Wait;
use std::thread::Threads;
use ws_flow::Plan;
use ws_io::{Files, Gate, Sink, Source, Status};
use ws_runner::{Finished, run_nodes};
use ws_value::Text;

/// The most bytes of input of a run without a pipeline file.
pub const MAX_INPUT: i64 = 1 << 40;

/// How a command without edges ended.
pub fn without_edges(alloc: Global, status: Status) -> Finished
    ensures status { result.status ≡ status }
    ensures edges { result.edges.items ≡ [] }
{
    Finished {
        status,
        edges: Vec::new(alloc),
    }
}

/// Runs the plan without stages and workers: the input is copied.
pub fn run_copy<R: Threads + Wait + Sync, S: Source, K: Sink, G: Gate>(
    rt: &R,
    alloc: Global,
    input: &mut S,
    output: &mut K,
    gate: &G,
) -> Status
    ensures copies { Copies result (2 ^ 40) 4096
        (moment (S.faults input.old) (S.feed input.old) (K.faults output.old) (K.finished output.old))
        (moment (S.faults input.new) (S.feed input.new) (K.faults output.new) (K.finished output.new))
        (K.got output.old) (K.got output.new) }
    ensures emptied { LeavesNothing result (K.got output.new) }
{
    let plan = Plan {
        workers: 0,
        abort_after: None,
        max_input: MAX_INPUT,
        stages: Vec::new(alloc),
    };
    let finished = run_nodes(rt, alloc, &plan, input, output, gate, false);
    finished.status
}

/// Loads a pipeline file, and runs its plan. Nothing is read or written where there is no plan.
pub fn run_file<R: Threads + Wait + Sync, F: Files, S: Source, K: Sink, G: Gate>(
    rt: &R,
    alloc: Global,
    files: &mut F,
    name: &Text,
    input: &mut S,
    output: &mut K,
    gate: &G,
    trace: bool,
) -> Finished
    ensures performs { PerformsRun result.status result.edges.items trace name.now
        input.old input.new output.old output.new
        (shelf (F.texts files.old) (F.faults files.old) (F.loads files.old))
        (shelf (F.texts files.new) (F.faults files.new) (F.loads files.new))
        (moment (S.faults input.old) (S.feed input.old) (K.faults output.old) (K.finished output.old))
        (moment (S.faults input.new) (S.feed input.new) (K.faults output.new) (K.finished output.new))
        (K.got output.old) (K.got output.new) }
    ensures texts { F.texts files.new ≡ F.texts files.old }
    ensures emptied { IsEmptied (K.got output.old) → LeavesNothing result.status (K.got output.new) }
{
    match load_plan(alloc, files, name) {
        Ok(plan) => run_nodes(rt, alloc, &plan, input, output, gate, trace),
        Err(status) => without_edges(alloc, status),
    }
}
