//! A run of a plan, from the making of its nodes to its status.
ghost use Rattle.std.specs.Prelude.{◌≡◌, ◌+◌, ◌≤◌, [], true, false, IfOk, int_le, nat_abs, pos, vec_capacity};
ghost use Rattle.ws_io.specs.Emptied.{LeavesNothing};
ghost use Rattle.ws_io.specs.Moment.{moment};
ghost use Rattle.ws_node.specs.Ends.{Ends};
ghost use Rattle.ws_node.specs.Opening.{IsAccepted};
ghost use Rattle.ws_runner.specs.Trace.{Finishes};
ghost use Rattle.ws_runner.specs.Written.{IsWritten, unwritten};

use crate::chain::Chain;
use crate::ready::Ready;
use crate::running::drive_chain;
use crate::trace::{EdgeTrace, Finished};
use std::alloc::Global;
use std::sync::{Wait, WaitMethods};
use std::thread::Threads;
use ws_io::{Failed, Gate, Sink, Source, Status};
use ws_node::{Turn, Whole};
use ws_realm::NoMemory;
use ws_stages::Plan;

/// Runs a plan: what its stages make of the input is written to the output, which is then finished. Without stages at
/// most one piece of 4,096 bytes is read and not yet written.
///
/// A plan without workers has one node. One with workers has a node for each, between one that reads the input and one
/// that writes the output. Each worker's node is driven on a thread of its own, the two others and those of workers
/// that are refused a thread on the caller's; at the start of each turn of a worker the gate is entered with its number
/// and the turn's, both from 1. All nodes are made before the first turn. A realm that is spent, after 2^62 calls and
/// jobs, does nothing more: no status stands for it, and the call doesn't return then.
///
/// A run with workers that is traced tells what went over each of its edges. Room for that is taken before the first
/// turn.
pub fn run_nodes<R: Threads + Wait + Sync, S: Source, K: Sink, G: Gate>(
    rt: &R,
    alloc: Global,
    plan: &Plan,
    input: &mut S,
    output: &mut K,
    gate: &G,
    trace: bool,
) -> Finished
    requires { IsAccepted plan.now }
    ensures finishes { Finishes result plan.now trace
        (moment (S.faults input.old) (S.feed input.old) (K.faults output.old) (K.finished output.old))
        (moment (S.faults input.new) (S.feed input.new) (K.faults output.new) (K.finished output.new))
        (K.got output.old) (K.got output.new) }
    ensures emptied { LeavesNothing result.status (K.got output.new) }
{
    let finished = run_plan(rt, alloc, plan, input, output, gate, trace);
    end(finished, output)
}

/// The same, but that the output may still hold back what was written.
fn run_plan<R: Threads + Wait + Sync, S: Source, K: Sink, G: Gate>(
    rt: &R,
    alloc: Global,
    plan: &Plan,
    input: &mut S,
    output: &mut K,
    gate: &G,
    trace: bool,
) -> Finished
    requires { IsAccepted plan.now }
    ensures { Finishes result plan.now trace
        (moment (S.faults input.old) (S.feed input.old) (K.faults output.old) (K.finished output.old))
        (moment (S.faults input.new) (S.feed input.new) (K.faults output.new) (K.finished output.new))
        (K.got output.old) (K.got output.new) }
{
    if plan.workers > 0 {
        return run_chain(rt, alloc, plan, input, output, gate, trace);
    }
    Finished {
        status: run_whole(rt, alloc, plan, input, output),
        edges: Vec::new(alloc),
    }
}

/// The status of a run whose output couldn't be written to the end.
fn unwritten(status: Status) -> Status
    ensures { result ≡ unwritten status }
{
    match status {
        Status::NoMemory => Status::NoMemory,
        _ => Status::WriteFault,
    }
}

/// Writes what the output of a run holds back, but of one that is finished, which holds nothing.
fn end<K: Sink>(finished: Finished, output: &mut K) -> Finished
    ensures { IsWritten finished result
        (record { faults = K.faults output.old; finished = K.finished output.old })
        (record { faults = K.faults output.new; finished = K.finished output.new })
        (K.got output.old) (K.got output.new) }
{
    let Finished { status, edges } = finished;
    if let Status::Done = status {
        return Finished { status, edges };
    }
    match output.flush() {
        Ok(()) => Finished { status, edges },
        Err(Failed) => Finished {
            status: unwritten(status),
            edges,
        },
    }
}

/// A run of one node with all stages.
fn run_whole<R: Wait, S: Source, K: Sink>(
    rt: &R,
    alloc: Global,
    plan: &Plan,
    input: &mut S,
    output: &mut K,
) -> Status
    requires { IsAccepted plan.now }
    ensures { Ends result plan.now
        (moment (S.faults input.old) (S.feed input.old) (K.faults output.old) (K.finished output.old))
        (moment (S.faults input.new) (S.feed input.new) (K.faults output.new) (K.finished output.new))
        (K.got output.old) (K.got output.new) }
{
    let Ok(mut whole) = Whole::make(alloc, plan) else {
        return Status::NoMemory;
    };
    for _ in rt.forever() {
        match whole.turn(alloc, input, output) {
            Turn::Ended | Turn::NoMemory => {
                if let Some(status) = whole.status() {
                    return status;
                }
            }
            Turn::Worked | Turn::Idle | Turn::Spent => {}
        }
    }
    unreachable!()
}

/// Room for the traces of the edges of a run: one more than workers.
fn room_for_edges(alloc: Global, plan: &Plan, trace: bool) -> Result<Vec<EdgeTrace>, NoMemory>
    requires { IsAccepted plan.now }
    ensures none { IfOk result (λ edges. edges.items ≡ []) }
    ensures room { IfOk result (λ edges. trace ≡ true → nat_abs plan.now.workers + 1 ≤ vec_capacity edges) }
{
    if !trace {
        return Ok(Vec::new(alloc));
    }
    Ok(Vec::with_capacity(alloc, plan.workers.unsigned_abs() as usize + 1)?)
}

/// A run that found no memory before its first turn.
fn begun_without_memory(alloc: Global) -> Finished
    ensures status { result.status ≡ Status.NoMemory }
    ensures edges { result.edges.items ≡ [] }
{
    Finished {
        status: Status::NoMemory,
        edges: Vec::new(alloc),
    }
}

/// A run of a node for each worker, between one that has the input and one that has the output.
fn run_chain<R: Threads + Wait + Sync, S: Source, K: Sink, G: Gate>(
    rt: &R,
    alloc: Global,
    plan: &Plan,
    input: &mut S,
    output: &mut K,
    gate: &G,
    trace: bool,
) -> Finished
    requires accepted { IsAccepted plan.now }
    requires workers { int_le plan.now.workers (pos 0) ≡ false }
    ensures { Finishes result plan.now trace
        (moment (S.faults input.old) (S.feed input.old) (K.faults output.old) (K.finished output.old))
        (moment (S.faults input.new) (S.feed input.new) (K.faults output.new) (K.finished output.new))
        (K.got output.old) (K.got output.new) }
{
    let Ok(edges) = room_for_edges(alloc, plan, trace) else {
        return begun_without_memory(alloc);
    };
    let Ok(mut chain) = Chain::make(alloc, plan, trace) else {
        return begun_without_memory(alloc);
    };
    let Ok((ready, bells)) = Ready::make(alloc, chain.middles.len()) else {
        return begun_without_memory(alloc);
    };
    let status = drive_chain(rt, alloc, &mut chain, ready, &bells, input, output, gate);
    Finished {
        status,
        edges: chain.meet(edges),
    }
}
