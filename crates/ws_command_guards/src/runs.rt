//! Runs of a plan.
ghost use Rattle.std.specs.Prelude.{IfOk, None};
ghost use Rattle.ws_io.specs.Emptied.{LeavesNothing};
ghost use Rattle.ws_io.specs.Moment.{moment};
ghost use Rattle.ws_node.specs.Ends.{EndsAs};
ghost use Rattle.ws_node.specs.Opening.{IsAccepted};
ghost use Rattle.ws_node.specs.Nodes.{HeadGoes, MiddleGoes, TailGoes};
ghost use Rattle.ws_node.specs.Past.{HasCounts, IsNew};
ghost use Rattle.ws_node.specs.Rules.{ReadsNear};
ghost use Rattle.ws_node.specs.Shares.{whole_of};
ghost use Rattle.ws_node.specs.Turns.{IsAlone, PostsHeard, TurnIs};
ghost use Rattle.ws_node.specs.Went.{Went};
ghost use Rattle.ws_runner.specs.Trace.{Finishes};

use std::alloc::Global;
use std::sync::Wait;
use std::thread::Threads;
use ws_io::{Gate, Sink, Source, Status};
use ws_node::{Head, Middle, Tail, Turn, Whole};
use ws_realm::NoMemory;
use ws_runner::Finished;
use ws_stages::Plan;

/// Runs a plan.
pub fn run_nodes<R: Threads + Wait + Sync, S: Source, K: Sink, G: Gate>(
    rt: &R,
    alloc: Global,
    plan: &Plan,
    input: &mut S,
    output: &mut K,
    gate: &G,
    trace: bool,
) -> Finished
    requires { IsAccepted plan.now }
    ensures finishes { Finishes result plan.now trace
        (moment (S.faults input.old) (S.feed input.old) (K.faults output.old) (K.finished output.old))
        (moment (S.faults input.new) (S.feed input.new) (K.faults output.new) (K.finished output.new))
        (K.got output.old) (K.got output.new) }
    ensures emptied { LeavesNothing result.status (K.got output.new) }
{
    ws_runner::run_nodes(rt, alloc, plan, input, output, gate, trace)
}

/// A node of a run of this plan.
pub fn make(alloc: Global, plan: &Plan) -> Result<Whole, NoMemory>
    requires { IsAccepted plan.now }
    ensures { IfOk result (IsNew (whole_of plan.now) 0 plan.now.abort_after) }
{
    Whole::make(alloc, plan)
}

/// One turn of a node.
pub fn turn<S: Source, K: Sink>(
    whole: &mut Whole,
    alloc: Global,
    input: &mut S,
    output: &mut K,
) -> Turn
    ensures went { Went whole.old whole.new
        (moment (S.faults input.old) (S.feed input.old) (K.faults output.old) (K.finished output.old))
        (moment (S.faults input.new) (S.feed input.new) (K.faults output.new) (K.finished output.new))
        (K.got output.old) (K.got output.new) }
    ensures turn { TurnIs result whole.old whole.new }
    ensures counts { HasCounts whole.new.entrance }
    ensures alone { IsAlone whole.old × IsAlone whole.new }
{
    whole.turn(alloc, input, output)
}

/// How the run of a node ends.
pub fn status(whole: &Whole) -> Option<Status>
    ensures ends { EndsAs result whole.now }
    ensures alone { IsAlone whole.now }
{
    whole.status()
}

/// One turn of the first node of a run with workers.
pub fn head_turn<S: Source>(head: &mut Head, alloc: Global, input: &mut S) -> Turn
    ensures went { HeadGoes (moment (S.faults input.old) (S.feed input.old) 0 None)
        (moment (S.faults input.new) (S.feed input.new) 0 None) head.old head.new }
    ensures turn { TurnIs result head.old head.new }
    ensures posts { PostsHeard head.old head.new }
    ensures near { ReadsNear head.new }
{
    head.turn(alloc, input)
}

/// One turn of a worker's node.
pub fn middle_turn(middle: &mut Middle, alloc: Global) -> Turn
    ensures went { MiddleGoes middle.old middle.new }
    ensures turn { TurnIs result middle.old middle.new }
    ensures posts { PostsHeard middle.old middle.new }
{
    middle.turn(alloc)
}

/// One turn of the last node.
pub fn tail_turn<K: Sink>(tail: &mut Tail, alloc: Global, output: &mut K) -> Turn
    ensures went { TailGoes (moment 0 None (K.faults output.old) (K.finished output.old))
        (moment 0 None (K.faults output.new) (K.finished output.new))
        (K.got output.old) (K.got output.new) tail.old tail.new }
    ensures turn { TurnIs result tail.old tail.new }
    ensures posts { PostsHeard tail.old tail.new }
{
    tail.turn(alloc, output)
}

/// How the last node of a run with workers ends.
pub fn tail_status(tail: &Tail) -> Option<Status>
    ensures { EndsAs result tail.now }
{
    tail.status()
}
