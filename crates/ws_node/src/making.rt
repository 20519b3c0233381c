//! A node as it is made: the source, a transform stream for each stage, and the sink; then the pipes between them.
ghost use Rattle.std.specs.Prelude.{◌≡◌, ◌+◌, ◌*◌, ◌<◌, ◌≤◌, ◌^◌, true, IfOk, OnOk, is_some, length, map};
ghost use Rattle.std.specs.List.{count_by, list_all};
ghost use Rattle.ws_flow.specs.Stages.{is_in_range};
ghost use Rattle.ws_chain_laws.specs.Opening.{pipes_from, piping, signals, sink_call, source_call, streams, transforms};
ghost use Rattle.ws_node.specs.Opening.{AreAnswered, Begins, CanPipe, IsAccepted, IsOpened, IsPromise, abort_of, all_begun, opening_by};
ghost use Rattle.ws_node.specs.Past.{IsFresh, IsUnused};
ghost use Rattle.ws_node.specs.Shares.{abort_in, is_ahead_of, is_in, origin_by, shape_with, shared, target_by};
ghost use Rattle.ws_steps.specs.Run as steps;
ghost use Rattle.ws_steps.specs.Slots.{empty};
ghost use Rattle.ws_steps.specs.declared.calls.Call.TheVariants.{MakeSignal};
ghost use Rattle.ws_steps.specs.declared.calls.Reply.TheVariants as reply;

use crate::node::{Abort, Core, Entrance, Exit, Input, Node, Output};
use std::alloc::Global;
use ws_edge::End;
use ws_realm::{
    Call, Kind, NoMemory, Prevent, PromiseId, Realm, Reply, Side, SignalId, SizeBy, StartBy,
    StreamId,
};
use ws_stages::{Placed, Plan, Work};

/// The realm performs one of the first calls. A new realm isn't spent, so it refuses one only where memory is wanting.
fn begin(realm: &mut Realm, call: Call) -> Result<Reply, NoMemory>
    ensures { IfOk result (Begins call realm.old realm.new) }
{
    match realm.call(call) {
        Ok(reply) => Ok(reply),
        Err(_) => Err(NoMemory),
    }
}

/// Which stages of a plan a node has.
#[derive(Clone, Copy)]
pub enum Share {
    All,
    /// Those of this worker.
    Of(i64),
    None,
}

impl Share {
    /// Whether the node has this stage.
    fn has(self, one: &Placed) -> bool
        ensures { result ≡ is_in self one.now }
    {
        match self {
            Share::All => true,
            Share::Of(worker) => one.worker == worker,
            Share::None => false,
        }
    }
}

/// Each stage at its beginning, and a transform stream for it: the writable half has room for one chunk, the readable
/// half has none.
fn make_stages(
    alloc: Global,
    realm: &mut Realm,
    placed: &[Placed],
    share: Share,
) -> Result<Vec<Work>, NoMemory>
    requires { list_all is_in_range (map (λ p. p.stage) placed.now) ≡ true }
    ensures stages { IfOk result (λ stages. stages.items ≡ all_begun (shared share placed.now)) }
    ensures slots { OnOk result
        (realm.new.slots ≡ steps.run (transforms (length (shared share placed.now))) realm.old.slots) }
{
    let mut stages = Vec::new(alloc);
    for one in placed {
        if !share.has(one) {
            continue;
        }
        let call = Call::MakeTransform {
            kind: Kind::Host,
            whwm: 1,
            rhwm: 0,
            start: StartBy::Now,
        };
        begin(realm, call)?;
        stages.push(Work::make(alloc, &one.stage)?)?;
    }
    Ok(stages)
}

/// The stream that feeds the node: one of the host's that is read as bytes, or the readable end of a port.
fn make_source(realm: &mut Realm, is_edge: bool) -> Result<Reply, NoMemory>
    ensures { IfOk result (Begins (source_call (origin_by is_edge)) realm.old realm.new) }
{
    if is_edge {
        return begin(realm, Call::Open(Side::Readable));
    }
    begin(
        realm,
        Call::MakeBytes {
            hwm: 0,
            auto: 0,
            start: StartBy::Now,
        },
    )
}

/// The stream that the node feeds: one of the host's with room for one chunk, or the writable end of a port.
fn make_sink(realm: &mut Realm, is_edge: bool) -> Result<Reply, NoMemory>
    ensures { IfOk result (Begins (sink_call (target_by is_edge)) realm.old realm.new) }
{
    if is_edge {
        return begin(realm, Call::Open(Side::Writable));
    }
    begin(
        realm,
        Call::MakeWritable {
            hwm: 1,
            size: SizeBy::Count,
            start: StartBy::Now,
        },
    )
}

/// The source, a transform stream for each of the node's stages, and the sink, in a new realm.
fn make_streams(
    alloc: Global,
    realm: &mut Realm,
    placed: &[Placed],
    share: Share,
    above: bool,
    below: bool,
) -> Result<Vec<Work>, NoMemory>
    requires range { list_all is_in_range (map (λ p. p.stage) placed.now) ≡ true }
    requires new { realm.now.slots ≡ empty }
    ensures stages { IfOk result (λ stages. stages.items ≡ all_begun (shared share placed.now)) }
    ensures slots { OnOk result (realm.new.slots
        ≡ steps.run (streams (origin_by above) (target_by below) (length (shared share placed.now))) empty) }
{
    make_source(realm, above)?;
    let stages = make_stages(alloc, realm, placed, share)?;
    make_sink(realm, below)?;
    Ok(stages)
}

/// The abort of a run after so many bytes.
fn make_abort(realm: &mut Realm, after: u64) -> Result<Abort, NoMemory>
    ensures signal { IfOk result (λ abort. steps.reply_to MakeSignal realm.old.slots ≡ reply.Signal abort.signal) }
    ensures left { IfOk result (λ abort. abort.left ≡ after) }
    ensures slots { OnOk result (realm.new.slots ≡ steps.after_call MakeSignal realm.old.slots) }
{
    let Reply::Signal(signal) = begin(realm, Call::MakeSignal)? else {
        unreachable!();
    };
    Ok(Abort {
        signal,
        left: after,
    })
}

/// The abort of a run, where it has one, in a realm that has no signal yet.
fn make_abort_of(realm: &mut Realm, after: Option<i64>) -> Result<Option<Abort>, NoMemory>
    requires { length realm.now.slots.signals ≡ 0 }
    ensures abort { IfOk result (λ abort. abort ≡ abort_of after) }
    ensures slots { OnOk result (realm.new.slots ≡ steps.run (signals (is_some after)) realm.old.slots) }
{
    match after {
        Some(after) => Ok(Some(make_abort(realm, after.unsigned_abs())?)),
        None => Ok(None),
    }
}

/// The pipe of this number.
fn make_pipe(
    realm: &mut Realm,
    number: u32,
    signal: Option<SignalId>,
) -> Result<PromiseId, NoMemory>
    requires number { 2 * number + 1 < 2 ^ 32 }
    requires promise { IsPromise (steps.reply_to (piping signal number) realm.old.slots) }
    ensures answered { IfOk result (λ pipe.
        steps.reply_to (piping signal number) realm.old.slots ≡ reply.Promise pipe) }
    ensures slots { OnOk result (realm.new.slots ≡ steps.after_call (piping signal number) realm.old.slots) }
{
    let piping = Call::Pipe {
        source: StreamId(2 * number),
        dest: StreamId(2 * number + 1),
        prevent: Prevent {
            close: false,
            abort: false,
            cancel: false,
        },
        signal,
    };
    let Reply::Promise(pipe) = begin(realm, piping)? else {
        unreachable!();
    };
    Ok(pipe)
}

/// The pipes into so many stages.
fn make_pipes(alloc: Global, realm: &mut Realm, stages: u32) -> Result<Vec<PromiseId>, NoMemory>
    requires number { 2 * stages + 1 < 2 ^ 32 }
    requires promises { CanPipe 0 stages realm.old.slots }
    ensures answered { IfOk result (λ pipes. AreAnswered 0 stages realm.old.slots pipes.items) }
    ensures slots { OnOk result (realm.new.slots ≡ steps.run (pipes_from 0 stages) realm.old.slots) }
{
    let mut pipes = Vec::new(alloc);
    for number in 0..stages {
        pipes.push(make_pipe(realm, number, None)?)?;
    }
    Ok(pipes)
}

/// What a node has of its realm once that is opened.
#[derive(Drop)]
struct Opened {
    stages: Vec<Work>,
    abort: Option<Abort>,
    pipes_before: Vec<PromiseId>,
    pipe: PromiseId,
    sink: StreamId,
}

/// Opens a new realm: its streams, the signal where the run may be aborted, and the pipes.
fn open(
    alloc: Global,
    realm: &mut Realm,
    plan: &Plan,
    share: Share,
    above: bool,
    below: bool,
) -> Result<Opened, NoMemory>
    requires accepted { IsAccepted plan.now }
    requires new { realm.now.slots ≡ empty }
    ensures opened { IfOk result (IsOpened (shape_with plan.now share above below) (abort_in plan.now below)) }
    ensures slots { OnOk result
        (realm.new.slots ≡ steps.run (opening_by (shape_with plan.now share above below)) empty) }
{
    let stages = make_streams(alloc, realm, &plan.stages, share, above, below)?;
    let after = if below { None } else { plan.abort_after };
    let abort = make_abort_of(realm, after)?;
    let count = stages.len() as u32;
    let pipes_before = make_pipes(alloc, realm, count)?;
    let signal = abort.map(|abort| abort.signal);
    let pipe = make_pipe(realm, count, signal)?;
    Ok(Opened {
        stages,
        abort,
        pipes_before,
        pipe,
        sink: StreamId(2 * count + 1),
    })
}

/// How many stages are on the workers before this one.
pub fn stages_ahead_of(placed: &[Placed], worker: i64) -> u16
    requires { length placed.now ≤ 16 }
    ensures { result ≡ count_by (is_ahead_of worker) placed.now }
{
    let mut count = 0;
    for one in placed {
        if worker <= one.worker {
            continue;
        }
        count += 1;
    }
    count
}

impl Node {
    /// A node of a run of this plan that has these of its stages, behind so many others. It is fed by the input, or by
    /// the edge of which it is given the end above, and feeds the output, or the edge of which it is given the end
    /// below. Where it feeds the output, the run may be aborted after some bytes.
    pub fn make(
        alloc: Global,
        plan: &Plan,
        share: Share,
        first: u16,
        above: Option<End>,
        below: Option<End>,
    ) -> Result<Node, NoMemory>
        requires accepted { IsAccepted plan.now }
        requires above { IsUnused above }
        requires below { IsUnused below }
        ensures fresh { IfOk result
            (IsFresh (shape_with plan.now share (is_some above) (is_some below)) first
            (abort_in plan.now (is_some below))) }
        ensures ends { IfOk result (λ node. (node.entrance.above ≡ above) × (node.exit.below ≡ below)) }
    {
        let mut realm = Realm::make(alloc)?;
        let Opened {
            stages,
            abort,
            pipes_before,
            pipe,
            sink,
        } = open(
            alloc,
            &mut realm,
            plan,
            share,
            above.is_some(),
            below.is_some(),
        )?;
        Ok(Node {
            core: Core {
                realm,
                stages,
                first,
                pipes_before,
                pipe,
                stopped: None,
            },
            entrance: Entrance {
                source: StreamId(0),
                most: plan.max_input.unsigned_abs(),
                taken: 0,
                ahead: 0,
                asked: None,
                input: if above.is_some() {
                    Input::Edge
                } else {
                    Input::Open
                },
                above,
            },
            exit: Exit {
                sink,
                abort,
                output: if below.is_some() {
                    Output::Edge
                } else {
                    Output::Open
                },
                below,
                broken: false,
            },
        })
    }
}
