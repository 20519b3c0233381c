//! What one effect does.
ghost use Rattle.std.specs.Prelude.{◌≡◌, [], ◌∷◌, reverse};
ghost use Rattle.ws_steps.specs.declared.effects.Effect.TheVariants as effect;
ghost use Rattle.ws_performing.specs.Performing.{GoesOn, HasRoomFor, Performs};
ghost use Rattle.ws_tables.specs.Room.{HasRoomForAll, IsKept, KeepsRecords};

use crate::kinds::{
    perform_byte, perform_pipe, perform_port, perform_readable, perform_signal, perform_tee,
    perform_transform, perform_writable,
};
use std::mem::replace;
use ws_promise::taken;
use ws_steps::{
    ByteOperation, Effect, Event, Gift, HostCall, Owner, PipeOperation, PortOperation, ReadRequest,
    StartBy, Step, Taker, TeeOperation, TransformOperation, Use, WritableOperation,
};
use ws_tables::Tables;
use ws_value::{Chunk, HostId, Plain, PortId, PromiseId, RequestId, StreamId, TeeId, Value};

/// The start algorithm's result is undefined, or the host's promise. The start promise is resolved with it, and
/// the step reacts to that.
#[inline(never)]
#[tactic(auto, unfolding(ws_steps::specs::Turns::row))]
fn start_algorithm(tables: &mut Tables, i: StreamId, step: &Step, start: StartBy)
    requires quiet { tables.old.caused.effects ≡ [] }
    requires room { HasRoomFor (effect.StartAlgorithm i step.now start) tables.old }
    ensures performs { Performs (effect.StartAlgorithm i step.now start) tables.old tables.new }
    ensures records { KeepsRecords tables.old tables.new }
{
    match start {
        StartBy::Now => tables.caused.push(Effect::Give(
            Gift::Fresh(Ok(Plain::Undefined)),
            Use::React(*step, None),
        )),
        StartBy::Later => {
            let promise = tables.promises.fresh();
            tables.caused.push(Effect::CallHost(HostCall::Start(i), Use::Resolve(promise)));
            tables
                .caused
                .push(Effect::Give(Gift::This(promise), Use::React(*step, None)));
        }
    }
}

/// The pull algorithm, by whose it is.
#[inline(never)]
#[tactic(auto, unfolding(ws_steps::specs::Turns::row))]
fn pull_algorithm(tables: &mut Tables, i: StreamId)
    requires quiet { tables.old.caused.effects ≡ [] }
    requires room { HasRoomFor (effect.PullAlgorithm i) tables.old }
    ensures performs { Performs (effect.PullAlgorithm i) tables.old tables.new }
    ensures records { KeepsRecords tables.old tables.new }
{
    let u = Use::React(Step::ReadablePull(i), None);
    match tables.owner(i) {
        Owner::Host => tables.caused.push(Effect::CallHost(HostCall::Pull(i), u)),
        Owner::HalfOf(t) => tables
            .caused
            .push(Effect::Transform(t, TransformOperation::SourcePull(u))),
        Owner::BranchOf(t, _) => {
            tables.caused.push(Effect::Tee(t, TeeOperation::PullBranch));
            tables
                .caused
                .push(Effect::Give(Gift::Fresh(Ok(Plain::Undefined)), u));
        }
        Owner::EndOf(c) => {
            tables.caused.push(Effect::Port(c, PortOperation::Pull));
            tables
                .caused
                .push(Effect::Give(Gift::Fresh(Ok(Plain::Undefined)), u));
        }
    }
}

#[inline(never)]
#[tactic(auto, unfolding(ws_steps::specs::Turns::row))]
fn cancel_algorithm(tables: &mut Tables, i: StreamId, reason: &Plain, promise: PromiseId)
    requires quiet { tables.old.caused.effects ≡ [] }
    requires room { HasRoomFor (effect.CancelAlgorithm i reason.now promise) tables.old }
    ensures performs { Performs (effect.CancelAlgorithm i reason.now promise) tables.old tables.new }
    ensures records { KeepsRecords tables.old tables.new }
{
    let u = Use::React(Step::ReturnUndefined, Some(promise));
    match tables.owner(i) {
        Owner::Host => tables
            .caused
            .push(Effect::CallHost(HostCall::Cancel(i, *reason), u)),
        Owner::HalfOf(t) => {
            let operation = TransformOperation::SourceCancel(*reason, u);
            tables.caused.push(Effect::Transform(t, operation));
        }
        Owner::BranchOf(t, half) => {
            let operation = TeeOperation::CancelBranch(half, *reason, u);
            tables.caused.push(Effect::Tee(t, operation));
        }
        Owner::EndOf(c) => tables
            .caused
            .push(Effect::Port(c, PortOperation::Leave(*reason, u))),
    }
}

/// The write algorithm gets the chunk once the stream hands it on: to the host at once, and to a transform stream
/// or a port once it has no backpressure.
#[inline(never)]
#[tactic(auto, unfolding(ws_steps::specs::Turns::row))]
fn write_algorithm(tables: &mut Tables, i: StreamId)
    requires quiet { tables.old.caused.effects ≡ [] }
    requires room { HasRoomFor (effect.WriteAlgorithm i) tables.old }
    ensures performs { Performs (effect.WriteAlgorithm i) tables.old tables.new }
    ensures records { KeepsRecords tables.old tables.new }
{
    match tables.owner(i) {
        Owner::Host | Owner::BranchOf(_, _) => tables.caused.push(Effect::Writable(
            i,
            WritableOperation::HandOn(Taker::ToHost),
        )),
        Owner::HalfOf(t) => {
            let u = Use::React(Step::WritableWrite(i), None);
            tables
                .caused
                .push(Effect::Transform(t, TransformOperation::SinkWrite(u)));
        }
        Owner::EndOf(c) => {
            let u = Use::React(Step::WritableWrite(i), None);
            tables.caused.push(Effect::Port(c, PortOperation::Write(u)));
        }
    }
}

#[inline(never)]
#[tactic(auto, unfolding(ws_steps::specs::Turns::row))]
fn close_algorithm(tables: &mut Tables, i: StreamId)
    requires quiet { tables.old.caused.effects ≡ [] }
    requires room { HasRoomFor (effect.CloseAlgorithm i) tables.old }
    ensures performs { Performs (effect.CloseAlgorithm i) tables.old tables.new }
    ensures records { KeepsRecords tables.old tables.new }
{
    let u = Use::React(Step::WritableClose(i), None);
    match tables.owner(i) {
        Owner::Host | Owner::BranchOf(_, _) => {
            tables.caused.push(Effect::CallHost(HostCall::Close(i), u))
        }
        Owner::HalfOf(t) => tables
            .caused
            .push(Effect::Transform(t, TransformOperation::SinkClose(u))),
        Owner::EndOf(c) => tables.caused.push(Effect::Port(c, PortOperation::Close(u))),
    }
}

#[inline(never)]
#[tactic(auto, unfolding(ws_steps::specs::Turns::row))]
fn abort_algorithm(tables: &mut Tables, i: StreamId, reason: &Plain, promise: PromiseId)
    requires quiet { tables.old.caused.effects ≡ [] }
    requires room { HasRoomFor (effect.AbortAlgorithm i reason.now promise) tables.old }
    ensures performs { Performs (effect.AbortAlgorithm i reason.now promise) tables.old tables.new }
    ensures records { KeepsRecords tables.old tables.new }
{
    let u = Use::React(Step::WritableAbort(i, promise), None);
    match tables.owner(i) {
        Owner::Host | Owner::BranchOf(_, _) => tables
            .caused
            .push(Effect::CallHost(HostCall::Abort(i, *reason), u)),
        Owner::HalfOf(t) => {
            let operation = TransformOperation::SinkAbort(*reason, u);
            tables.caused.push(Effect::Transform(t, operation));
        }
        Owner::EndOf(c) => tables
            .caused
            .push(Effect::Port(c, PortOperation::Leave(*reason, u))),
    }
}

/// Calls a host's algorithm: a new promise with a new number, which the host hears of, and what is done with the
/// promise.
#[inline(never)]
#[tactic(auto, using(ws_tables::proofs::Places::fresh_jobs, ws_tables::proofs::Places::fresh_events), unfolding(ws_steps::specs::Turns::row, ws_steps::specs::Turns::call_host))]
fn call_host(tables: &mut Tables, call: &mut HostCall, u: &Use)
    requires quiet { tables.old.caused.effects ≡ [] }
    requires room { HasRoomFor (effect.CallHost call.old u.now) tables.old }
    ensures performs { Performs (effect.CallHost call.old u.now) tables.old tables.new }
    ensures records { KeepsRecords tables.old tables.new }
{
    let id = HostId(tables.hosts.len() as u128);
    let promise = tables.promises.fresh();
    let call = replace(call, HostCall::Pull(StreamId(0)));
    tables.promises.tell(Event::Host { id, call });
    tables.promises.use_this(promise, u);
    tables.hosts.push(promise);
}

/// The steps of a read request, by whom it answers.
#[inline(never)]
#[tactic(auto, unfolding(ws_steps::specs::Turns::row))]
fn chunk_steps(tables: &mut Tables, i: StreamId, request: &ReadRequest, chunk: &mut Value)
    requires quiet { tables.old.caused.effects ≡ [] }
    requires room { HasRoomFor (effect.ChunkSteps i request.now chunk.old) tables.old }
    ensures performs { Performs (effect.ChunkSteps i request.now chunk.old) tables.old tables.new }
    ensures records { KeepsRecords tables.old tables.new }
{
    match request {
        ReadRequest::Promise(promise) => tables.promises.give(*promise, taken(chunk)),
        ReadRequest::Pipe(p) => tables
            .caused
            .push(Effect::Pipe(*p, PipeOperation::KeepChunk(taken(chunk)))),
        ReadRequest::Tee(t) => tables
            .caused
            .push(Effect::Tee(*t, TeeOperation::KeepChunk(taken(chunk)))),
    }
}

#[inline(never)]
#[tactic(auto, unfolding(ws_steps::specs::Turns::row))]
fn close_steps(tables: &mut Tables, i: StreamId, request: &ReadRequest)
    requires quiet { tables.old.caused.effects ≡ [] }
    requires room { HasRoomFor (effect.CloseSteps i request.now) tables.old }
    ensures performs { Performs (effect.CloseSteps i request.now) tables.old tables.new }
    ensures records { KeepsRecords tables.old tables.new }
{
    match request {
        ReadRequest::Promise(promise) => {
            tables
                .promises
                .finish(*promise, Value::Plain(Plain::Undefined))
        }
        ReadRequest::Pipe(p) => tables
            .caused
            .push(Effect::Pipe(*p, PipeOperation::ReadEnded)),
        ReadRequest::Tee(t) => tables
            .caused
            .push(Effect::Tee(*t, TeeOperation::SourceClosed)),
    }
}

/// The close steps of a read-into request with a chunk.
#[inline(never)]
#[tactic(auto, unfolding(ws_steps::specs::Turns::row))]
fn close_steps_with(tables: &mut Tables, i: StreamId, request: &ReadRequest, chunk: &mut Chunk)
    requires quiet { tables.old.caused.effects ≡ [] }
    requires room { HasRoomFor (effect.CloseStepsWith i request.now chunk.old) tables.old }
    ensures performs { Performs (effect.CloseStepsWith i request.now chunk.old) tables.old tables.new }
    ensures records { KeepsRecords tables.old tables.new }
{
    match request {
        ReadRequest::Promise(promise) => {
            let chunk = replace(chunk, Chunk::from_vec(Vec::new(tables.alloc)));
            tables.promises.finish(*promise, Value::Bytes(chunk))
        }
        ReadRequest::Pipe(p) => tables
            .caused
            .push(Effect::Pipe(*p, PipeOperation::ReadEnded)),
        ReadRequest::Tee(t) => tables
            .caused
            .push(Effect::Tee(*t, TeeOperation::SourceClosed)),
    }
}

#[inline(never)]
#[tactic(auto, unfolding(ws_steps::specs::Turns::row))]
fn error_steps(tables: &mut Tables, i: StreamId, request: &ReadRequest, e: &Plain)
    requires quiet { tables.old.caused.effects ≡ [] }
    requires room { HasRoomFor (effect.ErrorSteps i request.now e.now) tables.old }
    ensures performs { Performs (effect.ErrorSteps i request.now e.now) tables.old tables.new }
    ensures records { KeepsRecords tables.old tables.new }
{
    match request {
        ReadRequest::Promise(promise) => tables.promises.reject(*promise, *e),
        ReadRequest::Pipe(p) => tables
            .caused
            .push(Effect::Pipe(*p, PipeOperation::ReadEnded)),
        ReadRequest::Tee(t) => tables
            .caused
            .push(Effect::Tee(*t, TeeOperation::SourceErrored)),
    }
}

/// An operation that only a byte controller has is taken out of its effect and performed.
#[cold]
#[inline(never)]
fn take_byte(tables: &mut Tables, i: StreamId, operation: &mut ByteOperation)
    requires quiet { tables.old.caused.effects ≡ [] }
    requires room { HasRoomFor (effect.Byte i operation.old) tables.old }
    requires kept { IsKept tables.old }
    ensures performs { Performs (effect.Byte i operation.old) tables.old tables.new }
    ensures kept { IsKept tables.new }
{
    perform_byte(
        tables,
        i,
        replace(operation, ByteOperation::MakeRequest(RequestId(0))),
    )
}

/// An operation of a tee is taken out of its effect and performed.
#[cold]
#[inline(never)]
fn take_tee(tables: &mut Tables, t: TeeId, operation: &mut TeeOperation)
    requires quiet { tables.old.caused.effects ≡ [] }
    requires room { HasRoomFor (effect.Tee t operation.old) tables.old }
    requires kept { IsKept tables.old }
    ensures performs { Performs (effect.Tee t operation.old) tables.old tables.new }
    ensures kept { IsKept tables.new }
{
    perform_tee(tables, t, replace(operation, TeeOperation::Handed))
}

/// An operation of a port is taken out of its effect and performed.
#[cold]
#[inline(never)]
fn take_port(tables: &mut Tables, c: PortId, operation: &mut PortOperation)
    requires quiet { tables.old.caused.effects ≡ [] }
    requires room { HasRoomFor (effect.Port c operation.old) tables.old }
    ensures performs { Performs (effect.Port c operation.old) tables.old tables.new }
    ensures records { KeepsRecords tables.old tables.new }
{
    perform_port(tables, c, replace(operation, PortOperation::Unblock))
}

/// Performs an effect where it stands, and causes what comes of it.
#[tactic(auto, using(ws_performing::proofs::Kept::kept_by), unfolding(ws_steps::specs::Turns::row))]
#[inline(always)]
fn perform_alone(tables: &mut Tables, effect: &mut Effect)
    requires quiet { tables.old.caused.effects ≡ [] }
    requires room { HasRoomFor effect.old tables.old }
    requires kept { IsKept tables.old }
    ensures performs { Performs effect.old tables.old tables.new }
    ensures kept { IsKept tables.new }
{
    match effect {
        Effect::Readable(i, operation) => perform_readable(tables, *i, operation),
        Effect::Byte(i, operation) => take_byte(tables, *i, operation),
        Effect::Writable(i, operation) => perform_writable(tables, *i, operation),
        Effect::Pipe(p, operation) => perform_pipe(tables, *p, operation),
        Effect::Signal(a, operation) => perform_signal(tables, *a, operation),
        Effect::Transform(t, operation) => perform_transform(tables, *t, operation),
        Effect::Tee(t, operation) => take_tee(tables, *t, operation),
        Effect::Port(c, operation) => take_port(tables, *c, operation),
        Effect::StartAlgorithm(i, step, start) => start_algorithm(tables, *i, step, *start),
        Effect::PullAlgorithm(i) => pull_algorithm(tables, *i),
        Effect::CancelAlgorithm(i, reason, promise) => {
            cancel_algorithm(tables, *i, reason, *promise)
        }
        Effect::WriteAlgorithm(i) => write_algorithm(tables, *i),
        Effect::CloseAlgorithm(i) => close_algorithm(tables, *i),
        Effect::AbortAlgorithm(i, reason, promise) => abort_algorithm(tables, *i, reason, *promise),
        Effect::ChunkSteps(i, request, chunk) => chunk_steps(tables, *i, request, chunk),
        Effect::CloseSteps(i, request) => close_steps(tables, *i, request),
        Effect::CloseStepsWith(i, request, chunk) => {
            close_steps_with(tables, *i, request, chunk)
        }
        Effect::ErrorSteps(i, request, e) => error_steps(tables, *i, request, e),
        Effect::Give(gift, u) => tables.promises.use_gift(gift, u),
        Effect::Settle(promise, outcome) => tables.promises.settle(*promise, *outcome),
        Effect::Queue(micro) => tables.promises.micro(*micro),
        Effect::CallHost(call, u) => call_host(tables, call, u),
    }
}

/// Performs an effect where it stands, before all that waits. What is no operation of a record is performed in
/// functions apart, so that this one has no locals and an operation is reached by a jump.
#[inline(never)]
pub(crate) fn perform_at(tables: &mut Tables, effect: &mut Effect)
    requires quiet { tables.old.caused.effects ≡ [] }
    requires room { HasRoomForAll (effect.old ∷ reverse tables.old.others.items) tables.old }
    requires kept { IsKept tables.old }
    ensures { GoesOn effect.old tables.old tables.new }
{
    perform_alone(tables, effect);
}
