//! The calls that begin pipes, and those on the signals that abort them.
ghost use Rattle.std.specs.Prelude.{◌≡◌, ◌+◌, ◌≤◌, ◌++◌, length, true};
ghost use Rattle.ws_steps.specs.PipeCalls as pipe_calls;
ghost use Rattle.ws_steps.specs.Calls as calls;
ghost use Rattle.ws_steps.specs.Slots.{has_source, has_writable};
ghost use Rattle.ws_begin.specs.Begin.{Answers, CanBegin, CanMake, CanPipe, Pipes};
ghost use Rattle.ws_steps.specs.declared.calls.Call.TheVariants as call;
ghost use Rattle.ws_tables.specs.View.{slots_of};

use crate::replies::{UNSUPPORTED, rejected};
use ws_pipe::{Pipe, Signal};
use ws_steps::{
    Effect, Gift, Lock, Micro, PipeOperation, Prevent, ReadableOperation, Reply, SignalOperation,
    Step, Use, WritableOperation, Writer,
};
use ws_tables::Tables;
use ws_value::{PipeId, Plain, PromiseId, SignalId, StreamId};

/// The reason of the signal, where there is one that was triggered.
fn reason_of(tables: &Tables, signal: Option<SignalId>) -> Option<Plain>
    ensures { result ≡ pipe_calls.reason_of signal (slots_of tables.now) }
{
    match signal {
        Some(a) => tables.signal_reason(a),
        None => None,
    }
}

/// The first effects of a pipe, once its reader and its writer have the streams.
fn begin_pipe(
    tables: &mut Tables,
    me: PipeId,
    reader_closed: PromiseId,
    writer_closed: PromiseId,
    signal: Option<SignalId>,
    reason: Option<Plain>,
)
    requires { 4 + length tables.old.caused.effects ≤ tables.old.caused.capacity }
    ensures { tables.new ≡ record tables.old {
      caused = record tables.old.caused {
        effects = tables.old.caused.effects
            ++ pipe_calls.pipe_begins me reader_closed writer_closed signal reason;
      };
    } }
{
    if let Some(reason) = reason {
        tables
            .caused
            .push(Effect::Pipe(me, PipeOperation::Abort(reason)));
        return;
    }
    if let Some(a) = signal {
        tables
            .caused
            .push(Effect::Signal(a, SignalOperation::Add(me)));
    }
    let ends = Use::React(Step::PipeEnds(me), None);
    tables
        .caused
        .push(Effect::Give(Gift::This(reader_closed), ends));
    tables
        .caused
        .push(Effect::Give(Gift::This(writer_closed), ends));
    tables.caused.push(Effect::Queue(Micro::PipeLook(me)));
}

/// ReadableStreamPipeTo: a reader and a writer of the pipe's own take the two streams.
#[tactic(auto, using(ws_tables::proofs::Places::fresh_length))]
pub(crate) fn pipe_to(
    tables: &mut Tables,
    source: StreamId,
    dest: StreamId,
    prevent: Prevent,
    signal: Option<SignalId>,
) -> Reply
    requires { CanPipe tables.old }
    ensures { Pipes (pipe_calls.pipe_to source dest prevent signal (slots_of tables.old)) result tables.old tables.new }
{
    let me = PipeId(tables.pipes.len() as u128);
    let reason = reason_of(tables, signal);
    let reader_closed = tables.promises.fresh();
    let ready = tables.promises.fresh();
    let closed = tables.promises.fresh();
    let promise = tables.promises.fresh();
    tables.locks.push_reserved(Lock::Inner);
    tables.locks.push_reserved(Lock::Inner);
    tables
        .pipes
        .push_reserved(Pipe::set_up(source, dest, prevent, signal, promise));
    let initialize = ReadableOperation::InitializeReader(reader_closed);
    tables.caused.push(Effect::Readable(source, initialize));
    let set_up = WritableOperation::SetUpWriter(Writer { ready, closed });
    tables.caused.push(Effect::Writable(dest, set_up));
    tables
        .caused
        .push(Effect::Readable(source, ReadableOperation::Disturb));
    begin_pipe(tables, me, reader_closed, closed, signal, reason);
    Reply::Promise(promise)
}

/// The ends are to be unlocked, the source first.
fn pipe_unlocked(
    tables: &mut Tables,
    source: StreamId,
    dest: StreamId,
    prevent: Prevent,
    signal: Option<SignalId>,
) -> Reply
    requires source { has_source source (slots_of tables.old) ≡ true }
    requires dest { has_writable dest (slots_of tables.old) ≡ true }
    requires ready { CanBegin tables.old }
    requires room { CanMake tables.old }
    ensures { Answers (pipe_calls.pipe_unlocked source dest prevent signal (slots_of tables.old))
        result tables.old tables.new }
{
    if tables.is_source_locked(source) {
        return rejected(tables);
    }
    if tables.writable(dest).is_locked() {
        return rejected(tables);
    }
    pipe_to(tables, source, dest, prevent, signal)
}

#[tactic(auto, unfolding(ws_steps::specs::Calls::begin))]
pub(crate) fn pipe(
    tables: &mut Tables,
    source: StreamId,
    dest: StreamId,
    prevent: Prevent,
    signal: Option<SignalId>,
) -> Reply
    requires ready { CanBegin tables.old }
    requires room { CanMake tables.old }
    ensures { Answers (calls.begin (call.Pipe source dest prevent signal) (slots_of tables.old))
        result tables.old tables.new }
{
    if !tables.has_source(source) {
        return UNSUPPORTED;
    }
    if !tables.has_writable(dest) {
        return UNSUPPORTED;
    }
    if let Some(a) = signal {
        if !tables.has_signal(a) {
            return UNSUPPORTED;
        }
    }
    pipe_unlocked(tables, source, dest, prevent, signal)
}

#[tactic(auto, unfolding(ws_steps::specs::Calls::begin))]
pub(crate) fn make_signal(tables: &mut Tables) -> Reply
    requires ready { CanBegin tables.old }
    requires room { CanMake tables.old }
    ensures { Answers (calls.begin call.MakeSignal (slots_of tables.old)) result tables.old tables.new }
{
    let a = SignalId(tables.signals.len() as u128);
    tables.signals.push_reserved(Signal::make(tables.alloc));
    tables.full.push_reserved(a);
    Reply::Signal(a)
}

#[tactic(auto, unfolding(ws_steps::specs::Calls::begin))]
pub(crate) fn trigger(tables: &mut Tables, a: SignalId, reason: Plain) -> Reply
    requires ready { CanBegin tables.old }
    ensures { Answers (calls.begin (call.Trigger a reason) (slots_of tables.old)) result tables.old tables.new }
{
    if !tables.has_signal(a) {
        return UNSUPPORTED;
    }
    tables
        .caused
        .push(Effect::Signal(a, SignalOperation::Trigger(reason)));
    Reply::Done
}
