//! The transfer of streams, and the messages that come by their ports.
ghost use Rattle.std.specs.Prelude.{◌<◌, vec_len};
ghost use Rattle.ws_begin.specs.Begin.{AddsEnd, Answers, CanBegin, CanMake};
ghost use Rattle.ws_steps.specs.MakingCalls as making_calls;
ghost use Rattle.ws_steps.specs.PipeCalls as pipe_calls;
ghost use Rattle.ws_steps.specs.Calls as calls;
ghost use Rattle.ws_steps.specs.Slots.{has_source, has_writable};
ghost use Rattle.ws_steps.specs.declared.calls.Call.TheVariants as call;
ghost use Rattle.ws_steps.specs.declared.port.Side.TheVariants as side;
ghost use Rattle.ws_tables.specs.View.{slots_of};

use crate::pipes::pipe_to;
use crate::replies::{DATA_CLONE, UNSUPPORTED};
use crate::streams::MOST_STREAMS;
use ws_cross::Port;
use ws_readable::Readable;
use ws_steps::{Effect, Owner, PortOperation, Prevent, Reply, Side, SizeBy, StartBy, Step};
use ws_tables::{Stream, Tables};
use ws_value::{Message, PortId, StreamId};
use ws_writable::Writable;

const NO_PREVENT: Prevent = Prevent {
    close: false,
    abort: false,
    cancel: false,
};

/// SetUpCrossRealmTransformReadable: a new port, and a readable stream at this end of it, which starts.
fn add_readable_end(tables: &mut Tables)
    requires ready { CanBegin tables.old }
    requires room { CanMake tables.old }
    requires few { vec_len tables.old.streams < 1024 }
    ensures { AddsEnd side.Readable tables.old tables.new }
{
    let c = PortId(tables.ports.len() as u128);
    let i = StreamId(tables.streams.len() as u32);
    let stream = Readable::make(tables.alloc, Owner::EndOf(c), 0, SizeBy::Count);
    tables.streams.push_reserved(Stream::Readable(stream));
    tables.grown.push_reserved(i);
    tables
        .ports
        .push_reserved(Port::set_up(Side::Readable, i, None));
    tables.caused.push(Effect::StartAlgorithm(i, Step::ReadableStart(i), StartBy::Now));
}

/// SetUpCrossRealmTransformWritable: a new port, and a writable stream at this end of it, which starts. It has
/// backpressure.
#[tactic(auto, using(ws_tables::proofs::Places::fresh_length))]
fn add_writable_end(tables: &mut Tables)
    requires ready { CanBegin tables.old }
    requires room { CanMake tables.old }
    requires few { vec_len tables.old.streams < 1024 }
    ensures { AddsEnd side.Writable tables.old tables.new }
{
    let c = PortId(tables.ports.len() as u128);
    let i = StreamId(tables.streams.len() as u32);
    let backpressure = tables.promises.fresh();
    let stream = Writable::make(tables.alloc, Owner::EndOf(c), 1, SizeBy::Count);
    tables.streams.push_reserved(Stream::Writable(stream));
    tables.grown.push_reserved(i);
    tables
        .ports
        .push_reserved(Port::set_up(Side::Writable, i, Some(backpressure)));
    tables.caused.push(Effect::StartAlgorithm(i, Step::WritableStart(i), StartBy::Now));
}

/// The transfer-receiving steps of a stream.
#[tactic(auto, unfolding(ws_steps::specs::Calls::begin))]
pub(crate) fn open(tables: &mut Tables, side: Side) -> Reply
    requires ready { CanBegin tables.old }
    requires room { CanMake tables.old }
    ensures { Answers (calls.begin (call.Open side) (slots_of tables.old)) result tables.old tables.new }
{
    if tables.streams.len() >= MOST_STREAMS {
        return Reply::TooMany;
    }
    let c = PortId(tables.ports.len() as u128);
    let i = StreamId(tables.streams.len() as u32);
    match side {
        Side::Readable => add_readable_end(tables),
        Side::Writable => add_writable_end(tables),
    }
    Reply::MadePort(i, c)
}

/// The transfer steps of a readable stream that isn't locked.
fn send_readable(tables: &mut Tables, source: StreamId) -> Reply
    requires ready { CanBegin tables.old }
    requires room { CanMake tables.old }
    ensures { Answers (making_calls.make_stream (pipe_calls.send_readable source) (slots_of tables.old))
        result tables.old tables.new }
{
    if tables.streams.len() >= MOST_STREAMS {
        return Reply::TooMany;
    }
    let c = PortId(tables.ports.len() as u128);
    let i = StreamId(tables.streams.len() as u32);
    add_writable_end(tables);
    pipe_to(tables, source, i, NO_PREVENT, None);
    Reply::Port(c)
}

/// The transfer steps of a writable stream that isn't locked.
fn send_writable(tables: &mut Tables, dest: StreamId) -> Reply
    requires ready { CanBegin tables.old }
    requires room { CanMake tables.old }
    ensures { Answers (making_calls.make_stream (pipe_calls.send_writable dest) (slots_of tables.old))
        result tables.old tables.new }
{
    if tables.streams.len() >= MOST_STREAMS {
        return Reply::TooMany;
    }
    let c = PortId(tables.ports.len() as u128);
    let i = StreamId(tables.streams.len() as u32);
    add_readable_end(tables);
    pipe_to(tables, i, dest, NO_PREVENT, None);
    Reply::Port(c)
}

/// The transfer steps of a stream: a pipe, between it and a stream at this end of a new port, whose promise nobody is
/// told.
#[tactic(auto, unfolding(ws_steps::specs::Calls::begin))]
pub(crate) fn send(tables: &mut Tables, i: StreamId) -> Reply
    requires ready { CanBegin tables.old }
    requires room { CanMake tables.old }
    ensures { Answers (calls.begin (call.Send i) (slots_of tables.old)) result tables.old tables.new }
{
    if tables.has_source(i) {
        if tables.is_source_locked(i) {
            return DATA_CLONE;
        }
        return send_readable(tables, i);
    }
    if !tables.has_writable(i) {
        return UNSUPPORTED;
    }
    if tables.writable(i).is_locked() {
        return DATA_CLONE;
    }
    send_writable(tables, i)
}

#[tactic(auto, unfolding(ws_steps::specs::Calls::begin))]
pub(crate) fn deliver(tables: &mut Tables, c: PortId, message: Message) -> Reply
    requires ready { CanBegin tables.old }
    ensures { Answers (calls.begin (call.Deliver c message) (slots_of tables.old)) result tables.old tables.new }
{
    if !tables.has_port(c) {
        return UNSUPPORTED;
    }
    tables
        .caused
        .push(Effect::Port(c, PortOperation::Deliver(message)));
    Reply::Done
}
