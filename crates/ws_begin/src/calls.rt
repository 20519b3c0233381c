//! What a call begins with, by whom it asks.
ghost use Rattle.ws_steps.specs.Calls as calls;
ghost use Rattle.ws_steps.specs.declared.calls.Call.TheVariants as call;
ghost use Rattle.ws_begin.specs.Begin.{Answers, CanBegin, CanMake};
ghost use Rattle.ws_tables.specs.View.{slots_of};

use crate::{byob, controllers, locks, pipes, ports, readers, streams, tees, transforms, writers};
use ws_steps::{Call, Reply};
use ws_tables::Tables;

#[tactic(auto, unfolding(ws_steps::specs::Calls::begin))]
fn step(tables: &mut Tables) -> Reply
    requires ready { CanBegin tables.old }
    ensures { Answers (calls.begin call.Step (slots_of tables.old)) result tables.old tables.new }
{
    Reply::Done
}

/// The checks of a call in their order, what it answers and makes, and the effects that it begins with.
pub fn begin(tables: &mut Tables, call: Call) -> Reply
    requires ready { CanBegin tables.old }
    requires room { CanMake tables.old }
    ensures { Answers (calls.begin call (slots_of tables.old)) result tables.old tables.new }
{
    match call {
        Call::MakeReadable { hwm, size, start } => streams::make_readable(tables, hwm, size, start),
        Call::MakeBytes { hwm, auto, start } => streams::make_bytes(tables, hwm, auto, start),
        Call::MakeWritable { hwm, size, start } => streams::make_writable(tables, hwm, size, start),
        Call::MakeTransform {
            kind,
            whwm,
            rhwm,
            start,
        } => transforms::make_transform(tables, kind, whwm, rhwm, start),
        Call::GetReader(i) => readers::get_reader(tables, i),
        Call::GetByob(i) => byob::get_byob(tables, i),
        Call::GetWriter(i) => writers::get_writer(tables, i),
        Call::Tee(i) => tees::tee(tables, i),
        Call::Cancel(i, reason) => readers::cancel(tables, i, reason),
        Call::CancelBy(l, reason) => readers::cancel_by(tables, l, reason),
        Call::Read(l) => readers::read(tables, l),
        Call::ReadInto {
            lock,
            room,
            element,
            least,
        } => byob::read_into(tables, lock, room, element, least),
        Call::Write(l, chunk) => writers::write(tables, l, chunk),
        Call::Close(i) => writers::close(tables, i),
        Call::CloseBy(l) => writers::close_by(tables, l),
        Call::Abort(i, reason) => writers::abort(tables, i, reason),
        Call::AbortBy(l, reason) => writers::abort_by(tables, l, reason),
        Call::Closed(l) => locks::closed(tables, l),
        Call::Ready(l) => locks::ready(tables, l),
        Call::Release(l) => locks::release(tables, l),
        Call::Enqueue(i, chunk) => controllers::enqueue(tables, i, chunk),
        Call::Finish(i) => controllers::finish(tables, i),
        Call::Fail(i, reason) => controllers::fail(tables, i, reason),
        Call::Terminate(i) => transforms::terminate(tables, i),
        Call::Request(i) => byob::request(tables, i),
        Call::Respond(q, bytes) => byob::respond(tables, q, bytes),
        Call::Desired(i) => controllers::desired(tables, i),
        Call::DesiredBy(l) => writers::desired_by(tables, l),
        Call::Pipe {
            source,
            dest,
            prevent,
            signal,
        } => pipes::pipe(tables, source, dest, prevent, signal),
        Call::MakeSignal => pipes::make_signal(tables),
        Call::Trigger(a, reason) => pipes::trigger(tables, a, reason),
        Call::Send(i) => ports::send(tables, i),
        Call::Open(side) => ports::open(tables, side),
        Call::Deliver(c, message) => ports::deliver(tables, c, message),
        Call::Settle(h, answer) => controllers::settle(tables, h, answer),
        Call::State(i) => controllers::state(tables, i),
        Call::Step => step(tables),
    }
}
