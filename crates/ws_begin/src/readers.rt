//! The calls on readable streams and their readers: their checks in order, and then their operations.
ghost use Rattle.ws_steps.specs.LockCalls as lock_calls;
ghost use Rattle.ws_steps.specs.Calls as calls;
ghost use Rattle.ws_begin.specs.Begin.{Answers, CanBegin};
ghost use Rattle.ws_steps.specs.declared.calls.Call.TheVariants as call;
ghost use Rattle.ws_tables.specs.View.{slots_of};

use crate::replies::{TYPE_ERROR, UNSUPPORTED, rejected};
use ws_steps::{Effect, Lock, ReadRequest, ReadableOperation, Reply};
use ws_tables::Tables;
use ws_value::{LockId, Plain, StreamId};

fn cancel_stream(tables: &mut Tables, i: StreamId, reason: Plain) -> Reply
    requires ready { CanBegin tables.old }
    ensures { Answers (lock_calls.cancel reason i (slots_of tables.old)) result tables.old tables.new }
{
    let promise = tables.promises.fresh();
    tables.caused.push(Effect::Readable(i, ReadableOperation::Cancel(reason, promise)));
    Reply::Promise(promise)
}

/// A new default reader takes the stream.
#[tactic(auto, unfolding(ws_steps::specs::Calls::begin))]
pub(crate) fn get_reader(tables: &mut Tables, i: StreamId) -> Reply
    requires ready { CanBegin tables.old }
    ensures { Answers (calls.begin (call.GetReader i) (slots_of tables.old)) result tables.old tables.new }
{
    if !tables.has_source(i) {
        return UNSUPPORTED;
    }
    if tables.is_source_locked(i) {
        return TYPE_ERROR;
    }
    let l = LockId(tables.locks.len() as u128);
    let closed = tables.promises.fresh();
    tables.locks.push_reserved(Lock::Reader {
        stream: Some(i),
        closed,
    });
    tables.caused.push(Effect::Readable(i, ReadableOperation::InitializeReader(closed)));
    Reply::Lock(l)
}

#[tactic(auto, unfolding(ws_steps::specs::Calls::begin))]
pub(crate) fn cancel(tables: &mut Tables, i: StreamId, reason: Plain) -> Reply
    requires ready { CanBegin tables.old }
    ensures { Answers (calls.begin (call.Cancel i reason) (slots_of tables.old)) result tables.old tables.new }
{
    if !tables.has_source(i) {
        return UNSUPPORTED;
    }
    if tables.is_source_locked(i) {
        return rejected(tables);
    }
    cancel_stream(tables, i, reason)
}

#[tactic(auto, unfolding(ws_steps::specs::Calls::begin))]
pub(crate) fn cancel_by(tables: &mut Tables, l: LockId, reason: Plain) -> Reply
    requires ready { CanBegin tables.old }
    ensures { Answers (calls.begin (call.CancelBy l reason) (slots_of tables.old)) result tables.old tables.new }
{
    match tables.lock(l) {
        Some(
            Lock::Reader {
                stream: Some(i),
                ..
            }
            | Lock::ByobReader {
                stream: Some(i),
                ..
            },
        ) => {
            if !tables.has_source(i) {
                return UNSUPPORTED;
            }
            cancel_stream(tables, i, reason)
        }
        Some(Lock::Reader { stream: None, .. } | Lock::ByobReader { stream: None, .. }) => {
            rejected(tables)
        }
        Some(Lock::Writer(_) | Lock::ReleasedWriter(_) | Lock::Inner) | None => UNSUPPORTED,
    }
}

#[tactic(auto, unfolding(ws_steps::specs::Calls::begin))]
pub(crate) fn read(tables: &mut Tables, l: LockId) -> Reply
    requires ready { CanBegin tables.old }
    ensures { Answers (calls.begin (call.Read l) (slots_of tables.old)) result tables.old tables.new }
{
    match tables.lock(l) {
        Some(
            Lock::Reader {
                stream: Some(i),
                ..
            },
        ) => {
            if !tables.has_source(i) {
                return UNSUPPORTED;
            }
            let promise = tables.promises.fresh();
            let request = ReadRequest::Promise(promise);
            tables
                .caused
                .push(Effect::Readable(i, ReadableOperation::Read(request)));
            Reply::Promise(promise)
        }
        Some(Lock::Reader { stream: None, .. }) => rejected(tables),
        Some(Lock::ByobReader { .. } | Lock::Writer(_) | Lock::ReleasedWriter(_) | Lock::Inner)
        | None => UNSUPPORTED,
    }
}
