//! The calls on writable streams and their writers: their checks in order, and then their operations.
ghost use Rattle.std.specs.Prelude.{◌≡◌, true};
ghost use Rattle.ws_steps.specs.Slots.{has_writable};
ghost use Rattle.ws_steps.specs.LockCalls as lock_calls;
ghost use Rattle.ws_steps.specs.Calls as calls;
ghost use Rattle.ws_begin.specs.Begin.{Answers, CanBegin};
ghost use Rattle.ws_steps.specs.declared.calls.Call.TheVariants as call;
ghost use Rattle.ws_tables.specs.View.{slots_of};

use crate::replies::{TYPE_ERROR, UNSUPPORTED, rejected};
use ws_steps::{Effect, Lock, Reply, WritableOperation, Writer};
use ws_tables::Tables;
use ws_value::{LockId, Plain, StreamId, Value};

fn close_stream(tables: &mut Tables, i: StreamId) -> Reply
    requires ready { CanBegin tables.old }
    ensures { Answers (lock_calls.close i (slots_of tables.old)) result tables.old tables.new }
{
    let promise = tables.promises.fresh();
    tables
        .caused
        .push(Effect::Writable(i, WritableOperation::Close(promise)));
    Reply::Promise(promise)
}

/// Where an abort is pending, its promise is answered.
fn abort_stream(tables: &mut Tables, i: StreamId, reason: Plain) -> Reply
    requires there { has_writable i (slots_of tables.old) ≡ true }
    requires ready { CanBegin tables.old }
    ensures { Answers (lock_calls.abort reason i (slots_of tables.old)) result tables.old tables.new }
{
    match tables.writable(i).answered_abort() {
        Some(promise) => Reply::Promise(promise),
        None => {
            let promise = tables.promises.fresh();
            tables.caused.push(Effect::Writable(i, WritableOperation::Abort(reason, promise)));
            Reply::Promise(promise)
        }
    }
}

/// A new writer takes the stream.
#[tactic(auto, using(ws_tables::proofs::Places::fresh_length), unfolding(ws_steps::specs::Calls::begin))]
pub(crate) fn get_writer(tables: &mut Tables, i: StreamId) -> Reply
    requires ready { CanBegin tables.old }
    ensures { Answers (calls.begin (call.GetWriter i) (slots_of tables.old)) result tables.old tables.new }
{
    if !tables.has_writable(i) {
        return UNSUPPORTED;
    }
    if tables.writable(i).is_locked() {
        return TYPE_ERROR;
    }
    let l = LockId(tables.locks.len() as u128);
    let ready = tables.promises.fresh();
    let closed = tables.promises.fresh();
    tables.locks.push_reserved(Lock::Writer(i));
    let writer = Writer { ready, closed };
    tables.caused.push(Effect::Writable(i, WritableOperation::SetUpWriter(writer)));
    Reply::Lock(l)
}

#[tactic(auto, unfolding(ws_steps::specs::Calls::begin))]
pub(crate) fn write(tables: &mut Tables, l: LockId, chunk: Value) -> Reply
    requires ready { CanBegin tables.old }
    ensures { Answers (calls.begin (call.Write l chunk) (slots_of tables.old)) result tables.old tables.new }
{
    match tables.lock(l) {
        Some(Lock::Writer(i)) => {
            if !tables.has_writable(i) {
                return UNSUPPORTED;
            }
            let promise = tables.promises.fresh();
            tables.caused.push(Effect::Writable(i, WritableOperation::Write(chunk, promise)));
            Reply::Promise(promise)
        }
        Some(Lock::ReleasedWriter(_)) => rejected(tables),
        Some(Lock::Reader { .. } | Lock::ByobReader { .. } | Lock::Inner) | None => UNSUPPORTED,
    }
}

#[tactic(auto, unfolding(ws_steps::specs::Calls::begin))]
pub(crate) fn close(tables: &mut Tables, i: StreamId) -> Reply
    requires ready { CanBegin tables.old }
    ensures { Answers (calls.begin (call.Close i) (slots_of tables.old)) result tables.old tables.new }
{
    if !tables.has_writable(i) {
        return UNSUPPORTED;
    }
    if tables.writable(i).is_locked() {
        return rejected(tables);
    }
    close_stream(tables, i)
}

#[tactic(auto, unfolding(ws_steps::specs::Calls::begin))]
pub(crate) fn close_by(tables: &mut Tables, l: LockId) -> Reply
    requires ready { CanBegin tables.old }
    ensures { Answers (calls.begin (call.CloseBy l) (slots_of tables.old)) result tables.old tables.new }
{
    match tables.lock(l) {
        Some(Lock::Writer(i)) => {
            if !tables.has_writable(i) {
                return UNSUPPORTED;
            }
            close_stream(tables, i)
        }
        Some(Lock::ReleasedWriter(_)) => rejected(tables),
        Some(Lock::Reader { .. } | Lock::ByobReader { .. } | Lock::Inner) | None => UNSUPPORTED,
    }
}

#[tactic(auto, unfolding(ws_steps::specs::Calls::begin))]
pub(crate) fn abort(tables: &mut Tables, i: StreamId, reason: Plain) -> Reply
    requires ready { CanBegin tables.old }
    ensures { Answers (calls.begin (call.Abort i reason) (slots_of tables.old)) result tables.old tables.new }
{
    if !tables.has_writable(i) {
        return UNSUPPORTED;
    }
    if tables.writable(i).is_locked() {
        return rejected(tables);
    }
    abort_stream(tables, i, reason)
}

#[tactic(auto, unfolding(ws_steps::specs::Calls::begin))]
pub(crate) fn abort_by(tables: &mut Tables, l: LockId, reason: Plain) -> Reply
    requires ready { CanBegin tables.old }
    ensures { Answers (calls.begin (call.AbortBy l reason) (slots_of tables.old)) result tables.old tables.new }
{
    match tables.lock(l) {
        Some(Lock::Writer(i)) => {
            if !tables.has_writable(i) {
                return UNSUPPORTED;
            }
            abort_stream(tables, i, reason)
        }
        Some(Lock::ReleasedWriter(_)) => rejected(tables),
        Some(Lock::Reader { .. } | Lock::ByobReader { .. } | Lock::Inner) | None => UNSUPPORTED,
    }
}

#[tactic(auto, unfolding(ws_steps::specs::Calls::begin))]
pub(crate) fn desired_by(tables: &mut Tables, l: LockId) -> Reply
    requires ready { CanBegin tables.old }
    ensures { Answers (calls.begin (call.DesiredBy l) (slots_of tables.old)) result tables.old tables.new }
{
    match tables.lock(l) {
        Some(Lock::Writer(i)) => {
            if !tables.has_writable(i) {
                return UNSUPPORTED;
            }
            let size = tables.writable(i).desired_size();
            Reply::Size(size)
        }
        Some(Lock::ReleasedWriter(_)) => TYPE_ERROR,
        Some(Lock::Reader { .. } | Lock::ByobReader { .. } | Lock::Inner) | None => UNSUPPORTED,
    }
}
