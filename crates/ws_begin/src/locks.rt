//! The calls that readers and writers both have.
ghost use Rattle.std.specs.Prelude.{◌≡◌, ◌<◌, ◌≤◌, ◌+◌, true, length, vec_len};
ghost use Rattle.ws_promise.specs.Seen.{HasPromiseRoom};
ghost use Rattle.ws_steps.specs.Slots.{has_source};
ghost use Rattle.ws_steps.specs.LockCalls as lock_calls;
ghost use Rattle.ws_steps.specs.Calls as calls;
ghost use Rattle.ws_begin.specs.Begin.{Answers, CanBegin, Renews, released_by};
ghost use Rattle.ws_steps.specs.declared.calls.Call.TheVariants as call;
ghost use Rattle.ws_tables.specs.View.{slots_of};

use crate::replies::UNSUPPORTED;
use ws_steps::{Effect, Lock, ReadableOperation, ReaderKind, Reply, WritableOperation, Writer};
use ws_tables::Tables;
use ws_value::{Fault, LockId, Plain, PromiseId, StreamId};

/// A promise that isn't kept becomes a new one, which is rejected with a TypeError. The answer is the promise from
/// then on.
#[tactic(auto, using(ws_tables::proofs::Places::fresh_length))]
fn renew(tables: &mut Tables, promise: PromiseId, kept: bool) -> PromiseId
    requires promise_room { HasPromiseRoom 1 tables.old.promises }
    requires effect_room { length tables.old.caused.effects < tables.old.caused.capacity }
    ensures id { result ≡ lock_calls.renewed promise tables.old.promises.table kept }
    ensures renews { Renews kept tables.old tables.new }
    ensures made { length tables.new.promises.table.entries ≤ length tables.old.promises.table.entries + 1 }
{
    if kept {
        return promise;
    }
    let renewed = tables.promises.fresh();
    let reason = Plain::Fault(Fault::TypeError);
    tables.caused.push(Effect::Settle(renewed, Err(reason)));
    renewed
}

/// A reader that was released.
fn released(kind: ReaderKind, closed: PromiseId) -> Lock
    ensures { result ≡ released_by kind closed }
{
    match kind {
        ReaderKind::Default => Lock::Reader {
            stream: None,
            closed,
        },
        ReaderKind::Byob => Lock::ByobReader {
            stream: None,
            closed,
        },
    }
}

/// A reader of this kind lets go of its stream.
fn release_reader(
    tables: &mut Tables,
    l: LockId,
    kind: ReaderKind,
    closed: PromiseId,
    i: StreamId,
) -> Reply
    requires lock { l.0 < vec_len tables.old.locks }
    requires there { has_source i (slots_of tables.old) ≡ true }
    requires ready { CanBegin tables.old }
    ensures { Answers (lock_calls.release_reader (released_by kind) l closed i (slots_of tables.old))
        result tables.old tables.new }
{
    let kept = tables.is_source_readable(i);
    let closed = renew(tables, closed, kept);
    let _locks = tables.locks.len();
    tables.locks[l.0 as usize] = released(kind, closed);
    tables
        .caused
        .push(Effect::Readable(i, ReadableOperation::ReleaseReader));
    Reply::Done
}

/// A writer lets go of its stream.
fn release_writer(tables: &mut Tables, l: LockId, i: StreamId, writer: Writer) -> Reply
    requires lock { l.0 < vec_len tables.old.locks }
    requires ready { CanBegin tables.old }
    ensures { Answers (lock_calls.release_writer l i writer (slots_of tables.old)) result tables.old tables.new }
{
    let kept = tables.promises.is_pending(writer.ready);
    let ready = renew(tables, writer.ready, kept);
    let kept = tables.promises.is_pending(writer.closed);
    let closed = renew(tables, writer.closed, kept);
    let _locks = tables.locks.len();
    tables.locks[l.0 as usize] = Lock::ReleasedWriter(Writer { ready, closed });
    tables
        .caused
        .push(Effect::Writable(i, WritableOperation::ReleaseWriter));
    Reply::Done
}

#[tactic(auto, unfolding(ws_steps::specs::Calls::begin))]
pub(crate) fn closed(tables: &mut Tables, l: LockId) -> Reply
    requires ready { CanBegin tables.old }
    ensures { Answers (calls.begin (call.Closed l) (slots_of tables.old)) result tables.old tables.new }
{
    match tables.lock(l) {
        Some(Lock::Reader { closed, .. } | Lock::ByobReader { closed, .. }) => {
            Reply::Promise(closed)
        }
        Some(Lock::Writer(i)) => match tables.writer(i) {
            Some(writer) => Reply::Promise(writer.closed),
            None => UNSUPPORTED,
        },
        Some(Lock::ReleasedWriter(writer)) => Reply::Promise(writer.closed),
        Some(Lock::Inner) | None => UNSUPPORTED,
    }
}

#[tactic(auto, unfolding(ws_steps::specs::Calls::begin))]
pub(crate) fn ready(tables: &mut Tables, l: LockId) -> Reply
    requires ready { CanBegin tables.old }
    ensures { Answers (calls.begin (call.Ready l) (slots_of tables.old)) result tables.old tables.new }
{
    match tables.lock(l) {
        Some(Lock::Writer(i)) => match tables.writer(i) {
            Some(writer) => Reply::Promise(writer.ready),
            None => UNSUPPORTED,
        },
        Some(Lock::ReleasedWriter(writer)) => Reply::Promise(writer.ready),
        Some(Lock::Reader { .. } | Lock::ByobReader { .. } | Lock::Inner) | None => UNSUPPORTED,
    }
}

#[tactic(auto, unfolding(ws_steps::specs::Calls::begin))]
pub(crate) fn release(tables: &mut Tables, l: LockId) -> Reply
    requires ready { CanBegin tables.old }
    ensures { Answers (calls.begin (call.Release l) (slots_of tables.old)) result tables.old tables.new }
{
    match tables.lock(l) {
        Some(
            Lock::Reader {
                stream: Some(i),
                closed,
            },
        ) => {
            if !tables.has_source(i) {
                return UNSUPPORTED;
            }
            release_reader(tables, l, ReaderKind::Default, closed, i)
        }
        Some(
            Lock::ByobReader {
                stream: Some(i),
                closed,
            },
        ) => {
            if !tables.has_source(i) {
                return UNSUPPORTED;
            }
            release_reader(tables, l, ReaderKind::Byob, closed, i)
        }
        Some(Lock::Reader { stream: None, .. } | Lock::ByobReader { stream: None, .. }) => {
            Reply::Done
        }
        Some(Lock::Writer(i)) => match tables.writer(i) {
            Some(writer) => release_writer(tables, l, i, writer),
            None => UNSUPPORTED,
        },
        Some(Lock::ReleasedWriter(_)) => Reply::Done,
        Some(Lock::Inner) | None => UNSUPPORTED,
    }
}
