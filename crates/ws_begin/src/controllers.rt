//! The calls on controllers, and the looks at a stream.
ghost use Rattle.std.specs.Prelude.{◌≡◌, ◌≤◌, [], Result, false};
ghost use Rattle.ws_steps.specs.ControllerCalls as controller_calls;
ghost use Rattle.ws_steps.specs.Calls as calls;
ghost use Rattle.ws_steps.specs.Slots.{has_readable};
ghost use Rattle.ws_begin.specs.Begin.{Answers, CanBegin};
ghost use Rattle.ws_steps.specs.declared.calls.Call.TheVariants as call;
ghost use Rattle.ws_tables.specs.View.{slots_of};

use crate::replies::{TYPE_ERROR, UNSUPPORTED};
use ws_steps::{
    Answer, ByteOperation, Effect, Owner, ReadableOperation, Reply, TransformOperation,
    WritableOperation,
};
use ws_tables::Tables;
use ws_value::{HostId, Plain, StreamId, Value};

/// What a host's answer settles a promise with.
fn outcome_of(answer: Answer) -> Result<Plain, Plain>
    ensures { result ≡ controller_calls.outcome_of answer }
{
    match answer {
        Answer::Ok => Ok(Plain::Undefined),
        Answer::Fail(reason) => Err(reason),
    }
}

/// `controller.enqueue(chunk)` of a byte controller, which takes bytes alone, and some.
#[tactic(auto, using(crate::proofs::Looking::empty_length))]
fn enqueue_bytes(tables: &mut Tables, i: StreamId, chunk: Value) -> Reply
    requires bytes { has_readable i (slots_of tables.old) ≡ false }
    requires quiet { tables.old.caused.effects ≡ [] }
    requires effects { 1 ≤ tables.old.caused.capacity }
    ensures { Answers (controller_calls.enqueue_call i chunk (slots_of tables.old)) result tables.old tables.new }
{
    if !tables.has_byte(i) {
        return UNSUPPORTED;
    }
    let Value::Bytes(bytes) = chunk else {
        return TYPE_ERROR;
    };
    if bytes.is_empty() || !tables.byte(i).can_take() {
        return TYPE_ERROR;
    }
    tables
        .caused
        .push(Effect::Byte(i, ByteOperation::Enqueue(bytes)));
    Reply::Done
}

/// What the enqueuing of a chunk begins with.
#[inline(always)]
#[tactic(auto, using(crate::proofs::Looking::default_no_byte), unfolding(ws_steps::specs::Calls::begin))]
pub fn enqueue(tables: &mut Tables, i: StreamId, chunk: Value) -> Reply
    requires quiet { tables.old.caused.effects ≡ [] }
    requires effects { 1 ≤ tables.old.caused.capacity }
    ensures { Answers (calls.begin (call.Enqueue i chunk) (slots_of tables.old)) result tables.old tables.new }
{
    if !tables.has_readable(i) {
        return enqueue_bytes(tables, i, chunk);
    }
    let can_enqueue = tables.readable(i).can_close_or_enqueue();
    match tables.readable(i).owner() {
        Owner::Host if can_enqueue => tables
            .caused
            .push(Effect::Readable(i, ReadableOperation::Enqueue(chunk))),
        Owner::HalfOf(t) if can_enqueue => tables
            .caused
            .push(Effect::Transform(t, TransformOperation::Enqueue(chunk))),
        Owner::Host | Owner::HalfOf(_) => return TYPE_ERROR,
        Owner::BranchOf(_, _) | Owner::EndOf(_) => return UNSUPPORTED,
    }
    Reply::Done
}

/// `controller.close()` of a byte controller. Where the first descriptor has a part of an element it errors the
/// stream, and throws.
fn finish_bytes(tables: &mut Tables, i: StreamId) -> Reply
    requires bytes { has_readable i (slots_of tables.old) ≡ false }
    requires ready { CanBegin tables.old }
    ensures { Answers (controller_calls.finish_call i (slots_of tables.old)) result tables.old tables.new }
{
    if !tables.has_byte(i) {
        return UNSUPPORTED;
    }
    if !tables.byte(i).can_take() {
        return TYPE_ERROR;
    }
    let throws = tables.byte(i).close_throws();
    tables
        .caused
        .push(Effect::Readable(i, ReadableOperation::Close));
    if throws { TYPE_ERROR } else { Reply::Done }
}

#[tactic(auto, using(crate::proofs::Looking::default_no_byte), unfolding(ws_steps::specs::Calls::begin))]
pub(crate) fn finish(tables: &mut Tables, i: StreamId) -> Reply
    requires ready { CanBegin tables.old }
    ensures { Answers (calls.begin (call.Finish i) (slots_of tables.old)) result tables.old tables.new }
{
    if !tables.has_readable(i) {
        return finish_bytes(tables, i);
    }
    match tables.readable(i).owner() {
        Owner::Host => {}
        Owner::HalfOf(_) | Owner::BranchOf(_, _) | Owner::EndOf(_) => return UNSUPPORTED,
    }
    if !tables.readable(i).can_close_or_enqueue() {
        return TYPE_ERROR;
    }
    tables
        .caused
        .push(Effect::Readable(i, ReadableOperation::Close));
    Reply::Done
}

#[tactic(auto, unfolding(ws_steps::specs::Calls::begin))]
pub(crate) fn fail(tables: &mut Tables, i: StreamId, reason: Plain) -> Reply
    requires ready { CanBegin tables.old }
    ensures { Answers (calls.begin (call.Fail i reason) (slots_of tables.old)) result tables.old tables.new }
{
    if tables.has_readable(i) {
        match tables.readable(i).owner() {
            Owner::Host => tables
                .caused
                .push(Effect::Readable(i, ReadableOperation::Error(reason))),
            Owner::HalfOf(t) => tables
                .caused
                .push(Effect::Transform(t, TransformOperation::Error(reason))),
            Owner::BranchOf(_, _) | Owner::EndOf(_) => return UNSUPPORTED,
        }
        return Reply::Done;
    }
    if tables.has_byte(i) {
        tables
            .caused
            .push(Effect::Readable(i, ReadableOperation::Error(reason)));
        return Reply::Done;
    }
    if !tables.has_writable(i) {
        return UNSUPPORTED;
    }
    match tables.writable(i).owner() {
        Owner::Host => {}
        Owner::HalfOf(_) | Owner::BranchOf(_, _) | Owner::EndOf(_) => return UNSUPPORTED,
    }
    tables.caused.push(Effect::Writable(i, WritableOperation::ErrorIfNeeded(reason)));
    Reply::Done
}

#[tactic(auto, unfolding(ws_steps::specs::Calls::begin))]
pub(crate) fn desired(tables: &mut Tables, i: StreamId) -> Reply
    requires ready { CanBegin tables.old }
    ensures { Answers (calls.begin (call.Desired i) (slots_of tables.old)) result tables.old tables.new }
{
    if !tables.has_source(i) {
        return UNSUPPORTED;
    }
    match tables.owner(i) {
        Owner::Host | Owner::HalfOf(_) => {}
        Owner::BranchOf(_, _) | Owner::EndOf(_) => return UNSUPPORTED,
    }
    let size = tables.source_desired_size(i);
    Reply::Size(size)
}

#[tactic(auto, unfolding(ws_steps::specs::Calls::begin))]
pub(crate) fn settle(tables: &mut Tables, h: HostId, answer: Answer) -> Reply
    requires ready { CanBegin tables.old }
    ensures { Answers (calls.begin (call.Settle h answer) (slots_of tables.old)) result tables.old tables.new }
{
    let Some(promise) = tables.host(h) else {
        return UNSUPPORTED;
    };
    let _hosts = tables.hosts.len();
    tables.hosts.settle(h.0 as usize);
    tables
        .caused
        .push(Effect::Settle(promise, outcome_of(answer)));
    Reply::Done
}

#[tactic(auto, unfolding(ws_steps::specs::Calls::begin))]
pub(crate) fn state(tables: &mut Tables, i: StreamId) -> Reply
    requires ready { CanBegin tables.old }
    ensures { Answers (calls.begin (call.State i) (slots_of tables.old)) result tables.old tables.new }
{
    if tables.has_source(i) {
        let state = tables.look_at_source(i);
        return Reply::State(state);
    }
    if !tables.has_writable(i) {
        return UNSUPPORTED;
    }
    let state = tables.writable(i).look();
    Reply::State(state)
}
