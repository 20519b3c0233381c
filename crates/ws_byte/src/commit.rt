//! How filled rooms are handed back.
ghost use Rattle.std.specs.Prelude.{◌≡◌, ◌≤◌, ◌+◌, ◌<◌, length, []};
ghost use Rattle.std.specs.VecDeque.{deque_capacity, deque_len};
ghost use Rattle.ws_promise.specs.Seen.{HasEffectRoom, Seen};
ghost use Rattle.ws_steps.specs.Bytes as rows;
ghost use Rattle.ws_byte.specs.Seen.{acts_with};

use std::collections::VecDeque;
use ws_descriptors::Descriptor;
use ws_promise::Agenda;
use ws_queue::ByteQueue;
use ws_readable::Readable;
use ws_steps::{Effect, ReadRequest, ReadableState};
use ws_value::{Chunk, StreamId, Value};

/// The steps of a request with filled bytes: its close steps where the stream is closed.
fn commit_steps(me: StreamId, filled: Chunk, request: ReadRequest, state: ReadableState) -> Effect
    ensures { result ≡ rows.commit_steps me filled request state }
{
    match state {
        ReadableState::Readable | ReadableState::Errored => {
            Effect::ChunkSteps(me, request, Value::Bytes(filled))
        }
        ReadableState::Closed => Effect::CloseStepsWith(me, request, filled),
    }
}

/// ReadableByteStreamControllerCommitPullIntoDescriptor, of a stream with these parts.
pub fn commit(
    stream: &mut Readable,
    queue: &mut ByteQueue,
    me: StreamId,
    fx: &mut Agenda,
    filled: Chunk,
)
    requires place { length queue.old.entries < queue.old.capacity }
    requires effects { HasEffectRoom (length stream.old.slots.requests) fx.old }
    ensures row { (s : rows.Slots) (p : Seen) → acts_with s stream.new queue.new p fx.new
        ≡ rows.commit_to me filled (acts_with s stream.old queue.old p fx.old) stream.old.slots.requests }
    ensures room { stream.new.room ≡ stream.old.room }
    ensures capacity { queue.new.capacity ≡ queue.old.capacity }
    ensures place { length queue.new.entries ≤ 1 + length queue.old.entries }
    ensures effect_room { fx.new.capacity ≡ fx.old.capacity }
    ensures caused { length fx.new.effects + length stream.new.slots.requests
        ≤ length fx.old.effects + length stream.old.slots.requests }
{
    match stream.pop_request() {
        Some(request) => fx.push(commit_steps(me, filled, request, stream.state())),
        None => queue.push(filled),
    }
}

/// Commits all descriptors that are ready, in order.
pub fn commit_all(
    stream: &mut Readable,
    queue: &mut ByteQueue,
    ready: &mut VecDeque<Descriptor>,
    me: StreamId,
    fx: &mut Agenda,
)
    requires places { deque_len ready.old + length queue.old.entries ≤ queue.old.capacity }
    requires effects { HasEffectRoom (length stream.old.slots.requests) fx.old }
    ensures row { (s : rows.Slots) (p : Seen) → acts_with s stream.new queue.new p fx.new
        ≡ rows.commit_all me ready.old.items (acts_with s stream.old queue.old p fx.old) }
    ensures emptied { ready.new.items ≡ [] }
    ensures ready_capacity { deque_capacity ready.new ≡ deque_capacity ready.old }
    ensures room { stream.new.room ≡ stream.old.room }
    ensures capacity { queue.new.capacity ≡ queue.old.capacity }
    ensures places { length queue.new.entries ≤ deque_len ready.old + length queue.old.entries }
    ensures effect_room { fx.new.capacity ≡ fx.old.capacity }
    ensures caused { length fx.new.effects + length stream.new.slots.requests
        ≤ length fx.old.effects + length stream.old.slots.requests }
{
    while let Some(first) = ready.pop_front() {
        commit(stream, queue, me, fx, first.into_chunk());
    }
}
