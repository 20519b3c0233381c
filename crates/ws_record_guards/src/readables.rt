//! Readable streams with a default controller.
ghost use Rattle.std.specs.Prelude.{◌≡◌, ◌≤◌, ◌+◌, Ok, length, not, true, false};
ghost use Rattle.ws_promise.specs.Seen.{HasEffectRoom, Seen, SeenAgenda};
ghost use Rattle.ws_readable.specs.Seen.{HasQueueRoom, HasRequestRoom, acts_of, pulling_where};
ghost use Rattle.ws_steps.specs.Queues as queues;
ghost use Rattle.ws_steps.specs.Readable as rows;
ghost use Rattle.ws_steps.specs.declared.effects.Effect.TheVariants as effect;
ghost use Rattle.ws_value.specs.declared.value.Plain.TheVariants.{Undefined};

use ws_promise::Agenda;
use ws_readable::Readable;
use ws_steps::ReadRequest;
use ws_value::{StreamId, Value};

/// ReadableStreamDefaultControllerShouldCallPull.
pub fn should_call_pull(stream: &Readable) -> bool
    ensures { result ≡ rows.should_call_pull stream.now.slots }
{
    stream.should_call_pull()
}

/// Performs the pull algorithm, or, where it is pulling already, pulls again afterwards.
pub fn call_pull(stream: &mut Readable, me: StreamId, fx: &mut Agenda)
    requires { HasEffectRoom 1 fx.old }
    ensures row { (p : Seen) → acts_of stream.new p fx.new ≡ rows.call_pull me (acts_of stream.old p fx.old) }
    ensures room { stream.new.room ≡ stream.old.room }
    ensures effect_room { fx.new.capacity ≡ fx.old.capacity }
    ensures caused { length fx.new.effects ≤ 1 + length fx.old.effects }
    ensures requests { stream.new.slots.requests ≡ stream.old.slots.requests }
    ensures close_requested { stream.new.slots.close_requested ≡ stream.old.slots.close_requested }
{
    stream.call_pull(me, fx);
}

/// The controller's reaction to its pull algorithm, where that succeeded: whether it is to be performed again.
pub fn pull_done(stream: &mut Readable) -> bool
    ensures row { (me : StreamId) (p : Seen) (fx : SeenAgenda)
        → rows.pull_settled me (Ok Undefined) (acts_of stream.old p fx)
        ≡ pulling_where result me (acts_of stream.new p fx) }
    ensures room { stream.new.room ≡ stream.old.room }
{
    stream.pull_done()
}

/// ReadableStreamDefaultControllerCallPullIfNeeded, where the stream can close or enqueue: whether the pull algorithm
/// is to be performed.
pub fn pulls_directly(stream: &mut Readable) -> bool
    requires { rows.can_close_or_enqueue stream.old.slots ≡ true }
    ensures row { (me : StreamId) (p : Seen) (fx : SeenAgenda) → rows.call_pull_if_needed me (acts_of stream.old p fx)
        ≡ pulling_where result me (acts_of stream.new p fx) }
    ensures room { stream.new.room ≡ stream.old.room }
    ensures requests { stream.new.slots.requests ≡ stream.old.slots.requests }
    ensures queue { stream.new.slots.queue ≡ stream.old.slots.queue }
{
    stream.pulls_directly()
}

/// Whether the stream is locked and a read request waits.
pub fn has_waiting_request(stream: &Readable) -> bool
    ensures { result ≡ not (queues.is_empty (rows.waiting stream.now.slots)) }
{
    stream.has_waiting_request()
}

/// ReadableStreamDefaultControllerEnqueue, where the stream can take a chunk and a request waits for it: the request
/// that the chunk is handed to, before a pull that may be needed.
pub fn hand_directly(stream: &mut Readable) -> ReadRequest
    requires takes { rows.can_close_or_enqueue stream.old.slots ≡ true }
    requires waits { queues.is_empty (rows.waiting stream.old.slots) ≡ false }
    ensures row { (me : StreamId) (chunk : Value) (p : Seen) (fx : SeenAgenda)
        → rows.controller_enqueue me chunk (acts_of stream.old p fx) ≡ rows.call_pull_if_needed me
        (rows.causing (effect.ChunkSteps me result chunk) (acts_of stream.new p fx)) }
    ensures going { rows.can_close_or_enqueue stream.new.slots ≡ true }
    ensures room { stream.new.room ≡ stream.old.room }
    ensures requests { 1 + length stream.new.slots.requests ≡ length stream.old.slots.requests }
    ensures queue { stream.new.slots.queue ≡ stream.old.slots.queue }
{
    stream.hand_directly()
}

/// ReadableStreamDefaultControllerEnqueue, where the stream can take a chunk and no request waits for it: the chunk
/// goes into the queue, before a pull that may be needed.
pub fn keep_directly(stream: &mut Readable, chunk: Value)
    requires takes { rows.can_close_or_enqueue stream.old.slots ≡ true }
    requires none_waits { queues.is_empty (rows.waiting stream.old.slots) ≡ true }
    requires queue { HasQueueRoom 1 stream.old }
    ensures row { (me : StreamId) (p : Seen) (fx : SeenAgenda)
        → rows.controller_enqueue me chunk (acts_of stream.old p fx)
        ≡ rows.call_pull_if_needed me (acts_of stream.new p fx) }
    ensures going { rows.can_close_or_enqueue stream.new.slots ≡ true }
    ensures room { stream.new.room ≡ stream.old.room }
    ensures requests { stream.new.slots.requests ≡ stream.old.slots.requests }
    ensures queue { length stream.new.slots.queue ≡ 1 + length stream.old.slots.queue }
{
    stream.keep_directly(chunk);
}

/// ReadableStreamDefaultReaderRead, where the stream can close or enqueue and there is a chunk: the chunk, which is
/// handed to the request after a pull that may be needed.
pub fn take_directly(stream: &mut Readable) -> Value
    requires gives { rows.can_close_or_enqueue stream.old.slots ≡ true }
    requires some { queues.is_empty stream.old.slots.queue ≡ false }
    ensures row { (me : StreamId) (request : ReadRequest) (p : Seen) (fx : SeenAgenda)
        → rows.default_reader_read me request (acts_of stream.old p fx)
        ≡ rows.causing (effect.ChunkSteps me request result) (rows.call_pull_if_needed me (acts_of stream.new p fx)) }
    ensures going { rows.can_close_or_enqueue stream.new.slots ≡ true }
    ensures room { stream.new.room ≡ stream.old.room }
    ensures requests { stream.new.slots.requests ≡ stream.old.slots.requests }
    ensures queue { 1 + length stream.new.slots.queue ≡ length stream.old.slots.queue }
{
    stream.take_directly()
}

/// ReadableStreamDefaultReaderRead, where the stream can close or enqueue and there is no chunk: the request waits,
/// before a pull that may be needed.
pub fn wait_directly(stream: &mut Readable, request: ReadRequest)
    requires gives { rows.can_close_or_enqueue stream.old.slots ≡ true }
    requires none { queues.is_empty stream.old.slots.queue ≡ true }
    requires requests { HasRequestRoom 1 stream.old }
    ensures row { (me : StreamId) (p : Seen) (fx : SeenAgenda)
        → rows.default_reader_read me request (acts_of stream.old p fx)
        ≡ rows.call_pull_if_needed me (acts_of stream.new p fx) }
    ensures going { rows.can_close_or_enqueue stream.new.slots ≡ true }
    ensures room { stream.new.room ≡ stream.old.room }
    ensures requests { length stream.new.slots.requests ≡ 1 + length stream.old.slots.requests }
    ensures queue { stream.new.slots.queue ≡ stream.old.slots.queue }
{
    stream.wait_directly(request);
}
