//! Writable streams.
ghost use Rattle.std.specs.Prelude.{◌≡◌, Ok, true};
ghost use Rattle.ws_promise.specs.Seen.{HasEffectRoom, HasPromiseRoom};
ghost use Rattle.ws_steps.specs.Writable as rows;
ghost use Rattle.ws_steps.specs.WritableLooks as looks;
ghost use Rattle.ws_value.specs.declared.value.Plain.TheVariants.{Undefined};
ghost use Rattle.ws_writable.specs.Seen.{HasQueueRoom, HasRequestRoom, acts_of, writing_where};

use ws_promise::{Agenda, Promises};
use ws_value::{PromiseId, StreamId, Value};
use ws_writable::Writable;

/// WritableStreamDefaultControllerAdvanceQueueIfNeeded.
pub fn advance_queue(stream: &mut Writable, me: StreamId, p: &mut Promises, fx: &mut Agenda)
    requires effect_room { HasEffectRoom 1 fx.old }
    ensures row { acts_of stream.new p.new fx.new ≡ rows.advance_queue me (acts_of stream.old p.old fx.old) }
    ensures room { stream.new.room ≡ stream.old.room }
    ensures promise_room { p.new.room ≡ p.old.room }
    ensures effect_room { fx.new.capacity ≡ fx.old.capacity }
{
    stream.advance_queue(me, p, fx);
}

/// WritableStreamDefaultWriterGetDesiredSize.
pub fn desired_size(stream: &Writable) -> Option<i128>
    ensures { result ≡ looks.desired_by stream.now.slots stream.now.slots.state }
{
    stream.desired_size()
}

/// The controller's reaction to its write algorithm, where that succeeded: whether it is to be performed again.
pub fn write_done(stream: &mut Writable, me: StreamId, p: &mut Promises, fx: &mut Agenda) -> bool
    requires promise_room { HasPromiseRoom 1 p.old }
    requires effect_room { HasEffectRoom 1 fx.old }
    ensures row { rows.write_settled me (Ok Undefined) (acts_of stream.old p.old fx.old)
        ≡ writing_where result me (acts_of stream.new p.new fx.new) }
    ensures quiet { result ≡ true → fx.new ≡ fx.old }
    ensures room { stream.new.room ≡ stream.old.room }
    ensures promise_room { p.new.room ≡ p.old.room }
    ensures effect_room { fx.new.capacity ≡ fx.old.capacity }
{
    stream.write_done(me, p, fx)
}

/// WritableStreamDefaultWriterWrite, where the writer has the stream, with the promise that it answers: whether the
/// write algorithm is to be performed.
pub fn write_directly(
    stream: &mut Writable,
    me: StreamId,
    p: &mut Promises,
    fx: &mut Agenda,
    chunk: Value,
    promise: PromiseId,
) -> bool
    requires queue_room { HasQueueRoom 1 stream.old }
    requires request_room { HasRequestRoom 1 stream.old }
    requires promise_room { HasPromiseRoom 1 p.old }
    requires effect_room { HasEffectRoom 1 fx.old }
    ensures row { rows.writer_write me chunk promise (acts_of stream.old p.old fx.old)
        ≡ writing_where result me (acts_of stream.new p.new fx.new) }
    ensures quiet { result ≡ true → fx.new ≡ fx.old }
    ensures room { stream.new.room ≡ stream.old.room }
    ensures promise_room { p.new.room ≡ p.old.room }
    ensures effect_room { fx.new.capacity ≡ fx.old.capacity }
{
    stream.write_directly(me, p, fx, chunk, promise)
}
