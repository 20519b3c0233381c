//! Readable streams with a byte controller.
ghost use Rattle.std.specs.Prelude.{◌≡◌, ◌≤◌, ◌+◌, ◌*◌, length};
ghost use Rattle.ws_byte.specs.Seen.{HasByteRoomFor, HasRoomFor, acts_of, spares_for};
ghost use Rattle.ws_promise.specs.Seen.{HasEffectRoom};
ghost use Rattle.ws_steps.specs.Descriptors as descriptors;
ghost use Rattle.ws_steps.specs.Operations.{byte_operation, byte_readable_operation};

use ws_byte::ByteStream;
use ws_promise::{Agenda, Promises};
use ws_steps::{ByteOperation, ReadableOperation};
use ws_value::{Fault, StreamId};

/// Performs an operation of the stream that either kind of controller has.
pub fn perform(
    stream: &mut ByteStream,
    me: StreamId,
    p: &mut Promises,
    fx: &mut Agenda,
    operation: ReadableOperation,
)
    requires room { HasRoomFor me operation stream.old }
    requires effect_room { HasEffectRoom (2 + length stream.old.slots.stream.requests) fx.old }
    ensures row { acts_of stream.new p.new fx.new
        ≡ byte_readable_operation me operation (acts_of stream.old p.old fx.old) }
    ensures room { stream.new.room ≡ stream.old.room }
    ensures spares { stream.old.spares ≤ spares_for operation + stream.new.spares }
    ensures promise_room { p.new.room ≡ p.old.room }
    ensures effect_room { fx.new.capacity ≡ fx.old.capacity }
{
    stream.perform(me, p, fx, operation);
}

/// Performs an operation of the stream that only a byte controller has.
pub fn perform_byte(
    stream: &mut ByteStream,
    me: StreamId,
    p: &mut Promises,
    fx: &mut Agenda,
    operation: ByteOperation,
)
    requires room { HasByteRoomFor operation stream.old }
    requires effect_room { HasEffectRoom (2 + 2 * length stream.old.slots.stream.requests) fx.old }
    ensures row { acts_of stream.new p.new fx.new ≡ byte_operation me operation (acts_of stream.old p.old fx.old) }
    ensures room { stream.new.room ≡ stream.old.room }
    ensures spares { stream.new.spares ≡ stream.old.spares }
    ensures promise_room { p.new.room ≡ p.old.room }
    ensures effect_room { fx.new.capacity ≡ fx.old.capacity }
{
    stream.perform_byte(me, p, fx, operation);
}

/// What a response of `n` bytes throws.
pub fn respond_throws(stream: &ByteStream, n: usize) -> Option<Fault>
    ensures { result ≡ descriptors.respond_throws n stream.now.slots.stream.state stream.now.slots.descriptors }
{
    stream.respond_throws(n)
}
