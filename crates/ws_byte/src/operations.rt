//! The operations that stand on the agenda.
ghost use Rattle.std.specs.Prelude.{◌≡◌, ◌≤◌, ◌+◌, ◌*◌, length};
ghost use Rattle.ws_promise.specs.Seen.{HasEffectRoom};
ghost use Rattle.ws_steps.specs.Operations.{byte_operation, byte_readable_operation};
ghost use Rattle.ws_byte.specs.Seen.{HasByteRoomFor, HasRoomFor, acts_of, spares_for};

use crate::ByteStream;
use ws_promise::{Agenda, Promises};
use ws_steps::{ByteOperation, ReadableOperation, ReaderKind};
use ws_value::StreamId;

impl ByteStream {
    /// Performs an operation of the stream that either kind of controller has. Its number is `me`.
    pub fn perform(
        &mut self,
        me: StreamId,
        p: &mut Promises,
        fx: &mut Agenda,
        operation: ReadableOperation,
    )
        requires room { HasRoomFor me operation self.old }
        requires effect_room { HasEffectRoom (2 + length self.old.slots.stream.requests) fx.old }
        ensures row { acts_of self.new p.new fx.new
            ≡ byte_readable_operation me operation (acts_of self.old p.old fx.old) }
        ensures room { self.new.room ≡ self.old.room }
        ensures spares { self.old.spares ≤ spares_for operation + self.new.spares }
        ensures promise_room { p.new.room ≡ p.old.room }
        ensures effect_room { fx.new.capacity ≡ fx.old.capacity }
    {
        match operation {
            ReadableOperation::InitializeReader(closed) => {
                self.reader_initialize(p, ReaderKind::Default, closed)
            }
            ReadableOperation::ReleaseReader => self.reader_release(me, p, fx),
            ReadableOperation::Disturb => self.disturb(),
            ReadableOperation::Read(request) => self.read(me, p, fx, request),
            ReadableOperation::Cancel(r, promise) => self.stream_cancel(me, p, fx, r, promise),
            ReadableOperation::CancelIfReadable(r, promise) => {
                self.cancel_if_readable(me, p, fx, r, promise)
            }
            ReadableOperation::Enqueue(_) => {}
            ReadableOperation::Close => self.controller_close(me, p, fx),
            ReadableOperation::Error(e) => self.controller_error(me, p, fx, e),
            ReadableOperation::StartSettled(outcome) => self.start_settled(me, p, fx, outcome),
            ReadableOperation::PullSettled(outcome) => self.pull_settled(me, p, fx, outcome),
        }
    }

    /// Performs an operation of the stream that only a byte controller has. Its number is `me`.
    pub fn perform_byte(
        &mut self,
        me: StreamId,
        p: &mut Promises,
        fx: &mut Agenda,
        operation: ByteOperation,
    )
        requires room { HasByteRoomFor operation self.old }
        requires effect_room { HasEffectRoom (2 + 2 * length self.old.slots.stream.requests) fx.old }
        ensures row { acts_of self.new p.new fx.new ≡ byte_operation me operation (acts_of self.old p.old fx.old) }
        ensures room { self.new.room ≡ self.old.room }
        ensures spares { self.new.spares ≡ self.old.spares }
        ensures promise_room { p.new.room ≡ p.old.room }
        ensures effect_room { fx.new.capacity ≡ fx.old.capacity }
    {
        match operation {
            ByteOperation::InitializeByobReader(closed) => {
                self.reader_initialize(p, ReaderKind::Byob, closed)
            }
            ByteOperation::Enqueue(bytes) => self.controller_enqueue(me, fx, bytes),
            ByteOperation::PullInto {
                room,
                element,
                minimum,
                request,
            } => self.read_into(me, p, fx, room, element, minimum, request),
            ByteOperation::MakeRequest(request) => self.make_request(request),
            ByteOperation::Respond(bytes) => self.respond(me, fx, bytes),
        }
    }
}
