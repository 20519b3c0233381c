//! The operations that stand on the agenda.
ghost use Rattle.std.specs.Prelude.{◌≡◌, ◌+◌, false, length};
ghost use Rattle.ws_promise.specs.Seen.{HasEffectRoom};
ghost use Rattle.ws_readable.specs.Seen.{HasRoomFor, acts_of, is_common};
ghost use Rattle.ws_steps.specs.Operations.{readable_operation};

use crate::Readable;
use ws_promise::{Agenda, Promises, taken};
use ws_steps::ReadableOperation;
use ws_value::StreamId;

impl Readable {
    /// Performs an operation of the stream, whose number is `me`.
    pub fn perform(
        &mut self,
        me: StreamId,
        p: &mut Promises,
        fx: &mut Agenda,
        operation: &mut ReadableOperation,
    )
        requires room { HasRoomFor me operation.old self.old }
        requires effect_room { HasEffectRoom (2 + length self.old.slots.requests) fx.old }
        ensures row { acts_of self.new p.new fx.new
            ≡ readable_operation me operation.old (acts_of self.old p.old fx.old) }
        ensures room { self.new.room ≡ self.old.room }
        ensures promise_room { p.new.room ≡ p.old.room }
        ensures effect_room { fx.new.capacity ≡ fx.old.capacity }
    {
        match operation {
            ReadableOperation::Read(request) => self.default_reader_read(me, p, fx, *request),
            ReadableOperation::Enqueue(chunk) => self.controller_enqueue(me, fx, taken(chunk)),
            ReadableOperation::PullSettled(outcome) => self.pull_settled(me, p, fx, *outcome),
            _ => self.perform_uncommon(me, p, fx, operation),
        }
    }

    /// Performs an operation that the way of a chunk doesn't meet: apart, so that `perform` has no locals for it.
    #[cold]
    #[inline(never)]
    fn perform_uncommon(
        &mut self,
        me: StreamId,
        p: &mut Promises,
        fx: &mut Agenda,
        operation: &mut ReadableOperation,
    )
        requires uncommon { is_common operation.old ≡ false }
        requires room { HasRoomFor me operation.old self.old }
        requires effect_room { HasEffectRoom (2 + length self.old.slots.requests) fx.old }
        ensures row { acts_of self.new p.new fx.new
            ≡ readable_operation me operation.old (acts_of self.old p.old fx.old) }
        ensures room { self.new.room ≡ self.old.room }
        ensures promise_room { p.new.room ≡ p.old.room }
        ensures effect_room { fx.new.capacity ≡ fx.old.capacity }
    {
        match operation {
            ReadableOperation::InitializeReader(closed) => self.reader_generic_initialize(
                p, *closed,
            ),
            ReadableOperation::ReleaseReader => self.reader_release(me, p, fx),
            ReadableOperation::Disturb => self.disturb(),
            ReadableOperation::Cancel(r, promise) => self.stream_cancel(me, p, fx, *r, *promise),
            ReadableOperation::CancelIfReadable(r, promise) => {
                self.cancel_if_readable(me, p, fx, *r, *promise)
            }
            ReadableOperation::Close => self.controller_close(me, p, fx),
            ReadableOperation::Error(e) => self.controller_error(me, p, fx, *e),
            ReadableOperation::StartSettled(outcome) => self.start_settled(me, p, fx, *outcome),
            ReadableOperation::Read(_)
            | ReadableOperation::Enqueue(_)
            | ReadableOperation::PullSettled(_) => unreachable!(),
        }
    }
}
