//! The operations of a writable stream by their names.
ghost use Rattle.std.specs.Prelude.{◌≡◌, false};
ghost use Rattle.ws_promise.specs.Seen.{HasEffectRoom, HasEventRoom, HasPromiseRoom};
ghost use Rattle.ws_steps.specs.Operations.{writable_operation};
ghost use Rattle.ws_steps.specs.Places.{own_writable};
ghost use Rattle.ws_writable.specs.Seen.{HasRoomFor, acts_of, is_common};

use crate::Writable;
use ws_promise::{Agenda, Promises, taken};
use ws_steps::WritableOperation;
use ws_value::StreamId;

impl Writable {
    /// Performs an operation of the stream, whose number is `me`.
    pub fn perform(
        &mut self,
        me: StreamId,
        p: &mut Promises,
        fx: &mut Agenda,
        operation: &mut WritableOperation,
    )
        requires room { HasRoomFor operation.old self.old p.old }
        requires effect_room { HasEffectRoom 1 fx.old }
        ensures row { acts_of self.new p.new fx.new
            ≡ writable_operation me operation.old (acts_of self.old p.old fx.old) }
        ensures room { self.new.room ≡ self.old.room }
        ensures promise_room { p.new.room ≡ p.old.room }
        ensures effect_room { fx.new.capacity ≡ fx.old.capacity }
    {
        match operation {
            WritableOperation::Write(chunk, promise) => self.writer_write(
                me,
                p,
                fx,
                taken(chunk),
                *promise,
            ),
            WritableOperation::HandOn(taker) => self.hand_on(me, *taker, fx),
            WritableOperation::WriteSettled(outcome) => self.write_settled(me, p, fx, *outcome),
            _ => self.perform_uncommon(me, p, fx, operation),
        }
    }

    /// Performs an operation that the way of a chunk doesn't meet: apart, so that `perform` has no locals for it.
    #[cold]
    #[inline(never)]
    fn perform_uncommon(
        &mut self,
        me: StreamId,
        p: &mut Promises,
        fx: &mut Agenda,
        operation: &mut WritableOperation,
    )
        requires uncommon { is_common operation.old ≡ false }
        requires room { HasRoomFor operation.old self.old p.old }
        requires effect_room { HasEffectRoom 1 fx.old }
        ensures row { acts_of self.new p.new fx.new
            ≡ writable_operation me operation.old (acts_of self.old p.old fx.old) }
        ensures room { self.new.room ≡ self.old.room }
        ensures promise_room { p.new.room ≡ p.old.room }
        ensures effect_room { fx.new.capacity ≡ fx.old.capacity }
    {
        match operation {
            WritableOperation::SetUpWriter(writer) => self.set_up_writer(p, *writer),
            WritableOperation::ReleaseWriter => self.writer_release(p),
            WritableOperation::Close(promise) => self.stream_close(me, p, fx, *promise),
            WritableOperation::ClosePropagating(promise) => {
                self.close_with_error_propagation(me, p, fx, *promise)
            }
            WritableOperation::Abort(reason, promise) => {
                self.stream_abort(me, p, fx, *reason, *promise)
            }
            WritableOperation::AbortIfWritable(reason, promise) => {
                self.abort_if_writable(me, p, fx, *reason, *promise)
            }
            WritableOperation::ErrorIfNeeded(e) => self.controller_error_if_needed(me, p, fx, *e),
            WritableOperation::StartSettled(outcome) => self.start_settled(me, p, fx, *outcome),
            WritableOperation::CloseSettled(outcome) => self.close_settled(me, p, fx, *outcome),
            WritableOperation::AbortSettled(promise, outcome) => {
                self.abort_settled(p, *promise, *outcome)
            }
            WritableOperation::Write(_, _)
            | WritableOperation::HandOn(_)
            | WritableOperation::WriteSettled(_) => unreachable!(),
        }
    }
}
