//! The operations of a transform stream by their names.
ghost use Rattle.std.specs.Prelude.{◌≡◌, false, true};
ghost use Rattle.ws_promise.specs.Seen.{HasEffectRoom};
ghost use Rattle.ws_steps.specs.Operations.{transform_operation};
ghost use Rattle.ws_steps.specs.declared.transform.Halves.{Halves};
ghost use Rattle.ws_transform.specs.Seen.{HasRoomFor, acts_of, is_common, looks};

use crate::{Transform, TransformHalves};
use ws_promise::{Agenda, Promises, taken};
use ws_steps::{TransformId, TransformOperation};

/// Whether a transform stream looks at its two halves in this operation.
#[inline(always)]
pub fn looks_at_halves(operation: &TransformOperation) -> bool
    ensures { result ≡ looks operation.now }
{
    match operation {
        TransformOperation::WriteGoesOn(_)
        | TransformOperation::TransformChunk(_, _)
        | TransformOperation::Enqueued
        | TransformOperation::FlushSettled(_, _)
        | TransformOperation::AbortSettled(_, _, _)
        | TransformOperation::CancelSettled(_, _, _) => true,
        TransformOperation::SinkWrite(_)
        | TransformOperation::Enqueue(_)
        | TransformOperation::Error(_)
        | TransformOperation::Unblock
        | TransformOperation::Terminate
        | TransformOperation::SourcePull(_)
        | TransformOperation::SinkClose(_)
        | TransformOperation::SinkAbort(_, _)
        | TransformOperation::SourceCancel(_, _) => false,
    }
}

impl Transform {
    /// Performs an operation in which the transform stream, whose number is `me`, looks at its two halves.
    pub fn perform_with_halves(
        &mut self,
        me: TransformId,
        halves: &TransformHalves,
        p: &mut Promises,
        fx: &mut Agenda,
        operation: &mut TransformOperation,
    )
        requires looking { looks operation.old ≡ true }
        requires room { HasRoomFor operation.old p.old }
        requires effect_room { HasEffectRoom 3 fx.old }
        ensures row { acts_of self.new p.new fx.new
            ≡ transform_operation me halves.now operation.old (acts_of self.old p.old fx.old) }
        ensures promise_room { p.new.room ≡ p.old.room }
        ensures effect_room { fx.new.capacity ≡ fx.old.capacity }
    {
        match operation {
            TransformOperation::WriteGoesOn(promise) => self.write_goes_on(
                me, halves, p, fx, *promise,
            ),
            TransformOperation::TransformChunk(chunk, promise) => {
                self.transform_chunk(me, halves, fx, taken(chunk), *promise)
            }
            TransformOperation::Enqueued => self.enqueued(halves, p),
            TransformOperation::FlushSettled(_, _)
            | TransformOperation::AbortSettled(_, _, _)
            | TransformOperation::CancelSettled(_, _, _) => {
                self.perform_finish(me, halves, p, fx, operation)
            }
            _ => unreachable!(),
        }
    }

    /// Performs an operation in which the transform stream doesn't look at its two halves, whatever they are.
    #[inline(always)]
    pub fn perform_without_halves(
        &mut self,
        me: TransformId,
        p: &mut Promises,
        fx: &mut Agenda,
        operation: &mut TransformOperation,
    )
        requires unlooking { looks operation.old ≡ false }
        requires room { HasRoomFor operation.old p.old }
        requires effect_room { HasEffectRoom 3 fx.old }
        ensures row { (halves : Halves) → acts_of self.new p.new fx.new
            ≡ transform_operation me halves operation.old (acts_of self.old p.old fx.old) }
        ensures promise_room { p.new.room ≡ p.old.room }
        ensures effect_room { fx.new.capacity ≡ fx.old.capacity }
    {
        match operation {
            TransformOperation::SinkWrite(u) => self.sink_write(me, p, fx, u),
            TransformOperation::Enqueue(chunk) => self.enqueue(me, fx, taken(chunk)),
            TransformOperation::Unblock => self.unblock(p),
            TransformOperation::SourcePull(u) => self.source_pull(p, fx, u),
            _ => self.perform_uncommon(me, p, fx, operation),
        }
    }

    /// The reactions to what a finish performed, which the way of a chunk doesn't meet, apart, so that
    /// `perform_with_halves` has no locals for them.
    #[cold]
    #[inline(never)]
    fn perform_finish(
        &mut self,
        me: TransformId,
        halves: &TransformHalves,
        p: &mut Promises,
        fx: &mut Agenda,
        operation: &mut TransformOperation,
    )
        requires looking { looks operation.old ≡ true }
        requires uncommon { is_common operation.old ≡ false }
        requires effect_room { HasEffectRoom 3 fx.old }
        ensures row { acts_of self.new p.new fx.new
            ≡ transform_operation me halves.now operation.old (acts_of self.old p.old fx.old) }
        ensures promise_room { p.new.room ≡ p.old.room }
        ensures effect_room { fx.new.capacity ≡ fx.old.capacity }
    {
        match operation {
            TransformOperation::FlushSettled(finish, outcome) => self.flush_settled(
                halves, fx, *finish, *outcome,
            ),
            TransformOperation::AbortSettled(finish, reason, outcome) => {
                self.abort_settled(halves, fx, *finish, *reason, *outcome)
            }
            TransformOperation::CancelSettled(finish, reason, outcome) => {
                self.cancel_settled(me, halves, fx, *finish, *reason, *outcome)
            }
            _ => unreachable!(),
        }
    }

    /// Performs an operation that looks at no halves and that a chunk's way doesn't meet: apart, as in
    /// `perform_without_halves`.
    #[cold]
    #[inline(never)]
    fn perform_uncommon(
        &mut self,
        me: TransformId,
        p: &mut Promises,
        fx: &mut Agenda,
        operation: &mut TransformOperation,
    )
        requires unlooking { looks operation.old ≡ false }
        requires uncommon { is_common operation.old ≡ false }
        requires room { HasRoomFor operation.old p.old }
        requires effect_room { HasEffectRoom 3 fx.old }
        ensures row { (halves : Halves) → acts_of self.new p.new fx.new
            ≡ transform_operation me halves operation.old (acts_of self.old p.old fx.old) }
        ensures promise_room { p.new.room ≡ p.old.room }
        ensures effect_room { fx.new.capacity ≡ fx.old.capacity }
    {
        match operation {
            TransformOperation::Error(e) => self.transform_error(me, fx, *e),
            TransformOperation::Terminate => self.terminate(me, fx),
            TransformOperation::SinkClose(u) => self.sink_close(me, p, fx, *u),
            TransformOperation::SinkAbort(reason, u) => self.sink_abort(me, p, fx, *reason, *u),
            TransformOperation::SourceCancel(reason, u) => {
                self.source_cancel(me, p, fx, *reason, *u)
            }
            _ => unreachable!(),
        }
    }
}
