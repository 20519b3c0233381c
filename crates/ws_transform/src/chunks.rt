//! How a transform stream transforms a chunk that is written to it.
ghost use Rattle.std.specs.Prelude.{◌≡◌};
ghost use Rattle.ws_promise.specs.Seen.{HasEffectRoom, HasPromiseRoom, Seen};
ghost use Rattle.ws_steps.specs.Transform as rows;
ghost use Rattle.ws_transform.specs.Seen.{acts_of};

use crate::controller::TYPE_ERROR;
use crate::{Transform, TransformHalves};
use ws_promise::{Agenda, Promises};
use ws_steps::{
    Effect, Gift, HostCall, Kind, ReadableOperation, Step, Taker, TransformId, TransformOperation,
    Use, WritableOperation, WritableState,
};
use ws_value::{Plain, PromiseId, Value};

/// The transform stream reacts to the promise of its transform algorithm, and this promise is the result.
fn transformed_by(me: TransformId, promise: PromiseId) -> Use
    ensures { result ≡ rows.transformed_by me promise }
{
    Use::React(Step::Transformed(me), Some(promise))
}

impl Transform {
    /// The identity's transform algorithm.
    fn transform_identity(
        &self,
        me: TransformId,
        halves: &TransformHalves,
        fx: &mut Agenda,
        chunk: Value,
        promise: PromiseId,
    )
        requires effect_room { HasEffectRoom 3 fx.old }
        ensures row { (p : Seen) → acts_of self.now p fx.new
            ≡ rows.causing
            (rows.transform_identity me chunk promise (acts_of self.now p fx.old) halves.now.can_enqueue)
            (acts_of self.now p fx.old) }
        ensures effect_room { fx.new.capacity ≡ fx.old.capacity }
    {
        if halves.can_enqueue {
            fx.push(Effect::Readable(self.readable, ReadableOperation::Enqueue(chunk)));
            fx.push(Effect::Transform(me, TransformOperation::Enqueued));
            fx.push(Effect::Give(
                Gift::Fresh(Ok(Plain::Undefined)),
                transformed_by(me, promise),
            ));
        } else {
            fx.push(Effect::Give(Gift::Fresh(Err(TYPE_ERROR)), transformed_by(me, promise)));
        }
    }

    /// Performs the transform algorithm with the chunk that was handed on. The promise is the result of the reaction
    /// to its own.
    #[tactic(auto, unfolding(ws_steps::specs::Transform::transform_chunk))]
    pub fn transform_chunk(
        &self,
        me: TransformId,
        halves: &TransformHalves,
        fx: &mut Agenda,
        chunk: Value,
        promise: PromiseId,
    )
        requires effect_room { HasEffectRoom 3 fx.old }
        ensures row { (p : Seen) → acts_of self.now p fx.new
            ≡ rows.transform_chunk me halves.now chunk promise (acts_of self.now p fx.old) }
        ensures effect_room { fx.new.capacity ≡ fx.old.capacity }
    {
        match self.kind {
            Kind::Identity => self.transform_identity(me, halves, fx, chunk, promise),
            Kind::Host => fx.push(Effect::CallHost(
                HostCall::Transform(self.readable, chunk),
                transformed_by(me, promise),
            )),
        }
    }

    /// TransformStreamDefaultControllerPerformTransform, with the chunk that is first in the queue of the writable
    /// half.
    fn perform_transform(&self, me: TransformId, p: &mut Promises, fx: &mut Agenda, u: &Use)
        requires promise_room { HasPromiseRoom 1 p.old }
        requires effect_room { HasEffectRoom 2 fx.old }
        ensures row { acts_of self.now p.new fx.new ≡ rows.perform_transform me u.now (acts_of self.now p.old fx.old) }
        ensures promise_room { p.new.room ≡ p.old.room }
        ensures effect_room { fx.new.capacity ≡ fx.old.capacity }
    {
        let promise = p.fresh();
        let hand_on = WritableOperation::HandOn(Taker::ToTransform(me, promise));
        fx.push(Effect::Writable(self.writable, hand_on));
        fx.push(Effect::Give(Gift::This(promise), *u));
    }

    /// The write waits for the change of the backpressure.
    fn wait_for_change(&self, me: TransformId, p: &mut Promises, fx: &mut Agenda, u: &Use)
        requires promise_room { HasPromiseRoom 1 p.old }
        requires effect_room { HasEffectRoom 2 fx.old }
        ensures row { acts_of self.now p.new fx.new ≡ rows.wait_for_change me u.now (acts_of self.now p.old fx.old) }
        ensures promise_room { p.new.room ≡ p.old.room }
        ensures effect_room { fx.new.capacity ≡ fx.old.capacity }
    {
        let promise = p.fresh();
        let goes_on = Use::React(Step::TransformChanged(me, promise), None);
        fx.push(Effect::Give(Gift::This(self.change), goes_on));
        fx.push(Effect::Give(Gift::This(promise), *u));
    }

    /// TransformStreamDefaultSinkWriteAlgorithm.
    #[tactic(auto, unfolding(ws_steps::specs::Transform::sink_write))]
    pub fn sink_write(&self, me: TransformId, p: &mut Promises, fx: &mut Agenda, u: &Use)
        requires promise_room { HasPromiseRoom 1 p.old }
        requires effect_room { HasEffectRoom 2 fx.old }
        ensures row { acts_of self.now p.new fx.new ≡ rows.sink_write me u.now (acts_of self.now p.old fx.old) }
        ensures promise_room { p.new.room ≡ p.old.room }
        ensures effect_room { fx.new.capacity ≡ fx.old.capacity }
    {
        if self.backpressure {
            self.wait_for_change(me, p, fx, u);
        } else {
            self.perform_transform(me, p, fx, u);
        }
    }

    /// The steps of TransformStreamDefaultSinkWriteAlgorithm once the change promise is fulfilled. The promise is the
    /// result of the algorithm.
    #[tactic(auto, unfolding(ws_steps::specs::Transform::write_goes_on))]
    pub fn write_goes_on(
        &self,
        me: TransformId,
        halves: &TransformHalves,
        p: &mut Promises,
        fx: &mut Agenda,
        promise: PromiseId,
    )
        requires promise_room { HasPromiseRoom 1 p.old }
        requires effect_room { HasEffectRoom 2 fx.old }
        ensures row { acts_of self.now p.new fx.new
            ≡ rows.write_goes_on me halves.now promise (acts_of self.now p.old fx.old) }
        ensures promise_room { p.new.room ≡ p.old.room }
        ensures effect_room { fx.new.capacity ≡ fx.old.capacity }
    {
        match halves.writable_state {
            WritableState::Erroring => fx.push(Effect::Settle(
                promise,
                Err(*halves.writable_error),
            )),
            WritableState::Writable | WritableState::Errored | WritableState::Closed => {
                self.perform_transform(me, p, fx, &Use::Resolve(promise));
            }
        }
    }
}
