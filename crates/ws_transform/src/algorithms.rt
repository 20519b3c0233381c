//! The algorithms by which the two halves of a transform stream pull, close, abort and cancel.
ghost use Rattle.std.specs.Prelude.{◌≡◌};
ghost use Rattle.ws_promise.specs.Seen.{HasEffectRoom, HasPromiseRoom};
ghost use Rattle.ws_steps.specs.Transform as rows;
ghost use Rattle.ws_transform.specs.Seen.{acts_of};

use crate::Transform;
use ws_promise::{Agenda, Promises};
use ws_steps::{Effect, Gift, HostCall, Kind, Step, TransformId, Use};
use ws_value::Plain;

/// The flush or the cancel algorithm is performed, and the step reacts to its promise.
fn algorithm(kind: Kind, call: HostCall, step: Step) -> Effect
    ensures { result ≡ rows.algorithm kind call step }
{
    match kind {
        Kind::Identity => Effect::Give(Gift::Fresh(Ok(Plain::Undefined)), Use::React(step, None)),
        Kind::Host => Effect::CallHost(call, Use::React(step, None)),
    }
}

impl Transform {
    /// TransformStreamDefaultSourcePullAlgorithm.
    #[tactic(auto, unfolding(ws_steps::specs::Transform::source_pull))]
    pub fn source_pull(&mut self, p: &mut Promises, fx: &mut Agenda, u: &Use)
        requires promise_room { HasPromiseRoom 1 p.old }
        requires effect_room { HasEffectRoom 1 fx.old }
        ensures row { acts_of self.new p.new fx.new ≡ rows.source_pull u.now (acts_of self.old p.old fx.old) }
        ensures promise_room { p.new.room ≡ p.old.room }
        ensures effect_room { fx.new.capacity ≡ fx.old.capacity }
    {
        self.set_backpressure(p, false);
        fx.push(Effect::Give(Gift::This(self.change), *u));
    }

    /// TransformStreamDefaultSinkCloseAlgorithm.
    #[tactic(auto, unfolding(ws_steps::specs::Transform::sink_close))]
    pub fn sink_close(&mut self, me: TransformId, p: &mut Promises, fx: &mut Agenda, u: Use)
        requires promise_room { HasPromiseRoom 1 p.old }
        requires effect_room { HasEffectRoom 2 fx.old }
        ensures row { acts_of self.new p.new fx.new ≡ rows.sink_close me u (acts_of self.old p.old fx.old) }
        ensures promise_room { p.new.room ≡ p.old.room }
        ensures effect_room { fx.new.capacity ≡ fx.old.capacity }
    {
        match self.finish {
            Some(promise) => fx.push(Effect::Give(Gift::This(promise), u)),
            None => {
                let promise = p.fresh();
                self.finish = Some(promise);
                let call = HostCall::Flush(self.readable);
                fx.push(algorithm(self.kind, call, Step::TransformFlushed(me, promise)));
                fx.push(Effect::Give(Gift::This(promise), u));
            }
        }
    }

    /// TransformStreamDefaultSinkAbortAlgorithm.
    #[tactic(auto, unfolding(ws_steps::specs::Transform::sink_abort))]
    pub fn sink_abort(
        &mut self,
        me: TransformId,
        p: &mut Promises,
        fx: &mut Agenda,
        reason: Plain,
        u: Use,
    )
        requires promise_room { HasPromiseRoom 1 p.old }
        requires effect_room { HasEffectRoom 2 fx.old }
        ensures row { acts_of self.new p.new fx.new ≡ rows.sink_abort me reason u (acts_of self.old p.old fx.old) }
        ensures promise_room { p.new.room ≡ p.old.room }
        ensures effect_room { fx.new.capacity ≡ fx.old.capacity }
    {
        match self.finish {
            Some(promise) => fx.push(Effect::Give(Gift::This(promise), u)),
            None => {
                let promise = p.fresh();
                self.finish = Some(promise);
                let call = HostCall::CancelTransform(self.readable, reason);
                fx.push(algorithm(self.kind, call, Step::TransformAborted(me, promise, reason)));
                fx.push(Effect::Give(Gift::This(promise), u));
            }
        }
    }

    /// TransformStreamDefaultSourceCancelAlgorithm.
    #[tactic(auto, unfolding(ws_steps::specs::Transform::source_cancel))]
    pub fn source_cancel(
        &mut self,
        me: TransformId,
        p: &mut Promises,
        fx: &mut Agenda,
        reason: Plain,
        u: Use,
    )
        requires promise_room { HasPromiseRoom 1 p.old }
        requires effect_room { HasEffectRoom 2 fx.old }
        ensures row { acts_of self.new p.new fx.new ≡ rows.source_cancel me reason u (acts_of self.old p.old fx.old) }
        ensures promise_room { p.new.room ≡ p.old.room }
        ensures effect_room { fx.new.capacity ≡ fx.old.capacity }
    {
        match self.finish {
            Some(promise) => fx.push(Effect::Give(Gift::This(promise), u)),
            None => {
                let promise = p.fresh();
                self.finish = Some(promise);
                let call = HostCall::CancelTransform(self.readable, reason);
                fx.push(algorithm(
                    self.kind,
                    call,
                    Step::TransformCancelled(me, promise, reason),
                ));
                fx.push(Effect::Give(Gift::This(promise), u));
            }
        }
    }
}
