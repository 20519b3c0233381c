//! How the chunks of a writable end are posted, one for each that the other end asked for, and how it closes.
ghost use Rattle.std.specs.Prelude.{◌≡◌};
ghost use Rattle.ws_cross.specs.Seen.{acts_of};
ghost use Rattle.ws_promise.specs.Seen.{HasEffectRoom, HasEventRoom, HasPromiseRoom};
ghost use Rattle.ws_steps.specs.Cross as rows;

use crate::Port;
use crate::leave::DATA_CLONE;
use ws_promise::{Agenda, Promises};
use ws_steps::{Effect, Gift, Step, Taker, Use, WritableOperation};
use ws_value::{Message, Plain, PortId, PromiseId, Value};

/// An algorithm has succeeded.
const DONE: Gift = Gift::Fresh(Ok(Plain::Undefined));

/// A write goes on once the backpressure promise has settled; where there is none, in the next job. The other promise
/// is the result of the write.
fn wait_for(backpressure: Option<PromiseId>, me: PortId, promise: PromiseId) -> Effect
    ensures { result ≡ rows.wait_for backpressure me promise }
{
    let gift = match backpressure {
        None => DONE,
        Some(p) => Gift::This(p),
    };
    Effect::Give(gift, Use::React(Step::PortUnblocked(me, promise), None))
}

impl Port {
    /// The write algorithm of a writable end, of the chunk that is first in the queue of its stream.
    #[tactic(auto, unfolding(ws_steps::specs::Cross::write))]
    pub fn write(&self, me: PortId, p: &mut Promises, fx: &mut Agenda, u: Use)
        requires promise_room { HasPromiseRoom 1 p.old }
        requires effect_room { HasEffectRoom 2 fx.old }
        ensures row { acts_of self.now p.new fx.new ≡ rows.write me u (acts_of self.now p.old fx.old) }
        ensures promise_room { p.new.room ≡ p.old.room }
        ensures effect_room { fx.new.capacity ≡ fx.old.capacity }
    {
        let promise = p.fresh();
        fx.push(wait_for(self.backpressure, me, promise));
        fx.push(Effect::Give(Gift::This(promise), u));
    }

    /// The chunk is handed on, to be posted. Where it can't be sent, an error is posted in its place, and the write
    /// fails.
    fn hand_on(
        &mut self,
        me: PortId,
        clones: bool,
        p: &mut Promises,
        fx: &mut Agenda,
        promise: PromiseId,
    )
        requires event_room { HasEventRoom 1 p.old }
        requires effect_room { HasEffectRoom 1 fx.old }
        ensures row { acts_of self.new p.new fx.new ≡ rows.hand_on me promise (acts_of self.old p.old fx.old) clones }
        ensures promise_room { p.new.room ≡ p.old.room }
        ensures effect_room { fx.new.capacity ≡ fx.old.capacity }
    {
        if clones {
            let hand_on = WritableOperation::HandOn(Taker::ToPort(me, promise));
            fx.push(Effect::Writable(self.stream, hand_on));
            return;
        }
        self.post(me, p, Message::Error(DATA_CLONE));
        self.live = false;
        fx.push(Effect::Give(Gift::Fresh(Err(DATA_CLONE)), Use::Resolve(promise)));
    }

    /// The steps of the write algorithm once the backpressure promise is fulfilled. `clones` tells whether the chunk
    /// that is first in the queue of its stream can be sent. The promise is the result of the algorithm.
    #[tactic(auto, using(crate::proofs::Events::fresh_events), unfolding(ws_steps::specs::Cross::write_goes_on))]
    pub fn write_goes_on(
        &mut self,
        me: PortId,
        clones: bool,
        p: &mut Promises,
        fx: &mut Agenda,
        promise: PromiseId,
    )
        requires promise_room { HasPromiseRoom 1 p.old }
        requires event_room { HasEventRoom 1 p.old }
        requires effect_room { HasEffectRoom 1 fx.old }
        ensures row { acts_of self.new p.new fx.new
            ≡ rows.write_goes_on me clones promise (acts_of self.old p.old fx.old) }
        ensures promise_room { p.new.room ≡ p.old.room }
        ensures effect_room { fx.new.capacity ≡ fx.old.capacity }
    {
        if self.backpressure.is_some() {
            fx.push(wait_for(self.backpressure, me, promise));
            return;
        }
        self.backpressure = Some(p.fresh());
        self.hand_on(me, clones, p, fx, promise);
    }

    /// The chunk that was handed on is posted.
    #[tactic(auto, unfolding(ws_steps::specs::Cross::post_chunk))]
    pub fn post_chunk(
        &self,
        me: PortId,
        p: &mut Promises,
        fx: &mut Agenda,
        chunk: Value,
        promise: PromiseId,
    )
        requires event_room { HasEventRoom 1 p.old }
        requires effect_room { HasEffectRoom 1 fx.old }
        ensures row { acts_of self.now p.new fx.new
            ≡ rows.post_chunk me chunk promise (acts_of self.now p.old fx.old) }
        ensures promise_room { p.new.room ≡ p.old.room }
        ensures effect_room { fx.new.capacity ≡ fx.old.capacity }
    {
        self.post(me, p, Message::Chunk(chunk));
        fx.push(Effect::Give(DONE, Use::Resolve(promise)));
    }

    /// The close algorithm of a writable end.
    #[tactic(auto, unfolding(ws_steps::specs::Cross::close))]
    pub fn close(&mut self, me: PortId, p: &mut Promises, fx: &mut Agenda, u: Use)
        requires event_room { HasEventRoom 1 p.old }
        requires effect_room { HasEffectRoom 1 fx.old }
        ensures row { acts_of self.new p.new fx.new ≡ rows.close me u (acts_of self.old p.old fx.old) }
        ensures promise_room { p.new.room ≡ p.old.room }
        ensures effect_room { fx.new.capacity ≡ fx.old.capacity }
    {
        self.post(me, p, Message::Close);
        self.live = false;
        fx.push(Effect::Give(DONE, u));
    }
}
