//! The backpressure of a transform stream.
ghost use Rattle.std.specs.Prelude.{◌≡◌};
ghost use Rattle.ws_promise.specs.Seen.{HasPromiseRoom, SeenAgenda};
ghost use Rattle.ws_steps.specs.Transform as rows;
ghost use Rattle.ws_transform.specs.Seen.{acts_of};

use crate::{Transform, TransformHalves};
use ws_promise::Promises;
use ws_value::Plain;

impl Transform {
    /// TransformStreamSetBackpressure.
    #[tactic(auto, using(crate::proofs::Lengths::settle_length), unfolding(ws_steps::specs::Transform::set_backpressure))]
    pub fn set_backpressure(&mut self, p: &mut Promises, backpressure: bool)
        requires promise_room { HasPromiseRoom 1 p.old }
        ensures row { (fx : SeenAgenda) → acts_of self.new p.new fx
            ≡ rows.set_backpressure backpressure (acts_of self.old p.old fx) }
        ensures promise_room { p.new.room ≡ p.old.room }
    {
        p.fulfil(self.change, Plain::Undefined);
        self.change = p.fresh();
        self.backpressure = backpressure;
    }

    /// TransformStreamUnblockWrite.
    #[tactic(auto, unfolding(ws_steps::specs::Transform::unblock))]
    pub fn unblock(&mut self, p: &mut Promises)
        requires promise_room { HasPromiseRoom 1 p.old }
        ensures row { (fx : SeenAgenda) → acts_of self.new p.new fx ≡ rows.unblock (acts_of self.old p.old fx) }
        ensures promise_room { p.new.room ≡ p.old.room }
    {
        if self.backpressure {
            self.set_backpressure(p, false);
        }
    }

    /// The end of TransformStreamDefaultControllerEnqueue, after the readable half took the chunk.
    #[inline(always)]
    #[tactic(auto, unfolding(ws_steps::specs::Transform::enqueued))]
    pub fn enqueued(&mut self, halves: &TransformHalves, p: &mut Promises)
        requires promise_room { HasPromiseRoom 1 p.old }
        ensures row { (fx : SeenAgenda) → acts_of self.new p.new fx
            ≡ rows.enqueued halves.now (acts_of self.old p.old fx) }
        ensures promise_room { p.new.room ≡ p.old.room }
    {
        if differs(!halves.should_pull, self.backpressure) {
            self.set_backpressure(p, true);
        }
    }
}

fn differs(found: bool, kept: bool) -> bool
    ensures { result ≡ rows.differs found kept }
{
    found != kept
}
