//! How the stream at an end of a port asks for chunks and how it leaves, and what it tells the other end of that.
ghost use Rattle.std.specs.Prelude.{◌≡◌, length};
ghost use Rattle.ws_cross.specs.Seen.{acts_of};
ghost use Rattle.ws_promise.specs.Seen.{HasEffectRoom, HasEventRoom, SeenAgenda};
ghost use Rattle.ws_steps.specs.Cross as rows;
ghost use Rattle.ws_value.specs.Values.{is_cloneable};
ghost use Rattle.ws_value.specs.declared.value.Message.TheVariants as message;

use crate::Port;
use ws_promise::{Agenda, Promises};
use ws_steps::{Effect, Gift, Use};
use ws_value::{Fault, Message, Plain, PortId};

pub(crate) const DATA_CLONE: Plain = Plain::Fault(Fault::DataClone);

/// The result of an algorithm that posted a message, by whether that could be sent.
fn posted(clones: bool) -> Result<Plain, Plain>
    ensures { result ≡ rows.posted clones }
{
    if clones {
        Ok(Plain::Undefined)
    } else {
        Err(DATA_CLONE)
    }
}

impl Port {
    /// The pull algorithm of a readable end.
    #[tactic(auto, unfolding(ws_steps::specs::Cross::pull))]
    pub fn pull(&self, me: PortId, p: &mut Promises)
        requires event_room { HasEventRoom 1 p.old }
        ensures row { (fx : SeenAgenda) → acts_of self.now p.new fx ≡ rows.pull me (acts_of self.now p.old fx) }
        ensures promise_room { p.new.room ≡ p.old.room }
    {
        self.post(me, p, Message::Pull);
    }

    /// PackAndPostMessageHandlingError of an error.
    fn post_reason(&self, me: PortId, p: &mut Promises, reason: Plain)
        requires event_room { HasEventRoom 1 p.old }
        ensures row { (fx : SeenAgenda) → acts_of self.now p.new fx
            ≡ rows.post_or_fail me (message.Error reason) (acts_of self.now p.old fx) (is_cloneable reason) }
        ensures promise_room { p.new.room ≡ p.old.room }
    {
        let told = if reason.cloneable() {
            reason
        } else {
            DATA_CLONE
        };
        self.post(me, p, Message::Error(told));
    }

    /// The cancel algorithm of a readable end, and the abort algorithm of a writable one.
    #[tactic(auto, unfolding(ws_steps::specs::Cross::leave))]
    pub fn leave(&mut self, me: PortId, p: &mut Promises, fx: &mut Agenda, reason: Plain, u: Use)
        requires event_room { HasEventRoom 1 p.old }
        requires effect_room { HasEffectRoom 1 fx.old }
        ensures row { acts_of self.new p.new fx.new ≡ rows.leave me reason u (acts_of self.old p.old fx.old) }
        ensures promise_room { p.new.room ≡ p.old.room }
        ensures effect_room { fx.new.capacity ≡ fx.old.capacity }
    {
        self.post_reason(me, p, reason);
        self.live = false;
        fx.push(Effect::Give(Gift::Fresh(posted(reason.cloneable())), u));
    }
}
