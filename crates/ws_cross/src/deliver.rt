//! What becomes of a message that the other end posted.
ghost use Rattle.std.specs.Prelude.{◌≡◌};
ghost use Rattle.ws_cross.specs.Seen.{acts_of};
ghost use Rattle.ws_promise.specs.Seen.{HasEffectRoom, Seen, SeenAgenda};
ghost use Rattle.ws_steps.specs.Cross as rows;
ghost use Rattle.ws_steps.specs.declared.port.Side.TheVariants as side;

use crate::Port;
use ws_promise::{Agenda, Promises};
use ws_steps::{Effect, PortOperation, ReadableOperation, Side, WritableOperation};
use ws_value::{Message, Plain, PortId};

impl Port {
    /// Where there is a backpressure promise, it is fulfilled, and then there is none.
    #[tactic(auto, unfolding(ws_steps::specs::Cross::unblock))]
    pub fn unblock(&mut self, p: &mut Promises)
        ensures row { (fx : SeenAgenda) → acts_of self.new p.new fx ≡ rows.unblock (acts_of self.old p.old fx) }
        ensures promise_room { p.new.room ≡ p.old.room }
    {
        if let Some(backpressure) = self.backpressure.take() {
            p.fulfil(backpressure, Plain::Undefined);
        }
    }

    /// A message comes to a readable end.
    fn deliver_to_readable(&mut self, fx: &mut Agenda, message: Message)
        requires effect_room { HasEffectRoom 2 fx.old }
        ensures row { (me : PortId) (p : Seen) → acts_of self.new p fx.new
            ≡ rows.deliver_to me message (acts_of self.old p fx.old) side.Readable }
        ensures effect_room { fx.new.capacity ≡ fx.old.capacity }
    {
        match message {
            Message::Pull => {}
            Message::Chunk(chunk) => fx.push(Effect::Readable(
                self.stream,
                ReadableOperation::Enqueue(chunk),
            )),
            Message::Close => {
                fx.push(Effect::Readable(self.stream, ReadableOperation::Close));
                self.live = false;
            }
            Message::Error(e) => {
                fx.push(Effect::Readable(self.stream, ReadableOperation::Error(e)));
                self.live = false;
            }
        }
    }

    /// A message comes to a writable end, which is still entangled after an error: what waits is posted all the same.
    fn deliver_to_writable(
        &mut self,
        me: PortId,
        p: &mut Promises,
        fx: &mut Agenda,
        message: Message,
    )
        requires effect_room { HasEffectRoom 2 fx.old }
        ensures row { acts_of self.new p.new fx.new
            ≡ rows.deliver_to me message (acts_of self.old p.old fx.old) side.Writable }
        ensures promise_room { p.new.room ≡ p.old.room }
        ensures effect_room { fx.new.capacity ≡ fx.old.capacity }
    {
        match message {
            Message::Pull => self.unblock(p),
            Message::Chunk(_) => {}
            Message::Close => {}
            Message::Error(e) => {
                fx.push(Effect::Writable(self.stream, WritableOperation::ErrorIfNeeded(e)));
                fx.push(Effect::Port(me, PortOperation::Unblock));
            }
        }
    }

    /// Takes a message that comes by the port. Where the port isn't entangled, it is dropped.
    #[tactic(auto, unfolding(ws_steps::specs::Cross::deliver))]
    pub fn deliver(&mut self, me: PortId, p: &mut Promises, fx: &mut Agenda, message: Message)
        requires effect_room { HasEffectRoom 2 fx.old }
        ensures row { acts_of self.new p.new fx.new ≡ rows.deliver me message (acts_of self.old p.old fx.old) }
        ensures promise_room { p.new.room ≡ p.old.room }
        ensures effect_room { fx.new.capacity ≡ fx.old.capacity }
    {
        if self.live {
            match self.side {
                Side::Readable => self.deliver_to_readable(fx, message),
                Side::Writable => self.deliver_to_writable(me, p, fx, message),
            }
        }
    }
}
