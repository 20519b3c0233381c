//! The operations of a port by their names.
ghost use Rattle.std.specs.Prelude.{◌≡◌};
ghost use Rattle.ws_cross.specs.Seen.{HasRoomFor, acts_of};
ghost use Rattle.ws_promise.specs.Seen.{HasEffectRoom};
ghost use Rattle.ws_steps.specs.Operations.{port_operation};

use crate::Port;
use ws_promise::{Agenda, Promises};
use ws_steps::PortOperation;
use ws_value::PortId;

impl Port {
    /// Performs an operation of the port, whose number is `me`. `clones` tells whether the chunk that is first in the
    /// queue of a writable end can be sent.
    pub fn perform(
        &mut self,
        me: PortId,
        clones: bool,
        p: &mut Promises,
        fx: &mut Agenda,
        operation: PortOperation,
    )
        requires room { HasRoomFor operation p.old }
        requires effect_room { HasEffectRoom 2 fx.old }
        ensures row { acts_of self.new p.new fx.new
            ≡ port_operation me clones operation (acts_of self.old p.old fx.old) }
        ensures promise_room { p.new.room ≡ p.old.room }
        ensures effect_room { fx.new.capacity ≡ fx.old.capacity }
    {
        match operation {
            PortOperation::Pull => self.pull(me, p),
            PortOperation::Leave(reason, u) => self.leave(me, p, fx, reason, u),
            PortOperation::Write(u) => self.write(me, p, fx, u),
            PortOperation::WriteGoesOn(promise) => self.write_goes_on(me, clones, p, fx, promise),
            PortOperation::PostChunk(chunk, promise) => self.post_chunk(me, p, fx, chunk, promise),
            PortOperation::Close(u) => self.close(me, p, fx, u),
            PortOperation::Deliver(message) => self.deliver(me, p, fx, message),
            PortOperation::Unblock => self.unblock(p),
        }
    }
}
