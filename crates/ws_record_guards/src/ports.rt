//! Message ports.
ghost use Rattle.std.specs.Prelude.{◌≡◌};
ghost use Rattle.ws_cross.specs.Seen.{HasRoomFor, acts_of};
ghost use Rattle.ws_promise.specs.Seen.{HasEffectRoom};
ghost use Rattle.ws_steps.specs.Operations.{port_operation};

use ws_cross::Port;
use ws_promise::{Agenda, Promises};
use ws_steps::PortOperation;
use ws_value::PortId;

/// Performs an operation of the port. `clones` tells whether the chunk that is first in the queue of a writable end
/// can be sent.
pub fn perform(
    port: &mut Port,
    me: PortId,
    clones: bool,
    p: &mut Promises,
    fx: &mut Agenda,
    operation: PortOperation,
)
    requires room { HasRoomFor operation p.old }
    requires effect_room { HasEffectRoom 2 fx.old }
    ensures row { acts_of port.new p.new fx.new ≡ port_operation me clones operation (acts_of port.old p.old fx.old) }
    ensures promise_room { p.new.room ≡ p.old.room }
    ensures effect_room { fx.new.capacity ≡ fx.old.capacity }
{
    port.perform(me, clones, p, fx, operation);
}
