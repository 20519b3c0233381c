//! The record of a port.
ghost use Rattle.std.specs.Prelude.{◌≡◌, length};
ghost use Rattle.ws_cross.specs.Seen.{acts_of};
ghost use Rattle.ws_promise.specs.Seen.{HasEventRoom, SeenAgenda};
ghost use Rattle.ws_steps.specs.Cross as rows;

use std::marker::Model;
use ws_promise::Promises;
use ws_steps::{Event, Side};
use ws_value::{Message, PortId, PromiseId, StreamId};

/// A port. It is seen as its slots.
#[derive(Drop)]
pub struct Port {
    pub(crate) side: Side,
    pub(crate) stream: StreamId,
    pub(crate) live: bool,
    pub(crate) backpressure: Option<PromiseId>,
}

impl Model for Port {
    ghost use Rattle.ws_steps.specs.Cross.{Slots};

    ghost Value = { Slots };

    ghost view = { λ s. record {
      side = s.side;
      stream = s.stream;
      live = s.live;
      backpressure = s.backpressure;
    } };
}

impl Port {
    /// A new port, which is entangled, with the stream at this end of it. The backpressure promise of a writable end
    /// is made by the call.
    pub fn set_up(side: Side, stream: StreamId, backpressure: Option<PromiseId>) -> Port
        ensures { result ≡ rows.set_up side stream backpressure }
    {
        Port {
            side,
            stream,
            live: true,
            backpressure,
        }
    }

    /// The stream at the port's end.
    pub fn stream(&self) -> StreamId
        ensures { result ≡ self.now.stream }
    {
        self.stream
    }

    /// Whether the port is entangled.
    pub fn is_live(&self) -> bool
        ensures { result ≡ self.now.live }
    {
        self.live
    }

    /// PackAndPostMessage, of a message that can be sent: where the port isn't entangled, it is dropped.
    pub(crate) fn post(&self, me: PortId, p: &mut Promises, message: Message)
        requires event_room { HasEventRoom 1 p.old }
        ensures row { (fx : SeenAgenda) → acts_of self.now p.new fx
            ≡ rows.post me message (acts_of self.now p.old fx) }
        ensures made { length p.new.table.entries ≡ length p.old.table.entries }
        ensures promise_room { p.new.room ≡ p.old.room }
    {
        if self.live {
            p.tell(Event::Post { port: me, message });
        }
    }
}
