//! Message ports.
ghost use Rattle.std.specs.Prelude.{◌≡◌};
ghost use Rattle.ws_steps.specs.Slots.{has_port, is_live};

use crate::tables::Tables;
use ws_value::PortId;

impl Tables {
    ghost use Rattle.ws_tables.specs.View.{slots_of};

    /// Whether there is a port of this number.
    pub fn has_port(&self, c: PortId) -> bool
        ensures { result ≡ has_port c (slots_of self.now) }
    {
        c.0 < self.ports.len() as u128
    }

    /// Whether there is a port of this number that is entangled.
    pub fn is_live(&self, c: PortId) -> bool
        ensures { result ≡ is_live c (slots_of self.now) }
    {
        if !self.has_port(c) {
            return false;
        }
        self.ports[c.0 as usize].is_live()
    }
}
