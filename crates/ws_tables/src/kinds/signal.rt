//! Signals that abort pipes.
ghost use Rattle.std.specs.Prelude.{◌≡◌};
ghost use Rattle.ws_steps.specs.Slots.{has_signal, signal_at};

use crate::tables::Tables;
use ws_value::{Plain, SignalId};

impl Tables {
    ghost use Rattle.ws_tables.specs.View.{slots_of};

    /// Whether there is a signal of this number.
    pub fn has_signal(&self, a: SignalId) -> bool
        ensures { result ≡ has_signal a (slots_of self.now) }
    {
        a.0 < self.signals.len() as u128
    }

    /// The reason of the signal of this number, where there is one that was triggered.
    pub fn signal_reason(&self, a: SignalId) -> Option<Plain>
        ensures { result ≡ (signal_at a (slots_of self.now)).reason }
    {
        if !self.has_signal(a) {
            return None;
        }
        self.signals[a.0 as usize].reason()
    }
}
