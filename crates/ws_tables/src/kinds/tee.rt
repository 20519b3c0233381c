//! Tees.
ghost use Rattle.std.specs.Prelude.{◌≡◌};
ghost use Rattle.ws_steps.specs.Slots.{is_teed, pair_at};

use crate::tables::Tables;
use ws_value::{Plain, StreamId, TeeId};

impl Tables {
    ghost use Rattle.ws_tables.specs.View.{slots_of};

    /// Whether a tee reads this stream.
    pub fn is_teed(&self, i: StreamId) -> bool
        ensures { result ≡ is_teed i (slots_of self.now) }
    {
        for tee in &self.tees {
            if tee.source().0 == i.0 {
                return true;
            }
        }
        false
    }

    /// The two reasons that the tee of this number keeps, where there is one and both its branches were cancelled.
    pub fn pair(&self, t: TeeId) -> Option<(Plain, Plain)>
        ensures { result ≡ pair_at t (slots_of self.now) }
    {
        if self.tees.len() <= t.0 as usize {
            return None;
        }
        self.tees[t.0 as usize].pair()
    }
}
