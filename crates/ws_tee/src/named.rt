//! Which promises it names.
ghost use Rattle.std.specs.Prelude.{◌≡◌, nat_lt};
ghost use Rattle.ws_alike.specs.Named.{in_tee};

use crate::Tee;
use ws_alike::is_this;
use ws_value::PromiseId;

impl Tee {
    /// Whether the tee names this promise.
    pub fn names(&self, p: PromiseId) -> bool
        ensures { result ≡ nat_lt 0 (in_tee p self.now.slots) }
    {
        is_this(p, self.cancel)
    }
}
