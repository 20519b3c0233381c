//! Which promises it names.
ghost use Rattle.std.specs.Prelude.{◌≡◌, nat_lt};
ghost use Rattle.ws_alike.specs.Named.{in_port};

use crate::Port;
use ws_alike::option_names;
use ws_value::PromiseId;

impl Port {
    /// Whether the port names this promise.
    pub fn names(&self, p: PromiseId) -> bool
        ensures { result ≡ nat_lt 0 (in_port p self.now) }
    {
        option_names(p, &self.backpressure)
    }
}
