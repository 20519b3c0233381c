//! Which promises it names.
ghost use Rattle.std.specs.Prelude.{◌≡◌, nat_lt};
ghost use Rattle.ws_alike.specs.Named.{in_pipe};

use crate::Pipe;
use ws_alike::{is_this, option_names};
use ws_value::PromiseId;

impl Pipe {
    /// Whether the pipe names this promise.
    pub fn names(&self, p: PromiseId) -> bool
        ensures { result ≡ nat_lt 0 (in_pipe p self.now) }
    {
        is_this(p, self.promise) || option_names(p, &self.whole)
    }
}
