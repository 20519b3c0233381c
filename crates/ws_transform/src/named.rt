//! Which promises it names.
ghost use Rattle.std.specs.Prelude.{◌≡◌, nat_lt};
ghost use Rattle.ws_alike.specs.Named.{in_transform};

use crate::Transform;
use ws_alike::{is_this, option_names};
use ws_value::PromiseId;

impl Transform {
    /// Whether the transform stream names this promise.
    pub fn names(&self, p: PromiseId) -> bool
        ensures { result ≡ nat_lt 0 (in_transform p self.now) }
    {
        is_this(p, self.change) || option_names(p, &self.finish)
    }
}
