//! Which promises it names.
ghost use Rattle.std.specs.Prelude.{◌≡◌, nat_lt};
ghost use Rattle.ws_alike.specs.Named.{in_readable};

use crate::ByteStream;
use ws_value::PromiseId;

impl ByteStream {
    /// Whether the stream names this promise: as that of its reader, or of a read request.
    pub fn names(&self, p: PromiseId) -> bool
        ensures { result ≡ nat_lt 0 (in_readable p self.now.slots.stream) }
    {
        self.stream.names(p)
    }
}
