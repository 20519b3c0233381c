//! Which promises it names.
ghost use Rattle.std.specs.Prelude.{◌≡◌, nat_lt};
ghost use Rattle.ws_alike.specs.Named.{in_list, in_writable};

use crate::Writable;
use std::collections::VecDeque;
use ws_alike::{abort_names, is_this, option_names, writer_names};
use ws_value::PromiseId;

/// Whether this promise is among these.
fn list_names(promises: &VecDeque<PromiseId>, p: PromiseId) -> bool
    ensures { result ≡ nat_lt 0 (in_list p promises.now.items) }
{
    for i in 0..promises.len() {
        if is_this(p, promises[i]) {
            return true;
        }
    }
    false
}

impl Writable {
    /// Whether the stream names this promise: as one of its writer, of a write or a close, or of an abort that is
    /// pending.
    pub fn names(&self, p: PromiseId) -> bool
        ensures { result ≡ nat_lt 0 (in_writable p self.now.slots) }
    {
        writer_names(p, &self.writer)
            || list_names(&self.write_requests, p)
            || option_names(p, &self.write_in_flight)
            || option_names(p, &self.close_request)
            || option_names(p, &self.close_in_flight)
            || abort_names(p, &self.pending_abort)
    }
}
