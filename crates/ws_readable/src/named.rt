//! Which promises it names.
ghost use Rattle.std.specs.Prelude.{◌≡◌, nat_lt};
ghost use Rattle.ws_alike.specs.Named.{in_readable, in_requests};

use crate::Readable;
use std::collections::VecDeque;
use ws_alike::{option_names, request_names};
use ws_steps::ReadRequest;
use ws_value::PromiseId;

/// Whether one of these requests answers this promise.
fn requests_name(requests: &VecDeque<ReadRequest>, p: PromiseId) -> bool
    ensures { result ≡ nat_lt 0 (in_requests p requests.now.items) }
{
    for i in 0..requests.len() {
        if request_names(p, &requests[i]) {
            return true;
        }
    }
    false
}

impl Readable {
    /// Whether the stream names this promise: as that of its reader, or of a read request.
    pub fn names(&self, p: PromiseId) -> bool
        ensures { result ≡ nat_lt 0 (in_readable p self.now.slots) }
    {
        option_names(p, &self.reader) || requests_name(&self.requests, p)
    }
}
