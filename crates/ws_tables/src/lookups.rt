//! Objects of a realm by their numbers; the records of a kind are in `kinds`.
ghost use Rattle.std.specs.Prelude.{◌≡◌, ◌<◌, IfSome, length, vec_len};
ghost use Rattle.ws_steps.specs.Slots.{lock_at, host_at, owner_at, stream_of_request};

use crate::tables::{Stream, Tables};
use ws_steps::{Lock, Owner};
use ws_value::{HostId, LockId, PromiseId, RequestId, StreamId};

impl Tables {
    ghost use Rattle.ws_tables.specs.View.{slots_of};

    /// Whose algorithms a stream performs.
    pub fn owner(&self, i: StreamId) -> Owner
        ensures { result ≡ owner_at i (slots_of self.now) }
    {
        match self.streams.get(i.0 as usize) {
            Some(Stream::Readable(stream)) => stream.owner(),
            Some(Stream::Writable(stream)) => stream.owner(),
            Some(Stream::Bytes(_)) | None => Owner::Host,
        }
    }

    /// A reader or a writer.
    pub fn lock(&self, l: LockId) -> Option<Lock>
        ensures lock { result ≡ lock_at l (slots_of self.now) }
        ensures there { IfSome result (λ lock. l.0 < vec_len self.now.locks) }
    {
        if self.locks.len() as u128 <= l.0 {
            return None;
        }
        Some(self.locks[l.0 as usize])
    }

    /// The promise of a call of a host's algorithm, where it isn't settled.
    pub fn host(&self, h: HostId) -> Option<PromiseId>
        ensures host { result ≡ host_at h (slots_of self.now) }
        ensures there { IfSome result (λ promise. h.0 < length self.now.hosts.items) }
    {
        if self.hosts.len() as u128 <= h.0 {
            return None;
        }
        self.hosts.promise(h.0 as usize)
    }

    /// The stream of a BYOB request.
    pub fn stream_of_request(&self, q: RequestId) -> Option<StreamId>
        ensures { result ≡ stream_of_request q (slots_of self.now) }
    {
        if self.byob_requests.len() as u128 <= q.0 {
            return None;
        }
        Some(self.byob_requests[q.0 as usize])
    }
}
