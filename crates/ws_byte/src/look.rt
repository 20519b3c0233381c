//! What a host may look at.
ghost use Rattle.std.specs.Prelude.{◌≡◌, ◌<◌, ◌↔◌, IsTrue, length};
ghost use Rattle.ws_steps.specs.Bytes as rows;
ghost use Rattle.ws_steps.specs.Descriptors as descriptors;
ghost use Rattle.ws_steps.specs.ReadableLooks as looks;
ghost use Rattle.ws_byte.specs.Seen.{HasRoom, first_room_left};

use crate::ByteStream;
use ws_steps::{ReadableState, StateIs};
use ws_value::{Fault, Plain, RequestId};

impl ByteStream {
    pub fn state(&self) -> ReadableState
        ensures { result ≡ self.now.slots.stream.state }
    {
        self.stream.state()
    }

    /// The error with which the stream errored; undefined where it didn't.
    pub fn stored_error(&self) -> &Plain
        ensures { result.now ≡ self.now.slots.stream.stored_error }
    {
        self.stream.stored_error()
    }

    /// How many requests wait.
    pub fn waiting_requests(&self) -> usize
        ensures { result ≡ length self.now.slots.stream.requests }
    {
        self.stream.waiting_requests()
    }

    /// Whether there are places for `n` more entries in the queue, besides those of the descriptors, for `n` more
    /// requests and for `n` more descriptors, and a room where the controller allocates rooms.
    pub fn has_room(&self, n: usize) -> bool
        requires { 0 < n }
        ensures { IsTrue result ↔ HasRoom n self.now }
    {
        let free = self.queue.free();
        let held = self.descriptors.len();
        held <= free
            && n <= free - held
            && n <= self.stream.free_requests()
            && n <= self.free_descriptors()
            && (self.auto == 0 || self.spare.is_some())
    }

    /// How many descriptors there are.
    pub fn descriptors(&self) -> usize
        ensures { result ≡ length self.now.slots.descriptors }
    {
        self.descriptors.len()
    }

    /// IsReadableStreamLocked.
    pub fn is_locked(&self) -> bool
        ensures { result ≡ looks.is_locked (rows.shown self.now.slots) }
    {
        self.stream.is_locked()
    }

    /// The BYOB request, where there is one.
    pub fn request(&self) -> Option<RequestId>
        ensures { result ≡ self.now.slots.request }
    {
        self.request
    }

    /// How many bytes have room in the view of a request, where there is a descriptor.
    pub fn room_left(&self) -> Option<u64>
        ensures { result ≡ first_room_left self.now.slots.descriptors }
    {
        match self.descriptors.front() {
            Some(first) => Some(first.room_left() as u64),
            None => None,
        }
    }

    /// What a response of `n` bytes throws.
    pub fn respond_throws(&self, n: usize) -> Option<Fault>
        ensures { result ≡ descriptors.respond_throws n self.now.slots.stream.state self.now.slots.descriptors }
    {
        if self.stream.state() == ReadableState::Closed {
            return if n > 0 { Some(Fault::TypeError) } else { None };
        }
        if n == 0 {
            return Some(Fault::TypeError);
        }
        match self.descriptors.front() {
            Some(first) => {
                if first.room_left() < n {
                    Some(Fault::RangeError)
                } else {
                    None
                }
            }
            None => None,
        }
    }

    /// ReadableByteStreamControllerGetDesiredSize.
    #[tactic(auto, using(crate::proofs::Looks::entries_total))]
    pub fn desired_size(&self) -> Option<i128>
        ensures { result ≡ looks.desired_by (rows.shown self.now.slots) self.now.slots.stream.state }
    {
        match self.stream.state() {
            ReadableState::Readable => Some(self.queue.desired(self.stream.hwm())),
            ReadableState::Closed => Some(0),
            ReadableState::Errored => None,
        }
    }

    /// The slots that a host may look at.
    #[tactic(auto, using(crate::proofs::Looks::entries_total, crate::proofs::Looks::entries_length))]
    pub fn look(&self) -> StateIs
        ensures { result ≡ looks.state_of (rows.shown self.now.slots) }
    {
        let stream = self.stream.look();
        StateIs {
            state: stream.state,
            flags: stream.flags,
            total: self.queue.total(),
            queue: self.queue.len() as u64,
            requests: stream.requests,
        }
    }
}
