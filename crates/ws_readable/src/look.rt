//! What a host may look at.
ghost use Rattle.std.specs.Prelude.{◌≡◌, ◌==◌, ◌-◌, ◌&&◌, not, nat_le, length};
ghost use Rattle.ws_steps.specs.Queues as queues;
ghost use Rattle.ws_steps.specs.Readable as rows;
ghost use Rattle.ws_steps.specs.ReadableLooks as looks;
ghost use Rattle.ws_readable.specs.Seen.{has_room};

use crate::Readable;
use ws_steps::{Flags, Owner, ReadableState, StateIs, Word};
use ws_value::Plain;

impl Readable {
    pub fn state(&self) -> ReadableState
        ensures { result ≡ self.now.slots.state }
    {
        self.state
    }

    /// The error with which the stream errored; undefined where it didn't.
    pub fn stored_error(&self) -> &Plain
        ensures { result.now ≡ self.now.slots.stored_error }
    {
        &self.stored_error
    }

    /// Whose algorithms the stream performs.
    pub fn owner(&self) -> Owner
        ensures { result ≡ self.now.slots.owner }
    {
        self.owner
    }

    pub fn is_readable(&self) -> bool
        ensures { result ≡ rows.is_readable self.now.slots.state }
    {
        self.state == ReadableState::Readable
    }

    /// Whether there are places for `n` more chunks and for `n` more read requests.
    pub fn has_room(&self, n: usize) -> bool
        ensures { result ≡ has_room n self.now }
    {
        n <= self.queue.free() && n <= self.requests.capacity() - self.requests.len()
    }

    /// Whether there are places for `n` more chunks and read requests, but no longer after one more read request.
    #[inline(always)]
    pub fn loses_room_by_request(&self, n: usize) -> bool
        ensures { result ≡ ((self.now.room.requests - length self.now.slots.requests == n)
            && nat_le n (self.now.room.queue - length self.now.slots.queue)) }
    {
        self.requests.capacity() - self.requests.len() == n && n <= self.queue.free()
    }

    /// Whether there are places for `n` more chunks and read requests, but no longer after one more chunk.
    #[inline(always)]
    pub fn loses_room_by_chunk(&self, n: usize) -> bool
        ensures { result ≡ ((self.now.room.queue - length self.now.slots.queue == n)
            && nat_le n (self.now.room.requests - length self.now.slots.requests)) }
    {
        self.queue.free() == n && n <= self.requests.capacity() - self.requests.len()
    }

    /// Whether the stream is locked and a read request waits.
    #[inline(always)]
    pub fn has_waiting_request(&self) -> bool
        ensures { result ≡ not (queues.is_empty (rows.waiting self.now.slots)) }
    {
        self.reader.is_some() && !self.requests.is_empty()
    }

    #[inline(always)]
    pub fn has_chunk(&self) -> bool
        ensures { result ≡ not (queues.is_empty self.now.slots.queue) }
    {
        !self.queue.is_empty()
    }

    /// How many read requests wait.
    pub fn waiting_requests(&self) -> usize
        ensures { result ≡ length self.now.slots.requests }
    {
        self.requests.len()
    }

    /// IsReadableStreamLocked.
    pub fn is_locked(&self) -> bool
        ensures { result ≡ looks.is_locked self.now.slots }
    {
        self.reader.is_some()
    }

    /// ReadableStreamDefaultControllerGetDesiredSize.
    pub fn desired_size(&self) -> Option<i128>
        ensures { result ≡ looks.desired_by self.now.slots self.now.slots.state }
    {
        match self.state {
            ReadableState::Readable => Some(self.queue.desired(self.hwm)),
            ReadableState::Closed => Some(0),
            ReadableState::Errored => None,
        }
    }

    fn word(&self) -> Word
        ensures { result ≡ looks.word_of self.now.slots.state }
    {
        match self.state {
            ReadableState::Readable => Word::Readable,
            ReadableState::Closed => Word::Closed,
            ReadableState::Errored => Word::Errored,
        }
    }

    fn flags(&self) -> Flags
        ensures { result ≡ looks.flags_of self.now.slots }
    {
        Flags {
            s: self.started,
            p: self.pulling,
            g: self.pull_again,
            c: self.close_requested,
            d: self.disturbed,
            l: self.is_locked(),
            b: false,
            w: false,
            f: false,
            q: false,
            a: false,
        }
    }

    /// The slots that a host may look at.
    pub fn look(&self) -> StateIs
        ensures { result ≡ looks.state_of self.now.slots }
    {
        StateIs {
            state: self.word(),
            flags: self.flags(),
            total: self.queue.total(),
            queue: self.queue.len() as u64,
            requests: self.requests.len() as u64,
        }
    }
}
