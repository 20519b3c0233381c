//! What the byte controller of a stream does with the slots that either kind of controller has.
ghost use Rattle.std.specs.Prelude.{◌≡◌, ◌≤◌, ◌+◌, ◌-◌, ◌&&◌, ◌||◌, ◌++◌, not, nat_lt, length, true, false, [], IsOk, OnOk};
ghost use Rattle.ws_promise.specs.Seen.{HasEffectRoom, SeenAgenda};
ghost use Rattle.ws_steps.specs.Bytes as bytes;
ghost use Rattle.ws_steps.specs.Queues as queues;
ghost use Rattle.ws_steps.specs.Readable as rows;
ghost use Rattle.ws_steps.specs.declared.readable.ReadableState.TheVariants.{Closed};
ghost use Rattle.ws_readable.specs.Seen.{HasRequestRoom, acts_of, after_request_taken, request_taken};

use crate::Readable;
use crate::requests::close_requests;
use ws_promise::{Agenda, Promises};
use ws_steps::{ReadRequest, ReadableState};
use ws_value::{NoMemory, Plain, StreamId};

impl Readable {
    /// Makes places for `n` more read requests.
    pub fn reserve_requests(&mut self, n: usize) -> Result<(), NoMemory>
        ensures ok { OnOk result (HasRequestRoom n self.new) }
        ensures slots { self.new.slots ≡ self.old.slots }
        ensures queue { self.new.room.queue ≡ self.old.room.queue }
        ensures requests_grow { self.old.room.requests ≤ self.new.room.requests }
        ensures ready { HasRequestRoom n self.old → (IsOk result) × (self.new ≡ self.old) }
    {
        if self.requests.capacity() - self.requests.len() < n {
            self.requests.reserve(n)?;
        }
        Ok(())
    }

    /// For how many more read requests there are places.
    pub fn free_requests(&self) -> usize
        ensures { result ≡ self.now.room.requests - length self.now.slots.requests }
    {
        self.requests.capacity() - self.requests.len()
    }

    pub fn is_close_requested(&self) -> bool
        ensures { result ≡ self.now.slots.close_requested }
    {
        self.close_requested
    }

    /// ShouldCallPull, where this much is in the queue.
    pub fn should_pull_with(&self, total: u128) -> bool
        ensures { result ≡ (rows.can_close_or_enqueue self.now.slots && self.now.slots.started
            && (not (queues.is_empty (rows.waiting self.now.slots)) || nat_lt total self.now.slots.hwm)) }
    {
        self.can_close_or_enqueue()
            && self.started
            && (self.reader.is_some() && !self.requests.is_empty() || total < u128::from(self.hwm))
    }

    /// The high-water mark.
    pub fn hwm(&self) -> u64
        ensures { result ≡ self.now.slots.hwm }
    {
        self.hwm
    }

    pub fn mark_started(&mut self)
        ensures { self.new ≡ record self.old { slots = record self.old.slots { started = true } } }
    {
        self.started = true;
    }

    pub fn request_close(&mut self)
        ensures { self.new ≡ record self.old { slots = record self.old.slots { close_requested = true } } }
    {
        self.close_requested = true;
    }

    /// The stream pulls no longer, and doesn't pull again. The answer is whether it was to pull again.
    pub fn end_pull(&mut self) -> bool
        ensures again { result ≡ self.old.slots.pull_again }
        ensures slots { self.new
            ≡ record self.old { slots = record self.old.slots { pulling = false; pull_again = false } } }
    {
        self.pulling = false;
        let again = self.pull_again;
        self.pull_again = false;
        again
    }

    /// Takes the first request.
    pub fn pop_request(&mut self) -> Option<ReadRequest>
        ensures request { result ≡ request_taken self.old.slots.requests }
        ensures slots { self.new
            ≡ record self.old { slots = after_request_taken self.old.slots self.old.slots.requests } }
    {
        self.requests.pop_front()
    }

    /// ReadableStreamClose, with a BYOB reader: none of its requests is answered.
    pub fn close_keeping_requests(&mut self, p: &mut Promises)
        ensures row { (fx : SeenAgenda) → acts_of self.new p.new fx
            ≡ bytes.close_stream_keeping (acts_of self.old p.old fx) }
        ensures slots { self.new ≡ record self.old { slots = record self.old.slots { state = Closed } } }
        ensures promise_room { p.new.room ≡ p.old.room }
    {
        self.state = ReadableState::Closed;
        if let Some(closed) = self.reader {
            p.fulfil(closed, Plain::Undefined);
        }
    }

    /// Takes all requests, and has their close steps performed with undefined.
    pub fn close_all_requests(&mut self, me: StreamId, fx: &mut Agenda)
        requires { HasEffectRoom (length self.old.slots.requests) fx.old }
        ensures slots { self.new ≡ record self.old { slots = record self.old.slots { requests = [] } } }
        ensures effects { fx.new
            ≡ record fx.old { effects = fx.old.effects ++ rows.close_all me self.old.slots.requests } }
        ensures caused { length fx.new.effects ≡ length self.old.slots.requests + length fx.old.effects }
    {
        close_requests(&mut self.requests, me, fx);
    }
}
