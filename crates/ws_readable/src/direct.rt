//! The way of a chunk, where what the controller causes is told by the result.
ghost use Rattle.std.specs.Prelude.{◌≡◌, ◌+◌, ◌&&◌, ◌||◌, not, nat_lt, length, Ok, true, false};
ghost use Rattle.ws_promise.specs.Seen.{Seen, SeenAgenda};
ghost use Rattle.ws_readable.specs.Seen.{HasQueueRoom, HasRequestRoom, acts_of, pulling_where};
ghost use Rattle.ws_steps.specs.Queues as queues;
ghost use Rattle.ws_steps.specs.Readable as rows;
ghost use Rattle.ws_steps.specs.declared.effects.Effect.TheVariants as effect;
ghost use Rattle.ws_value.specs.declared.value.Plain.TheVariants.{Undefined};

use crate::Readable;
use ws_steps::ReadRequest;
use ws_value::{StreamId, Value};

impl Readable {
    /// Whether a stream that can close or enqueue should pull.
    #[inline(always)]
    pub(crate) fn wants_pull(&self) -> bool
        ensures { result ≡ (self.now.slots.started
            && (not (queues.is_empty (rows.waiting self.now.slots))
            || nat_lt (queues.total_of self.now.slots.queue) self.now.slots.hwm)) }
    {
        self.started
            && (self.reader.is_some() && !self.requests.is_empty()
                || self.queue.total() < u128::from(self.hwm))
    }

    /// ReadableStreamDefaultControllerCallPullIfNeeded, where the stream can close or enqueue: whether the pull
    /// algorithm is to be performed.
    #[inline(always)]
    #[tactic(auto, unfolding(ws_steps::specs::Readable::call_pull_if_needed))]
    pub fn pulls_directly(&mut self) -> bool
        requires { rows.can_close_or_enqueue self.old.slots ≡ true }
        ensures row { (me : StreamId) (p : Seen) (fx : SeenAgenda) → rows.call_pull_if_needed me (acts_of self.old p fx)
            ≡ pulling_where result me (acts_of self.new p fx) }
        ensures room { self.new.room ≡ self.old.room }
        ensures requests { self.new.slots.requests ≡ self.old.slots.requests }
        ensures queue { self.new.slots.queue ≡ self.old.slots.queue }
    {
        if !self.wants_pull() {
            return false;
        }
        if self.pulling {
            self.pull_again = true;
            return false;
        }
        self.pulling = true;
        true
    }

    /// ReadableStreamDefaultControllerCallPullIfNeeded: whether the pull algorithm is to be performed.
    #[inline(always)]
    #[tactic(auto, unfolding(ws_steps::specs::Readable::call_pull_if_needed))]
    pub(crate) fn pulls(&mut self) -> bool
        ensures row { (me : StreamId) (p : Seen) (fx : SeenAgenda) → rows.call_pull_if_needed me (acts_of self.old p fx)
            ≡ pulling_where result me (acts_of self.new p fx) }
        ensures room { self.new.room ≡ self.old.room }
    {
        self.can_close_or_enqueue() && self.pulls_directly()
    }

    /// The controller's reaction to its pull algorithm, where that succeeded: whether it is to be performed again.
    #[inline(always)]
    #[tactic(auto, unfolding(ws_steps::specs::Readable::pull_settled))]
    pub fn pull_done(&mut self) -> bool
        ensures row { (me : StreamId) (p : Seen) (fx : SeenAgenda)
            → rows.pull_settled me (Ok Undefined) (acts_of self.old p fx)
            ≡ pulling_where result me (acts_of self.new p fx) }
        ensures room { self.new.room ≡ self.old.room }
    {
        self.pulling = false;
        if !self.pull_again {
            return false;
        }
        self.pull_again = false;
        self.pulls()
    }

    /// ReadableStreamDefaultControllerEnqueue, where the stream can take a chunk and a request waits for it: the
    /// request that the chunk is handed to, before a pull that may be needed.
    #[inline(always)]
    #[tactic(auto, unfolding(ws_steps::specs::Readable::controller_enqueue, ws_steps::specs::Readable::accept))]
    pub fn hand_directly(&mut self) -> ReadRequest
        requires takes { rows.can_close_or_enqueue self.old.slots ≡ true }
        requires waits { queues.is_empty (rows.waiting self.old.slots) ≡ false }
        ensures row { (me : StreamId) (chunk : Value) (p : Seen) (fx : SeenAgenda)
            → rows.controller_enqueue me chunk (acts_of self.old p fx) ≡ rows.call_pull_if_needed me
            (rows.causing (effect.ChunkSteps me result chunk) (acts_of self.new p fx)) }
        ensures going { rows.can_close_or_enqueue self.new.slots ≡ true }
        ensures room { self.new.room ≡ self.old.room }
        ensures requests { 1 + length self.new.slots.requests ≡ length self.old.slots.requests }
        ensures queue { self.new.slots.queue ≡ self.old.slots.queue }
    {
        let Some(request) = self.take_request() else {
            unreachable!()
        };
        request
    }

    /// ReadableStreamDefaultControllerEnqueue, where the stream can take a chunk and no request waits for it: the chunk
    /// goes into the queue, before a pull that may be needed.
    #[inline(always)]
    #[tactic(auto, unfolding(ws_steps::specs::Readable::controller_enqueue, ws_steps::specs::Readable::accept))]
    pub fn keep_directly(&mut self, chunk: Value)
        requires takes { rows.can_close_or_enqueue self.old.slots ≡ true }
        requires none_waits { queues.is_empty (rows.waiting self.old.slots) ≡ true }
        requires queue { HasQueueRoom 1 self.old }
        ensures row { (me : StreamId) (p : Seen) (fx : SeenAgenda)
            → rows.controller_enqueue me chunk (acts_of self.old p fx)
            ≡ rows.call_pull_if_needed me (acts_of self.new p fx) }
        ensures going { rows.can_close_or_enqueue self.new.slots ≡ true }
        ensures room { self.new.room ≡ self.old.room }
        ensures requests { self.new.slots.requests ≡ self.old.slots.requests }
        ensures queue { length self.new.slots.queue ≡ 1 + length self.old.slots.queue }
    {
        let size = self.size_by.size_of(&chunk);
        self.queue.push(chunk, size);
    }

    /// ReadableStreamDefaultReaderRead, where the stream can close or enqueue and there is a chunk: the chunk, which is
    /// handed to the request after a pull that may be needed.
    #[inline(always)]
    #[tactic(auto, unfolding(ws_steps::specs::Readable::default_reader_read, ws_steps::specs::Readable::pull_steps, ws_steps::specs::Readable::after_take))]
    pub fn take_directly(&mut self) -> Value
        requires gives { rows.can_close_or_enqueue self.old.slots ≡ true }
        requires some { queues.is_empty self.old.slots.queue ≡ false }
        ensures row { (me : StreamId) (request : ReadRequest) (p : Seen) (fx : SeenAgenda)
            → rows.default_reader_read me request (acts_of self.old p fx)
            ≡ rows.causing (effect.ChunkSteps me request result) (rows.call_pull_if_needed me (acts_of self.new p fx)) }
        ensures going { rows.can_close_or_enqueue self.new.slots ≡ true }
        ensures room { self.new.room ≡ self.old.room }
        ensures requests { self.new.slots.requests ≡ self.old.slots.requests }
        ensures queue { 1 + length self.new.slots.queue ≡ length self.old.slots.queue }
    {
        self.disturbed = true;
        let Some((chunk, _)) = self.queue.pop() else {
            unreachable!()
        };
        chunk
    }

    /// ReadableStreamDefaultReaderRead, where the stream can close or enqueue and there is no chunk: the request waits,
    /// before a pull that may be needed.
    #[inline(always)]
    #[tactic(auto, unfolding(ws_steps::specs::Readable::default_reader_read, ws_steps::specs::Readable::pull_steps))]
    pub fn wait_directly(&mut self, request: ReadRequest)
        requires gives { rows.can_close_or_enqueue self.old.slots ≡ true }
        requires none { queues.is_empty self.old.slots.queue ≡ true }
        requires requests { HasRequestRoom 1 self.old }
        ensures row { (me : StreamId) (p : Seen) (fx : SeenAgenda)
            → rows.default_reader_read me request (acts_of self.old p fx)
            ≡ rows.call_pull_if_needed me (acts_of self.new p fx) }
        ensures going { rows.can_close_or_enqueue self.new.slots ≡ true }
        ensures room { self.new.room ≡ self.old.room }
        ensures requests { length self.new.slots.requests ≡ 1 + length self.old.slots.requests }
        ensures queue { self.new.slots.queue ≡ self.old.slots.queue }
    {
        self.disturbed = true;
        self.requests.push_back_reserved(request);
    }
}
