//! The way of a chunk, where the write algorithm that is to be performed is told by the result.
ghost use Rattle.std.specs.Prelude.{◌≡◌, Ok, true, false};
ghost use Rattle.ws_promise.specs.Seen.{HasEffectRoom, HasPromiseRoom, Seen, SeenAgenda};
ghost use Rattle.ws_steps.specs.Writable as rows;
ghost use Rattle.ws_steps.specs.declared.effects.Effect.TheVariants.{WriteAlgorithm};
ghost use Rattle.ws_steps.specs.declared.transform.Taker.{Taker};
ghost use Rattle.ws_value.specs.declared.value.Plain.TheVariants.{Undefined};
ghost use Rattle.ws_writable.specs.Seen.{HasQueueRoom, HasRequestRoom, acts_of, handing, is_free, writing_where};

use crate::Writable;
use ws_promise::{Agenda, Promises};
use ws_steps::WriteRecord;
use ws_value::{Plain, PromiseId, StreamId, Value};

impl Writable {
    /// WritableStreamDefaultControllerAdvanceQueueIfNeeded: whether the write algorithm is to be performed. What else
    /// there is to do is done, or caused.
    #[inline(always)]
    #[tactic(auto, unfolding(ws_steps::specs::Writable::advance_queue, ws_steps::specs::Writable::process_write))]
    pub(crate) fn writes(&mut self, me: StreamId, p: &mut Promises, fx: &mut Agenda) -> bool
        requires effect_room { HasEffectRoom 1 fx.old }
        ensures row { rows.advance_queue me (acts_of self.old p.old fx.old)
            ≡ writing_where result me (acts_of self.new p.new fx.new) }
        ensures quiet { result ≡ true → fx.new ≡ fx.old }
        ensures room { self.new.room ≡ self.old.room }
        ensures promise_room { p.new.room ≡ p.old.room }
        ensures effect_room { fx.new.capacity ≡ fx.old.capacity }
    {
        if !self.started || self.write_in_flight.is_some() {
            return false;
        }
        if self.is_erroring() {
            self.finish_erroring(me, p, fx);
            return false;
        }
        match self.queue.first() {
            Some(WriteRecord::Chunk(_)) => {
                self.write_in_flight = self.write_requests.pop_front();
                true
            }
            Some(WriteRecord::CloseMark) => {
                self.process_close(me, fx);
                false
            }
            Some(WriteRecord::InFlight) | None => false,
        }
    }

    /// The controller's reaction to its write algorithm, where that succeeded: whether it is to be performed again.
    #[inline(always)]
    #[tactic(auto, unfolding(ws_steps::specs::Writable::write_settled))]
    pub fn write_done(&mut self, me: StreamId, p: &mut Promises, fx: &mut Agenda) -> bool
        requires promise_room { HasPromiseRoom 1 p.old }
        requires effect_room { HasEffectRoom 1 fx.old }
        ensures row { rows.write_settled me (Ok Undefined) (acts_of self.old p.old fx.old)
            ≡ writing_where result me (acts_of self.new p.new fx.new) }
        ensures quiet { result ≡ true → fx.new ≡ fx.old }
        ensures room { self.new.room ≡ self.old.room }
        ensures promise_room { p.new.room ≡ p.old.room }
        ensures effect_room { fx.new.capacity ≡ fx.old.capacity }
    {
        self.write_ended(p, Ok(Plain::Undefined));
        self.drop_first();
        self.refresh_backpressure(p);
        self.writes(me, p, fx)
    }

    /// WritableStreamDefaultControllerWrite: whether the write algorithm is to be performed.
    #[inline(always)]
    #[tactic(auto, unfolding(ws_steps::specs::Writable::controller_write))]
    fn controller_write(
        &mut self,
        me: StreamId,
        p: &mut Promises,
        fx: &mut Agenda,
        chunk: Value,
    ) -> bool
        requires queue_room { HasQueueRoom 1 self.old }
        requires promise_room { HasPromiseRoom 1 p.old }
        requires effect_room { HasEffectRoom 1 fx.old }
        ensures row { rows.controller_write me chunk (acts_of self.old p.old fx.old)
            ≡ writing_where result me (acts_of self.new p.new fx.new) }
        ensures quiet { result ≡ true → fx.new ≡ fx.old }
        ensures room { self.new.room ≡ self.old.room }
        ensures promise_room { p.new.room ≡ p.old.room }
        ensures effect_room { fx.new.capacity ≡ fx.old.capacity }
    {
        self.enqueue_chunk(chunk);
        self.refresh_backpressure(p);
        self.writes(me, p, fx)
    }

    /// Whether a write that comes now is performed at once.
    #[inline(always)]
    fn is_free(&self) -> bool
        ensures { result ≡ is_free self.now.slots }
    {
        self.started
            && self.write_in_flight.is_none()
            && self.write_requests.is_empty()
            && self.queue.is_empty()
    }

    /// WritableStreamAddWriteRequest and WritableStreamDefaultControllerWrite, where the write is performed at once.
    #[inline(always)]
    fn write_at_once(&mut self, p: &mut Promises, chunk: Value, promise: PromiseId)
        requires queue_room { HasQueueRoom 1 self.old }
        requires promise_room { HasPromiseRoom 1 p.old }
        requires free { is_free self.old.slots ≡ true }
        requires steady { rows.is_erroring self.old.slots.state ≡ false }
        ensures row { (me : StreamId) (fx : SeenAgenda)
            → rows.controller_write me chunk (rows.add_write_request promise (acts_of self.old p.old fx))
            ≡ rows.causing (WriteAlgorithm me) (acts_of self.new p.new fx) }
        ensures room { self.new.room ≡ self.old.room }
        ensures promise_room { p.new.room ≡ p.old.room }
    {
        self.enqueue_chunk(chunk);
        self.refresh_backpressure(p);
        self.write_in_flight = Some(promise);
    }

    /// WritableStreamDefaultWriterWrite, where the writer has the stream, with the promise that it answers: whether
    /// the write algorithm is to be performed.
    #[inline(always)]
    #[tactic(auto, unfolding(ws_steps::specs::Writable::writer_write))]
    pub fn write_directly(
        &mut self,
        me: StreamId,
        p: &mut Promises,
        fx: &mut Agenda,
        chunk: Value,
        promise: PromiseId,
    ) -> bool
        requires queue_room { HasQueueRoom 1 self.old }
        requires request_room { HasRequestRoom 1 self.old }
        requires promise_room { HasPromiseRoom 1 p.old }
        requires effect_room { HasEffectRoom 1 fx.old }
        ensures row { rows.writer_write me chunk promise (acts_of self.old p.old fx.old)
            ≡ writing_where result me (acts_of self.new p.new fx.new) }
        ensures quiet { result ≡ true → fx.new ≡ fx.old }
        ensures room { self.new.room ≡ self.old.room }
        ensures promise_room { p.new.room ≡ p.old.room }
        ensures effect_room { fx.new.capacity ≡ fx.old.capacity }
    {
        match self.write_refusal() {
            Some(e) => {
                p.reject(promise, e);
                false
            }
            None => {
                if self.is_free() {
                    self.write_at_once(p, chunk, promise);
                    return true;
                }
                self.add_write_request(promise);
                self.controller_write(me, p, fx, chunk)
            }
        }
    }

    /// The chunk at the front of the queue, where one stands there, which is handed on. Its place, with its size, stays.
    #[inline(always)]
    #[tactic(auto, unfolding(ws_steps::specs::Writable::hand_on))]
    pub fn take_chunk(&mut self) -> Option<Value>
        ensures row { (me : StreamId) (taker : Taker) (p : Seen) (fx : SeenAgenda)
            → rows.hand_on me taker (acts_of self.old p fx) ≡ handing me taker result (acts_of self.new p fx) }
        ensures room { self.new.room ≡ self.old.room }
    {
        if !self.is_chunk_first() {
            return None;
        }
        let Some(WriteRecord::Chunk(chunk)) = self.queue.take_first(WriteRecord::InFlight) else {
            unreachable!()
        };
        Some(chunk)
    }
}
