//! The operations of the default writer.
ghost use Rattle.std.specs.Prelude.{◌≡◌};
ghost use Rattle.ws_promise.specs.Seen.{HasEffectRoom, HasPromiseRoom, Seen, SeenAgenda};
ghost use Rattle.ws_steps.specs.Writable as rows;
ghost use Rattle.ws_writable.specs.Seen.{HasQueueRoom, HasRequestRoom, acts_of};

use crate::Writable;
use crate::requests::settle_pending;
use crate::stream::TYPE_ERROR;
use ws_promise::{Agenda, Promises};
use ws_steps::{Effect, WritableState, WriteRecord, Writer};
use ws_value::{Plain, PromiseId, StreamId, Value};

impl Writable {
    fn settle_ready(&self, p: &mut Promises, ready: PromiseId)
        ensures table { p.new
            ≡ record p.old { table = rows.ready_promise ready self.now.slots p.old.table self.now.slots.state } }
    {
        match self.state {
            WritableState::Writable => {
                if self.is_closing() || !self.backpressure {
                    p.fulfil(ready, Plain::Undefined);
                }
            }
            WritableState::Erroring => p.reject(ready, self.stored_error),
            WritableState::Closed => p.fulfil(ready, Plain::Undefined),
            WritableState::Errored => p.reject(ready, self.stored_error),
        }
    }

    fn settle_closed(&self, p: &mut Promises, closed: PromiseId)
        ensures table { p.new
            ≡ record p.old { table = rows.closed_promise closed self.now.slots p.old.table self.now.slots.state } }
    {
        match self.state {
            WritableState::Writable => {}
            WritableState::Erroring => {}
            WritableState::Closed => p.fulfil(closed, Plain::Undefined),
            WritableState::Errored => p.reject(closed, self.stored_error),
        }
    }

    /// SetUpWritableStreamDefaultWriter: a writer, with its promises, takes the stream.
    #[tactic(auto, unfolding(ws_steps::specs::Writable::set_up_writer))]
    pub fn set_up_writer(&mut self, p: &mut Promises, writer: Writer)
        ensures row { (fx : SeenAgenda) → acts_of self.new p.new fx
            ≡ rows.set_up_writer writer (acts_of self.old p.old fx) }
        ensures room { self.new.room ≡ self.old.room }
        ensures promise_room { p.new.room ≡ p.old.room }
    {
        self.settle_ready(p, writer.ready);
        self.settle_closed(p, writer.closed);
        self.writer = Some(writer);
    }

    /// With what a write is rejected at once.
    pub(crate) fn write_refusal(&self) -> Option<Plain>
        ensures { result ≡ rows.write_refusal self.now.slots }
    {
        if self.is_errored() {
            return Some(self.stored_error);
        }
        if self.is_closing() || self.is_closed() {
            return Some(TYPE_ERROR);
        }
        if self.is_erroring() {
            return Some(self.stored_error);
        }
        None
    }

    /// WritableStreamAddWriteRequest.
    pub fn add_write_request(&mut self, promise: PromiseId)
        requires request_room { HasRequestRoom 1 self.old }
        ensures row { (p : Seen) (fx : SeenAgenda) → acts_of self.new p fx
            ≡ rows.add_write_request promise (acts_of self.old p fx) }
        ensures room { self.new.room ≡ self.old.room }
        ensures queue { self.new.slots.queue ≡ self.old.slots.queue }
    {
        self.write_requests.push_back_reserved(promise);
    }

    #[inline(always)]
    pub(crate) fn enqueue_chunk(&mut self, chunk: Value)
        requires queue_room { HasQueueRoom 1 self.old }
        ensures row { (p : Seen) (fx : SeenAgenda) → acts_of self.new p fx
            ≡ rows.enqueue_chunk chunk (acts_of self.old p fx) }
        ensures room { self.new.room ≡ self.old.room }
    {
        let size = self.size_by.size_of(&chunk);
        self.queue.push(WriteRecord::Chunk(chunk), size);
    }

    /// WritableStreamDefaultWriterWrite, where the writer has the stream, with the promise that it answers.
    #[tactic(auto, unfolding(ws_steps::specs::Writable::writer_write))]
    pub fn writer_write(
        &mut self,
        me: StreamId,
        p: &mut Promises,
        fx: &mut Agenda,
        chunk: Value,
        promise: PromiseId,
    )
        requires queue_room { HasQueueRoom 1 self.old }
        requires request_room { HasRequestRoom 1 self.old }
        requires promise_room { HasPromiseRoom 1 p.old }
        requires effect_room { HasEffectRoom 1 fx.old }
        ensures row { acts_of self.new p.new fx.new
            ≡ rows.writer_write me chunk promise (acts_of self.old p.old fx.old) }
        ensures room { self.new.room ≡ self.old.room }
        ensures promise_room { p.new.room ≡ p.old.room }
        ensures effect_room { fx.new.capacity ≡ fx.old.capacity }
    {
        if self.write_directly(me, p, fx, chunk, promise) {
            fx.push(Effect::WriteAlgorithm(me));
        }
    }

    /// WritableStreamDefaultWriterCloseWithErrorPropagation, with the promise that it answers.
    #[tactic(auto, unfolding(ws_steps::specs::Writable::close_with_error_propagation))]
    pub fn close_with_error_propagation(
        &mut self,
        me: StreamId,
        p: &mut Promises,
        fx: &mut Agenda,
        promise: PromiseId,
    )
        requires queue_room { HasQueueRoom 1 self.old }
        requires effect_room { HasEffectRoom 1 fx.old }
        ensures row { acts_of self.new p.new fx.new
            ≡ rows.close_with_error_propagation me promise (acts_of self.old p.old fx.old) }
        ensures room { self.new.room ≡ self.old.room }
        ensures promise_room { p.new.room ≡ p.old.room }
        ensures effect_room { fx.new.capacity ≡ fx.old.capacity }
    {
        if self.is_closing() || self.is_closed() {
            p.fulfil(promise, Plain::Undefined);
            return;
        }
        if self.is_errored() {
            p.reject(promise, self.stored_error);
            return;
        }
        self.stream_close(me, p, fx, promise);
    }

    /// WritableStreamDefaultWriterRelease. The new promises of a released writer are made by the call.
    #[tactic(auto, unfolding(ws_steps::specs::Writable::writer_release))]
    pub fn writer_release(&mut self, p: &mut Promises)
        ensures row { (fx : SeenAgenda) → acts_of self.new p.new fx ≡ rows.writer_release (acts_of self.old p.old fx) }
        ensures room { self.new.room ≡ self.old.room }
        ensures promise_room { p.new.room ≡ p.old.room }
    {
        if let Some(writer) = self.writer {
            settle_pending(p, writer.ready, Err(TYPE_ERROR));
            settle_pending(p, writer.closed, Err(TYPE_ERROR));
            self.writer = None;
        }
    }
}
