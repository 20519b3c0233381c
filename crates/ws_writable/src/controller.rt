//! The operations of the default controller.
ghost use Rattle.std.specs.Prelude.{◌≡◌};
ghost use Rattle.ws_promise.specs.Seen.{HasEffectRoom, Seen};
ghost use Rattle.ws_steps.specs.Cross.{clones_first};
ghost use Rattle.ws_steps.specs.Queues.{first_value};
ghost use Rattle.ws_steps.specs.Writable as rows;
ghost use Rattle.ws_writable.specs.Seen.{HasQueueRoom, acts_of, is_chunk};

use crate::Writable;
use ws_promise::{Agenda, Promises};
use ws_steps::{
    Effect, HostCall, PortOperation, Step, Taker, TransformOperation, Use, WriteRecord,
};
use ws_value::{StreamId, Value};

/// A chunk is taken: the host's write algorithm is called with it, a transform algorithm is performed, or it is
/// posted.
fn taken_by(me: StreamId, chunk: Value, taker: Taker) -> Effect
    ensures { result ≡ rows.taken_by me chunk taker }
{
    match taker {
        Taker::ToHost => Effect::CallHost(
            HostCall::Write(me, chunk),
            Use::React(Step::WritableWrite(me), None),
        ),
        Taker::ToTransform(t, promise) => {
            Effect::Transform(t, TransformOperation::TransformChunk(chunk, promise))
        }
        Taker::ToPort(c, promise) => Effect::Port(c, PortOperation::PostChunk(chunk, promise)),
    }
}

impl Writable {
    /// WritableStreamDefaultControllerProcessClose.
    #[tactic(auto, unfolding(ws_steps::specs::Writable::process_close))]
    pub fn process_close(&mut self, me: StreamId, fx: &mut Agenda)
        requires effect_room { HasEffectRoom 1 fx.old }
        ensures row { (p : Seen) → acts_of self.new p fx.new ≡ rows.process_close me (acts_of self.old p fx.old) }
        ensures room { self.new.room ≡ self.old.room }
        ensures effect_room { fx.new.capacity ≡ fx.old.capacity }
    {
        self.close_in_flight = self.close_request.take();
        self.queue.pop();
        fx.push(Effect::CloseAlgorithm(me));
    }

    pub(crate) fn is_chunk_first(&self) -> bool
        ensures { result ≡ is_chunk (first_value self.now.slots.queue) }
    {
        matches!(self.queue.first(), Some(WriteRecord::Chunk(_)))
    }

    /// Whether the chunk at the front of the queue can be sent in a message; where there is none, nothing can fail.
    pub fn first_clones(&self) -> bool
        ensures { result ≡ clones_first (first_value self.now.slots.queue) }
    {
        match self.queue.first() {
            None => true,
            Some(WriteRecord::Chunk(chunk)) => chunk.cloneable(),
            Some(WriteRecord::InFlight) => true,
            Some(WriteRecord::CloseMark) => true,
        }
    }

    /// The chunk at the front of the queue is handed on. Its place, with its size, stays.
    #[tactic(auto, unfolding(ws_steps::specs::Writable::hand_on))]
    pub fn hand_on(&mut self, me: StreamId, taker: Taker, fx: &mut Agenda)
        requires effect_room { HasEffectRoom 1 fx.old }
        ensures row { (p : Seen) → acts_of self.new p fx.new ≡ rows.hand_on me taker (acts_of self.old p fx.old) }
        ensures room { self.new.room ≡ self.old.room }
        ensures effect_room { fx.new.capacity ≡ fx.old.capacity }
    {
        if let Some(chunk) = self.take_chunk() {
            fx.push(taken_by(me, chunk, taker));
        }
    }

    /// WritableStreamDefaultControllerAdvanceQueueIfNeeded.
    #[tactic(auto, unfolding(ws_steps::specs::Writable::advance_queue))]
    pub fn advance_queue(&mut self, me: StreamId, p: &mut Promises, fx: &mut Agenda)
        requires effect_room { HasEffectRoom 1 fx.old }
        ensures row { acts_of self.new p.new fx.new ≡ rows.advance_queue me (acts_of self.old p.old fx.old) }
        ensures room { self.new.room ≡ self.old.room }
        ensures promise_room { p.new.room ≡ p.old.room }
        ensures effect_room { fx.new.capacity ≡ fx.old.capacity }
    {
        if self.writes(me, p, fx) {
            fx.push(Effect::WriteAlgorithm(me));
        }
    }

    /// WritableStreamDefaultControllerClose.
    #[tactic(auto, unfolding(ws_steps::specs::Writable::controller_close))]
    pub fn controller_close(&mut self, me: StreamId, p: &mut Promises, fx: &mut Agenda)
        requires queue_room { HasQueueRoom 1 self.old }
        requires effect_room { HasEffectRoom 1 fx.old }
        ensures row { acts_of self.new p.new fx.new ≡ rows.controller_close me (acts_of self.old p.old fx.old) }
        ensures room { self.new.room ≡ self.old.room }
        ensures promise_room { p.new.room ≡ p.old.room }
        ensures effect_room { fx.new.capacity ≡ fx.old.capacity }
    {
        self.queue.push(WriteRecord::CloseMark, 0);
        self.advance_queue(me, p, fx);
    }
}
