//! How a host's bytes come in.
ghost use Rattle.std.specs.Prelude.{◌≡◌, ◌≤◌, ◌+◌, ◌*◌, cond, length, true, false};
ghost use Rattle.ws_promise.specs.Seen.{HasEffectRoom, Seen};
ghost use Rattle.ws_steps.specs.Bytes as rows;
ghost use Rattle.ws_byte.specs.Seen.{HasQueueRoom, acts_of, detached, is_renounced, renounced, serving};

use crate::ByteStream;
use crate::commit::commit_all;
use ws_descriptors::process;
use ws_promise::{Agenda, Promises};
use ws_steps::{Effect, ReadRequest};
use ws_value::{Chunk, StreamId, Value};

impl ByteStream {
    /// Fills the descriptors from the queue, and commits those that are ready, in order.
    pub(crate) fn process_and_commit(&mut self, me: StreamId, fx: &mut Agenda)
        requires queue { HasQueueRoom 0 self.old }
        requires effects { HasEffectRoom (length self.old.slots.stream.requests) fx.old }
        ensures row { (p : Seen) → acts_of self.new p fx.new ≡ rows.process_and_commit me (acts_of self.old p fx.old) }
        ensures room { self.new.room ≡ self.old.room }
        ensures spares { self.new.spares ≡ self.old.spares }
        ensures effect_room { fx.new.capacity ≡ fx.old.capacity }
        ensures caused { length fx.new.effects ≤ length self.old.slots.stream.requests + length fx.old.effects }
    {
        process(&mut self.descriptors, &mut self.queue, &mut self.ready);
        commit_all(&mut self.stream, &mut self.queue, &mut self.ready, me, fx);
    }

    /// ReadableByteStreamControllerEnqueueDetachedPullIntoToQueue.
    fn detached_to_queue(&mut self)
        requires { HasQueueRoom 0 self.old }
        ensures slots { self.new ≡ record self.old { slots = detached self.old.slots self.old.slots.descriptors } }
        ensures places { length self.new.slots.queue + length self.new.slots.descriptors
            ≤ length self.old.slots.queue + length self.old.slots.descriptors }
    {
        if let Some(first) = self.take_first() {
            self.queue.push(first.into_chunk());
        }
    }

    /// The first descriptor is for nobody.
    fn is_renounced(&self) -> bool
        ensures { result ≡ is_renounced self.now.slots.descriptors }
    {
        match self.descriptors.front() {
            Some(first) => first.is_for_nobody(),
            None => false,
        }
    }

    /// Where there are descriptors, the BYOB request is invalidated, and the first one goes to the queue where its
    /// reader was released.
    fn renounce(&mut self)
        requires { HasQueueRoom 0 self.old }
        ensures slots { self.new ≡ record self.old { slots = renounced self.old.slots self.old.slots.descriptors } }
        ensures places { length self.new.slots.queue + length self.new.slots.descriptors
            ≤ length self.old.slots.queue + length self.old.slots.descriptors }
    {
        if self.descriptors.is_empty() {
            return;
        }
        self.invalidate_request();
        if self.is_renounced() {
            self.detached_to_queue();
        }
    }

    /// ReadableByteStreamControllerFillReadRequestFromQueue.
    pub(crate) fn fill_read_request(
        &mut self,
        me: StreamId,
        p: &mut Promises,
        fx: &mut Agenda,
        request: ReadRequest,
    )
        requires { HasEffectRoom (2 + length self.old.slots.stream.requests) fx.old }
        ensures row { acts_of self.new p.new fx.new
            ≡ rows.fill_read_request me request (acts_of self.old p.old fx.old) self.old.slots.queue }
        ensures room { self.new.room ≡ self.old.room }
        ensures spares { self.new.spares ≡ self.old.spares }
        ensures promise_room { p.new.room ≡ p.old.room }
        ensures effect_room { fx.new.capacity ≡ fx.old.capacity }
    {
        if let Some(first) = self.queue.pop() {
            self.handle_queue_drain(me, p, fx);
            fx.push(Effect::ChunkSteps(me, request, Value::Bytes(first)));
        }
    }

    /// Serves the first request from the queue, where one waits and bytes are queued. A close wasn't requested, so
    /// that only a pull may come of it.
    fn serve_first(&mut self, me: StreamId, fx: &mut Agenda) -> bool
        requires open { self.old.slots.stream.close_requested ≡ false }
        requires effects { HasEffectRoom (2 * length self.old.slots.stream.requests) fx.old }
        ensures row { (p : Seen) → serving me result (acts_of self.new p fx.new) ≡ serving me true (acts_of self.old p fx.old) }
        ensures open { self.new.slots.stream.close_requested ≡ false }
        ensures room { self.new.room ≡ self.old.room }
        ensures spares { self.new.spares ≡ self.old.spares }
        ensures effect_room { fx.new.capacity ≡ fx.old.capacity }
        ensures caused { length fx.new.effects + 2 * length self.new.slots.stream.requests
            ≤ length fx.old.effects + 2 * length self.old.slots.stream.requests }
        ensures places { length self.new.slots.queue + length self.new.slots.descriptors
            ≤ length self.old.slots.queue + length self.old.slots.descriptors }
        ensures goes_on { length self.new.slots.stream.requests + cond result 1 0 ≡ length self.old.slots.stream.requests }
    {
        if self.queue.is_empty() {
            return false;
        }
        let Some(request) = self.stream.pop_request() else {
            return false;
        };
        if let Some(first) = self.queue.pop() {
            self.call_pull_if_needed(me, fx);
            fx.push(Effect::ChunkSteps(me, request, Value::Bytes(first)));
        }
        true
    }

    /// ReadableByteStreamControllerProcessReadRequestsUsingQueue, where a close wasn't requested.
    fn serve(&mut self, me: StreamId, fx: &mut Agenda)
        requires open { self.old.slots.stream.close_requested ≡ false }
        requires effects { HasEffectRoom (2 * length self.old.slots.stream.requests) fx.old }
        ensures row { (p : Seen) → acts_of self.new p fx.new ≡ serving me true (acts_of self.old p fx.old) }
        ensures room { self.new.room ≡ self.old.room }
        ensures spares { self.new.spares ≡ self.old.spares }
        ensures effect_room { fx.new.capacity ≡ fx.old.capacity }
        ensures caused { length fx.new.effects + 2 * length self.new.slots.stream.requests
            ≤ length fx.old.effects + 2 * length self.old.slots.stream.requests }
        ensures places { length self.new.slots.queue + length self.new.slots.descriptors
            ≤ length self.old.slots.queue + length self.old.slots.descriptors }
    {
        let mut going = true;
        while going {
            going = self.serve_first(me, fx);
        }
    }

    /// The first request that waits gets the bytes, and the first descriptor is dropped; where none waits, the bytes
    /// go to the queue.
    fn accept_for(&mut self, me: StreamId, fx: &mut Agenda, bytes: Chunk)
        requires queue { HasQueueRoom 1 self.old }
        requires effects { HasEffectRoom 1 fx.old }
        ensures row { (p : Seen) → acts_of self.new p fx.new
            ≡ rows.accept_for me bytes (acts_of self.old p fx.old) self.old.slots.stream.requests }
        ensures room { self.new.room ≡ self.old.room }
        ensures spares { self.new.spares ≡ self.old.spares }
        ensures effect_room { fx.new.capacity ≡ fx.old.capacity }
        ensures caused { length fx.new.effects ≤ 1 + length fx.old.effects }
    {
        match self.stream.pop_request() {
            Some(request) => {
                let _dropped = self.take_first();
                fx.push(Effect::ChunkSteps(me, request, Value::Bytes(bytes)));
            }
            None => self.queue.push(bytes),
        }
    }

    fn accept(&mut self, me: StreamId, fx: &mut Agenda, bytes: Chunk)
        requires open { self.old.slots.stream.close_requested ≡ false }
        requires queue { HasQueueRoom 1 self.old }
        requires effects { HasEffectRoom (1 + 2 * length self.old.slots.stream.requests) fx.old }
        ensures row { (p : Seen) → acts_of self.new p fx.new ≡ rows.accept me bytes (acts_of self.old p fx.old) }
        ensures room { self.new.room ≡ self.old.room }
        ensures spares { self.new.spares ≡ self.old.spares }
        ensures effect_room { fx.new.capacity ≡ fx.old.capacity }
        ensures caused { length fx.new.effects ≤ 1 + 2 * length self.old.slots.stream.requests + length fx.old.effects }
    {
        if self.has_default_reader() {
            self.serve(me, fx);
            self.accept_for(me, fx, bytes);
            return;
        }
        let fills = self.has_byob_reader();
        self.queue.push(bytes);
        if fills {
            self.process_and_commit(me, fx);
        }
    }

    /// ReadableByteStreamControllerEnqueue.
    #[tactic(auto, unfolding(ws_steps::specs::Bytes::controller_enqueue))]
    pub fn controller_enqueue(&mut self, me: StreamId, fx: &mut Agenda, bytes: Chunk)
        requires queue { HasQueueRoom 1 self.old }
        requires effects { HasEffectRoom (2 + 2 * length self.old.slots.stream.requests) fx.old }
        ensures row { (p : Seen) → acts_of self.new p fx.new ≡ rows.controller_enqueue me bytes (acts_of self.old p fx.old) }
        ensures room { self.new.room ≡ self.old.room }
        ensures spares { self.new.spares ≡ self.old.spares }
        ensures effect_room { fx.new.capacity ≡ fx.old.capacity }
    {
        if !self.can_take() {
            return;
        }
        self.renounce();
        self.accept(me, fx, bytes);
        self.call_pull_if_needed(me, fx);
    }
}
