//! How a host answers a BYOB request.
ghost use Rattle.std.specs.Prelude.{◌≡◌, ◌≤◌, ◌+◌, ◌++◌, length, Some, false};
ghost use Rattle.ws_promise.specs.Seen.{HasEffectRoom, Seen};
ghost use Rattle.ws_steps.specs.Bytes as rows;
ghost use Rattle.ws_descriptors.specs.Seen.{IsFine, Takes};
ghost use Rattle.ws_byte.specs.Seen.{FirstTakes, HasDescriptorRoom, HasQueueRoom, acts_of, with_first};

use crate::ByteStream;
use crate::commit::{commit, commit_all};
use ws_descriptors::{Descriptor, move_first, process};
use ws_promise::Agenda;
use ws_steps::ReadableState;
use ws_value::{Chunk, RequestId, StreamId};

impl ByteStream {
    /// For each request that waits one descriptor is taken out, and then these are committed, in order.
    fn commit_waiting(&mut self, me: StreamId, fx: &mut Agenda)
        requires queue { HasQueueRoom 0 self.old }
        requires effects { HasEffectRoom (length self.old.slots.stream.requests) fx.old }
        ensures row { (p : Seen) → acts_of self.new p fx.new
            ≡ rows.commit_first me (length self.old.slots.stream.requests) (acts_of self.old p fx.old) }
        ensures room { self.new.room ≡ self.old.room }
        ensures spares { self.new.spares ≡ self.old.spares }
        ensures effect_room { fx.new.capacity ≡ fx.old.capacity }
    {
        let waiting = self.stream.waiting_requests();
        move_first(&mut self.descriptors, &mut self.ready, waiting);
        commit_all(&mut self.stream, &mut self.queue, &mut self.ready, me, fx);
    }

    /// ReadableByteStreamControllerRespondInClosedState, where the first descriptor was taken out.
    fn respond_closed(&mut self, me: StreamId, fx: &mut Agenda, first: Descriptor)
        requires fine { IsFine first }
        requires queue { HasQueueRoom 1 self.old }
        requires descriptors { HasDescriptorRoom 1 self.old }
        requires effects { HasEffectRoom (length self.old.slots.stream.requests) fx.old }
        ensures row { (p : Seen) → acts_of self.new p fx.new
            ≡ rows.respond_closed me first (with_first first (acts_of self.old p fx.old)) }
        ensures room { self.new.room ≡ self.old.room }
        ensures spares { self.new.spares ≡ self.old.spares }
        ensures effect_room { fx.new.capacity ≡ fx.old.capacity }
    {
        if !first.is_for_nobody() {
            self.put_first(first);
        }
        if self.has_byob_reader() {
            self.commit_waiting(me, fx);
        }
    }

    /// The first descriptor, which was taken out, has all that it wants with these bytes. Those that are a part of an
    /// element go to the queue, from which the others are filled. It is committed before those that are ready then.
    #[tactic(auto, unfolding(ws_steps::specs::Bytes::respond_full))]
    fn respond_full(&mut self, me: StreamId, fx: &mut Agenda, first: Descriptor, bytes: Chunk)
        requires fine { IsFine first }
        requires takes { Takes (length bytes) first }
        requires full { first.minimum ≤ length first.filled + length bytes }
        requires queue { HasQueueRoom 2 self.old }
        requires descriptors { HasDescriptorRoom 1 self.old }
        requires effects { HasEffectRoom (length self.old.slots.stream.requests) fx.old }
        ensures row { (p : Seen) → acts_of self.new p fx.new
            ≡ rows.respond_full me (record first { filled = first.filled ++ bytes }) (with_first first (acts_of self.old p fx.old)) }
        ensures room { self.new.room ≡ self.old.room }
        ensures spares { self.new.spares ≡ self.old.spares }
        ensures effect_room { fx.new.capacity ≡ fx.old.capacity }
        ensures caused { length fx.new.effects ≤ length self.old.slots.stream.requests + length fx.old.effects }
    {
        let mut full = first;
        let mut part = bytes;
        let whole = part.len() - full.part_with(part.len());
        full.put(&part.as_slice()[..whole]);
        part.advance(whole);
        self.queue.push(part);
        process(&mut self.descriptors, &mut self.queue, &mut self.ready);
        commit(&mut self.stream, &mut self.queue, me, fx, full.into_chunk());
        commit_all(&mut self.stream, &mut self.queue, &mut self.ready, me, fx);
    }

    /// The first descriptor, which was taken out, is for nobody: with these bytes it goes to the queue, from which the
    /// others are filled.
    fn respond_renounced(&mut self, me: StreamId, fx: &mut Agenda, first: Descriptor, bytes: Chunk)
        requires takes { Takes (length bytes) first }
        requires queue { HasQueueRoom 1 self.old }
        requires effects { HasEffectRoom (length self.old.slots.stream.requests) fx.old }
        ensures row { (p : Seen) → acts_of self.new p fx.new
            ≡ rows.process_and_commit me (rows.append (first.filled ++ bytes) (acts_of self.old p fx.old)) }
        ensures room { self.new.room ≡ self.old.room }
        ensures spares { self.new.spares ≡ self.old.spares }
        ensures effect_room { fx.new.capacity ≡ fx.old.capacity }
        ensures caused { length fx.new.effects ≤ length self.old.slots.stream.requests + length fx.old.effects }
    {
        let mut detached = first;
        detached.put(bytes.as_slice());
        self.queue.push(detached.into_chunk());
        self.process_and_commit(me, fx);
    }

    /// ReadableByteStreamControllerRespondInReadableState, where the first descriptor was taken out.
    fn respond_readable(&mut self, me: StreamId, fx: &mut Agenda, first: Descriptor, bytes: Chunk)
        requires fine { IsFine first }
        requires takes { Takes (length bytes) first }
        requires queue { HasQueueRoom 2 self.old }
        requires descriptors { HasDescriptorRoom 1 self.old }
        requires effects { HasEffectRoom (length self.old.slots.stream.requests) fx.old }
        ensures row { (p : Seen) → acts_of self.new p fx.new
            ≡ rows.respond_readable me (record first { filled = first.filled ++ bytes }) (with_first first (acts_of self.old p fx.old)) }
        ensures room { self.new.room ≡ self.old.room }
        ensures spares { self.new.spares ≡ self.old.spares }
        ensures effect_room { fx.new.capacity ≡ fx.old.capacity }
        ensures caused { length fx.new.effects ≤ length self.old.slots.stream.requests + length fx.old.effects }
    {
        if first.is_for_nobody() {
            self.respond_renounced(me, fx, first, bytes);
        } else if first.lacks_with(bytes.len()) {
            let mut filling = first;
            filling.put(bytes.as_slice());
            self.put_first(filling);
        } else {
            self.respond_full(me, fx, first, bytes);
        }
    }

    fn is_closed(&self) -> bool
        ensures { result ≡ rows.is_closed self.now.slots.stream.state }
    {
        match self.stream.state() {
            ReadableState::Readable | ReadableState::Errored => false,
            ReadableState::Closed => true,
        }
    }

    /// ReadableByteStreamControllerRespondInternal, of bytes that fit.
    fn respond_internal(&mut self, me: StreamId, fx: &mut Agenda, bytes: Chunk)
        requires takes { rows.is_closed self.old.slots.stream.state ≡ false → FirstTakes (length bytes) self.old.slots.descriptors }
        requires queue { HasQueueRoom 1 self.old }
        requires effects { HasEffectRoom (1 + length self.old.slots.stream.requests) fx.old }
        ensures row { (p : Seen) → acts_of self.new p fx.new ≡ rows.respond_internal me bytes (acts_of self.old p fx.old) }
        ensures room { self.new.room ≡ self.old.room }
        ensures spares { self.new.spares ≡ self.old.spares }
        ensures effect_room { fx.new.capacity ≡ fx.old.capacity }
    {
        self.invalidate_request();
        let Some(first) = self.take_first() else {
            return;
        };
        if self.is_closed() {
            self.respond_closed(me, fx, first);
        } else {
            self.respond_readable(me, fx, first, bytes);
            self.call_pull_if_needed(me, fx);
        }
    }

    /// ReadableByteStreamControllerRespond, where it doesn't throw.
    #[tactic(auto, unfolding(ws_steps::specs::Bytes::respond))]
    pub fn respond(&mut self, me: StreamId, fx: &mut Agenda, bytes: Chunk)
        requires queue { HasQueueRoom 1 self.old }
        requires effects { HasEffectRoom (1 + length self.old.slots.stream.requests) fx.old }
        ensures row { (p : Seen) → acts_of self.new p fx.new ≡ rows.respond me bytes (acts_of self.old p fx.old) }
        ensures room { self.new.room ≡ self.old.room }
        ensures spares { self.new.spares ≡ self.old.spares }
        ensures effect_room { fx.new.capacity ≡ fx.old.capacity }
    {
        if self.respond_throws(bytes.len()).is_some() {
            self.astray = true;
            return;
        }
        self.respond_internal(me, fx, bytes);
    }

    /// ReadableByteStreamControllerGetBYOBRequest, where there is no request yet: one of this number.
    pub fn make_request(&mut self, request: RequestId)
        ensures { self.new ≡ record self.old { slots = record self.old.slots { request = Some request } } }
    {
        self.request = Some(request);
    }
}
