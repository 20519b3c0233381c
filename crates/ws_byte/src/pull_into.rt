//! Reads of a BYOB reader.
ghost use Rattle.std.specs.Prelude.{◌≡◌, ◌+◌, length, [], false};
ghost use Rattle.ws_promise.specs.Seen.{HasEffectRoom};
ghost use Rattle.ws_steps.specs.Bytes as rows;
ghost use Rattle.ws_descriptors.specs.Seen.{IsFine};
ghost use Rattle.ws_byte.specs.Seen.{HasDescriptorRoom, HasRequestRoom, acts_of, after_waiting};

use crate::ByteStream;
use crate::controller::TYPE_ERROR;
use ws_descriptors::Descriptor;
use ws_promise::{Agenda, Promises};
use ws_steps::{Effect, ReadRequest, ReadableState, RoomKind};
use ws_value::{Room, StreamId, Value};

impl ByteStream {
    /// The descriptor and the request wait.
    fn pull_waits(&mut self, d: Descriptor, request: ReadRequest)
        requires fine { IsFine d }
        requires requests { HasRequestRoom 1 self.old }
        requires descriptors { HasDescriptorRoom 1 self.old }
        ensures { self.new ≡ record self.old { slots = after_waiting d request self.old.slots } }
    {
        self.descriptors.push_back_reserved(d);
        self.stream.wait_for_chunk(request);
    }

    /// What the queue filled of the room is handed back or waits. Where a close was requested, what waits is an error.
    fn pull_filled(
        &mut self,
        me: StreamId,
        p: &mut Promises,
        fx: &mut Agenda,
        d: Descriptor,
        is_ready: bool,
        request: ReadRequest,
    )
        requires fine { is_ready ≡ false → IsFine d }
        requires requests { HasRequestRoom 1 self.old }
        requires descriptors { HasDescriptorRoom 1 self.old }
        requires effects { HasEffectRoom (2 + length self.old.slots.stream.requests) fx.old }
        ensures row { acts_of self.new p.new fx.new
            ≡ rows.pull_filled me request (acts_of self.old p.old fx.old)
            (record { ready = is_ready; descriptor = d; queue = self.old.slots.queue }) }
        ensures room { self.new.room ≡ self.old.room }
        ensures spares { self.new.spares ≡ self.old.spares }
        ensures promise_room { p.new.room ≡ p.old.room }
        ensures effect_room { fx.new.capacity ≡ fx.old.capacity }
    {
        if is_ready {
            self.handle_queue_drain(me, p, fx);
            fx.push(Effect::ChunkSteps(me, request, Value::Bytes(d.into_chunk())));
        } else if self.stream.is_close_requested() {
            self.controller_error(me, p, fx, TYPE_ERROR);
            fx.push(Effect::ErrorSteps(me, request, TYPE_ERROR));
        } else {
            self.pull_waits(d, request);
            self.call_pull_if_needed(me, fx);
        }
    }

    fn pull_from_queue(
        &mut self,
        me: StreamId,
        p: &mut Promises,
        fx: &mut Agenda,
        d: Descriptor,
        request: ReadRequest,
    )
        requires fine { IsFine d }
        requires requests { HasRequestRoom 1 self.old }
        requires descriptors { HasDescriptorRoom 1 self.old }
        requires effects { HasEffectRoom (2 + length self.old.slots.stream.requests) fx.old }
        ensures row { acts_of self.new p.new fx.new
            ≡ rows.pull_from_queue me d request (acts_of self.old p.old fx.old) self.old.slots.queue }
        ensures room { self.new.room ≡ self.old.room }
        ensures spares { self.new.spares ≡ self.old.spares }
        ensures promise_room { p.new.room ≡ p.old.room }
        ensures effect_room { fx.new.capacity ≡ fx.old.capacity }
    {
        if self.queue.is_empty() {
            self.pull_waits(d, request);
            self.call_pull_if_needed(me, fx);
            return;
        }
        let mut filling = d;
        let is_ready = filling.fill(&mut self.queue);
        self.pull_filled(me, p, fx, filling, is_ready, request);
    }

    /// ReadableByteStreamControllerPullInto.
    #[tactic(auto, unfolding(ws_steps::specs::Bytes::pull_into))]
    fn pull_into(
        &mut self,
        me: StreamId,
        p: &mut Promises,
        fx: &mut Agenda,
        d: Descriptor,
        request: ReadRequest,
    )
        requires fine { IsFine d }
        requires unfilled { d.filled ≡ [] }
        requires requests { HasRequestRoom 1 self.old }
        requires descriptors { HasDescriptorRoom 1 self.old }
        requires effects { HasEffectRoom (2 + length self.old.slots.stream.requests) fx.old }
        ensures row { acts_of self.new p.new fx.new ≡ rows.pull_into me d request (acts_of self.old p.old fx.old) }
        ensures room { self.new.room ≡ self.old.room }
        ensures spares { self.new.spares ≡ self.old.spares }
        ensures promise_room { p.new.room ≡ p.old.room }
        ensures effect_room { fx.new.capacity ≡ fx.old.capacity }
    {
        if !self.descriptors.is_empty() {
            self.pull_waits(d, request);
        } else if self.stream.state() == ReadableState::Closed {
            fx.push(Effect::CloseStepsWith(me, request, d.into_chunk()));
        } else {
            self.pull_from_queue(me, p, fx, d, request);
        }
    }

    /// ReadableStreamBYOBReaderRead.
    #[tactic(auto, unfolding(ws_steps::specs::Bytes::byob_reader_read, ws_steps::specs::Readable::disturb))]
    fn byob_reader_read(
        &mut self,
        me: StreamId,
        p: &mut Promises,
        fx: &mut Agenda,
        d: Descriptor,
        request: ReadRequest,
    )
        requires fine { IsFine d }
        requires unfilled { d.filled ≡ [] }
        requires requests { HasRequestRoom 1 self.old }
        requires descriptors { HasDescriptorRoom 1 self.old }
        requires effects { HasEffectRoom (2 + length self.old.slots.stream.requests) fx.old }
        ensures row { acts_of self.new p.new fx.new ≡ rows.byob_reader_read me d request (acts_of self.old p.old fx.old) }
        ensures room { self.new.room ≡ self.old.room }
        ensures spares { self.new.spares ≡ self.old.spares }
        ensures promise_room { p.new.room ≡ p.old.room }
        ensures effect_room { fx.new.capacity ≡ fx.old.capacity }
    {
        self.stream.disturb();
        if self.stream.state() == ReadableState::Errored {
            fx.push(Effect::ErrorSteps(me, request, *self.stream.stored_error()));
        } else {
            self.pull_into(me, p, fx, d, request);
        }
    }

    /// A read of a readable stream comes from a BYOB reader.
    fn may_pull_into(&self) -> bool
        ensures { result ≡ rows.may_pull_into self.now.slots }
    {
        !self.stream.is_readable() || self.has_byob_reader()
    }

    /// ReadableStreamBYOBReaderRead with a room, the size of its elements, and how much is to be filled at least.
    #[tactic(auto, unfolding(ws_steps::specs::Bytes::read_into))]
    pub fn read_into(
        &mut self,
        me: StreamId,
        p: &mut Promises,
        fx: &mut Agenda,
        room: Room,
        element: u8,
        minimum: u64,
        request: ReadRequest,
    )
        requires requests { HasRequestRoom 1 self.old }
        requires descriptors { HasDescriptorRoom 1 self.old }
        requires effects { HasEffectRoom (2 + length self.old.slots.stream.requests) fx.old }
        ensures row { acts_of self.new p.new fx.new
            ≡ rows.read_into me (length room) element minimum request (acts_of self.old p.old fx.old) }
        ensures room { self.new.room ≡ self.old.room }
        ensures spares { self.new.spares ≡ self.old.spares }
        ensures promise_room { p.new.room ≡ p.old.room }
        ensures effect_room { fx.new.capacity ≡ fx.old.capacity }
    {
        if self.may_pull_into() && is_least(room.len(), element, minimum) {
            let d = Descriptor::make(room, minimum, element, RoomKind::ForByob);
            self.byob_reader_read(me, p, fx, d, request);
        } else {
            self.astray = true;
        }
    }
}

/// The least that is to be filled is whole elements, and has room.
fn is_least(room: usize, element: u8, minimum: u64) -> bool
    ensures { result ≡ rows.is_least room element minimum }
{
    element > 0 && minimum % u64::from(element) == 0 && minimum > 0 && minimum <= room as u64
}
