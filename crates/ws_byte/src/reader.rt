//! The operations of the readers, and those of a default reader.
ghost use Rattle.std.specs.Prelude.{◌≡◌, ◌≤◌, ◌+◌, length, true};
ghost use Rattle.ws_promise.specs.Seen.{HasEffectRoom, Seen, SeenAgenda};
ghost use Rattle.ws_steps.specs.Bytes as rows;
ghost use Rattle.ws_steps.specs.Readable as readable;
ghost use Rattle.ws_steps.specs.Descriptors.{without_reader};
ghost use Rattle.ws_steps.specs.Places.{descriptors_alone, own_read};
ghost use Rattle.ws_byte.specs.Seen.{HasDescriptorRoom, HasRequestRoom, HasSpares, acts_of, spares_to};

use crate::ByteStream;
use ws_descriptors::Descriptor;
use ws_promise::{Agenda, Promises};
use ws_steps::{Effect, ReadRequest, ReadableState, ReaderKind, RoomKind};
use ws_value::{PromiseId, StreamId};

impl ByteStream {
    /// The stream is disturbed.
    #[tactic(auto, unfolding(ws_steps::specs::Readable::disturb))]
    pub fn disturb(&mut self)
        ensures row { (p : Seen) (fx : SeenAgenda) → acts_of self.new p fx
            ≡ rows.in_stream readable.disturb (acts_of self.old p fx) }
        ensures slots { self.new
            ≡ record self.old { slots = record self.old.slots { stream = record self.old.slots.stream { disturbed = true } } } }
    {
        self.stream.disturb();
    }

    /// ReadableStreamReaderGenericInitialize, by a reader of this kind, where the stream has none.
    #[tactic(auto, unfolding(ws_steps::specs::Bytes::reader_initialize))]
    pub fn reader_initialize(&mut self, p: &mut Promises, kind: ReaderKind, closed: PromiseId)
        ensures row { (fx : SeenAgenda) → acts_of self.new p.new fx
            ≡ rows.reader_initialize kind closed (acts_of self.old p.old fx) }
        ensures room { self.new.room ≡ self.old.room }
        ensures spares { self.new.spares ≡ self.old.spares }
        ensures promise_room { p.new.room ≡ p.old.room }
    {
        if self.stream.is_locked() {
            self.astray = true;
            return;
        }
        self.reader_kind = kind;
        self.stream.reader_generic_initialize(p, closed);
    }

    /// ReadableByteStreamController's `[[ReleaseSteps]]`: of the descriptors only the first is kept, for nobody.
    fn release_steps(&mut self)
        ensures { self.new ≡ record self.old { slots = record self.old.slots { descriptors = without_reader self.old.slots.descriptors } } }
    {
        if let Some(first) = self.take_first() {
            let mut kept = first;
            kept.release();
            self.descriptors.clear();
            self.put_first(kept);
        }
    }

    /// ReadableStreamReaderGenericRelease, with the error steps of the reader's requests.
    #[tactic(auto, unfolding(ws_steps::specs::Bytes::reader_release))]
    pub fn reader_release(&mut self, me: StreamId, p: &mut Promises, fx: &mut Agenda)
        requires { HasEffectRoom (length self.old.slots.stream.requests) fx.old }
        ensures row { acts_of self.new p.new fx.new ≡ rows.reader_release me (acts_of self.old p.old fx.old) }
        ensures room { self.new.room ≡ self.old.room }
        ensures spares { self.new.spares ≡ self.old.spares }
        ensures promise_room { p.new.room ≡ p.old.room }
        ensures effect_room { fx.new.capacity ≡ fx.old.capacity }
    {
        self.release_steps();
        self.stream.reader_release(me, p, fx);
    }

    /// Where the controller allocates rooms, a descriptor with the one that is ready.
    fn auto_allocate(&mut self)
        requires descriptors { HasDescriptorRoom 1 self.old }
        requires spare { HasSpares 1 self.old }
        ensures row { (p : Seen) (fx : SeenAgenda) → acts_of self.new p fx
            ≡ rows.auto_allocate (acts_of self.old p fx) self.old.slots.auto }
        ensures room { self.new.room ≡ self.old.room }
        ensures spares { self.old.spares ≤ 1 + self.new.spares }
        ensures stream { self.new.slots.stream ≡ self.old.slots.stream }
    {
        if self.auto == 0 {
            return;
        }
        if let Some(room) = self.spare.take() {
            self.descriptors
                .push_back_reserved(Descriptor::make(room, 1, 1, RoomKind::ForDefault));
        }
    }

    /// The byte controller's `[[PullSteps]]`.
    #[tactic(auto, unfolding(ws_steps::specs::Bytes::pull_steps))]
    fn pull_steps(&mut self, me: StreamId, p: &mut Promises, fx: &mut Agenda, request: ReadRequest)
        requires requests { HasRequestRoom 1 self.old }
        requires descriptors { HasDescriptorRoom 1 self.old }
        requires spare { HasSpares 1 self.old }
        requires effects { HasEffectRoom (2 + length self.old.slots.stream.requests) fx.old }
        ensures row { acts_of self.new p.new fx.new ≡ rows.pull_steps me request (acts_of self.old p.old fx.old) }
        ensures room { self.new.room ≡ self.old.room }
        ensures spares { self.old.spares ≤ 1 + self.new.spares }
        ensures promise_room { p.new.room ≡ p.old.room }
        ensures effect_room { fx.new.capacity ≡ fx.old.capacity }
    {
        if !self.queue.is_empty() {
            self.fill_read_request(me, p, fx, request);
            return;
        }
        self.auto_allocate();
        self.stream.wait_for_chunk(request);
        self.call_pull_if_needed(me, fx);
    }

    /// ReadableStreamDefaultReaderRead.
    #[tactic(auto, unfolding(ws_steps::specs::Bytes::default_reader_read, ws_steps::specs::Readable::disturb))]
    fn default_reader_read(
        &mut self,
        me: StreamId,
        p: &mut Promises,
        fx: &mut Agenda,
        request: ReadRequest,
    )
        requires requests { HasRequestRoom 1 self.old }
        requires descriptors { HasDescriptorRoom 1 self.old }
        requires spare { HasSpares 1 self.old }
        requires effects { HasEffectRoom (2 + length self.old.slots.stream.requests) fx.old }
        ensures row { acts_of self.new p.new fx.new
            ≡ rows.default_reader_read me request (acts_of self.old p.old fx.old) }
        ensures room { self.new.room ≡ self.old.room }
        ensures spares { self.old.spares ≤ 1 + self.new.spares }
        ensures promise_room { p.new.room ≡ p.old.room }
        ensures effect_room { fx.new.capacity ≡ fx.old.capacity }
    {
        self.stream.disturb();
        match self.stream.state() {
            ReadableState::Readable => self.pull_steps(me, p, fx, request),
            ReadableState::Closed => fx.push(Effect::CloseSteps(me, request)),
            ReadableState::Errored => {
                fx.push(Effect::ErrorSteps(me, request, *self.stream.stored_error()))
            }
        }
    }

    /// ReadableStreamDefaultReaderRead; of a readable stream, by a default reader.
    fn read_if_meant(
        &mut self,
        me: StreamId,
        p: &mut Promises,
        fx: &mut Agenda,
        request: ReadRequest,
    )
        requires requests { HasRequestRoom 1 self.old }
        requires descriptors { HasDescriptorRoom 1 self.old }
        requires spare { HasSpares 1 self.old }
        requires effects { HasEffectRoom (2 + length self.old.slots.stream.requests) fx.old }
        ensures row { acts_of self.new p.new fx.new
            ≡ rows.if_meant (rows.may_read self.old.slots)
            (rows.default_reader_read me request (acts_of self.old p.old fx.old)) (acts_of self.old p.old fx.old) }
        ensures room { self.new.room ≡ self.old.room }
        ensures spares { self.old.spares ≤ 1 + self.new.spares }
        ensures promise_room { p.new.room ≡ p.old.room }
        ensures effect_room { fx.new.capacity ≡ fx.old.capacity }
    {
        if !self.stream.is_readable() || self.has_default_reader() {
            self.default_reader_read(me, p, fx, request);
        } else {
            self.astray = true;
        }
    }

    /// ReadableStreamDefaultReaderRead, which no tee performs.
    #[tactic(auto, unfolding(ws_steps::specs::Bytes::read))]
    pub fn read(&mut self, me: StreamId, p: &mut Promises, fx: &mut Agenda, request: ReadRequest)
        requires requests { HasRequestRoom 1 self.old }
        requires descriptors { HasDescriptorRoom (own_read descriptors_alone me request) self.old }
        requires spare { HasSpares (spares_to request) self.old }
        requires effects { HasEffectRoom (2 + length self.old.slots.stream.requests) fx.old }
        ensures row { acts_of self.new p.new fx.new ≡ rows.read me request (acts_of self.old p.old fx.old) }
        ensures room { self.new.room ≡ self.old.room }
        ensures spares { self.old.spares ≤ spares_to request + self.new.spares }
        ensures promise_room { p.new.room ≡ p.old.room }
        ensures effect_room { fx.new.capacity ≡ fx.old.capacity }
    {
        match request {
            ReadRequest::Promise(_) => self.read_if_meant(me, p, fx, request),
            ReadRequest::Pipe(_) => self.read_if_meant(me, p, fx, request),
            ReadRequest::Tee(_) => {}
        }
    }
}
