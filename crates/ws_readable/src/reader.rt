//! The operations of the default reader.
ghost use Rattle.std.specs.Prelude.{◌≡◌, ◌+◌, length};
ghost use Rattle.ws_promise.specs.Seen.{HasEffectRoom, SeenAgenda, out_of};
ghost use Rattle.ws_steps.specs.Readable as rows;
ghost use Rattle.ws_readable.specs.Seen.{HasRequestRoom, acts_of};

use crate::Readable;
use crate::requests::error_requests;
use ws_promise::{Agenda, Promises};
use ws_steps::{Effect, ReadRequest, ReadableState};
use ws_value::{Fault, Plain, PromiseId, StreamId};

const TYPE_ERROR: Plain = Plain::Fault(Fault::TypeError);

impl Readable {
    /// Settles the closed promise of a reader that takes the stream.
    fn settle_closed(&self, p: &mut Promises, closed: PromiseId)
        ensures row { (fx : SeenAgenda) → out_of p.new fx
            ≡ rows.settle_closed closed self.now.slots.stored_error (out_of p.old fx) self.now.slots.state }
        ensures promise_room { p.new.room ≡ p.old.room }
    {
        match self.state {
            ReadableState::Readable => {}
            ReadableState::Closed => p.fulfil(closed, Plain::Undefined),
            ReadableState::Errored => p.reject(closed, self.stored_error),
        }
    }

    /// ReadableStreamReaderGenericInitialize: a default reader takes the stream, with this closed promise.
    #[tactic(auto, unfolding(ws_steps::specs::Readable::reader_generic_initialize))]
    pub fn reader_generic_initialize(&mut self, p: &mut Promises, closed: PromiseId)
        ensures row { (fx : SeenAgenda) → acts_of self.new p.new fx
            ≡ rows.reader_generic_initialize closed (acts_of self.old p.old fx) }
        ensures room { self.new.room ≡ self.old.room }
        ensures promise_room { p.new.room ≡ p.old.room }
    {
        self.settle_closed(p, closed);
        self.reader = Some(closed);
        self.requests.clear();
    }

    /// ReadableStreamDefaultReaderRead.
    #[tactic(auto, unfolding(ws_steps::specs::Readable::default_reader_read))]
    pub fn default_reader_read(
        &mut self,
        me: StreamId,
        p: &mut Promises,
        fx: &mut Agenda,
        request: ReadRequest,
    )
        requires requests { HasRequestRoom 1 self.old }
        requires effects { HasEffectRoom (2 + length self.old.slots.requests) fx.old }
        ensures row { acts_of self.new p.new fx.new
            ≡ rows.default_reader_read me request (acts_of self.old p.old fx.old) }
        ensures room { self.new.room ≡ self.old.room }
        ensures promise_room { p.new.room ≡ p.old.room }
        ensures effect_room { fx.new.capacity ≡ fx.old.capacity }
    {
        self.disturbed = true;
        match self.state {
            ReadableState::Readable => self.pull_steps(me, p, fx, request),
            ReadableState::Closed => fx.push(Effect::CloseSteps(me, request)),
            ReadableState::Errored => fx.push(Effect::ErrorSteps(me, request, self.stored_error)),
        }
    }

    /// Rejects the closed promise of a reader that is released, where the stream is readable.
    fn release_closed(&self, p: &mut Promises, closed: PromiseId)
        ensures row { (fx : SeenAgenda) → out_of p.new fx
            ≡ rows.release_closed closed (out_of p.old fx) self.now.slots.state }
        ensures promise_room { p.new.room ≡ p.old.room }
    {
        match self.state {
            ReadableState::Readable => p.reject(closed, TYPE_ERROR),
            ReadableState::Closed => {}
            ReadableState::Errored => {}
        }
    }

    /// ReadableStreamReaderGenericRelease, where a reader has the stream.
    #[tactic(auto, unfolding(ws_steps::specs::Readable::reader_release))]
    pub fn reader_release(&mut self, me: StreamId, p: &mut Promises, fx: &mut Agenda)
        requires { HasEffectRoom (length self.old.slots.requests) fx.old }
        ensures row { acts_of self.new p.new fx.new ≡ rows.reader_release me (acts_of self.old p.old fx.old) }
        ensures room { self.new.room ≡ self.old.room }
        ensures promise_room { p.new.room ≡ p.old.room }
        ensures effect_room { fx.new.capacity ≡ fx.old.capacity }
    {
        if let Some(closed) = self.reader {
            self.release_closed(p, closed);
            self.reader = None;
            error_requests(&mut self.requests, me, fx, TYPE_ERROR);
        }
    }
}
