//! The operations of the byte controller that either kind of reader has.
ghost use Rattle.std.specs.Prelude.{◌≡◌, ◌≤◌, ◌+◌, [], None, length};
ghost use Rattle.ws_promise.specs.Seen.{HasEffectRoom, Seen};
ghost use Rattle.ws_steps.specs.Bytes as rows;
ghost use Rattle.ws_steps.specs.Descriptors.{has_part};
ghost use Rattle.ws_byte.specs.Seen.{acts_of};

use crate::ByteStream;
use ws_promise::{Agenda, Promises};
use ws_steps::ReaderKind;
use ws_value::{Fault, Plain, StreamId};

pub const TYPE_ERROR: Plain = Plain::Fault(Fault::TypeError);

impl ByteStream {
    /// ReadableStreamHasBYOBReader.
    pub fn has_byob_reader(&self) -> bool
        ensures { result ≡ rows.has_byob_reader self.now.slots }
    {
        self.stream.is_locked() && self.reader_kind == ReaderKind::Byob
    }

    /// ReadableStreamHasDefaultReader.
    pub fn has_default_reader(&self) -> bool
        ensures { result ≡ rows.has_default_reader self.now.slots }
    {
        self.stream.is_locked() && self.reader_kind == ReaderKind::Default
    }

    /// A close wasn't requested and the stream is readable.
    pub fn can_take(&self) -> bool
        ensures { result ≡ rows.can_take self.now.slots }
    {
        self.stream.can_close_or_enqueue()
    }

    /// ReadableByteStreamControllerShouldCallPull.
    pub fn should_call_pull(&self) -> bool
        ensures { result ≡ rows.should_call_pull self.now.slots }
    {
        self.stream.should_pull_with(self.queue.total())
    }

    /// ReadableByteStreamControllerCallPullIfNeeded.
    #[tactic(auto, unfolding(ws_steps::specs::Bytes::call_pull_if_needed))]
    pub fn call_pull_if_needed(&mut self, me: StreamId, fx: &mut Agenda)
        requires { HasEffectRoom 1 fx.old }
        ensures row { (p : Seen) → acts_of self.new p fx.new ≡ rows.call_pull_if_needed me (acts_of self.old p fx.old) }
        ensures room { self.new.room ≡ self.old.room }
        ensures spares { self.new.spares ≡ self.old.spares }
        ensures effect_room { fx.new.capacity ≡ fx.old.capacity }
        ensures caused { length fx.new.effects ≤ 1 + length fx.old.effects }
        ensures requests { self.new.slots.stream.requests ≡ self.old.slots.stream.requests }
        ensures close_requested { self.new.slots.stream.close_requested ≡ self.old.slots.stream.close_requested }
        ensures queue { self.new.slots.queue ≡ self.old.slots.queue }
        ensures descriptors { self.new.slots.descriptors ≡ self.old.slots.descriptors }
    {
        if self.should_call_pull() {
            self.stream.call_pull(me, fx);
        }
    }

    /// ReadableStreamClose: of the requests of a BYOB reader none is answered.
    #[tactic(auto, unfolding(ws_steps::specs::Bytes::stream_close))]
    pub fn stream_close(&mut self, me: StreamId, p: &mut Promises, fx: &mut Agenda)
        requires { HasEffectRoom (length self.old.slots.stream.requests) fx.old }
        ensures row { acts_of self.new p.new fx.new ≡ rows.stream_close me (acts_of self.old p.old fx.old) }
        ensures room { self.new.room ≡ self.old.room }
        ensures spares { self.new.spares ≡ self.old.spares }
        ensures promise_room { p.new.room ≡ p.old.room }
        ensures effect_room { fx.new.capacity ≡ fx.old.capacity }
        ensures caused { length fx.new.effects ≤ length self.old.slots.stream.requests + length fx.old.effects }
    {
        if self.has_byob_reader() {
            self.stream.close_keeping_requests(p);
        } else {
            self.stream.stream_close(me, p, fx);
        }
    }

    /// ReadableByteStreamControllerInvalidateBYOBRequest.
    pub(crate) fn invalidate_request(&mut self)
        ensures { self.new ≡ record self.old { slots = record self.old.slots { request = None } } }
    {
        self.request = None;
    }

    /// ReadableByteStreamControllerClearPendingPullIntos, and ResetQueue.
    pub(crate) fn clear_all(&mut self)
        ensures { self.new
            ≡ record self.old { slots = record self.old.slots { request = None; descriptors = []; queue = [] } } }
    {
        self.request = None;
        self.descriptors.clear();
        self.queue.reset();
    }

    /// ReadableByteStreamControllerError.
    #[tactic(auto, unfolding(ws_steps::specs::Bytes::controller_error))]
    pub fn controller_error(&mut self, me: StreamId, p: &mut Promises, fx: &mut Agenda, e: Plain)
        requires { HasEffectRoom (length self.old.slots.stream.requests) fx.old }
        ensures row { acts_of self.new p.new fx.new ≡ rows.controller_error me e (acts_of self.old p.old fx.old) }
        ensures room { self.new.room ≡ self.old.room }
        ensures spares { self.new.spares ≡ self.old.spares }
        ensures promise_room { p.new.room ≡ p.old.room }
        ensures effect_room { fx.new.capacity ≡ fx.old.capacity }
        ensures caused { length fx.new.effects ≤ length self.old.slots.stream.requests + length fx.old.effects }
    {
        if self.stream.is_readable() {
            self.clear_all();
            self.stream.stream_error(me, p, fx, e);
        }
    }

    /// ReadableByteStreamControllerHandleQueueDrain.
    #[tactic(auto, unfolding(ws_steps::specs::Bytes::handle_queue_drain))]
    pub fn handle_queue_drain(&mut self, me: StreamId, p: &mut Promises, fx: &mut Agenda)
        requires { HasEffectRoom (1 + length self.old.slots.stream.requests) fx.old }
        ensures row { acts_of self.new p.new fx.new ≡ rows.handle_queue_drain me (acts_of self.old p.old fx.old) }
        ensures room { self.new.room ≡ self.old.room }
        ensures spares { self.new.spares ≡ self.old.spares }
        ensures promise_room { p.new.room ≡ p.old.room }
        ensures effect_room { fx.new.capacity ≡ fx.old.capacity }
        ensures caused { length fx.new.effects ≤ 1 + length self.old.slots.stream.requests + length fx.old.effects }
    {
        if self.queue.is_empty() && self.stream.is_close_requested() {
            self.stream_close(me, p, fx);
        } else {
            self.call_pull_if_needed(me, fx);
        }
    }

    /// The first descriptor has a part of an element.
    fn has_part(&self) -> bool
        ensures { result ≡ has_part self.now.slots.descriptors }
    {
        match self.descriptors.front() {
            Some(first) => first.has_part(),
            None => false,
        }
    }

    /// ReadableByteStreamControllerClose throws a TypeError.
    pub fn close_throws(&self) -> bool
        ensures { result ≡ rows.close_throws self.now.slots }
    {
        self.can_take() && self.queue.is_empty() && self.has_part()
    }

    /// ReadableByteStreamControllerClose, of a stream that isn't closed.
    fn close_by(&mut self, me: StreamId, p: &mut Promises, fx: &mut Agenda)
        requires { HasEffectRoom (length self.old.slots.stream.requests) fx.old }
        ensures row { acts_of self.new p.new fx.new
            ≡ rows.close_by me (acts_of self.old p.old fx.old) self.old.slots.queue }
        ensures room { self.new.room ≡ self.old.room }
        ensures spares { self.new.spares ≡ self.old.spares }
        ensures promise_room { p.new.room ≡ p.old.room }
        ensures effect_room { fx.new.capacity ≡ fx.old.capacity }
    {
        if !self.queue.is_empty() {
            self.stream.request_close();
        } else if self.has_part() {
            self.controller_error(me, p, fx, TYPE_ERROR);
        } else {
            self.stream_close(me, p, fx);
        }
    }

    /// ReadableByteStreamControllerClose.
    #[tactic(auto, unfolding(ws_steps::specs::Bytes::controller_close))]
    pub fn controller_close(&mut self, me: StreamId, p: &mut Promises, fx: &mut Agenda)
        requires { HasEffectRoom (length self.old.slots.stream.requests) fx.old }
        ensures row { acts_of self.new p.new fx.new ≡ rows.controller_close me (acts_of self.old p.old fx.old) }
        ensures room { self.new.room ≡ self.old.room }
        ensures spares { self.new.spares ≡ self.old.spares }
        ensures promise_room { p.new.room ≡ p.old.room }
        ensures effect_room { fx.new.capacity ≡ fx.old.capacity }
    {
        if self.can_take() {
            self.close_by(me, p, fx);
        }
    }

    /// The controller's reaction to its start algorithm.
    #[tactic(auto, unfolding(ws_steps::specs::Bytes::start_settled))]
    pub fn start_settled(
        &mut self,
        me: StreamId,
        p: &mut Promises,
        fx: &mut Agenda,
        outcome: Result<Plain, Plain>,
    )
        requires { HasEffectRoom (1 + length self.old.slots.stream.requests) fx.old }
        ensures row { acts_of self.new p.new fx.new ≡ rows.start_settled me outcome (acts_of self.old p.old fx.old) }
        ensures room { self.new.room ≡ self.old.room }
        ensures spares { self.new.spares ≡ self.old.spares }
        ensures promise_room { p.new.room ≡ p.old.room }
        ensures effect_room { fx.new.capacity ≡ fx.old.capacity }
    {
        match outcome {
            Ok(_) => {
                self.stream.mark_started();
                self.call_pull_if_needed(me, fx);
            }
            Err(r) => self.controller_error(me, p, fx, r),
        }
    }

    /// The controller's reaction to its pull algorithm.
    #[tactic(auto, unfolding(ws_steps::specs::Bytes::pull_settled))]
    pub fn pull_settled(
        &mut self,
        me: StreamId,
        p: &mut Promises,
        fx: &mut Agenda,
        outcome: Result<Plain, Plain>,
    )
        requires { HasEffectRoom (1 + length self.old.slots.stream.requests) fx.old }
        ensures row { acts_of self.new p.new fx.new ≡ rows.pull_settled me outcome (acts_of self.old p.old fx.old) }
        ensures room { self.new.room ≡ self.old.room }
        ensures spares { self.new.spares ≡ self.old.spares }
        ensures promise_room { p.new.room ≡ p.old.room }
        ensures effect_room { fx.new.capacity ≡ fx.old.capacity }
    {
        match outcome {
            Ok(_) => {
                if self.stream.end_pull() {
                    self.call_pull_if_needed(me, fx);
                }
            }
            Err(e) => self.controller_error(me, p, fx, e),
        }
    }
}
