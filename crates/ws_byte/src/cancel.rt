//! The cancelling of a stream.
ghost use Rattle.std.specs.Prelude.{◌≡◌, ◌≤◌, ◌+◌, ◌++◌, ◌∷◌, [], None, length};
ghost use Rattle.ws_promise.specs.Seen.{HasEffectRoom};
ghost use Rattle.ws_steps.specs.Bytes as rows;
ghost use Rattle.ws_steps.specs.declared.effects.Effect.TheVariants.{CancelAlgorithm};
ghost use Rattle.ws_byte.specs.Seen.{acts_of};

use crate::ByteStream;
use ws_promise::{Agenda, Promises};
use ws_steps::{Effect, ReadableState};
use ws_value::{Plain, PromiseId, StreamId};

impl ByteStream {
    /// The stream is closed, and the requests of a BYOB reader have their close steps performed with undefined.
    #[tactic(auto, unfolding(ws_steps::specs::Bytes::stream_close))]
    fn close_all(&mut self, me: StreamId, p: &mut Promises, fx: &mut Agenda)
        requires { HasEffectRoom (length self.old.slots.stream.requests) fx.old }
        ensures row { acts_of self.new p.new fx.new
            ≡ rows.close_into me (rows.stream_close me (acts_of self.old p.old fx.old)) }
        ensures room { self.new.room ≡ self.old.room }
        ensures spares { self.new.spares ≡ self.old.spares }
        ensures promise_room { p.new.room ≡ p.old.room }
        ensures effect_room { fx.new.capacity ≡ fx.old.capacity }
        ensures caused { length fx.new.effects ≤ length self.old.slots.stream.requests + length fx.old.effects }
    {
        if self.has_byob_reader() {
            self.stream.close_keeping_requests(p);
            self.stream.close_all_requests(me, fx);
        } else {
            self.stream.stream_close(me, p, fx);
        }
    }

    /// The byte controller's `[[CancelSteps]]`. The promise is the result of reacting to the cancel algorithm.
    fn cancel_steps(&mut self, me: StreamId, fx: &mut Agenda, reason: Plain, promise: PromiseId)
        requires { HasEffectRoom 1 fx.old }
        ensures slots { self.new
            ≡ record self.old { slots = record self.old.slots { request = None; descriptors = []; queue = [] } } }
        ensures effects { fx.new ≡ record fx.old { effects = fx.old.effects ++ CancelAlgorithm me reason promise ∷ [] } }
    {
        self.clear_all();
        fx.push(Effect::CancelAlgorithm(me, reason, promise));
    }

    /// Settles the promise of a cancel, or performs the cancel steps.
    fn cancel_by(
        &mut self,
        me: StreamId,
        p: &mut Promises,
        fx: &mut Agenda,
        reason: Plain,
        promise: PromiseId,
    )
        requires { HasEffectRoom (1 + length self.old.slots.stream.requests) fx.old }
        ensures row { acts_of self.new p.new fx.new
            ≡ rows.cancel_by me reason promise (acts_of self.old p.old fx.old) self.old.slots.stream.state }
        ensures room { self.new.room ≡ self.old.room }
        ensures spares { self.new.spares ≡ self.old.spares }
        ensures promise_room { p.new.room ≡ p.old.room }
        ensures effect_room { fx.new.capacity ≡ fx.old.capacity }
    {
        match self.stream.state() {
            ReadableState::Readable => {
                self.close_all(me, p, fx);
                self.cancel_steps(me, fx, reason, promise);
            }
            ReadableState::Closed => p.fulfil(promise, Plain::Undefined),
            ReadableState::Errored => p.reject(promise, *self.stream.stored_error()),
        }
    }

    /// ReadableStreamCancel, with the promise that it answers.
    #[tactic(auto, unfolding(ws_steps::specs::Bytes::stream_cancel, ws_steps::specs::Readable::disturb))]
    pub fn stream_cancel(
        &mut self,
        me: StreamId,
        p: &mut Promises,
        fx: &mut Agenda,
        reason: Plain,
        promise: PromiseId,
    )
        requires { HasEffectRoom (1 + length self.old.slots.stream.requests) fx.old }
        ensures row { acts_of self.new p.new fx.new
            ≡ rows.stream_cancel me reason promise (acts_of self.old p.old fx.old) }
        ensures room { self.new.room ≡ self.old.room }
        ensures spares { self.new.spares ≡ self.old.spares }
        ensures promise_room { p.new.room ≡ p.old.room }
        ensures effect_room { fx.new.capacity ≡ fx.old.capacity }
    {
        self.disturb();
        self.cancel_by(me, p, fx, reason, promise);
    }

    /// ReadableStreamCancel where the stream is readable; else the promise is resolved with undefined.
    #[tactic(auto, unfolding(ws_steps::specs::Bytes::cancel_if_readable))]
    pub fn cancel_if_readable(
        &mut self,
        me: StreamId,
        p: &mut Promises,
        fx: &mut Agenda,
        reason: Plain,
        promise: PromiseId,
    )
        requires { HasEffectRoom (1 + length self.old.slots.stream.requests) fx.old }
        ensures row { acts_of self.new p.new fx.new
            ≡ rows.cancel_if_readable me reason promise (acts_of self.old p.old fx.old) }
        ensures room { self.new.room ≡ self.old.room }
        ensures spares { self.new.spares ≡ self.old.spares }
        ensures promise_room { p.new.room ≡ p.old.room }
        ensures effect_room { fx.new.capacity ≡ fx.old.capacity }
    {
        if self.stream.is_readable() {
            self.stream_cancel(me, p, fx, reason, promise);
        } else {
            p.fulfil(promise, Plain::Undefined);
        }
    }
}
