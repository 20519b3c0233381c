//! How a writable stream comes to be errored.
ghost use Rattle.std.specs.Prelude.{◌≡◌};
ghost use Rattle.ws_promise.specs.Seen.{HasEffectRoom, HasPromiseRoom, Seen, SeenAgenda};
ghost use Rattle.ws_steps.specs.Writable as rows;
ghost use Rattle.ws_writable.specs.Seen.{acts_of};

use crate::Writable;
use crate::requests::{ensure_rejected, reject_all, settle_pending};
use ws_promise::{Agenda, Promises};
use ws_steps::{Effect, PendingAbort, WritableState, Writer};
use ws_value::{Plain, StreamId};

impl Writable {
    fn reject_close(&mut self, p: &mut Promises)
        ensures row { (fx : SeenAgenda) → acts_of self.new p.new fx
            ≡ rows.reject_close (acts_of self.old p.old fx) self.old.slots.close_request }
        ensures room { self.new.room ≡ self.old.room }
        ensures promise_room { p.new.room ≡ p.old.room }
    {
        if let Some(promise) = self.close_request {
            p.reject(promise, self.stored_error);
            self.close_request = None;
        }
    }

    fn reject_closed(&mut self, p: &mut Promises)
        ensures row { (fx : SeenAgenda) → acts_of self.new p.new fx
            ≡ rows.reject_closed (acts_of self.old p.old fx) self.old.slots.writer }
        ensures room { self.new.room ≡ self.old.room }
        ensures promise_room { p.new.room ≡ p.old.room }
    {
        if let Some(writer) = self.writer {
            settle_pending(p, writer.closed, Err(self.stored_error));
        }
    }

    /// WritableStreamRejectCloseAndClosedPromiseIfNeeded.
    #[tactic(auto, unfolding(ws_steps::specs::Writable::reject_close_and_closed))]
    pub fn reject_close_and_closed(&mut self, p: &mut Promises)
        ensures row { (fx : SeenAgenda) → acts_of self.new p.new fx
            ≡ rows.reject_close_and_closed (acts_of self.old p.old fx) }
        ensures room { self.new.room ≡ self.old.room }
        ensures promise_room { p.new.room ≡ p.old.room }
    {
        self.reject_close(p);
        self.reject_closed(p);
    }

    fn abort_by(&mut self, me: StreamId, p: &mut Promises, fx: &mut Agenda, abort: PendingAbort)
        requires effect_room { HasEffectRoom 1 fx.old }
        ensures row { acts_of self.new p.new fx.new
            ≡ rows.abort_by me abort (acts_of self.old p.old fx.old) abort.was_already_erroring }
        ensures room { self.new.room ≡ self.old.room }
        ensures promise_room { p.new.room ≡ p.old.room }
        ensures effect_room { fx.new.capacity ≡ fx.old.capacity }
    {
        if abort.was_already_erroring {
            p.reject(abort.promise, self.stored_error);
            self.reject_close_and_closed(p);
        } else {
            fx.push(Effect::AbortAlgorithm(me, abort.reason, abort.promise));
        }
    }

    fn finish_abort(&mut self, me: StreamId, p: &mut Promises, fx: &mut Agenda)
        requires effect_room { HasEffectRoom 1 fx.old }
        ensures row { acts_of self.new p.new fx.new
            ≡ rows.finish_abort me (acts_of self.old p.old fx.old) self.old.slots.pending_abort }
        ensures room { self.new.room ≡ self.old.room }
        ensures promise_room { p.new.room ≡ p.old.room }
        ensures effect_room { fx.new.capacity ≡ fx.old.capacity }
    {
        match self.pending_abort.take() {
            None => self.reject_close_and_closed(p),
            Some(abort) => self.abort_by(me, p, fx, abort),
        }
    }

    fn fail_writes(&mut self, p: &mut Promises)
        ensures row { (fx : SeenAgenda) → acts_of self.new p.new fx ≡ rows.fail_writes (acts_of self.old p.old fx) }
        ensures room { self.new.room ≡ self.old.room }
        ensures promise_room { p.new.room ≡ p.old.room }
    {
        self.state = WritableState::Errored;
        self.queue.reset();
        reject_all(&mut self.write_requests, p, self.stored_error);
    }

    /// WritableStreamFinishErroring.
    #[tactic(auto, unfolding(ws_steps::specs::Writable::finish_erroring))]
    pub fn finish_erroring(&mut self, me: StreamId, p: &mut Promises, fx: &mut Agenda)
        requires effect_room { HasEffectRoom 1 fx.old }
        ensures row { acts_of self.new p.new fx.new ≡ rows.finish_erroring me (acts_of self.old p.old fx.old) }
        ensures room { self.new.room ≡ self.old.room }
        ensures promise_room { p.new.room ≡ p.old.room }
        ensures effect_room { fx.new.capacity ≡ fx.old.capacity }
    {
        self.fail_writes(p);
        self.finish_abort(me, p, fx);
    }

    fn reject_ready(&mut self, p: &mut Promises, r: Plain)
        requires promise_room { HasPromiseRoom 1 p.old }
        ensures row { (fx : SeenAgenda) → acts_of self.new p.new fx
            ≡ rows.reject_ready r (acts_of self.old p.old fx) self.old.slots.writer }
        ensures room { self.new.room ≡ self.old.room }
        ensures promise_room { p.new.room ≡ p.old.room }
    {
        if let Some(writer) = self.writer {
            let ready = ensure_rejected(p, writer.ready, r);
            self.writer = Some(Writer { ready, ..writer });
        }
    }

    /// WritableStreamStartErroring.
    #[tactic(auto, unfolding(ws_steps::specs::Writable::start_erroring))]
    pub fn start_erroring(&mut self, me: StreamId, p: &mut Promises, fx: &mut Agenda, r: Plain)
        requires promise_room { HasPromiseRoom 1 p.old }
        requires effect_room { HasEffectRoom 1 fx.old }
        ensures row { acts_of self.new p.new fx.new ≡ rows.start_erroring me r (acts_of self.old p.old fx.old) }
        ensures room { self.new.room ≡ self.old.room }
        ensures promise_room { p.new.room ≡ p.old.room }
        ensures effect_room { fx.new.capacity ≡ fx.old.capacity }
    {
        self.state = WritableState::Erroring;
        self.stored_error = r;
        self.reject_ready(p, r);
        if !self.is_in_flight() && self.started {
            self.finish_erroring(me, p, fx);
        }
    }

    /// WritableStreamDealWithRejection.
    #[tactic(auto, unfolding(ws_steps::specs::Writable::deal_with_rejection))]
    pub fn deal_with_rejection(&mut self, me: StreamId, p: &mut Promises, fx: &mut Agenda, e: Plain)
        requires promise_room { HasPromiseRoom 1 p.old }
        requires effect_room { HasEffectRoom 1 fx.old }
        ensures row { acts_of self.new p.new fx.new ≡ rows.deal_with_rejection me e (acts_of self.old p.old fx.old) }
        ensures room { self.new.room ≡ self.old.room }
        ensures promise_room { p.new.room ≡ p.old.room }
        ensures effect_room { fx.new.capacity ≡ fx.old.capacity }
    {
        if self.is_writable() {
            self.start_erroring(me, p, fx, e);
        } else {
            self.finish_erroring(me, p, fx);
        }
    }

    /// WritableStreamDefaultControllerErrorIfNeeded.
    #[tactic(auto, unfolding(ws_steps::specs::Writable::controller_error_if_needed))]
    pub fn controller_error_if_needed(
        &mut self,
        me: StreamId,
        p: &mut Promises,
        fx: &mut Agenda,
        e: Plain,
    )
        requires promise_room { HasPromiseRoom 1 p.old }
        requires effect_room { HasEffectRoom 1 fx.old }
        ensures row { acts_of self.new p.new fx.new
            ≡ rows.controller_error_if_needed me e (acts_of self.old p.old fx.old) }
        ensures room { self.new.room ≡ self.old.room }
        ensures promise_room { p.new.room ≡ p.old.room }
        ensures effect_room { fx.new.capacity ≡ fx.old.capacity }
    {
        if self.is_writable() {
            self.start_erroring(me, p, fx, e);
        }
    }
}
