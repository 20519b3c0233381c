//! The reactions to a sink's algorithms.
ghost use Rattle.std.specs.Prelude.{◌≡◌, length};
ghost use Rattle.ws_promise.specs.Seen.{HasEffectRoom, HasPromiseRoom, Seen, SeenAgenda};
ghost use Rattle.ws_steps.specs.Writable as rows;
ghost use Rattle.ws_writable.specs.Seen.{acts_of};

use crate::Writable;
use crate::requests::settle_request;
use ws_promise::{Agenda, Promises};
use ws_steps::{Effect, WritableState};
use ws_value::{Plain, PromiseId, StreamId};

impl Writable {
    /// The controller's reaction to its start algorithm.
    #[tactic(auto, unfolding(ws_steps::specs::Writable::start_settled))]
    pub fn start_settled(
        &mut self,
        me: StreamId,
        p: &mut Promises,
        fx: &mut Agenda,
        outcome: Result<Plain, Plain>,
    )
        requires promise_room { HasPromiseRoom 1 p.old }
        requires effect_room { HasEffectRoom 1 fx.old }
        ensures row { acts_of self.new p.new fx.new ≡ rows.start_settled me outcome (acts_of self.old p.old fx.old) }
        ensures room { self.new.room ≡ self.old.room }
        ensures promise_room { p.new.room ≡ p.old.room }
        ensures effect_room { fx.new.capacity ≡ fx.old.capacity }
    {
        self.started = true;
        match outcome {
            Ok(_) => self.advance_queue(me, p, fx),
            Err(r) => self.deal_with_rejection(me, p, fx, r),
        }
    }

    pub(crate) fn write_ended(&mut self, p: &mut Promises, outcome: Result<Plain, Plain>)
        ensures row { (fx : SeenAgenda) → acts_of self.new p.new fx
            ≡ rows.write_ended outcome (acts_of self.old p.old fx) }
        ensures room { self.new.room ≡ self.old.room }
        ensures promise_room { p.new.room ≡ p.old.room }
        ensures made { length p.new.table.entries ≡ length p.old.table.entries }
    {
        settle_request(p, outcome, self.write_in_flight);
        self.write_in_flight = None;
    }

    pub(crate) fn drop_first(&mut self)
        ensures row { (p : Seen) (fx : SeenAgenda) → acts_of self.new p fx
            ≡ rows.without_first (acts_of self.old p fx) }
        ensures room { self.new.room ≡ self.old.room }
    {
        self.queue.pop();
    }

    /// The controller's reaction to its write algorithm: WritableStreamFinishInFlightWrite,
    /// WritableStreamFinishInFlightWriteWithError.
    #[tactic(auto, unfolding(ws_steps::specs::Writable::write_settled))]
    pub fn write_settled(
        &mut self,
        me: StreamId,
        p: &mut Promises,
        fx: &mut Agenda,
        outcome: Result<Plain, Plain>,
    )
        requires promise_room { HasPromiseRoom 1 p.old }
        requires effect_room { HasEffectRoom 1 fx.old }
        ensures row { acts_of self.new p.new fx.new ≡ rows.write_settled me outcome (acts_of self.old p.old fx.old) }
        ensures room { self.new.room ≡ self.old.room }
        ensures promise_room { p.new.room ≡ p.old.room }
        ensures effect_room { fx.new.capacity ≡ fx.old.capacity }
    {
        match outcome {
            Ok(_) => {
                if self.write_done(me, p, fx) {
                    fx.push(Effect::WriteAlgorithm(me));
                }
            }
            Err(e) => {
                self.write_ended(p, Err(e));
                self.deal_with_rejection(me, p, fx, e);
            }
        }
    }

    fn close_ended(&mut self, p: &mut Promises, outcome: Result<Plain, Plain>)
        ensures row { (fx : SeenAgenda) → acts_of self.new p.new fx
            ≡ rows.close_ended outcome (acts_of self.old p.old fx) }
        ensures room { self.new.room ≡ self.old.room }
        ensures promise_room { p.new.room ≡ p.old.room }
        ensures made { length p.new.table.entries ≡ length p.old.table.entries }
    {
        settle_request(p, outcome, self.close_in_flight);
        self.close_in_flight = None;
    }

    fn abort_ended(&mut self, p: &mut Promises, outcome: Result<Plain, Plain>)
        ensures row { (fx : SeenAgenda) → acts_of self.new p.new fx
            ≡ rows.abort_ended outcome (acts_of self.old p.old fx) }
        ensures room { self.new.room ≡ self.old.room }
        ensures promise_room { p.new.room ≡ p.old.room }
        ensures made { length p.new.table.entries ≡ length p.old.table.entries }
    {
        if let Some(abort) = self.pending_abort {
            settle_request(p, outcome, Some(abort.promise));
        }
        self.pending_abort = None;
    }

    fn clear_error(&mut self, p: &mut Promises)
        ensures row { (fx : SeenAgenda) → acts_of self.new p.new fx ≡ rows.clear_error (acts_of self.old p.old fx) }
        ensures room { self.new.room ≡ self.old.room }
        ensures promise_room { p.new.room ≡ p.old.room }
    {
        if self.is_erroring() {
            self.stored_error = Plain::Undefined;
            self.abort_ended(p, Ok(Plain::Undefined));
        }
    }

    fn fulfil_closed(&mut self, p: &mut Promises)
        ensures row { (fx : SeenAgenda) → acts_of self.new p.new fx
            ≡ rows.fulfil_closed (acts_of self.old p.old fx) self.old.slots.writer }
        ensures room { self.new.room ≡ self.old.room }
        ensures promise_room { p.new.room ≡ p.old.room }
    {
        if let Some(writer) = self.writer {
            p.fulfil(writer.closed, Plain::Undefined);
        }
    }

    /// WritableStreamFinishInFlightClose.
    #[tactic(auto, unfolding(ws_steps::specs::Writable::finish_in_flight_close))]
    pub fn finish_in_flight_close(&mut self, p: &mut Promises)
        ensures row { (fx : SeenAgenda) → acts_of self.new p.new fx
            ≡ rows.finish_in_flight_close (acts_of self.old p.old fx) }
        ensures room { self.new.room ≡ self.old.room }
        ensures promise_room { p.new.room ≡ p.old.room }
    {
        self.close_ended(p, Ok(Plain::Undefined));
        self.clear_error(p);
        self.state = WritableState::Closed;
        self.fulfil_closed(p);
    }

    /// WritableStreamFinishInFlightCloseWithError.
    #[tactic(auto, unfolding(ws_steps::specs::Writable::finish_in_flight_close_with_error))]
    pub fn finish_in_flight_close_with_error(
        &mut self,
        me: StreamId,
        p: &mut Promises,
        fx: &mut Agenda,
        e: Plain,
    )
        requires promise_room { HasPromiseRoom 1 p.old }
        requires effect_room { HasEffectRoom 1 fx.old }
        ensures row { acts_of self.new p.new fx.new
            ≡ rows.finish_in_flight_close_with_error me e (acts_of self.old p.old fx.old) }
        ensures room { self.new.room ≡ self.old.room }
        ensures promise_room { p.new.room ≡ p.old.room }
        ensures effect_room { fx.new.capacity ≡ fx.old.capacity }
    {
        self.close_ended(p, Err(e));
        self.abort_ended(p, Err(e));
        self.deal_with_rejection(me, p, fx, e);
    }

    /// The controller's reaction to its close algorithm.
    #[tactic(auto, unfolding(ws_steps::specs::Writable::close_settled))]
    pub fn close_settled(
        &mut self,
        me: StreamId,
        p: &mut Promises,
        fx: &mut Agenda,
        outcome: Result<Plain, Plain>,
    )
        requires promise_room { HasPromiseRoom 1 p.old }
        requires effect_room { HasEffectRoom 1 fx.old }
        ensures row { acts_of self.new p.new fx.new ≡ rows.close_settled me outcome (acts_of self.old p.old fx.old) }
        ensures room { self.new.room ≡ self.old.room }
        ensures promise_room { p.new.room ≡ p.old.room }
        ensures effect_room { fx.new.capacity ≡ fx.old.capacity }
    {
        match outcome {
            Ok(_) => self.finish_in_flight_close(p),
            Err(e) => self.finish_in_flight_close_with_error(me, p, fx, e),
        }
    }

    /// The stream's reaction to its abort algorithm, with the promise of the abort.
    #[tactic(auto, unfolding(ws_steps::specs::Writable::abort_settled))]
    pub fn abort_settled(
        &mut self,
        p: &mut Promises,
        promise: PromiseId,
        outcome: Result<Plain, Plain>,
    )
        ensures row { (fx : SeenAgenda) → acts_of self.new p.new fx
            ≡ rows.abort_settled promise outcome (acts_of self.old p.old fx) }
        ensures room { self.new.room ≡ self.old.room }
        ensures promise_room { p.new.room ≡ p.old.room }
    {
        match outcome {
            Ok(_) => {
                p.fulfil(promise, Plain::Undefined);
                self.reject_close_and_closed(p);
            }
            Err(e) => {
                p.reject(promise, e);
                self.reject_close_and_closed(p);
            }
        }
    }
}
