//! The operations of the default controller.
ghost use Rattle.std.specs.Prelude.{◌≡◌, ◌≤◌, ◌+◌, length, Result};
ghost use Rattle.ws_promise.specs.Seen.{HasEffectRoom, Seen};
ghost use Rattle.ws_steps.specs.Readable as rows;
ghost use Rattle.ws_readable.specs.Seen.{HasQueueRoom, HasRequestRoom, acts_of, after_request_added};

use crate::Readable;
use ws_promise::{Agenda, Promises};
use ws_steps::{Effect, ReadRequest, ReadableState};
use ws_value::{Plain, PromiseId, StreamId, Value};

impl Readable {
    /// ReadableStreamDefaultControllerCanCloseOrEnqueue.
    pub fn can_close_or_enqueue(&self) -> bool
        ensures { result ≡ rows.can_close_or_enqueue self.now.slots }
    {
        !self.close_requested && self.state == ReadableState::Readable
    }

    /// ReadableStreamDefaultControllerShouldCallPull.
    pub fn should_call_pull(&self) -> bool
        ensures { result ≡ rows.should_call_pull self.now.slots }
    {
        self.can_close_or_enqueue() && self.wants_pull()
    }

    /// Performs the pull algorithm, or, where it is pulling already, pulls again afterwards.
    pub fn call_pull(&mut self, me: StreamId, fx: &mut Agenda)
        requires { HasEffectRoom 1 fx.old }
        ensures row { (p : Seen) → acts_of self.new p fx.new ≡ rows.call_pull me (acts_of self.old p fx.old) }
        ensures room { self.new.room ≡ self.old.room }
        ensures effect_room { fx.new.capacity ≡ fx.old.capacity }
        ensures caused { length fx.new.effects ≤ 1 + length fx.old.effects }
        ensures requests { self.new.slots.requests ≡ self.old.slots.requests }
        ensures close_requested { self.new.slots.close_requested ≡ self.old.slots.close_requested }
    {
        if self.pulling {
            self.pull_again = true;
            return;
        }
        self.pulling = true;
        fx.push(Effect::PullAlgorithm(me));
    }

    /// ReadableStreamDefaultControllerCallPullIfNeeded.
    #[tactic(auto, unfolding(ws_steps::specs::Readable::call_pull_if_needed))]
    pub fn call_pull_if_needed(&mut self, me: StreamId, fx: &mut Agenda)
        requires { HasEffectRoom 1 fx.old }
        ensures row { (p : Seen) → acts_of self.new p fx.new ≡ rows.call_pull_if_needed me (acts_of self.old p fx.old) }
        ensures room { self.new.room ≡ self.old.room }
        ensures effect_room { fx.new.capacity ≡ fx.old.capacity }
        ensures caused { length fx.new.effects ≤ 1 + length fx.old.effects }
    {
        if self.pulls() {
            fx.push(Effect::PullAlgorithm(me));
        }
    }

    /// ReadableStreamDefaultControllerEnqueue.
    #[tactic(auto, unfolding(ws_steps::specs::Readable::controller_enqueue))]
    pub fn controller_enqueue(&mut self, me: StreamId, fx: &mut Agenda, chunk: Value)
        requires queue { HasQueueRoom 1 self.old }
        requires effects { HasEffectRoom 2 fx.old }
        ensures row { (p : Seen) → acts_of self.new p fx.new
            ≡ rows.controller_enqueue me chunk (acts_of self.old p fx.old) }
        ensures room { self.new.room ≡ self.old.room }
        ensures effect_room { fx.new.capacity ≡ fx.old.capacity }
    {
        if !self.can_close_or_enqueue() {
            return;
        }
        if self.has_waiting_request() {
            let request = self.hand_directly();
            fx.push(Effect::ChunkSteps(me, request, chunk));
        } else {
            self.keep_directly(chunk);
        }
        if self.pulls_directly() {
            fx.push(Effect::PullAlgorithm(me));
        }
    }

    #[tactic(auto, unfolding(ws_steps::specs::Readable::close_if_empty))]
    fn close_if_empty(&mut self, me: StreamId, p: &mut Promises, fx: &mut Agenda)
        requires { HasEffectRoom (length self.old.slots.requests) fx.old }
        ensures row { acts_of self.new p.new fx.new ≡ rows.close_if_empty me (acts_of self.old p.old fx.old) }
        ensures room { self.new.room ≡ self.old.room }
        ensures promise_room { p.new.room ≡ p.old.room }
        ensures effect_room { fx.new.capacity ≡ fx.old.capacity }
    {
        if self.queue.is_empty() {
            self.stream_close(me, p, fx);
        }
    }

    /// ReadableStreamDefaultControllerClose.
    #[tactic(auto, unfolding(ws_steps::specs::Readable::controller_close))]
    pub fn controller_close(&mut self, me: StreamId, p: &mut Promises, fx: &mut Agenda)
        requires { HasEffectRoom (length self.old.slots.requests) fx.old }
        ensures row { acts_of self.new p.new fx.new ≡ rows.controller_close me (acts_of self.old p.old fx.old) }
        ensures room { self.new.room ≡ self.old.room }
        ensures promise_room { p.new.room ≡ p.old.room }
        ensures effect_room { fx.new.capacity ≡ fx.old.capacity }
    {
        if !self.can_close_or_enqueue() {
            return;
        }
        self.close_requested = true;
        self.close_if_empty(me, p, fx);
    }

    /// ReadableStreamDefaultControllerError.
    #[tactic(auto, unfolding(ws_steps::specs::Readable::controller_error))]
    pub fn controller_error(&mut self, me: StreamId, p: &mut Promises, fx: &mut Agenda, e: Plain)
        requires { HasEffectRoom (length self.old.slots.requests) fx.old }
        ensures row { acts_of self.new p.new fx.new ≡ rows.controller_error me e (acts_of self.old p.old fx.old) }
        ensures room { self.new.room ≡ self.old.room }
        ensures promise_room { p.new.room ≡ p.old.room }
        ensures effect_room { fx.new.capacity ≡ fx.old.capacity }
    {
        if self.state == ReadableState::Readable {
            self.queue.reset();
            self.stream_error(me, p, fx, e);
        }
    }

    #[tactic(auto, unfolding(ws_steps::specs::Readable::after_take))]
    fn after_take(&mut self, me: StreamId, p: &mut Promises, fx: &mut Agenda)
        requires { HasEffectRoom (1 + length self.old.slots.requests) fx.old }
        ensures row { acts_of self.new p.new fx.new ≡ rows.after_take me (acts_of self.old p.old fx.old) }
        ensures room { self.new.room ≡ self.old.room }
        ensures promise_room { p.new.room ≡ p.old.room }
        ensures effect_room { fx.new.capacity ≡ fx.old.capacity }
        ensures caused { length fx.new.effects ≤ 1 + length self.old.slots.requests + length fx.old.effects }
    {
        if self.close_requested && self.queue.is_empty() {
            self.stream_close(me, p, fx);
        } else {
            self.call_pull_if_needed(me, fx);
        }
    }

    /// The default controller's `[[PullSteps]]`.
    #[tactic(auto, unfolding(ws_steps::specs::Readable::pull_steps))]
    pub fn pull_steps(
        &mut self,
        me: StreamId,
        p: &mut Promises,
        fx: &mut Agenda,
        request: ReadRequest,
    )
        requires requests { HasRequestRoom 1 self.old }
        requires effects { HasEffectRoom (2 + length self.old.slots.requests) fx.old }
        ensures row { acts_of self.new p.new fx.new ≡ rows.pull_steps me request (acts_of self.old p.old fx.old) }
        ensures room { self.new.room ≡ self.old.room }
        ensures promise_room { p.new.room ≡ p.old.room }
        ensures effect_room { fx.new.capacity ≡ fx.old.capacity }
    {
        match self.queue.pop() {
            Some((value, _)) => {
                self.after_take(me, p, fx);
                fx.push(Effect::ChunkSteps(me, request, value));
            }
            None => {
                self.wait_for_chunk(request);
                self.call_pull_if_needed(me, fx);
            }
        }
    }

    /// One more request waits.
    pub fn wait_for_chunk(&mut self, request: ReadRequest)
        requires { HasRequestRoom 1 self.old }
        ensures { self.new ≡ record self.old { slots = after_request_added request self.old.slots } }
    {
        self.requests.push_back_reserved(request);
    }

    /// The controller's reaction to its start algorithm.
    #[tactic(auto, unfolding(ws_steps::specs::Readable::start_settled))]
    pub fn start_settled(
        &mut self,
        me: StreamId,
        p: &mut Promises,
        fx: &mut Agenda,
        outcome: Result<Plain, Plain>,
    )
        requires { HasEffectRoom (1 + length self.old.slots.requests) fx.old }
        ensures row { acts_of self.new p.new fx.new ≡ rows.start_settled me outcome (acts_of self.old p.old fx.old) }
        ensures room { self.new.room ≡ self.old.room }
        ensures promise_room { p.new.room ≡ p.old.room }
        ensures effect_room { fx.new.capacity ≡ fx.old.capacity }
    {
        match outcome {
            Ok(_) => {
                self.started = true;
                self.call_pull_if_needed(me, fx);
            }
            Err(r) => self.controller_error(me, p, fx, r),
        }
    }

    /// The controller's reaction to its pull algorithm.
    #[tactic(auto, unfolding(ws_steps::specs::Readable::pull_settled))]
    pub fn pull_settled(
        &mut self,
        me: StreamId,
        p: &mut Promises,
        fx: &mut Agenda,
        outcome: Result<Plain, Plain>,
    )
        requires { HasEffectRoom (1 + length self.old.slots.requests) fx.old }
        ensures row { acts_of self.new p.new fx.new ≡ rows.pull_settled me outcome (acts_of self.old p.old fx.old) }
        ensures room { self.new.room ≡ self.old.room }
        ensures promise_room { p.new.room ≡ p.old.room }
        ensures effect_room { fx.new.capacity ≡ fx.old.capacity }
    {
        match outcome {
            Ok(_) => {
                if self.pull_done() {
                    fx.push(Effect::PullAlgorithm(me));
                }
            }
            Err(e) => self.controller_error(me, p, fx, e),
        }
    }

    /// The default controller's `[[CancelSteps]]`. The promise is the result of reacting to the cancel algorithm.
    #[tactic(auto, unfolding(ws_steps::specs::Readable::cancel_steps))]
    pub fn cancel_steps(&mut self, me: StreamId, fx: &mut Agenda, reason: Plain, promise: PromiseId)
        requires { HasEffectRoom 1 fx.old }
        ensures row { (p : Seen) → acts_of self.new p fx.new
            ≡ rows.cancel_steps me reason promise (acts_of self.old p fx.old) }
        ensures room { self.new.room ≡ self.old.room }
        ensures effect_room { fx.new.capacity ≡ fx.old.capacity }
    {
        self.queue.reset();
        fx.push(Effect::CancelAlgorithm(me, reason, promise));
    }
}
