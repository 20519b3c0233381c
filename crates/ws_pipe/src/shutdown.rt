//! How a pipe shuts down, and what is done with the promises of its action.
ghost use Rattle.std.specs.Prelude.{◌≡◌, ◌+◌, ◌≤◌, ◌++◌, length};
ghost use Rattle.ws_pipe.specs.Seen.{acts_of, listed};
ghost use Rattle.ws_promise.specs.Seen.{HasEffectRoom, HasPromiseRoom, Seen, SeenAgenda};
ghost use Rattle.ws_steps.specs.Pipes as rows;

use crate::{Pipe, PipeEnds};
use ws_promise::{Agenda, Promises};
use ws_steps::{Action, Phase, WritableState};
use ws_value::{PipeId, Plain};

impl Pipe {
    fn act_by(&mut self, me: PipeId, ends: &PipeEnds, p: &mut Promises, fx: &mut Agenda)
        requires promise_room { HasPromiseRoom 3 p.old }
        requires effect_room { HasEffectRoom 5 fx.old }
        ensures row { acts_of self.new p.new fx.new
            ≡ rows.act_by me ends.now (acts_of self.old p.old fx.old) self.old.action }
        ensures promise_room { p.new.room ≡ p.old.room }
        ensures effect_room { fx.new.capacity ≡ fx.old.capacity }
    {
        let error = self.error;
        match self.action {
            None => self.finalize(me, fx, error),
            Some(Action::AbortDest(r)) => self.abort_dest(me, ends, p, fx, r),
            Some(Action::CancelSource(r)) => self.cancel_source(me, p, fx, r),
            Some(Action::CloseDest) => self.close_dest(me, p, fx),
            Some(Action::BySignal(r)) => self.act_by_signal(me, p, fx, r),
        }
    }

    /// Performs the action of the shutdown; where there is none, the pipe is over.
    #[tactic(auto, unfolding(ws_steps::specs::Pipes::act))]
    pub fn act(&mut self, me: PipeId, ends: &PipeEnds, p: &mut Promises, fx: &mut Agenda)
        requires promise_room { HasPromiseRoom 3 p.old }
        requires effect_room { HasEffectRoom 5 fx.old }
        ensures row { acts_of self.new p.new fx.new ≡ rows.act me ends.now (acts_of self.old p.old fx.old) }
        ensures promise_room { p.new.room ≡ p.old.room }
        ensures effect_room { fx.new.capacity ≡ fx.old.capacity }
    {
        self.enter(Phase::Acting);
        self.act_by(me, ends, p, fx);
    }

    /// Acts once no chunk is held and every write has settled.
    #[tactic(auto, unfolding(ws_steps::specs::Pipes::proceed))]
    pub fn proceed(&mut self, me: PipeId, ends: &PipeEnds, p: &mut Promises, fx: &mut Agenda)
        requires promise_room { HasPromiseRoom 3 p.old }
        requires effect_room { HasEffectRoom 5 fx.old }
        ensures row { acts_of self.new p.new fx.new ≡ rows.proceed me ends.now (acts_of self.old p.old fx.old) }
        ensures promise_room { p.new.room ≡ p.old.room }
        ensures effect_room { fx.new.capacity ≡ fx.old.capacity }
    {
        if self.held.is_none() && self.unsettled == 0 {
            self.act(me, ends, p, fx);
        }
    }

    fn shut_down(&mut self, me: PipeId, ends: &PipeEnds, p: &mut Promises, fx: &mut Agenda)
        requires promise_room { HasPromiseRoom 3 p.old }
        requires effect_room { HasEffectRoom 5 fx.old }
        ensures row { acts_of self.new p.new fx.new ≡ rows.shut_down me ends.now (acts_of self.old p.old fx.old) }
        ensures promise_room { p.new.room ≡ p.old.room }
        ensures effect_room { fx.new.capacity ≡ fx.old.capacity }
    {
        if ends.dest_state == WritableState::Writable && !ends.dest_closing {
            self.enter(Phase::Waiting);
            self.proceed(me, ends, p, fx);
        } else {
            self.act(me, ends, p, fx);
        }
    }

    fn keep_shutdown(&mut self, action: Option<Action>, error: Option<Plain>)
        ensures { self.new ≡ record self.old { action = action; error = error } }
    {
        self.action = action;
        self.error = error;
    }

    /// "Shutdown with an action", or without one, where the pipe is flowing.
    #[tactic(auto, unfolding(ws_steps::specs::Pipes::shutdown))]
    pub fn shutdown(
        &mut self,
        me: PipeId,
        ends: &PipeEnds,
        p: &mut Promises,
        fx: &mut Agenda,
        action: Option<Action>,
        error: Option<Plain>,
    )
        requires promise_room { HasPromiseRoom 3 p.old }
        requires effect_room { HasEffectRoom 5 fx.old }
        ensures row { acts_of self.new p.new fx.new
            ≡ rows.shutdown me ends.now action error (acts_of self.old p.old fx.old) }
        ensures promise_room { p.new.room ≡ p.old.room }
        ensures effect_room { fx.new.capacity ≡ fx.old.capacity }
    {
        if self.is_flowing() {
            self.keep_shutdown(action, error);
            self.shut_down(me, ends, p, fx);
        }
    }

    /// The pipe's signal was triggered with a reason.
    #[tactic(auto, unfolding(ws_steps::specs::Pipes::abort))]
    pub fn abort(
        &mut self,
        me: PipeId,
        ends: &PipeEnds,
        p: &mut Promises,
        fx: &mut Agenda,
        reason: Plain,
    )
        requires promise_room { HasPromiseRoom 3 p.old }
        requires effect_room { HasEffectRoom 5 fx.old }
        ensures row { acts_of self.new p.new fx.new ≡ rows.abort me ends.now reason (acts_of self.old p.old fx.old) }
        ensures promise_room { p.new.room ≡ p.old.room }
        ensures effect_room { fx.new.capacity ≡ fx.old.capacity }
    {
        let action = Some(Action::BySignal(reason));
        self.shutdown(me, ends, p, fx, action, Some(reason));
    }
}
