//! The end of a pipe, and the ends of its action.
ghost use Rattle.std.specs.Prelude.{◌≡◌, ◌+◌, ◌≤◌, ◌++◌, ◌-◌, length};
ghost use Rattle.ws_pipe.specs.Seen.{acts_of};
ghost use Rattle.ws_promise.specs.Seen.{HasEffectRoom, Seen, SeenAgenda};
ghost use Rattle.ws_steps.specs.Pipes as rows;

use crate::Pipe;
use ws_promise::{Agenda, Promises};
use ws_steps::{Effect, Phase, ReadableOperation, SignalOperation, WritableOperation};
use ws_value::{PipeId, Plain};

/// How the promise of a pipe settles.
fn ending(error: Option<Plain>) -> Result<Plain, Plain>
    ensures { result ≡ rows.ending error }
{
    match error {
        None => Ok(Plain::Undefined),
        Some(e) => Err(e),
    }
}

impl Pipe {
    /// Its signal, where there is one, forgets it.
    fn forget(&self, me: PipeId, fx: &mut Agenda)
        requires effect_room { HasEffectRoom 1 fx.old }
        ensures effects { fx.new
            ≡ record fx.old { effects = fx.old.effects ++ rows.forgetting me self.now.signal } }
        ensures caused { length fx.new.effects ≤ 1 + length fx.old.effects }
    {
        if let Some(signal) = self.signal {
            fx.push(Effect::Signal(signal, SignalOperation::Forget(me)));
        }
    }

    /// "Finalize", with the error with which the pipe ends, where there is one.
    #[tactic(auto, unfolding(ws_steps::specs::Pipes::finalize))]
    pub fn finalize(&mut self, me: PipeId, fx: &mut Agenda, error: Option<Plain>)
        requires effect_room { HasEffectRoom 4 fx.old }
        ensures row { (p : Seen) → acts_of self.new p fx.new ≡ rows.finalize me error (acts_of self.old p fx.old) }
        ensures effect_room { fx.new.capacity ≡ fx.old.capacity }
    {
        fx.push(Effect::Writable(self.dest, WritableOperation::ReleaseWriter));
        fx.push(Effect::Readable(self.source, ReadableOperation::ReleaseReader));
        self.forget(me, fx);
        fx.push(Effect::Settle(self.promise, ending(error)));
        self.phase = Phase::Over;
    }

    /// The reaction to the promise of the action.
    #[tactic(auto, unfolding(ws_steps::specs::Pipes::action_settled))]
    pub fn action_settled(&mut self, me: PipeId, fx: &mut Agenda, outcome: Result<Plain, Plain>)
        requires effect_room { HasEffectRoom 4 fx.old }
        ensures row { (p : Seen) → acts_of self.new p fx.new
            ≡ rows.action_settled me outcome (acts_of self.old p fx.old) }
        ensures effect_room { fx.new.capacity ≡ fx.old.capacity }
    {
        let error = self.error;
        match outcome {
            Ok(_) => self.finalize(me, fx, error),
            Err(e) => self.finalize(me, fx, Some(e)),
        }
    }

    /// The promise of all that the action waits for settles, where it hasn't settled before.
    fn settle_whole(&mut self, p: &mut Promises, outcome: Result<Plain, Plain>)
        ensures row { (fx : SeenAgenda) → acts_of self.new p.new fx
            ≡ rows.settle_whole outcome (acts_of self.old p.old fx) self.old.whole }
        ensures promise_room { p.new.room ≡ p.old.room }
    {
        if let Some(whole) = self.whole.take() {
            p.settle(whole, outcome);
        }
    }

    /// One promise fewer is waited for.
    fn remove_part(&mut self)
        ensures { self.new ≡ record self.old { parts = self.old.parts - 1 } }
    {
        self.parts = self.parts.saturating_sub(1);
    }

    fn after_part(&mut self, p: &mut Promises)
        ensures row { (fx : SeenAgenda) → acts_of self.new p.new fx
            ≡ rows.after_part (acts_of self.old p.old fx) }
        ensures promise_room { p.new.room ≡ p.old.room }
    {
        if self.parts == 0 {
            self.settle_whole(p, Ok(Plain::Undefined));
        }
    }

    /// The reaction to one of the promises that the action waits for.
    #[tactic(auto, unfolding(ws_steps::specs::Pipes::part_settled))]
    pub fn part_settled(&mut self, p: &mut Promises, outcome: Result<Plain, Plain>)
        ensures row { (fx : SeenAgenda) → acts_of self.new p.new fx
            ≡ rows.part_settled outcome (acts_of self.old p.old fx) }
        ensures promise_room { p.new.room ≡ p.old.room }
    {
        match outcome {
            Ok(_) => {
                self.remove_part();
                self.after_part(p);
            }
            Err(e) => self.settle_whole(p, Err(e)),
        }
    }

    /// Goes on behind an action that has no promise to wait for.
    #[tactic(auto, unfolding(ws_steps::specs::Pipes::no_parts))]
    pub fn no_parts(&mut self, p: &mut Promises)
        ensures row { (fx : SeenAgenda) → acts_of self.new p.new fx ≡ rows.no_parts (acts_of self.old p.old fx) }
        ensures promise_room { p.new.room ≡ p.old.room }
    {
        self.settle_whole(p, Ok(Plain::Undefined));
    }
}
