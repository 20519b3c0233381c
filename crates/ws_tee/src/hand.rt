//! How a tee hands a chunk to its branches.
ghost use Rattle.std.specs.Prelude.{◌≡◌, ◌++◌, ◌∷◌, []};
ghost use Rattle.ws_promise.specs.Seen.{HasEffectRoom, Seen};
ghost use Rattle.ws_steps.specs.Tee as rows;
ghost use Rattle.ws_steps.specs.declared.effects.Effect.TheVariants as effect;
ghost use Rattle.ws_steps.specs.declared.readable.ReadableOperation.TheVariants as readable;
ghost use Rattle.ws_tee.specs.Seen.{CanHand, acts_of};

use crate::Tee;
use ws_promise::Agenda;
use ws_steps::{Effect, ReadableOperation, TeeOperation, TeePhase};
use ws_value::{StreamId, TeeId, Value};

/// ReadableStreamDefaultControllerEnqueue of a chunk on a branch.
fn enqueue(fx: &mut Agenda, branch: StreamId, chunk: Value)
    requires { HasEffectRoom 1 fx.old }
    ensures { fx.new ≡ record fx.old { effects = fx.old.effects ++ effect.Readable branch (readable.Enqueue chunk) ∷ [] } }
{
    fx.push(Effect::Readable(branch, ReadableOperation::Enqueue(chunk)));
}

/// No read is under way.
fn rested(phase: TeePhase) -> TeePhase
    ensures { result ≡ rows.rested phase }
{
    match phase {
        TeePhase::Resting => TeePhase::Resting,
        TeePhase::Reading => TeePhase::Resting,
        TeePhase::Over => TeePhase::Over,
    }
}

impl Tee {
    /// The microtask of a chunk, which goes to each branch that isn't cancelled.
    #[tactic(auto, unfolding(ws_steps::specs::Tee::hand_chunk))]
    pub fn hand_chunk(&mut self, me: TeeId, fx: &mut Agenda)
        requires copy { CanHand self.old }
        requires effect_room { HasEffectRoom 3 fx.old }
        ensures row { (p : Seen) → acts_of self.new.slots p fx.new
            ≡ rows.hand_chunk me (acts_of self.old.slots p fx.old) }
        ensures effect_room { fx.new.capacity ≡ fx.old.capacity }
    {
        let copy = self.copy.take();
        let Some(chunk) = self.held.take() else {
            return;
        };
        self.read_again = false;
        match (self.reason1, self.reason2) {
            (None, None) => {
                enqueue(fx, self.branch1, copy.unwrap());
                enqueue(fx, self.branch2, chunk);
            }
            (None, Some(_)) => enqueue(fx, self.branch1, chunk),
            (Some(_), None) => enqueue(fx, self.branch2, chunk),
            (Some(_), Some(_)) => {}
        }
        fx.push(Effect::Tee(me, TeeOperation::Handed));
    }

    /// The rest of it, once both branches have the chunk.
    #[tactic(auto, unfolding(ws_steps::specs::Tee::handed))]
    pub fn handed(&mut self, me: TeeId, fx: &mut Agenda)
        requires effect_room { HasEffectRoom 1 fx.old }
        ensures row { (p : Seen) → acts_of self.new.slots p fx.new ≡ rows.handed me (acts_of self.old.slots p fx.old) }
        ensures copied { self.new.copied ≡ self.old.copied }
        ensures effect_room { fx.new.capacity ≡ fx.old.capacity }
    {
        self.phase = rested(self.phase);
        if self.read_again {
            self.pull_branch(me, fx);
        }
    }
}
