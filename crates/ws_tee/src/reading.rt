//! How a tee reads its source, and what becomes of its branches where the source ends.
ghost use Rattle.std.specs.Prelude.{◌≡◌, ◌+◌, ◌++◌, ◌∷◌, [], length};
ghost use Rattle.ws_promise.specs.Seen.{HasEffectRoom, HasJobRoom, Seen, SeenAgenda};
ghost use Rattle.ws_steps.specs.Tee as rows;
ghost use Rattle.ws_steps.specs.declared.effects.Effect.TheVariants as effect;
ghost use Rattle.ws_steps.specs.declared.readable.ReadableOperation.TheVariants as readable;
ghost use Rattle.ws_tee.specs.Seen.{acts_of};

use crate::Tee;
use ws_promise::{Agenda, Promises};
use ws_steps::{Effect, Micro, ReadRequest, ReadableOperation, TeePhase};
use ws_value::{Plain, TeeId, Value};

impl Tee {
    /// The pull algorithm of a branch.
    #[tactic(auto, unfolding(ws_steps::specs::Tee::pull_branch))]
    pub fn pull_branch(&mut self, me: TeeId, fx: &mut Agenda)
        requires effect_room { HasEffectRoom 1 fx.old }
        ensures row { (p : Seen) → acts_of self.new.slots p fx.new
            ≡ rows.pull_branch me (acts_of self.old.slots p fx.old) }
        ensures copied { self.new.copied ≡ self.old.copied }
        ensures effect_room { fx.new.capacity ≡ fx.old.capacity }
    {
        match self.phase {
            TeePhase::Resting => {
                self.phase = TeePhase::Reading;
                let read = ReadableOperation::Read(ReadRequest::Tee(me));
                fx.push(Effect::Readable(self.source, read));
            }
            TeePhase::Reading => self.read_again = true,
            TeePhase::Over => {}
        }
    }

    /// The chunk steps of its read request.
    #[tactic(auto, unfolding(ws_steps::specs::Tee::keep_chunk))]
    pub fn keep_chunk(&mut self, me: TeeId, p: &mut Promises, chunk: Value)
        requires job_room { HasJobRoom 1 p.old }
        ensures row { (fx : SeenAgenda) → acts_of self.new.slots p.new fx
            ≡ rows.keep_chunk me chunk (acts_of self.old.slots p.old fx) }
        ensures promise_room { p.new.room ≡ p.old.room }
    {
        self.copy = None;
        self.held = Some(chunk);
        p.micro(Micro::TeeHand(me));
    }

    /// The close steps of its read request.
    #[tactic(auto, unfolding(ws_steps::specs::Tee::source_closed))]
    pub fn source_closed(&mut self, fx: &mut Agenda)
        requires effect_room { HasEffectRoom 3 fx.old }
        ensures row { (p : Seen) → acts_of self.new.slots p fx.new ≡ rows.source_closed (acts_of self.old.slots p fx.old) }
        ensures copied { self.new.copied ≡ self.old.copied }
        ensures effect_room { fx.new.capacity ≡ fx.old.capacity }
    {
        if self.phase == TeePhase::Over {
            return;
        }
        self.phase = TeePhase::Over;
        self.close_branches(fx);
        self.fulfil_cancel(fx);
    }

    /// The error steps of its read request.
    #[tactic(auto, unfolding(ws_steps::specs::Tee::source_errored))]
    pub fn source_errored(&mut self)
        ensures row { (p : Seen) (fx : SeenAgenda) → acts_of self.new.slots p fx
            ≡ rows.source_errored (acts_of self.old.slots p fx) }
        ensures copied { self.new.copied ≡ self.old.copied }
    {
        self.phase = TeePhase::Over;
    }

    /// Errs both branches, the first branch first.
    fn error_branches(&self, fx: &mut Agenda, e: Plain)
        requires effect_room { HasEffectRoom 2 fx.old }
        ensures effects { fx.new ≡ record fx.old {
          effects = fx.old.effects
              ++ effect.Readable self.now.slots.branch1 (readable.Error e)
              ∷ effect.Readable self.now.slots.branch2 (readable.Error e) ∷ [];
        } }
        ensures caused { length fx.new.effects ≡ 2 + length fx.old.effects }
    {
        fx.push(Effect::Readable(self.branch1, ReadableOperation::Error(e)));
        fx.push(Effect::Readable(self.branch2, ReadableOperation::Error(e)));
    }

    /// The closed promise of its reader has settled.
    #[tactic(auto, unfolding(ws_steps::specs::Tee::reader_settled))]
    pub fn reader_settled(&mut self, fx: &mut Agenda, outcome: Result<Plain, Plain>)
        requires effect_room { HasEffectRoom 3 fx.old }
        ensures row { (p : Seen) → acts_of self.new.slots p fx.new
            ≡ rows.reader_settled outcome (acts_of self.old.slots p fx.old) }
        ensures copied { self.new.copied ≡ self.old.copied }
        ensures effect_room { fx.new.capacity ≡ fx.old.capacity }
    {
        if let Err(e) = outcome {
            self.error_branches(fx, e);
            self.fulfil_cancel(fx);
        }
    }
}
