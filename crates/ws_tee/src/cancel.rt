//! How the branches of a tee are cancelled.
ghost use Rattle.std.specs.Prelude.{◌≡◌, ◌≤◌, ◌+◌, length};
ghost use Rattle.ws_promise.specs.Seen.{HasEffectRoom, HasPromiseRoom, Seen};
ghost use Rattle.ws_steps.specs.Tee as rows;
ghost use Rattle.ws_tee.specs.Seen.{acts_of};

use crate::Tee;
use ws_promise::{Agenda, Promises};
use ws_steps::{Effect, Gift, Half, ReadableOperation, Use};
use ws_value::{Plain, PromiseId, TeeId};

impl Tee {
    fn reason_of(&self, half: Half) -> Option<Plain>
        ensures { result ≡ rows.reason_of half self.now.slots }
    {
        match half {
            Half::First => self.reason1,
            Half::Second => self.reason2,
        }
    }

    fn keep_reason(&mut self, half: Half, reason: Plain)
        ensures slots { self.new.slots ≡ rows.with_reason half reason self.old.slots }
        ensures copied { self.new.copied ≡ self.old.copied }
    {
        match half {
            Half::First => self.reason1 = Some(reason),
            Half::Second => self.reason2 = Some(reason),
        }
    }

    /// The cancel promise is resolved with this one, unless it was settled or resolved.
    fn resolve_cancel(&mut self, fx: &mut Agenda, promise: PromiseId)
        requires effect_room { HasEffectRoom 1 fx.old }
        ensures row { (p : Seen) → acts_of self.new.slots p fx.new
            ≡ rows.resolve_cancel promise (acts_of self.old.slots p fx.old) }
        ensures copied { self.new.copied ≡ self.old.copied }
        ensures caused { length fx.new.effects ≤ 1 + length fx.old.effects }
        ensures effect_room { fx.new.capacity ≡ fx.old.capacity }
    {
        if !self.answered {
            self.answered = true;
            fx.push(Effect::Give(Gift::This(promise), Use::Resolve(self.cancel)));
        }
    }

    /// Keeps the reason of a branch that wasn't cancelled. Where the other branch was, the source is cancelled with
    /// both reasons.
    fn cancel_by(&mut self, me: TeeId, p: &mut Promises, fx: &mut Agenda, half: Half, reason: Plain)
        requires promise_room { HasPromiseRoom 1 p.old }
        requires effect_room { HasEffectRoom 2 fx.old }
        ensures row { acts_of self.new.slots p.new fx.new
            ≡ rows.cancel_by me half reason (acts_of self.old.slots p.old fx.old) (rows.reason_of half self.old.slots) }
        ensures copied { self.new.copied ≡ self.old.copied }
        ensures caused { length fx.new.effects ≤ 2 + length fx.old.effects }
        ensures promise_room { p.new.room ≡ p.old.room }
        ensures effect_room { fx.new.capacity ≡ fx.old.capacity }
    {
        if self.reason_of(half).is_some() {
            return;
        }
        self.keep_reason(half, reason);
        if self.is_wanted() {
            return;
        }
        let promise = p.fresh();
        let cancel = ReadableOperation::Cancel(Plain::Pair(me), promise);
        fx.push(Effect::Readable(self.source, cancel));
        self.resolve_cancel(fx, promise);
    }

    /// The cancel algorithm of a branch.
    #[tactic(auto, unfolding(ws_steps::specs::Tee::cancel_branch))]
    pub fn cancel_branch(
        &mut self,
        me: TeeId,
        p: &mut Promises,
        fx: &mut Agenda,
        half: Half,
        reason: Plain,
        u: Use,
    )
        requires promise_room { HasPromiseRoom 1 p.old }
        requires effect_room { HasEffectRoom 3 fx.old }
        ensures row { acts_of self.new.slots p.new fx.new
            ≡ rows.cancel_branch me half reason u (acts_of self.old.slots p.old fx.old) }
        ensures copied { self.new.copied ≡ self.old.copied }
        ensures promise_room { p.new.room ≡ p.old.room }
        ensures effect_room { fx.new.capacity ≡ fx.old.capacity }
    {
        let cancel = Gift::This(self.cancel);
        self.cancel_by(me, p, fx, half, reason);
        fx.push(Effect::Give(cancel, u));
    }
}
