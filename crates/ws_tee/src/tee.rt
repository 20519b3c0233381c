//! The record of a tee.
ghost use Rattle.std.specs.Prelude.{◌≡◌, ◌≤◌, ◌+◌, ◌++◌, ◌||◌, not, OnOk, length, true};
ghost use Rattle.ws_promise.specs.Seen.{HasEffectRoom, Seen};
ghost use Rattle.ws_steps.specs.Tee as rows;
ghost use Rattle.ws_steps.specs.declared.readable.ReadableOperation.TheVariants as readable;
ghost use Rattle.ws_tee.specs.Seen.{CanHand, acts_of, goes_to_both};

use std::alloc::Global;
use std::marker::Model;
use ws_promise::Agenda;
use ws_steps::{Effect, ReadableOperation, TeePhase};
use ws_value::{NoMemory, Plain, PromiseId, StreamId, Value};

/// A tee. It is seen as its slots, and by whether it has a second copy of the chunk that it holds.
#[derive(Drop)]
pub struct Tee {
    pub(crate) source: StreamId,
    pub(crate) branch1: StreamId,
    pub(crate) branch2: StreamId,
    pub(crate) phase: TeePhase,
    pub(crate) read_again: bool,
    pub(crate) held: Option<Value>,
    /// A second copy of the chunk that is held, which `prepare` makes.
    pub(crate) copy: Option<Value>,
    pub(crate) reason1: Option<Plain>,
    pub(crate) reason2: Option<Plain>,
    pub(crate) cancel: PromiseId,
    pub(crate) answered: bool,
}

impl Model for Tee {
    ghost use Rattle.std.specs.Prelude.{is_some};
    ghost use Rattle.ws_tee.specs.Seen.{IsCopy, SeenTee};

    ghost Value = { SeenTee };

    ghost view = { λ s. record {
      slots = record {
        source = s.source;
        branch1 = s.branch1;
        branch2 = s.branch2;
        phase = s.phase;
        read_again = s.read_again;
        held = s.held;
        reason1 = s.reason1;
        reason2 = s.reason2;
        cancel = s.cancel;
        answered = s.answered;
      };
      copied = is_some s.copy;
    } };

    ghost invariant = { λ s. IsCopy s.copy s.held };
}

impl Tee {
    /// A new tee of a source, with these branches, which rests. Its cancel promise is made by the call.
    pub fn set_up(source: StreamId, branch1: StreamId, branch2: StreamId, cancel: PromiseId) -> Tee
        ensures { result.slots ≡ rows.set_up source branch1 branch2 cancel }
    {
        Tee {
            source,
            branch1,
            branch2,
            phase: TeePhase::Resting,
            read_again: false,
            held: None,
            copy: None,
            reason1: None,
            reason2: None,
            cancel,
            answered: false,
        }
    }

    /// The stream that the tee reads.
    pub fn source(&self) -> StreamId
        ensures { result ≡ self.now.slots.source }
    {
        self.source
    }

    /// The reasons of both branches, where both were cancelled.
    pub fn pair(&self) -> Option<(Plain, Plain)>
        ensures { result ≡ rows.pair self.now.slots }
    {
        Some((self.reason1?, self.reason2?))
    }

    /// Whether the chunk that it holds can be handed on: it goes to one branch at most, or there is a second copy.
    pub fn can_hand(&self) -> bool
        ensures { result ≡ (not (goes_to_both self.now.slots) || self.now.copied) }
    {
        self.held.is_none()
            || self.reason1.is_some()
            || self.reason2.is_some()
            || self.copy.is_some()
    }

    /// Makes a second copy of the chunk that it holds, where it goes to both branches and there is none: bytes that
    /// are shared are shared once more.
    pub fn prepare(&mut self, alloc: Global) -> Result<(), NoMemory>
        ensures ok { OnOk result (CanHand self.new) }
        ensures slots { self.new.slots ≡ self.old.slots }
        ensures kept { self.old.copied ≡ true → self.new.copied ≡ true }
    {
        if self.can_hand() {
            return Ok(());
        }
        if let Some(chunk) = &self.held {
            let copy = chunk.copy(alloc)?;
            self.copy = Some(copy);
        }
        Ok(())
    }

    /// Whether a branch isn't cancelled.
    pub(crate) fn is_wanted(&self) -> bool
        ensures { result ≡ rows.is_wanted self.now.slots }
    {
        self.reason1.is_none() || self.reason2.is_none()
    }

    /// Where a branch isn't cancelled, the cancel promise is fulfilled, unless it was settled or resolved.
    pub(crate) fn fulfil_cancel(&mut self, fx: &mut Agenda)
        requires effect_room { HasEffectRoom 1 fx.old }
        ensures row { (p : Seen) → acts_of self.new.slots p fx.new ≡ rows.fulfil_cancel (acts_of self.old.slots p fx.old) }
        ensures copied { self.new.copied ≡ self.old.copied }
        ensures effect_room { fx.new.capacity ≡ fx.old.capacity }
    {
        if self.is_wanted() && !self.answered {
            self.answered = true;
            fx.push(Effect::Settle(self.cancel, Ok(Plain::Undefined)));
        }
    }

    /// Closes each branch that isn't cancelled, the first branch first.
    pub(crate) fn close_branches(&self, fx: &mut Agenda)
        requires effect_room { HasEffectRoom 2 fx.old }
        ensures effects { fx.new ≡ record fx.old { effects = fx.old.effects ++ rows.on_branches readable.Close self.now.slots } }
        ensures caused { length fx.new.effects ≤ 2 + length fx.old.effects }
    {
        if self.reason1.is_none() {
            fx.push(Effect::Readable(self.branch1, ReadableOperation::Close));
        }
        if self.reason2.is_none() {
            fx.push(Effect::Readable(self.branch2, ReadableOperation::Close));
        }
    }
}
