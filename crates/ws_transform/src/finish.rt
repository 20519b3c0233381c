//! The reactions to the flush and the cancel algorithm, which settle the finish promise.
ghost use Rattle.std.specs.Prelude.{◌≡◌};
ghost use Rattle.ws_promise.specs.Seen.{HasEffectRoom, Seen};
ghost use Rattle.ws_steps.specs.Transform as rows;
ghost use Rattle.ws_transform.specs.Seen.{acts_of, error_readable_and_settle, error_writable_and_settle, followed_by};

use crate::{Transform, TransformHalves};
use ws_promise::Agenda;
use ws_steps::{Effect, ReadableOperation, ReadableState, TransformId, WritableState};
use ws_value::{Plain, PromiseId};

impl Transform {
    fn flushed(&self, halves: &TransformHalves, fx: &mut Agenda, finish: PromiseId)
        requires effect_room { HasEffectRoom 2 fx.old }
        ensures row { (p : Seen) → acts_of self.now p fx.new
            ≡ rows.flushed_in finish halves.now (acts_of self.now p fx.old) halves.now.readable_state }
        ensures effect_room { fx.new.capacity ≡ fx.old.capacity }
    {
        match halves.readable_state {
            ReadableState::Errored => fx.push(Effect::Settle(finish, Err(*halves.readable_error))),
            ReadableState::Readable | ReadableState::Closed => {
                fx.push(Effect::Readable(self.readable, ReadableOperation::Close));
                fx.push(Effect::Settle(finish, Ok(Plain::Undefined)));
            }
        }
    }

    /// Errors the readable half, and then the finish promise is settled.
    fn error_readable_and_settle(
        &self,
        fx: &mut Agenda,
        finish: PromiseId,
        e: Plain,
        outcome: Result<Plain, Plain>,
    )
        requires effect_room { HasEffectRoom 2 fx.old }
        ensures effects { fx.new ≡ followed_by fx.old (error_readable_and_settle self.now.readable finish e outcome) }
    {
        fx.push(Effect::Readable(self.readable, ReadableOperation::Error(e)));
        fx.push(Effect::Settle(finish, outcome));
    }

    /// The reaction to the flush algorithm.
    #[tactic(auto, unfolding(ws_steps::specs::Transform::flush_settled))]
    pub fn flush_settled(
        &self,
        halves: &TransformHalves,
        fx: &mut Agenda,
        finish: PromiseId,
        outcome: Result<Plain, Plain>,
    )
        requires effect_room { HasEffectRoom 2 fx.old }
        ensures row { (p : Seen) → acts_of self.now p fx.new
            ≡ rows.flush_settled finish halves.now outcome (acts_of self.now p fx.old) }
        ensures effect_room { fx.new.capacity ≡ fx.old.capacity }
    {
        match outcome {
            Ok(_) => self.flushed(halves, fx, finish),
            Err(e) => self.error_readable_and_settle(fx, finish, e, Err(e)),
        }
    }

    fn aborted(&self, halves: &TransformHalves, fx: &mut Agenda, finish: PromiseId, reason: Plain)
        requires effect_room { HasEffectRoom 2 fx.old }
        ensures row { (p : Seen) → acts_of self.now p fx.new
            ≡ rows.aborted_in finish halves.now reason (acts_of self.now p fx.old) halves.now.readable_state }
        ensures effect_room { fx.new.capacity ≡ fx.old.capacity }
    {
        match halves.readable_state {
            ReadableState::Errored => fx.push(Effect::Settle(finish, Err(*halves.readable_error))),
            ReadableState::Readable | ReadableState::Closed => {
                self.error_readable_and_settle(fx, finish, reason, Ok(Plain::Undefined));
            }
        }
    }

    /// The reaction to the cancel algorithm that an abort of the writable half performed with a reason.
    #[tactic(auto, unfolding(ws_steps::specs::Transform::abort_settled))]
    pub fn abort_settled(
        &self,
        halves: &TransformHalves,
        fx: &mut Agenda,
        finish: PromiseId,
        reason: Plain,
        outcome: Result<Plain, Plain>,
    )
        requires effect_room { HasEffectRoom 2 fx.old }
        ensures row { (p : Seen) → acts_of self.now p fx.new
            ≡ rows.abort_settled finish halves.now reason outcome (acts_of self.now p fx.old) }
        ensures effect_room { fx.new.capacity ≡ fx.old.capacity }
    {
        match outcome {
            Ok(_) => self.aborted(halves, fx, finish, reason),
            Err(e) => self.error_readable_and_settle(fx, finish, e, Err(e)),
        }
    }

    /// TransformStreamErrorWritableAndUnblockWrite, and then the finish promise is settled.
    fn error_writable_and_settle(
        &self,
        me: TransformId,
        fx: &mut Agenda,
        finish: PromiseId,
        e: Plain,
        outcome: Result<Plain, Plain>,
    )
        requires effect_room { HasEffectRoom 3 fx.old }
        ensures effects { fx.new
            ≡ followed_by fx.old (error_writable_and_settle me self.now.writable finish e outcome) }
    {
        self.error_writable_and_unblock(me, fx, e);
        fx.push(Effect::Settle(finish, outcome));
    }

    fn cancelled(
        &self,
        me: TransformId,
        halves: &TransformHalves,
        fx: &mut Agenda,
        finish: PromiseId,
        reason: Plain,
    )
        requires effect_room { HasEffectRoom 3 fx.old }
        ensures row { (p : Seen) → acts_of self.now p fx.new
            ≡ rows.cancelled_in me finish halves.now reason (acts_of self.now p fx.old) halves.now.writable_state }
        ensures effect_room { fx.new.capacity ≡ fx.old.capacity }
    {
        match halves.writable_state {
            WritableState::Errored => fx.push(Effect::Settle(finish, Err(*halves.writable_error))),
            WritableState::Writable | WritableState::Erroring | WritableState::Closed => {
                self.error_writable_and_settle(me, fx, finish, reason, Ok(Plain::Undefined));
            }
        }
    }

    /// The reaction to the cancel algorithm that a cancel of the readable half performed with a reason.
    #[tactic(auto, unfolding(ws_steps::specs::Transform::cancel_settled))]
    pub fn cancel_settled(
        &self,
        me: TransformId,
        halves: &TransformHalves,
        fx: &mut Agenda,
        finish: PromiseId,
        reason: Plain,
        outcome: Result<Plain, Plain>,
    )
        requires effect_room { HasEffectRoom 3 fx.old }
        ensures row { (p : Seen) → acts_of self.now p fx.new
            ≡ rows.cancel_settled me finish halves.now reason outcome (acts_of self.now p fx.old) }
        ensures effect_room { fx.new.capacity ≡ fx.old.capacity }
    {
        match outcome {
            Ok(_) => self.cancelled(me, halves, fx, finish, reason),
            Err(e) => self.error_writable_and_settle(me, fx, finish, e, Err(e)),
        }
    }
}
