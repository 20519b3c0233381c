//! What the controller of a transform stream does to its two halves.
ghost use Rattle.std.specs.Prelude.{◌≡◌, ◌++◌, length, ◌+◌, ◌≤◌};
ghost use Rattle.ws_promise.specs.Seen.{HasEffectRoom, Seen};
ghost use Rattle.ws_steps.specs.Transform as rows;
ghost use Rattle.ws_transform.specs.Seen.{acts_of, error_writable_and_unblock, followed_by};

use crate::Transform;
use ws_promise::Agenda;
use ws_steps::{Effect, ReadableOperation, TransformId, TransformOperation, WritableOperation};
use ws_value::{Fault, Plain, Value};

pub(crate) const TYPE_ERROR: Plain = Plain::Fault(Fault::TypeError);

impl Transform {
    /// TransformStreamErrorWritableAndUnblockWrite.
    pub(crate) fn error_writable_and_unblock(&self, me: TransformId, fx: &mut Agenda, e: Plain)
        requires effect_room { HasEffectRoom 2 fx.old }
        ensures effects { fx.new ≡ followed_by fx.old (error_writable_and_unblock me self.now.writable e) }
        ensures caused { length fx.new.effects ≡ 2 + length fx.old.effects }
    {
        fx.push(Effect::Writable(self.writable, WritableOperation::ErrorIfNeeded(e)));
        fx.push(Effect::Transform(me, TransformOperation::Unblock));
    }

    /// TransformStreamError.
    #[tactic(auto, unfolding(ws_steps::specs::Transform::transform_error))]
    pub fn transform_error(&self, me: TransformId, fx: &mut Agenda, e: Plain)
        requires effect_room { HasEffectRoom 3 fx.old }
        ensures row { (p : Seen) → acts_of self.now p fx.new ≡ rows.transform_error me e (acts_of self.now p fx.old) }
        ensures effect_room { fx.new.capacity ≡ fx.old.capacity }
    {
        fx.push(Effect::Readable(self.readable, ReadableOperation::Error(e)));
        self.error_writable_and_unblock(me, fx, e);
    }

    /// TransformStreamDefaultControllerTerminate.
    #[tactic(auto, unfolding(ws_steps::specs::Transform::terminate))]
    pub fn terminate(&self, me: TransformId, fx: &mut Agenda)
        requires effect_room { HasEffectRoom 3 fx.old }
        ensures row { (p : Seen) → acts_of self.now p fx.new ≡ rows.terminate me (acts_of self.now p fx.old) }
        ensures effect_room { fx.new.capacity ≡ fx.old.capacity }
    {
        fx.push(Effect::Readable(self.readable, ReadableOperation::Close));
        self.error_writable_and_unblock(me, fx, TYPE_ERROR);
    }

    /// TransformStreamDefaultControllerEnqueue, of a chunk that the readable half can take.
    #[tactic(auto, unfolding(ws_steps::specs::Transform::enqueue))]
    pub fn enqueue(&self, me: TransformId, fx: &mut Agenda, chunk: Value)
        requires effect_room { HasEffectRoom 2 fx.old }
        ensures row { (p : Seen) → acts_of self.now p fx.new ≡ rows.enqueue me chunk (acts_of self.now p fx.old) }
        ensures effect_room { fx.new.capacity ≡ fx.old.capacity }
    {
        fx.push(Effect::Readable(self.readable, ReadableOperation::Enqueue(chunk)));
        fx.push(Effect::Transform(me, TransformOperation::Enqueued));
    }
}
