//! The actions of a shutdown.
ghost use Rattle.std.specs.Prelude.{◌≡◌, ◌+◌, ◌≤◌, ◌++◌, length};
ghost use Rattle.ws_pipe.specs.Seen.{acts_of, cancel_source, close_dest, listed};
ghost use Rattle.ws_promise.specs.Seen.{HasEffectRoom, HasPromiseRoom};
ghost use Rattle.ws_steps.specs.Pipes as rows;
ghost use Rattle.ws_steps.specs.Promises.{next_id};

use crate::pipe::reacts;
use crate::{Pipe, PipeEnds};
use ws_promise::{Agenda, Promises};
use ws_steps::{Effect, Micro, ReadableOperation, Step, WritableOperation};
use ws_value::{PipeId, Plain, PromiseId};

/// Has the pipe react to the promises that its action waits for. Where there is none, a microtask stands in its place.
fn wait_for_parts(me: PipeId, fx: &mut Agenda, first: Option<PromiseId>, second: Option<PromiseId>)
    requires effect_room { HasEffectRoom 2 fx.old }
    ensures effects { fx.new
        ≡ record fx.old { effects = fx.old.effects ++ rows.waiting_for me (listed first ++ listed second) } }
    ensures caused { length fx.new.effects ≤ 2 + length fx.old.effects }
{
    match (first, second) {
        (None, None) => fx.push(Effect::Queue(Micro::PipeNoParts(me))),
        (Some(p), None) => fx.push(reacts(p, Step::PipePart(me))),
        (None, Some(q)) => fx.push(reacts(q, Step::PipePart(me))),
        (Some(p), Some(q)) => {
            fx.push(reacts(p, Step::PipePart(me)));
            fx.push(reacts(q, Step::PipePart(me)));
        }
    }
}

/// How many of the two promises there are.
fn count_of(first: Option<PromiseId>, second: Option<PromiseId>) -> usize
    ensures { result ≡ length (listed first ++ listed second) }
{
    usize::from(first.is_some()) + usize::from(second.is_some())
}

impl Pipe {
    /// Aborts the destination. Where an abort is pending there, the pipe reacts to the promise of that one.
    pub(crate) fn abort_dest(
        &self,
        me: PipeId,
        ends: &PipeEnds,
        p: &mut Promises,
        fx: &mut Agenda,
        reason: Plain,
    )
        requires promise_room { HasPromiseRoom 1 p.old }
        requires effect_room { HasEffectRoom 2 fx.old }
        ensures row { acts_of self.now p.new fx.new
            ≡ rows.abort_dest me reason (acts_of self.now p.old fx.old) ends.now.dest_abort }
        ensures promise_room { p.new.room ≡ p.old.room }
        ensures effect_room { fx.new.capacity ≡ fx.old.capacity }
    {
        match ends.dest_abort {
            Some(pending) => fx.push(reacts(pending, Step::PipeActed(me))),
            None => {
                let promise = p.fresh();
                let abort = WritableOperation::Abort(reason, promise);
                fx.push(Effect::Writable(self.dest, abort));
                fx.push(reacts(promise, Step::PipeActed(me)));
            }
        }
    }

    /// Cancels the source.
    pub(crate) fn cancel_source(&self, me: PipeId, p: &mut Promises, fx: &mut Agenda, reason: Plain)
        requires promise_room { HasPromiseRoom 1 p.old }
        requires effect_room { HasEffectRoom 2 fx.old }
        ensures row { acts_of self.now p.new fx.new ≡ cancel_source me reason (acts_of self.now p.old fx.old) }
        ensures promise_room { p.new.room ≡ p.old.room }
        ensures effect_room { fx.new.capacity ≡ fx.old.capacity }
    {
        let promise = p.fresh();
        let cancel = ReadableOperation::Cancel(reason, promise);
        fx.push(Effect::Readable(self.source, cancel));
        fx.push(reacts(promise, Step::PipeActed(me)));
    }

    /// Closes the destination.
    pub(crate) fn close_dest(&self, me: PipeId, p: &mut Promises, fx: &mut Agenda)
        requires promise_room { HasPromiseRoom 1 p.old }
        requires effect_room { HasEffectRoom 2 fx.old }
        ensures row { acts_of self.now p.new fx.new ≡ close_dest me (acts_of self.now p.old fx.old) }
        ensures promise_room { p.new.room ≡ p.old.room }
        ensures effect_room { fx.new.capacity ≡ fx.old.capacity }
    {
        let promise = p.fresh();
        let close = WritableOperation::ClosePropagating(promise);
        fx.push(Effect::Writable(self.dest, close));
        fx.push(reacts(promise, Step::PipeActed(me)));
    }

    /// Aborts the destination where it is writable, unless that is prevented.
    #[tactic(auto, using(crate::proofs::Counts::fresh_length))]
    fn abort_part(&self, p: &mut Promises, fx: &mut Agenda, reason: Plain) -> Option<PromiseId>
        requires promise_room { HasPromiseRoom 1 p.old }
        requires effect_room { HasEffectRoom 1 fx.old }
        ensures part { listed result ≡ rows.part self.now.prevent.abort (next_id p.old.table) }
        ensures row { acts_of self.now p.new fx.new
            ≡ rows.abort_part reason self.now.prevent.abort (acts_of self.now p.old fx.old) }
        ensures made { length p.new.table.entries ≤ 1 + length p.old.table.entries }
        ensures caused { length fx.new.effects ≤ 1 + length fx.old.effects }
        ensures promise_room { p.new.room ≡ p.old.room }
        ensures effect_room { fx.new.capacity ≡ fx.old.capacity }
    {
        if self.prevent.abort {
            return None;
        }
        let promise = p.fresh();
        let abort = WritableOperation::AbortIfWritable(reason, promise);
        fx.push(Effect::Writable(self.dest, abort));
        Some(promise)
    }

    /// Cancels the source where it is readable, unless that is prevented.
    #[tactic(auto, using(crate::proofs::Counts::fresh_length))]
    fn cancel_part(&self, p: &mut Promises, fx: &mut Agenda, reason: Plain) -> Option<PromiseId>
        requires promise_room { HasPromiseRoom 1 p.old }
        requires effect_room { HasEffectRoom 1 fx.old }
        ensures part { listed result ≡ rows.part self.now.prevent.cancel (next_id p.old.table) }
        ensures row { acts_of self.now p.new fx.new
            ≡ rows.cancel_part reason self.now.prevent.cancel (acts_of self.now p.old fx.old) }
        ensures made { length p.new.table.entries ≤ 1 + length p.old.table.entries }
        ensures caused { length fx.new.effects ≤ 1 + length fx.old.effects }
        ensures promise_room { p.new.room ≡ p.old.room }
        ensures effect_room { fx.new.capacity ≡ fx.old.capacity }
    {
        if self.prevent.cancel {
            return None;
        }
        let promise = p.fresh();
        let cancel = ReadableOperation::CancelIfReadable(reason, promise);
        fx.push(Effect::Readable(self.source, cancel));
        Some(promise)
    }

    /// "Wait for all" of the promises that there are.
    fn wait_for_all(
        &mut self,
        me: PipeId,
        p: &mut Promises,
        fx: &mut Agenda,
        first: Option<PromiseId>,
        second: Option<PromiseId>,
    )
        requires promise_room { HasPromiseRoom 1 p.old }
        requires effect_room { HasEffectRoom 3 fx.old }
        ensures row { acts_of self.new p.new fx.new
            ≡ rows.wait_for_all me (listed first ++ listed second) (acts_of self.old p.old fx.old) }
        ensures promise_room { p.new.room ≡ p.old.room }
        ensures effect_room { fx.new.capacity ≡ fx.old.capacity }
    {
        let whole = p.fresh();
        wait_for_parts(me, fx, first, second);
        fx.push(reacts(whole, Step::PipeActed(me)));
        self.parts = count_of(first, second);
        self.whole = Some(whole);
    }

    /// Aborts the destination and cancels the source, as far as neither is prevented, and waits for both.
    #[tactic(auto, unfolding(ws_steps::specs::Pipes::act_by_signal))]
    pub(crate) fn act_by_signal(
        &mut self,
        me: PipeId,
        p: &mut Promises,
        fx: &mut Agenda,
        reason: Plain,
    )
        requires promise_room { HasPromiseRoom 3 p.old }
        requires effect_room { HasEffectRoom 5 fx.old }
        ensures row { acts_of self.new p.new fx.new
            ≡ rows.act_by_signal me reason (acts_of self.old p.old fx.old) }
        ensures promise_room { p.new.room ≡ p.old.room }
        ensures effect_room { fx.new.capacity ≡ fx.old.capacity }
    {
        let aborted = self.abort_part(p, fx, reason);
        let cancelled = self.cancel_part(p, fx, reason);
        self.wait_for_all(me, p, fx, aborted, cancelled);
    }
}
