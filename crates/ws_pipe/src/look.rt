//! How a pipe looks at its two ends.
ghost use Rattle.std.specs.Prelude.{◌≡◌, Option, false, true, if◌then◌else◌};
ghost use Rattle.ws_pipe.specs.Seen.{acts_of, close_forward, error_backward, error_forward, flow, flows, going, is_next, look_of, open_ends};
ghost use Rattle.ws_promise.specs.Seen.{HasEffectRoom, HasPromiseRoom, Seen, SeenAgenda};
ghost use Rattle.ws_steps.specs.Operations.{pipe_operation};
ghost use Rattle.ws_steps.specs.Pipes as rows;
ghost use Rattle.ws_steps.specs.declared.pipes.Phase.TheVariants.{Flowing};

use crate::direct::{PipeLook, PipeNext};
use crate::{Pipe, PipeEnds};
use ws_promise::{Agenda, Promises};
use ws_steps::{Action, Phase, ReadableState, WritableState};
use ws_value::{Fault, PipeId, Plain, PromiseId};

const TYPE_ERROR: Plain = Plain::Fault(Fault::TypeError);

/// An action, unless it is prevented.
fn unless(prevented: bool, action: Action) -> Option<Action>
    ensures { result ≡ rows.unless prevented action }
{
    if prevented { None } else { Some(action) }
}

impl Pipe {
    /// What it does next between two ends that go on, where the destination wants a chunk or else has this promise to
    /// wait for.
    #[inline(always)]
    fn flows(&mut self, wants: bool, ready: Option<PromiseId>) -> PipeNext
        ensures row { (me : PipeId) (p : Seen) (fx : SeenAgenda)
            → flows me wants ready (acts_of self.old p fx) ≡ going me result (acts_of self.new p fx) }
    {
        if self.reading {
            return PipeNext::Nothing;
        }
        if wants {
            self.reading = true;
            return PipeNext::Read(self.source);
        }
        if self.waits {
            return PipeNext::Nothing;
        }
        match ready {
            Some(ready) => {
                self.waits = true;
                PipeNext::Wait(ready)
            }
            None => PipeNext::Nothing,
        }
    }

    /// The source is readable, and the destination hasn't errored.
    #[inline(always)]
    fn flow(&mut self, me: PipeId, ends: &PipeEnds, p: &mut Promises, fx: &mut Agenda) -> PipeNext
        requires promise_room { HasPromiseRoom 3 p.old }
        requires effect_room { HasEffectRoom 5 fx.old }
        ensures row { flow me ends.now (acts_of self.old p.old fx.old)
            ≡ going me result (acts_of self.new p.new fx.new) }
        ensures quiet { is_next result ≡ true → fx.new ≡ fx.old }
        ensures promise_room { p.new.room ≡ p.old.room }
        ensures effect_room { fx.new.capacity ≡ fx.old.capacity }
    {
        if ends.dest_closing || ends.dest_state == WritableState::Closed {
            let action = unless(self.prevent.cancel, Action::CancelSource(TYPE_ERROR));
            self.shutdown(me, ends, p, fx, action, Some(TYPE_ERROR));
            return PipeNext::Nothing;
        }
        let ready = match ends.dest_state {
            WritableState::Writable => ends.dest_ready,
            _ => None,
        };
        self.flows(ends.dest_wants, ready)
    }

    #[cold]
    #[inline(never)]
    fn error_forward(&mut self, me: PipeId, ends: &PipeEnds, p: &mut Promises, fx: &mut Agenda)
        requires promise_room { HasPromiseRoom 3 p.old }
        requires effect_room { HasEffectRoom 5 fx.old }
        ensures row { acts_of self.new p.new fx.new ≡ error_forward me ends.now (acts_of self.old p.old fx.old) }
        ensures promise_room { p.new.room ≡ p.old.room }
        ensures effect_room { fx.new.capacity ≡ fx.old.capacity }
    {
        let action = unless(self.prevent.abort, Action::AbortDest(*ends.source_error));
        self.shutdown(me, ends, p, fx, action, Some(*ends.source_error));
    }

    #[cold]
    #[inline(never)]
    fn error_backward(&mut self, me: PipeId, ends: &PipeEnds, p: &mut Promises, fx: &mut Agenda)
        requires promise_room { HasPromiseRoom 3 p.old }
        requires effect_room { HasEffectRoom 5 fx.old }
        ensures row { acts_of self.new p.new fx.new ≡ error_backward me ends.now (acts_of self.old p.old fx.old) }
        ensures promise_room { p.new.room ≡ p.old.room }
        ensures effect_room { fx.new.capacity ≡ fx.old.capacity }
    {
        let action = unless(self.prevent.cancel, Action::CancelSource(*ends.dest_error));
        self.shutdown(me, ends, p, fx, action, Some(*ends.dest_error));
    }

    #[cold]
    #[inline(never)]
    fn close_forward(&mut self, me: PipeId, ends: &PipeEnds, p: &mut Promises, fx: &mut Agenda)
        requires promise_room { HasPromiseRoom 3 p.old }
        requires effect_room { HasEffectRoom 5 fx.old }
        ensures row { acts_of self.new p.new fx.new ≡ close_forward me ends.now (acts_of self.old p.old fx.old) }
        ensures promise_room { p.new.room ≡ p.old.room }
        ensures effect_room { fx.new.capacity ≡ fx.old.capacity }
    {
        let action = unless(self.prevent.close, Action::CloseDest);
        self.shutdown(me, ends, p, fx, action, None);
    }

    /// Errors are propagated forward, and then backward; closing is propagated forward, and then backward.
    #[inline(always)]
    fn look_by(
        &mut self,
        me: PipeId,
        ends: &PipeEnds,
        p: &mut Promises,
        fx: &mut Agenda,
    ) -> PipeNext
        requires promise_room { HasPromiseRoom 3 p.old }
        requires effect_room { HasEffectRoom 5 fx.old }
        ensures row { rows.look_by me ends.now (acts_of self.old p.old fx.old) ends.now.source_state ends.now.dest_state
            ≡ going me result (acts_of self.new p.new fx.new) }
        ensures quiet { is_next result ≡ true → fx.new ≡ fx.old }
        ensures promise_room { p.new.room ≡ p.old.room }
        ensures effect_room { fx.new.capacity ≡ fx.old.capacity }
    {
        match (ends.source_state, ends.dest_state) {
            (ReadableState::Errored, _) => {
                self.error_forward(me, ends, p, fx);
                PipeNext::Nothing
            }
            (_, WritableState::Errored) => {
                self.error_backward(me, ends, p, fx);
                PipeNext::Nothing
            }
            (ReadableState::Closed, _) => {
                self.close_forward(me, ends, p, fx);
                PipeNext::Nothing
            }
            (ReadableState::Readable, _) => self.flow(me, ends, p, fx),
        }
    }

    /// Looks at the two ends, where the pipe is flowing: what it does next. What else there is to do is caused.
    #[inline(always)]
    #[tactic(auto, unfolding(ws_steps::specs::Pipes::look))]
    fn look(&mut self, me: PipeId, ends: &PipeEnds, p: &mut Promises, fx: &mut Agenda) -> PipeNext
        requires promise_room { HasPromiseRoom 3 p.old }
        requires effect_room { HasEffectRoom 5 fx.old }
        ensures row { rows.look me ends.now (acts_of self.old p.old fx.old)
            ≡ going me result (acts_of self.new p.new fx.new) }
        ensures quiet { is_next result ≡ true → fx.new ≡ fx.old }
        ensures promise_room { p.new.room ≡ p.old.room }
        ensures effect_room { fx.new.capacity ≡ fx.old.capacity }
    {
        if !self.is_flowing() {
            return PipeNext::Nothing;
        }
        self.look_by(me, ends, p, fx)
    }

    fn wait_no_longer(&mut self)
        ensures { self.new ≡ record self.old { waits = false } }
    {
        self.waits = false;
    }

    /// Looks at the two ends, where the pipe is flowing, its source is readable, and its destination is writable and not
    /// closing, as a chunk meets them: what it does next.
    #[inline(always)]
    #[tactic(auto, unfolding(ws_steps::specs::Pipes::look, ws_steps::specs::Pipes::look_ready, ws_steps::specs::Pipes::go_on, ws_steps::specs::Pipes::write_ended))]
    pub fn look_between(
        &mut self,
        look: PipeLook,
        wants: bool,
        ready: Option<PromiseId>,
    ) -> PipeNext
        requires flowing { self.old.phase ≡ Flowing }
        ensures row { (me : PipeId) (source_error dest_error : Plain) (abort : Option PromiseId) (p : Seen) (fx : SeenAgenda)
            → pipe_operation me (open_ends source_error dest_error wants ready abort) (look_of look) (acts_of self.old p fx)
            ≡ going me result (acts_of self.new p fx) }
    {
        match look {
            PipeLook::Look | PipeLook::GoOn => {}
            PipeLook::Ready => self.wait_no_longer(),
            PipeLook::WriteEnded => self.remove_write(),
        }
        self.flows(wants, ready)
    }

    /// Looks where the pipe is flowing, and proceeds where it waits.
    #[inline(always)]
    #[tactic(auto, unfolding(ws_steps::specs::Pipes::go_on))]
    fn go_on(&mut self, me: PipeId, ends: &PipeEnds, p: &mut Promises, fx: &mut Agenda) -> PipeNext
        requires promise_room { HasPromiseRoom 3 p.old }
        requires effect_room { HasEffectRoom 5 fx.old }
        ensures row { rows.go_on me ends.now (acts_of self.old p.old fx.old)
            ≡ going me result (acts_of self.new p.new fx.new) }
        ensures quiet { is_next result ≡ true → fx.new ≡ fx.old }
        ensures promise_room { p.new.room ≡ p.old.room }
        ensures effect_room { fx.new.capacity ≡ fx.old.capacity }
    {
        match self.phase {
            Phase::Flowing => self.look(me, ends, p, fx),
            Phase::Waiting => {
                self.proceed(me, ends, p, fx);
                PipeNext::Nothing
            }
            Phase::Acting | Phase::Over => PipeNext::Nothing,
        }
    }

    /// Performs an operation in which the pipe looks at its two ends: what it does next. What else there is to do is
    /// caused.
    #[inline(always)]
    #[tactic(auto, unfolding(ws_steps::specs::Pipes::write_ended, ws_steps::specs::Pipes::look_ready))]
    pub fn look_directly(
        &mut self,
        me: PipeId,
        ends: &PipeEnds,
        p: &mut Promises,
        fx: &mut Agenda,
        look: PipeLook,
    ) -> PipeNext
        requires promise_room { HasPromiseRoom 3 p.old }
        requires effect_room { HasEffectRoom 5 fx.old }
        ensures row { pipe_operation me ends.now (look_of look) (acts_of self.old p.old fx.old)
            ≡ going me result (acts_of self.new p.new fx.new) }
        ensures quiet { is_next result ≡ true → fx.new ≡ fx.old }
        ensures promise_room { p.new.room ≡ p.old.room }
        ensures effect_room { fx.new.capacity ≡ fx.old.capacity }
    {
        match look {
            PipeLook::Look => self.look(me, ends, p, fx),
            PipeLook::GoOn => self.go_on(me, ends, p, fx),
            PipeLook::Ready => {
                self.wait_no_longer();
                self.look(me, ends, p, fx)
            }
            PipeLook::WriteEnded => {
                self.remove_write();
                self.go_on(me, ends, p, fx)
            }
        }
    }
}
