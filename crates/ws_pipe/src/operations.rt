//! The operations of a pipe by their names.
ghost use Rattle.std.specs.Prelude.{◌≡◌, ◌≤◌, false, length, true};
ghost use Rattle.ws_pipe.specs.Seen.{HasRoomFor, acts_of, going, is_common, is_next, look_of, looks};
ghost use Rattle.ws_promise.specs.Seen.{HasEffectRoom, HasPromiseRoom, Seen};
ghost use Rattle.ws_steps.specs.Operations.{pipe_operation};
ghost use Rattle.ws_steps.specs.declared.pipes.Ends.{Ends};
ghost use Rattle.ws_steps.specs.declared.pipes.PipeOperation.TheVariants as operations;

use crate::direct::{PipeLook, PipeNext};
use crate::pipe::reacts;
use crate::{Pipe, PipeEnds};
use ws_promise::{Agenda, Promises, taken};
use ws_steps::{Effect, PipeOperation, ReadRequest, ReadableOperation, Step};
use ws_value::{PipeId, Plain};

/// Whether a pipe looks at its two ends in this operation.
#[inline(always)]
pub fn looks_at_ends(operation: &PipeOperation) -> bool
    ensures { result ≡ looks operation.now }
{
    match operation {
        PipeOperation::Look
        | PipeOperation::LookReady
        | PipeOperation::GoOn
        | PipeOperation::WriteEnded
        | PipeOperation::Abort(_) => true,
        PipeOperation::KeepChunk(_)
        | PipeOperation::ReadEnded
        | PipeOperation::WriteChunk
        | PipeOperation::ActionSettled(_)
        | PipeOperation::PartSettled(_)
        | PipeOperation::NoParts => false,
    }
}

impl Pipe {
    /// Causes what the pipe does next.
    fn cause(&self, me: PipeId, next: PipeNext, fx: &mut Agenda)
        requires { is_next next ≡ true → HasEffectRoom 1 fx.old }
        ensures row { (p : Seen) → acts_of self.now p fx.new ≡ going me next (acts_of self.now p fx.old) }
        ensures effect_room { fx.new.capacity ≡ fx.old.capacity }
    {
        match next {
            PipeNext::Nothing => {}
            PipeNext::Read(source) => {
                let read = ReadableOperation::Read(ReadRequest::Pipe(me));
                fx.push(Effect::Readable(source, read));
            }
            PipeNext::Wait(ready) => fx.push(reacts(ready, Step::PipeReady(me))),
        }
    }

    /// Looks at the two ends, and causes what the pipe does next.
    #[inline(never)]
    fn perform_look(
        &mut self,
        me: PipeId,
        ends: &PipeEnds,
        p: &mut Promises,
        fx: &mut Agenda,
        look: PipeLook,
    )
        requires promise_room { HasPromiseRoom 3 p.old }
        requires counted { self.old.unsettled ≤ length p.old.table.entries }
        requires effect_room { HasEffectRoom 5 fx.old }
        ensures row { acts_of self.new p.new fx.new
            ≡ pipe_operation me ends.now (look_of look) (acts_of self.old p.old fx.old) }
        ensures counted { self.new.unsettled ≤ length p.new.table.entries }
        ensures promise_room { p.new.room ≡ p.old.room }
        ensures effect_room { fx.new.capacity ≡ fx.old.capacity }
    {
        let next = self.look_directly(me, ends, p, fx, look);
        self.cause(me, next, fx);
    }

    /// Performs an operation in which the pipe, whose number is `me`, looks at its two ends. No more writes are
    /// unsettled than there are promises.
    pub fn perform_with_ends(
        &mut self,
        me: PipeId,
        ends: &PipeEnds,
        p: &mut Promises,
        fx: &mut Agenda,
        operation: &mut PipeOperation,
    )
        requires looking { looks operation.old ≡ true }
        requires room { HasRoomFor operation.old p.old }
        requires counted { self.old.unsettled ≤ length p.old.table.entries }
        requires effect_room { HasEffectRoom 5 fx.old }
        ensures row { acts_of self.new p.new fx.new
            ≡ pipe_operation me ends.now operation.old (acts_of self.old p.old fx.old) }
        ensures counted { self.new.unsettled ≤ length p.new.table.entries }
        ensures promise_room { p.new.room ≡ p.old.room }
        ensures effect_room { fx.new.capacity ≡ fx.old.capacity }
    {
        match operation {
            PipeOperation::Look => self.perform_look(me, ends, p, fx, PipeLook::Look),
            PipeOperation::LookReady => self.perform_look(me, ends, p, fx, PipeLook::Ready),
            PipeOperation::GoOn => self.perform_look(me, ends, p, fx, PipeLook::GoOn),
            PipeOperation::WriteEnded => self.perform_look(me, ends, p, fx, PipeLook::WriteEnded),
            PipeOperation::Abort(reason) => self.perform_abort(me, ends, p, fx, reason),
            _ => unreachable!(),
        }
    }

    /// Performs an operation in which the pipe doesn't look at its two ends, whatever they are.
    #[inline(always)]
    pub fn perform_without_ends(
        &mut self,
        me: PipeId,
        p: &mut Promises,
        fx: &mut Agenda,
        operation: &mut PipeOperation,
    )
        requires unlooking { looks operation.old ≡ false }
        requires room { HasRoomFor operation.old p.old }
        requires counted { self.old.unsettled ≤ length p.old.table.entries }
        requires effect_room { HasEffectRoom 5 fx.old }
        ensures row { (ends : Ends) → acts_of self.new p.new fx.new
            ≡ pipe_operation me ends operation.old (acts_of self.old p.old fx.old) }
        ensures counted { self.new.unsettled ≤ length p.new.table.entries }
        ensures promise_room { p.new.room ≡ p.old.room }
        ensures effect_room { fx.new.capacity ≡ fx.old.capacity }
    {
        match operation {
            PipeOperation::KeepChunk(chunk) => self.keep_chunk(me, p, taken(chunk)),
            PipeOperation::WriteChunk => self.write_chunk(me, p, fx),
            _ => self.perform_uncommon(me, p, fx, operation),
        }
    }

    /// The abort by the pipe's signal, which the way of a chunk doesn't meet, apart, so that `perform_with_ends` has
    /// no locals for it.
    #[cold]
    #[inline(never)]
    fn perform_abort(
        &mut self,
        me: PipeId,
        ends: &PipeEnds,
        p: &mut Promises,
        fx: &mut Agenda,
        reason: &Plain,
    )
        requires room { HasRoomFor (operations.Abort reason.now) p.old }
        requires counted { self.old.unsettled ≤ length p.old.table.entries }
        requires effect_room { HasEffectRoom 5 fx.old }
        ensures row { acts_of self.new p.new fx.new
            ≡ pipe_operation me ends.now (operations.Abort reason.now) (acts_of self.old p.old fx.old) }
        ensures counted { self.new.unsettled ≤ length p.new.table.entries }
        ensures promise_room { p.new.room ≡ p.old.room }
        ensures effect_room { fx.new.capacity ≡ fx.old.capacity }
    {
        self.abort(me, ends, p, fx, *reason);
    }

    /// Performs an operation that looks at no ends and that a chunk's way through a pipe doesn't meet: apart, as in
    /// `perform_without_ends`.
    #[cold]
    #[inline(never)]
    fn perform_uncommon(
        &mut self,
        me: PipeId,
        p: &mut Promises,
        fx: &mut Agenda,
        operation: &mut PipeOperation,
    )
        requires unlooking { looks operation.old ≡ false }
        requires uncommon { is_common operation.old ≡ false }
        requires room { HasRoomFor operation.old p.old }
        requires counted { self.old.unsettled ≤ length p.old.table.entries }
        requires effect_room { HasEffectRoom 5 fx.old }
        ensures row { (ends : Ends) → acts_of self.new p.new fx.new
            ≡ pipe_operation me ends operation.old (acts_of self.old p.old fx.old) }
        ensures counted { self.new.unsettled ≤ length p.new.table.entries }
        ensures promise_room { p.new.room ≡ p.old.room }
        ensures effect_room { fx.new.capacity ≡ fx.old.capacity }
    {
        match operation {
            PipeOperation::ReadEnded => self.read_ended(me, p),
            PipeOperation::ActionSettled(outcome) => self.action_settled(me, fx, *outcome),
            PipeOperation::PartSettled(outcome) => self.part_settled(p, *outcome),
            PipeOperation::NoParts => self.no_parts(p),
            PipeOperation::Look
            | PipeOperation::LookReady
            | PipeOperation::KeepChunk(_)
            | PipeOperation::WriteChunk
            | PipeOperation::GoOn
            | PipeOperation::WriteEnded
            | PipeOperation::Abort(_) => unreachable!(),
        }
    }
}
