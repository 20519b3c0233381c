//! How a pipe reads and writes.
ghost use Rattle.std.specs.Prelude.{◌≡◌, ◌+◌, ◌-◌, ◌≤◌, ◌^◌, ◌<◌, None, Some, false, length};
ghost use Rattle.ws_pipe.specs.Seen.{acts_of, taken};
ghost use Rattle.ws_promise.specs.Seen.{HasEffectRoom, HasJobRoom, HasPromiseRoom, SeenAgenda};
ghost use Rattle.ws_steps.specs.Pipes as rows;

use crate::Pipe;
use crate::pipe::reacts;
use ws_promise::{Agenda, Promises};
use ws_steps::{Effect, Micro, PipeOperation, Step, WritableOperation};
use ws_value::{PipeId, Value};

impl Pipe {
    /// Holds another chunk, and lets the one go that it held.
    #[inline(never)]
    fn hold_another(&mut self, chunk: Value)
        ensures { self.new ≡ record self.old { held = Some chunk } }
    {
        self.held = Some(chunk);
    }

    /// The chunk steps of its read request.
    #[inline(always)]
    #[tactic(auto, unfolding(ws_steps::specs::Pipes::keep_chunk))]
    pub fn keep_chunk(&mut self, me: PipeId, p: &mut Promises, chunk: Value)
        requires job_room { HasJobRoom 1 p.old }
        ensures row { (fx : SeenAgenda) → acts_of self.new p.new fx
            ≡ rows.keep_chunk me chunk (acts_of self.old p.old fx) }
        ensures promise_room { p.new.room ≡ p.old.room }
    {
        match self.held {
            Some(_) => self.hold_another(chunk),
            None => self.held = Some(chunk),
        }
        p.micro(Micro::PipeWrite(me));
    }

    /// The close steps and the error steps of its read request.
    #[tactic(auto, unfolding(ws_steps::specs::Pipes::read_ended))]
    pub fn read_ended(&mut self, me: PipeId, p: &mut Promises)
        requires job_room { HasJobRoom 1 p.old }
        ensures row { (fx : SeenAgenda) → acts_of self.new p.new fx
            ≡ rows.read_ended me (acts_of self.old p.old fx) }
        ensures promise_room { p.new.room ≡ p.old.room }
    {
        self.reading = false;
        p.micro(Micro::PipeLook(me));
    }

    /// One write more is unsettled.
    pub(crate) fn add_write(&mut self)
        requires { self.old.unsettled + 1 < 2 ^ 128 }
        ensures { self.new ≡ record self.old { unsettled = self.old.unsettled + 1 } }
    {
        self.unsettled += 1;
    }

    /// Takes the chunk that is held. No read is under way then.
    pub(crate) fn take_held(&mut self) -> Option<Value>
        ensures chunk { result ≡ self.old.held }
        ensures slots { self.new ≡ taken self.old self.old.held }
    {
        let chunk = self.held.take()?;
        self.reading = false;
        Some(chunk)
    }

    /// Takes the chunk that it holds, and writes it unless the action began or the pipe is over.
    #[tactic(auto, unfolding(ws_steps::specs::Pipes::write_chunk))]
    pub fn write_chunk(&mut self, me: PipeId, p: &mut Promises, fx: &mut Agenda)
        requires counted { self.old.unsettled ≤ length p.old.table.entries }
        requires promise_room { HasPromiseRoom 1 p.old }
        requires effect_room { HasEffectRoom 3 fx.old }
        ensures row { acts_of self.new p.new fx.new ≡ rows.write_chunk me (acts_of self.old p.old fx.old) }
        ensures promise_room { p.new.room ≡ p.old.room }
        ensures effect_room { fx.new.capacity ≡ fx.old.capacity }
    {
        if let Some((chunk, promise)) = self.write_directly(p) {
            let write = WritableOperation::Write(chunk, promise);
            fx.push(Effect::Writable(self.dest, write));
            fx.push(reacts(promise, Step::PipeWrote(me)));
            fx.push(Effect::Pipe(me, PipeOperation::GoOn));
        }
    }

    pub(crate) fn remove_write(&mut self)
        ensures { self.new ≡ record self.old { unsettled = self.old.unsettled - 1 } }
    {
        self.unsettled = self.unsettled.saturating_sub(1);
    }
}
