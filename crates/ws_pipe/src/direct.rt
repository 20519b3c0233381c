//! The way of a chunk, where what the pipe causes is told by the result.
ghost use Rattle.std.specs.Prelude.{◌≡◌, ◌≤◌, length};
ghost use Rattle.ws_promise.specs.Seen.{HasPromiseRoom, SeenAgenda};
ghost use Rattle.ws_pipe.specs.Seen.{acts_of, writing};
ghost use Rattle.ws_steps.specs.Pipes as rows;

use crate::Pipe;
use ws_promise::Promises;
use ws_steps::Phase;
use ws_value::{PipeId, PromiseId, StreamId, Value};

/// What a pipe does next that flows.
#[derive(Clone, Copy)]
pub enum PipeNext {
    Nothing,
    /// It reads this stream.
    Read(StreamId),
    /// It waits for this promise, that its writer is ready.
    Wait(PromiseId),
}

/// Why a pipe looks at its two ends.
#[derive(Clone, Copy)]
pub enum PipeLook {
    /// It begins, or its read has ended.
    Look,
    /// It goes on.
    GoOn,
    /// Its writer is ready.
    Ready,
    /// A write of it has settled.
    WriteEnded,
}

impl Pipe {
    /// Takes the chunk that it holds, and writes it unless the action began or the pipe is over: the chunk that is to
    /// be written, with the promise of the write, to which it is to react before it goes on.
    #[inline(always)]
    #[tactic(auto, using(crate::proofs::Counts::fresh_length), unfolding(ws_steps::specs::Pipes::write_chunk))]
    pub fn write_directly(&mut self, p: &mut Promises) -> Option<(Value, PromiseId)>
        requires counted { self.old.unsettled ≤ length p.old.table.entries }
        requires promise_room { HasPromiseRoom 1 p.old }
        ensures row { (me : PipeId) (fx : SeenAgenda) → rows.write_chunk me (acts_of self.old p.old fx)
            ≡ writing me result (acts_of self.new p.new fx) }
        ensures promise_room { p.new.room ≡ p.old.room }
    {
        let chunk = self.take_held()?;
        match self.phase {
            Phase::Flowing | Phase::Waiting => {
                let promise = p.fresh();
                // There are no more writes than promises, whose numbers fit.
                let next = p.next_id().0;
                prove!(self.unsettled < next);
                self.add_write();
                Some((chunk, promise))
            }
            Phase::Acting | Phase::Over => None,
        }
    }
}
