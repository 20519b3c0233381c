//! A stage at work.
ghost use Rattle.std.specs.Prelude.{◌≡◌, ◌+◌, ◌<◌, ◌^◌, [], true, false, IfOk, OnErr, OnOk, length};
ghost use Rattle.ws_flow.specs.declared.plan.Ending.TheVariants.{Fine};
ghost use Rattle.ws_flow.specs.Stages.{HasLength, is_in_range, machine};
ghost use Rattle.ws_stages.specs.Answers.{Answers, Flushed};
ghost use Rattle.ws_flow.specs.Parts.{Over};
ghost use Rattle.ws_stages.specs.State.{IsLive, begun, is_live, kept_in};

use crate::cut::Cut;
use crate::kinds::{copy_of, finish, take};
use std::alloc::Global;
use std::marker::Model;
use std::mem;
use ws_flow::{Ending, Stage};
use ws_value::{Chunk, NoMemory};

/// What a stage answers: the chunks that come out, and how it ended with them.
#[derive(Drop)]
pub struct Pushed {
    pub chunks: Vec<Chunk>,
    pub ending: Ending,
}

/// A stage with what it keeps between chunks. After an ending that isn't fine, a flush, or want of memory it is asked
/// nothing more; one that found no memory ended fine.
pub struct Work {
    stage: Stage,
    cut: Cut,
    pushes: u64,
    stopped: bool,
}

// Called wherever a stage at work may be dropped; a derived drop would be written out there, field by field.
impl Drop for Work {
    fn drop(self) {
        let Work {
            stage: _,
            cut: _,
            pushes: _,
            stopped: _,
        } = self;
    }
}

impl Model for Work {
    ghost use Rattle.ws_stages.specs.State.{State};

    ghost Value = { State };

    ghost use Rattle.ws_stages.specs.Shown.{shown, IsSound};

    ghost view = { shown };

    ghost invariant = { IsSound };
}

impl Work {
    /// The stage with none of its input.
    pub fn make(alloc: Global, stage: &Stage) -> Result<Work, NoMemory>
        requires { is_in_range stage.now ≡ true }
        ensures { IfOk result (λ work. work ≡ begun stage.now) }
    {
        Ok(Work {
            stage: copy_of(alloc, stage)?,
            cut: Cut {
                alloc,
                rest: Vec::new(alloc),
                bytes: 0,
                count: 0,
                chunks: Vec::new(alloc),
                ending: Ending::Fine,
            },
            pushes: 0,
            stopped: false,
        })
    }

    /// Whether the stage may be asked for more.
    pub fn is_live(&self) -> bool
        ensures { result ≡ is_live self.now.work }
    {
        !self.stopped
    }

    /// A chunk of the stage's input, and what comes out. It costs no more than the chunk's bytes and what comes out.
    pub fn push(&mut self, chunk: Chunk) -> Result<Pushed, NoMemory>
        requires live { IsLive self.old.work }
        requires count { self.old.pushes < 2 ^ 62 }
        requires length { HasLength self.old.stage (length chunk) }
        ensures pushed { IfOk result (λ pushed.
            Answers pushed self.new.work ((machine self.old.stage).push (kept_in self.old.work) chunk)) }
        ensures wanting { OnErr result (self.new.work ≡ Over Fine) }
        ensures stage { self.new.stage ≡ self.old.stage }
        ensures count { OnOk result (self.new.pushes ≡ self.old.pushes + 1) }
    {
        self.stopped = true;
        if take(&self.stage, &mut self.cut, chunk.as_slice()).is_err() {
            self.cut.ending = Ending::Fine;
            return Err(NoMemory);
        }
        self.pushes += 1;
        let ending = self.cut.ending;
        let chunks = mem::replace(&mut self.cut.chunks, Vec::new(self.cut.alloc));
        self.stopped = matches!(ending, Ending::Bad { .. });
        Ok(Pushed { chunks, ending })
    }

    /// Takes back a list that it answered, once it is empty: what comes out next lies in it, so that no list is made
    /// for each chunk.
    pub fn take_back(&mut self, list: Vec<Chunk>)
        requires { list.items ≡ [] }
        ensures { self.new ≡ self.old }
    {
        self.cut.chunks = list;
    }

    /// The end of the stage's input, and what it adds.
    pub fn flush(&mut self) -> Result<Pushed, NoMemory>
        requires live { IsLive self.old.work }
        ensures flushed { IfOk result (λ pushed.
            Flushed pushed self.new.work ((machine self.old.stage).flush (kept_in self.old.work))) }
        ensures wanting { OnErr result (self.new.work ≡ Over Fine) }
        ensures stage { self.new.stage ≡ self.old.stage }
        ensures count { self.new.pushes ≡ self.old.pushes }
    {
        self.stopped = true;
        if finish(&self.stage, &mut self.cut).is_err() {
            self.cut.ending = Ending::Fine;
            return Err(NoMemory);
        }
        let chunks = mem::replace(&mut self.cut.chunks, Vec::new(self.cut.alloc));
        let ending = self.cut.ending;
        Ok(Pushed { chunks, ending })
    }
}
