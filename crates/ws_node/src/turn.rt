//! A turn of a node, and what it answers.
ghost use Rattle.std.specs.Prelude.{◌≡◌, false, if◌then◌else◌};
ghost use Rattle.ws_io.specs.Moment.{moment};
ghost use Rattle.ws_node.specs.declared.turn.Turn.TheVariants.{Ended, Worked};
ghost use Rattle.ws_node.specs.Node.{is_over};
ghost use Rattle.ws_node.specs.Past.{Driven};
ghost use Rattle.ws_node.specs.Turns.{PostsHeard, TurnIs, Turned};
ghost use Rattle.ws_node.specs.Went.{Went};

use crate::node::Node;
use std::alloc::Global;
use ws_io::{Sink, Source};
use ws_realm::Why;

/// How a turn of a node ended.
#[derive(Clone, Copy, PartialEq, Eq)]
pub enum Turn {
    /// A message was taken or posted, a job was performed, or an event was heard of.
    Worked,
    /// There was nothing to do.
    Idle,
    /// Each pipe has settled, the host has heard of everything, and nothing waits to be posted.
    Ended,
    /// Memory was wanting, in this turn or an earlier one.
    NoMemory,
    /// The realm has performed 2^62 calls and jobs, and performs no more.
    Spent,
}

impl Node {
    /// How a turn ended in which something was done.
    fn ended_or_worked(&self) -> Turn
        ensures { result ≡ (if is_over self.now then Ended else Worked) }
    {
        if self.is_over() {
            Turn::Ended
        } else {
            Turn::Worked
        }
    }

    /// What is done in a turn.
    fn take_turn<S: Source, K: Sink>(
        &mut self,
        alloc: Global,
        input: &mut S,
        output: &mut K,
    ) -> Turn
        requires { Driven self.old }
        ensures driven { Driven self.new }
        ensures went { Went self.old self.new
            (moment (S.faults input.old) (S.feed input.old) (K.faults output.old) (K.finished output.old))
            (moment (S.faults input.new) (S.feed input.new) (K.faults output.new) (K.finished output.new))
            (K.got output.old) (K.got output.new) }
        ensures turn { Turned result self.old self.new }
        ensures posts { PostsHeard self.old self.new }
    {
        match self.core.stopped {
            Some(Why::NoMemory) => return Turn::NoMemory,
            Some(Why::Spent) => return Turn::Spent,
            None => {}
        }
        let posted = self.post();
        if posted {
            return self.ended_or_worked();
        }
        let above = self.take_above();
        let below = self.take_below();
        let busy = self.core.is_busy();
        let some = above | below | busy;
        self.go_on(alloc, input, output);
        match self.core.stopped {
            Some(Why::NoMemory) => {
                // Two chunks and an end at most are under way on an edge, so the row of eight has room for the error.
                self.tell();
                Turn::NoMemory
            }
            Some(Why::Spent) => Turn::Spent,
            None => {
                if self.is_over() {
                    Turn::Ended
                } else if some {
                    Turn::Worked
                } else {
                    Turn::Idle
                }
            }
        }
    }
    /// One turn: the node posts what waits at its edges. Where nothing was posted it takes at most one message from
    /// each, and performs at most 100,000 jobs and hears of at most 64 events, with what it does at each, until a
    /// message waits to be posted: so its neighbours can be woken before it goes on. At the end it forgets the promises
    /// that nobody needs. One that has stopped does nothing; one that finds no memory tells its neighbours so.
    pub fn turn<S: Source, K: Sink>(&mut self, alloc: Global, input: &mut S, output: &mut K) -> Turn
        requires { Driven self.old }
        ensures driven { Driven self.new }
        ensures went { Went self.old self.new
            (moment (S.faults input.old) (S.feed input.old) (K.faults output.old) (K.finished output.old))
            (moment (S.faults input.new) (S.feed input.new) (K.faults output.new) (K.finished output.new))
            (K.got output.old) (K.got output.new) }
        ensures turn { TurnIs result self.old self.new }
        ensures posts { PostsHeard self.old self.new }
    {
        let turn = self.take_turn(alloc, input, output);
        if self.core.stopped.is_some() {
            return turn;
        }
        self.core.realm.tidy();
        turn
    }
}
