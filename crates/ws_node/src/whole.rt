//! The node of a run on one thread.
ghost use Rattle.std.specs.Prelude.{◌≡◌, ◌<◌, ◌^◌, IfOk};
ghost use Rattle.ws_alike.specs.Alike.{kept};
ghost use Rattle.ws_io.specs.Moment.{moment};
ghost use Rattle.ws_node.specs.Ends.{EndsAs};
ghost use Rattle.ws_node.specs.Opening.{IsAccepted};
ghost use Rattle.ws_node.specs.Past.{HasCounts, IsNew};
ghost use Rattle.ws_node.specs.Shares.{whole_of};
ghost use Rattle.ws_node.specs.Turns.{IsAlone, TurnIs};
ghost use Rattle.ws_node.specs.Went.{Went};

use crate::making::Share;
use crate::node::Node;
use crate::turn::Turn;
use std::alloc::Global;
use std::marker::Model;
use ws_io::{Sink, Source, Status};
use ws_realm::NoMemory;
use ws_stages::Plan;

/// The one node of a run: a realm with all streams and pipes of the plan, from the input to the output. It holds
/// neither; each turn is lent both.
#[derive(Drop)]
pub struct Whole {
    node: Node,
}

impl Model for Whole {
    ghost use Rattle.ws_node.specs.declared.node.Node.{Node};
    ghost use Rattle.ws_node.specs.Past.{Driven};
    ghost use Rattle.ws_node.specs.Turns.{IsAlone};

    ghost Value = { Node };

    ghost view = { λ w. w.node };

    ghost invariant = { λ w. Driven w.node × IsAlone w.node };
}

impl Whole {
    /// A node of a run of this plan.
    pub fn make(alloc: Global, plan: &Plan) -> Result<Whole, NoMemory>
        requires { IsAccepted plan.now }
        ensures { IfOk result (IsNew (whole_of plan.now) 0 plan.now.abort_after) }
    {
        Ok(Whole {
            node: Node::make(alloc, plan, Share::All, 0, None, None)?,
        })
    }

    /// One turn: at most 100,000 jobs and 64 events, with what the host does at each.
    pub fn turn<S: Source, K: Sink>(&mut self, alloc: Global, input: &mut S, output: &mut K) -> Turn
        ensures went { Went self.old self.new
            (moment (S.faults input.old) (S.feed input.old) (K.faults output.old) (K.finished output.old))
            (moment (S.faults input.new) (S.feed input.new) (K.faults output.new) (K.finished output.new))
            (K.got output.old) (K.got output.new) }
        ensures turn { TurnIs result self.old self.new }
        ensures counts { HasCounts self.new.entrance }
        ensures alone { IsAlone self.old × IsAlone self.new }
    {
        self.node.turn(alloc, input, output)
    }

    /// How the run ends, by how its pipe into the sink settled: none says that it is pending, and that memory wasn't
    /// wanting. An output that was finished has all that came out, so that is the end whatever is wanting afterwards.
    pub fn status(&self) -> Option<Status>
        ensures ends { EndsAs result self.now }
        ensures alone { IsAlone self.now }
    {
        self.node.status()
    }

    /// How many promises its realm keeps.
    pub fn kept(&self) -> u64
        ensures { result ≡ kept self.now.core.realm.slots }
    {
        self.node.core.realm.kept()
    }
}
