//! The node of a run with workers that feeds the output.
ghost use Rattle.std.specs.Prelude.{◌≡◌, IfOk, None, Some, length};
ghost use Rattle.ws_io.specs.Moment.{moment};
ghost use Rattle.ws_node.specs.Ends.{EndsAs};
ghost use Rattle.ws_node.specs.Node.{sent_at};
ghost use Rattle.ws_node.specs.Nodes.{TailGoes};
ghost use Rattle.ws_node.specs.Opening.{IsAccepted};
ghost use Rattle.ws_node.specs.Past.{Driven, IsNew, IsUnused};
ghost use Rattle.ws_node.specs.Shares.{tail_of};
ghost use Rattle.ws_node.specs.Turns.{PostsHeard, TurnIs};

use crate::ends::lower_end;
use crate::making::Share;
use crate::node::Node;
use crate::turn::Turn;
use std::alloc::Global;
use std::marker::Model;
use ws_edge::{End, Nothing};
use ws_io::{Sink, Status};
use ws_realm::NoMemory;
use ws_stages::Plan;

/// The last node of a run with workers: it writes what comes down its edge to the output. It has no stages.
#[derive(Drop)]
pub struct Tail {
    node: Node,
}

impl Model for Tail {
    ghost use Rattle.std.specs.Prelude.{◌≡◌, true, false};
    ghost use Rattle.ws_node.specs.declared.node.Node.{Node};
    ghost use Rattle.ws_node.specs.Node.{feeds_edge, is_edge};
    ghost use Rattle.ws_node.specs.Past.{Driven};

    ghost Value = { Node };

    ghost view = { λ t. t.node };

    ghost invariant = { λ t. Driven t.node × (is_edge t.node.entrance.input ≡ true)
        × (feeds_edge t.node.exit.output ≡ false) };
}

impl Tail {
    /// The last node of a run of this plan, at the lower end of an edge.
    pub fn make(alloc: Global, plan: &Plan, above: End) -> Result<Tail, NoMemory>
        requires accepted { IsAccepted plan.now }
        requires unused { IsUnused (Some above) }
        ensures fresh { IfOk result (IsNew (tail_of plan.now) (length plan.now.stages.items) plan.now.abort_after) }
        ensures end { IfOk result (λ tail. tail.entrance.above ≡ Some above) }
    {
        let first = plan.stages.len() as u16;
        Ok(Tail {
            node: Node::make(alloc, plan, Share::None, first, Some(above), None)?,
        })
    }

    /// One turn.
    pub fn turn<K: Sink>(&mut self, alloc: Global, output: &mut K) -> Turn
        ensures went { TailGoes (moment 0 None (K.faults output.old) (K.finished output.old))
            (moment 0 None (K.faults output.new) (K.finished output.new))
            (K.got output.old) (K.got output.new) self.old self.new }
        ensures turn { TurnIs result self.old self.new }
        ensures posts { PostsHeard self.old self.new }
    {
        self.node.turn(alloc, &mut Nothing, output)
    }

    /// Writes what the output holds back. Where that fails, the output takes no more.
    pub fn empty<K: Sink>(&mut self, output: &mut K)
        ensures { TailGoes (moment 0 None (K.faults output.old) (K.finished output.old))
            (moment 0 None (K.faults output.new) (K.finished output.new))
            (K.got output.old) (K.got output.new) self.old self.new }
    {
        self.node.empty(output)
    }

    /// How many messages it has posted.
    pub fn posted(&self) -> u64
        ensures { result ≡ length (sent_at self.now.entrance.above) }
    {
        self.node.posted_above()
    }

    /// How the run ends, by how its pipe into the sink settled: none says that it is pending, and that memory wasn't
    /// wanting. An output that was finished has all that came out, so that is the end whatever is wanting afterwards.
    pub fn status(&self) -> Option<Status>
        ensures { EndsAs result self.now }
    {
        self.node.status()
    }

    /// The end of its edge.
    pub fn end(self) -> End
        ensures end { self.entrance.above ≡ Some result }
        ensures driven { Driven self }
    {
        let Tail { node } = self;
        let Node {
            core: _,
            entrance,
            exit: _,
        } = node;
        lower_end(entrance)
    }
}
