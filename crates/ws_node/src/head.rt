//! The node of a run with workers that is fed by the input.
ghost use Rattle.std.specs.Prelude.{◌≡◌, IfOk, None, Some, length};
ghost use Rattle.ws_io.specs.Moment.{moment};
ghost use Rattle.ws_node.specs.Node.{sent_at};
ghost use Rattle.ws_node.specs.Nodes.{HeadGoes};
ghost use Rattle.ws_node.specs.Opening.{IsAccepted};
ghost use Rattle.ws_node.specs.Past.{Driven, IsNew, IsUnused};
ghost use Rattle.ws_node.specs.Rules.{ReadsNear};
ghost use Rattle.ws_node.specs.Shares.{head_of};
ghost use Rattle.ws_node.specs.Turns.{PostsHeard, TurnIs};

use crate::ends::upper_end;
use crate::making::Share;
use crate::node::Node;
use crate::turn::Turn;
use std::alloc::Global;
use std::marker::Model;
use ws_edge::{End, Nothing};
use ws_io::Source;
use ws_realm::NoMemory;
use ws_stages::Plan;

/// The first node of a run with workers: it reads the input and sends what it read down an edge. It has no stages.
#[derive(Drop)]
pub struct Head {
    node: Node,
}

impl Model for Head {
    ghost use Rattle.ws_node.specs.declared.node.Node.{Node};
    ghost use Rattle.ws_node.specs.Near.{IsHead};
    ghost use Rattle.ws_node.specs.Past.{Driven};

    ghost Value = { Node };

    ghost view = { λ h. h.node };

    ghost invariant = { λ h. Driven h.node × IsHead h.node };
}

impl Head {
    /// The first node of a run of this plan, at the upper end of an edge.
    pub fn make(alloc: Global, plan: &Plan, below: End) -> Result<Head, NoMemory>
        requires accepted { IsAccepted plan.now }
        requires unused { IsUnused (Some below) }
        ensures fresh { IfOk result (IsNew (head_of plan.now) 0 None) }
        ensures end { IfOk result (λ head. head.exit.below ≡ Some below) }
    {
        Ok(Head {
            node: Node::make(alloc, plan, Share::None, 0, None, Some(below))?,
        })
    }

    /// One turn.
    pub fn turn<S: Source>(&mut self, alloc: Global, input: &mut S) -> Turn
        ensures went { HeadGoes (moment (S.faults input.old) (S.feed input.old) 0 None)
            (moment (S.faults input.new) (S.feed input.new) 0 None) self.old self.new }
        ensures turn { TurnIs result self.old self.new }
        ensures posts { PostsHeard self.old self.new }
        ensures near { ReadsNear self.new }
    {
        self.node.turn(alloc, input, &mut Nothing)
    }

    /// How many messages it has posted.
    pub fn posted(&self) -> u64
        ensures { result ≡ length (sent_at self.now.exit.below) }
    {
        self.node.posted_below()
    }

    /// The end of its edge.
    pub fn end(self) -> End
        ensures end { self.exit.below ≡ Some result }
        ensures driven { Driven self }
    {
        let Head { node } = self;
        let Node {
            core: _,
            entrance: _,
            exit,
        } = node;
        upper_end(exit)
    }
}
