//! The node of a run that one of its workers has.
ghost use Rattle.std.specs.Prelude.{◌≡◌, IfOk, None, Some, length};
ghost use Rattle.ws_node.specs.Node.{sent_at};
ghost use Rattle.ws_node.specs.Nodes.{MiddleGoes};
ghost use Rattle.ws_node.specs.Opening.{IsAccepted};
ghost use Rattle.ws_node.specs.Past.{Driven, IsNew, IsUnused};
ghost use Rattle.ws_node.specs.Shares.{middle_of, stages_ahead_of};
ghost use Rattle.ws_node.specs.Turns.{PostsHeard, TurnIs};

use crate::ends::{lower_end, upper_end};
use crate::making::{Share, stages_ahead_of};
use crate::node::Node;
use crate::turn::Turn;
use std::alloc::Global;
use std::marker::Model;
use ws_edge::{End, Nothing};
use ws_realm::NoMemory;
use ws_stages::Plan;

/// A node with the stages of one worker, between two edges: it has neither the input nor the output.
#[derive(Drop)]
pub struct Middle {
    node: Node,
}

impl Model for Middle {
    ghost use Rattle.std.specs.Prelude.{◌≡◌, true};
    ghost use Rattle.ws_node.specs.declared.node.Node.{Node};
    ghost use Rattle.ws_node.specs.Node.{feeds_edge, is_edge};
    ghost use Rattle.ws_node.specs.Past.{Driven};

    ghost Value = { Node };

    ghost view = { λ m. m.node };

    ghost invariant = { λ m. Driven m.node × (is_edge m.node.entrance.input ≡ true)
        × (feeds_edge m.node.exit.output ≡ true) };
}

impl Middle {
    /// The node with this worker's stages of a plan, at the lower end of one edge and the upper end of another.
    pub fn make(
        alloc: Global,
        plan: &Plan,
        worker: i64,
        above: End,
        below: End,
    ) -> Result<Middle, NoMemory>
        requires accepted { IsAccepted plan.now }
        requires above { IsUnused (Some above) }
        requires below { IsUnused (Some below) }
        ensures fresh { IfOk result (IsNew (middle_of worker plan.now) (stages_ahead_of worker plan.now) None) }
        ensures ends { IfOk result (λ middle. (middle.entrance.above ≡ Some above)
            × (middle.exit.below ≡ Some below)) }
    {
        let first = stages_ahead_of(&plan.stages, worker);
        Ok(Middle {
            node: Node::make(
                alloc,
                plan,
                Share::Of(worker),
                first,
                Some(above),
                Some(below),
            )?,
        })
    }

    /// One turn.
    pub fn turn(&mut self, alloc: Global) -> Turn
        ensures went { MiddleGoes self.old self.new }
        ensures turn { TurnIs result self.old self.new }
        ensures posts { PostsHeard self.old self.new }
    {
        self.node.turn(alloc, &mut Nothing, &mut Nothing)
    }

    /// How many messages it has posted to the node above, and to the one below.
    pub fn posted(&self) -> (u64, u64)
        ensures above { result.0 ≡ length (sent_at self.now.entrance.above) }
        ensures below { result.1 ≡ length (sent_at self.now.exit.below) }
    {
        (self.node.posted_above(), self.node.posted_below())
    }

    /// The ends of its edges: that of the edge above, and that of the edge below.
    pub fn ends(self) -> (End, End)
        ensures above { self.entrance.above ≡ Some result.0 }
        ensures below { self.exit.below ≡ Some result.1 }
        ensures driven { Driven self }
    {
        let Middle { node } = self;
        let Node {
            core: _,
            entrance,
            exit,
        } = node;
        (lower_end(entrance), upper_end(exit))
    }
}
