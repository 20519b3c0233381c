//! A run with workers: its nodes, and the edges between them.
ghost use Rattle.std.specs.Prelude.{◌≡◌, ◌+◌, ◌≤◌, [], true, All, IfOk, Option, Some, length, nat_abs, vec_capacity};
ghost use Rattle.ws_edge.specs.Edge.{AtEdge};
ghost use Rattle.ws_node.specs.Nodes.{AllHaveMet, AreEnds, AreJoined, AreNew, AreNewFrom, JoinedAt, nodes};
ghost use Rattle.ws_node.specs.Opening.{IsAccepted};
ghost use Rattle.ws_node.specs.Past.{Driven, IsUnused};
ghost use Rattle.ws_runner.specs.Meeting.{AllTraced, AreTraced, TracesAre, is_traced};

use crate::meeting::meet_all;
use crate::trace::EdgeTrace;
use std::alloc::Global;
use ws_edge::End;
use ws_node::{Head, Middle, Tail};
use ws_port::pair;
use ws_realm::NoMemory;
use ws_stages::Plan;

/// The nodes of a run with workers, in their order.
#[derive(Drop)]
pub struct Chain {
    pub head: Head,
    pub middles: Vec<Middle>,
    pub tail: Tail,
}

/// The two ends of a new edge: the upper one, and the lower one.
fn edge(alloc: Global, trace: bool) -> Result<(End, End), NoMemory>
    ensures unused { IfOk result (λ ends. IsUnused (Some ends.0) × IsUnused (Some ends.1)) }
    ensures joined { IfOk result (λ ends. AreEnds ends.0 ends.1) }
    ensures traced { IfOk result (λ ends. (ends.0.traced ≡ trace) × (ends.1.traced ≡ trace)) }
{
    let (down, below) = pair(alloc)?;
    let (up, above) = pair(alloc)?;
    let upper = End::make(alloc, above, down, trace)?;
    let lower = End::make(alloc, below, up, trace)?;
    Ok((upper, lower))
}

/// A node for each worker of a plan, from the lower end of one edge on, and the lower end of the last of their edges.
fn make_middles(
    alloc: Global,
    plan: &Plan,
    first: End,
    trace: bool,
) -> Result<(Vec<Middle>, End), NoMemory>
    requires accepted { IsAccepted plan.now }
    requires unused { IsUnused (Some first) }
    requires traced { first.traced ≡ trace }
    ensures fresh { IfOk result (λ made. AreNewFrom 1 plan.now made.0.items) }
    ensures many { IfOk result (λ made. length made.0.items ≡ nat_abs plan.now.workers) }
    ensures unused { IfOk result (λ made. IsUnused (Some made.1)) }
    ensures joined { IfOk result (λ made. (upper : Option AtEdge) → JoinedAt upper (Some first)
        → AreJoined upper made.0.items (Some made.1)) }
    ensures traced { IfOk result (λ made. All (AreTraced trace) made.0.items × (made.1.traced ≡ trace)) }
{
    let mut middles = Vec::new(alloc);
    let mut last = first;
    for number in 0..plan.workers.unsigned_abs() {
        let (upper, lower) = edge(alloc, trace)?;
        middles.push(Middle::make(alloc, plan, (number + 1) as i64, last, upper)?)?;
        last = lower;
    }
    Ok((middles, last))
}

impl Chain {
    /// The nodes of a run of this plan, with all their edges, whose ends keep marks in a run that is traced.
    pub fn make(alloc: Global, plan: &Plan, trace: bool) -> Result<Chain, NoMemory>
        requires { IsAccepted plan.now }
        ensures fresh { IfOk result (λ chain. AreNew plan.now (nodes chain.head chain.middles.items chain.tail)) }
        ensures traced { IfOk result (λ chain. AllTraced trace (nodes chain.head chain.middles.items chain.tail)) }
    {
        let (upper, lower) = edge(alloc, trace)?;
        let head = Head::make(alloc, plan, upper)?;
        let (middles, last) = make_middles(alloc, plan, lower, trace)?;
        let tail = Tail::make(alloc, plan, last)?;
        Ok(Chain {
            head,
            middles,
            tail,
        })
    }

    /// All edges meet. Where their ends kept marks, there is a trace of each.
    pub fn meet(self, edges: Vec<EdgeTrace>) -> Vec<EdgeTrace>
        requires joined { AreJoined self.head.exit.below self.middles.items self.tail.entrance.above }
        requires traced { AllTraced (is_traced self.head.exit.below) (nodes self.head self.middles.items self.tail) }
        requires none { edges.items ≡ [] }
        requires room { is_traced self.head.exit.below ≡ true → length self.middles.items + 1 ≤ vec_capacity edges }
        ensures met { AllHaveMet self.head.exit.below self.middles.items self.tail.entrance.above }
        ensures traces { TracesAre (is_traced self.head.exit.below) self.head.exit.below self.middles.items
            self.tail.entrance.above result.items }
        ensures head { Driven self.head }
        ensures tail { Driven self.tail }
    {
        let Chain {
            head,
            middles,
            tail,
        } = self;
        meet_all(head.end(), middles, tail.end(), edges)
    }
}
