//! The ends of edges meet at the end of a run, and tell what went over them where they kept the marks of it.
ghost use Rattle.std.specs.Prelude.{◌≡◌, ◌+◌, ◌<◌, ◌≤◌, ◌&&◌, ◌++◌, [], true, All, IfSome, Some, is_some, length, vec_capacity};
ghost use Rattle.ws_node.specs.Nodes.{AllHaveMet, AreEnds, AreJoined, HaveMet};
ghost use Rattle.ws_runner.specs.Meeting.{AreTraced, IsTrace, TracesAre, listed};

use crate::trace::EdgeTrace;
use ws_edge::End;
use ws_node::Middle;
use ws_port::meet;

/// The two ends of an edge meet. Where both kept the marks of what they posted, there is a trace of it.
fn meet_ends(upper: End, lower: End) -> Option<EdgeTrace>
    requires { AreEnds upper lower }
    ensures met { HaveMet (Some upper) (Some lower) }
    ensures trace { IfSome result (IsTrace (Some upper) (Some lower)) }
    ensures some { is_some result ≡ (upper.traced && lower.traced) }
{
    let (above, down, sent_down) = upper.parts();
    let (below, up, sent_up) = lower.parts();
    let left_below = meet(down, below).count;
    let left_above = meet(up, above).count;
    let Some(down) = sent_down else {
        return None;
    };
    let Some(up) = sent_up else {
        return None;
    };
    Some(EdgeTrace {
        down_taken: (down.len() - left_below) as u64,
        up_taken: (up.len() - left_above) as u64,
        down,
        up,
    })
}

/// The trace of an edge stands behind the others, where there is one.
fn keep(edges: &mut Vec<EdgeTrace>, edge: Option<EdgeTrace>)
    requires { is_some edge ≡ true → length edges.old.items < vec_capacity edges.old }
    ensures items { edges.new.items ≡ edges.old.items ++ listed edge }
    ensures capacity { vec_capacity edges.new ≡ vec_capacity edges.old }
{
    if let Some(edge) = edge {
        edges.push_reserved(edge);
    }
}

/// The edges of the nodes meet, from the upper end of the first one on. Where their ends kept the marks of what they
/// posted, there is a trace of each.
pub fn meet_all(
    first: End,
    middles: Vec<Middle>,
    last: End,
    edges: Vec<EdgeTrace>,
) -> Vec<EdgeTrace>
    requires joined { AreJoined (Some first) middles.items (Some last) }
    requires traced { All (AreTraced first.traced) middles.items × (last.traced ≡ first.traced) }
    requires none { edges.items ≡ [] }
    requires room { first.traced ≡ true → length middles.items + 1 ≤ vec_capacity edges }
    ensures met { AllHaveMet (Some first) middles.items (Some last) }
    ensures traces { TracesAre first.traced (Some first) middles.items (Some last) result.items }
{
    let mut edges = edges;
    let mut upper = first;
    for middle in middles {
        let (lower, next) = middle.ends();
        let edge = meet_ends(upper, lower);
        keep(&mut edges, edge);
        upper = next;
    }
    let edge = meet_ends(upper, last);
    keep(&mut edges, edge);
    edges
}
