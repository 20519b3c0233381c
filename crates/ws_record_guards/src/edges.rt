//! Ends of edges between nodes.
ghost use Rattle.std.specs.Prelude.{◌≡◌, ◌↔◌, ◌++◌, ◌∷◌, ◌<◌, ◌≤◌, [], false, IsTrue, OnErr, OnOk, length};
ghost use Rattle.ws_edge.specs.Edge.{FindsFull, PostsFirst, given, last_error};
ghost use Rattle.ws_steps.specs.Queues.{is_empty};

use ws_edge::{End, Posting};
use ws_value::{Message, NoMemory, Plain};

/// A message waits, behind those that wait.
pub fn push(end: &mut End, m: Message) -> Result<(), NoMemory>
    ensures waits { OnOk result (end.new ≡ record end.old { waiting = end.old.waiting ++ m ∷ [] }) }
    ensures refused { OnErr result (end.new ≡ end.old) }
{
    end.push(m)
}

/// Posts what waits, in order, until nothing waits or the row is full.
pub fn post(end: &mut End) -> Posting
    ensures first { PostsFirst end.old end.new }
    ensures given { given end.new ≡ given end.old }
    ensures row { end.new.to.row ≡ end.old.to.row }
    ensures from { end.new.from ≡ end.old.from }
    ensures traced { end.new.traced ≡ end.old.traced }
    ensures looked { end.old.to.looks ≤ end.new.to.looks }
    ensures some { IsTrue result.some ↔ (length end.old.to.sent < length end.new.to.sent) }
    ensures all { result.all ≡ is_empty end.new.waiting }
    ensures full { result.all ≡ false → FindsFull end.old.to end.new.to }
{
    end.post()
}

/// An error waits behind all that was given, unless a close or an error was.
pub fn tell_last(end: &mut End, reason: Plain)
    ensures { end.new ≡ record end.old { waiting = end.old.waiting ++ last_error reason end.old } }
{
    end.tell_last(reason);
}
