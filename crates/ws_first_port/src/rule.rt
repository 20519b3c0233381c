//! The rule of a row: what was sent is what was received and then what the queue holds. Of the structs no value is
//! made.
ghost use Rattle.std.specs.Prelude.{◌≡◌, true, [], ◌∷◌, ◌++◌, ◌≤◌, length};
ghost use Rattle.ws_first_port.specs.Rule.{log, sender_part, receiver_part, both_parts, no_part, Relayed};

use crossbeam_queue::RuledArrayQueue;
use crossbeam_queue::protocol::{Join, Lesson, Outcome, Protocol, Split};
use std::collections::LinkedList;
use ws_value::Message;

/// What a pass knows: which of the two parts it has, what it has pushed and what it has popped.
pub struct Log {
    pub sends: bool,
    pub takes: bool,
    pub sent: LinkedList<Message>,
    pub received: LinkedList<Message>,
}

pub struct InOrder;

impl Protocol<Message, Log> for InOrder {
    ghost holds = { Relayed };

    ghost first = { log true true [] [] };
}

/// A new row's one pass is split into the sender's and the receiver's; they are joined again as the two meet.
pub struct Parts;

impl Split<Log> for Parts {
    ghost left = { sender_part };

    ghost right = { receiver_part };
}

impl Join<Log> for Parts {
    ghost both = { both_parts };

    ghost spent = { no_part };
}

/// A push.
pub struct Post;

impl Outcome<Message, Log> for Post {
    ghost then = { λ v m w. w ≡ log v.sends v.takes (v.sent ++ m ∷ []) v.received };
}

impl Lesson<Message, Log> for Post {
    ghost fact = { λ v items. length items ≤ 8 };
}

/// A pop.
pub struct Take;

impl Outcome<Message, Log> for Take {
    ghost then = { λ v m w. w ≡ log v.sends v.takes v.sent (v.received ++ m ∷ []) };
}

impl Lesson<Message, Log> for Take {
    ghost fact = { λ v items. length items ≤ 8 };
}

/// A pop by the pass with both parts, and what it learns of the whole row.
pub struct Whole;

impl Outcome<Message, Log> for Whole {
    ghost then = { λ v m w. w ≡ log v.sends v.takes v.sent (v.received ++ m ∷ []) };
}

impl Lesson<Message, Log> for Whole {
    ghost fact = { λ v items. (v.sent ≡ v.received ++ items) × (length items ≤ 8) };
}

pub type Line = RuledArrayQueue<Message, Log, InOrder>;
