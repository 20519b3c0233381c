//! The rule of a row, what its two ends know, and what each of their steps tells them. Of the structs no value is made.
ghost use Rattle.ws_port.specs.Rule.{Kept};
ghost use Rattle.ws_port.specs.Steps.{opened, sender_part, receiver_part, both_parts, no_part, FindsTaken, Posts, FindsPosted, Takes};

use atomic_table::{Join, Play, Seat, Split, Table, TableRule};
use std::alloc::Global;
use std::collections::LinkedList;
use ws_value::Message;

/// What the sender knows: the messages that it posted, how many of them it last found taken, how often it looked, and
/// whether it holds the place of the next message.
pub struct Outgoing {
    pub sent: LinkedList<Message>,
    pub seen: u64,
    pub looks: u64,
    pub holds: bool,
}

/// What the receiver knows: the messages that it took, how many it last found posted, how often it looked, and, where
/// it holds the place of the next message, that message.
pub struct Incoming {
    pub received: LinkedList<Message>,
    pub seen: u64,
    pub looks: u64,
    pub held: Option<Message>,
}

/// What a seat knows, and which of the two parts it has.
pub struct View {
    pub sends: bool,
    pub takes: bool,
    pub outgoing: Outgoing,
    pub incoming: Incoming,
}

pub struct Row;

impl TableRule<Option<Message>, View, ()> for Row {
    ghost holds = { λ _. Kept };

    ghost first = { λ _. opened };
}

/// A new row's one seat is split into the sender's and the receiver's; they are joined again as the two meet.
pub struct Parts;

impl Split<View> for Parts {
    ghost left = { sender_part };

    ghost right = { receiver_part };
}

impl Join<View> for Parts {
    ghost both = { both_parts };

    ghost spent = { no_part };
}

/// The sender loads `taken`.
pub struct LookForRoom;

impl Play<Option<Message>, View> for LookForRoom {
    ghost then = { λ s. FindsTaken };
}

/// The sender stores `posted`.
pub struct Post;

impl Play<Option<Message>, View> for Post {
    ghost then = { λ s v n w. Posts v w };
}

/// The receiver loads `posted`.
pub struct LookForMessage;

impl Play<Option<Message>, View> for LookForMessage {
    ghost then = { λ s. FindsPosted };
}

/// The receiver stores `taken`.
pub struct Take;

impl Play<Option<Message>, View> for Take {
    ghost then = { λ s v n w. Takes v w };
}

pub type Board = Table<Option<Message>, View, (), Row, Global>;

pub type Chair = Seat<Option<Message>, View>;
