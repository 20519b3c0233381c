//! An end of an edge.
ghost use Rattle.std.specs.Prelude.{◌≡◌, ◌↔◌, false, [], ◌∷◌, ◌++◌, ◌+◌, ◌<◌, ◌≤◌, length, is_some, IsTrue, IfOk, OnOk, OnErr, IfSome, IfNone, OnSome};
ghost use Rattle.ws_steps.specs.PortHistory as messages;
ghost use Rattle.ws_steps.specs.Queues as queues;
ghost use Rattle.ws_edge.specs.Edge.{given, PostsFirst, FindsFull, last_error};
ghost use Rattle.ws_edge.specs.Marks.{marks_of};

use crate::mark::{Mark, mark_in, remember, reserve};
use std::alloc::Global;
use std::collections::VecDeque;
use std::marker::Model;
use ws_port::{PostRefused, Receiver, Sender};
use ws_value::{Message, NoMemory, Plain};

/// How many messages an end takes to post, a last error aside.
const MOST: u64 = (1 << 62) - 1;

/// What a post of the messages that wait came to.
#[derive(Clone, Copy)]
pub struct Posting {
    /// A message was posted.
    pub some: bool,

    /// Nothing waits any more.
    pub all: bool,
}

/// An end of an edge. Contracts see the two rows as those of their ends, what waits to be posted, in order, and whether
/// it keeps the marks of what it posted.
///
/// It has a place for a last error from the beginning, so that a node that finds no memory can still tell its
/// neighbour. A message has room for its mark from when it waits.
pub struct End {
    from: Receiver,
    to: Sender,
    waiting: VecDeque<Message>,

    /// How many messages were given to be posted.
    count: u64,

    /// A close or an error is among these.
    ended: bool,

    /// The marks of what was posted, where they are kept.
    marks: Option<Vec<Mark>>,
}

// Called wherever an end may be dropped; a derived drop would be written out there, field by field.
impl Drop for End {
    fn drop(self) {
        let End {
            from: _,
            to: _,
            waiting: _,
            count: _,
            ended: _,
            marks: _,
        } = self;
    }
}

impl Model for End {
    ghost use Rattle.std.specs.Prelude.{◌++◌, length, is_some};
    ghost use Rattle.std.specs.VecDeque.{deque_capacity};
    ghost use Rattle.ws_edge.specs.Edge.{AtEdge, IsCounted};
    ghost use Rattle.ws_edge.specs.Marks.{AreMarked};

    ghost Value = { AtEdge };

    ghost view = { λ e. record { from = e.from; to = e.to; waiting = e.waiting.items; traced = is_some e.marks } };

    ghost invariant = { λ e. IsCounted (e.to.sent ++ e.waiting.items) e.count e.ended
        (length e.waiting.items) (deque_capacity e.waiting)
        × AreMarked e.marks e.to.sent (length e.waiting.items) e.ended };
}

/// Whether it is a close or an error.
fn is_end(m: &Message) -> bool
    ensures { result ≡ messages.is_end m.now }
{
    match m {
        Message::Pull => false,
        Message::Chunk(_) => false,
        Message::Close => true,
        Message::Error(_) => true,
    }
}

impl End {
    /// The end of an edge that takes from the one row and posts to the other. Nothing waits. With a trace it keeps the
    /// marks of what it posts.
    pub fn make(alloc: Global, from: Receiver, to: Sender, trace: bool) -> Result<End, NoMemory>
        requires { to.sent ≡ [] }
        ensures { IfOk result (λ end. end ≡ record { from = from; to = to; waiting = []; traced = trace }) }
    {
        let marks = if trace {
            Some(Vec::with_capacity(alloc, 4)?)
        } else {
            None
        };
        Ok(End {
            from,
            to,
            waiting: VecDeque::with_capacity(alloc, 4)?,
            count: 0,
            ended: false,
            marks,
        })
    }

    /// A message waits, behind those that wait. It is refused for want of memory, and by an end that was given
    /// 2^62 - 1 messages, to which no realm comes: so fewer than 2^62 were posted wherever one waits.
    pub fn push(&mut self, m: Message) -> Result<(), NoMemory>
        ensures waits { OnOk result (self.new ≡ record self.old { waiting = self.old.waiting ++ m ∷ [] }) }
        ensures refused { OnErr result (self.new ≡ self.old) }
    {
        if self.count >= MOST {
            return Err(NoMemory);
        }
        self.waiting.reserve(2)?;
        reserve(&mut self.marks, self.waiting.len() + 2)?;
        self.ended |= is_end(&m);
        self.count += 1;
        self.waiting.push_back_reserved(m);
        Ok(())
    }

    /// Posts what waits, in order, until nothing waits or the row is full.
    pub fn post(&mut self) -> Posting
        ensures first { PostsFirst self.old self.new }
        ensures given { given self.new ≡ given self.old }
        ensures row { self.new.to.row ≡ self.old.to.row }
        ensures from { self.new.from ≡ self.old.from }
        ensures traced { self.new.traced ≡ self.old.traced }
        ensures looked { self.old.to.looks ≤ self.new.to.looks }
        ensures some { IsTrue result.some ↔ (length self.old.to.sent < length self.new.to.sent) }
        ensures all { result.all ≡ queues.is_empty self.new.waiting }
        ensures full { result.all ≡ false → FindsFull self.old.to self.new.to }
    {
        let mut some = false;
        'messages: while let Some(m) = self.waiting.pop_front() {
            let mark = mark_in(&self.marks, &m);
            if let Err(PostRefused::Full(m)) = self.to.post(m) {
                self.waiting.push_front_reserved(m);
                return Posting { some, all: false };
            }
            remember(&mut self.marks, mark);
            some = true;
        }
        Posting { some, all: true }
    }

    /// Whether nothing waits.
    pub fn all_posted(&self) -> bool
        ensures { result ≡ queues.is_empty self.now.waiting }
    {
        self.waiting.is_empty()
    }

    /// How many messages were posted.
    pub fn posted(&self) -> u64
        ensures { result ≡ length self.now.to.sent }
    {
        self.count - self.waiting.len() as u64
    }

    /// Takes the next message. There is none where this call's look found none in the row.
    pub fn take(&mut self) -> Option<Message>
        ensures to { self.new.to ≡ self.old.to }
        ensures waiting { self.new.waiting ≡ self.old.waiting }
        ensures traced { self.new.traced ≡ self.old.traced }
        ensures row { self.new.from.row ≡ self.old.from.row }
        ensures looked { self.new.from.looks ≡ self.old.from.looks + 1 }
        ensures taken { IfSome result (λ m. self.new.from.received ≡ self.old.from.received ++ m ∷ []) }
        ensures found { OnSome result (length self.old.from.received < self.new.from.seen) }
        ensures none { IfNone result (length self.old.from.received ≡ self.new.from.seen) }
        ensures untaken { IfNone result (self.new.from.received ≡ self.old.from.received) }
    {
        self.from.take()
    }

    /// An error waits behind all that was given, unless a close or an error was. It takes no memory: a node that
    /// finds none tells its neighbour so.
    pub fn tell_last(&mut self, reason: Plain)
        ensures { self.new ≡ record self.old { waiting = self.old.waiting ++ last_error reason self.old } }
    {
        if self.ended {
            return;
        }
        self.ended = true;
        self.count += 1;
        self.waiting.push_back_reserved(Message::Error(reason));
    }

    /// The two ends of rows, and the marks of what was posted, where they were kept. What waits is lost.
    pub fn parts(self) -> (Receiver, Sender, Option<Vec<Mark>>)
        ensures from { result.0 ≡ self.from }
        ensures to { result.1 ≡ self.to }
        ensures kept { is_some result.2 ≡ self.traced }
        ensures marks { IfSome result.2 (λ marks. marks.items ≡ marks_of self.to.sent) }
    {
        let End {
            from,
            to,
            waiting: _,
            count: _,
            ended: _,
            marks,
        } = self;
        (from, to, marks)
    }
}
