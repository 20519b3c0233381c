//! Rows of messages, by the same calls over a table and over a queue.
ghost use Rattle.std.specs.Prelude.{◌≡◌, ◌≤◌, length};

use std::alloc::Global;
use std::sync::Wait;
use std::test::Fail;
use std::thread;
use std::thread::Threads;
use ws_port::{PostRefused, Rest};
use ws_value::{Message, NoMemory, Plain, Value};

/// A row with both its ends.
trait Row: Drop {
    /// Posts a message, which comes back where it is refused.
    fn post<R: Wait>(&mut self, rt: &R, m: Message) -> Option<Message>;

    fn take<R: Wait>(&mut self, rt: &R) -> Option<Message>;

    fn meet<R: Wait>(self, rt: &R) -> Rest;
}

/// How many messages a test posts at most.
const MOST: u64 = 10_000;

#[derive(Drop)]
struct TableSender {
    sender: ws_port::Sender,
    posts: u64,
    ghost few: { length sender.sent ≤ posts },
}

impl TableSender {
    fn post(&mut self, m: Message) -> Option<Message>
        ensures { self.new.sender.row ≡ self.old.sender.row }
    {
        if self.posts >= MOST {
            return Some(m);
        }
        match self.sender.post(m) {
            Ok(()) => {
                self.posts += 1;
                None
            }
            Err(PostRefused::Full(back)) => Some(back),
        }
    }
}

#[derive(Drop)]
struct OverTable {
    sender: TableSender,
    receiver: ws_port::Receiver,
    ghost one_row: { sender.sender.row ≡ receiver.row },
}

fn over_table(alloc: Global) -> Result<OverTable, NoMemory> {
    let (sender, receiver) = ws_port::pair(alloc)?;
    let sender = TableSender { sender, posts: 0 };
    Ok(OverTable { sender, receiver })
}

impl Row for OverTable {
    fn post<R: Wait>(&mut self, _rt: &R, m: Message) -> Option<Message> {
        self.sender.post(m)
    }

    fn take<R: Wait>(&mut self, _rt: &R) -> Option<Message> {
        self.receiver.take()
    }

    fn meet<R: Wait>(self, _rt: &R) -> Rest {
        ws_port::meet(self.sender.sender, self.receiver)
    }
}

#[derive(Drop)]
struct OverQueue {
    sender: ws_first_port::Sender,
    receiver: ws_first_port::Receiver,
    posts: u64,
    ghost one_row: { sender.row ≡ receiver.row },
    ghost few: { length sender.sent ≤ posts },
}

fn over_queue(alloc: Global) -> Result<OverQueue, NoMemory> {
    let (sender, receiver) = ws_first_port::pair(alloc)?;
    Ok(OverQueue {
        sender,
        receiver,
        posts: 0,
    })
}

impl Row for OverQueue {
    fn post<R: Wait>(&mut self, rt: &R, m: Message) -> Option<Message> {
        if self.posts >= MOST {
            return Some(m);
        }
        match self.sender.post(rt, m) {
            Ok(()) => {
                self.posts += 1;
                None
            }
            Err(PostRefused::Full(back)) => Some(back),
        }
    }

    fn take<R: Wait>(&mut self, rt: &R) -> Option<Message> {
        self.receiver.take(rt)
    }

    fn meet<R: Wait>(self, rt: &R) -> Rest {
        ws_first_port::meet(rt, self.sender, self.receiver)
    }
}

/// What is done with a row, and what it must answer. Messages go by their numbers.
#[derive(Drop)]
enum Step {
    /// These are posted, from one number to before another.
    Posts(u64, u64),
    /// This one is refused, and comes back.
    Full(u64),
    /// These are taken.
    Takes(u64, u64),
    /// None is there to be taken.
    Nothing,
}

/// The message of a number: a pull for 0, and else a chunk.
fn message(number: u64) -> Message {
    if number == 0 {
        Message::Pull
    } else {
        Message::Chunk(Value::Plain(Plain::Number(number)))
    }
}

fn is_message(number: u64, found: Option<&Message>) -> bool {
    match found {
        Some(Message::Pull) => number == 0,
        Some(Message::Chunk(Value::Plain(Plain::Number(n)))) => number > 0 && *n == number,
        _ => false,
    }
}

fn performs<W: Row, R: Wait>(rt: &R, row: &mut W, step: &Step) -> bool {
    match step {
        Step::Posts(from, to) => {
            for number in *from..*to {
                if row.post(rt, message(number)).is_some() {
                    return false;
                }
            }
            true
        }
        Step::Full(number) => is_message(*number, row.post(rt, message(*number)).as_ref()),
        Step::Takes(from, to) => {
            for number in *from..*to {
                if !is_message(number, row.take(rt).as_ref()) {
                    return false;
                }
            }
            true
        }
        Step::Nothing => row.take(rt).is_none(),
    }
}

/// Whether the row answers so, and what is left in it at the end are these eight messages, from a number on.
fn answers<W: Row, R: Wait>(rt: &R, mut row: W, steps: &[Step], left_from: u64) -> bool {
    for step in steps {
        if !performs(rt, &mut row, step) {
            return false;
        }
    }
    let rest = row.meet(rt);
    let mut number = left_from;
    for place in &rest.places {
        if !is_message(number, place.as_ref()) {
            return false;
        }
        number = number.saturating_add(1);
    }
    rest.count == 8
}

#[test]
fn row_of_eight(rt: HostRuntime) -> Result<(), Fail> {
    let steps = [
        Step::Posts(0, 8),
        Step::Full(8),
        Step::Takes(0, 1),
        Step::Posts(8, 9),
    ];
    assert!(rt; answers(&rt, over_table(rt.alloc())?, &steps, 1));
    assert!(rt; answers(&rt, over_queue(rt.alloc())?, &steps, 1));
    Ok(())
}

#[test]
fn row_takes_and_posts(rt: HostRuntime) -> Result<(), Fail> {
    let steps = [
        Step::Nothing,
        Step::Posts(0, 1),
        Step::Takes(0, 1),
        Step::Nothing,
        Step::Posts(1, 9),
        Step::Takes(1, 9),
        Step::Nothing,
        Step::Posts(9, 17),
        Step::Full(17),
    ];
    assert!(rt; answers(&rt, over_table(rt.alloc())?, &steps, 9));
    assert!(rt; answers(&rt, over_queue(rt.alloc())?, &steps, 9));
    Ok(())
}

/// Posts the messages before a number, each as soon as there is room.
fn post_all<R: Wait>(rt: &R, mut sender: TableSender, to: u64) {
    for number in 0..to {
        for _ in rt.forever() {
            if sender.post(message(number)).is_none() {
                break;
            }
            thread::yield_now();
        }
    }
}

/// Takes as many messages, and tells whether they are those, in order.
fn takes_all<R: Wait>(rt: &R, mut receiver: ws_port::Receiver, to: u64) -> bool {
    let mut in_order = true;
    for number in 0..to {
        for _ in rt.forever() {
            let found = receiver.take();
            if found.is_some() {
                in_order = in_order && is_message(number, found.as_ref());
                break;
            }
            thread::yield_now();
        }
    }
    in_order && receiver.take().is_none()
}

fn crosses<R: Threads + Wait + Sync>(rt: &R, row: OverTable) -> bool {
    let OverTable { sender, receiver } = row;
    thread::join(
        rt,
        move || post_all(rt, sender, MOST),
        move || takes_all(rt, receiver, MOST),
    )
    .1
}

#[test]
fn ends_in_two_threads(rt: HostRuntime) -> Result<(), Fail> {
    assert!(rt; crosses(&rt, over_table(rt.alloc())?));
    Ok(())
}
