//! What the caller of a run drives on its own thread: the first node and the last one, and the nodes of workers that
//! were refused a thread.
ghost use Rattle.std.specs.Prelude.{◌≡◌, None, Some};
ghost use Rattle.ws_io.specs.Moment.{moment};
ghost use Rattle.ws_node.specs.Ends.{EndsAs};
ghost use Rattle.ws_node.specs.Nodes.{Each, HeadGoes, TailGoes};
ghost use Rattle.ws_runner.specs.Place.{Moves};

use crate::chain::Chain;
use crate::place::Place;
use crossbeam_utils::sync::Parker;
use std::alloc::Global;
use std::sync::{Wait, WaitMethods};
use ws_io::{Sink, Source, Status};
use ws_node::{Head, Tail, Turn};
use ws_wake::{Bells, Waits};

/// What the turns of one round came to.
#[derive(Clone, Copy, PartialEq, Eq)]
enum Round {
    /// A node did something, or has just told that it is over.
    Moved,

    /// No node found anything to do.
    Still,

    /// All nodes were over before.
    Over,
}

/// Which of the two outer nodes are over.
#[derive(Drop)]
struct Over {
    head: bool,
    tail: bool,
}

impl Round {
    /// What two parts of a round came to.
    fn and(self, other: Round) -> Round {
        match self {
            Round::Moved => Round::Moved,
            Round::Over => other,
            Round::Still => match other {
                Round::Moved => Round::Moved,
                Round::Still | Round::Over => Round::Still,
            },
        }
    }

    /// What one turn came to.
    fn of(turn: Turn) -> Round {
        match turn {
            Turn::Worked | Turn::Ended | Turn::NoMemory => Round::Moved,
            Turn::Idle | Turn::Spent => Round::Still,
        }
    }
}

/// Whether a node has nothing more to do, or can do no more for want of memory.
fn is_over(turn: Turn) -> bool {
    match turn {
        Turn::Ended | Turn::NoMemory => true,
        Turn::Worked | Turn::Idle | Turn::Spent => false,
    }
}

/// A turn of the first node, unless it is over.
fn turn_head<S: Source>(
    alloc: Global,
    head: &mut Head,
    over: &mut bool,
    input: &mut S,
    bells: &Bells,
) -> Round
    ensures { HeadGoes (moment (S.faults input.old) (S.feed input.old) 0 None)
        (moment (S.faults input.new) (S.feed input.new) 0 None) head.old head.new }
{
    if *over {
        return Round::Over;
    }
    let before = head.posted();
    let turn = head.turn(alloc, input);
    *over = is_over(turn);
    if *over || head.posted() != before {
        bells.wake_first();
    }
    Round::of(turn)
}

/// A turn of the last node, unless it is over.
fn turn_tail<K: Sink>(
    alloc: Global,
    tail: &mut Tail,
    over: &mut bool,
    output: &mut K,
    bells: &Bells,
) -> Round
    ensures { TailGoes (moment 0 None (K.faults output.old) (K.finished output.old))
        (moment 0 None (K.faults output.new) (K.finished output.new))
        (K.got output.old) (K.got output.new) tail.old tail.new }
{
    if *over {
        return Round::Over;
    }
    let before = tail.posted();
    let turn = tail.turn(alloc, output);
    *over = is_over(turn);
    if *over || tail.posted() != before {
        bells.wake_last();
    }
    Round::of(turn)
}

/// Writes what the output holds back before a turn of the first node that may ask the system for more input: while it
/// waits, nobody else writes that.
fn empty_before_read<S: Source, K: Sink>(over: bool, input: &S, tail: &mut Tail, output: &mut K)
    ensures { TailGoes (moment 0 None (K.faults output.old) (K.finished output.old))
        (moment 0 None (K.faults output.new) (K.finished output.new))
        (K.got output.old) (K.got output.new) tail.old tail.new }
{
    if over || input.ready() > 0 {
        return;
    }
    tail.empty(output)
}

/// A turn of the node at this place, unless it is over or its worker has it. The worker's number and that of the turn
/// are told first.
fn turn_place<F: Fn(u32, u64)>(
    alloc: Global,
    place: &mut Place,
    number: u64,
    bells: &Bells,
    enter: &F,
) -> Round
    requires { F.IsAlwaysCallable enter.now }
    ensures { Moves place.old place.new }
{
    let Place::Here { worker, node, over } = place else {
        return Round::Over;
    };
    if *over {
        return Round::Over;
    }
    enter(*worker, number);
    let before = node.posted();
    let turn = node.turn(alloc);
    *over = is_over(turn);
    bells.wake_after(*worker, *over, before, node.posted());
    Round::of(turn)
}

/// A turn of each node of a worker that has no thread. In each round it is the turn of this number.
fn turn_places<F: Fn(u32, u64)>(
    alloc: Global,
    places: &mut [Place],
    number: u64,
    bells: &Bells,
    enter: &F,
) -> Round
    requires { F.IsAlwaysCallable enter.now }
    ensures { Each Moves places.old places.new }
{
    let mut round = Round::Over;
    for i in 0..places.len() {
        round = round.and(turn_place(alloc, &mut places[i], number, bells, enter));
    }
    round
}

/// Turns of the first node, of those of workers without a thread, and of the last node, until all are over: then the
/// status of the last one. Where none of them finds anything to do it is woken by those who drive their neighbours.
pub fn drive_rest<R: Wait, S: Source, K: Sink, F: Fn(u32, u64)>(
    rt: &R,
    alloc: Global,
    chain: &mut Chain,
    places: &mut [Place],
    input: &mut S,
    output: &mut K,
    parker: &Parker,
    bells: &Bells,
    enter: &F,
) -> Status
    requires { F.IsAlwaysCallable enter.now }
    ensures head { HeadGoes (moment (S.faults input.old) (S.feed input.old) 0 None)
        (moment (S.faults input.new) (S.feed input.new) 0 None) chain.old.head chain.new.head }
    ensures tail { TailGoes (moment 0 None (K.faults output.old) (K.finished output.old))
        (moment 0 None (K.faults output.new) (K.finished output.new))
        (K.got output.old) (K.got output.new) chain.old.tail chain.new.tail }
    ensures places { Each Moves places.old places.new }
    ensures status { EndsAs (Some result) chain.new.tail }
{
    let mut over = Over {
        head: false,
        tail: false,
    };
    let mut waits = Waits::new();
    let mut number = 0u64;
    for _ in rt.forever() {
        number = number.saturating_add(1);
        empty_before_read(over.head, input, &mut chain.tail, output);
        let first = turn_head(alloc, &mut chain.head, &mut over.head, input, bells);
        let middle = turn_places(alloc, places, number, bells, enter);
        let last = turn_tail(alloc, &mut chain.tail, &mut over.tail, output, bells);
        match first.and(middle).and(last) {
            Round::Moved => waits.end(),
            Round::Still => waits.pause(rt, parker),
            Round::Over => {
                if let Some(status) = chain.tail.status() {
                    return status;
                }
            }
        }
    }
    unreachable!()
}
