//! Workers, each of which drives its node on a thread of its own.
ghost use Rattle.std.specs.Prelude.{◌≡◌, ◌≤◌, List, [], vec_len, vec_capacity};
ghost use Rattle.ws_node.specs.declared.node.Node.{Node};
ghost use Rattle.ws_node.specs.Nodes.{Each, MiddleGoes};
ghost use Rattle.ws_runner.specs.Place.{ArePlacesOf, IsPlaceOf};

use crate::place::{HandsBack, Place};
use std::alloc::Global;
use std::snapshot::Snapshot;
use std::sync::{Wait, WaitMethods};
use std::thread::{Scope, Threads};
use ws_io::Gate;
use ws_node::{Middle, Turn};
use ws_wake::{Bells, Waits, Worker};

/// Drives a node until it is over. Where it finds nothing to do it is woken by those who drive its neighbours.
fn drive<R: Wait, G: Gate>(
    rt: &R,
    alloc: Global,
    node: Middle,
    worker: Worker,
    bells: &Bells,
    gate: &G,
) -> Middle
    ensures { MiddleGoes node result }
{
    let mut node = node;
    let mut waits = Waits::new();
    let mut turn = 0u64;
    for _ in rt.forever() {
        turn = turn.saturating_add(1);
        gate.enter(worker.number, turn);
        let before = node.posted();
        match node.turn(alloc) {
            Turn::Worked => {
                waits.end();
                bells.wake_after(worker.number, false, before, node.posted());
            }
            Turn::Ended | Turn::NoMemory => {
                bells.wake_after(worker.number, true, before, node.posted());
                return node;
            }
            Turn::Idle | Turn::Spent => waits.pause(rt, &worker.parker),
        }
    }
    unreachable!()
}

/// Starts a worker. Where it is refused a thread, its node is the caller's to drive.
fn start<'s, E, R: Wait + Sync, G: Gate>(
    rt: &'s R,
    alloc: Global,
    scope: &Scope<'s, E>,
    node: Middle,
    worker: Worker,
    bells: &'s Bells,
    gate: &'s G,
) -> Place
    ensures { IsPlaceOf node result }
{
    let number = worker.number;
    let promise = HandsBack {
        was: Snapshot::of(&node),
    };
    let started = scope.spawn_with(
        promise,
        move || -> Middle
            ensures { MiddleGoes node result }
        {
            if bells.is_refused(number) {
                node
            } else {
                drive(rt, alloc, node, worker, bells, gate)
            }
        },
    );
    match started {
        Ok(away) => Place::Away(away),
        Err(refused) => {
            bells.refuse(number);
            Place::Here {
                worker: number,
                node: (refused.value)(),
                over: false,
            }
        }
    }
}

/// Starts the worker of each node.
pub fn start_all<'s, E, R: Wait + Sync, G: Gate>(
    rt: &'s R,
    alloc: Global,
    scope: &Scope<'s, E>,
    nodes: Vec<Middle>,
    workers: Vec<Worker>,
    bells: &'s Bells,
    gate: &'s G,
    room: Vec<Place>,
) -> Vec<Place>
    requires workers { vec_len workers ≡ vec_len nodes }
    requires room { (room.items ≡ []) × (vec_len nodes ≤ vec_capacity room) }
    ensures { ArePlacesOf nodes.items result.items }
{
    let mut places = room;
    let mut workers = workers.into_iter();
    for node in nodes {
        let Some(worker) = workers.next() else {
            unreachable!()
        };
        places.push_reserved(start(rt, alloc, scope, node, worker, bells, gate));
    }
    places
}

/// The node at this place, once the worker has handed it back.
fn join<R: Threads>(rt: &R, place: Place) -> Middle
    ensures { (a : Node) → IsPlaceOf a place → MiddleGoes a result }
{
    match place {
        Place::Away(worker) => worker.join(rt),
        Place::Here { node, .. } => node,
    }
}

/// The nodes of all workers, each of which has handed its own back.
pub fn join_all<R: Threads>(rt: &R, places: Vec<Place>, room: Vec<Middle>) -> Vec<Middle>
    requires { (room.items ≡ []) × (vec_len places ≤ vec_capacity room) }
    ensures { (xs : List Node) → ArePlacesOf xs places.items → Each MiddleGoes xs result.items }
{
    let mut nodes = room;
    for place in places {
        nodes.push_reserved(join(rt, place));
    }
    nodes
}
