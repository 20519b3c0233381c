//! Workers and the caller, side by side.
ghost use Rattle.std.specs.Prelude.{◌≡◌, ◌≤◌, List, [], vec_len, vec_capacity};
ghost use Rattle.ws_io.specs.Moment.{moment};
ghost use Rattle.ws_node.specs.declared.node.Node.{Node};
ghost use Rattle.ws_node.specs.Nodes.{nodes};
ghost use Rattle.ws_runner.specs.Place.{ArePlacesOf, HaveGone};
ghost use Rattle.ws_runner.specs.Ready.{IsReadyFor};

use crate::caller::drive_rest;
use crate::chain::Chain;
use crate::place::Place;
use crate::ready::Ready;
use crate::worker::{join_all, start_all};
use crossbeam_utils::sync::Parker;
use std::alloc::Global;
use std::mem::replace;
use std::sync::Wait;
use std::thread;
use std::thread::{Scope, Threads};
use ws_io::{Gate, Sink, Source, Status};
use ws_node::Middle;
use ws_wake::Bells;

/// What the caller does while the workers run.
trait Rest {
    /// How it goes on, beside these nodes of workers.
    ghost goes: { List Node → Self → Self → Type 0 };

    /// Drives what the workers don't, and takes their nodes back.
    fn drive<R: Threads + Wait, F: Fn(u32, u64)>(
        &mut self,
        rt: &R,
        alloc: Global,
        places: Vec<Place>,
        room: Vec<Middle>,
        parker: &Parker,
        bells: &Bells,
        enter: &F,
    )
        requires enter { F.IsAlwaysCallable enter.now }
        requires room { (room.items ≡ []) × (vec_len places ≤ vec_capacity room) }
        ensures { (xs : List Node) → ArePlacesOf xs places.items → goes xs self.old self.new };
}

/// The nodes of a run, what it reads and writes, and its status.
#[derive(Drop)]
struct Outer<'a, S, K> {
    chain: &'a mut Chain,
    input: &'a mut S,
    output: &'a mut K,
    status: Status,
}

impl<'a, S: Source, K: Sink> Rest for Outer<'a, S, K> {
    ghost goes = { λ xs a b. (b.chain.ghost_name ≡ a.chain.ghost_name) × (b.input.ghost_name ≡ a.input.ghost_name)
        × (b.output.ghost_name ≡ a.output.ghost_name)
        × HaveGone (nodes a.chain.now.head xs a.chain.now.tail)
        (nodes b.chain.now.head b.chain.now.middles.items b.chain.now.tail) b.status
        (moment (S.faults a.input.now) (S.feed a.input.now) (K.faults a.output.now) (K.finished a.output.now))
        (moment (S.faults b.input.now) (S.feed b.input.now) (K.faults b.output.now) (K.finished b.output.now))
        (K.got a.output.now) (K.got b.output.now) };

    fn drive<R: Threads + Wait, F: Fn(u32, u64)>(
        &mut self,
        rt: &R,
        alloc: Global,
        places: Vec<Place>,
        room: Vec<Middle>,
        parker: &Parker,
        bells: &Bells,
        enter: &F,
    ) {
        let mut places = places;
        self.status = drive_rest(
            rt,
            alloc,
            self.chain,
            places.as_mut_slice(),
            self.input,
            self.output,
            parker,
            bells,
            enter,
        );
        self.chain.middles = join_all(rt, places, room);
    }
}

/// Starts the workers, and drives the rest.
fn run_within<'s, E, R: Threads + Wait + Sync, G: Gate, X: Rest>(
    rt: &'s R,
    alloc: Global,
    scope: &Scope<'s, E>,
    middles: Vec<Middle>,
    ready: Ready,
    bells: &'s Bells,
    gate: &'s G,
    rest: &mut X,
)
    requires { IsReadyFor (vec_len middles) ready }
    ensures { X.goes middles.items rest.old rest.new }
{
    let Ready {
        parker,
        workers,
        places,
        room,
    } = ready;
    let places = start_all(rt, alloc, scope, middles, workers, bells, gate, places);
    let enter = |worker: u32, turn: u64| gate.enter(worker, turn);
    rest.drive(rt, alloc, places, room, &parker, bells, &enter);
}

/// The same, until each worker has ended. The rest is of a type parameter, and its reference alone is handed on and
/// back: so what was written through it within a scope is known after it.
fn run_beside<R: Threads + Wait + Sync, G: Gate, X: Rest>(
    rt: &R,
    alloc: Global,
    middles: Vec<Middle>,
    ready: Ready,
    bells: &Bells,
    gate: &G,
    rest: &mut X,
)
    requires { IsReadyFor (vec_len middles) ready }
    ensures { X.goes middles.items rest.old rest.new }
{
    let back = thread::scope(
        thread::scope_env(),
        rt,
        move |scope| -> &mut X
            requires { IsReadyFor (vec_len middles) ready }
            ensures same { result.ghost_name ≡ rest.entry.ghost_name }
            ensures went { X.goes middles.items rest.entry.now result.now }
        {
            run_within(rt, alloc, scope, middles, ready, bells, gate, rest);
            rest
        },
    );
    let _ = back;
}

/// Turns of all nodes until all are over, those of each worker on a thread of its own: then the status of the last one.
pub fn drive_chain<R: Threads + Wait + Sync, S: Source, K: Sink, G: Gate>(
    rt: &R,
    alloc: Global,
    chain: &mut Chain,
    ready: Ready,
    bells: &Bells,
    input: &mut S,
    output: &mut K,
    gate: &G,
) -> Status
    requires { IsReadyFor (vec_len chain.old.middles) ready }
    ensures { HaveGone (nodes chain.old.head chain.old.middles.items chain.old.tail)
        (nodes chain.new.head chain.new.middles.items chain.new.tail) result
        (moment (S.faults input.old) (S.feed input.old) (K.faults output.old) (K.finished output.old))
        (moment (S.faults input.new) (S.feed input.new) (K.faults output.new) (K.finished output.new))
        (K.got output.old) (K.got output.new) }
{
    let middles = replace(&mut chain.middles, Vec::new(alloc));
    let mut outer = Outer {
        chain,
        input,
        output,
        status: Status::NoMemory,
    };
    run_beside(rt, alloc, middles, ready, bells, gate, &mut outer);
    outer.status
}
