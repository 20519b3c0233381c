//! What a run with workers needs before its first turn.
ghost use Rattle.std.specs.Prelude.{IfOk};
ghost use Rattle.ws_runner.specs.Ready.{IsReadyFor};

use crate::place::Place;
use crossbeam_utils::sync::Parker;
use std::alloc::Global;
use ws_node::Middle;
use ws_realm::NoMemory;
use ws_wake::{Bells, Worker, make_sleepers};

/// What workers and the caller park on, and the room for what is handed out and handed back.
#[derive(Drop)]
pub struct Ready {
    pub parker: Parker,
    pub workers: Vec<Worker>,
    pub places: Vec<Place>,
    pub room: Vec<Middle>,
}

impl Ready {
    /// For so many workers, and how each is woken: with the nodes all that needs memory.
    pub fn make(alloc: Global, count: usize) -> Result<(Ready, Bells), NoMemory>
        ensures { IfOk result (λ made. IsReadyFor count made.0) }
    {
        let (workers, parker, bells) = make_sleepers(alloc, count)?;
        let ready = Ready {
            parker,
            workers,
            places: Vec::with_capacity(alloc, count)?,
            room: Vec::with_capacity(alloc, count)?,
        };
        Ok((ready, bells))
    }
}
