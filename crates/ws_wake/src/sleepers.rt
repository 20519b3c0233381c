//! What those sleep on who drive the nodes of a run, and the making of it.
ghost use Rattle.std.specs.Prelude.{◌≡◌, IfOk, vec_len};

use crate::bells::{Bell, Bells};
use crossbeam_utils::sync::Parker;
use std::alloc::Global;
use ws_value::NoMemory;

/// A worker, before its start.
#[derive(Drop)]
pub struct Worker {
    /// From 1.
    pub number: u32,
    pub parker: Parker,
}

/// So many workers, how each is woken, and the number of the last.
fn make_workers(alloc: Global, count: usize) -> Result<(Vec<Worker>, Vec<Bell>, u32), NoMemory>
    ensures { IfOk result (λ made. vec_len made.0 ≡ count) }
{
    let mut workers = Vec::new(alloc);
    let mut bells = Vec::new(alloc);
    let mut number = 0u32;
    for _ in 0..count {
        number = number.saturating_add(1);
        let parker = Parker::new(alloc)?;
        bells.push(Bell::new(parker.unparker().clone()?))?;
        workers.push(Worker { number, parker })?;
    }
    Ok((workers, bells, number))
}

/// So many workers, what the caller parks on, and how they and the caller are woken. It takes all memory that waiting
/// needs.
pub fn make_sleepers(alloc: Global, count: usize) -> Result<(Vec<Worker>, Parker, Bells), NoMemory>
    ensures { IfOk result (λ made. vec_len made.0 ≡ count) }
{
    let (workers, bells, last) = make_workers(alloc, count)?;
    let parker = Parker::new(alloc)?;
    let caller = parker.unparker().clone()?;
    Ok((workers, parker, Bells::new(caller, bells, last)))
}
