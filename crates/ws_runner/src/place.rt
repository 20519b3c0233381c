//! Where the nodes of the workers are.
ghost use Rattle.ws_node.specs.Nodes.{MiddleGoes};

use std::snapshot::Snapshot;
use std::thread::{Promise, PromisedHandle};
use ws_node::Middle;

/// A promise to hand a node back, after some turns.
#[derive(Drop)]
pub struct HandsBack {
    pub was: Snapshot<Middle>,
}

impl Promise<Middle> for HandsBack {
    ghost kept_by = { λ p r. MiddleGoes p.was.value r };
}

/// Where a worker's node is.
#[derive(Drop)]
pub enum Place {
    /// The worker's thread drives it, and hands it back once it is over.
    Away(PromisedHandle<Middle, HandsBack>),

    /// The worker has no thread: the caller drives it until it is over.
    Here {
        worker: u32,
        node: Middle,
        over: bool,
    },
}
