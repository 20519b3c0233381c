//! What a run tells of its edges.

use ws_edge::Mark;
use ws_io::Status;

/// How a run finished.
#[derive(Drop)]
pub struct Finished {
    pub status: Status,

    /// The edges of a traced run with workers, from the one below the input on. There are none of any other run, nor
    /// where no memory was to be had for them.
    pub edges: Vec<EdgeTrace>,
}

/// What went over an edge: in each direction the messages that were sent, in order, and how many of these were taken.
#[derive(Drop)]
pub struct EdgeTrace {
    pub down: Vec<Mark>,
    pub down_taken: u64,
    pub up: Vec<Mark>,
    pub up_taken: u64,
}
