//! The nodes of a run: each is the streams of one realm and their host, which reads the input, asks the stages, writes
//! the output, or sends and takes messages over the edges between nodes.
#![tactic(auto)]

mod edges;
mod ends;
mod head;
mod host;
mod making;
mod middle;
mod node;
mod output;
mod tail;
mod turn;
mod whole;

pub use head::Head;
pub use middle::Middle;
pub use tail::Tail;
pub use turn::Turn;
pub use whole::Whole;
