//! Pipes from a readable to a writable stream, and the abort signals that end them: the record of one of each, with a
//! method for each of its operations.
#![tactic(auto)]

mod actions;
mod chunks;
mod direct;
mod ends;
mod finish;
mod look;
mod named;
mod operations;
mod pipe;
mod shutdown;
mod signal;

pub use direct::{PipeLook, PipeNext};
pub use ends::PipeEnds;
pub use operations::looks_at_ends;
pub use pipe::Pipe;
pub use signal::Signal;
pub use ws_steps::{Action, Phase, PipeOperation, Prevent, SignalOperation};
