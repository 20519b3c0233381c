//! A run: its nodes, the edges between them, and the threads that drive them.
#![tactic(auto)]

mod caller;
mod chain;
pub mod laws;
mod meeting;
mod nodes;
mod place;
mod ready;
mod running;
mod trace;
mod worker;

pub use nodes::run_nodes;
pub use trace::{EdgeTrace, Finished};
