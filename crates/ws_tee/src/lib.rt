//! Tees: the record of one, with a method for each of its operations. Its source and its branches are streams with
//! records of their own.
#![tactic(auto)]

mod cancel;
mod hand;
mod named;
mod operations;
mod reading;
mod tee;

pub use tee::Tee;
pub use ws_steps::{Half, TeeOperation, TeePhase};
