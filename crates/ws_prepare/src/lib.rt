//! The taking of all memory that the next call or job of a realm can need, before it begins.
#![tactic(auto)]

mod memory;

pub use memory::{prepare, prepare_work};
