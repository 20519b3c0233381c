//! Public calls of the crates below with their contracts, over which wrong bodies of them are tried. Each body here
//! only calls the real one. So where a real contract is weakened, the call here is no longer proved, and the must-fail
//! edits, each of which is a wrong body, are tried over a small crate in place of the real ones.
#![tactic(auto)]

pub mod byte_streams;
pub mod edges;
pub mod lanes;
pub mod pipes;
pub mod plans;
pub mod ports;
pub mod prints;
pub mod promises;
pub mod queues;
pub mod readables;
pub mod rows;
pub mod stages;
pub mod tees;
pub mod transforms;
pub mod writables;
