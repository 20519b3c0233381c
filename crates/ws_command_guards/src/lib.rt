//! Public calls of the crates below, each once more under the contract that it has there: wrong bodies of them are
//! tried over a small crate, and where a real contract is weakened the call here is no longer proved.
#![tactic(auto)]

pub mod calls;
pub mod commands;
pub mod direct;
pub mod generation;
pub mod realms;
pub mod runs;
pub mod scripts;
pub mod tables;
