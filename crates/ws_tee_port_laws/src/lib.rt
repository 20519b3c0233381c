//! Laws of what tees do with their sources and branches, and of what goes by ports, over every run.
#![tactic(auto)]

pub mod ports;
pub mod tees;
