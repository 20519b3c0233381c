//! Laws of pipes and signals, in each operation and over every run.
//!
//! What they do (`pipes`), what they wait for (`writes`), and who has the locks of streams and the reads at a source
//! (`locks`).
#![tactic(auto)]

pub mod locks;
pub mod pipes;
pub mod writes;
