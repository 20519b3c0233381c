//! Laws of how pipes end and of what came of it, over every run.
//!
//! What they wrote (`wrote`), how they begin, wait and end (`ends`), what the host is called for (`hosts`), and what
//! ended well (`successes`).
#![tactic(auto)]

pub mod ends;
pub mod hosts;
pub mod successes;
pub mod wrote;
