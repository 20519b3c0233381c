//! What the jobs of a realm begin with, over its tables.
//!
//! A job is one reaction, one follow, one settling or one microtask. `jobs` takes the next one out of the queue and
//! causes its first effects, with an arm for each step of a reaction and for each microtask.
#![tactic(auto)]

mod jobs;

pub use jobs::begin_job;
