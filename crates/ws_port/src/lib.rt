//! One-way rows of messages between threads: one end posts, the other takes, and neither waits for the other.
//!
//! A row is a table of two words and eight places, under a rule that holds at every moment, whatever the two ends do
//! (`specs/Rule.antt`). Each end is used by one thread at a time. What is said of a row as a whole, [`meet`] says, once
//! both ends are in one hand again.
#![tactic(auto)]

mod ends;
mod meeting;
mod rule;

pub use ends::{PostRefused, Receiver, Sender, pair};
pub use meeting::{Rest, meet};
