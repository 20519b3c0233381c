//! The rows of `ws_port` over a ruled queue of eight places: the form that they had first, to compare with.
//!
//! Its calls try again until they have an answer, and so take a handle with `Wait`. Its contracts say what each end
//! posted and took, and nothing of how often it looked.
#![tactic(auto)]

mod ends;
mod meeting;
mod rule;

pub use ends::{Receiver, Sender, pair};
pub use meeting::meet;
