//! What holds of the nodes of a run, told of their definitions alone: `laws` of a whole node, which has the input and the
//! output, and `rules` of every node, for what goes over its edges.
#![tactic(auto)]

pub mod laws;
pub mod rules;
