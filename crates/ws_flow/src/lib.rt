//! Pipelines as definitions: what each stage puts out, what flows through nodes and chains of them, and the laws of
//! it.
//!
//! Their words are here, the definitions in `specs/`, and each law is the contract of a function with nothing to do.
#![tactic(auto)]

mod laws;
mod plan;
mod refusal;

pub use laws::{
    each_accepted_plan, each_cutting_is_alike, each_node_flows, each_output_is_told,
    each_pair_undoes, each_run_flows, each_stage_flows,
};
pub use plan::{Ending, Placed, Plan, Stage};
pub use refusal::Refusal;
