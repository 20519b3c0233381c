//! The stages of a pipeline at work, and the check of a plan. What each stage puts out is defined in `ws_flow`.
#![tactic(auto)]

mod cut;
mod kinds;
mod refusals;
mod text;
mod work;

pub use refusals::check;
pub use work::{Pushed, Work};
pub use ws_flow::{Ending, Placed, Plan, Refusal, Stage};
