//! Pipeline files: their plans, and the text of a plan, as `check` prints it.
#![tactic(auto)]

mod keys;
mod read;
mod refused;
mod stages;
mod text;
mod words;

pub use read::read_plan;
pub use refused::PlanRefused;
pub use text::plan_text;
