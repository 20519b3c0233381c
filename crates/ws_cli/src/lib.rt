//! The commands of `streams`: what the words of its command line do, over any input, output, files and notes.
#![tactic(auto)]

mod check;
mod command;
mod file;
mod generation;
mod numbers;
mod program;
mod run;
mod trace;

pub use check::run_check;
pub use command::top;
pub use generation::{Generation, run_generation};
pub use program::process;
pub use run::MAX_INPUT;
pub use ws_plan::{PlanRefused, read_plan};
pub use ws_script::{Line, ScriptRefused, print_step, read_script, run_script};
