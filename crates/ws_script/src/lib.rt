//! Scripts: lists of stream calls, performed in one realm, of which every reply and event is printed.
#![tactic(auto)]

mod perform;
mod print;
mod read;
mod run;

pub use print::print_step;
pub use run::run_script;
pub use ws_grammar::{Line, ScriptRefused, Spelled, read_script};
