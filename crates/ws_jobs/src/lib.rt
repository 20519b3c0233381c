//! The queue of jobs, in few bytes what each chunk meets.
#![tactic(auto)]

mod jobs;
mod short;

pub use jobs::Jobs;
pub use short::{
    Short, is_reaction, is_whole, reaction_in, short_follow, short_micro, short_of, short_react,
    short_reaction_names,
};
