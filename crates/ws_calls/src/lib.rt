//! Calls and jobs of a realm whole: what they begin with, and all that comes of it, in the places that there are.
//!
//! None has an answer for want of memory: that there are places for each and all that comes of it is what they require.
//! `perform` performs a call or a job, and the enqueuing of a chunk without a call made of it. `first` performs the one
//! effect of a job that each chunk meets, as `settled` performs the call of a host that is done. `at_hand` does so where
//! places for several were found at once.
#![tactic(auto)]

mod at_hand;
mod first;
mod perform;
mod settled;

pub use at_hand::{count_places, enqueue_at_hand, perform_at_hand};
pub use perform::{perform_call, perform_enqueue, perform_job};
pub use settled::settle_done;
