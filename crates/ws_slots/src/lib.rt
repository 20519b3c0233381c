//! The slots of promises in few bytes, the reactions that wait, and the operations on them.
#![tactic(auto)]

mod needed;
mod places;
mod shortly;
mod slots;
mod spent;
mod waiting;
mod watched;

pub use needed::{count_kept, firsts_name, release, waiting_names};
pub use places::{answer, drop_job, follow, register, register_step, settle};
pub use shortly::settle_shortly;
pub use slots::{Open, Settled, Slots, outcome_at, pending_slot, rank_at, wait_first};
pub use spent::spent_from;
pub use waiting::Waiting;
pub use watched::{Settling, note, watch};
