//! Effects that each chunk meets, performed by direct calls: what the agenda would do with an effect and with all that
//! comes of it, in the order of the definitions, without putting it there. What doesn't go its usual way is caused, and
//! the agenda performs it.
#![tactic(auto)]

mod after;
mod enqueues;
mod growth;
mod left;
mod pipes;
mod promises;
mod pulls;
mod reads;
mod writes;

pub use enqueues::enqueue;
pub use pipes::{pipe_ready, pipe_writes, pipe_wrote};
pub use pulls::pulled;
pub use writes::{write_goes_on, wrote};
