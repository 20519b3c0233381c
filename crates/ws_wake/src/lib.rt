//! How those wait who drive the nodes of a run, and how they are woken.
//!
//! No clause says that who sleeps is woken, and no proof of a run rests on it.
#![tactic(auto)]

mod bells;
mod sleepers;
mod waits;

pub use bells::Bells;
pub use sleepers::{Worker, make_sleepers};
pub use waits::Waits;
