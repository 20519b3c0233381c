//! Message ports, and the cross-realm transforms at their ends: the record of a port, with a method for each of its
//! operations. The stream at its end has a record of its own.
#![tactic(auto)]

mod deliver;
mod leave;
mod named;
mod operations;
mod port;
mod write;

pub use port::Port;
pub use ws_steps::{PortOperation, Side};
