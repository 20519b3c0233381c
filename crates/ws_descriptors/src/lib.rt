//! Pull-into descriptors of byte streams, and how they are filled from a queue of bytes.
#![tactic(auto)]

mod descriptor;
mod processing;

pub use descriptor::Descriptor;
pub use processing::{move_first, process};
pub use ws_steps::RoomKind;
