//! The data that streams carry: chunks of bytes, plain values, reasons, messages, and the numbers that name a realm's
//! objects.
#![tactic(auto)]

mod chunk;
mod fault;
mod ids;
mod memory;
mod room;
mod text;
mod value;

pub use chunk::Chunk;
pub use fault::Fault;
pub use ids::{HostId, LockId, PipeId, PortId, PromiseId, RequestId, SignalId, StreamId, TeeId};
pub use memory::NoMemory;
pub use room::Room;
pub use text::{Blob, Text};
pub use value::{Message, Outcome, Plain, Value};
