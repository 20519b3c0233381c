//! Readable streams with a byte controller: the record of one stream, with a method for each of its abstract
//! operations.
#![tactic(auto)]

mod cancel;
mod commit;
mod controller;
mod enqueue;
mod look;
mod named;
mod operations;
mod pull_into;
mod reader;
mod respond;
mod stream;

pub use stream::ByteStream;
pub use ws_steps::{ByteOperation, ReadableOperation, ReaderKind, RoomKind};
