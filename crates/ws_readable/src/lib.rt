//! Readable streams with a default controller and a default reader: the record of one stream, with a method for each
//! of its abstract operations.
#![tactic(auto)]

mod controller;
mod direct;
mod look;
mod named;
mod operations;
mod parts;
mod reader;
mod requests;
mod stream;

pub use stream::Readable;
pub use ws_steps::{Owner, ReadRequest, ReadableOperation, ReadableState, SizeBy};
