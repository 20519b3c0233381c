//! Writable streams with a default controller and a default writer: the record of one stream, with a method for each
//! of its abstract operations.
#![tactic(auto)]

mod backpressure;
mod controller;
mod direct;
mod erroring;
mod look;
mod named;
mod operations;
mod reactions;
mod requests;
mod stream;
mod writer;

pub use stream::Writable;
pub use ws_steps::{PendingAbort, SizeBy, WritableState, WriteRecord, Writer};
