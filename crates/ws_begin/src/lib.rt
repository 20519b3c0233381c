//! What the calls of a realm begin with, over its tables.
//!
//! A call is its checks in their order, what it answers and makes, and the first effects that it causes: these stand
//! in a file for each kind of object that is asked (`streams`, `transforms`, `tees`, `readers`, `byob`, `writers`,
//! `locks`, `controllers`, `pipes`, `ports`), and `calls` finds the file.
#![tactic(auto)]

mod byob;
mod calls;
mod controllers;
mod locks;
mod pipes;
mod ports;
mod readers;
mod replies;
mod streams;
mod tees;
mod transforms;
mod writers;

pub use calls::begin;
pub use controllers::enqueue;
pub use replies::UNSUPPORTED;
