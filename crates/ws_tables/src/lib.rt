//! The tables of a realm: streams, pipes, tees, ports, signals, readers and writers by number, promises and one job
//! queue.
//!
//! `kinds` has the look-ups of each kind of record, and `lookups` those of what is in any of them. What changes them
//! stands in crates above: `ws_effects` performs effects, `ws_prepare` takes the memory that a call or job can need, so
//! that performing takes none, and `ws_begin` and `ws_begin_job` have what calls and jobs begin with: they check, make
//! places their content and cause the first effects. So the fields are public; what holds of them is in `specs/`.
#![tactic(auto)]

mod kinds;
mod lookups;
mod needed;
mod tables;

pub use tables::{LIST_PLACES, Stream, Tables};
