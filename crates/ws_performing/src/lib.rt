//! What an effect does to the tables of a realm, as `ws_effects` and `ws_direct` perform it: the definition, what follows
//! of it for what a realm keeps, and what a pipe or a transform stream finds in the tables.
#![tactic(auto)]

mod ends;

pub use ends::{pipe_ends, transform_halves};
