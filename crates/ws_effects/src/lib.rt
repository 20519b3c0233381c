//! The performing of effects over the tables of a realm: the first, then what it caused, then the others.
//!
//! `agenda` performs effects, one at a time, each with what it causes before the others; `effects` finds what an
//! effect concerns, and `kinds` has, for each kind of record, the performing of its operations.
#![tactic(auto)]

mod agenda;
mod effects;
mod kinds;

pub use agenda::perform_effects;
