//! An end of an edge between two nodes of a pipeline: the row that it takes from, the row that it posts to, and the
//! messages that wait to be posted.
//!
//! The end above takes pulls and posts chunks, the end below takes chunks and posts pulls: both are an [`End`]. A node
//! that has no input or no output has [`Nothing`] in its place.
#![tactic(auto)]

mod end;
mod mark;
mod nothing;

pub use end::{End, Posting};
pub use mark::Mark;
pub use nothing::Nothing;
