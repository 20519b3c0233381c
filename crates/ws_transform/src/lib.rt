//! Transform streams: the record of one, with a method for each of its operations. Its two halves are streams with
//! records of their own.
#![tactic(auto)]

mod algorithms;
mod backpressure;
mod chunks;
mod controller;
mod finish;
mod halves;
mod named;
mod operations;
mod transform;

pub use halves::TransformHalves;
pub use operations::looks_at_halves;
pub use transform::Transform;
pub use ws_steps::{Kind, Taker, TransformId, TransformOperation};
