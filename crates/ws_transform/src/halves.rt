//! What a transform stream looks at of its two halves.

use std::marker::Model;
use ws_steps::{ReadableState, WritableState};
use ws_value::Plain;

/// What a transform stream looks at of its two halves, whose stored errors stay where they are. It is seen as the
/// `Halves` of the definitions.
#[derive(Drop)]
pub struct TransformHalves<'a> {
    /// ReadableStreamDefaultControllerCanCloseOrEnqueue of the readable half.
    pub can_enqueue: bool,
    /// ReadableStreamDefaultControllerShouldCallPull of the readable half.
    pub should_pull: bool,
    pub readable_state: ReadableState,
    pub readable_error: &'a Plain,
    pub writable_state: WritableState,
    pub writable_error: &'a Plain,
}

impl<'a> Model for TransformHalves<'a> {
    ghost use Rattle.ws_steps.specs.declared.transform.Halves.{Halves};

    ghost Value = { Halves };

    ghost view = { λ s. record {
      can_enqueue = s.can_enqueue;
      should_pull = s.should_pull;
      readable_state = s.readable_state;
      readable_error = s.readable_error.now;
      writable_state = s.writable_state;
      writable_error = s.writable_error.now;
    } };
}
