//! What a pipe looks at of its two ends.

use std::marker::Model;
use ws_steps::{ReadableState, WritableState};
use ws_value::{Plain, PromiseId};

/// What a pipe looks at of its source and of its destination, whose stored errors stay where they are. It is seen as
/// the `Ends` of the definitions.
#[derive(Drop)]
pub struct PipeEnds<'a> {
    pub source_state: ReadableState,
    pub source_error: &'a Plain,
    pub dest_state: WritableState,
    pub dest_error: &'a Plain,
    /// The destination has a close request or a close in flight.
    pub dest_closing: bool,
    /// The desired size of the writer is more than 0.
    pub dest_wants: bool,
    /// The ready promise of the writer.
    pub dest_ready: Option<PromiseId>,
    /// The promise of an abort of the destination that is pending.
    pub dest_abort: Option<PromiseId>,
}

impl<'a> Model for PipeEnds<'a> {
    ghost use Rattle.ws_steps.specs.declared.pipes.Ends.{Ends};

    ghost Value = { Ends };

    ghost view = { λ s. record {
      source_state = s.source_state;
      source_error = s.source_error.now;
      dest_state = s.dest_state;
      dest_error = s.dest_error.now;
      dest_closing = s.dest_closing;
      dest_wants = s.dest_wants;
      dest_ready = s.dest_ready;
      dest_abort = s.dest_abort;
    } };
}
