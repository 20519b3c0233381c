//! The record of a pipe.
ghost use Rattle.std.specs.Prelude.{◌≡◌, None, false};
ghost use Rattle.ws_steps.specs.Pipes as rows;

use std::marker::Model;
use ws_steps::{Action, Effect, Gift, Phase, Prevent, Step, Use};
use ws_value::{Plain, PromiseId, SignalId, StreamId, Value};

/// A pipe's reaction to a promise.
pub(crate) fn reacts(p: PromiseId, step: Step) -> Effect
    ensures { result ≡ rows.reacts p step }
{
    Effect::Give(Gift::This(p), Use::React(step, None))
}

/// A pipe. It is seen as its slots.
#[derive(Drop)]
pub struct Pipe {
    pub(crate) source: StreamId,
    pub(crate) dest: StreamId,
    pub(crate) promise: PromiseId,
    pub(crate) prevent: Prevent,
    pub(crate) signal: Option<SignalId>,
    pub(crate) phase: Phase,
    pub(crate) reading: bool,
    pub(crate) held: Option<Value>,
    pub(crate) unsettled: u128,
    pub(crate) waits: bool,
    pub(crate) action: Option<Action>,
    pub(crate) error: Option<Plain>,
    pub(crate) parts: usize,
    pub(crate) whole: Option<PromiseId>,
}

impl Model for Pipe {
    ghost use Rattle.ws_steps.specs.Pipes.{Slots};

    ghost Value = { Slots };

    ghost view = { λ s. record {
      source = s.source;
      dest = s.dest;
      promise = s.promise;
      prevent = s.prevent;
      signal = s.signal;
      phase = s.phase;
      reading = s.reading;
      held = s.held;
      unsettled = s.unsettled;
      waits = s.waits;
      action = s.action;
      error = s.error;
      parts = s.parts;
      whole = s.whole;
    } };
}

impl Pipe {
    /// A new pipe, which is flowing. Its promise is made by the call.
    pub fn set_up(
        source: StreamId,
        dest: StreamId,
        prevent: Prevent,
        signal: Option<SignalId>,
        promise: PromiseId,
    ) -> Pipe
        ensures { result ≡ rows.set_up source dest prevent signal promise }
    {
        Pipe {
            source,
            dest,
            promise,
            prevent,
            signal,
            phase: Phase::Flowing,
            reading: false,
            held: None,
            unsettled: 0,
            waits: false,
            action: None,
            error: None,
            parts: 0,
            whole: None,
        }
    }

    /// The readable stream that the pipe reads.
    pub fn source(&self) -> StreamId
        ensures { result ≡ self.now.source }
    {
        self.source
    }

    /// The writable stream that it writes to.
    pub fn dest(&self) -> StreamId
        ensures { result ≡ self.now.dest }
    {
        self.dest
    }

    pub fn is_flowing(&self) -> bool
        ensures { result ≡ rows.is_flowing self.now.phase }
    {
        self.phase == Phase::Flowing
    }

    pub(crate) fn enter(&mut self, phase: Phase)
        ensures { self.new ≡ record self.old { phase = phase } }
    {
        self.phase = phase;
    }
}
