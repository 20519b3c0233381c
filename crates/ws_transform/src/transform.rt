//! The record of a transform stream.
ghost use Rattle.std.specs.Prelude.{◌≡◌, None, true};
ghost use Rattle.ws_steps.specs.Transform as rows;

use std::marker::Model;
use ws_steps::Kind;
use ws_value::{PromiseId, StreamId};

/// A transform stream. It is seen as its slots.
#[derive(Drop)]
pub struct Transform {
    pub(crate) kind: Kind,
    pub(crate) writable: StreamId,
    pub(crate) readable: StreamId,
    pub(crate) backpressure: bool,
    pub(crate) change: PromiseId,
    pub(crate) finish: Option<PromiseId>,
}

impl Model for Transform {
    ghost use Rattle.ws_steps.specs.Transform.{Slots};

    ghost Value = { Slots };

    ghost view = { λ s. record {
      kind = s.kind;
      writable = s.writable;
      readable = s.readable;
      backpressure = s.backpressure;
      change = s.change;
      finish = s.finish;
    } };
}

impl Transform {
    /// InitializeTransformStream: a new transform stream with these two halves. Its change promise is made by the
    /// call.
    pub fn set_up(
        kind: Kind,
        writable: StreamId,
        readable: StreamId,
        change: PromiseId,
    ) -> Transform
        ensures { result ≡ rows.set_up kind writable readable change }
    {
        Transform {
            kind,
            writable,
            readable,
            backpressure: true,
            change,
            finish: None,
        }
    }

    /// The number of the writable half.
    pub fn writable(&self) -> StreamId
        ensures { result ≡ self.now.writable }
    {
        self.writable
    }

    /// The number of the readable half.
    pub fn readable(&self) -> StreamId
        ensures { result ≡ self.now.readable }
    {
        self.readable
    }

    /// `[[backpressure]]`.
    #[inline(always)]
    pub fn has_backpressure(&self) -> bool
        ensures { result ≡ self.now.backpressure }
    {
        self.backpressure
    }

    /// `[[backpressureChangePromise]]`.
    #[inline(always)]
    pub fn change(&self) -> PromiseId
        ensures { result ≡ self.now.change }
    {
        self.change
    }

    /// Whose transform algorithm it performs.
    #[inline(always)]
    pub fn kind(&self) -> Kind
        ensures { result ≡ self.now.kind }
    {
        self.kind
    }
}
