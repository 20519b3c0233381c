//! The parts of a pipe from a readable to a writable stream, and of the signals that abort pipes.
use crate::{ReadableState, WritableState};
use ws_value::{PipeId, Plain, PromiseId, Value};

/// What `pipeTo` is told not to do to its ends: its options `preventClose`, `preventAbort` and `preventCancel`.
#[derive(Clone, Copy)]
pub struct Prevent {
    /// The destination isn't closed once the source has closed.
    pub close: bool,
    /// The destination isn't aborted once the source has errored, nor by a signal.
    pub abort: bool,
    /// The source isn't cancelled once the destination has errored, is closing or has closed, nor by a signal.
    pub cancel: bool,
}

/// How far a pipe is.
#[derive(Clone, Copy, PartialEq, Eq)]
pub enum Phase {
    /// The pipe reads and writes.
    Flowing,
    /// The pipe is to shut down, and what was read is written first.
    Waiting,
    /// The action of the pipe's shutdown is under way.
    Acting,
    /// The pipe's reader and its writer are released, and its promise has settled.
    Over,
}

/// What a pipe does to its ends before it is over.
#[derive(Clone, Copy)]
pub enum Action {
    /// WritableStreamAbort of the destination.
    AbortDest(Plain),
    /// ReadableStreamCancel of the source.
    CancelSource(Plain),
    /// WritableStreamDefaultWriterCloseWithErrorPropagation of the destination.
    CloseDest,
    /// Since a signal was triggered, the destination is aborted where it is writable and that isn't prevented, and the
    /// source is cancelled where it is readable and that isn't prevented.
    BySignal(Plain),
}

/// What a pipe looks at of its source and of its destination.
#[derive(Clone, Copy)]
pub struct Ends {
    pub source_state: ReadableState,
    pub source_error: Plain,
    pub dest_state: WritableState,
    pub dest_error: Plain,
    /// The destination has a close request or a close in flight.
    pub dest_closing: bool,
    /// The desired size of the writer is more than 0.
    pub dest_wants: bool,
    /// The ready promise of the writer.
    pub dest_ready: Option<PromiseId>,
    /// The promise of an abort of the destination that is pending.
    pub dest_abort: Option<PromiseId>,
}

/// An operation of a pipe, as it stands on the agenda.
#[derive(Drop)]
pub enum PipeOperation {
    /// The pipe looks at its two ends.
    Look,
    /// The writer's ready promise has settled: the pipe waits for that no longer, and looks.
    LookReady,
    /// The chunk steps of the pipe's read request.
    KeepChunk(Value),
    /// The close steps and the error steps of the pipe's read request.
    ReadEnded,
    /// The chunk that the pipe holds is written.
    WriteChunk,
    /// The pipe goes on after a write: it looks, or it proceeds with its shutdown.
    GoOn,
    /// A write of the pipe has settled.
    WriteEnded,
    /// The pipe's signal was triggered.
    Abort(Plain),
    /// The promise of the pipe's action has settled.
    ActionSettled(Result<Plain, Plain>),
    /// One of the promises that the pipe's action waits for has settled.
    PartSettled(Result<Plain, Plain>),
    /// There is no promise that the pipe's action waits for.
    NoParts,
}

/// An operation of a signal, as it stands on the agenda.
#[derive(Clone, Copy)]
pub enum SignalOperation {
    /// A pipe is to be aborted by the signal.
    Add(PipeId),
    /// A pipe is over.
    Forget(PipeId),
    /// The signal is triggered with a reason, where it wasn't before.
    Trigger(Plain),
}
