//! The parts of a writable stream with a default controller.
use crate::Taker;
use ws_value::{Plain, PromiseId, Value};

/// The state of a writable stream.
#[derive(Clone, Copy, PartialEq, Eq)]
pub enum WritableState {
    Writable,
    /// The stream is to be errored once it has started and nothing is in flight.
    Erroring,
    Errored,
    Closed,
}

/// The promises of a writer.
#[derive(Clone, Copy)]
pub struct Writer {
    pub ready: PromiseId,
    pub closed: PromiseId,
}

/// An abort that waits until the stream has erred, [[pendingAbortRequest]]. The sink hears of it then, unless the
/// stream was erroring already when it was asked.
#[derive(Clone, Copy)]
pub struct PendingAbort {
    pub promise: PromiseId,
    pub reason: Plain,
    pub was_already_erroring: bool,
}

/// What stands in the queue of a writable stream's controller.
#[derive(Drop)]
pub enum WriteRecord {
    Chunk(Value),
    /// The place of a chunk that was handed on to the write algorithm, until that ends.
    InFlight,
    /// The sink is to be closed.
    CloseMark,
}

/// An operation of a writable stream, as it stands on the agenda. Promises that it answers are told to it.
#[derive(Drop)]
pub enum WritableOperation {
    /// SetUpWritableStreamDefaultWriter, with the writer's promises.
    SetUpWriter(Writer),
    /// WritableStreamDefaultWriterRelease.
    ReleaseWriter,
    /// WritableStreamDefaultWriterWrite, with the promise that it answers.
    Write(Value, PromiseId),
    /// WritableStreamClose, with the promise that it answers.
    Close(PromiseId),
    /// WritableStreamDefaultWriterCloseWithErrorPropagation, with the promise that it answers.
    ClosePropagating(PromiseId),
    /// WritableStreamAbort where no abort is pending, with the promise that it answers.
    Abort(Plain, PromiseId),
    /// WritableStreamAbort where the stream is writable; else the promise is resolved with undefined.
    AbortIfWritable(Plain, PromiseId),
    /// WritableStreamDefaultControllerErrorIfNeeded.
    ErrorIfNeeded(Plain),
    /// The chunk at the front of the queue is handed on to the write algorithm.
    HandOn(Taker),
    /// The controller's reaction to its start algorithm.
    StartSettled(Result<Plain, Plain>),
    /// The controller's reaction to its write algorithm.
    WriteSettled(Result<Plain, Plain>),
    /// The controller's reaction to its close algorithm.
    CloseSettled(Result<Plain, Plain>),
    /// The stream's reaction to its abort algorithm, with the promise of the abort.
    AbortSettled(PromiseId, Result<Plain, Plain>),
}
