//! The parts of a readable stream.
ghost use Rattle.std.specs.Prelude.{◌≡◌};
ghost use Rattle.ws_steps.specs.Queues.{size_of};

use ws_value::{PipeId, Plain, PromiseId, TeeId, Value};

/// The state of a readable stream.
#[derive(Clone, Copy, PartialEq, Eq)]
pub enum ReadableState {
    Readable,
    Closed,
    Errored,
}

/// The size of a chunk in a queue: 1, or its length in bytes, which is 0 for a value that isn't bytes.
#[derive(Clone, Copy)]
pub enum SizeBy {
    Count,
    ByteLength,
}

impl SizeBy {
    /// The size of a value, by this queuing strategy.
    pub fn size_of(self, value: &Value) -> u64
        ensures { result ≡ size_of self value.now }
    {
        match self {
            SizeBy::Count => 1,
            SizeBy::ByteLength => match value {
                Value::Plain(_) => 0,
                Value::Bytes(chunk) => chunk.len() as u64,
            },
        }
    }
}

/// Whom a read answers.
#[derive(Clone, Copy)]
pub enum ReadRequest {
    /// The promise of a `read`.
    Promise(PromiseId),
    /// A pipe.
    Pipe(PipeId),
    /// A tee.
    Tee(TeeId),
}

/// An operation of a readable stream, as it stands on the agenda: one that either kind of controller has, and the
/// enqueuing of a default controller. Promises that it answers are told to it.
#[derive(Drop)]
pub enum ReadableOperation {
    /// ReadableStreamReaderGenericInitialize by a default reader, with the reader's closed promise.
    InitializeReader(PromiseId),
    /// ReadableStreamReaderGenericRelease.
    ReleaseReader,
    /// The stream is disturbed.
    Disturb,
    /// ReadableStreamDefaultReaderRead.
    Read(ReadRequest),
    /// ReadableStreamCancel, with the promise that it answers.
    Cancel(Plain, PromiseId),
    /// ReadableStreamCancel where the stream is readable; else the promise is resolved with undefined.
    CancelIfReadable(Plain, PromiseId),
    /// ReadableStreamDefaultControllerEnqueue.
    Enqueue(Value),
    /// ReadableStreamDefaultControllerClose, ReadableByteStreamControllerClose.
    Close,
    /// ReadableStreamDefaultControllerError, ReadableByteStreamControllerError.
    Error(Plain),
    /// The controller's reaction to its start algorithm.
    StartSettled(Result<Plain, Plain>),
    /// The controller's reaction to its pull algorithm.
    PullSettled(Result<Plain, Plain>),
}
