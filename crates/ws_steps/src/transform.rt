//! The parts of a transform stream, which has a writable and a readable half.
use crate::{ReadableState, Use, WritableState};
use ws_value::{Plain, PortId, PromiseId, Value};

/// The number of a transform stream. No call and no event names it; the halves are streams, with numbers of their own.
#[derive(Clone, Copy)]
pub struct TransformId(pub u32);

/// Whose transform, flush and cancel algorithms a transform stream performs.
#[derive(Clone, Copy)]
pub enum Kind {
    /// There is no transformer: each chunk is enqueued as it is.
    Identity,
    /// The algorithms are those of the host's transformer.
    Host,
}

/// To whom the chunk of a write is handed on.
#[derive(Clone, Copy)]
pub enum Taker {
    /// The write algorithm of the host's underlying sink.
    ToHost,
    /// The transform algorithm of a transform stream, with the promise that is the result of the reaction to its own.
    ToTransform(TransformId, PromiseId),
    /// The write algorithm of a cross-realm transform, which posts it, with the promise that is its result.
    ToPort(PortId, PromiseId),
}

/// What a transform stream looks at of its two halves.
#[derive(Clone, Copy)]
pub struct Halves {
    /// The controller of the readable half can close or enqueue.
    pub can_enqueue: bool,
    /// The controller of the readable half should pull.
    pub should_pull: bool,
    pub readable_state: ReadableState,
    pub readable_error: Plain,
    pub writable_state: WritableState,
    pub writable_error: Plain,
}

/// An operation of a transform stream, as it stands on the agenda. What is to be done with the promise that an
/// algorithm gives is told to it.
#[derive(Drop)]
pub enum TransformOperation {
    /// TransformStreamDefaultSinkWriteAlgorithm, of the chunk that is first in the queue of the writable half.
    SinkWrite(Use),
    /// The change promise for which a write waited has settled. The promise is the result of the write algorithm.
    WriteGoesOn(PromiseId),
    /// The transform algorithm is performed with a chunk. The promise is the result of the reaction to its own.
    TransformChunk(Value, PromiseId),
    /// TransformStreamDefaultControllerEnqueue, of a chunk that the readable half can take.
    Enqueue(Value),
    /// The end of TransformStreamDefaultControllerEnqueue, after the readable half took the chunk.
    Enqueued,
    /// TransformStreamError.
    Error(Plain),
    /// TransformStreamUnblockWrite.
    Unblock,
    /// TransformStreamDefaultControllerTerminate.
    Terminate,
    /// TransformStreamDefaultSourcePullAlgorithm.
    SourcePull(Use),
    /// TransformStreamDefaultSinkCloseAlgorithm.
    SinkClose(Use),
    /// TransformStreamDefaultSinkAbortAlgorithm.
    SinkAbort(Plain, Use),
    /// TransformStreamDefaultSourceCancelAlgorithm.
    SourceCancel(Plain, Use),
    /// The reaction to the flush algorithm, with the finish promise.
    FlushSettled(PromiseId, Result<Plain, Plain>),
    /// The reaction to the cancel algorithm that an abort of the writable half performed with a reason, with the
    /// finish promise.
    AbortSettled(PromiseId, Plain, Result<Plain, Plain>),
    /// The reaction to the cancel algorithm that a cancel of the readable half performed with a reason, with the
    /// finish promise.
    CancelSettled(PromiseId, Plain, Result<Plain, Plain>),
}
