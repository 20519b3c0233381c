//! What stands on a realm's agenda.
use crate::{
    ByteOperation, Half, HostCall, Micro, PipeOperation, PortOperation, ReadRequest,
    ReadableOperation, SignalOperation, StartBy, Step, TeeOperation, TransformId,
    TransformOperation, WritableOperation,
};
use ws_value::{Chunk, PipeId, Plain, PortId, PromiseId, SignalId, StreamId, TeeId, Value};

/// Whose algorithms a stream performs.
#[derive(Clone, Copy)]
pub enum Owner {
    /// The algorithms are those of the host's underlying source or sink.
    Host,
    /// The algorithms are those of a transform stream, of which the stream is a half.
    HalfOf(TransformId),
    /// The algorithms are those of a tee, of which the stream is this branch.
    BranchOf(TeeId, Half),
    /// The algorithms are those of a cross-realm transform, at this end of a port.
    EndOf(PortId),
}

/// The promise that an algorithm gives.
#[derive(Clone, Copy)]
pub enum Gift {
    /// A promise that there is already.
    This(PromiseId),
    /// A new one, which is resolved with a value or rejected with a reason.
    Fresh(Result<Plain, Plain>),
}

/// What is done with a promise that an algorithm gives.
#[derive(Clone, Copy)]
pub enum Use {
    /// A step reacts to the promise. Where there is a derived promise, it is the result of the reaction.
    React(Step, Option<PromiseId>),
    /// Another promise is resolved with the promise.
    Resolve(PromiseId),
}

/// What stands on the agenda. While a call or a job is performed nothing but an effect changes what a realm holds,
/// apart from what the call makes and names, and the taking of the job.
#[derive(Drop)]
pub enum Effect {
    /// An operation of a readable stream, whichever its controller is.
    Readable(StreamId, ReadableOperation),
    /// An operation that only a byte controller has, of a readable stream with one.
    Byte(StreamId, ByteOperation),
    /// An operation of a writable stream.
    Writable(StreamId, WritableOperation),
    /// An operation of a pipe.
    Pipe(PipeId, PipeOperation),
    /// An operation of a signal.
    Signal(SignalId, SignalOperation),
    /// An operation of a transform stream.
    Transform(TransformId, TransformOperation),
    /// An operation of a tee.
    Tee(TeeId, TeeOperation),
    /// An operation of a port.
    Port(PortId, PortOperation),
    /// The start algorithm of a stream is performed, and the step reacts to its result.
    StartAlgorithm(StreamId, Step, StartBy),
    /// The pull algorithm of a readable stream is performed, and its controller reacts to the promise.
    PullAlgorithm(StreamId),
    /// The cancel algorithm of a readable stream is performed with a reason. The promise is the result of reacting to
    /// it with steps that return undefined.
    CancelAlgorithm(StreamId, Plain, PromiseId),
    /// The write algorithm of a writable stream is performed with the chunk at the front of its queue, and its
    /// controller reacts to the promise.
    WriteAlgorithm(StreamId),
    /// The close algorithm of a writable stream is performed, and its controller reacts to the promise.
    CloseAlgorithm(StreamId),
    /// The abort algorithm of a writable stream is performed with a reason, and the stream reacts to it. The promise
    /// is that of the abort.
    AbortAlgorithm(StreamId, Plain, PromiseId),
    /// The chunk steps of a read request of a stream are performed with a chunk.
    ChunkSteps(StreamId, ReadRequest, Value),
    /// The close steps of a read request of a stream are performed, and those of a read-into request with undefined.
    CloseSteps(StreamId, ReadRequest),
    /// The close steps of a read-into request of a stream are performed with a chunk.
    CloseStepsWith(StreamId, ReadRequest, Chunk),
    /// The error steps of a read request of a stream are performed with a reason.
    ErrorSteps(StreamId, ReadRequest, Plain),
    /// A promise that an algorithm gives is used.
    Give(Gift, Use),
    /// A promise is fulfilled with a value, or rejected with a reason.
    Settle(PromiseId, Result<Plain, Plain>),
    /// A microtask is queued.
    Queue(Micro),
    /// An algorithm of the host's is called, and the promise that the host will settle is used.
    CallHost(HostCall, Use),
}
