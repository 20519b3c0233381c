//! The parts of a message port, and of the stream at this end of it: the Streams Standard's cross-realm transform.
use crate::Use;
use ws_value::{Message, Plain, PromiseId, Value};

/// Of which kind the stream at an end of a port is.
#[derive(Clone, Copy)]
pub enum Side {
    /// A readable stream, whose chunks come by the port.
    Readable,
    /// A writable stream, whose chunks leave by it.
    Writable,
}

/// An operation of a port, as it stands on the agenda. What is to be done with the promise that an algorithm of its
/// stream gives is told to it.
#[derive(Drop)]
pub enum PortOperation {
    /// The pull algorithm of a readable end.
    Pull,
    /// The cancel algorithm of a readable end, and the abort algorithm of a writable one.
    Leave(Plain, Use),
    /// The write algorithm of a writable end, of the chunk that is first in the queue of the stream.
    Write(Use),
    /// The backpressure promise for which a write waited has settled. The promise is the result of the write
    /// algorithm.
    WriteGoesOn(PromiseId),
    /// The chunk of a write is posted. The promise is the result of the write algorithm.
    PostChunk(Value, PromiseId),
    /// The close algorithm of a writable end.
    Close(Use),
    /// A message comes.
    Deliver(Message),
    /// The other end asked for a chunk, or has gone: there is no backpressure from now on.
    Unblock,
}
