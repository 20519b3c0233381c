//! The parts of a readable stream with a byte controller. Its algorithms are always the host's.
use crate::ReadRequest;
use ws_value::{Chunk, PromiseId, RequestId, Room};

/// The kind of a reader of a byte stream.
#[derive(Clone, Copy, PartialEq, Eq)]
pub enum ReaderKind {
    Default,
    Byob,
}

/// For a read of which reader the room of a descriptor is filled: the descriptor's "reader type".
#[derive(Clone, Copy)]
pub enum RoomKind {
    ForDefault,
    ForByob,
    /// The reader of the descriptor was released.
    ForNobody,
}

/// An operation that of the readable streams only one with a byte controller has, as it stands on the agenda.
#[derive(Drop)]
pub enum ByteOperation {
    /// ReadableStreamReaderGenericInitialize by a BYOB reader, with the reader's closed promise.
    InitializeByobReader(PromiseId),
    /// ReadableByteStreamControllerEnqueue, of bytes that aren't empty.
    Enqueue(Chunk),
    /// ReadableStreamBYOBReaderRead with a room, the size of its elements, and the least number of bytes that is to be
    /// filled.
    PullInto {
        room: Room,
        element: u8,
        minimum: u64,
        request: ReadRequest,
    },
    /// ReadableByteStreamControllerGetBYOBRequest where there is none yet, with the number of the new one.
    MakeRequest(RequestId),
    /// ReadableByteStreamControllerRespond, with bytes for the first descriptor that fit into its room.
    Respond(Chunk),
}
