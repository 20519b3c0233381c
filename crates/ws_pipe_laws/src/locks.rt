//! Laws of who has the locks of streams, and whose the reads at the source of a pipe or a tee are, over every run.

ghost use Rattle.ws_pipe_laws.specs.locks.LockLaws.{EachLockHasOneHolder, EachPipeOwnsItsEnds, EachTeeOwnsItsSource, NoTwoPipesShareAnEnd, EachReadingHasOneRead, EachSourceIsReadByItsPipe};
ghost use Rattle.ws_steps.specs.ByteLaws.{EachByteStreamIsMeant};

/// A stream that is locked is had by one reader or writer, by one pipe or by one tee, and a stream that isn't locked
/// by none.
///
/// A readable stream has a reader where one reader, pipe or tee has the stream, and it has none where none has it;
/// and so a writable stream and its writer. Two never have it. A reader or a writer has its stream until it is
/// released, a pipe has its two streams until it is over, and a tee has its source for good.
///
/// Of: locks, readable streams, writable streams, ReadableStreamReaderGenericInitialize,
/// ReadableStreamReaderGenericRelease, SetUpWritableStreamDefaultWriter, WritableStreamDefaultWriterRelease.
pub fn each_lock_has_one_holder()
    ensures { EachLockHasOneHolder }
{}

/// While a pipe isn't over, its source and its destination are locked, no reader of either kind has its source, and
/// no writer has its destination.
///
/// So no call of the host, whichever it is, begins with a read, a cancel, a release or a lock of its source, or with
/// a write, a close, an abort, a release or a lock of its destination.
///
/// Of: locks, pipes.
pub fn each_pipe_owns_its_ends()
    ensures { EachPipeOwnsItsEnds }
{}

/// Two pipes that aren't over have different sources and different destinations.
///
/// Of: locks, pipes.
pub fn no_two_pipes_share_an_end()
    ensures { NoTwoPipesShareAnEnd }
{}

/// At the source of a pipe that isn't over no read waits but the pipe's own.
///
/// Of: pipes, the pipe's read request.
pub fn each_source_is_read_by_its_pipe()
    ensures { EachSourceIsReadByItsPipe }
{}

/// Where a pipe is reading, one read of it waits at a stream, or it holds the chunk of one; and where it isn't, none
/// waits, and it holds none.
///
/// Of: pipes, the pipe's read request.
pub fn each_reading_has_one_read()
    ensures { EachReadingHasOneRead }
{}

/// No reader, read or response is asked of a byte stream that isn't meant for it.
///
/// A reader comes only where there is none; a read of a readable stream is one of its reader and of the kind of that,
/// into a room that has room for what is wanted at least; and a response is one that doesn't throw.
///
/// Of: byte streams, ReadableByteStreamControllerRespond, ReadableByteStreamControllerPullInto.
pub fn each_byte_stream_is_meant()
    ensures { EachByteStreamIsMeant }
{}

/// The source of a tee has a default controller and is locked for good, no reader of the host has it, and no read
/// waits there but the tee's own.
///
/// So no call of the host, whichever it is, begins with a read, a cancel, a release or a lock of the source (a read
/// or a cancel of a branch may lead to one).
///
/// Of: tees, locks, the steps up to the branches.
pub fn each_tee_owns_its_source()
    ensures { EachTeeOwnsItsSource }
{}
