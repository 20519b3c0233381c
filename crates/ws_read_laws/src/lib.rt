//! Laws of what reads get, over every run.
#![tactic(auto)]

ghost use Rattle.ws_steps.specs.Laws.{EachReadIsAnswered, ReadsOfTheEnded, ReadsWereAnswered};

/// The chunks that a readable stream with a default controller gave went to its reads in the order in which these
/// were asked, each to one read.
///
/// The reads that were answered come first, in the order in which they were asked, and then those that wait, whose
/// promises are pending. The chunks that were given are those that the answered reads got, in this order, and the
/// promise of each of these is fulfilled with its chunk, where the read isn't a pipe's. Each other read that was
/// answered is finished with undefined, only where the stream closed; rejected with the stored error, only where it
/// errored; or rejected with a TypeError, only where it waited as its reader was released. The table of promises
/// holds these outcomes. No read waits at a stream that has ended, or beside a chunk that is queued, and no promise
/// is that of two reads.
///
/// Of: readable streams, ReadableStreamDefaultReaderRead, a read request's steps,
/// ReadableStreamDefaultReaderErrorReadRequests.
pub fn each_read_is_answered()
    ensures { EachReadIsAnswered }
{}

/// The promises of the reads by default readers are those that the calls answered that read, in the order of these
/// calls.
///
/// This is said of each readable stream. Each call that reads by a default reader which has a stream is answered a
/// new promise.
///
/// Of: readable streams, ReadableStreamDefaultReaderRead.
pub fn reads_were_answered()
    ensures { ReadsWereAnswered }
{}

/// A read by a default reader of a stream that has ended, or by one that was released, is answered once its call has
/// ended.
///
/// Where the stream is closed, it is finished with undefined; where it is errored, it is rejected with the stored
/// error; and by a reader that was released, with a TypeError.
///
/// Of: readable streams, ReadableStreamDefaultReaderRead, a read request's steps.
pub fn reads_of_the_ended()
    ensures { ReadsOfTheEnded }
{}
