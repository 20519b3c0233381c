//! Laws of which read of a byte stream gets which bytes, over every run.
#![tactic(auto)]

ghost use Rattle.ws_answer_laws.specs.Answering.{ByteReadsWereAsked, EachByteReadIsAnswered};
ghost use Rattle.ws_answer_laws.specs.LeastReads.{EachReadIntoGetsItsLeast};

/// The bytes that a byte stream gave went to its reads, each to one read, in the order in which the reads were asked,
/// except that a read may overtake one that waits while bytes are queued.
///
/// The reads that were answered, of readers of either kind, got all that was given, in this order, joined a first part
/// of what entered, and of each read as many were asked as were answered and wait. A read overtakes where it is asked
/// by a default reader, finds bytes in the queue, and another waits beside them. None does unless a response came to a
/// room whose reader was released, while a read waited; and without such a response no read of a default reader waits
/// beside bytes. The others get in line: those of them that were answered, and then those that wait, are as they were
/// asked. Where none overtook, so are all reads. A read that was answered was given bytes; or handed its room back with
/// what was in it, or finished with undefined, only where the stream is closed; or rejected with the stored error, only
/// where it is errored; or rejected with a TypeError, only where it waited as its reader was released. The table of
/// promises holds these outcomes, the promises of the reads that wait are pending, no promise is that of two reads, and
/// no read of a default reader waits at a stream that has ended.
///
/// Of: byte streams, ReadableStreamDefaultReaderRead, ReadableStreamBYOBReaderRead, the controller's [[PullSteps]],
/// ReadableByteStreamControllerPullInto, ReadableByteStreamControllerCommitPullIntoDescriptor.
pub fn each_byte_read_is_answered()
    ensures { EachByteReadIsAnswered }
{}

/// The promises of the reads of a byte stream are those that the calls answered that read from it, by readers of
/// either kind, in the order of these calls.
///
/// A call that wants no element, or more elements than its view has, is answered a promise and asks no read.
///
/// Of: byte streams, ReadableStreamDefaultReaderRead, ReadableStreamBYOBReaderRead.
pub fn byte_reads_were_asked()
    ensures { ByteReadsWereAsked }
{}

/// A read into a room gets no fewer elements than it wants at least, but where the stream has closed or errored or its
/// reader was released.
///
/// While its promise is pending, the read waits at the stream. Where it is given bytes, they are whole elements, no
/// fewer than it wants at least and no more than its room has room for. Where it is finished, the stream is closed.
/// Where it is rejected, the stream is errored with this reason, or the reason is a TypeError and the read waited as
/// its reader was released.
///
/// Of: byte streams, ReadableStreamBYOBReaderRead, ReadableByteStreamControllerPullInto, a read-into request's steps,
/// ReadableStreamReaderGenericRelease.
pub fn each_read_into_gets_its_least()
    ensures { EachReadIntoGetsItsLeast }
{}
