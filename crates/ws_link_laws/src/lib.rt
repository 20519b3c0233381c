//! Laws of what lies on a pipe between two streams that nobody else has, over every run that leaves its ends alone.
//!
//! Such a pipe is a link: from a readable stream to a writable stream, each of them the host's own, a half of a
//! transform stream whose algorithms are the host's, or the end of a port. A source of the host's own may be a byte
//! stream, where it is bare: its controller allocates no rooms, it has no descriptors, and no BYOB reader has it. Its
//! chunks are then the bytes that are enqueued, chunk by chunk.
#![tactic(auto)]

ghost use Rattle.ws_link_laws.specs.Entering.{EachEnqueueLetsIn, EachJobLetsIn};
ghost use Rattle.ws_link_laws.specs.Laws.{EachFreePairStays, EachLinkKeeps, EachLinkBegins};
ghost use Rattle.ws_link_laws.specs.Room.{EachLinkHasRoom, EachLinkBeginsWithRoom};

/// On a link that a run leaves alone no chunk is doubled or overtaken, and none is lost unless that is told.
///
/// A link is a pipe from a readable stream to a writable stream, each of them the host's own, a half of a transform
/// stream whose algorithms are the host's, or the end of a port, where no other pipe, no tee and no reader or writer
/// has these; the source may be a byte stream that allocates no rooms and has no descriptors. From any link on, in
/// any run that leaves it alone, the link stays, and what the host heard of its destination, followed by what is
/// behind it then, is what was behind it before, followed by what entered; or it is a first part of that, and says
/// that it is cut short. What is behind the host is what it hasn't heard of the destination yet, then the chunks in
/// the destination, in the pipe and in the source, told with whether more may come. To leave the ends alone, the host
/// may do with the source all that its controller may, and any call on other streams; it may not lock or cancel the
/// source, or lock, close, abort or fail the destination.
///
/// The host hears of a sink of its own by writes and the close, of a half of a transform stream by the transform
/// algorithm and the flush, and of the end of a port by the chunks and the close that the port posts. Calls enter
/// chunks and the end, and so do the messages that are delivered to a port; a call that throws enters nothing, and
/// then what was behind had come to an end, which nothing follows, or the source is a byte stream, into which no
/// empty chunk and none but bytes enters, or the end of a port, into which no host enqueues. A job enters nothing but
/// the end of a readable half, where it is the reaction to a flush that went well.
///
/// Of: links, pipes, read and write chunks.
pub fn each_link_keeps()
    ensures { EachLinkKeeps }
{}

/// A pipeTo of two streams that may be linked and that nobody has makes them a link, whatever it is told to prevent
/// and whatever its signal.
///
/// The streams are such as `each_link_keeps` tells; no pipe had them, and the destination has nothing queued and no
/// close asked. What is behind the host then is what was unheard, followed by what was in the two streams; or it is a
/// first part of that, and says that it is cut short.
///
/// Of: links, pipes, the steps up to the first read.
pub fn each_link_begins()
    ensures { EachLinkBegins }
{}

/// Where the destination of a link has the mark 1 and counts chunks, at most one chunk is in its queue or in flight,
/// in the pipe, or asked of the source, over any run that leaves the link alone.
///
/// One whose write is in flight is counted by the record that it keeps at the head of the queue.
///
/// Of: links, pipes, backpressure must be enforced.
pub fn each_link_has_room()
    ensures { EachLinkHasRoom }
{}

/// A link whose destination has the mark 1 and counts chunks begins with room for one chunk, as `each_link_has_room`
/// tells.
///
/// So it is of a pipe between two streams that may be linked and that nobody has.
///
/// Of: links, pipes, the steps up to the first read.
pub fn each_link_begins_with_room()
    ensures { EachLinkBeginsWithRoom }
{}

/// Two streams that may be linked and that nobody has stay so in any run that leaves them alone, whatever is enqueued
/// at the first and whatever others do.
///
/// They may be linked since each is the host's own, a half of a transform stream of the host's or the end of a port,
/// nobody has them, no pipe had, nothing was written to the second, and the first, where it is a byte stream,
/// allocates no rooms and has no descriptors.
///
/// Of: links.
pub fn each_free_pair_stays()
    ensures { EachFreePairStays }
{}

/// No job lets a chunk into a readable stream of the host's own, into the readable half of its transform stream, or
/// into the end of a port.
///
/// The stream may have a controller of either kind. Where the job is the reaction to the flush algorithm of that
/// transform stream, which went well, it may let in the end; else it lets in nothing.
///
/// Of: links, readable streams, transform streams, byte streams.
pub fn each_job_lets_in()
    ensures { EachJobLetsIn }
{}

/// A call that enqueues into the source of a link lets its chunk in, and nothing else, where it is answered `Done`;
/// where it throws it lets nothing in.
///
/// So it is of each readable stream of the host's own, of the readable half of its transform stream, and of the end
/// of a port. Where the call throws, what lies in the stream has come to an end, or it is a byte stream and the chunk
/// is empty or isn't bytes, or the end of a port.
///
/// Of: links, readable streams, transform streams, byte streams, ReadableStreamDefaultControllerEnqueue,
/// ReadableByteStreamControllerEnqueue.
pub fn each_enqueue_lets_in()
    ensures { EachEnqueueLetsIn }
{}
