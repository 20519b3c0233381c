//! Laws of what the host is called for, and what it settled well, over every run.

ghost use Rattle.ws_end_laws.specs.hosts.HostLaws.{EachCloseWasSettled, EachEventIsItsCall, EachFlushWasSettled, EachFulfilledPipeClosedItsDestination, EachWriteOfAFulfilledPipeSucceeded, EachWriteWasSettled};

/// The number of a call of a host's algorithm is its place among all such calls of the run, in their order, and each
/// event that tells of one has its number.
///
/// A longer run has made the same calls first. So a number is of one call.
///
/// Of: host calls.
pub fn each_event_is_its_call()
    ensures { EachEventIsItsCall }
{}

/// The host was called to close each writable stream of its own that is closed, and settled the promise of that call
/// well.
///
/// Of: host calls, writable streams, WritableStreamFinishInFlightClose.
pub fn each_close_was_settled()
    ensures { EachCloseWasSettled }
{}

/// A pipe without `preventClose` that ended without an error, and whose destination was writable and not closing as
/// it was made, has closed its destination.
///
/// Its promise is fulfilled then. Where the destination is a sink of the host's own, the host settled that close well;
/// of the half of a transform stream and of the end of a port that isn't said.
///
/// Of: pipes, host calls, closing must be propagated forward, finalize.
pub fn each_fulfilled_pipe_closed_its_destination()
    ensures { EachFulfilledPipeClosedItsDestination }
{}

/// Each write that a pipe without `preventClose` made is fulfilled with undefined where the pipe's promise is
/// fulfilled, whatever its destination was as it was made.
///
/// Of a pipe with `preventClose` it is so where its destination hadn't failed
/// (`each_fulfilled_pipe_wrote_all_it_read`).
///
/// Of: pipes, the promise of a write.
pub fn each_write_of_a_fulfilled_pipe_succeeded()
    ensures { EachWriteOfAFulfilledPipeSucceeded }
{}

/// Of each writable stream of its own, the host settled each write well that ended well, the n-th of them by the
/// promise of the n-th call of its write algorithm.
///
/// Of: host calls, writable streams, WritableStreamFinishInFlightWrite.
pub fn each_write_was_settled()
    ensures { EachWriteWasSettled }
{}

/// Where the next job is the reaction of a transform stream of the host's to its flush algorithm, after a fulfilment,
/// the host was called to flush it, and settled the promise of that call well.
///
/// So the readable half ends by a job only after that.
///
/// Of: host calls, transform streams, TransformStreamDefaultSinkCloseAlgorithm.
pub fn each_flush_was_settled()
    ensures { EachFlushWasSettled }
{}
