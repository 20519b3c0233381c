//! Laws of the promises of writes, over every run.
#![tactic(auto)]

ghost use Rattle.ws_steps.specs.Laws.{EachWriteIsSettled, WritesWereAnswered};

/// The promise of a write that ended well is fulfilled, and once the stream has ended those of all its other writes
/// that were queued are rejected.
///
/// Of each writable stream, the promises that writes were given, where these were appended to its queue, are as many
/// as the values that were written. The first of them, as many as writes ended well, are fulfilled with undefined,
/// and where the close algorithm was performed, all are; and where the stream has ended, all others are rejected.
///
/// Of: writable streams, WritableStreamFinishInFlightWrite, WritableStreamFinishInFlightClose,
/// WritableStreamDealWithRejection.
pub fn each_write_is_settled()
    ensures { EachWriteIsSettled }
{}

/// What was written to a writable stream is what calls and pipes wrote to it, in order, and the promises of these
/// writes are those that the calls answered and the pipes made.
///
/// In each step that is what the step's call wrote, and what a pipe wrote that held a chunk and may write, where the
/// write was appended. These are the promises of which `each_write_is_settled` speaks.
///
/// Of: writable streams, pipes, WritableStreamDefaultWriterWrite.
pub fn writes_were_answered()
    ensures { WritesWereAnswered }
{}
