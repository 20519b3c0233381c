//! Laws of what goes through writable streams, over every run.
#![tactic(auto)]

ghost use Rattle.ws_steps.specs.Laws.{ActedWasHeard, ClosesWereHeard, EachWritableIsLawful, EachWritableStep};

/// No chunk of a writable stream over a sink of the host's is doubled or overtaken, and none is lost while the stream
/// is writable or erroring, or where it closed.
///
/// The values with which the write algorithm was performed are the first part of those that were written; while the
/// stream is writable or erroring, those that were written were acted on or stand in its queue, in this order; the
/// close algorithm is performed at most once, and only where all that was written was acted on and each of these
/// writes was fulfilled, and so it is of a stream that is closed.
///
/// Of: writable streams, WritableStreamDefaultWriterWrite, WritableStreamClose,
/// WritableStreamDefaultControllerAdvanceQueueIfNeeded.
pub fn each_writable_is_lawful()
    ensures { EachWritableIsLawful }
{}

/// What a writable stream of the host acted on are the values of the events by which the host hears that its write
/// algorithm is performed, in the order of these events.
///
/// Of: writable streams, WritableStreamDefaultControllerProcessWrite.
pub fn acted_was_heard()
    ensures { ActedWasHeard }
{}

/// The host hears of the close algorithm of a writable stream of its own as often as it is performed.
///
/// By `each_writable_is_lawful` that is at most once.
///
/// Of: writable streams, WritableStreamDefaultControllerProcessClose.
pub fn closes_were_heard()
    ensures { ClosesWereHeard }
{}

/// In each step that finds a writable stream of the host writable or erroring, what was queued and what was written
/// is what was acted on and what is queued then, in order, unless the stream is errored then.
///
/// This equation holds where the stream is writable or erroring before the step, and after it isn't errored. In each
/// step what was acted on is the first part of what was queued and what was written. Nothing is written to a stream
/// that has ended before, and it acts on nothing.
///
/// Of: writable streams, WritableStreamDefaultWriterWrite, WritableStreamDefaultControllerProcessWrite.
pub fn each_writable_step()
    ensures { EachWritableStep }
{}
