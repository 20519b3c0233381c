//! Laws over every run of a realm: which writes ended well, what a pipe hears of its action, and with which reason it
//! ends, in every list of calls, jobs and events that the host takes.

ghost use Rattle.ws_end_laws.specs.successes.Heard.{EachOutcomeHeardIsThePromises, EachOutcomeOfAPartIsItsPromises, EachPipeEndsAsItShutDown, EachPipeEndsAsItsAction};
ghost use Rattle.ws_end_laws.specs.successes.Successes.{EachFulfilledPipeWroteAllItRead, EachPassHasAPromise, EachUnfailingPipeCloses, EachWriteBeforeAFailureSucceeded, EachWriteOfAPipeThatFoundNoFailureSucceeded, EachWriteOfAnUnfailingPipeSucceeded, NoneIsRejectedBeforeAFailure};

/// While a writable stream is writable or closed, no promise of a write that was appended to it is rejected.
///
/// Each is pending, or fulfilled with undefined. So it is of every stream, the host's own or not.
///
/// Of: writable streams, WritableStreamDefaultWriterWrite, WritableStreamFinishInFlightWriteWithError.
pub fn none_is_rejected_before_a_failure()
    ensures { NoneIsRejectedBeforeAFailure }
{}

/// Of a pipe whose action has begun, or which is over, each write is fulfilled, as long as its destination is neither
/// erroring nor errored.
///
/// That is so whatever it isn't to do, and however it ends or was aborted.
///
/// Of: pipes, shutdown with an action, finalize.
pub fn each_write_before_a_failure_succeeded()
    ensures { EachWriteBeforeAFailureSucceeded }
{}

/// Where a pipe is told that its action has settled, the outcome is that of a promise to which it was to react so.
///
/// Of: pipes, shutdown with an action.
pub fn each_outcome_heard_is_the_promises()
    ensures { EachOutcomeHeardIsThePromises }
{}

/// Where a pipe is told that a part of its signal's action has settled, the outcome is that of a promise to which it was
/// to react so.
///
/// Of: pipes, the abort algorithm of a signal.
pub fn each_outcome_of_a_part_is_its_promises()
    ensures { EachOutcomeOfAPartIsItsPromises }
{}

/// A pipe that is over and performed an action ended by the one promise of that action, which has settled.
///
/// Its own promise is rejected with the reason of that promise where it is rejected, and else with the error of the
/// shutdown, and fulfilled with undefined where there is none.
///
/// Of: pipes, shutdown with an action, finalize.
pub fn each_pipe_ends_as_its_action()
    ensures { EachPipeEndsAsItsAction }
{}

/// A pipe that is over shut down by the first of the four conditions that held, or by its signal, and its promise is
/// answered by that shutdown.
///
/// There is the moment at which it shut down, and, where the shutdown has an action, the moment at which it began it,
/// with all that this caused. It is rejected with the action's reason where the action was rejected, and else with
/// the error of the condition or the signal; and fulfilled only where its source had closed as it shut down.
///
/// Of: pipes, errors must be propagated forward, errors must be propagated backward, closing must be propagated
/// forward, closing must be propagated backward, shutdown with an action, finalize.
pub fn each_pipe_ends_as_it_shut_down()
    ensures { EachPipeEndsAsItShutDown }
{}

/// Of a pipe that is fulfilled while its destination is neither erroring nor errored each write succeeded, however the
/// run goes on.
///
/// That is so whatever it isn't to do. Its destination may fail afterwards; the pipe makes no further write.
///
/// Of: pipes, finalize.
pub fn each_write_of_an_unfailing_pipe_succeeded()
    ensures { EachWriteOfAnUnfailingPipeSucceeded }
{}

/// A fulfilled pipe has had all that it read written with success, unless it wasn't to close its destination, which
/// was erroring or errored as the pipe ended.
///
/// It passed on all that it read, and dropped nothing. The exception is the standard's: with `preventClose` a pipe
/// waits until its writes have settled, and doesn't ask how (a worked example shows one that fulfils so). It is enough
/// that the destination was neither erroring nor errored at the moment at which the pipe began its action or ended
/// without one, or isn't so at the end of the run.
///
/// Of: pipes, closing must be propagated forward, shutdown with an action, finalize.
pub fn each_fulfilled_pipe_wrote_all_it_read()
    ensures { EachFulfilledPipeWroteAllItRead }
{}

/// A pipe has made as many writes, each with a promise of its own, as it passed chunks on.
///
/// Of: pipes, the promise of a write.
pub fn each_pass_has_a_promise()
    ensures { EachPassHasAPromise }
{}

/// Each write of a pipe is fulfilled whose destination was neither erroring nor errored at the moment at which the pipe
/// began its action, or ended without one.
///
/// That is so whatever fails later, in the same step too.
///
/// Of: pipes, shutdown with an action, finalize.
pub fn each_write_of_a_pipe_that_found_no_failure_succeeded()
    ensures { EachWriteOfAPipeThatFoundNoFailureSucceeded }
{}

/// A pipe without `preventClose` that has begun its action or ended, without an error, has closed its destination.
///
/// The destination is closing or closed then, or it has failed: it isn't both writable and open for more.
///
/// Of: pipes, closing must be propagated forward, WritableStreamDefaultWriterCloseWithErrorPropagation.
pub fn each_unfailing_pipe_closes()
    ensures { EachUnfailingPipeCloses }
{}
