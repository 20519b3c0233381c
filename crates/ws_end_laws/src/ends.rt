//! Laws of how pipes begin, wait and end, and which passed on all that they read, over every run.

ghost use Rattle.ws_end_laws.specs.ends.PassedAll.{EachFulfilledPipePassedAllItRead, EachPipeThatClosedPassedAll, EachPipeThatMayClosePassedAll, EachUnfailingPipePassedAll};
ghost use Rattle.ws_end_laws.specs.ends.PipeCalls.{EachPipeCallMakesAPipe};
ghost use Rattle.ws_end_laws.specs.ends.PipeWaits.{EachPipeCountsItsParts, EachPipeWaitsForReady, EachWholeIsOpen};
ghost use Rattle.ws_end_laws.specs.ends.PromiseEnds.{EachOutcomeTellsTheEnd, EachPromiseIsOpenUntilTheEnd};

/// The promise that the call of a pipe answered is pending until the pipe is over, and then has the outcome of its
/// end.
///
/// From the end of the step in which the pipe is over, the pipe has ended once, and its promise is fulfilled with
/// undefined where it ended without an error, and rejected with the error with which it ended.
///
/// Of: pipes, finalize.
pub fn each_promise_is_open_until_the_end()
    ensures { EachPromiseIsOpenUntilTheEnd }
{}

/// The outcome of a pipe's promise tells how the pipe ended.
///
/// Where the promise is pending, the pipe came to no end; where it is fulfilled, it ended once, without an error; and
/// where it is rejected, it ended once, with that error.
///
/// Of: pipes, finalize.
pub fn each_outcome_tells_the_end()
    ensures { EachOutcomeTellsTheEnd }
{}

/// A pipeTo of two unlocked streams makes exactly one pipe and answers its promise, which is new; one of a locked
/// stream makes none and answers a promise that is rejected with a TypeError.
///
/// This is so whatever it finds. The pipe's number is that of the pipes before; its reader and writer take their
/// streams, the source is disturbed, and then the pipe is aborted where its signal was triggered before, and else
/// goes on. Where a stream or the signal isn't there, the call throws.
///
/// Of: pipes, the steps up to the first read, an aborted signal.
pub fn each_pipe_call_makes_a_pipe()
    ensures { EachPipeCallMakesAPipe }
{}

/// An operation of a pipe, whatever it finds, waits for the writer's promise of being ready by one reaction at most,
/// and only the look by this reaction ends that wait.
///
/// A look that finds none of the four conditions and no read under way reads where the destination wants a chunk;
/// else, where the destination is writable, it reacts to the promise of the writer, unless it has that reaction
/// already.
///
/// Of: pipes, backpressure must be enforced.
pub fn each_pipe_waits_for_ready()
    ensures { EachPipeWaitsForReady }
{}

/// An operation of a pipe, whatever it finds, settles the promise of all parts of its signal's action only with the
/// last part that is fulfilled, with the first that is rejected, or where there are none.
///
/// The last part that is fulfilled fulfils it, the first that is rejected rejects it with its reason, and where there
/// are none it is fulfilled; then the pipe has it no longer. No other operation settles a promise.
///
/// Of: pipes, the abort algorithm of a signal.
pub fn each_pipe_counts_its_parts()
    ensures { EachPipeCountsItsParts }
{}

/// As long as a pipe has the promise of all parts of its signal's action, that promise is pending.
///
/// Of: pipes, the abort algorithm of a signal.
pub fn each_whole_is_open()
    ensures { EachWholeIsOpen }
{}

/// A pipe that ended without an error, and that waited, or whose destination was neither erroring nor errored as it
/// began its action, or ended without one, has passed on all that it read, and dropped nothing.
///
/// With `preventClose` one that finds its destination erroring may drop a chunk and fulfil (a worked example has it).
///
/// Of: pipes, finalize.
pub fn each_unfailing_pipe_passed_all()
    ensures { EachUnfailingPipePassedAll }
{}

/// A pipe that ended without an error, and whose destination is closed, has passed on all that it read, and dropped
/// nothing.
///
/// Of: pipes, finalize.
pub fn each_pipe_that_closed_passed_all()
    ensures { EachPipeThatClosedPassedAll }
{}

/// A pipe without `preventClose` that ended without an error has passed on all that it read, and dropped nothing.
///
/// One that closes a destination which is erroring or errored ends with an error.
///
/// Of: pipes, closing must be propagated forward, finalize.
pub fn each_pipe_that_may_close_passed_all()
    ensures { EachPipeThatMayClosePassedAll }
{}

/// A pipe without `preventClose` whose promise is fulfilled has passed on all that it read, and dropped nothing,
/// however it found its destination.
///
/// Of: pipes, closing must be propagated forward, finalize.
pub fn each_fulfilled_pipe_passed_all_it_read()
    ensures { EachFulfilledPipePassedAllItRead }
{}
