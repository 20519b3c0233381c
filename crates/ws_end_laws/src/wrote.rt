//! Laws of what pipes wrote to their destinations, over every run.

ghost use Rattle.ws_end_laws.specs.wrote.WroteLaws.{EachDestinationIsItsPipes, EachEndedSourceIsPassedOn, EachFulfilledPipePassedAll, EachPipeWithoutAnErrorPassedAll, EachPipeWroteAFront, NoneActsWhileAChunkIsLeft};

/// In a step that finds a pipe not over, what is written to its destination, whoever writes it, is what the pipe
/// passes on, unless the destination refuses it.
///
/// Of: pipes, the promise of a write.
pub fn each_destination_is_its_pipes()
    ensures { EachDestinationIsItsPipes }
{}

/// What the destination of a pipe acts on while the pipe isn't over is a first part of what was queued there, then
/// the chunk that the pipe held, then what the pipe read.
///
/// This is said from any moment at which a pipe flows or waits until the end of the step in which it is over. What
/// was written to its destination since, whoever wrote it, is a first part of what the pipe passed on, and all of it
/// where the destination refuses no write at the end.
///
/// Of: pipes, writable streams, read and write chunks.
pub fn each_pipe_wrote_a_front()
    ensures { EachPipeWroteAFront }
{}

/// A pipe that waited, or whose destination was writable and not closing, begins its action, or ends without one,
/// only once it has passed on all that it read so far, and it dropped nothing.
///
/// Of: pipes, shutdown with an action.
pub fn none_acts_while_a_chunk_is_left()
    ensures { NoneActsWhileAChunkIsLeft }
{}

/// A pipe whose source had ended before it acted, and that waited, or whose destination was writable and not closing,
/// has passed on all that it read, and drops nothing, however the run goes on.
///
/// The source has ended before the step in which the pipe begins its action, or ends without one.
///
/// Of: pipes, shutdown with an action.
pub fn each_ended_source_is_passed_on()
    ensures { EachEndedSourceIsPassedOn }
{}

/// A pipe whose shutdown has no error, and that waited, or whose destination was writable and not closing, has passed
/// on all that it read as it begins its action, or ends without one, and drops nothing, however the run goes on.
///
/// Its source was closed before that step.
///
/// Of: pipes, closing must be propagated forward.
pub fn each_pipe_without_an_error_passed_all()
    ensures { EachPipeWithoutAnErrorPassedAll }
{}

/// A pipe that ended without an error, so that its promise is fulfilled, has passed on all that it read, and dropped
/// nothing, where it waited, or its destination was writable and not closing as it began its action, or ended without
/// one.
///
/// Of: pipes, finalize.
pub fn each_fulfilled_pipe_passed_all()
    ensures { EachFulfilledPipePassedAll }
{}
