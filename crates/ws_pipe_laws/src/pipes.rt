//! Laws of what pipes and signals do, in each operation and over every run.
//!
//! In each operation, whatever it finds; over every run the course of a pipe, what goes through it, and in which
//! order a signal aborts its pipes.

ghost use Rattle.ws_pipe_laws.specs.pipes.PipeMoves.{EachPipeBeginsFlowing, EachPipeKeepsItsEnds, EachPipeMoves, EachPipeStays};
ghost use Rattle.ws_pipe_laws.specs.pipes.PipeReads.{EachPassIsAWrite, EachPassIsAppended, EachPipeHasACourse, EachPipePasses, EachPipePassesAFront, EachPipeReadsItsSource, EachReadMayStart, EachStepPasses, NoOtherStartsARead, NoReadStartsOnceShut, NoneBeginsWithARead, NonePassesOnceActing, OneReadWaitsAtMost};
ghost use Rattle.ws_pipe_laws.specs.pipes.PipeWrites.{EachActionIsHeard};
ghost use Rattle.ws_pipe_laws.specs.pipes.SignalLaws.{EachReasonStays, EachSignalKeepsOrder, EachTriggerAbortsInOrder};

/// An operation of a pipe, whatever it finds, lets it go on, or leads it one step along its course: it shuts down,
/// waits for its writes, performs the action of its shutdown, or ends.
///
/// The phase stays, and neither an action nor an end comes; or the pipe leaves flowing with the shutdown of the first
/// of the standard's four conditions that holds, or of its signal, and waits, where the destination was writable and
/// not closing, until it holds no chunk and each of its writes has settled; or it performs the one action that the
/// shutdown names, or ends where there is none; or its action has settled, and it ends. Its end releases the writer,
/// then the reader, has its signal forget it, and settles its promise.
///
/// Of: pipes, errors must be propagated forward, shutdown with an action, finalize.
pub fn each_pipe_moves()
    ensures { EachPipeMoves }
{}

/// Only a pipeTo and the transfer of a stream make a pipe, which flows, with no read under way, no chunk held and
/// each write settled.
///
/// That is so whatever they find: a pipeTo makes one between its two streams, whose promise it answers, and a
/// transfer one between the stream and the new end of a port, whose promise it tells nobody.
///
/// Of: pipes, ports, the steps up to the first read, the transfer steps of a readable and of a writable stream.
pub fn each_pipe_begins_flowing()
    ensures { EachPipeBeginsFlowing }
{}

/// An operation of a pipe keeps its streams, its promise, its signal, and what it isn't to do, whatever it finds.
///
/// Of: pipes.
pub fn each_pipe_keeps_its_ends()
    ensures { EachPipeKeepsItsEnds }
{}

/// From the call that made it, over any run from any slots, a pipe stays there, and keeps its streams, its promise,
/// its signal, and what it isn't to do.
///
/// Of: pipes.
pub fn each_pipe_stays()
    ensures { EachPipeStays }
{}

/// An operation of a pipe starts no read, or one: by a look while it flows, at streams of which none of the four
/// conditions holds, while no read of it is under way and the destination wants a chunk.
///
/// Of: pipes, read and write chunks, backpressure must be enforced.
pub fn each_read_may_start()
    ensures { EachReadMayStart }
{}

/// No effect but an operation of the pipe starts a read of it.
///
/// Of: pipes, read and write chunks.
pub fn no_other_starts_a_read()
    ensures { NoOtherStartsARead }
{}

/// Neither a call nor a job begins with a read of a pipe, whatever it finds.
///
/// Of: pipes, read and write chunks.
pub fn none_begins_with_a_read()
    ensures { NoneBeginsWithARead }
{}

/// From the step on in which a pipe leaves flowing no read of it starts: a step that ends with the pipe not flowing
/// starts none, whatever it finds.
///
/// Of: pipes, shutdown must stop activity.
pub fn no_read_starts_once_shut()
    ensures { NoReadStartsOnceShut }
{}

/// A pipe leaves flowing at most once, performs at most one action, which is the one of its shutdown, and ends at
/// most once.
///
/// Without an action it ends with the error of its shutdown, and after one with the action's reason where it was
/// rejected, and else with the error of the shutdown.
///
/// Of: pipes, shutdown with an action, finalize.
pub fn each_pipe_has_a_course()
    ensures { EachPipeHasACourse }
{}

/// The job of a reaction of a pipe to its action, or to a part of it, begins with telling the pipe the outcome that
/// the reaction was given.
///
/// Of: pipes, finalize, the abort algorithm of a signal.
pub fn each_action_is_heard()
    ensures { EachActionIsHeard }
{}

/// The first trigger of a signal aborts each of its pipes, in their order, and the signal has the reason, where there
/// is such a signal; a later one causes nothing and changes nothing of the signal.
///
/// Of: signals, signal abort.
pub fn each_trigger_aborts_in_order()
    ensures { EachTriggerAbortsInOrder }
{}

/// A signal that has a reason keeps it, over any run.
///
/// Of: signals, signal abort.
pub fn each_reason_stays()
    ensures { EachReasonStays }
{}

/// The pipes of a signal are those that were added to it and not forgotten afterwards, in the order in which they
/// were added.
///
/// Of: signals, AbortSignal, remove.
pub fn each_signal_keeps_order()
    ensures { EachSignalKeepsOrder }
{}

/// What a pipe read is what it passed on to its destination's writer, then what it dropped, then what it holds, in
/// this order.
///
/// While it flows or waits it dropped nothing, and at most one chunk is ever dropped or still being read.
///
/// Of: pipes, the pipe's read request, read and write chunks.
pub fn each_pipe_passes()
    ensures { EachPipePasses }
{}

/// The chunks that a pipe passed on are a first part of those that it read, and shorter by at most one.
///
/// Of: pipes, the pipe's read request.
pub fn each_pipe_passes_a_front()
    ensures { EachPipePassesAFront }
{}

/// A read of a pipe waits at a stream, or the pipe holds the chunk of one, only while it is reading, and only one
/// does.
///
/// Of: pipes, the pipe's read request.
pub fn one_read_waits_at_most()
    ensures { OneReadWaitsAtMost }
{}

/// What an operation of a pipe passes on, whatever it finds, are the chunks of the writes that it causes, each to the
/// pipe's destination and with a new promise.
///
/// Of: pipes, the promise of a write.
pub fn each_pass_is_a_write()
    ensures { EachPassIsAWrite }
{}

/// What is told of a pipe as passed on is what is told of its destination as written by it, unless the destination
/// refuses it.
///
/// These are two histories, which agree at each write of a pipe, whatever it finds; and of no other stream is it
/// told.
///
/// Of: pipes, the promise of a write.
pub fn each_pass_is_appended()
    ensures { EachPassIsAppended }
{}

/// In a step that finds a pipe flowing or waiting, the chunk that it held and what it read are what it passed on and
/// the chunk that it holds afterwards, in this order.
///
/// Of: pipes, the pipe's read request.
pub fn each_step_passes()
    ensures { EachStepPasses }
{}

/// What a pipe read is what its source gave to its reads, in this order, and no other stream gave it anything.
///
/// Of: pipes, the pipe's read request.
pub fn each_pipe_reads_its_source()
    ensures { EachPipeReadsItsSource }
{}

/// In a step that finds a pipe whose action began, or which is over, it passes nothing on and starts no read,
/// whatever it finds.
///
/// Of: pipes, shutdown must stop activity.
pub fn none_passes_once_acting()
    ensures { NonePassesOnceActing }
{}
