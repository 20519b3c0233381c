//! Laws of what goes through transform streams, over every run.
//!
//! It shows too that the stream at a writable end of a port is lawful, which `ws_tee_port_laws` uses.
#![tactic(auto)]

ghost use Rattle.ws_transform_laws.specs.HalfLaws.{EachHalfIsLawful, EachHalfStep};
ghost use Rattle.ws_transform_laws.specs.TransformLaws.{EachActedIsTransformed, EachChunkIsRead, EachChunkIsWanted, EachStepEnters, FlushesClose, JobsEnterNothing, NoBackpressureIsWanted, TransformsWereHeard};

/// No chunk of the writable half of a transform stream is doubled or overtaken, and none is lost while the half is
/// writable or erroring, or where it closed.
///
/// What it handed on to the transform algorithm is the first part of what was written to it; while it is writable or
/// erroring, what was written was handed on or stands in its queue, in this order; its close algorithm is performed
/// at most once, and only where all that was written was handed on and each of these writes was fulfilled, and so it
/// is of a half that is closed.
///
/// Of: transform streams, TransformStreamDefaultSinkWriteAlgorithm, TransformStreamDefaultSinkCloseAlgorithm.
pub fn each_half_is_lawful()
    ensures { EachHalfIsLawful }
{}

/// In each step that finds the writable half of a transform stream writable or erroring, what was queued and what was
/// written is what was handed on and what is queued then, in order, unless the half is errored then.
///
/// This equation holds where the half is writable or erroring before the step, and after it isn't errored. In each
/// step what was handed on is the first part of what was queued and what was written. Nothing is written to a half
/// that has ended before, and it hands nothing on.
///
/// Of: transform streams, TransformStreamDefaultSinkWriteAlgorithm.
pub fn each_half_step()
    ensures { EachHalfStep }
{}

/// The chunks that the writable half of a transform stream handed on are those with which its transform algorithm was
/// performed, in their order.
///
/// Of: transform streams, TransformStreamDefaultControllerPerformTransform.
pub fn each_acted_is_transformed()
    ensures { EachActedIsTransformed }
{}

/// The writable half of a transform stream of the host handed on the values of the events that call its transform
/// algorithm, in the order of these events.
///
/// Of: transform streams, TransformStreamDefaultControllerPerformTransform, the algorithms of
/// SetUpTransformStreamDefaultControllerFromTransformer.
pub fn transforms_were_heard()
    ensures { TransformsWereHeard }
{}

/// What enters the readable half of a transform stream in a step is what the step's call enqueued, and then, of an
/// identity, the chunks that were transformed.
///
/// The first is the value of the call that enqueues into the half, where it is answered Done; the others are the
/// chunks with which the transform algorithm of an identity transform stream is performed, where the readable half
/// can take them, in their order.
///
/// Of: transform streams, TransformStreamDefaultControllerEnqueue, the algorithms of
/// SetUpTransformStreamDefaultControllerFromTransformer.
pub fn each_step_enters()
    ensures { EachStepEnters }
{}

/// No job enters anything into the readable half of a transform stream of the host.
///
/// Of: transform streams, TransformStreamDefaultControllerEnqueue.
pub fn jobs_enter_nothing()
    ensures { JobsEnterNothing }
{}

/// A job performs ReadableStreamDefaultControllerClose on the readable half of a transform stream only as the
/// reaction to the promise of its flush algorithm, which was fulfilled.
///
/// A readable half that was terminated before is closed by the read that takes its last chunk, and one that is
/// cancelled by the cancel.
///
/// Of: transform streams, TransformStreamDefaultSinkCloseAlgorithm.
pub fn flushes_close()
    ensures { FlushesClose }
{}

/// Where a transform stream has no backpressure between two steps, and its readable half can take a chunk, that half
/// wants one: a read waits, or its desired size is more than 0.
///
/// So it is where no reader of the readable half was released while a read of it waited.
///
/// Of: transform streams, TransformStreamSetBackpressure, TransformStreamDefaultSourcePullAlgorithm.
pub fn no_backpressure_is_wanted()
    ensures { NoBackpressureIsWanted }
{}

/// A chunk is transformed only where the readable half wants one or can take none, but for the step by which a write
/// goes on that had waited for the backpressure to change.
///
/// In each step of every run, where no reader of the readable half was released while a read of it waited, the
/// transform algorithm is performed only where the readable half wants a chunk (a read waits, or its desired size is
/// more than 0), or can take none. The exception is a step in which there is backpressure again: the host enqueued in
/// between. (Worked examples have that step, a chunk that is transformed after a cancel, and one after such a
/// release.)
///
/// Of: transform streams, TransformStreamDefaultControllerPerformTransform, TransformStreamDefaultSinkWriteAlgorithm.
pub fn each_chunk_is_wanted()
    ensures { EachChunkIsWanted }
{}

/// Where the readable half of a transform stream has mark 0 and can take a chunk, a chunk is transformed only while a
/// read of the half waits.
///
/// This has the premise and the exception of `each_chunk_is_wanted`: no reader of the readable half was released
/// while a read of it waited, and the step isn't the one by which a write goes on that had waited for the
/// backpressure to change, where there is backpressure again.
///
/// Of: transform streams, TransformStreamDefaultControllerPerformTransform.
pub fn each_chunk_is_read()
    ensures { EachChunkIsRead }
{}
