//! Laws of which chunks a transform stream is given where one is wanted, by when the host enqueues.
//!
//! They speak of hosts that enqueue into the readable half only while an algorithm of its transformer is at work, or
//! while no write waits for the backpressure to change.
#![tactic(auto)]

ghost use Rattle.ws_want_laws.specs.WantLaws.{EachAnswerIsRead, EachAnswerIsWanted, EachTransformIsRead, EachTransformIsWanted, NoneGoesOnPressed, NoneWaitsAtWork, NoneWaitsForAnAnswer};

/// Where the host enqueues into the readable half of a transform stream only while no write of the writable half
/// waits for the backpressure to change, no write that waited goes on under backpressure.
///
/// Into most identity transform streams the host enqueues nothing, and so it is there.
///
/// Of: transform streams, TransformStreamSetBackpressure, TransformStreamDefaultSinkWriteAlgorithm.
pub fn none_goes_on_pressed()
    ensures { NoneGoesOnPressed }
{}

/// Where the host enqueues into the readable half of a transform stream only while no write waits for the
/// backpressure to change, a chunk is transformed only where that half wants one or can take none.
///
/// This is `each_chunk_is_wanted` without its exception, in each step of such a run, where no reader of the readable
/// half was released while a read of it waited.
///
/// Of: transform streams, TransformStreamDefaultControllerPerformTransform, TransformStreamDefaultControllerEnqueue.
pub fn each_transform_is_wanted()
    ensures { EachTransformIsWanted }
{}

/// Where the host enqueues into the readable half of a transform stream only while no write waits for the
/// backpressure to change, and that half has mark 0 and can take a chunk, a chunk is transformed only while a read of
/// it waits.
///
/// No reader of the readable half was released while a read of it waited, as in `each_transform_is_wanted`.
///
/// Of: transform streams, TransformStreamDefaultControllerPerformTransform.
pub fn each_transform_is_read()
    ensures { EachTransformIsRead }
{}

/// While the start or the transform algorithm of a transform stream of the host is at work, and from its flush on, no
/// write of the writable half waits for the backpressure to change.
///
/// An algorithm is at work from the event by which the host is called until it settles that call.
///
/// Of: transform streams, TransformStreamDefaultSinkWriteAlgorithm, InitializeTransformStream.
pub fn none_waits_for_an_answer()
    ensures { NoneWaitsForAnAnswer }
{}

/// While the cancel algorithm of a transform stream of the host is at work, no write of the writable half waits for
/// the backpressure to change, or the readable half can take no chunk.
///
/// It is at work from the event by which the host is called until it settles that call.
///
/// Of: transform streams, TransformStreamDefaultSinkWriteAlgorithm, TransformStreamDefaultSourceCancelAlgorithm,
/// TransformStreamDefaultSinkAbortAlgorithm.
pub fn none_waits_at_work()
    ensures { NoneWaitsAtWork }
{}

/// Where the host enqueues into the readable half of its transform stream only while an algorithm of its transformer
/// is at work, a chunk is transformed only where that half wants one or can take none.
///
/// An algorithm is at work from the event that calls its start, transform or cancel algorithm until the host settles
/// that call, and from the one that calls it to flush on. This is `each_chunk_is_wanted` without its exception, in
/// each step of such a run, where no reader of the readable half was released while a read of it waited. (A worked
/// example has a host that keeps to that, and one that doesn't.)
///
/// Of: transform streams, TransformStreamDefaultControllerPerformTransform, TransformStreamDefaultControllerEnqueue.
pub fn each_answer_is_wanted()
    ensures { EachAnswerIsWanted }
{}

/// Where the host enqueues into the readable half of its transform stream only while an algorithm of its transformer
/// is at work, and that half has mark 0 and can take a chunk, a chunk is transformed only while a read of it waits.
///
/// No reader of the readable half was released while a read of it waited, as in `each_answer_is_wanted`.
///
/// Of: transform streams, TransformStreamDefaultControllerPerformTransform.
pub fn each_answer_is_read()
    ensures { EachAnswerIsRead }
{}
