//! Laws of which promises are settled and which are watched, over every run.
#![tactic(auto)]

ghost use Rattle.ws_steps.specs.Laws.{EachNameStays, NoneGoesAstray};

/// No call and no job settles or resolves a promise that isn't open: one that isn't there, has settled, or follows
/// another.
///
/// The job by which a promise settles that followed another finds it following. (It is said by a mark of which no run
/// has any; that a mark would stay is `each_mark_stays`.)
///
/// Of: promises, ReadableStreamClose, ReadableStreamReaderGenericInitialize, ReadableStreamReaderGenericRelease,
/// SetUpWritableStreamDefaultWriter, WritableStreamUpdateBackpressure, WritableStreamAbort,
/// WritableStreamRejectCloseAndClosedPromiseIfNeeded, WritableStreamDefaultWriterEnsureReadyPromiseRejected,
/// WritableStreamDefaultWriterRelease, TransformStreamSetBackpressure.
pub fn none_goes_astray()
    ensures { NoneGoesAstray }
{}

/// The promises that are watched are those that a reply of the run named.
///
/// Of each of these `Realm::outcome` and `Realm::rank` answer from then on, and of no other.
///
/// Of: promises.
pub fn each_name_stays()
    ensures { EachNameStays }
{}
