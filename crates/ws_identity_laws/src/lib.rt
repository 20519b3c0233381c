//! Laws of what passes along a pipe between any two streams, and through identity transform streams, over every run
//! that leaves them alone.
//!
//! The ends of such a link may be any streams, whichever their controllers, also halves of identity transform
//! streams; and a way leads through these from link to link. The laws tell by the effects that are performed what a
//! stream acts on and what it takes in, whoever performs its algorithms.
#![tactic(auto)]

ghost use Rattle.ws_identity_laws.specs.Laws.{EachAnyFreePairStays, EachAnyLinkBegins, EachLinkIsAny, EachLinkPasses};
ghost use Rattle.ws_identity_laws.specs.Opening.{EachNewPairIsFree, EachWayOpens};
ghost use Rattle.ws_identity_laws.specs.Through.{EachIdentityEnqueues, EachIdentityPasses, EachWayPasses};
ghost use Rattle.ws_identity_laws.specs.Heard.{EachWayIsHeard};
ghost use Rattle.ws_identity_laws.specs.Told.{EachActIsTold, EachTakeIsTold, EachTakeOfBytesIsTold};

/// On a link between any two streams that a run leaves alone, what the destination acted on, followed by what lies on
/// the link then, is what lay on it before, followed by what its source took in; or it is a first part of that, and
/// says that it is cut short.
///
/// The ends may be halves of identity transform streams too, and the source a branch of a tee, where no other pipe,
/// no tee and no reader or writer has these. From any such link on the link stays. A destination acts on a chunk as
/// it hands it on to the algorithm of its host or of its transform stream, and on its end as its close algorithm is
/// performed. A source takes in a chunk that is enqueued, and its end as its controller closes it, by whatever means,
/// where it can. All this is told by the effects that are performed, and not by calls and events. A byte stream may
/// be the source, where it is bare, as its controller allocates no rooms, and it has no descriptors and no BYOB
/// reader: what it takes in are then the chunks of bytes that are enqueued.
///
/// Of: links, pipes, read and write chunks.
pub fn each_link_passes()
    ensures { EachLinkPasses }
{}

/// Each link of which the host hears, as `each_link_keeps` tells it, is a link between any two streams, as
/// `each_link_passes` tells it.
///
/// Of: links.
pub fn each_link_is_any()
    ensures { EachLinkIsAny }
{}

/// A pipeTo of any two streams that nobody has makes them a link, whatever it is told to prevent and whatever its
/// signal.
///
/// The source is bare where it is a byte stream; no pipe had the two streams, and the destination has nothing queued
/// and no close asked. What the destination acts on in that call, followed by what lies on the link then, is what was
/// in the two streams, followed by what the source took in; or it is a first part of that, and says that it is cut
/// short.
///
/// Of: links, pipes, the steps up to the first read.
pub fn each_any_link_begins()
    ensures { EachAnyLinkBegins }
{}

/// Any two streams that may be linked and that nobody has stay so in any run that leaves them alone, whatever is
/// enqueued at the first and whatever others do.
///
/// They may be linked since nobody has them, no pipe had, nothing was written to the second, and the first is bare
/// where it is a byte stream.
///
/// Of: links.
pub fn each_any_free_pair_stays()
    ensures { EachAnyFreePairStays }
{}

/// Where the host itself neither enqueues into the readable half of an identity transform stream nor terminates it,
/// what its readable half takes in is what its writable half acts on, or a first part of that which says so.
///
/// In any such run it stays an identity, and what its readable half took in, followed by what is in it then, is what
/// was in it before, followed by what its writable half acted on; or it is a first part of that, and says that it is
/// cut short. No chunk is in it between steps, only its end, from the close of the writable half on; and where the
/// readable half can take nothing, since it ended or is closing, it says that what comes is lost. (Of one into which
/// the host itself enqueues, or which it terminates, the law of a link holds of the halves, but this isn't said.)
///
/// Of: ways, transform streams, the algorithms of SetUpTransformStreamDefaultControllerFromTransformer,
/// TransformStreamDefaultControllerTerminate.
pub fn each_identity_passes()
    ensures { EachIdentityPasses }
{}

/// What an identity transform stream enqueues by itself into its readable half are the chunks that its writable half
/// acts on, in their order, as long as the readable half can take something, and from then on no more.
///
/// This is so in any run at all, whatever the host does; so it is a first part of these in each case. In each step
/// what the host enqueues there by its call comes before (`each_step_enters`).
///
/// Of: ways, transform streams, the algorithms of SetUpTransformStreamDefaultControllerFromTransformer.
pub fn each_identity_enqueues()
    ensures { EachIdentityEnqueues }
{}

/// From end to end through any number of identity transform streams, what the destination acted on, followed by what
/// lies on the way then, is what lay on it before, followed by what the source took in; or it is a first part of
/// that, and says that it is cut short.
///
/// A pipe goes out of each transform stream into the next or into the destination, and one into the first. So it is
/// in any run that leaves their links alone and them to themselves: the host neither enqueues into a readable half
/// nor terminates a transform stream.
///
/// Of: ways, pipes, transform streams.
pub fn each_way_passes()
    ensures { EachWayPasses }
{}

/// Where streams were only made, each that gives chunks and each that takes them may be linked, but for a byte stream
/// whose controller allocates rooms.
///
/// The streams may be any, with any marks, sizes and start algorithms.
///
/// Of: ways, links.
pub fn each_new_pair_is_free()
    ensures { EachNewPairIsFree }
{}

/// Where streams were only made, the pipes from a source of the host's own through any number of identity transform
/// streams to a sink of its own, one after another, make a way on which nothing lies and over which nothing went.
///
/// The pipes have no signal, and may be told to prevent whatever they are.
///
/// Of: ways, pipes, the steps up to the first read.
pub fn each_way_opens()
    ensures { EachWayOpens }
{}

/// From a source of the host's own through identity transform streams to a sink of its own, what the host hears
/// written to the sink is what it enqueued at the source, or a first part of that, in order, whatever fails; and all
/// of that, where it hears the close.
///
/// In the host's own calls and events: from a way on on which nothing lies and over which nothing went, in any run
/// that leaves its links alone and the identities to themselves, the values of the writes that the host hears of are
/// those whose enqueue into the source was answered Done.
///
/// Of: ways, pipes, host calls.
pub fn each_way_is_heard()
    ensures { EachWayIsHeard }
{}

/// What a stream acts on is what the history of its writes tells: the chunks that it handed on, in their order, and
/// its end where its close algorithm was performed.
///
/// After any run this is so over another run. After its end a stream hands nothing on.
///
/// Of: ways, writable streams.
pub fn each_act_is_told()
    ensures { EachActIsTold }
{}

/// The chunks that a stream without a byte controller takes in are those that its history tells as entered, in their
/// order.
///
/// Such a history tells nothing of a byte stream.
///
/// Of: ways, readable streams.
pub fn each_take_is_told()
    ensures { EachTakeIsTold }
{}

/// The chunks that a byte stream takes in are the values of the calls that enqueue into it and are answered Done, in
/// their order.
///
/// Of: ways, byte streams, ReadableByteStreamControllerEnqueue.
pub fn each_take_of_bytes_is_told()
    ensures { EachTakeOfBytesIsTold }
{}
