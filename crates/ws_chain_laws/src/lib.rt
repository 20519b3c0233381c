//! Laws of what lies on a chain of links, from the opening of its realm on.
//!
//! A chain is a source, transform streams whose algorithms are the host's, and a sink, with a pipe from each of them to
//! the next. The source is the host's own, with a default controller or with a byte controller that allocates no rooms,
//! or the readable end of a port; the sink is the host's own, or the writable end of a port. Several chains that are
//! opened in one realm are its segments.
#![tactic(auto)]

ghost use Rattle.ws_chain_laws.specs.Nodes.{EachEventIsHeardAtOneLink, EachNodesCallBrings, EachNodesCallLeaves};
ghost use Rattle.ws_chain_laws.specs.Opening.{EachChainBegins, EachWiringBegins};
ghost use Rattle.ws_chain_laws.specs.Outcomes.{EachChainEnds, EachEndWasFlushed};
ghost use Rattle.ws_chain_laws.specs.Runs.{EachNodeGoes, EachWiringGoes};
ghost use Rattle.ws_chain_laws.specs.Sound.{EachSoundLinkIsWhole};
ghost use Rattle.ws_chain_laws.specs.Laws.{EachCallKeepsChain, EachChainHasRoom, EachChainIsByNumber, EachChainKeeps, EachEventKeepsChain, EachJobKeepsChain};

/// The list of the links of a chain is wired just where each of them, by its number, is a link with room for one chunk.
///
/// Link k goes by pipe k from stream 2k to stream 2k + 1. Chunks come to the first by the source, and to the others by
/// the transform stream before; the host hears of the last by the sink, and of the others by the transform stream
/// behind.
///
/// Of: chains, links.
pub fn each_chain_is_by_number()
    ensures { EachChainIsByNumber }
{}

/// In any run that leaves each link of a chain alone it stays a chain, and on each link no chunk is doubled or
/// overtaken, and none is lost unless that is told.
///
/// In a chain of n transform streams, stream 0 is a source of the host's own, with a default controller or a byte
/// stream that allocates no rooms, or the readable end of a port; transform stream k takes chunks by stream 2k + 1 and
/// gives them by stream 2k + 2, stream 2n + 1 is a sink of the host's own or the writable end of a port, and pipe k
/// goes from stream 2k to stream 2k + 1, each a link with room for one chunk. On each link what the host heard,
/// followed by what is behind it then, is what was behind it before, followed by what entered; or it is a first part
/// of that, and says that it is cut short. What enters and what is heard is told by the number of the link, the number
/// of transform streams, and the kinds of the source and the sink.
///
/// Of: chains, links.
pub fn each_chain_keeps()
    ensures { EachChainKeeps }
{}

/// By a call that leaves each link of a chain alone the chain stays one, the host hears of nothing, and on each link
/// what is behind the host is what was behind it before, followed by what entered, or a first part of that which says
/// so.
///
/// Of: chains, links.
pub fn each_call_keeps_chain()
    ensures { EachCallKeepsChain }
{}

/// By a job a chain stays one, the host hears of nothing, and nothing enters a link but the end of one stream, where
/// the job is the reaction to the flush of a transform stream that went well.
///
/// On each link what is behind the host is what was behind it before, followed by what entered, or a first part of
/// that which says so.
///
/// Of: chains, links, TransformStreamDefaultSinkCloseAlgorithm.
pub fn each_job_keeps_chain()
    ensures { EachJobKeepsChain }
{}

/// By the taking of an event a chain stays one, nothing enters, and on each link what the host heard, followed by
/// what is behind it then, is what was behind it before, or a first part of that which says so.
///
/// Of: chains, links.
pub fn each_event_keeps_chain()
    ensures { EachEventKeepsChain }
{}

/// The sources, transform streams and sinks of any segments, which are made one after another in a new realm and then
/// piped, are links, behind none of which anything lies.
///
/// Each segment is a chain of its own: from a source of the host's own or the readable end of a port, by transform
/// streams of the host's, to a sink of the host's own or the writable end of a port. There is room for so many streams.
/// Their streams are made in order with start algorithms of undefined, with the mark 0 where they give chunks and the
/// mark 1 where they take them, and count their chunks, but for a byte stream, which allocates no rooms. Then there is
/// perhaps a signal, and then the pipes in order, nothing prevented and the last with the signal. Each pipe is answered
/// the promise that it keeps, which is watched, and no port posts.
///
/// Of: chains, links, the steps up to the first read.
pub fn each_wiring_begins()
    ensures { EachWiringBegins }
{}

/// A source, any number of transform streams of the host's and a sink that are made in a new realm and piped one to
/// the next are a chain, behind whose links nothing lies.
///
/// The source has a controller of either kind, or is the readable end of a port, the sink may be the writable end of
/// one, and there is room for so many streams. The calls that make these streams, a signal perhaps and the pipes are
/// those of one segment (`each_wiring_begins`). Each pipe is answered the promise that it keeps, which is watched, and
/// no port posts.
///
/// Of: chains, the steps up to the first read.
pub fn each_chain_begins()
    ensures { EachChainBegins }
{}

/// A host that settles the calls of its algorithms, enqueues, finishes and terminates, fails a stream that gives
/// chunks, triggers signals, and delivers messages to ports leaves each link of a chain alone.
///
/// Of: chains, host calls.
pub fn each_nodes_call_leaves()
    ensures { EachNodesCallLeaves }
{}

/// Of the calls that leave a chain alone an enqueue brings its chunk to one link, a finish of the source the end to
/// the first, a termination of a transform stream the end to the link that comes from it, a message that is delivered
/// to the port of the source its chunk or the end to the first, and the others nothing.
///
/// An enqueue brings it to the link that comes from its stream, unless that is the first, from a byte source, and the
/// chunk isn't bytes or is empty, or from the end of a port, into which no host enqueues and which none finishes. A
/// termination of transform stream k brings the end to link k + 1. The calls are those of `each_nodes_call_leaves`.
///
/// Of: chains, TransformStreamDefaultControllerTerminate.
pub fn each_nodes_call_brings()
    ensures { EachNodesCallBrings }
{}

/// A write or the close of the sink of a chain, or what its port posts, is heard at the last link, a chunk or the flush
/// of a transform stream at the link into it, and nothing at others, nor by other events.
///
/// With n transform streams the last link is link n, and link k goes into transform stream k.
///
/// Of: chains, host calls.
pub fn each_event_is_heard_at_one_link()
    ensures { EachEventIsHeardAtOneLink }
{}

/// In a realm without tees and ports, where nothing came through a transform stream, the last pipe of a chain is
/// rejected only with a reason by which a call failed something; and where it is fulfilled, a sink of the host's own
/// is closed, and the host settled its close well.
///
/// This is said after the opening of a chain (`each_chain_begins`) and any run. The promises of its pipes are those
/// that they were answered, and are watched. The first part is said where no call of that run brought anything through
/// a transform stream; the reason may be the pair of a tee too, where both its branches were cancelled, and a
/// DataCloneError, where something that can't be cloned was given to a stream at the end of a port. The second is said
/// of every realm.
///
/// Of: chains, reasons, finalize.
pub fn each_chain_ends()
    ensures { EachChainEnds }
{}

/// The next job brings nothing to the links of a chain but the end that comes out of a transform stream, and that
/// only where the host was called to flush this and settled that call well.
///
/// So it is after every run that led to a chain.
///
/// Of: chains, host calls, TransformStreamDefaultSinkCloseAlgorithm.
pub fn each_end_was_flushed()
    ensures { EachEndWasFlushed }
{}

/// On each link of a chain at most one chunk is in the queue of its destination or in flight, in the pipe, or asked
/// of its source.
///
/// Of: chains, backpressure must be enforced.
pub fn each_chain_has_room()
    ensures { EachChainHasRoom }
{}

/// From the opening of a chain on, whatever the host settles, enqueues, finishes, fails, triggers and delivers, on each
/// link what the host heard, followed by what is behind it then, is what was brought to it, or a first part of that
/// which says that it is cut short.
///
/// The run has calls by which the host does these, where it fails only streams that give chunks, jobs, and events
/// that it takes, and the chain stays one; it has no termination, and so nothing comes through a transform stream. The
/// opening is that of `each_chain_begins`, in a new realm, and no other call is made. The last pipe is rejected only
/// with a reason by which one of these calls fails something, or with a DataCloneError where an end of the chain is
/// that of a port; and where it is fulfilled a sink of the host's own is closed, and the host settled its close well
/// (`each_chain_ends`). The pipelines of `run` are such chains.
///
/// Of: chains, host calls, pipes.
pub fn each_node_goes()
    ensures { EachNodeGoes }
{}

/// From the opening of any segments on, whatever the host settles, enqueues, finishes, fails, triggers and delivers, on
/// each link what the host heard, followed by what is behind it then, is what entered, or a first part of that which
/// says that it is cut short.
///
/// The run is one of `each_node_goes`, behind the opening of `each_wiring_begins`, and the links stay links. So it is
/// of several chains in one realm, of which `each_step_moves_one_link` tells that what moves one link leaves the others
/// alone.
///
/// Of: chains, links, host calls.
pub fn each_wiring_goes()
    ensures { EachWiringGoes }
{}

/// While neither end of a link has failed and its pipe has no error, nothing is lost of what is behind the host on it.
///
/// The pipe isn't to leave its destination open. Once it passes nothing on any more, its destination is closing or
/// closed, and what lies there is all that is still to come.
///
/// Of: links, pipes, closing must be propagated forward.
pub fn each_sound_link_is_whole()
    ensures { EachSoundLinkIsWhole }
{}
