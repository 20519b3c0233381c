//! Laws of any links of one realm, be they of one chain of pipes or of several.
//!
//! A joint is a link with room for one chunk: two streams and the pipe between them, with how chunks come to the one
//! and how the host hears of the other. A list of joints is wired where each of them is such a link. Segments say how
//! the streams, pipes, transform streams and ports of several chains in one realm are numbered.
#![tactic(auto)]

ghost use Rattle.ws_wire_laws.specs.Laws.{EachCallKeepsWiring, EachEventKeepsWiring, EachJobKeepsWiring, EachPartIsWired, EachStepMovesOneLink, EachWiringHasRoom, EachWiringKeeps};
ghost use Rattle.ws_wire_laws.specs.Segments.{EachLinkIsItsOwn};

/// In any run that leaves each of some links alone they stay links, and on each no chunk is doubled or overtaken, and
/// none is lost unless that is told.
///
/// The links may be of one chain or of several, by whatever streams and pipes. On each of them what the host heard,
/// followed by what is behind it then, is what was behind it before, followed by what entered; or it is a first part of
/// that, and says that it is cut short.
///
/// Of: links, chains.
pub fn each_wiring_keeps()
    ensures { EachWiringKeeps }
{}

/// By a call that leaves each of some links alone they stay links, the host hears of nothing, and on each what is
/// behind the host is what was behind it before, followed by what entered, or a first part of that which says so.
///
/// Of: links, chains.
pub fn each_call_keeps_wiring()
    ensures { EachCallKeepsWiring }
{}

/// By a job links stay, the host hears of nothing, and nothing enters but the end of one stream, where the job is the
/// reaction to the flush of a transform stream that went well.
///
/// On each link what is behind the host is what was behind it before, followed by what entered, or a first part of
/// that which says so.
///
/// Of: links, chains, TransformStreamDefaultSinkCloseAlgorithm.
pub fn each_job_keeps_wiring()
    ensures { EachJobKeepsWiring }
{}

/// By the taking of an event links stay, nothing enters, and on each what the host heard, followed by what is behind
/// it then, is what was behind it before, or a first part of that which says so.
///
/// Of: links, chains.
pub fn each_event_keeps_wiring()
    ensures { EachEventKeepsWiring }
{}

/// On each of some links at most one chunk is in the queue of its destination or in flight, in the pipe, or asked of
/// its source.
///
/// Of: links, chains, backpressure must be enforced.
pub fn each_wiring_has_room()
    ensures { EachWiringHasRoom }
{}

/// Links of a realm are wired just where each part of their list is, so several chains of one realm keep to the laws
/// of each.
///
/// Of: chains.
pub fn each_part_is_wired()
    ensures { EachPartIsWired }
{}

/// Of two links without a source, a port or anything that the host hears in common a call brings something to one at
/// most, and an event tells of one at most.
///
/// Of: links, chains, host calls.
pub fn each_step_moves_one_link()
    ensures { EachStepMovesOneLink }
{}

/// No two links of the segments of a realm have a source, a port or anything that the host hears in common.
///
/// A segment is a chain: from a source of the host's own or the readable end of a port, by any number of transform
/// streams, to a sink of the host's own or the writable end of a port. Link k goes by pipe k from stream 2k to stream
/// 2k + 1, through all segments in their order; transform streams and ports have numbers of their own.
///
/// Of: chains.
pub fn each_link_is_its_own()
    ensures { EachLinkIsItsOwn }
{}
