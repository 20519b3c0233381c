//! What holds of every node for what goes over its edges, told of its definitions alone.
ghost use Rattle.ws_node.specs.Rules.{EachEdgeKeepsRules, EachErrorHasItsCause, EachGivenChunkIsShort, EachHeadReadsLittleAhead, EachJoinedHeadReadsLittleAhead, EachNodeIsLegal, EachNodeKeepsCredit};

/// What the ends of a node were given to post is legal: nothing stands behind a close or an error, down go chunks of
/// bytes, a close and errors alone, and up go pulls and errors.
///
/// So it is of what was posted and of that with what waits, also where no memory was to be had.
///
/// Of: nodes, ports.
pub fn each_node_is_legal()
    ensures { EachNodeIsLegal }
{}

/// No chunk that a node gives the edge below has 2^32 bytes or more.
///
/// Of: nodes, stages, ports.
pub fn each_given_chunk_is_short()
    ensures { EachGivenChunkIsShort }
{}

/// A node gives the edge below a chunk for each pull and error that came up over it, and the edge above a pull for each
/// chunk that came down and one more.
///
/// Of: nodes, ports.
pub fn each_node_keeps_credit()
    ensures { EachNodeKeepsCredit }
{}

/// The reason of each error that a node gives the edge below came to it over the edge above or has its cause in the
/// node, or the error tells that no memory was to be had. It is a fault, and no DataCloneError.
///
/// An error that came up justifies none.
///
/// Of: nodes, ports, reasons.
pub fn each_error_has_its_cause()
    ensures { EachErrorHasItsCause }
{}

/// The edge between two nodes is legal and keeps its credit, where what each of them received is a first part of what
/// the other sent. So one chunk at most is under way until an error comes up, and two from then on.
///
/// Of: nodes, ports.
pub fn each_edge_keeps_rules()
    ensures { EachEdgeKeepsRules }
{}

/// What a node took that reads the input and feeds an edge, without stages, is longer than what it posted by at most
/// 4,096 bytes for each pull that came up, and one more, less the chunks that it posted.
///
/// What it posted is part of what it took. Behind an error that came up it reads nothing more, so that counts for no
/// pull. It is said however the node ended, also for want of memory.
///
/// Of: nodes, ports.
pub fn each_head_reads_little_ahead()
    ensures { EachHeadReadsLittleAhead }
{}

/// What the upper node of an edge took that reads the input, without stages, is at most 8,192 bytes longer than what it
/// posted, where what each of the two received is a first part of what the other sent.
///
/// Of: nodes, ports.
pub fn each_joined_head_reads_little_ahead()
    ensures { EachJoinedHeadReadsLittleAhead }
{}
