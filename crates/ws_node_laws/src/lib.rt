//! Laws of the nodes of a pipeline that are joined by ports: what their ports ask for and send, and the edges between
//! them.
//!
//! A node is a chain whose source or sink, or both, is the end of a port, with the host that works its algorithms. An
//! edge joins the sink of one node to the source of the next: a row of messages down, of chunks, and one up, of pulls.
#![tactic(auto)]

ghost use Rattle.ws_node_laws.specs.Covered.{EachEndAsksInTurn, EachEndStaysAsking, EachNodeAsksInTurn};
ghost use Rattle.ws_node_laws.specs.Edges.{EachEdgeHasFew, EachHeadReadsNear};
ghost use Rattle.ws_node_laws.specs.Messages.{EachChainIsBroughtByMessages, EachChainTellsByPosts, EachRowIsTold};
ghost use Rattle.ws_node_laws.specs.Sends.{EachNodeSendsDown, EachNodeSendsUp};

/// In any run that leaves a link alone whose source is the readable end of a port, that port posts at most one pull for
/// each chunk that is delivered to it, and one more.
///
/// With the pulls that it posted those are counted that may still come before one more chunk does: none once the
/// stream takes no more or has no reader, one where no request waits, and where one waits that which is still to come
/// for it. The end has the mark 0, pulls again only while it pulls, and starts once, and it stays so.
///
/// Of: ports, links, SetUpCrossRealmTransformReadable.
pub fn each_end_asks_in_turn()
    ensures { EachEndAsksInTurn }
{}

/// A readable end of a port keeps its mark 0, pulls again only while it pulls, and starts once, in every run.
///
/// Of: ports, SetUpCrossRealmTransformReadable.
pub fn each_end_stays_asking()
    ensures { EachEndStaysAsking }
{}

/// From the opening of a chain on whose source is the readable end of a port, that port posts at most one pull for each
/// chunk that is delivered to it, and one more.
///
/// The run has calls of a node, jobs, and events that it takes, as `each_node_goes` tells.
///
/// Of: ports, chains.
pub fn each_node_asks_in_turn()
    ensures { EachNodeAsksInTurn }
{}

/// On an edge on which nothing follows a close or an error, and of which each end keeps its credit, one chunk at most
/// is under way until an error comes up, and two from then on.
///
/// An end keeps its credit where it posts a chunk for each pull or error that it received, and the other where it posts
/// a pull for each chunk that it received, and one more. Then the pulls that were received are one more than the chunks
/// that were sent, at most.
///
/// Of: ports.
pub fn each_edge_has_few()
    ensures { EachEdgeHasFew }
{}

/// What the first node of a pipeline has read is longer than what it posted by at most 4,096 bytes for each pull that
/// it received, and one more, less the chunks that it posted.
///
/// It reads pieces of at most 4,096 bytes, the next once all of one went on, and nothing more once an error came up.
///
/// Of: ports.
pub fn each_head_reads_near()
    ensures { EachHeadReadsNear }
{}

/// What is heard of the last link of a chain that goes to the writable end of a port is what the messages tell that the
/// port posted and the host took.
///
/// Of: chains, ports.
pub fn each_chain_tells_by_posts()
    ensures { EachChainTellsByPosts }
{}

/// What is brought to the first link of a chain that comes from the readable end of a port is what the messages tell
/// that were delivered to it.
///
/// Of: chains, ports.
pub fn each_chain_is_brought_by_messages()
    ensures { EachChainIsBroughtByMessages }
{}

/// A row of messages whose chunks are bytes, and in which nothing follows a close or an error, tells in bytes what it
/// tells in values, and that all behind an error is lost.
///
/// Of: ports, links.
pub fn each_row_is_told()
    ensures { EachRowIsTold }
{}

/// From the opening on of a chain that goes to the writable end of a port, that port posts chunks, a close and errors
/// alone, nothing behind a close or an error, and no more chunks than pulls and errors were delivered to it.
///
/// The run has calls of a node, jobs, and events that it takes, as `each_node_goes` tells.
///
/// Of: ports, chains, SetUpCrossRealmTransformWritable.
pub fn each_node_sends_down()
    ensures { EachNodeSendsDown }
{}

/// From the opening on of a chain that comes from the readable end of a port, that port posts pulls and errors alone,
/// and nothing behind an error.
///
/// The run has calls of a node, jobs, and events that it takes, as `each_node_goes` tells.
///
/// Of: ports, chains, SetUpCrossRealmTransformReadable.
pub fn each_node_sends_up()
    ensures { EachNodeSendsUp }
{}
