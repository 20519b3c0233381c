//! Laws of nodes that are joined by rows of messages: when each keeps its flow, how long a chunk can be in it, what it
//! has told with an end, and how a run over any number of them ends, in any order of their turns.
#![tactic(auto)]

ghost use Rattle.ws_joined_laws.specs.Condition.{EachConditionIsMet};
ghost use Rattle.ws_joined_laws.specs.Finished.{EachRunOfNodesEnds};
ghost use Rattle.ws_joined_laws.specs.Joined.{EachJoinedRunEnds, EachNodeTells};
ghost use Rattle.ws_joined_laws.specs.Lengths.{EachChunkIsBelow, EachFedChunkIsBelow, EachHeldChunkIsBelow, EachMayBePushed};
ghost use Rattle.ws_joined_laws.specs.RunEnds.{EachRunTellsItsEnd};
ghost use Rattle.ws_joined_laws.specs.Sends.{EachNodeMeetsIt};

/// A node that sent a close was told the end of what came in, each of its stages ended fine, and what it sent is all
/// that they make of it.
///
/// The same holds where no close was sent but one waits behind the stages: then what was sent, with what waits, is
/// all. What went out of the node that writes the output counts as closed where the output was finished. This is said
/// of any stages whose node keeps its flow: what came in flows through them to what went out, what waits behind them,
/// and what lies between. It isn't said that a node sends a close once its input has closed.
///
/// Of: nodes, stages.
pub fn each_node_tells()
    ensures { EachNodeTells }
{}

/// In a chain of nodes of which each keeps its flow where the chunks that it received are bytes, fewer than 2^25 of
/// them, each keeps its flow.
///
/// The stages of all nodes together are those of a plan that isn't refused: each in its range, at most 16 of them, and
/// at most 4 `hex`. The first node reads the input in pieces of at most 4,096 bytes; it keeps its flow without that
/// condition and sends nothing but bytes. Each other node, where the condition holds of what it received, sends
/// nothing but bytes too. What is sent by a row is what is received from it and what is left there. That a node keeps
/// its flow under the condition is the premise, which each node owes by itself.
///
/// Of: nodes, plans.
pub fn each_condition_is_met()
    ensures { EachConditionIsMet }
{}

/// In a chain of nodes each node is sent nothing but bytes, fewer than 2^25 of them in a chunk, and so is the output.
///
/// The premises are those of `each_condition_is_met`, and what its condition asks is met of each node. What went out of
/// a node comes in such chunks however it keeps its flow; of the first node it is asked that the input was read in
/// pieces of at most 4,096 bytes there too. Of the node that feeds the output, what went out are the chunks that it
/// writes.
///
/// Of: nodes, plans.
pub fn each_node_is_sent_short_chunks()
    ensures { EachNodeMeetsIt }
{}

/// In a node whose chunks came by messages, each of fewer than 2^25 bytes, no chunk reaches 2^32 bytes, and so each
/// stage may be asked for what lies before it.
///
/// That is said of each chunk that lies before a stage which may be asked, that lies behind the last one, or that went
/// out. The stages are those of a plan that isn't refused. It follows from what holds of any bounds: where no chunk
/// that came in is longer than some number, none in the node is longer than sixteen times that, or than sixteen times
/// the longest chunk that a stage cuts, with 65 bytes more for each stage. Only `frame` asks for fewer than 2^32 bytes.
///
/// Of: nodes, stages.
pub fn each_held_chunk_may_be_pushed()
    ensures chunks { EachChunkIsBelow }
    ensures held { EachHeldChunkIsBelow }
    ensures fed { EachFedChunkIsBelow }
    ensures push { EachMayBePushed }
{}

/// What the output of a run over any number of nodes got is a first part of what all stages make of the bytes that
/// were taken, and each reason with which the pipe into the sink was rejected has its cause in one of the nodes.
///
/// Where the output was finished it got all that the stages make, the input was read to its end, and each stage ended
/// fine. A reason is one of a few faults. Where it is that of a stage, the stage of its number, from 1, ends with its
/// code and at its place over the bytes that were taken. Else one of the nodes found that a read of the input failed,
/// that more was taken than the run may take, that the output failed, that it has the bytes after which the run is
/// aborted, or that memory was wanting. So it is never a TypeError, a RangeError or a DataCloneError.
///
/// The nodes keep their flow, from the input to the output (`each_condition_is_met`); no stage sees chunks that depend
/// on how the input was cut; each node counts the stages before it rightly; and each reason that goes out of a node,
/// by an error or by the pipe into the sink, came into it by an error or has its cause there. In what order the nodes
/// take their turns plays no part. It isn't said that a run ends, nor which of several reasons it ends with.
///
/// Of: nodes, stages, reasons.
pub fn each_joined_run_ends()
    ensures { EachJoinedRunEnds }
{}

/// A run over any number of nodes ends as a run of its stages may end, by what its nodes tell of it.
///
/// What the output got is a first part of what the stages make of the bytes that were taken, and with an abort it has
/// fewer than 2^25 bytes more than that names. Where it was finished it has all, the input was read to its end, and
/// each stage ended fine. A reason with which the pipe into the sink was rejected is a fault that one of the nodes
/// found, or that of a stage: this is bad in the bytes as they come, or behind the end of the input, and where it found
/// that at the end of its own input, each stage before it ended fine.
///
/// With what the input and the output tell (`status`): the run ends with 0 where its output was finished, and then
/// neither has failed and no more was taken than the run may take. Else it ends with the status of such a reason, which
/// its cause allows, or for want of memory, and the output isn't finished. At most one byte more was taken than the run
/// may take, and without stages at most 4,096 bytes of it weren't written.
///
/// The premises are those of `each_condition_is_met` and of `each_joined_run_ends`, where a node tells its reasons, and
/// how near to the abort its output stopped, under the condition that the chunks that it received are bytes, fewer than
/// 2^25 of them. It isn't said that a run ends, nor which of several reasons it ends with.
///
/// Of: nodes, stages, reasons.
pub fn each_run_of_nodes_ends()
    ensures ends { EachRunOfNodesEnds }
    ensures status { EachRunTellsItsEnd }
{}
