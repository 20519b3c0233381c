//! What holds of every whole node, that of a plan without workers, told of its definitions alone.
ghost use Rattle.ws_node.specs.Ends.{EachWholeNamesItsReason};
ghost use Rattle.ws_node_rules.specs.Flow.{EachGoesOn, EachNodeKeepsFlow};
ghost use Rattle.ws_node_rules.specs.Sound.{EachSoundNodeIsWhole};

use ws_io::Sink;

/// From a new node on, over any number of turns, what went out is a first part of what the stages make of what was
/// read.
///
/// While nothing was lost, that and what lies in the node, through the stages that it hasn't passed, is all of it; an
/// output that was finished has all, the input was read to its end, and each stage ended fine; of the chunks that
/// went out, those before the one that holds the last byte of the output have fewer bytes than the abort names; and a
/// stage that is bad is so over what was read. With which reason the pipe into the sink is rejected, and by which
/// cause, `Whole::status` tells.
///
/// Of: nodes, stages.
pub fn each_node_keeps_flow()
    ensures { EachNodeKeepsFlow }
{}

/// While nothing of a node has failed, what went out and what lies in it, through the stages that it hasn't passed, is
/// all that the stages make of what was read.
///
/// No link has an end that is erroring or errored, or a pipe that has an error; no call of the input or output has
/// failed, no more was read than the run may take, nothing came to be written behind the place of the abort, and the
/// realm goes on. A stage that was bad hides nothing: what it put out before goes on.
///
/// Of: nodes, stages, links.
pub fn each_sound_node_is_whole()
    ensures { EachSoundNodeIsWhole }
{}

/// What `Whole::turn` tells of a turn (`Went`) holds of no turn at all, and of two together where it holds of one and
/// then of the other: so of any number of turns.
///
/// What follows of it, from a new node on, `each_node_keeps_flow` says.
///
/// Of: nodes.
pub fn each_turn_goes_on<K: Sink>()
    ensures { EachGoesOn K.got }
{}

/// The pipe into the sink of a whole node is never rejected with a TypeError, a RangeError, a DataCloneError or a
/// user's reason, nor with one that is no fault: each with which it is rejected has a status of its own.
///
/// Such a reason is that a read failed, that a write did, that more was read than may be, that of a stage, or that of
/// the abort. Where memory was wanting the pipe isn't rejected for that.
///
/// Of: nodes, reasons.
pub fn each_whole_names_its_reason()
    ensures { EachWholeNamesItsReason }
{}
