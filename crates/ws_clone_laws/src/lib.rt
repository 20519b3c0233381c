//! Laws of the reasons in a node of a pipeline, where all that is given to it can be cloned.
#![tactic(auto)]

ghost use Rattle.ws_clone_laws.specs.Cloning.{EachNodeClones, EachNodeErrorIsOlder};

/// In a node to which nothing is given that can't be cloned every reason is that of a failure, and so none is a
/// DataCloneError, a TypeError or a RangeError unless a call gave it.
///
/// So it is from the opening of a chain on, in any run of a node in which each chunk that is enqueued or delivered can
/// be cloned, and each reason by which something fails: of the reason with which the last pipe's promise is rejected,
/// of the error that a stream has stored, and of an error that a port posts. The failures are the errors that were
/// delivered or given to a stream, the triggers, and the failures of the host's algorithms.
///
/// Of: reasons, chains, ports.
pub fn each_node_clones()
    ensures { EachNodeClones }
{}

/// Once an error was delivered to the port of the last pipe, the reason of each error that this port posts, before or
/// after, is that of a failure before that.
///
/// So it is in a run of which `each_node_clones` speaks, where no failure is a DataCloneError. Hence an error that a
/// node posts down is justified by its own failures and by what came from above, never by an error that came up.
///
/// Of: reasons, ports.
pub fn each_node_error_is_older()
    ensures { EachNodeErrorIsOlder }
{}
