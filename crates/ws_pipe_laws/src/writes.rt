//! Laws of what pipes wait for before they act, over every run.
//!
//! That is the chunk that a pipe holds, its writes and its action, and in which order they come.

ghost use Rattle.ws_pipe_laws.specs.pipes.PipeWrites.{EachActionSettlesWhileActing, EachHeldChunkIsQueued, EachPipeActsInOrder, EachPipeIsOwed, NoneActsWhileAWriteIsOpen};

/// The reactions to a pipe's writes that are registered or queued are at most its writes that haven't settled; and
/// the one to its action is at most one, and only while the action is under way.
///
/// Of: pipes, the promise of a write.
pub fn each_pipe_is_owed()
    ensures { EachPipeIsOwed }
{}

/// A pipe hears that its action has settled only while that is under way.
///
/// Of: pipes, finalize.
pub fn each_action_settles_while_acting()
    ensures { EachActionSettlesWhileActing }
{}

/// A chunk that a pipe holds is about to be written, or dropped: the microtask that does so is queued.
///
/// Of: pipes, the pipe's read request.
pub fn each_held_chunk_is_queued()
    ensures { EachHeldChunkIsQueued }
{}

/// A pipe that waited, or whose destination was writable and not closing, begins its action, or ends without one,
/// only where no chunk is held and no reaction to a write is outstanding.
///
/// Of: pipes, shutdown with an action.
pub fn each_pipe_acts_in_order()
    ensures { EachPipeActsInOrder }
{}

/// A pipe that waited, or whose destination was writable and not closing, begins its action, or ends without one,
/// only once the promise of every write that it made has settled.
///
/// Of: pipes, the promise of a write, shutdown with an action.
pub fn none_acts_while_a_write_is_open()
    ensures { NoneActsWhileAWriteIsOpen }
{}
