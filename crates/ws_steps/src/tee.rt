//! The parts of a tee of a readable stream with a default controller, whose two branches are streams with numbers of
//! their own.
use crate::Use;
use ws_value::{Plain, Value};

/// One of the two branches of a tee.
#[derive(Clone, Copy)]
pub enum Half {
    First,
    Second,
}

/// How a tee stands to its source.
#[derive(Clone, Copy, PartialEq, Eq)]
pub enum TeePhase {
    /// No read is under way.
    Resting,
    /// A read is under way, or a chunk that it gave is to be handed to the branches.
    Reading,
    /// A read found that the source has ended. None follows it.
    Over,
}

/// An operation of a tee, as it stands on the agenda. What is to be done with the promise that an algorithm of a
/// branch gives is told to it.
#[derive(Drop)]
pub enum TeeOperation {
    /// The pull algorithm of a branch.
    PullBranch,
    /// The chunk steps of its read request.
    KeepChunk(Value),
    /// The close steps of its read request.
    SourceClosed,
    /// The error steps of its read request.
    SourceErrored,
    /// The chunk that it holds is handed to the branches.
    HandChunk,
    /// The chunk was handed to the branches.
    Handed,
    /// The cancel algorithm of a branch.
    CancelBranch(Half, Plain, Use),
    /// The closed promise of its reader has settled.
    ReaderSettled(Result<Plain, Plain>),
}
