//! What holds of every run with workers, told of its definitions alone.
ghost use Rattle.ws_runner.specs.Chain.{EachChainNamesItsReason, EachChainReadsLittleAhead};

use ws_io::Sink;

/// The pipe of the last node of a run with workers is never rejected with a TypeError, a RangeError, a DataCloneError
/// or a user's reason, nor with one that is no fault.
///
/// A reason with which it is rejected is that a read failed, that a write did, that more was read than may be, that of
/// a stage, that of the abort, or that no memory was to be had on one of the nodes. So where the run ended with the
/// status for want of memory, no such reason hides behind that.
///
/// Of: nodes, ports, reasons.
pub fn each_chain_names_its_reason<K: Sink>()
    ensures { EachChainNamesItsReason K.got }
{}

/// What the first node of a run with workers took of the input is at most 8,192 bytes longer than what it sent down the
/// first edge, which is part of it, however the run ended.
///
/// Of: nodes, ports.
pub fn each_chain_reads_little_ahead<K: Sink>()
    ensures { EachChainReadsLittleAhead K.got }
{}
