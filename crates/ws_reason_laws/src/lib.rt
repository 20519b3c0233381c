//! Laws of where the reasons come from with which pipes and streams fail, over every run.
#![tactic(auto)]

ghost use Rattle.ws_reason_laws.specs.Reasons.{EachReasonWasGiven, EachReasonWasAFailure, EachStoredErrorWasAFailure};
ghost use Rattle.ws_reason_laws.specs.Origins.{EachReasonHasAnOrigin, EachStoredErrorHasAnOrigin};

/// A pipe that was made between two unlocked streams is rejected only with the reason of a failure, or with one of a
/// few others that are told.
///
/// This is so whatever the host does before the pipe is made and after it. A failure is the reason of an abort, an
/// error, a trigger, or the failure of a host's algorithm, or of an error that was delivered over a port. Else the
/// reason is one that a call brought through a transform stream or, a TypeError, into a byte stream; where a value or a
/// reason that can't be cloned was given to a stream at the end of a port, it may be a DataCloneError; and where the
/// pipe's destination was closing or closed as it was made, a TypeError.
///
/// What is given to a stream is a value that is written to it, and the reason with which it is cancelled or aborted: by
/// a call, by a pipe, or by a tee, whose pair can't be cloned.
///
/// A call brings the reason of a cancel of a readable half, by number or by a reader, through its transform stream;
/// and a TypeError where it terminates one, where it makes a pipe from a readable half onto a destination that is
/// closing or closed and may cancel its source, and where it makes an identity (this is counted, though no run is
/// known that ends with it). It brings a TypeError into a byte stream where it closes it and a part of an element is
/// left over, or where, once a close was requested, it reads into a room of it more than is queued. The call is told
/// with the state in which it was made. What a pipe hands on by its cancels and aborts came in by one of these calls
/// before.
///
/// So where no call of a run does so, a pipe whose destination was neither closing nor closed is rejected only with a
/// failure, also where the realm has transform streams; or with a DataCloneError where something that can't be cloned
/// was given to a stream at the end of a port. All this is said of each reason but the pair of a tee both of whose
/// branches were cancelled, with which the tee cancels its source. So a pair comes only from such a tee, or from one of
/// these calls.
///
/// Of: reasons, pipes, shutdown with an action.
pub fn each_reason_has_an_origin()
    ensures { EachReasonHasAnOrigin }
{}

/// The error that a stream has stored is the reason of a failure, or one of a few others that are told.
///
/// So it is, whatever the host does, of a readable stream which is errored and of a writable stream which is erroring
/// or errored. The failures and the calls that bring a reason through a transform stream or into a byte stream are
/// those of `each_reason_has_an_origin`; where something that can't be cloned was given to a stream at the end of a
/// port, it may be a DataCloneError. This is said of each reason but the pair of a tee both of whose branches were
/// cancelled.
///
/// Of: reasons, readable streams, writable streams, ReadableStreamError, WritableStreamStartErroring.
pub fn each_stored_error_has_an_origin()
    ensures { EachStoredErrorHasAnOrigin }
{}

/// A pipe that was made between two unlocked streams, of which the destination was neither closing nor closed, is
/// rejected only with a reason that a call of the run gave, or, in a realm with transform streams, byte streams, tees
/// or ports, with one of a few others.
///
/// That is the reason of a cancel, an abort, an error, a trigger, an error that was delivered over a port, or the
/// failure of a host's algorithm, whatever the host does before the pipe is made and after it. It may be a TypeError
/// too where the realm has a transform stream, or where a call of the run brought one into a byte stream: a close that
/// left a part of an element over (a worked example has it), or a read into a room that wanted more than was queued
/// once a close was requested. It may be the pair of a tee both of whose branches were cancelled: with that the source
/// is cancelled, and no call gave it; any other pair is one that a call gave. It may be a DataCloneError where
/// something that can't be cloned was given to a stream at the end of a port: with it that stream fails a write of such
/// a chunk, and a cancel or an abort with such a reason.
///
/// Of: reasons, pipes, shutdown with an action.
pub fn each_reason_was_given()
    ensures { EachReasonWasGiven }
{}

/// A pipe that was made between two unlocked streams, of which the destination was neither closing nor closed, is
/// rejected only with a reason by which a call of the run failed something, or, in a realm with transform streams,
/// byte streams, tees or ports, with one of a few others.
///
/// So it is never rejected with a reason that only cancels gave. The reason is the reason of an abort, an error, a
/// trigger, an error that was delivered over a port, or the failure of a host's algorithm. Where the realm has a
/// transform stream it may be a TypeError, or the reason of a cancel; and a TypeError where a call of the run brought
/// one into a byte stream. It may be the pair of a tee both of whose branches were cancelled; any other pair is such a
/// reason. And it may be a DataCloneError where something that can't be cloned was given to a stream at the end of a
/// port.
///
/// Of: reasons, pipes, shutdown with an action.
pub fn each_reason_was_a_failure()
    ensures { EachReasonWasAFailure }
{}

/// The error that a stream has stored is a reason by which a call of the run failed something, or, in a realm with
/// transform streams, byte streams, tees or ports, one of a few others.
///
/// So it is, whatever the host does, of a readable stream which is errored and of a writable stream which is erroring
/// or errored: the reason is that of an abort, an error, a trigger, an error that was delivered over a port, or the
/// failure of a host's algorithm. Where the realm has a transform stream it may be a TypeError, or the reason of a
/// cancel; and a TypeError where a call of the run brought one into a byte stream. It may be the pair of a tee both of
/// whose branches were cancelled; any other pair is such a reason. And it may be a DataCloneError where something that
/// can't be cloned was given to a stream at the end of a port.
///
/// Of: reasons, readable streams, writable streams, ReadableStreamError, WritableStreamStartErroring.
pub fn each_stored_error_was_a_failure()
    ensures { EachStoredErrorWasAFailure }
{}
