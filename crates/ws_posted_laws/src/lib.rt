//! Laws of where the reasons come from of the errors that ports post, over every run.
#![tactic(auto)]

ghost use Rattle.ws_posted_laws.specs.Posted.{EachPostedErrorHasAnOrigin, EachPostedErrorIsOlder};

/// An error that a writable end of a port posts has the reason of a failure, or one of a few others that are told.
///
/// This is so in every run, whatever the host does. The failures, and the reasons that a call brings through a
/// transform stream or into a byte stream, are those of `each_reason_has_an_origin`. Besides it may be a
/// DataCloneError, where a value or a reason that can't be cloned was given to a stream at the end of a port. Which
/// stream failed isn't said: it may be any of the realm. Of a readable end nothing is said, which posts the reason of
/// a cancel. This is said of each reason but the pair of a tee both of whose branches were cancelled, with which the
/// tee cancels its source.
///
/// Of: reasons, ports, abortAlgorithm of a writable end, PackAndPostMessageHandlingError.
pub fn each_posted_error_has_an_origin()
    ensures { EachPostedErrorHasAnOrigin }
{}

/// Where an error was delivered to a writable end of a port, each error that the port posts, before or after, has a
/// reason that the run had before that delivery.
///
/// It is the reason of a failure of that first part of the run, or one that a call of it brought through a transform
/// stream or into a byte stream, or a DataCloneError, all as in `each_posted_error_has_an_origin`. So the port posts no
/// error because of the one that was delivered, nor because of anything that came later: from then on the stream at
/// that end isn't writable, and no later abort comes to the port. Where several errors were delivered to it, the first
/// of them tells most. Whether the port was still entangled plays no part. This is said of each reason but the pair of
/// a tee both of whose branches that first part of the run cancelled.
///
/// Of: reasons, ports, their handlers of messages, abortAlgorithm of a writable end.
pub fn each_posted_error_is_older()
    ensures { EachPostedErrorIsOlder }
{}
