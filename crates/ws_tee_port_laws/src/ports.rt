//! Laws of what goes by ports, and of what they post, over every run.
//!
//! They say when a port is entangled, and what its end takes and hands on.

ghost use Rattle.ws_tee_port_laws.specs.ports.Ended.{EachReadableEndClosesByMessage, EachWritableEndPostsCloseLast};
ghost use Rattle.ws_tee_port_laws.specs.ports.Parted.{NonePostsAnErrorWhileReadable};
ghost use Rattle.ws_tee_port_laws.specs.ports.Sending.{EachPostCanBeSent};
ghost use Rattle.ws_tee_port_laws.specs.ports.WritableEnds.{EachWritableEndStep};
ghost use Rattle.ws_steps.specs.PortLaws.{EachReadableEndIsLawful, EachStepPostsOnce, EachWritableEndIsLawful};

/// No call and no job posts more than one message by one port.
///
/// Of: ports, PackAndPostMessage.
pub fn each_step_posts_once()
    ensures { EachStepPostsOnce }
{}

/// The stream at a readable end of a port is as lawful as any other, and what entered it are the chunks that were
/// delivered while the port was entangled, in their order.
///
/// It is a readable stream of its own, which performs the port's algorithms. The port posts pulls and errors alone,
/// and nothing after an error; it is entangled until a close or an error was delivered, or an error posted, and until
/// then the stream is readable.
///
/// Of: ports, their handlers of messages, pullAlgorithm.
pub fn each_readable_end_is_lawful()
    ensures { EachReadableEndIsLawful }
{}

/// The stream at a writable end of a port is as lawful as a sink's, and what it handed on are the chunks that the
/// port posted, in their order.
///
/// It is a writable stream of its own, which performs the port's algorithms. The chunks that the port posted are no
/// more than the pulls and the errors that were delivered. The port posts chunks, a close and errors alone, and
/// nothing after a close or an error; it is entangled until then.
///
/// Of: ports, writeAlgorithm of a writable end, their handlers of messages.
pub fn each_writable_end_is_lawful()
    ensures { EachWritableEndIsLawful }
{}

/// In each step of a run, what the writable stream at an end of a port hands on is the first part of what was queued
/// and what was written.
///
/// The step is lawful as that of a sink's stream (`each_writable_step`).
///
/// Of: ports, writeAlgorithm of a writable end.
pub fn each_writable_end_step()
    ensures { EachWritableEndStep }
{}

/// Whatever a port posts can be cloned: the value of a chunk, and the reason of an error.
///
/// Of: ports, PackAndPostMessageHandlingError.
pub fn each_post_can_be_sent()
    ensures { EachPostCanBeSent }
{}

/// A port with a readable end has posted no error while its stream is readable.
///
/// It posts one as the stream is cancelled, and then the stream isn't readable.
///
/// Of: ports, cancelAlgorithm of a readable end.
pub fn none_posts_an_error_while_readable()
    ensures { NonePostsAnErrorWhileReadable }
{}

/// A port with a writable end posts a close only where the close algorithm of its stream was performed, and then the
/// chunks that it posted are all that was written to the stream, in order.
///
/// Of: ports, closeAlgorithm.
pub fn each_writable_end_posts_close_last()
    ensures { EachWritableEndPostsCloseLast }
{}

/// The stream at a readable end of a port has a close requested, or is closed without a cancel, only where a close
/// was delivered while the port was entangled.
///
/// Of: ports, their handlers of messages.
pub fn each_readable_end_closes_by_message()
    ensures { EachReadableEndClosesByMessage }
{}
