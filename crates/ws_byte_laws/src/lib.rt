//! Laws of what goes through byte streams, and of their descriptors, over every run.
#![tactic(auto)]

ghost use Rattle.ws_byte_laws.specs.Descriptors.{EachByteStreamIsSound};
ghost use Rattle.ws_byte_laws.specs.Keeping.{EachClosedByteStreamKeeps};
ghost use Rattle.ws_steps.specs.ByteLaws.{EachByteStreamIsLawful, EachByteStep, EachThrowingCloseErrs, EnteredBytesWereAccepted};

/// No byte of a byte stream is doubled or overtaken, and none is lost while the stream is readable, or where it
/// closed without a cancel and without a descriptor.
///
/// The bytes that were given, to reads of either kind and with the close of a room, are the first part of those that
/// entered: by ReadableByteStreamControllerEnqueue, and by responses to BYOB requests while the stream was readable.
/// While it is readable, those that entered were given or are kept, in this order: filled into the room of the first
/// descriptor, and then queued. Once it is closed, what was given and what is kept is the first part of what entered.
/// Where it closed without a cancel and without a descriptor, all that entered was given.
///
/// Of: byte streams, ReadableByteStreamControllerEnqueue, ReadableByteStreamControllerProcessReadRequestsUsingQueue,
/// ReadableByteStreamControllerProcessPullIntoDescriptorsUsingQueue,
/// ReadableByteStreamControllerEnqueueDetachedPullIntoToQueue, ReadableByteStreamControllerRespond, the controller's
/// [[PullSteps]].
pub fn each_byte_stream_is_lawful()
    ensures { EachByteStreamIsLawful }
{}

/// While a byte stream is closed, each byte that entered it was given or is kept, in this order, where no cancel closed
/// it and nothing was responded to it since.
///
/// Its queue is empty then (`each_byte_stream_is_sound`), so what it keeps stands in its first room. A response hands
/// that out (`each_closed_room_is_handed_out`).
///
/// Of: byte streams, ReadableByteStreamControllerClose, ReadableByteStreamControllerHandleQueueDrain.
pub fn each_closed_byte_stream_keeps()
    ensures { EachClosedByteStreamKeeps }
{}

/// In each step that finds a byte stream readable, what it kept and what entered it is what it gives and what it
/// keeps then, in order, unless it errors or is cancelled.
///
/// This equation holds where the stream is readable before the step, and after it is readable or closed without a
/// cancel. Once it is closed, what is given and what is kept is the first part of what was kept. In each step what is
/// given is the first part of what was kept and what entered. Nothing enters a stream that isn't readable before, an
/// errored one gives nothing, and neither does one that a cancel closed.
///
/// Of: byte streams, ReadableByteStreamControllerEnqueue, ReadableByteStreamControllerError.
pub fn each_byte_step()
    ensures { EachByteStep }
{}

/// The close of a byte stream whose first descriptor has a part of an element throws a TypeError, and has errored the
/// stream with a TypeError: no queue, no descriptor and no read is left.
///
/// Of: byte streams, ReadableByteStreamControllerClose.
pub fn each_throwing_close_errs()
    ensures { EachThrowingCloseErrs }
{}

/// What entered a byte stream are the bytes of the calls that enqueue into it and of those that respond to a BYOB
/// request of it, where they are answered Done, in the order of these calls.
///
/// Of: byte streams, ReadableByteStreamControllerEnqueue, ReadableByteStreamControllerGetBYOBRequest,
/// ReadableByteStreamControllerRespond.
pub fn entered_bytes_were_accepted()
    ensures { EnteredBytesWereAccepted }
{}

/// Each descriptor of a readable byte stream that waits wants whole elements that aren't reached yet and have room,
/// and only the first has bytes.
///
/// The others are for the reader that the stream has. Where the first is for a BYOB reader, the queue is empty and no
/// fewer reads wait than there are descriptors; where reads of a default reader wait beside a descriptor the queue is
/// empty. A closed stream has no queue, an errored one neither queue nor descriptors. A BYOB request of a readable
/// stream stands for a descriptor, and an errored stream has none.
///
/// Of: byte streams, ReadableByteStreamControllerPullInto, ReadableByteStreamControllerGetBYOBRequest,
/// ReadableByteStreamControllerError.
pub fn each_byte_stream_is_sound()
    ensures { EachByteStreamIsSound }
{}
