//! Laws of what reads into rooms get, over every run.
#![tactic(auto)]

ghost use Rattle.ws_room_read_laws.specs.HandingOut.{EachClosedRoomIsHandedOut};
ghost use Rattle.ws_steps.specs.ByteLaws.{EachRoomIsWhole};

/// A read into a room is given whole elements, no fewer than it wants at least and no more than its room has room
/// for.
///
/// Where it is finished with bytes, it is finished with whole elements.
///
/// Of: byte streams, ReadableByteStreamControllerFillPullIntoDescriptorFromQueue,
/// ReadableByteStreamControllerCommitPullIntoDescriptor, ReadableByteStreamControllerPullInto,
/// ReadableByteStreamControllerRespondInReadableState, a read-into request's steps.
pub fn each_room_is_whole()
    ensures { EachRoomIsWhole }
{}

/// The reads of a BYOB reader that wait at a closed byte stream have a room each, with whole elements in it, and a
/// response of no bytes hands these out, each to its read.
///
/// They are given with the close steps of the reads, in the order in which these wait, and no room and no read is
/// left. A first room that is for nobody isn't one of a read's: it is dropped, with what is in it.
///
/// Of: byte streams, ReadableByteStreamControllerRespondInClosedState, ReadableByteStreamControllerRespond,
/// ReadableByteStreamControllerCommitPullIntoDescriptor, a read-into request's steps.
pub fn each_closed_room_is_handed_out()
    ensures { EachClosedRoomIsHandedOut }
{}
