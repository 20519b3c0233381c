//! Laws of what effects take: how they come to an end, and how much room they need.
#![tactic(auto)]

ghost use Rattle.ws_steps.specs.Laws.{EffectsEndOnce, RoomIsEnough};

/// The effects of a call or job, each performed with what it causes before the others, come to an end, and to no
/// other than the definitions compute.
///
/// Of: realms, ReadableStreamDefaultControllerCallPullIfNeeded.
pub fn effects_end_once()
    ensures { EffectsEndOnce }
{}

/// Whatever a call or a job does stays within the room that the formula `room` tells beforehand.
///
/// At each moment of a call and of a job, and once a call has answered, the places that are taken, and the effects
/// that stand on the agenda, are within what was taken before and that room: of promises, jobs, events, host's
/// numbers and entries in the lists of each stream. This is said for every price list.
///
/// Of: realms.
pub fn room_is_enough()
    ensures { RoomIsEnough }
{}
