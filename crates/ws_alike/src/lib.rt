//! Laws of the promises that nobody needs: that nothing looks at them, so that a realm may forget them at any time.
//!
//! A promise is needed where it is pending, where it is watched, and where a record, a job or a reaction names it. Two
//! slots are alike where they differ in promises alone that aren't needed.
#![tactic(auto)]

mod named;

ghost use Rattle.ws_alike.specs.Alike.{EachCallIsAlike, EachEventIsAlike, EachJobIsAlike, EachRunIsAlike, EachWatchedIsAlike};
ghost use Rattle.ws_alike.specs.Alike.{ForgettingIsAlike, TrimIsAlike, TrimKeepsTheNeeded, UnneededStays};
ghost use Rattle.ws_alike.specs.Blind.{EachByteOperationIsBlind, EachOperationIsBlind, EachPerformanceIsBlind, EachPipeOperationIsBlind};
ghost use Rattle.ws_alike.specs.Blind.{EachPortOperationIsBlind, EachReadableOperationIsBlind, EachRowIsBlind, EachTeeOperationIsBlind};
ghost use Rattle.ws_alike.specs.Blind.{EachTransformOperationIsBlind, EachWritableOperationIsBlind};

pub use named::{
    abort_names, is_this, job_names, lock_names, option_names, reaction_names, request_names,
    step_names, writer_names,
};

/// An operation on one promise doesn't look at another one, and leaves it alone.
///
/// Whatever is told of the other, and also where that was let go of, the operation does the same.
///
/// Of: promises.
pub fn each_operation_is_blind()
    ensures { EachOperationIsBlind }
{}

/// An operation of a readable stream doesn't look at a promise that neither it nor anything else names, and leaves it
/// alone.
///
/// Anything else is the stream, the effects so far, the jobs and the reactions. None of these names the promise
/// afterwards.
///
/// Of: promises, readable streams.
pub fn each_readable_operation_is_blind()
    ensures { EachReadableOperationIsBlind }
{}

/// An operation of a byte stream doesn't look at a promise that neither it nor anything else names, and leaves it
/// alone.
///
/// Of: promises, byte streams.
pub fn each_byte_operation_is_blind()
    ensures { EachByteOperationIsBlind }
{}

/// An operation of a writable stream doesn't look at a promise that neither it nor anything else names, and leaves it
/// alone.
///
/// Of: promises, writable streams.
pub fn each_writable_operation_is_blind()
    ensures { EachWritableOperationIsBlind }
{}

/// An operation of a transform stream doesn't look at a promise that neither it nor anything else names, and leaves it
/// alone.
///
/// Of: promises, transform streams.
pub fn each_transform_operation_is_blind()
    ensures { EachTransformOperationIsBlind }
{}

/// An operation of a tee doesn't look at a promise that neither it nor anything else names, and leaves it alone.
///
/// Of: promises, tees.
pub fn each_tee_operation_is_blind()
    ensures { EachTeeOperationIsBlind }
{}

/// An operation of a port doesn't look at a promise that neither it nor anything else names, and leaves it alone.
///
/// Of: promises, ports.
pub fn each_port_operation_is_blind()
    ensures { EachPortOperationIsBlind }
{}

/// An operation of a pipe doesn't look at a promise that nothing names, and leaves it alone.
///
/// Nor do the ends of the pipe name it: the ready promise of the destination's writer isn't this one, nor is the
/// promise of the destination's pending abort.
///
/// Of: promises, pipes.
pub fn each_pipe_operation_is_blind()
    ensures { EachPipeOperationIsBlind }
{}

/// An effect doesn't look at a promise that neither it nor the slots name, and leaves it alone; and what it causes
/// doesn't name it.
///
/// Of: promises, realms.
pub fn each_row_is_blind()
    ensures { EachRowIsBlind }
{}

/// Effects that are performed until none is left don't look at a promise that neither they nor the slots name, and
/// leave it alone.
///
/// Of: promises, realms.
pub fn each_performance_is_blind()
    ensures { EachPerformanceIsBlind }
{}

/// Slots in which a promise that isn't needed is forgotten are alike to those in which it isn't.
///
/// Of: promises, realms.
pub fn forgetting_is_alike()
    ensures { ForgettingIsAlike }
{}

/// Slots are alike to what is left of them without the promises that aren't needed.
///
/// Of: promises, realms.
pub fn trim_is_alike()
    ensures { TrimIsAlike }
{}

/// Of what is left of slots without the promises that aren't needed, each promise that is kept is needed.
///
/// Of: promises, realms.
pub fn trim_keeps_the_needed()
    ensures { TrimKeepsTheNeeded }
{}

/// Alike slots give the same reply to a call, and are alike after it.
///
/// The events that the host has still to take are the same ones.
///
/// Of: promises, realms.
pub fn each_call_is_alike()
    ensures { EachCallIsAlike }
{}

/// Alike slots are alike after a job, with all that comes of it.
///
/// Of: promises, realms.
pub fn each_job_is_alike()
    ensures { EachJobIsAlike }
{}

/// Alike slots are alike once the host has taken an event.
///
/// Of: promises, realms.
pub fn each_event_is_alike()
    ensures { EachEventIsAlike }
{}

/// Runs from alike slots lead to alike slots.
///
/// Of: promises, realms.
pub fn each_run_is_alike()
    ensures { EachRunIsAlike }
{}

/// A promise that isn't needed is left alone by each call, job and taking of an event, and stays unneeded.
///
/// So no reply names it, and no event tells of it.
///
/// Of: promises, realms.
pub fn unneeded_stays()
    ensures { UnneededStays }
{}

/// Alike slots tell the same of each promise that is watched.
///
/// Of: promises, realms.
pub fn each_watched_is_alike()
    ensures { EachWatchedIsAlike }
{}
