//! A realm: its public calls, which take memory first, and the laws over its runs.
//!
//! It has readable, writable and transform streams, their readers and writers, tees, pipes and the signals that abort
//! them, message ports with the streams at this end of them, promises and one job queue.
//!
//! It is thin: `ws_tables` has the tables, `ws_prepare` the taking of memory, `ws_effects` the performing of effects,
//! `ws_begin` what calls begin with, `ws_begin_job` what jobs begin with, `ws_calls` the performing of one whole.
//! Here all memory is taken first, and a realm that performed 2^62 calls and jobs performs no more. `laws` has what
//! holds over every run, `bytes` what holds of byte streams, `tees` what holds of tees, `ports` what holds of message
//! ports, `wants` what holds where a host enqueues only while its transformer is at work, `chains` what holds of a
//! chain of pipes, and `ways` what holds of pipes into and out of identity transform streams, and through these.
#![tactic(auto)]

pub mod bytes;
pub mod chains;
pub mod laws;
pub mod ports;
mod realm;
pub mod tees;
pub mod wants;
pub mod ways;

pub use realm::{NoRoom, Realm, Why};
pub use ws_steps::{
    Answer, Call, Event, Flags, HostCall, Kind, Prevent, Reply, Side, SizeBy, StartBy, StateIs,
    Thrown, Word,
};
pub use ws_value::{
    Chunk, Fault, HostId, LockId, Message, NoMemory, Outcome, PipeId, Plain, PortId, PromiseId,
    RequestId, Room, SignalId, StreamId, TeeId, Value,
};
