//! The tables of a realm.
ghost use Rattle.std.specs.Prelude.{◌≡◌, IfOk};
ghost use Rattle.ws_steps.specs.Slots.{empty};

use std::alloc::Global;
use ws_byte::ByteStream;
use ws_cross::Port;
use ws_hosts::Hosts;
use ws_pipe::{Pipe, Signal};
use ws_promise::{Agenda, Promises};
use ws_readable::Readable;
use ws_steps::{Effect, Lock};
use ws_tee::Tee;
use ws_transform::Transform;
use ws_value::{NoMemory, SignalId, StreamId};
use ws_writable::Writable;

/// The places in each list of a stream that one call or job can need.
pub const LIST_PLACES: usize = 4;

/// A readable stream with a default controller, one with a byte controller, or a writable stream.
#[derive(Drop)]
pub enum Stream {
    Readable(Readable),
    Bytes(ByteStream),
    Writable(Writable),
}

/// What a realm has, and what it is about to do.
#[derive(Drop)]
pub struct Tables {
    pub alloc: Global,
    pub streams: Vec<Stream>,
    pub transforms: Vec<Transform>,
    pub tees: Vec<Tee>,
    pub ports: Vec<Port>,
    pub pipes: Vec<Pipe>,
    pub signals: Vec<Signal>,
    pub locks: Vec<Lock>,
    pub promises: Promises,
    pub hosts: Hosts,
    /// The stream of each BYOB request.
    pub byob_requests: Vec<StreamId>,
    /// What the effect under way has caused so far.
    pub caused: Agenda,
    /// The effects that wait, the next one last.
    pub others: Vec<Effect>,
    /// The list for the effect under way; it is empty while none is.
    pub under_way: Vec<Effect>,
    /// How many read requests wait, in all streams.
    pub waiting: usize,
    /// The streams in whose lists places are to be made before the next call or job, or which are to get a room to
    /// allocate from.
    pub grown: Vec<StreamId>,
    /// How many pipes the signals would abort, if each were triggered.
    pub aborts: usize,
    /// The signals in whose lists places are to be made before the next call or job.
    pub full: Vec<SignalId>,
    /// Whether a tee may hold a chunk of which it has no second copy, so that one is to be made before the next call
    /// or job.
    pub uncopied: bool,
    /// How many calls and jobs were performed.
    pub age: u64,
}

impl Tables {
    ghost use Rattle.ws_tables.specs.Room.{IsResting};
    ghost use Rattle.ws_tables.specs.View.{slots_of};

    /// The tables of a new realm.
    pub fn make(alloc: Global) -> Result<Tables, NoMemory>
        ensures slots { IfOk result (λ tables. slots_of tables ≡ empty) }
        ensures resting { IfOk result (λ tables. IsResting tables) }
    {
        let promises = Promises::make(alloc)?;
        let caused = Agenda::make(alloc)?;
        Ok(Tables {
            alloc,
            streams: Vec::new(alloc),
            transforms: Vec::new(alloc),
            tees: Vec::new(alloc),
            ports: Vec::new(alloc),
            pipes: Vec::new(alloc),
            signals: Vec::new(alloc),
            locks: Vec::new(alloc),
            promises,
            hosts: Hosts::new(alloc),
            byob_requests: Vec::new(alloc),
            caused,
            others: Vec::new(alloc),
            under_way: Vec::new(alloc),
            waiting: 0,
            grown: Vec::new(alloc),
            aborts: 0,
            full: Vec::new(alloc),
            uncopied: false,
            age: 0,
        })
    }
}
