//! A call as a line spells it.
ghost use Rattle.std.specs.Prelude.{◌≡◌, IfOk};
ghost use Rattle.ws_grammar.specs.Calls.{read_into};

use std::alloc::Global;
use std::marker::Model;
use ws_steps::Call;
use ws_value::{LockId, NoMemory, Room};

/// A call that is whole, or a read without its room.
#[derive(Drop)]
enum Spelling {
    Whole(Call),
    ReadInto {
        lock: LockId,
        len: usize,
        element: u8,
        least: u64,
    },
}

/// A call as a line spells it, seen as the call. The room of a read is made with the call, so a line takes no more
/// memory than its words call for.
#[derive(Drop)]
pub struct Spelled {
    spelling: Spelling,
}

impl Model for Spelled {
    ghost use Rattle.ws_steps.specs.declared.calls.Call.{Call};

    ghost Value = { Call };

    ghost use Rattle.ws_grammar.specs.Spelled.{call_spelled};

    ghost view = { λ spelled. call_spelled spelled.spelling };
}

impl Spelled {
    /// A call that is whole.
    pub(crate) fn whole(call: Call) -> Spelled
        ensures { result ≡ call }
    {
        Spelled {
            spelling: Spelling::Whole(call),
        }
    }

    /// A read into a room of `len` zero bytes.
    pub(crate) fn read_into(lock: LockId, len: usize, element: u8, least: u64) -> Spelled
        ensures { result ≡ read_into lock len element least }
    {
        Spelled {
            spelling: Spelling::ReadInto {
                lock,
                len,
                element,
                least,
            },
        }
    }

    /// The call, with its room.
    pub fn into_call(self, alloc: Global) -> Result<Call, NoMemory>
        ensures { IfOk result (λ call. call ≡ self) }
    {
        match self.spelling {
            Spelling::Whole(call) => Ok(call),
            Spelling::ReadInto {
                lock,
                len,
                element,
                least,
            } => Ok(Call::ReadInto {
                lock,
                room: Room::of(alloc, len)?,
                element,
                least,
            }),
        }
    }
}
