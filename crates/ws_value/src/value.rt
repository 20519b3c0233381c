ghost use Rattle.std.specs.Prelude.{◌≡◌, IfOk};
ghost use Rattle.ws_value.specs.Values.{is_cloneable, is_value_cloneable};

use crate::{Chunk, Fault, NoMemory, TeeId};
use std::alloc::Global;

/// A value that isn't bytes. Reasons of errors, cancels and aborts are always plain.
#[derive(Clone, Copy)]
pub enum Plain {
    Undefined,
    Number(u64),
    Fault(Fault),
    /// The two reasons with which the branches of a tee were cancelled, which the tee keeps.
    Pair(TeeId),
    /// A value of the host's own, which can't be sent in a message.
    Local(u32),
}

impl Plain {
    /// Whether the value can be sent in a message.
    pub fn cloneable(&self) -> bool
        ensures { result ≡ is_cloneable self.now }
    {
        match self {
            Plain::Undefined => true,
            Plain::Number(_) => true,
            Plain::Fault(_) => true,
            Plain::Pair(_) => false,
            Plain::Local(_) => false,
        }
    }
}

/// What a stream carries.
#[derive(Drop)]
pub enum Value {
    Plain(Plain),
    Bytes(Chunk),
}

impl Value {
    /// An equal value.
    pub fn copy(&self, alloc: Global) -> Result<Value, NoMemory>
        ensures { IfOk result (λ value. value ≡ self.now) }
    {
        match self {
            Value::Plain(plain) => Ok(Value::Plain(*plain)),
            Value::Bytes(chunk) => Ok(Value::Bytes(chunk.copy(alloc)?)),
        }
    }

    /// Whether the value can be sent in a message.
    pub fn cloneable(&self) -> bool
        ensures { result ≡ is_value_cloneable self.now }
    {
        match self {
            Value::Plain(plain) => plain.cloneable(),
            Value::Bytes(_) => true,
        }
    }
}

/// What the two ends of a transferred stream send each other: a pull upwards, a chunk or the close downwards, an error
/// both ways.
#[derive(Drop)]
pub enum Message {
    Pull,
    Chunk(Value),
    Close,
    Error(Plain),
}

/// The state of a promise, with its result.
#[derive(Drop)]
pub enum Outcome {
    Pending,
    Fulfilled(Plain),
    /// Fulfilled with a read result that has this value and isn't done.
    Given(Value),
    /// Fulfilled with a read result that has this value and is done.
    Finished(Value),
    Rejected(Plain),
}
