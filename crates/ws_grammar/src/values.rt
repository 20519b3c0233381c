//! Names of objects, reasons and values.
ghost use Rattle.std.specs.Prelude.{◌≡◌, IfOk};
ghost use Rattle.ws_grammar.specs.Values.{stream_named, lock_named, host_named, request_named, signal_named, port_named, lettered_reason, reason_of, hex_bytes, bytes_of, value_of};

use crate::numbers::{number_u32, number_u64, number_u128};
use hex::FromHexError;
use std::alloc::Global;
use ws_value::{
    Chunk, Fault, HostId, LockId, NoMemory, Plain, PortId, RequestId, SignalId, StreamId, Value,
};

/// The stream that a word names.
pub fn stream_named(word: &[u8]) -> Option<StreamId>
    ensures { result ≡ stream_named word.now }
{
    match word {
        [b's', digits @ ..] => number_u32(digits).map(StreamId),
        _ => None,
    }
}

/// The reader that a word names.
pub fn lock_named(word: &[u8]) -> Option<LockId>
    ensures { result ≡ lock_named word.now }
{
    match word {
        [b'l', digits @ ..] => number_u128(digits).map(LockId),
        _ => None,
    }
}

/// The call of a host's algorithm that a word names.
pub fn host_named(word: &[u8]) -> Option<HostId>
    ensures { result ≡ host_named word.now }
{
    match word {
        [b'h', digits @ ..] => number_u128(digits).map(HostId),
        _ => None,
    }
}

/// The request of a byte stream's controller that a word names.
pub fn request_named(word: &[u8]) -> Option<RequestId>
    ensures { result ≡ request_named word.now }
{
    match word {
        [b'q', digits @ ..] => number_u128(digits).map(RequestId),
        _ => None,
    }
}

/// The signal that a word names.
pub fn signal_named(word: &[u8]) -> Option<SignalId>
    ensures { result ≡ signal_named word.now }
{
    match word {
        [b'a', digits @ ..] => number_u128(digits).map(SignalId),
        _ => None,
    }
}

/// The port that a word names.
pub fn port_named(word: &[u8]) -> Option<PortId>
    ensures { result ≡ port_named word.now }
{
    match word {
        [b'c', digits @ ..] => number_u128(digits).map(PortId),
        _ => None,
    }
}

/// A reason that is written as a letter and a number.
fn lettered_reason(letter: u8, digits: &[u8]) -> Option<Plain>
    ensures { result ≡ lettered_reason letter digits.now }
{
    match letter {
        b'n' => number_u64(digits).map(Plain::Number),
        b'e' => Some(Plain::Fault(Fault::User(number_u32(digits)?))),
        b'k' => number_u32(digits).map(Plain::Local),
        _ => None,
    }
}

/// The reason that a word spells.
pub fn reason_of(word: &[u8]) -> Option<Plain>
    ensures { result ≡ reason_of word.now }
{
    if word == b"undefined".as_slice() {
        return Some(Plain::Undefined);
    }
    let (letter, digits) = word.split_first()?;
    lettered_reason(*letter, digits)
}

/// The bytes that hexadecimal digits spell.
fn hex_bytes(alloc: Global, digits: &[u8]) -> Result<Option<Chunk>, NoMemory>
    ensures { IfOk result (λ bytes. bytes ≡ hex_bytes digits.now) }
{
    match hex::decode(alloc, digits) {
        Ok(bytes) => Ok(Some(Chunk::from_vec(bytes))),
        Err(FromHexError::OutOfMemory) => Err(NoMemory),
        Err(_) => Ok(None),
    }
}

/// The bytes that a word spells.
pub fn bytes_of(alloc: Global, word: &[u8]) -> Result<Option<Chunk>, NoMemory>
    ensures { IfOk result (λ bytes. bytes ≡ bytes_of word.now) }
{
    match word {
        [b'x', digits @ ..] => hex_bytes(alloc, digits),
        _ => Ok(None),
    }
}

/// The value that a word spells.
pub fn value_of(alloc: Global, word: &[u8]) -> Result<Option<Value>, NoMemory>
    ensures { IfOk result (λ value. value ≡ value_of word.now) }
{
    match word {
        [b'x', digits @ ..] => Ok(hex_bytes(alloc, digits)?.map(Value::Bytes)),
        _ => Ok(reason_of(word).map(Value::Plain)),
    }
}
