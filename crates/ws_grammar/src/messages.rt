//! The messages of a port.
ghost use Rattle.std.specs.Prelude.{◌≡◌, IfOk};
ghost use Rattle.ws_grammar.specs.Messages.{message_alone, message_with};

use crate::values::{reason_of, value_of};
use std::alloc::Global;
use ws_value::{Message, NoMemory};

/// A message of one word.
pub fn message_alone(word: &[u8]) -> Option<Message>
    ensures { result ≡ message_alone word.now }
{
    if word == b"pull".as_slice() {
        Some(Message::Pull)
    } else if word == b"close".as_slice() {
        Some(Message::Close)
    } else {
        None
    }
}

/// A message of a word and what it carries.
pub fn message_with(alloc: Global, word: &[u8], carried: &[u8]) -> Result<Option<Message>, NoMemory>
    ensures { IfOk result (λ message. message ≡ message_with word.now carried.now) }
{
    if word == b"chunk".as_slice() {
        Ok(value_of(alloc, carried)?.map(Message::Chunk))
    } else if word == b"error".as_slice() {
        Ok(reason_of(carried).map(Message::Error))
    } else {
        Ok(None)
    }
}
