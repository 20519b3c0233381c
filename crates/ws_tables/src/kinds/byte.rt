//! Readable streams with a byte controller.
ghost use Rattle.std.specs.Prelude.{◌≡◌, true};
ghost use Rattle.ws_steps.specs.Slots.{byte_at, has_byte};

use crate::tables::{Stream, Tables};
use ws_byte::ByteStream;
use ws_value::StreamId;

impl Tables {
    ghost use Rattle.ws_tables.specs.View.{slots_of};

    /// Whether there is a readable stream of this number with a byte controller.
    pub fn has_byte(&self, i: StreamId) -> bool
        ensures { result ≡ has_byte i (slots_of self.now) }
    {
        matches!(self.streams.get(i.0 as usize), Some(Stream::Bytes(_)))
    }

    /// The readable stream of this number, which has a byte controller.
    pub fn byte(&self, i: StreamId) -> &ByteStream
        requires { has_byte i (slots_of self.now) ≡ true }
        ensures { result.now.slots ≡ byte_at i (slots_of self.now) }
    {
        match &self.streams[i.0 as usize] {
            Stream::Bytes(stream) => stream,
            Stream::Readable(_) | Stream::Writable(_) => unreachable!(),
        }
    }
}
