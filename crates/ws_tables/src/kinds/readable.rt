//! Readable streams with a default controller.
ghost use Rattle.std.specs.Prelude.{◌≡◌, true};
ghost use Rattle.ws_steps.specs.Slots.{has_readable, readable_at};

use crate::tables::{Stream, Tables};
use ws_readable::Readable;
use ws_value::StreamId;

impl Tables {
    ghost use Rattle.ws_tables.specs.View.{slots_of};

    /// Whether there is a readable stream of this number with a default controller.
    pub fn has_readable(&self, i: StreamId) -> bool
        ensures { result ≡ has_readable i (slots_of self.now) }
    {
        matches!(self.streams.get(i.0 as usize), Some(Stream::Readable(_)))
    }

    /// The readable stream of this number, which has a default controller.
    pub fn readable(&self, i: StreamId) -> &Readable
        requires { has_readable i (slots_of self.now) ≡ true }
        ensures { result.now.slots ≡ readable_at i (slots_of self.now) }
    {
        match &self.streams[i.0 as usize] {
            Stream::Readable(stream) => stream,
            Stream::Bytes(_) | Stream::Writable(_) => unreachable!(),
        }
    }
}
