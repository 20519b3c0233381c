//! Writable streams.
ghost use Rattle.std.specs.Prelude.{◌≡◌, true};
ghost use Rattle.ws_steps.specs.Slots.{has_writable, writable_at};

use crate::tables::{Stream, Tables};
use ws_steps::Writer;
use ws_value::StreamId;
use ws_writable::Writable;

impl Tables {
    ghost use Rattle.ws_tables.specs.View.{slots_of};

    /// Whether there is a writable stream of this number.
    pub fn has_writable(&self, i: StreamId) -> bool
        ensures { result ≡ has_writable i (slots_of self.now) }
    {
        matches!(self.streams.get(i.0 as usize), Some(Stream::Writable(_)))
    }

    /// The writable stream of this number.
    pub fn writable(&self, i: StreamId) -> &Writable
        requires { has_writable i (slots_of self.now) ≡ true }
        ensures { result.now.slots ≡ writable_at i (slots_of self.now) }
    {
        match &self.streams[i.0 as usize] {
            Stream::Writable(stream) => stream,
            Stream::Readable(_) | Stream::Bytes(_) => unreachable!(),
        }
    }

    /// The promises of the writer that has a stream.
    pub fn writer(&self, i: StreamId) -> Option<Writer>
        ensures { result ≡ (writable_at i (slots_of self.now)).writer }
    {
        match self.streams.get(i.0 as usize) {
            Some(Stream::Writable(stream)) => stream.writer(),
            Some(Stream::Readable(_) | Stream::Bytes(_)) | None => None,
        }
    }
}
