//! Readable streams, whichever their controllers are.
ghost use Rattle.std.specs.Prelude.{◌≡◌, true};
ghost use Rattle.ws_steps.specs.ReadableLooks as looks;
ghost use Rattle.ws_steps.specs.Readable as rows;
ghost use Rattle.ws_steps.specs.Slots.{has_source, source_at};

use crate::tables::{Stream, Tables};
use ws_steps::{ReadableState, StateIs};
use ws_value::StreamId;

impl Tables {
    ghost use Rattle.ws_tables.specs.View.{slots_of};

    /// Whether there is a readable stream of this number.
    pub fn has_source(&self, i: StreamId) -> bool
        ensures { result ≡ has_source i (slots_of self.now) }
    {
        matches!(
            self.streams.get(i.0 as usize),
            Some(Stream::Readable(_) | Stream::Bytes(_))
        )
    }

    /// IsReadableStreamLocked.
    pub fn is_source_locked(&self, i: StreamId) -> bool
        requires { has_source i (slots_of self.now) ≡ true }
        ensures { result ≡ looks.is_locked (source_at i (slots_of self.now)) }
    {
        match &self.streams[i.0 as usize] {
            Stream::Readable(stream) => stream.is_locked(),
            Stream::Bytes(stream) => stream.is_locked(),
            Stream::Writable(_) => unreachable!(),
        }
    }

    /// Whether the state of the stream is readable.
    pub fn is_source_readable(&self, i: StreamId) -> bool
        ensures { result ≡ rows.is_readable (source_at i (slots_of self.now)).state }
    {
        match self.streams.get(i.0 as usize) {
            Some(Stream::Readable(stream)) => stream.state() == ReadableState::Readable,
            Some(Stream::Bytes(stream)) => stream.state() == ReadableState::Readable,
            Some(Stream::Writable(_)) | None => false,
        }
    }

    /// The desired size of the stream's controller.
    pub fn source_desired_size(&self, i: StreamId) -> Option<i128>
        requires { has_source i (slots_of self.now) ≡ true }
        ensures { result
            ≡ looks.desired_by (source_at i (slots_of self.now)) (source_at i (slots_of self.now)).state }
    {
        match &self.streams[i.0 as usize] {
            Stream::Readable(stream) => stream.desired_size(),
            Stream::Bytes(stream) => stream.desired_size(),
            Stream::Writable(_) => unreachable!(),
        }
    }

    /// The slots that a host may look at.
    pub fn look_at_source(&self, i: StreamId) -> StateIs
        requires { has_source i (slots_of self.now) ≡ true }
        ensures { result ≡ looks.state_of (source_at i (slots_of self.now)) }
    {
        match &self.streams[i.0 as usize] {
            Stream::Readable(stream) => stream.look(),
            Stream::Bytes(stream) => stream.look(),
            Stream::Writable(_) => unreachable!(),
        }
    }
}
