//! What a host may look at.
ghost use Rattle.std.specs.Prelude.{◌≡◌};
ghost use Rattle.ws_steps.specs.Slots.{ready_of, wants_chunk};
ghost use Rattle.ws_steps.specs.Writable as rows;
ghost use Rattle.ws_steps.specs.WritableLooks as looks;

use crate::Writable;
use ws_steps::{Flags, Owner, StateIs, Word, WritableState, Writer};
use ws_value::{Plain, PromiseId};

impl Writable {
    pub fn state(&self) -> WritableState
        ensures { result ≡ self.now.slots.state }
    {
        self.state
    }

    /// The error with which the stream errored, or is to be; undefined where there is none.
    pub fn stored_error(&self) -> &Plain
        ensures { result.now ≡ self.now.slots.stored_error }
    {
        &self.stored_error
    }

    /// Whose algorithms the stream performs.
    pub fn owner(&self) -> Owner
        ensures { result ≡ self.now.slots.owner }
    {
        self.owner
    }

    /// The promises of the writer, where there is one.
    pub fn writer(&self) -> Option<Writer>
        ensures { result ≡ self.now.slots.writer }
    {
        self.writer
    }

    /// IsWritableStreamLocked.
    pub fn is_locked(&self) -> bool
        ensures { result ≡ looks.is_locked self.now.slots }
    {
        self.writer.is_some()
    }

    /// The promise that an abort answers that came before, where one is pending.
    pub fn answered_abort(&self) -> Option<PromiseId>
        ensures { result ≡ rows.answered_abort self.now.slots }
    {
        if self.has_ended() {
            return None;
        }
        match self.pending_abort {
            Some(abort) => Some(abort.promise),
            None => None,
        }
    }

    /// Whether the desired size of a writer is more than 0.
    pub fn wants_chunk(&self) -> bool
        ensures { result ≡ wants_chunk self.now.slots }
    {
        self.is_writable() && self.queue.total() < u128::from(self.hwm)
    }

    /// The ready promise of the writer, where there is one.
    pub fn ready(&self) -> Option<PromiseId>
        ensures { result ≡ ready_of self.now.slots.writer }
    {
        match self.writer {
            Some(writer) => Some(writer.ready),
            None => None,
        }
    }

    /// WritableStreamDefaultWriterGetDesiredSize.
    pub fn desired_size(&self) -> Option<i128>
        ensures { result ≡ looks.desired_by self.now.slots self.now.slots.state }
    {
        match self.state {
            WritableState::Writable => Some(self.queue.desired(self.hwm)),
            WritableState::Erroring => None,
            WritableState::Errored => None,
            WritableState::Closed => Some(0),
        }
    }

    fn word(&self) -> Word
        ensures { result ≡ looks.word_of self.now.slots.state }
    {
        match self.state {
            WritableState::Writable => Word::Writable,
            WritableState::Erroring => Word::Erroring,
            WritableState::Errored => Word::Errored,
            WritableState::Closed => Word::Closed,
        }
    }

    fn flags(&self) -> Flags
        ensures { result ≡ looks.flags_of self.now.slots }
    {
        Flags {
            s: self.started,
            p: false,
            g: false,
            c: false,
            d: false,
            l: self.is_locked(),
            b: self.backpressure,
            w: self.write_in_flight.is_some(),
            f: self.close_in_flight.is_some(),
            q: self.close_request.is_some(),
            a: self.pending_abort.is_some(),
        }
    }

    /// The slots that a host may look at.
    pub fn look(&self) -> StateIs
        ensures { result ≡ looks.state_of self.now.slots }
    {
        StateIs {
            state: self.word(),
            flags: self.flags(),
            total: self.queue.total(),
            queue: self.queue.len() as u64,
            requests: self.write_requests.len() as u64,
        }
    }
}
