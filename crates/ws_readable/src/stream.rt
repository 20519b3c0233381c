//! The record of a readable stream, and the operations of the stream itself.
ghost use Rattle.std.specs.Prelude.{◌≡◌, ◌≤◌, ◌+◌, length, IsOk, OnOk, true};
ghost use Rattle.ws_promise.specs.Seen.{HasEffectRoom, Seen, SeenAgenda};
ghost use Rattle.ws_steps.specs.Readable as rows;
ghost use Rattle.ws_readable.specs.Seen.{HasRoom, acts_of, request_taken, after_request_taken};

use crate::requests::{close_requests, error_requests};
use std::alloc::Global;
use std::collections::VecDeque;
use std::marker::Model;
use ws_promise::{Agenda, Promises};
use ws_queue::SizedQueue;
use ws_steps::{Owner, ReadRequest, ReadableState, SizeBy};
use ws_value::{NoMemory, Plain, PromiseId, StreamId, Value};

/// A readable stream with its default controller and the reader that locks it. It is seen as its slots, and with the
/// places that there are for chunks and for read requests.
#[derive(Drop)]
pub struct Readable {
    pub(crate) owner: Owner,
    pub(crate) state: ReadableState,
    pub(crate) stored_error: Plain,
    pub(crate) disturbed: bool,
    pub(crate) reader: Option<PromiseId>,
    pub(crate) requests: VecDeque<ReadRequest>,
    pub(crate) queue: SizedQueue<Value>,
    pub(crate) hwm: u64,
    pub(crate) size_by: SizeBy,
    pub(crate) started: bool,
    pub(crate) pulling: bool,
    pub(crate) pull_again: bool,
    pub(crate) close_requested: bool,
}

impl Model for Readable {
    ghost use Rattle.std.specs.VecDeque.{deque_capacity};
    ghost use Rattle.ws_readable.specs.Seen.{SeenReadable};

    ghost Value = { SeenReadable };

    ghost view = { λ r. record {
      slots = record {
        owner = r.owner;
        state = r.state;
        stored_error = r.stored_error;
        disturbed = r.disturbed;
        reader = r.reader;
        requests = r.requests.items;
        queue = r.queue.items;
        hwm = r.hwm;
        size_by = r.size_by;
        started = r.started;
        pulling = r.pulling;
        pull_again = r.pull_again;
        close_requested = r.close_requested;
      };
      room = record { queue = r.queue.capacity; requests = deque_capacity r.requests };
    } };
}

impl Readable {
    /// A new stream, whose controller is set up. Its start algorithm is still to be performed.
    pub fn make(alloc: Global, owner: Owner, hwm: u64, size_by: SizeBy) -> Readable
        ensures { result.slots ≡ rows.set_up owner hwm size_by }
    {
        let queue = match SizedQueue::make(alloc) {
            Ok(queue) => queue,
            Err(_) => unreachable!(),
        };
        Readable {
            owner,
            state: ReadableState::Readable,
            stored_error: Plain::Undefined,
            disturbed: false,
            reader: None,
            requests: VecDeque::new(alloc),
            queue,
            hwm,
            size_by,
            started: false,
            pulling: false,
            pull_again: false,
            close_requested: false,
        }
    }

    /// Makes places for `n` more chunks and for `n` more read requests.
    pub fn reserve(&mut self, n: usize) -> Result<(), NoMemory>
        ensures ok { OnOk result (HasRoom n self.new) }
        ensures slots { self.new.slots ≡ self.old.slots }
        ensures queue_grows { self.old.room.queue ≤ self.new.room.queue }
        ensures requests_grow { self.old.room.requests ≤ self.new.room.requests }
        ensures ready { HasRoom n self.old → (IsOk result) × (self.new ≡ self.old) }
    {
        self.queue.reserve(n)?;
        if self.requests.capacity() - self.requests.len() < n {
            self.requests.reserve(n)?;
        }
        Ok(())
    }

    /// The stream is disturbed.
    #[tactic(auto, unfolding(ws_steps::specs::Readable::disturb))]
    pub fn disturb(&mut self)
        ensures row { (p : Seen) (fx : SeenAgenda) → acts_of self.new p fx ≡ rows.disturb (acts_of self.old p fx) }
        ensures slots { self.new ≡ record self.old { slots = record self.old.slots { disturbed = true } } }
    {
        self.disturbed = true;
    }

    /// Takes the first read request that waits, where the stream is locked and there is one.
    pub(crate) fn take_request(&mut self) -> Option<ReadRequest>
        ensures request { result ≡ request_taken (rows.waiting self.old.slots) }
        ensures slots { self.new
            ≡ record self.old { slots = after_request_taken self.old.slots (rows.waiting self.old.slots) } }
    {
        if self.reader.is_some() {
            self.requests.pop_front()
        } else {
            None
        }
    }

    /// ReadableStreamClose.
    #[tactic(auto, unfolding(ws_steps::specs::Readable::stream_close))]
    pub fn stream_close(&mut self, me: StreamId, p: &mut Promises, fx: &mut Agenda)
        requires { HasEffectRoom (length self.old.slots.requests) fx.old }
        ensures row { acts_of self.new p.new fx.new ≡ rows.stream_close me (acts_of self.old p.old fx.old) }
        ensures room { self.new.room ≡ self.old.room }
        ensures promise_room { p.new.room ≡ p.old.room }
        ensures effect_room { fx.new.capacity ≡ fx.old.capacity }
        ensures caused { length fx.new.effects ≤ length self.old.slots.requests + length fx.old.effects }
    {
        self.state = ReadableState::Closed;
        if let Some(closed) = self.reader {
            p.fulfil(closed, Plain::Undefined);
            close_requests(&mut self.requests, me, fx);
        }
    }

    /// ReadableStreamError.
    #[tactic(auto, unfolding(ws_steps::specs::Readable::stream_error))]
    pub fn stream_error(&mut self, me: StreamId, p: &mut Promises, fx: &mut Agenda, e: Plain)
        requires { HasEffectRoom (length self.old.slots.requests) fx.old }
        ensures row { acts_of self.new p.new fx.new ≡ rows.stream_error me e (acts_of self.old p.old fx.old) }
        ensures room { self.new.room ≡ self.old.room }
        ensures promise_room { p.new.room ≡ p.old.room }
        ensures effect_room { fx.new.capacity ≡ fx.old.capacity }
        ensures caused { length fx.new.effects ≤ length self.old.slots.requests + length fx.old.effects }
    {
        self.state = ReadableState::Errored;
        self.stored_error = e;
        if let Some(closed) = self.reader {
            p.reject(closed, e);
            error_requests(&mut self.requests, me, fx, e);
        }
    }

    /// Settles the promise of a cancel, or performs the cancel steps.
    fn cancel_by(
        &mut self,
        me: StreamId,
        p: &mut Promises,
        fx: &mut Agenda,
        reason: Plain,
        promise: PromiseId,
    )
        requires { HasEffectRoom (1 + length self.old.slots.requests) fx.old }
        ensures row { acts_of self.new p.new fx.new
            ≡ rows.cancel_by me reason promise (acts_of self.old p.old fx.old) self.old.slots.state }
        ensures room { self.new.room ≡ self.old.room }
        ensures promise_room { p.new.room ≡ p.old.room }
        ensures effect_room { fx.new.capacity ≡ fx.old.capacity }
    {
        match self.state {
            ReadableState::Readable => {
                self.stream_close(me, p, fx);
                self.cancel_steps(me, fx, reason, promise);
            }
            ReadableState::Closed => p.fulfil(promise, Plain::Undefined),
            ReadableState::Errored => p.reject(promise, self.stored_error),
        }
    }

    /// ReadableStreamCancel, with the promise that it answers.
    #[tactic(auto, unfolding(ws_steps::specs::Readable::stream_cancel))]
    pub fn stream_cancel(
        &mut self,
        me: StreamId,
        p: &mut Promises,
        fx: &mut Agenda,
        reason: Plain,
        promise: PromiseId,
    )
        requires { HasEffectRoom (1 + length self.old.slots.requests) fx.old }
        ensures row { acts_of self.new p.new fx.new
            ≡ rows.stream_cancel me reason promise (acts_of self.old p.old fx.old) }
        ensures room { self.new.room ≡ self.old.room }
        ensures promise_room { p.new.room ≡ p.old.room }
        ensures effect_room { fx.new.capacity ≡ fx.old.capacity }
    {
        self.disturbed = true;
        self.cancel_by(me, p, fx, reason, promise);
    }

    /// ReadableStreamCancel where the stream is readable; else the promise is resolved with undefined.
    #[tactic(auto, unfolding(ws_steps::specs::Readable::cancel_if_readable))]
    pub fn cancel_if_readable(
        &mut self,
        me: StreamId,
        p: &mut Promises,
        fx: &mut Agenda,
        reason: Plain,
        promise: PromiseId,
    )
        requires { HasEffectRoom (1 + length self.old.slots.requests) fx.old }
        ensures row { acts_of self.new p.new fx.new
            ≡ rows.cancel_if_readable me reason promise (acts_of self.old p.old fx.old) }
        ensures room { self.new.room ≡ self.old.room }
        ensures promise_room { p.new.room ≡ p.old.room }
        ensures effect_room { fx.new.capacity ≡ fx.old.capacity }
    {
        match self.state {
            ReadableState::Readable => self.stream_cancel(me, p, fx, reason, promise),
            ReadableState::Closed => p.fulfil(promise, Plain::Undefined),
            ReadableState::Errored => p.fulfil(promise, Plain::Undefined),
        }
    }
}
