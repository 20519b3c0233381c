//! The record of a writable stream, and the operations of the stream itself.
ghost use Rattle.std.specs.Prelude.{◌≡◌, ◌≤◌, ◌||◌, IsOk, OnOk, length};
ghost use Rattle.ws_promise.specs.Seen.{HasEffectRoom, HasEventRoom, HasPromiseRoom, Seen, SeenAgenda};
ghost use Rattle.ws_steps.specs.Writable as rows;
ghost use Rattle.ws_writable.specs.Seen.{HasQueueRoom, HasRequestRoom, acts_of, has_room};

use std::alloc::Global;
use std::collections::VecDeque;
use std::marker::Model;
use ws_promise::{Agenda, Promises};
use ws_queue::SizedQueue;
use ws_steps::{Event, Owner, PendingAbort, SizeBy, WritableState, WriteRecord, Writer};
use ws_value::{Fault, NoMemory, Plain, PromiseId, StreamId};

pub(crate) const TYPE_ERROR: Plain = Plain::Fault(Fault::TypeError);

/// An abort that is pending from now on.
fn abort_of(promise: PromiseId, reason: Plain, was_already_erroring: bool) -> PendingAbort
    ensures { result ≡ rows.abort_of promise reason was_already_erroring }
{
    PendingAbort {
        promise,
        reason: if was_already_erroring {
            Plain::Undefined
        } else {
            reason
        },
        was_already_erroring,
    }
}

/// A writable stream with its default controller and the writer that locks it. It is seen as its slots, and as the
/// places in memory for entries of its queue and for write requests.
#[derive(Drop)]
pub struct Writable {
    pub(crate) owner: Owner,
    pub(crate) state: WritableState,
    pub(crate) stored_error: Plain,
    pub(crate) writer: Option<Writer>,
    pub(crate) backpressure: bool,
    pub(crate) write_requests: VecDeque<PromiseId>,
    pub(crate) write_in_flight: Option<PromiseId>,
    pub(crate) close_request: Option<PromiseId>,
    pub(crate) close_in_flight: Option<PromiseId>,
    pub(crate) pending_abort: Option<PendingAbort>,
    pub(crate) queue: SizedQueue<WriteRecord>,
    pub(crate) hwm: u64,
    pub(crate) size_by: SizeBy,
    pub(crate) started: bool,
}

impl Model for Writable {
    ghost use Rattle.std.specs.VecDeque.{deque_capacity};
    ghost use Rattle.ws_writable.specs.Seen.{SeenWritable};

    ghost Value = { SeenWritable };

    ghost view = { λ w. record {
      slots = record {
        owner = w.owner;
        state = w.state;
        stored_error = w.stored_error;
        writer = w.writer;
        backpressure = w.backpressure;
        write_requests = w.write_requests.items;
        write_in_flight = w.write_in_flight;
        close_request = w.close_request;
        close_in_flight = w.close_in_flight;
        pending_abort = w.pending_abort;
        queue = w.queue.items;
        hwm = w.hwm;
        size_by = w.size_by;
        started = w.started;
      };
      room = record { queue = w.queue.capacity; requests = deque_capacity w.write_requests };
    } };
}

impl Writable {
    /// InitializeWritableStream, and SetUpWritableStreamDefaultController: a new stream, whose start algorithm is
    /// still to be performed. It has no places in memory; `reserve` makes them.
    pub fn make(alloc: Global, owner: Owner, hwm: u64, size_by: SizeBy) -> Writable
        ensures { result.slots ≡ rows.set_up owner hwm size_by }
    {
        let Ok(queue) = SizedQueue::make(alloc) else {
            unreachable!()
        };
        Writable {
            owner,
            state: WritableState::Writable,
            stored_error: Plain::Undefined,
            writer: None,
            backpressure: hwm == 0,
            write_requests: VecDeque::new(alloc),
            write_in_flight: None,
            close_request: None,
            close_in_flight: None,
            pending_abort: None,
            queue,
            hwm,
            size_by,
            started: false,
        }
    }

    /// Makes places for `n` more entries of the queue and `n` more write requests, where there aren't so many.
    pub fn reserve(&mut self, n: usize) -> Result<(), NoMemory>
        ensures queue { OnOk result (HasQueueRoom n self.new) }
        ensures requests { OnOk result (HasRequestRoom n self.new) }
        ensures slots { self.new.slots ≡ self.old.slots }
        ensures queue_grows { self.old.room.queue ≤ self.new.room.queue }
        ensures requests_grow { self.old.room.requests ≤ self.new.room.requests }
        ensures ready { HasQueueRoom n self.old → HasRequestRoom n self.old → IsOk result }
    {
        self.queue.reserve(n)?;
        if self.write_requests.capacity() - self.write_requests.len() < n {
            self.write_requests.reserve(n)?;
        }
        Ok(())
    }

    /// Whether there are places for `n` more entries of the queue and for `n` more write requests.
    pub fn has_room(&self, n: usize) -> bool
        ensures { result ≡ has_room n self.now }
    {
        n <= self.queue.free() && n <= self.write_requests.capacity() - self.write_requests.len()
    }

    pub(crate) fn is_writable(&self) -> bool
        ensures { result ≡ rows.is_writable self.now.slots.state }
    {
        self.state == WritableState::Writable
    }

    pub(crate) fn is_erroring(&self) -> bool
        ensures { result ≡ rows.is_erroring self.now.slots.state }
    {
        self.state == WritableState::Erroring
    }

    pub(crate) fn is_errored(&self) -> bool
        ensures { result ≡ rows.is_errored self.now.slots.state }
    {
        self.state == WritableState::Errored
    }

    pub(crate) fn is_closed(&self) -> bool
        ensures { result ≡ rows.is_closed self.now.slots.state }
    {
        self.state == WritableState::Closed
    }

    pub(crate) fn has_ended(&self) -> bool
        ensures { result ≡ rows.has_ended self.now.slots.state }
    {
        match self.state {
            WritableState::Writable => false,
            WritableState::Erroring => false,
            WritableState::Errored => true,
            WritableState::Closed => true,
        }
    }

    /// WritableStreamCloseQueuedOrInFlight.
    pub fn is_closing(&self) -> bool
        ensures { result ≡ rows.is_closing self.now.slots }
    {
        self.close_request.is_some() || self.close_in_flight.is_some()
    }

    /// WritableStreamHasOperationMarkedInFlight.
    pub(crate) fn is_in_flight(&self) -> bool
        ensures { result ≡ rows.is_in_flight self.now.slots }
    {
        self.write_in_flight.is_some() || self.close_in_flight.is_some()
    }

    fn cannot_close(&self) -> bool
        ensures { result ≡ (rows.has_ended self.now.slots.state || rows.is_closing self.now.slots) }
    {
        self.has_ended() || self.is_closing()
    }

    fn add_close_request(&mut self, promise: PromiseId)
        ensures row { (p : Seen) (fx : SeenAgenda) → acts_of self.new p fx
            ≡ rows.add_close_request promise (acts_of self.old p fx) }
        ensures room { self.new.room ≡ self.old.room }
        ensures queue { self.new.slots.queue ≡ self.old.slots.queue }
    {
        self.close_request = Some(promise);
    }

    fn fulfil_ready(&self, p: &mut Promises)
        ensures row { (fx : SeenAgenda) → acts_of self.now p.new fx
            ≡ rows.fulfil_ready (acts_of self.now p.old fx) self.now.slots.writer }
        ensures promise_room { p.new.room ≡ p.old.room }
    {
        if let Some(writer) = self.writer {
            if self.backpressure && self.is_writable() {
                p.fulfil(writer.ready, Plain::Undefined);
            }
        }
    }

    /// WritableStreamClose, with the check that each of its callers makes first, and with the promise that it answers.
    #[tactic(auto, unfolding(ws_steps::specs::Writable::stream_close))]
    pub fn stream_close(
        &mut self,
        me: StreamId,
        p: &mut Promises,
        fx: &mut Agenda,
        promise: PromiseId,
    )
        requires queue_room { HasQueueRoom 1 self.old }
        requires effect_room { HasEffectRoom 1 fx.old }
        ensures row { acts_of self.new p.new fx.new ≡ rows.stream_close me promise (acts_of self.old p.old fx.old) }
        ensures room { self.new.room ≡ self.old.room }
        ensures promise_room { p.new.room ≡ p.old.room }
        ensures effect_room { fx.new.capacity ≡ fx.old.capacity }
    {
        if self.cannot_close() {
            p.reject(promise, TYPE_ERROR);
            return;
        }
        self.add_close_request(promise);
        self.fulfil_ready(p);
        self.controller_close(me, p, fx);
    }

    fn add_pending_abort(&mut self, promise: PromiseId, reason: Plain)
        ensures row { (p : Seen) (fx : SeenAgenda) → acts_of self.new p fx
            ≡ rows.add_pending_abort reason promise (acts_of self.old p fx) }
        ensures room { self.new.room ≡ self.old.room }
    {
        let was_already_erroring = self.is_erroring();
        self.pending_abort = Some(abort_of(promise, reason, was_already_erroring));
    }

    fn begin_abort(
        &mut self,
        me: StreamId,
        p: &mut Promises,
        fx: &mut Agenda,
        reason: Plain,
        promise: PromiseId,
    )
        requires promise_room { HasPromiseRoom 1 p.old }
        requires effect_room { HasEffectRoom 1 fx.old }
        ensures row { acts_of self.new p.new fx.new
            ≡ rows.begin_abort me reason promise (acts_of self.old p.old fx.old) }
        ensures room { self.new.room ≡ self.old.room }
        ensures promise_room { p.new.room ≡ p.old.room }
        ensures effect_room { fx.new.capacity ≡ fx.old.capacity }
    {
        if self.is_erroring() {
            self.add_pending_abort(promise, reason);
            return;
        }
        self.add_pending_abort(promise, reason);
        self.start_erroring(me, p, fx, reason);
    }

    /// The host's sink hears of its first abort by a signal; nobody does for the half of a transform stream, or the
    /// end of a port.
    fn signal(&mut self, me: StreamId, p: &mut Promises, reason: Plain)
        requires event_room { HasEventRoom 1 p.old }
        ensures row { (fx : SeenAgenda) → acts_of self.new p.new fx
            ≡ rows.signalled me reason (acts_of self.old p.old fx) self.old.slots.owner }
        ensures room { self.new.room ≡ self.old.room }
        ensures promise_room { p.new.room ≡ p.old.room }
        ensures made { length p.new.table.entries ≡ length p.old.table.entries }
    {
        match self.owner {
            Owner::Host => p.tell(Event::Signal { stream: me, reason }),
            Owner::HalfOf(_) => {}
            Owner::BranchOf(_, _) => {}
            Owner::EndOf(_) => {}
        }
    }

    /// WritableStreamAbort, where no abort is pending, with the promise that it answers.
    #[tactic(auto, unfolding(ws_steps::specs::Writable::stream_abort))]
    pub fn stream_abort(
        &mut self,
        me: StreamId,
        p: &mut Promises,
        fx: &mut Agenda,
        reason: Plain,
        promise: PromiseId,
    )
        requires promise_room { HasPromiseRoom 1 p.old }
        requires event_room { HasEventRoom 1 p.old }
        requires effect_room { HasEffectRoom 1 fx.old }
        ensures row { acts_of self.new p.new fx.new
            ≡ rows.stream_abort me reason promise (acts_of self.old p.old fx.old) }
        ensures room { self.new.room ≡ self.old.room }
        ensures promise_room { p.new.room ≡ p.old.room }
        ensures effect_room { fx.new.capacity ≡ fx.old.capacity }
    {
        if self.has_ended() {
            p.fulfil(promise, Plain::Undefined);
            return;
        }
        self.signal(me, p, reason);
        self.begin_abort(me, p, fx, reason, promise);
    }

    /// WritableStreamAbort where the stream is writable, and so has no abort pending; else the promise is resolved
    /// with undefined.
    #[tactic(auto, unfolding(ws_steps::specs::Writable::abort_if_writable))]
    pub fn abort_if_writable(
        &mut self,
        me: StreamId,
        p: &mut Promises,
        fx: &mut Agenda,
        reason: Plain,
        promise: PromiseId,
    )
        requires promise_room { HasPromiseRoom 1 p.old }
        requires event_room { HasEventRoom 1 p.old }
        requires effect_room { HasEffectRoom 1 fx.old }
        ensures row { acts_of self.new p.new fx.new
            ≡ rows.abort_if_writable me reason promise (acts_of self.old p.old fx.old) }
        ensures room { self.new.room ≡ self.old.room }
        ensures promise_room { p.new.room ≡ p.old.room }
        ensures effect_room { fx.new.capacity ≡ fx.old.capacity }
    {
        if self.is_writable() {
            self.stream_abort(me, p, fx, reason, promise);
        } else {
            p.fulfil(promise, Plain::Undefined);
        }
    }
}
