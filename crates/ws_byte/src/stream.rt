//! The record of a readable stream with a byte controller.
ghost use Rattle.std.specs.Prelude.{◌≡◌, ◌≤◌, ◌+◌, ◌-◌, ◌∷◌, length, IfSome, IsOk, OnOk, OnSome};
ghost use Rattle.ws_steps.specs.Bytes as rows;
ghost use Rattle.ws_steps.specs.Descriptors.{rest_of};
ghost use Rattle.ws_descriptors.specs.Seen.{IsFine};
ghost use Rattle.ws_byte.specs.Seen.{HasDescriptorRoom, HasQueueRoom, HasRoom, HasSpares, first_of};

use std::alloc::Global;
use std::collections::VecDeque;
use std::marker::Model;
use ws_descriptors::Descriptor;
use ws_queue::ByteQueue;
use ws_readable::Readable;
use ws_steps::{Owner, ReaderKind, SizeBy};
use ws_value::{NoMemory, RequestId, Room};

/// A readable stream with its byte controller and the reader that locks it. It is seen as its slots, with the places
/// that there are for entries of the queue, for requests and for descriptors, and with the rooms that the controller
/// has ready. What the two kinds of controller have in common is a stream of its own, whose queue stays empty.
#[derive(Drop)]
pub struct ByteStream {
    pub(crate) stream: Readable,
    pub(crate) reader_kind: ReaderKind,
    pub(crate) queue: ByteQueue,
    pub(crate) auto: u64,
    /// A room for the next descriptor that the controller makes by itself.
    pub(crate) spare: Option<Room>,
    pub(crate) descriptors: VecDeque<Descriptor>,
    /// Descriptors that are ready, while others are still filled.
    pub(crate) ready: VecDeque<Descriptor>,
    pub(crate) request: Option<RequestId>,
    /// Whether an operation was asked of it that isn't meant for it.
    pub(crate) astray: bool,
    alloc: Global,
}

impl Model for ByteStream {
    ghost use Rattle.std.specs.Prelude.{◌≡◌, ◌≤◌, All, IfSome, [], length, min};
    ghost use Rattle.std.specs.VecDeque.{deque_capacity, deque_len};
    ghost use Rattle.ws_descriptors.specs.Seen.{IsFine};
    ghost use Rattle.ws_byte.specs.Seen.{SeenByteStream, count};

    ghost Value = { SeenByteStream };

    ghost view = { λ s. record {
      slots = record {
        stream = s.stream.slots;
        reader_kind = s.reader_kind;
        queue = s.queue.entries;
        auto = s.auto;
        descriptors = s.descriptors.items;
        request = s.request;
        astray = s.astray;
      };
      room = record {
        queue = s.queue.capacity;
        requests = s.stream.room.requests;
        descriptors = min (deque_capacity s.descriptors) (deque_capacity s.ready);
      };
      spares = count s.spare;
    } };

    ghost invariant = { λ s. All IsFine s.descriptors.items × (s.ready.items ≡ []) × (deque_len s.descriptors ≤ deque_capacity s.ready)
        × IfSome s.spare (λ room. length room ≡ s.auto) };
}

impl ByteStream {
    /// A new stream, whose controller is set up, and allocates rooms of the length `auto` where that isn't 0. Its
    /// start algorithm is still to be performed.
    pub fn make(alloc: Global, hwm: u64, auto: u64) -> ByteStream
        ensures { result.slots ≡ rows.set_up hwm auto }
    {
        ByteStream {
            stream: Readable::make(alloc, Owner::Host, hwm, SizeBy::ByteLength),
            reader_kind: ReaderKind::Default,
            queue: ByteQueue::make(alloc),
            auto,
            spare: None,
            descriptors: VecDeque::new(alloc),
            ready: VecDeque::new(alloc),
            request: None,
            astray: false,
            alloc,
        }
    }

    fn reserve_queue(&mut self, n: usize) -> Result<(), NoMemory>
        ensures ok { OnOk result (HasQueueRoom n self.new) }
        ensures slots { self.new.slots ≡ self.old.slots }
        ensures queue_grows { self.old.room.queue ≤ self.new.room.queue }
        ensures requests { self.new.room.requests ≡ self.old.room.requests }
        ensures descriptors { self.new.room.descriptors ≡ self.old.room.descriptors }
        ensures spares { self.new.spares ≡ self.old.spares }
        ensures ready { HasQueueRoom n self.old → (IsOk result) × (self.new ≡ self.old) }
    {
        let free = self.queue.free();
        let held = self.descriptors.len();
        if held <= free && n <= free - held {
            return Ok(());
        }
        let Some(places) = held.checked_add(n) else {
            return Err(NoMemory);
        };
        self.queue.reserve(places)
    }

    fn reserve_descriptors(&mut self, n: usize) -> Result<(), NoMemory>
        ensures ok { OnOk result (HasDescriptorRoom n self.new) }
        ensures slots { self.new.slots ≡ self.old.slots }
        ensures queue { self.new.room.queue ≡ self.old.room.queue }
        ensures requests { self.new.room.requests ≡ self.old.room.requests }
        ensures descriptors_grow { self.old.room.descriptors ≤ self.new.room.descriptors }
        ensures spares { self.new.spares ≡ self.old.spares }
        ensures ready { HasDescriptorRoom n self.old → (IsOk result) × (self.new ≡ self.old) }
    {
        if n <= self.free_descriptors() {
            return Ok(());
        }
        let Some(places) = self.descriptors.len().checked_add(n) else {
            return Err(NoMemory);
        };
        self.descriptors.reserve(n)?;
        self.ready.reserve(places)?;
        Ok(())
    }

    fn reserve_spare(&mut self) -> Result<(), NoMemory>
        ensures ok { OnOk result (HasSpares 1 self.new) }
        ensures slots { self.new.slots ≡ self.old.slots }
        ensures room { self.new.room ≡ self.old.room }
        ensures spares_grow { self.old.spares ≤ self.new.spares }
        ensures ready { HasSpares 1 self.old → (IsOk result) × (self.new ≡ self.old) }
    {
        if self.auto > 0 && self.spare.is_none() {
            self.spare = Some(Room::of(self.alloc, self.auto as usize)?);
        }
        Ok(())
    }

    /// Makes places for `n` more entries in the queue, besides those of the descriptors, for `n` more requests and for
    /// `n` more descriptors, and a room where the controller allocates rooms.
    pub fn reserve(&mut self, n: usize) -> Result<(), NoMemory>
        ensures ok { OnOk result (HasRoom n self.new) }
        ensures slots { self.new.slots ≡ self.old.slots }
        ensures queue_grows { self.old.room.queue ≤ self.new.room.queue }
        ensures requests_grow { self.old.room.requests ≤ self.new.room.requests }
        ensures descriptors_grow { self.old.room.descriptors ≤ self.new.room.descriptors }
        ensures spares_grow { self.old.spares ≤ self.new.spares }
        ensures ready { HasRoom n self.old → (IsOk result) × (self.new ≡ self.old) }
    {
        self.reserve_queue(n)?;
        self.stream.reserve_requests(n)?;
        self.reserve_descriptors(n)?;
        self.reserve_spare()
    }

    /// For how many more descriptors there are places.
    pub fn free_descriptors(&self) -> usize
        ensures { result ≡ self.now.room.descriptors - length self.now.slots.descriptors }
    {
        self.descriptors.capacity().min(self.ready.capacity()) - self.descriptors.len()
    }

    /// Takes out the first descriptor.
    pub(crate) fn take_first(&mut self) -> Option<Descriptor>
        ensures first { result ≡ first_of self.old.slots.descriptors }
        ensures rest { self.new ≡ record self.old { slots = record self.old.slots { descriptors = rest_of self.old.slots.descriptors } } }
        ensures fine { IfSome result IsFine }
        ensures place { OnSome result (HasDescriptorRoom 1 self.new) }
    {
        self.descriptors.pop_front()
    }

    /// Puts a descriptor before the others.
    pub(crate) fn put_first(&mut self, d: Descriptor)
        requires fine { IsFine d }
        requires place { HasDescriptorRoom 1 self.old }
        ensures { self.new ≡ record self.old { slots = record self.old.slots { descriptors = d ∷ self.old.slots.descriptors } } }
    {
        self.descriptors.push_front_reserved(d);
    }
}
