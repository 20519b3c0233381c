//! Pull-into descriptors.
ghost use Rattle.std.specs.Prelude.{◌≡◌, ◌≤◌, ◌+◌, ◌-◌, ◌%◌, ◌<◌, ◌++◌, length, false, nat_lt};
ghost use Rattle.ws_steps.specs.Descriptors as descriptors;
ghost use Rattle.ws_steps.specs.Queues as queues;
ghost use Rattle.ws_steps.specs.declared.byte.RoomKind.TheVariants.{ForNobody};
ghost use Rattle.ws_descriptors.specs.Seen.{IsFine, Takes, unfilled};

use std::marker::Model;
use ws_queue::{ByteQueue, write};
use ws_steps::RoomKind;
use ws_value::{Chunk, Room};

/// A pull-into descriptor: a room, of whose bytes the first `filled` are filled; how many are to be filled at least;
/// the size of an element. It is seen as the definitions have it.
#[derive(Drop)]
pub struct Descriptor {
    room: Room,
    filled: usize,
    minimum: u64,
    element: u8,
    room_kind: RoomKind,
}

impl Model for Descriptor {
    ghost use Rattle.std.specs.Prelude.{◌≤◌, length, take};
    ghost use Rattle.ws_steps.specs.Descriptors.{Descriptor as SeenDescriptor};

    ghost Value = { SeenDescriptor };

    ghost view = { λ d. record {
      filled = take d.filled d.room;
      room = length d.room;
      minimum = d.minimum;
      element = d.element;
      room_kind = d.room_kind;
    } };

    ghost invariant = { λ d. d.filled ≤ length d.room };
}

impl Descriptor {
    /// A descriptor for a room of which nothing is filled.
    pub fn make(room: Room, minimum: u64, element: u8, room_kind: RoomKind) -> Descriptor
        ensures { result ≡ unfilled (length room) minimum element room_kind }
    {
        Descriptor {
            room,
            filled: 0,
            minimum,
            element,
            room_kind,
        }
    }

    pub fn is_for_nobody(&self) -> bool
        ensures { result ≡ descriptors.is_for_nobody self.now.room_kind }
    {
        match self.room_kind {
            RoomKind::ForDefault | RoomKind::ForByob => false,
            RoomKind::ForNobody => true,
        }
    }

    /// Leaves the room to nobody, since the reader of the descriptor was released.
    pub fn release(&mut self)
        ensures { self.new ≡ record self.old { room_kind = ForNobody } }
    {
        self.room_kind = RoomKind::ForNobody;
    }

    /// A part of an element is filled.
    pub fn has_part(&self) -> bool
        requires { 0 < self.now.element }
        ensures { result ≡ nat_lt 0 (length self.now.filled % self.now.element) }
    {
        self.filled % usize::from(self.element) > 0
    }

    /// How many bytes have room in the view of a request.
    pub fn room_left(&self) -> usize
        ensures { result ≡ descriptors.room_left self.now }
    {
        self.room.len() - self.filled
    }

    /// How many bytes are filled with `n` bytes more.
    fn reach(&self, n: usize) -> usize
        requires { Takes n self.now }
        ensures { result ≡ length self.now.filled + n }
    {
        let _bound = self.room.len();
        self.filled + n
    }

    /// With `n` bytes more, fewer are filled than are wanted.
    pub fn lacks_with(&self, n: usize) -> bool
        requires { Takes n self.now }
        ensures { result ≡ nat_lt (length self.now.filled + n) self.now.minimum }
    {
        (self.reach(n) as u64) < self.minimum
    }

    /// How many bytes of an element are filled with `n` bytes more.
    pub fn part_with(&self, n: usize) -> usize
        requires takes { Takes n self.now }
        requires element { 0 < self.now.element }
        ensures { result ≡ (length self.now.filled + n) % self.now.element }
    {
        self.reach(n) % usize::from(self.element)
    }

    /// Fills the room on with these bytes.
    pub fn put(&mut self, bytes: &[u8])
        requires { Takes (length bytes.now) self.old }
        ensures { self.new ≡ record self.old { filled = self.old.filled ++ bytes.now } }
    {
        let reach = self.reach(bytes.len());
        write(&mut self.room, self.filled, bytes);
        self.filled = reach;
    }

    /// Fills `n` bytes from the front of the queue.
    #[tactic(auto, using(ws_queue::proofs::Bytes::after_length))]
    fn fill_with(&mut self, queue: &mut ByteQueue, n: usize)
        requires takes { Takes n self.old }
        requires enough { n ≤ queues.total_bytes queue.old.entries }
        ensures filled { self.new
            ≡ record self.old { filled = self.old.filled ++ queues.front_bytes n queue.old.entries } }
        ensures rest { queue.new ≡ record queue.old { entries = queues.after_bytes n queue.old.entries } }
        ensures fewer { length queue.new.entries ≤ length queue.old.entries }
    {
        let reach = self.reach(n);
        queue.take_into(&mut self.room, self.filled, n);
        self.filled = reach;
    }

    /// ReadableByteStreamControllerFillPullIntoDescriptorFromQueue: whether it is ready.
    pub fn fill(&mut self, queue: &mut ByteQueue) -> bool
        requires { IsFine self.old }
        ensures ready { result ≡ (descriptors.fill_from_queue self.old queue.old.entries).ready }
        ensures filled { self.new ≡ (descriptors.fill_from_queue self.old queue.old.entries).descriptor }
        ensures rest { queue.new
            ≡ record queue.old { entries = (descriptors.fill_from_queue self.old queue.old.entries).queue } }
        ensures fewer { length queue.new.entries ≤ length queue.old.entries }
        ensures fine { result ≡ false → IsFine self.new }
    {
        let most = queue.total().min(self.room_left() as u128) as usize;
        let reach = self.reach(most);
        let whole = reach - reach % usize::from(self.element);
        let ready = self.minimum <= whole as u64;
        let n = if ready { whole - self.filled } else { most };
        self.fill_with(queue, n);
        ready
    }

    /// The bytes that are filled, with no copy.
    pub fn into_chunk(self) -> Chunk
        ensures { result ≡ self.filled }
    {
        self.room.into_chunk(self.filled)
    }
}
