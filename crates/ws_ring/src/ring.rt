//! A queue that lies in a ring.
ghost use Rattle.std.specs.Prelude.{◌≡◌, ◌<◌, ◌≤◌, ◌+◌, ◌-◌, ◌^◌, ◌==◌, [], ◌∷◌, ◌++◌, length, drop, slice_get, option_copied, option_to_list, IsOk, OnOk, OnErr};
ghost use Rattle.ws_ring.specs.Seen.{with_front};

use circular_buffer::HeapCircularBuffer;
use std::alloc::Global;
use std::marker::Model;
use std::mem::replace;
use ws_value::NoMemory;

/// A queue in one block of memory, in which it goes round. It is seen as the list of its items, from the front on, and
/// as the number of items for which there are places. A new one has no block, and takes no memory.
#[derive(Drop)]
pub struct Ring<T> {
    alloc: Global,
    buffer: Option<HeapCircularBuffer<T>>,
}

impl<T> Model for Ring<T> {
    ghost use Rattle.ws_ring.specs.Seen.{SeenRing, items_in, places_in};

    ghost Value = { SeenRing T };

    ghost view = { λ r. record { items = items_in r.buffer; capacity = places_in r.buffer } };
}

impl<T: Drop> Ring<T> {
    /// An empty queue without places.
    pub fn make(alloc: Global) -> Ring<T>
        ensures { result ≡ record { items = []; capacity = 0 } }
    {
        Ring {
            alloc,
            buffer: None,
        }
    }

    /// The number of items.
    #[inline]
    pub fn len(&self) -> usize
        ensures len { result ≡ length self.now.items }
        ensures within { (result ≤ self.now.capacity) × (self.now.capacity < 2 ^ 63) }
    {
        match &self.buffer {
            Some(buffer) => buffer.len(),
            None => 0,
        }
    }

    #[inline]
    pub fn is_empty(&self) -> bool
        ensures { result ≡ (length self.now.items == 0) }
    {
        self.len() == 0
    }

    /// For how many items there are places.
    #[inline]
    pub fn capacity(&self) -> usize
        ensures capacity { result ≡ self.now.capacity }
        ensures within { (length self.now.items ≤ result) × (result < 2 ^ 63) }
    {
        match &self.buffer {
            Some(buffer) => buffer.capacity(),
            None => 0,
        }
    }

    /// For how many more items there are places.
    #[inline]
    pub fn free(&self) -> usize
        ensures free { result ≡ self.now.capacity - length self.now.items }
        ensures within { (length self.now.items ≤ self.now.capacity) × (self.now.capacity < 2 ^ 63) }
    {
        self.capacity() - self.len()
    }

    /// A block for so many items, which are no fewer than there are.
    fn grow(&mut self, capacity: usize) -> Result<(), NoMemory>
        requires { length self.old.items ≤ capacity }
        ensures ok { OnOk result (self.new ≡ record { items = self.old.items; capacity = capacity }) }
        ensures refused { OnErr result (self.new ≡ self.old) }
    {
        if let Some(buffer) = &mut self.buffer {
            buffer.resize(capacity)?;
            return Ok(());
        }
        self.buffer = Some(HeapCircularBuffer::with_capacity(self.alloc, capacity)?);
        Ok(())
    }

    /// Makes places for `n` more items, and mostly for more: the block is at least doubled.
    pub fn reserve(&mut self, n: usize) -> Result<(), NoMemory>
        ensures ok { OnOk result (n + length self.new.items ≤ self.new.capacity) }
        ensures items { self.new.items ≡ self.old.items }
        ensures grows { self.old.capacity ≤ self.new.capacity }
        ensures refused { OnErr result (self.new ≡ self.old) }
        ensures ready { n + length self.old.items ≤ self.old.capacity → (IsOk result) × (self.new ≡ self.old) }
    {
        if n <= self.free() {
            return Ok(());
        }
        let Some(least) = self.len().checked_add(n) else {
            return Err(NoMemory);
        };
        let doubled = 2 * self.capacity();
        self.grow(least.max(doubled))
    }

    /// The first item.
    #[inline]
    pub fn front(&self) -> Option<&T>
        ensures { option_copied result ≡ slice_get self.now.items 0 }
    {
        match &self.buffer {
            Some(buffer) => buffer.front(),
            None => None,
        }
    }

    /// The item at an index from the front.
    pub fn get(&self, index: usize) -> Option<&T>
        ensures { option_copied result ≡ slice_get self.now.items index }
    {
        match &self.buffer {
            Some(buffer) => buffer.get(index),
            None => None,
        }
    }

    /// Puts an item at the end.
    #[inline]
    pub fn push_back_reserved(&mut self, item: T)
        requires { length self.old.items < self.old.capacity }
        ensures items { self.new.items ≡ self.old.items ++ item ∷ [] }
        ensures len { length self.new.items ≡ length self.old.items + 1 }
        ensures capacity { self.new.capacity ≡ self.old.capacity }
    {
        let Some(buffer) = &mut self.buffer else {
            unreachable!()
        };
        let Ok(()) = buffer.try_push_back(item) else {
            unreachable!()
        };
    }

    /// Puts an item at the front.
    #[inline]
    pub fn push_front_reserved(&mut self, item: T)
        requires { length self.old.items < self.old.capacity }
        ensures items { self.new.items ≡ item ∷ self.old.items }
        ensures len { length self.new.items ≡ length self.old.items + 1 }
        ensures capacity { self.new.capacity ≡ self.old.capacity }
    {
        let Some(buffer) = &mut self.buffer else {
            unreachable!()
        };
        let Ok(()) = buffer.try_push_front(item) else {
            unreachable!()
        };
    }

    /// Puts an item in the place of the first, where there is one, which is answered.
    #[inline(always)]
    pub fn replace_front(&mut self, item: T) -> Option<T>
        ensures value { result ≡ slice_get self.old.items 0 }
        ensures items { self.new.items ≡ with_front item self.old.items }
        ensures len { length self.new.items ≡ length self.old.items }
        ensures capacity { self.new.capacity ≡ self.old.capacity }
    {
        let Some(buffer) = &mut self.buffer else {
            return None;
        };
        match buffer.get_mut(0) {
            Some(first) => Some(replace(first, item)),
            None => None,
        }
    }

    /// Takes the first item.
    #[inline(always)]
    pub fn pop_front(&mut self) -> Option<T>
        ensures value { result ≡ slice_get self.old.items 0 }
        ensures items { self.old.items ≡ option_to_list result ++ self.new.items }
        ensures rest { self.new.items ≡ drop 1 self.old.items }
        ensures len { length self.new.items ≡ length self.old.items - 1 }
        ensures capacity { self.new.capacity ≡ self.old.capacity }
    {
        match &mut self.buffer {
            Some(buffer) => buffer.pop_front(),
            None => None,
        }
    }

    /// Drops all items.
    pub fn clear(&mut self)
        ensures items { self.new.items ≡ [] }
        ensures capacity { self.new.capacity ≡ self.old.capacity }
    {
        if let Some(buffer) = &mut self.buffer {
            buffer.clear();
        }
    }
}
