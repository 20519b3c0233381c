//! Values at places that are used again.
ghost use Rattle.std.specs.Prelude.{◌≡◌, ◌≢◌, ◌<◌, ◌≤◌, ◌+◌, ℕ, [], ◌∷◌, Some, None, IsSome, OnOk, slice_index_or};
ghost use Rattle.std.specs.Borrow.{sem};

use std::alloc::Global;
use std::marker::Model;
use ws_value::NoMemory;

/// Values, each at a place of its own. One that was let go of lies there until another takes its place. They are seen
/// as what lies at each place, where none stands for one that was let go of, and as for how many more there are places.
#[derive(Drop)]
pub struct Shelf<T> {
    values: Vec<T>,
    /// The places whose values were let go of.
    free: Vec<usize>,
}

impl<T> Model for Shelf<T> {
    ghost use Rattle.std.specs.Prelude.{◌+◌, ◌-◌, min, vec_len, vec_capacity};
    ghost use Rattle.ws_places.specs.Shelves.{IsShelf, SeenShelf, slots_from};

    ghost Value = { SeenShelf T };

    ghost view = { λ a. record {
      slots = slots_from 0 a.values.items a.free.items;
      spare = (min (vec_capacity a.values) (vec_capacity a.free) - vec_len a.values) + vec_len a.free;
    } };

    ghost invariant = { λ a. IsShelf a.values.items a.free.items (vec_capacity a.free) };
}

impl<T: Drop> Shelf<T> {
    ghost use Rattle.ws_places.specs.Lends.{lends_slot};

    /// No values.
    pub fn make(alloc: Global) -> Shelf<T>
        ensures slots { result.slots ≡ [] }
    {
        Shelf {
            values: Vec::new(alloc),
            free: Vec::new(alloc),
        }
    }

    /// Makes places for `n` more values.
    pub fn reserve(&mut self, n: usize) -> Result<(), NoMemory>
        ensures ok { OnOk result (n ≤ self.new.spare) }
        ensures slots { self.new.slots ≡ self.old.slots }
        ensures spare { self.old.spare ≤ self.new.spare }
    {
        if n <= self.spare() {
            return Ok(());
        }
        let Some(least) = self.values.len().checked_add(n) else {
            return Err(NoMemory);
        };
        self.free.reserve(least)?;
        self.values.reserve(n)?;
        Ok(())
    }

    /// How many more values there are places for.
    #[inline(always)]
    pub fn spare(&self) -> usize
        ensures { result ≡ self.now.spare }
    {
        let places = self.values.capacity().min(self.free.capacity());
        places - self.values.len() + self.free.len()
    }

    /// Puts a value at a place that has none.
    #[inline(always)]
    pub fn put(&mut self, value: T) -> usize
        requires room { 1 ≤ self.old.spare }
        ensures was_vacant { slice_index_or self.old.slots result None ≡ None }
        ensures changed { slice_index_or self.new.slots result None ≡ Some value }
        ensures others { (m : ℕ) → m ≢ result → slice_index_or self.new.slots m None ≡ slice_index_or self.old.slots m None }
        ensures spare { self.new.spare + 1 ≡ self.old.spare }
    {
        if let Some(place) = self.free.pop() {
            self.values[place] = value;
            return place;
        }
        let place = self.values.len();
        self.values.push_reserved(value);
        place
    }

    /// The value at a place that has one.
    #[inline(always)]
    pub fn get(&self, place: usize) -> &T
        requires { IsSome (slice_index_or self.now.slots place None) }
        ensures { slice_index_or self.now.slots place None ≡ Some result.now }
    {
        &self.values[place]
    }

    /// The value at a place that has one, to be written.
    #[inline(always)]
    pub fn get_mut(&mut self, place: usize) -> &mut T
        requires { IsSome (slice_index_or self.old.slots place None) }
        ensures* writes_back { sem 𝓛 (lends_slot T.row self.entry place result) }
        ensures value { slice_index_or self.old.slots place None ≡ Some result.now }
    {
        &mut self.values[place]
    }

    /// Lets go of the value at a place that has one.
    #[inline(always)]
    pub fn let_go(&mut self, place: usize)
        requires { IsSome (slice_index_or self.old.slots place None) }
        ensures others { (m : ℕ) → m ≢ place → slice_index_or self.new.slots m None ≡ slice_index_or self.old.slots m None }
        ensures spare { self.new.spare ≡ self.old.spare + 1 }
    {
        self.free.push_reserved(place);
    }
}
