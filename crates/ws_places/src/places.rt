//! Values by number, each in a place that is used again.
ghost use Rattle.std.specs.Prelude.{◌≡◌, ◌≢◌, ◌<◌, ◌≤◌, ◌+◌, ◌-◌, ◌^◌, ℕ, [], ◌∷◌, ◌++◌, IfOk, IfErr, IfSome, IfNone, IsOk, IsSome, OnOk, Some, None, filter, is_some, length, option_copied, slice_get, vec_len, vec_capacity};
ghost use Rattle.std.specs.Borrow.{sem};
ghost use Rattle.std.specs.Option.{option_copied_mut};
ghost use Rattle.ws_places.specs.Pairs.{Rising};
ghost use Rattle.ws_places.specs.Seen.{put_in, value_in, without};
ghost use Rattle.ws_places.specs.declared.places.Pair.{Pair as PairOf};

use crate::shelf::Shelf;
use std::alloc::Global;
use std::marker::Model;
use ws_value::NoMemory;

/// A number that was given, and where its value stands, until that is let go of.
#[derive(Clone, Copy)]
pub struct Pair {
    pub number: usize,
    pub place: Option<usize>,
}

/// Values, each under a number that was never given before. A value that was let go of leaves its place to a later one.
/// They are seen as the values that are kept, with their numbers, in rising order; as the number that is given next;
/// and as how many more values there are places for.
#[derive(Drop)]
pub struct Places<T> {
    pairs: Vec<Pair>,
    values: Shelf<T>,
    next: usize,
}

impl<T> Model for Places<T> {
    ghost use Rattle.std.specs.Prelude.{◌-◌, min, vec_len, vec_capacity};
    ghost use Rattle.ws_places.specs.Seen.{SeenPlaces};
    ghost use Rattle.ws_places.specs.Pairs.{IsSound, kept_of};

    ghost Value = { SeenPlaces T };

    ghost view = { λ a. record {
      kept = kept_of a.pairs.items a.values.slots;
      next = a.next;
      spare = min (vec_capacity a.pairs - vec_len a.pairs) a.values.spare;
    } };

    ghost invariant = { λ a. IsSound a.pairs.items a.values.slots a.next };
}

/// Where the pair of this number stands, or where it would stand. Numbers are given one after another, so a pair that
/// came since the pairs were swept last stands as far before the end as its number is before the next one. Any other is
/// found by halving.
#[inline(always)]
fn find(pairs: &Vec<Pair>, next: usize, number: usize) -> Result<usize, usize>
    requires { (hi : ℕ) × Rising 0 hi pairs.now.items }
    ensures found { IfOk result (λ i. (i < vec_len pairs.now)
        × ((q : PairOf) → slice_get pairs.now.items i ≡ Some q → q.number ≡ number)) }
    ensures none { IfErr result (λ i. (i ≤ vec_len pairs.now)
        × ((j : ℕ) (q : PairOf) → slice_get pairs.now.items j ≡ Some q → j < i → q.number < number)
        × ((j : ℕ) (q : PairOf) → slice_get pairs.now.items j ≡ Some q → i ≤ j → number < q.number)) }
{
    let i = pairs.len().wrapping_sub(next.wrapping_sub(number));
    if i < pairs.len() {
        if pairs[i].number == number {
            return Ok(i);
        }
    }
    halve(pairs, number)
}

#[inline(never)]
fn halve(pairs: &Vec<Pair>, number: usize) -> Result<usize, usize>
    requires { (hi : ℕ) × Rising 0 hi pairs.now.items }
    ensures found { IfOk result (λ i. (i < vec_len pairs.now)
        × ((q : PairOf) → slice_get pairs.now.items i ≡ Some q → q.number ≡ number)) }
    ensures none { IfErr result (λ i. (i ≤ vec_len pairs.now)
        × ((j : ℕ) (q : PairOf) → slice_get pairs.now.items j ≡ Some q → j < i → q.number < number)
        × ((j : ℕ) (q : PairOf) → slice_get pairs.now.items j ≡ Some q → i ≤ j → number < q.number)) }
{
    let mut low = 0;
    let mut high = pairs.len();
    while low < high {
        let middle = low + (high - low) / 2;
        let at = pairs[middle].number;
        if at == number {
            return Ok(middle);
        }
        if at < number {
            low = middle + 1;
        } else {
            high = middle;
        }
    }
    Err(low)
}

/// Where the pairs of the numbers from this one on begin.
fn start_of(pairs: &Vec<Pair>, number: usize) -> usize
    requires { (hi : ℕ) × Rising 0 hi pairs.now.items }
    ensures within { result ≤ vec_len pairs.now }
    ensures before { (j : ℕ) (q : PairOf) → slice_get pairs.now.items j ≡ Some q → j < result → q.number < number }
    ensures after { (j : ℕ) (q : PairOf) → slice_get pairs.now.items j ≡ Some q → result ≤ j → number ≤ q.number }
{
    match halve(pairs, number) {
        Ok(i) => i,
        Err(i) => i,
    }
}

/// The index from this one on of the first pair that has a place.
fn next_held(pairs: &Vec<Pair>, start: usize) -> Option<usize>
    ensures some { IfSome result (λ i. (start ≤ i) × (i < vec_len pairs.now)
        × ((q : PairOf) → slice_get pairs.now.items i ≡ Some q → IsSome q.place)
        × ((j : ℕ) (q : PairOf) → slice_get pairs.now.items j ≡ Some q → start ≤ j → j < i → q.place ≡ None)) }
    ensures none { IfNone result ((j : ℕ) (q : PairOf) → slice_get pairs.now.items j ≡ Some q → start ≤ j → q.place ≡ None) }
{
    let mut i = start;
    while i < pairs.len() {
        if pairs[i].place.is_some() {
            return Some(i);
        }
        i += 1;
    }
    None
}

/// Drops the pairs that have no place, as most have none: the others move to the front.
fn drop_dead(pairs: &mut Vec<Pair>)
    ensures items { pairs.new.items ≡ filter (λ q. is_some q.place) pairs.old.items }
    ensures len { vec_len pairs.new ≤ vec_len pairs.old }
    ensures capacity { vec_capacity pairs.new ≡ vec_capacity pairs.old }
{
    let mut kept = 0;
    for i in 0..pairs.len() {
        let pair = pairs[i];
        if pair.place.is_some() {
            pairs[kept] = pair;
            kept += 1;
        }
    }
    pairs.truncate(kept);
}

impl<T: Drop> Places<T> {
    ghost use Rattle.ws_places.specs.Lends.{lends_value};

    /// No values.
    pub fn make(alloc: Global) -> Places<T>
        ensures kept { result.kept ≡ [] }
        ensures next { result.next ≡ 0 }
    {
        Places {
            pairs: Vec::new(alloc),
            values: Shelf::make(alloc),
            next: 0,
        }
    }

    /// Drops the pairs whose values were let go of.
    fn sweep(&mut self)
        ensures kept { self.new.kept ≡ self.old.kept }
        ensures next { self.new.next ≡ self.old.next }
        ensures spare { self.old.spare ≤ self.new.spare }
    {
        drop_dead(&mut self.pairs);
    }

    /// Makes places for `n` more values. The pairs whose values were let go of make room first.
    pub fn reserve(&mut self, n: usize) -> Result<(), NoMemory>
        ensures ok { OnOk result (n ≤ self.new.spare) }
        ensures fits { OnOk result (n < 2 ^ 63) }
        ensures kept { self.new.kept ≡ self.old.kept }
        ensures next { self.new.next ≡ self.old.next }
        ensures spare { self.old.spare ≤ self.new.spare }
    {
        self.sweep();
        let n = n.max(self.pairs.len());
        self.pairs.reserve(n)?;
        self.values.reserve(n)?;
        Ok(())
    }

    /// The number that is given next.
    #[inline(always)]
    pub fn next(&self) -> usize
        ensures { result ≡ self.now.next }
    {
        self.next
    }

    /// Keeps a value under a new number.
    #[inline(always)]
    pub fn keep(&mut self, value: T) -> usize
        requires room { 1 ≤ self.old.spare }
        requires few { self.old.next + 1 < 2 ^ 64 }
        ensures number { result ≡ self.old.next }
        ensures none { value_in self.old.next self.old.kept ≡ None }
        ensures kept { self.new.kept ≡ self.old.kept ++ (self.old.next, value) ∷ [] }
        ensures next { self.new.next ≡ self.old.next + 1 }
        ensures spare { self.new.spare + 1 ≡ self.old.spare }
    {
        let number = self.next;
        let place = self.values.put(value);
        self.pairs.push_reserved(Pair {
            number,
            place: Some(place),
        });
        self.next = number + 1;
        number
    }

    /// The value of this number, where it is kept.
    #[inline(always)]
    pub fn get(&self, number: usize) -> Option<&T>
        ensures { option_copied result ≡ value_in number self.now.kept }
    {
        match find(&self.pairs, self.next, number) {
            Ok(i) => match self.pairs[i].place {
                Some(place) => Some(self.values.get(place)),
                None => None,
            },
            Err(_) => None,
        }
    }

    /// Lets go of the value of this number, where it is kept. It lies there until another takes its place.
    #[inline(always)]
    pub fn release(&mut self, number: usize)
        ensures kept { self.new.kept ≡ without number self.old.kept }
        ensures next { self.new.next ≡ self.old.next }
        ensures spare { self.old.spare ≤ self.new.spare }
    {
        let Ok(i) = find(&self.pairs, self.next, number) else {
            return;
        };
        let Some(place) = self.pairs[i].place else {
            return;
        };
        self.pairs[i].place = None;
        self.values.let_go(place);
    }

    /// Whether this number is found without halving.
    #[inline(always)]
    pub fn is_recent(&self, number: usize) -> bool {
        let i = self
            .pairs
            .len()
            .wrapping_sub(self.next.wrapping_sub(number));
        if i < self.pairs.len() {
            self.pairs[i].number == number
        } else {
            false
        }
    }

    /// No fewer than there are values.
    #[inline(always)]
    pub fn most(&self) -> usize
        ensures { length self.now.kept ≤ result }
    {
        self.pairs.len()
    }

    /// This number, and those before it, count as given.
    #[inline(always)]
    pub fn pass(&mut self, number: usize)
        requires { number + 1 < 2 ^ 64 }
        ensures kept { self.new.kept ≡ self.old.kept }
        ensures spare { self.new.spare ≡ self.old.spare }
        ensures given { number < self.new.next }
    {
        if self.next <= number {
            self.next = number + 1;
        }
    }

    /// The least number from this one on whose value is kept.
    pub fn kept_from(&self, number: usize) -> Option<usize>
        ensures some { IfSome result (λ n. (number ≤ n) × (n < self.now.next) × IsSome (value_in n self.now.kept)
            × ((m : ℕ) → number ≤ m → m < n → value_in m self.now.kept ≡ None)) }
        ensures none { IfNone result ((m : ℕ) → number ≤ m → value_in m self.now.kept ≡ None) }
    {
        let start = start_of(&self.pairs, number);
        match next_held(&self.pairs, start) {
            Some(i) => Some(self.pairs[i].number),
            None => None,
        }
    }

    /// How many more values there are places for.
    #[inline(always)]
    pub fn spare(&self) -> usize
        ensures { result ≡ self.now.spare }
    {
        let pairs = self.pairs.capacity() - self.pairs.len();
        pairs.min(self.values.spare())
    }

    /// The value of this number, where it is kept, to be written.
    #[inline(always)]
    pub fn get_mut(&mut self, number: usize) -> Option<&mut T>
        ensures* writes_back { sem 𝓛 (lends_value T.row self.entry number result) }
        ensures value { option_copied_mut result ≡ value_in number self.old.kept }
    {
        let Ok(i) = find(&self.pairs, self.next, number) else {
            return None;
        };
        let Some(place) = self.pairs[i].place else {
            return None;
        };
        Some(self.values.get_mut(place))
    }

    /// Keeps a value under a number that was given before and has none.
    pub fn keep_again(&mut self, number: usize, value: T)
        requires room { 1 ≤ self.old.spare }
        requires given { number < self.old.next }
        requires none { value_in number self.old.kept ≡ None }
        ensures kept { self.new.kept ≡ put_in number value self.old.kept }
        ensures next { self.new.next ≡ self.old.next }
        ensures spare { self.old.spare ≤ self.new.spare + 1 }
    {
        let place = self.values.put(value);
        match find(&self.pairs, self.next, number) {
            Ok(i) => self.pairs[i].place = Some(place),
            Err(i) => {
                let pair = Pair {
                    number,
                    place: Some(place),
                };
                match self.pairs.insert(i, pair) {
                    Ok(()) => {}
                    Err(_) => unreachable!(),
                }
            }
        }
    }
}
