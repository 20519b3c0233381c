//! The promises by number. One that was fulfilled with undefined while nobody watched it takes no memory; any other has
//! a place, which is used again. A pending one takes few bytes.
ghost use Rattle.std.specs.Prelude.{◌≡◌, ◌≤◌, ◌<◌, ◌↔◌, ◌+◌, ◌^◌, ◌++◌, ◌∷◌, [], List, ℕ, length, Some, None, IsSome, IfSome, IfNone, OnOk, slice_get, slice_set, true, false};
ghost use Rattle.ws_value.specs.declared.value.Outcome.TheVariants.{Fulfilled};
ghost use Rattle.ws_value.specs.declared.value.Plain.TheVariants.{Undefined};
ghost use Rattle.ws_steps.specs.Promises.{is_following_entry, is_open_entry, is_pending, settled};
ghost use Rattle.ws_slots.specs.View.{entry_of};
ghost use Rattle.ws_slots.specs.Slot.{Slot as AnySlot};
ghost use Rattle.ws_slots.specs.Words.{HasOutcome, WaitsFirst, is_pending_slot, new_slot, rank_in, slot_of};
ghost use Rattle.ws_jobs.specs.Shorts.{reaction_in};
ghost use Rattle.ws_slots.specs.declared.waiting.Waiting.{Waiting};

use std::alloc::Global;
use std::marker::Model;
use ws_jobs::Short;
use ws_places::Places;
use ws_value::{NoMemory, Outcome, Plain, PromiseId};

/// A pending promise. The reactions that wait for it stand in a list of their own, but for one.
#[derive(Clone, Copy)]
pub struct Open {
    pub follows: bool,
    /// How many reactions wait for it.
    pub waits: usize,
    /// Where the promise is watched, how many became watched before it.
    pub rank: Option<u64>,
    /// The reaction that was registered first of those that wait for it, where it has a short form.
    pub first: Short,
}

/// A promise that has settled otherwise than with undefined, or that is watched.
#[derive(Drop)]
pub struct Settled {
    pub outcome: Outcome,
    pub rank: Option<u64>,
}

/// The slots of promises by number, and for how many promises there are places. One that was fulfilled with undefined
/// while nobody watched it takes none.
#[derive(Drop)]
pub struct Slots {
    pub(crate) places: Places<Open>,
    pub(crate) settled: Places<Settled>,
    limit: usize,
    /// The outcome of each pending promise.
    pending: Outcome,
    /// The outcome of each promise that takes no place.
    undefined: Outcome,
}

impl Model for Slots {
    ghost use Rattle.std.specs.Prelude.{◌≡◌, ◌+◌, ◌≤◌, length};
    ghost use Rattle.ws_value.specs.declared.value.Outcome.TheVariants.{Fulfilled, Pending};
    ghost use Rattle.ws_value.specs.declared.value.Plain.TheVariants.{Undefined};
    ghost use Rattle.ws_slots.specs.Words.{Apart, SeenSlots, items_from};

    ghost Value = { SeenSlots };

    ghost view = { λ a. record {
      items = items_from 0 a.places.next a.places.kept a.settled.kept;
      limit = a.limit;
    } };

    ghost invariant = { λ a. (a.places.next ≤ a.limit)
        × (a.limit ≤ a.places.next + a.places.spare)
        × (length a.places.kept + a.limit ≤ a.places.next + a.settled.spare)
        × Apart a.places.next a.places.kept a.settled.kept
        × (a.pending ≡ Pending)
        × (a.undefined ≡ Fulfilled Undefined) };
}

impl Slots {
    /// Slots of no promise. Places are made by `reserve`.
    pub fn make(alloc: Global) -> Slots
        ensures { result ≡ record { items = []; limit = 0 } }
    {
        Slots {
            places: Places::make(alloc),
            settled: Places::make(alloc),
            limit: 0,
            pending: Outcome::Pending,
            undefined: Outcome::Fulfilled(Plain::Undefined),
        }
    }

    /// How many promises there are, with those that take no place.
    #[inline(always)]
    pub fn len(&self) -> usize
        ensures is { result ≡ length self.now.items }
        ensures within { result ≤ self.now.limit }
    {
        self.places.next()
    }

    /// For how many further promises there are places.
    #[inline(always)]
    pub fn free(&self) -> usize
        ensures { (n : ℕ) → (n ≤ result) ↔ (n + length self.now.items ≤ self.now.limit) }
    {
        self.limit - self.places.next()
    }

    /// Makes places for `n` further promises, and mostly for more.
    pub fn reserve(&mut self, n: usize) -> Result<(), NoMemory>
        ensures ok { OnOk result (n + length self.new.items ≤ self.new.limit) }
        ensures fits { OnOk result (n < 2 ^ 63) }
        ensures items { self.new.items ≡ self.old.items }
        ensures grows { self.old.limit ≤ self.new.limit }
    {
        self.places.reserve(n.max(256))?;
        let open = self.places.most();
        let Some(all) = open.checked_add(self.places.spare()) else {
            return Err(NoMemory);
        };
        self.settled.reserve(all)?;
        let Some(limit) = self.places.next().checked_add(self.places.spare()) else {
            return Err(NoMemory);
        };
        self.limit = limit;
        Ok(())
    }

    /// Adds a pending promise.
    #[inline(always)]
    pub fn push(&mut self)
        requires { length self.old.items < self.old.limit }
        ensures { self.new ≡ record self.old { items = self.old.items ++ Some new_slot ∷ [] } }
    {
        let _number = self.places.keep(Open {
            follows: false,
            waits: 0,
            rank: None,
            first: Short::Whole,
        });
    }

    /// Adds a pending promise, for which this reaction waits.
    #[inline(always)]
    pub fn push_waiting(&mut self, first: Short)
        requires room { length self.old.items < self.old.limit }
        requires waits { IsSome (reaction_in first) }
        ensures { self.new ≡ record self.old
            { items = self.old.items ++ Some (record new_slot { waits = 1; first = reaction_in first }) ∷ [] } }
    {
        let _number = self.places.keep(Open {
            follows: false,
            waits: 1,
            rank: None,
            first,
        });
    }
}

/// Whether a promise with this outcome hasn't settled.
#[inline(always)]
pub fn is_unsettled(outcome: &Outcome) -> bool
    ensures { result ≡ is_pending outcome.now }
{
    match outcome {
        Outcome::Pending => true,
        Outcome::Fulfilled(_) => false,
        Outcome::Given(_) => false,
        Outcome::Finished(_) => false,
        Outcome::Rejected(_) => false,
    }
}

/// `p`, where it is pending.
#[inline(always)]
pub fn pending_slot(slots: &Slots, p: PromiseId) -> Option<&Open>
    ensures some { IfSome result (λ o. (slice_get slots.now.items p.0 ≡ Some (Some (slot_of o.now)))
        × (is_pending (slot_of o.now).outcome ≡ true)) }
    ensures none { IfNone result (is_pending_slot (slice_get slots.now.items p.0) ≡ false) }
{
    if slots.places.next() as u128 <= p.0 {
        return None;
    }
    slots.places.get(p.0 as usize)
}

/// `p`, where it is pending and follows no other.
#[inline(always)]
pub fn open_slot(slots: &Slots, p: PromiseId) -> Option<&Open>
    ensures some { IfSome result (λ o. (slice_get slots.now.items p.0 ≡ Some (Some (slot_of o.now)))
        × (is_pending (slot_of o.now).outcome ≡ true)
        × (o.now.follows ≡ false)) }
    ensures none { IfNone result ((ws : List Waiting) → is_open_entry (entry_of slots.now.items ws p) ≡ false) }
{
    let Some(open) = pending_slot(slots, p) else {
        return None;
    };
    if open.follows { None } else { Some(open) }
}

/// `p`, where it is pending and follows another.
#[inline(always)]
pub fn following_slot(slots: &Slots, p: PromiseId) -> Option<&Open>
    ensures some { IfSome result (λ o. (slice_get slots.now.items p.0 ≡ Some (Some (slot_of o.now)))
        × (is_pending (slot_of o.now).outcome ≡ true)
        × (o.now.follows ≡ true)) }
    ensures none { IfNone result ((ws : List Waiting) → is_following_entry (entry_of slots.now.items ws p) ≡ false) }
{
    let Some(open) = pending_slot(slots, p) else {
        return None;
    };
    if open.follows { Some(open) } else { None }
}

/// The outcome of `p`, where there is such a promise.
pub fn outcome_at(slots: &Slots, p: PromiseId) -> Option<&Outcome>
    ensures some { IfSome result (λ outcome. HasOutcome slots.now.items p.0 outcome.now) }
    ensures none { IfNone result ((ws : List Waiting) → entry_of slots.now.items ws p ≡ None) }
{
    if slots.places.next() as u128 <= p.0 {
        return None;
    }
    if let Some(_open) = slots.places.get(p.0 as usize) {
        return Some(&slots.pending);
    }
    match slots.settled.get(p.0 as usize) {
        Some(settled) => Some(&settled.outcome),
        None => Some(&slots.undefined),
    }
}

/// How many became watched before `p`, where there is such a promise that is watched.
pub fn rank_at(slots: &Slots, p: PromiseId) -> Option<u64>
    ensures { result ≡ rank_in (slice_get slots.now.items p.0) }
{
    if slots.places.next() as u128 <= p.0 {
        return None;
    }
    if let Some(open) = slots.places.get(p.0 as usize) {
        return open.rank;
    }
    match slots.settled.get(p.0 as usize) {
        Some(settled) => settled.rank,
        None => None,
    }
}

/// Has `p`, before which so many became watched if it is watched itself, end with this outcome. It follows no other
/// then, and nobody waits for it.
#[inline(never)]
pub fn put_outcome(slots: &mut Slots, p: PromiseId, rank: Option<u64>, outcome: Outcome)
    requires settled { is_pending outcome ≡ false }
    requires pending { is_pending_slot (slice_get slots.old.items p.0) ≡ true }
    requires rank { rank_in (slice_get slots.old.items p.0) ≡ rank }
    ensures items { (s : AnySlot) → slice_get slots.old.items p.0 ≡ Some (Some s)
        → slots.new.items ≡ slice_set slots.old.items p.0
        (Some (record s { outcome = outcome; follows = false; waits = 0; first = None })) }
    ensures len { length slots.new.items ≡ length slots.old.items }
    ensures limit { slots.new.limit ≡ slots.old.limit }
{
    let _next = slots.places.next();
    let number = p.0 as usize;
    slots.places.release(number);
    slots.settled.pass(number);
    slots.settled.keep_again(number, Settled { outcome, rank });
}

/// Has `p`, which isn't watched, end fulfilled with undefined. It leaves its place.
#[inline(always)]
pub fn put_undefined(slots: &mut Slots, p: PromiseId)
    requires pending { is_pending_slot (slice_get slots.old.items p.0) ≡ true }
    requires unwatched { rank_in (slice_get slots.old.items p.0) ≡ None }
    ensures items { (s : AnySlot) → slice_get slots.old.items p.0 ≡ Some (Some s)
        → slots.new.items ≡ slice_set slots.old.items p.0
        (Some (record s { outcome = Fulfilled Undefined; follows = false; waits = 0; first = None })) }
    ensures len { length slots.new.items ≡ length slots.old.items }
    ensures limit { slots.new.limit ≡ slots.old.limit }
{
    let _next = slots.places.next();
    slots.places.release(p.0 as usize);
}

/// Has `p` end fulfilled with a value or rejected with a reason.
#[inline(never)]
fn put_other(slots: &mut Slots, p: PromiseId, rank: Option<u64>, outcome: &Result<Plain, Plain>)
    requires pending { is_pending_slot (slice_get slots.old.items p.0) ≡ true }
    requires rank { rank_in (slice_get slots.old.items p.0) ≡ rank }
    ensures items { (s : AnySlot) → slice_get slots.old.items p.0 ≡ Some (Some s)
        → slots.new.items ≡ slice_set slots.old.items p.0
        (Some (record s { outcome = settled outcome.now; follows = false; waits = 0; first = None })) }
    ensures len { length slots.new.items ≡ length slots.old.items }
    ensures limit { slots.new.limit ≡ slots.old.limit }
{
    match outcome {
        Ok(v) => put_outcome(slots, p, rank, Outcome::Fulfilled(*v)),
        Err(r) => put_outcome(slots, p, rank, Outcome::Rejected(*r)),
    }
}

/// Has `p`, before which so many became watched if it is watched itself, end fulfilled or rejected.
#[inline(always)]
pub fn put_settled(
    slots: &mut Slots,
    p: PromiseId,
    rank: Option<u64>,
    outcome: &Result<Plain, Plain>,
)
    requires pending { is_pending_slot (slice_get slots.old.items p.0) ≡ true }
    requires rank { rank_in (slice_get slots.old.items p.0) ≡ rank }
    ensures items { (s : AnySlot) → slice_get slots.old.items p.0 ≡ Some (Some s)
        → slots.new.items ≡ slice_set slots.old.items p.0
        (Some (record s { outcome = settled outcome.now; follows = false; waits = 0; first = None })) }
    ensures len { length slots.new.items ≡ length slots.old.items }
    ensures limit { slots.new.limit ≡ slots.old.limit }
{
    if let Ok(Plain::Undefined) = outcome {
        if let None = rank {
            put_undefined(slots, p);
            return;
        }
    }
    put_other(slots, p, rank, outcome);
}

/// Writes whether `p` follows another.
#[inline(always)]
pub fn put_follows(slots: &mut Slots, p: PromiseId, follows: bool)
    requires { is_pending_slot (slice_get slots.old.items p.0) ≡ true }
    ensures items { (s : AnySlot) → slice_get slots.old.items p.0 ≡ Some (Some s)
        → slots.new.items ≡ slice_set slots.old.items p.0 (Some (record s { follows = follows })) }
    ensures len { length slots.new.items ≡ length slots.old.items }
    ensures limit { slots.new.limit ≡ slots.old.limit }
{
    let _next = slots.places.next();
    let Some(open) = slots.places.get_mut(p.0 as usize) else {
        return;
    };
    open.follows = follows;
}

/// Whether `p` is pending without a reaction; then this one waits for it.
#[inline(always)]
pub fn wait_first(slots: &mut Slots, p: PromiseId, first: Short) -> bool
    ensures waits { result ≡ true → WaitsFirst slots.old.items slots.new.items p.0 (reaction_in first) }
    ensures untouched { result ≡ false → slots.new ≡ slots.old }
    ensures len { length slots.new.items ≡ length slots.old.items }
    ensures limit { slots.new.limit ≡ slots.old.limit }
{
    if slots.places.next() as u128 <= p.0 {
        return false;
    }
    let Some(open) = slots.places.get_mut(p.0 as usize) else {
        return false;
    };
    if open.waits > 0 {
        return false;
    }
    open.waits = 1;
    open.first = first;
    true
}

/// Whether `p` is found at once.
#[inline(always)]
pub fn is_recent(slots: &Slots, p: PromiseId) -> bool {
    if slots.places.next() as u128 <= p.0 {
        return false;
    }
    slots.places.is_recent(p.0 as usize)
}

/// Writes how many reactions wait for `p`.
#[inline(always)]
pub fn put_waits(slots: &mut Slots, p: PromiseId, waits: usize)
    requires { is_pending_slot (slice_get slots.old.items p.0) ≡ true }
    ensures items { (s : AnySlot) → slice_get slots.old.items p.0 ≡ Some (Some s)
        → slots.new.items ≡ slice_set slots.old.items p.0 (Some (record s { waits = waits })) }
    ensures len { length slots.new.items ≡ length slots.old.items }
    ensures limit { slots.new.limit ≡ slots.old.limit }
{
    let _next = slots.places.next();
    let Some(open) = slots.places.get_mut(p.0 as usize) else {
        return;
    };
    open.waits = waits;
}

/// Writes how many promises became watched before `p`.
pub fn put_rank(slots: &mut Slots, p: PromiseId, rank: u64)
    requires within { p.0 < length slots.old.items }
    requires room { length slots.old.items < slots.old.limit }
    ensures items { (s : AnySlot) → slice_get slots.old.items p.0 ≡ Some (Some s)
        → slots.new.items ≡ slice_set slots.old.items p.0 (Some (record s { rank = Some rank })) }
    ensures len { length slots.new.items ≡ length slots.old.items }
    ensures limit { (slots.new.limit ≤ slots.old.limit) × (slots.old.limit ≤ slots.new.limit + 1) }
{
    let _next = slots.places.next();
    let number = p.0 as usize;
    if let Some(open) = slots.places.get_mut(number) {
        open.rank = Some(rank);
        return;
    }
    if let Some(settled) = slots.settled.get_mut(number) {
        settled.rank = Some(rank);
        return;
    }
    slots.settled.pass(number);
    let settled = Settled {
        outcome: Outcome::Fulfilled(Plain::Undefined),
        rank: Some(rank),
    };
    slots.settled.keep_again(number, settled);
    slots.limit -= 1;
}
