//! Which promises have a place, which of them are spent, and the forgetting of one.
ghost use Rattle.std.specs.Prelude.{◌≡◌, ◌≤◌, ◌<◌, length, Some, None, IfSome, IfNone, slice_get, slice_set, true, false, nat_lt};
ghost use Rattle.ws_alike.specs.Alike.{is_undefined};
ghost use Rattle.ws_alike.specs.Named.{in_reactions};
ghost use Rattle.ws_slots.specs.Counts.{one_where_kept};
ghost use Rattle.ws_slots.specs.View.{first_reactions};
ghost use Rattle.ws_slots.specs.Slot.{Slot as AnySlot};
ghost use Rattle.ws_slots.specs.Words.{IsLooseAt, IsSlotAt, NonePlaced, NoneSpent, is_loose_slot, ended_slot};

use crate::slots::{Slots, outcome_at, pending_slot, rank_at};
use ws_jobs::short_reaction_names;
use ws_value::{Outcome, Plain, PromiseId};

/// The first promise from this one on that has a place.
pub fn placed_from(slots: &Slots, from: PromiseId) -> Option<PromiseId>
    ensures some { IfSome result (λ p. (from.0 ≤ p.0) × (p.0 < length slots.now.items)
        × IsSlotAt slots.now.items p.0
        × NonePlaced from.0 p.0 slots.now.items) }
    ensures none { IfNone result (NonePlaced from.0 (length slots.now.items) slots.now.items) }
{
    if slots.places.next() as u128 <= from.0 {
        return None;
    }
    let Some(settled) = slots.settled.kept_from(from.0 as usize) else {
        return match slots.places.kept_from(from.0 as usize) {
            Some(open) => Some(PromiseId(open as u128)),
            None => None,
        };
    };
    match slots.places.kept_from(from.0 as usize) {
        Some(open) => Some(PromiseId(open.min(settled) as u128)),
        None => Some(PromiseId(settled as u128)),
    }
}

/// The first promise from this one on that has settled and has a place.
fn settled_from(slots: &Slots, from: PromiseId) -> Option<PromiseId>
    ensures some { IfSome result (λ p. (from.0 ≤ p.0) × (p.0 < length slots.now.items)
        × NoneSpent from.0 p.0 slots.now.items) }
    ensures none { IfNone result (NoneSpent from.0 (length slots.now.items) slots.now.items) }
{
    if slots.places.next() as u128 <= from.0 {
        return None;
    }
    match slots.settled.kept_from(from.0 as usize) {
        Some(number) => Some(PromiseId(number as u128)),
        None => None,
    }
}

/// Whether the promise at `p` has settled, nobody watches it, and it has a place.
pub fn is_spent(slots: &Slots, p: PromiseId) -> bool
    ensures there { result ≡ true → IsLooseAt slots.now.items p.0 }
    ensures loose { (s : AnySlot) → slice_get slots.now.items p.0 ≡ Some (Some s) → (result ≡ true → is_loose_slot s ≡ true)
        × (result ≡ false → is_loose_slot s ≡ true → s ≡ ended_slot None) }
{
    if slots.places.next() as u128 <= p.0 {
        return false;
    }
    let Some(settled) = slots.settled.get(p.0 as usize) else {
        return false;
    };
    match settled.rank {
        Some(_rank) => false,
        None => true,
    }
}

/// The first promise from this one on that has settled, that nobody watches, and that has a place.
pub fn spent_from(slots: &Slots, from: PromiseId) -> Option<PromiseId>
    ensures some { IfSome result (λ p. (from.0 ≤ p.0) × (p.0 < length slots.now.items)
        × IsLooseAt slots.now.items p.0
        × NoneSpent from.0 p.0 slots.now.items) }
    ensures none { IfNone result (NoneSpent from.0 (length slots.now.items) slots.now.items) }
{
    let _len = slots.len();
    let mut at = from;
    while let Some(p) = settled_from(slots, at) {
        if is_spent(slots, p) {
            return Some(p);
        }
        at = PromiseId(p.0 + 1);
    }
    None
}

/// Has the promise at `p`, which has settled and isn't watched, leave its place, as one that was fulfilled with
/// undefined while nobody watched it.
pub fn forget(slots: &mut Slots, p: PromiseId)
    requires { IsLooseAt slots.old.items p.0 }
    ensures items { slots.new.items ≡ slice_set slots.old.items p.0 (Some (ended_slot None)) }
    ensures len { length slots.new.items ≡ length slots.old.items }
    ensures limit { slots.new.limit ≡ slots.old.limit }
{
    let _next = slots.places.next();
    slots.settled.release(p.0 as usize);
}

/// Whether the reaction that was registered first of those that wait for the promise at `q` names `p`.
pub fn first_names(slots: &Slots, q: PromiseId, p: PromiseId) -> bool
    ensures { (s : AnySlot) → slice_get slots.now.items q.0 ≡ Some (Some s)
        → result ≡ nat_lt 0 (in_reactions p (first_reactions s.first)) }
{
    let _next = slots.places.next();
    match pending_slot(slots, q) {
        Some(open) => short_reaction_names(p, open.first),
        None => false,
    }
}

/// 1 where the promise at `p` is kept, as all are but those that were fulfilled with undefined while nobody watched
/// them.
pub fn kept_at(slots: &Slots, p: PromiseId) -> usize
    ensures kept { (s : AnySlot) → slice_get slots.now.items p.0 ≡ Some (Some s) → result ≡ one_where_kept (Some s) }
    ensures few { result ≤ 1 }
{
    let Some(outcome) = outcome_at(slots, p) else {
        return 0;
    };
    match rank_at(slots, p) {
        Some(_rank) => return 1,
        None => {}
    }
    if is_undefined(outcome) { 0 } else { 1 }
}

/// Whether a promise with this outcome was fulfilled with undefined.
fn is_undefined(outcome: &Outcome) -> bool
    ensures { result ≡ is_undefined outcome.now }
{
    match outcome {
        Outcome::Fulfilled(Plain::Undefined) => true,
        _ => false,
    }
}
