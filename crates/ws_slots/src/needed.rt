//! Which promises the slots and the reactions that wait name, how many are kept, and the release of one.
ghost use Rattle.std.specs.Prelude.{◌≡◌, ◌≤◌, ◌<◌, ℕ, Bool, List, length, nat_lt};
ghost use Rattle.ws_alike.specs.Alike.{release as released};
ghost use Rattle.ws_alike.specs.Named.{in_all};
ghost use Rattle.ws_slots.specs.Counts.{kept_to, unnoted_in, unwatched_in};
ghost use Rattle.ws_slots.specs.View.{AllWait, all_waiting, firsts_from, in_waiting, table_of};
ghost use Rattle.ws_slots.specs.declared.waiting.Waiting.{Waiting as Item};
ghost use Rattle.ws_steps.specs.declared.calls.Event.{Event};
ghost use Rattle.ws_steps.specs.declared.promises.Job.{Job as Queued};

use crate::slots::Slots;
use crate::spent::{first_names, forget, is_spent, kept_at, placed_from};
use crate::waiting::Waiting;
use ws_alike::reaction_names;
use ws_value::PromiseId;

/// Whether one of these reactions names `p`.
pub fn waiting_names(waiting: &Vec<Waiting>, p: PromiseId) -> bool
    ensures { result ≡ nat_lt 0 (in_all (in_waiting p) waiting.now.items) }
{
    for i in 0..waiting.len() {
        if reaction_names(p, &waiting[i].reaction) {
            return true;
        }
    }
    false
}

/// Whether one of the reactions at the places of promises names `p`.
pub fn firsts_name(slots: &Slots, p: PromiseId) -> bool
    ensures { result ≡ nat_lt 0 (in_all (in_waiting p) (firsts_from 0 slots.now.items)) }
{
    let _len = slots.len();
    let mut at = PromiseId(0);
    while let Some(q) = placed_from(slots, at) {
        if first_names(slots, q, p) {
            return true;
        }
        at = PromiseId(q.0 + 1);
    }
    false
}

/// How many promises are kept.
pub fn count_kept(slots: &Slots) -> usize
    ensures { result ≡ kept_to (length slots.now.items) slots.now.items }
{
    let _len = slots.len();
    let mut kept = 0;
    let mut at = PromiseId(0);
    while let Some(p) = placed_from(slots, at) {
        kept += kept_at(slots, p);
        at = PromiseId(p.0 + 1);
    }
    kept
}

/// Has `p` be forgotten, where it has settled and nobody watches it.
pub fn release(slots: &mut Slots, p: PromiseId)
    ensures table { (ws : List Item) (js : List Queued) (n : ℕ) (ps : List Event) (b : Bool)
        → AllWait slots.old.items (all_waiting slots.old.items ws)
        → table_of slots.new.items (all_waiting slots.new.items ws) js n ps b
        ≡ released p (table_of slots.old.items (all_waiting slots.old.items ws) js n ps b) }
    ensures slots { (length slots.new.items ≡ length slots.old.items) × (slots.new.limit ≡ slots.old.limit) }
    ensures unnoted { unnoted_in slots.new.items ≡ unnoted_in slots.old.items }
    ensures unwatched { unwatched_in slots.new.items ≡ unwatched_in slots.old.items }
    ensures kept { (ws : List Item) → AllWait slots.old.items (all_waiting slots.old.items ws)
        → AllWait slots.new.items (all_waiting slots.new.items ws) }
    ensures reactions { (ws : List Item) → AllWait slots.old.items (all_waiting slots.old.items ws)
        → length (all_waiting slots.new.items ws) ≡ length (all_waiting slots.old.items ws) }
{
    if is_spent(slots, p) {
        forget(slots, p);
    }
}
