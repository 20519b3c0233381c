//! The settling of a promise where that is short.
ghost use Rattle.std.specs.Prelude.{◌≡◌, ◌≤◌, ◌+◌, ℕ, Bool, List, Ok, true, false, length};
ghost use Rattle.ws_slots.specs.Counts.{unnoted_in, unwatched_in};
ghost use Rattle.ws_slots.specs.View.{AllWait, all_waiting, table_of};
ghost use Rattle.ws_slots.specs.declared.waiting.Waiting.{Waiting};
ghost use Rattle.ws_steps.specs.Promises as table;
ghost use Rattle.ws_steps.specs.declared.calls.Event.{Event};
ghost use Rattle.ws_value.specs.declared.value.Plain.TheVariants.{Undefined};

use crate::slots::{Slots, is_recent, open_slot, put_undefined};
use ws_jobs::{Jobs, is_reaction};
use ws_value::{Plain, PromiseId};

/// Fulfils `p` with undefined where that is short: it is found at once, it is open, nobody watches it, and for it waits
/// one reaction, which stands at its place. Else nothing is done.
#[inline(always)]
pub fn settle_shortly(
    slots: &mut Slots,
    jobs: &mut Jobs,
    reactions: &mut usize,
    p: PromiseId,
) -> bool
    requires room { length jobs.old.items + reactions.old ≤ jobs.old.capacity }
    requires kept { (ws : List Waiting) × AllWait slots.old.items (all_waiting slots.old.items ws)
        × (reactions.old ≡ length (all_waiting slots.old.items ws)) }
    ensures table { result ≡ true → (ws : List Waiting) (n : ℕ) (ps : List Event) (b : Bool)
        → AllWait slots.old.items (all_waiting slots.old.items ws)
        → table_of slots.new.items (all_waiting slots.new.items ws) jobs.new.items n ps b
        ≡ table.settle p (Ok Undefined) (table_of slots.old.items (all_waiting slots.old.items ws) jobs.old.items n ps b) }
    ensures untouched { result ≡ false
        → (slots.new ≡ slots.old) × (jobs.new ≡ jobs.old) × (reactions.new ≡ reactions.old) }
    ensures total { length jobs.new.items + reactions.new ≡ length jobs.old.items + reactions.old }
    ensures slots { (length slots.new.items ≡ length slots.old.items) × (slots.new.limit ≡ slots.old.limit) }
    ensures unnoted { unnoted_in slots.new.items ≡ unnoted_in slots.old.items }
    ensures unwatched { unwatched_in slots.new.items ≡ unwatched_in slots.old.items }
    ensures jobs_capacity { jobs.new.capacity ≡ jobs.old.capacity }
    ensures kept { (ws : List Waiting) → AllWait slots.old.items (all_waiting slots.old.items ws)
        → AllWait slots.new.items (all_waiting slots.new.items ws) }
    ensures reactions { (ws : List Waiting) → AllWait slots.old.items (all_waiting slots.old.items ws)
        → reactions.old ≡ length (all_waiting slots.old.items ws)
        → reactions.new ≡ length (all_waiting slots.new.items ws) }
{
    if !is_recent(slots, p) {
        return false;
    }
    let Some(open) = open_slot(slots, p) else {
        return false;
    };
    if open.waits != 1 {
        return false;
    }
    if let Some(_rank) = open.rank {
        return false;
    }
    if !is_reaction(&open.first) {
        return false;
    }
    let first = open.first;
    put_undefined(slots, p);
    jobs.push_settled(first, &Ok(Plain::Undefined));
    *reactions -= 1;
    true
}
