//! The watching of promises, of whose settlings the host hears.
ghost use Rattle.std.specs.Prelude.{◌≡◌, ◌≤◌, ◌<◌, ◌+◌, ℕ, Bool, List, Option, length};
ghost use Rattle.ws_slots.specs.Counts.{one_where_some, unnoted_in, unwatched_in};
ghost use Rattle.ws_slots.specs.Settlings.{marked, one_where_watched};
ghost use Rattle.ws_slots.specs.View.{AllWait, all_waiting, table_of};
ghost use Rattle.ws_steps.specs.Promises as table;
ghost use Rattle.ws_steps.specs.Promises.{Table};
ghost use Rattle.ws_steps.specs.declared.promises.Job.{Job};
ghost use Rattle.ws_slots.specs.Slot.{Slot as Place};
ghost use Rattle.ws_slots.specs.declared.waiting.Waiting.{Waiting};
ghost use Rattle.ws_value.specs.declared.ids.PromiseId.{PromiseId as Id};
ghost use Rattle.ws_steps.specs.declared.calls.Event.{Event};

use crate::slots::{Slots, is_unsettled, outcome_at, put_rank, rank_at};
use ws_ring::Ring;
use ws_steps::Event;
use ws_value::PromiseId;

/// What became of the settling of a promise.
#[derive(Clone, Copy)]
pub enum Settling {
    /// The promise wasn't open, and nothing changed.
    Astray,
    /// The promise settled, and nobody watches it.
    Unwatched,
    /// The promise settled, and that is still to be told.
    Watched,
}

impl Settling {
    /// What became of the settling of an open promise with this rank.
    pub fn of_rank(rank: Option<u64>) -> Settling
        ensures table { (p : Id) (t : Table) → marked p t result ≡ table.noted p t rank }
        ensures count { one_where_watched result ≡ one_where_some rank }
    {
        match rank {
            None => Settling::Unwatched,
            Some(_rank) => Settling::Watched,
        }
    }
}

/// Notes what became of the settling of `p`. There is room for each watched promise that is pending.
pub fn note(
    events: &mut Ring<Event>,
    unnoted: &mut usize,
    astray: &mut bool,
    p: PromiseId,
    settling: Settling,
)
    requires counted { one_where_watched settling ≤ unnoted.old }
    requires room { length events.old.items + unnoted.old ≤ events.old.capacity }
    ensures table { (ss : List (Option Place)) (ws : List Waiting) (js : List Job) (n : ℕ)
        → table_of ss ws js n events.new.items astray.new
        ≡ marked p (table_of ss ws js n events.old.items astray.old) settling }
    ensures unnoted { unnoted.new + one_where_watched settling ≡ unnoted.old }
    ensures total { length events.new.items + unnoted.new ≡ length events.old.items + unnoted.old }
    ensures capacity { events.new.capacity ≡ events.old.capacity }
{
    match settling {
        Settling::Astray => *astray = true,
        Settling::Unwatched => {}
        Settling::Watched => {
            events.push_back_reserved(Event::Settled(p));
            *unnoted -= 1;
        }
    }
}

/// Has `p` be watched from now on.
pub fn watch(
    slots: &mut Slots,
    events: &mut Ring<Event>,
    watched: &mut u64,
    unnoted: &mut usize,
    p: PromiseId,
)
    requires room { length events.old.items + unnoted.old < events.old.capacity }
    requires place { length slots.old.items < slots.old.limit }
    requires unnoted { unnoted.old ≡ unnoted_in slots.old.items }
    requires watched { unwatched_in slots.old.items + watched.old ≤ length slots.old.items }
    ensures table { (ws : List Waiting) (js : List Job) (b : Bool)
        → table_of slots.new.items (all_waiting slots.new.items ws) js watched.new events.new.items b
        ≡ table.watch p (table_of slots.old.items (all_waiting slots.old.items ws) js watched.old events.old.items b) }
    ensures slots { (length slots.new.items ≡ length slots.old.items)
        × (slots.new.limit ≤ slots.old.limit)
        × (slots.old.limit ≤ slots.new.limit + 1) }
    ensures total { length events.new.items + unnoted.new ≤ length events.old.items + unnoted.old + 1 }
    ensures capacity { events.new.capacity ≡ events.old.capacity }
    ensures unnoted { unnoted.new ≡ unnoted_in slots.new.items }
    ensures watched { unwatched_in slots.new.items + watched.new ≤ length slots.new.items }
    ensures kept { (ws : List Waiting) → AllWait slots.old.items (all_waiting slots.old.items ws)
        → AllWait slots.new.items (all_waiting slots.new.items ws) }
    ensures reactions { (ws : List Waiting)
        → length (all_waiting slots.new.items ws) ≡ length (all_waiting slots.old.items ws) }
{
    let _few = events.capacity();
    let Some(outcome) = outcome_at(slots, p) else {
        return;
    };
    let pending = is_unsettled(outcome);
    match rank_at(slots, p) {
        Some(_rank) => return,
        None => {}
    }
    let _len = slots.len();
    put_rank(slots, p, *watched);
    *watched += 1;
    if pending {
        *unnoted += 1;
    } else {
        events.push_back_reserved(Event::Settled(p));
    }
}
