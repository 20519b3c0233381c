//! The operations on promises, on the three lists that stand for them.
ghost use Rattle.std.specs.Prelude.{◌≡◌, ◌≤◌, ◌<◌, ◌+◌, ◌-◌, ◌||◌, ℕ, Bool, List, drop, true, false, length, ◌++◌, map, None, Some, slice_get, vec_len, vec_capacity};
ghost use Rattle.ws_slots.specs.Counts.{unnoted_in, unwatched_in};
ghost use Rattle.ws_slots.specs.Settlings.{marked, one_where_watched};
ghost use Rattle.ws_slots.specs.View.{AllWait, all_waiting, first_reactions, table_of};
ghost use Rattle.ws_steps.specs.Promises as table;
ghost use Rattle.ws_steps.specs.Promises.{is_pending, job_of};
ghost use Rattle.ws_steps.specs.declared.promises.Job.{Job};
ghost use Rattle.ws_steps.specs.declared.promises.Reaction.TheVariants.{Adopt, Perform};
ghost use Rattle.ws_jobs.specs.Shorts.{reaction_in};
ghost use Rattle.ws_slots.specs.Words.{WaitsFirst};
ghost use Rattle.ws_slots.specs.declared.waiting.Waiting.{Waiting};
ghost use Rattle.ws_steps.specs.declared.calls.Event.{Event};

use crate::slots::{
    Open, Slots, following_slot, open_slot, outcome_at, pending_slot, put_follows, put_outcome,
    put_settled, put_waits, wait_first,
};
use crate::waiting::{Waiting, forget_waiting, move_waiting};
use crate::watched::Settling;
use ws_jobs::{Jobs, Short, is_reaction, short_of, short_react};
use ws_steps::{Job, Reaction, Step};
use ws_value::{Outcome, Plain, PromiseId};

/// Registers a reaction to `p`, or queues its job where `p` has settled.
#[inline(always)]
pub fn register(
    slots: &mut Slots,
    waiting: &mut Vec<Waiting>,
    jobs: &mut Jobs,
    reactions: &mut usize,
    p: PromiseId,
    reaction: &Reaction,
)
    requires waiting_room { vec_len waiting.old < vec_capacity waiting.old }
    requires jobs_room { length jobs.old.items + reactions.old < jobs.old.capacity }
    requires kept { AllWait slots.old.items (all_waiting slots.old.items waiting.old.items) }
    requires reactions { reactions.old ≡ length (all_waiting slots.old.items waiting.old.items) }
    ensures table { (n : ℕ) (ps : List Event) (b : Bool)
        → table_of slots.new.items (all_waiting slots.new.items waiting.new.items) jobs.new.items n ps b
        ≡ table.react p reaction.now (table_of slots.old.items (all_waiting slots.old.items waiting.old.items) jobs.old.items n ps b) }
    ensures slots { (length slots.new.items ≡ length slots.old.items) × (slots.new.limit ≡ slots.old.limit) }
    ensures unnoted { unnoted_in slots.new.items ≡ unnoted_in slots.old.items }
    ensures unwatched { unwatched_in slots.new.items ≡ unwatched_in slots.old.items }
    ensures total { length jobs.new.items + reactions.new ≤ length jobs.old.items + reactions.old + 1 }
    ensures jobs_capacity { jobs.new.capacity ≡ jobs.old.capacity }
    ensures waiting_capacity { vec_capacity waiting.new ≡ vec_capacity waiting.old }
    ensures kept { AllWait slots.new.items (all_waiting slots.new.items waiting.new.items) }
    ensures reactions { reactions.new ≡ length (all_waiting slots.new.items waiting.new.items) }
{
    let _few = jobs.capacity();
    if wait_first_of(slots, p, reaction) {
        *reactions += 1;
        return;
    }
    register_other(slots, waiting, jobs, reactions, p, reaction);
}

/// Has `step` performed once `p` settles.
#[inline(always)]
pub fn register_step(
    slots: &mut Slots,
    waiting: &mut Vec<Waiting>,
    jobs: &mut Jobs,
    reactions: &mut usize,
    p: PromiseId,
    step: &Step,
    derived: &Option<PromiseId>,
)
    requires waiting_room { vec_len waiting.old < vec_capacity waiting.old }
    requires jobs_room { length jobs.old.items + reactions.old < jobs.old.capacity }
    requires kept { AllWait slots.old.items (all_waiting slots.old.items waiting.old.items) }
    requires reactions { reactions.old ≡ length (all_waiting slots.old.items waiting.old.items) }
    ensures table { (n : ℕ) (ps : List Event) (b : Bool)
        → table_of slots.new.items (all_waiting slots.new.items waiting.new.items) jobs.new.items n ps b
        ≡ table.react p (Perform step.now derived.now) (table_of slots.old.items (all_waiting slots.old.items waiting.old.items) jobs.old.items n ps b) }
    ensures slots { (length slots.new.items ≡ length slots.old.items) × (slots.new.limit ≡ slots.old.limit) }
    ensures unnoted { unnoted_in slots.new.items ≡ unnoted_in slots.old.items }
    ensures unwatched { unwatched_in slots.new.items ≡ unwatched_in slots.old.items }
    ensures total { length jobs.new.items + reactions.new ≤ length jobs.old.items + reactions.old + 1 }
    ensures jobs_capacity { jobs.new.capacity ≡ jobs.old.capacity }
    ensures waiting_capacity { vec_capacity waiting.new ≡ vec_capacity waiting.old }
    ensures kept { AllWait slots.new.items (all_waiting slots.new.items waiting.new.items) }
    ensures reactions { reactions.new ≡ length (all_waiting slots.new.items waiting.new.items) }
{
    let _few = jobs.capacity();
    if wait_first_step(slots, p, step, derived) {
        *reactions += 1;
        return;
    }
    register_apart(slots, waiting, jobs, reactions, p, step, derived);
}

/// Whether `p` is pending without a reaction and this one has a short form; then it waits for `p`.
#[inline(always)]
fn wait_first_of(slots: &mut Slots, p: PromiseId, reaction: &Reaction) -> bool
    ensures waits { result ≡ true → WaitsFirst slots.old.items slots.new.items p.0 (Some reaction.now) }
    ensures untouched { result ≡ false → slots.new ≡ slots.old }
    ensures len { length slots.new.items ≡ length slots.old.items }
    ensures limit { slots.new.limit ≡ slots.old.limit }
{
    match short_of(reaction) {
        Some(first) => wait_first(slots, p, first),
        None => false,
    }
}

/// The same for the reaction of a step.
#[inline(always)]
fn wait_first_step(
    slots: &mut Slots,
    p: PromiseId,
    step: &Step,
    derived: &Option<PromiseId>,
) -> bool
    ensures waits { result ≡ true → WaitsFirst slots.old.items slots.new.items p.0 (Some (Perform step.now derived.now)) }
    ensures untouched { result ≡ false → slots.new ≡ slots.old }
    ensures len { length slots.new.items ≡ length slots.old.items }
    ensures limit { slots.new.limit ≡ slots.old.limit }
{
    match short_react(step, derived) {
        Some(first) => wait_first(slots, p, first),
        None => false,
    }
}

/// Registers the reaction of a step to `p`, which isn't the first that waits for it or has no short form.
#[inline(never)]
fn register_apart(
    slots: &mut Slots,
    waiting: &mut Vec<Waiting>,
    jobs: &mut Jobs,
    reactions: &mut usize,
    p: PromiseId,
    step: &Step,
    derived: &Option<PromiseId>,
)
    requires waiting_room { vec_len waiting.old < vec_capacity waiting.old }
    requires jobs_room { length jobs.old.items + reactions.old < jobs.old.capacity }
    requires kept { AllWait slots.old.items (all_waiting slots.old.items waiting.old.items) }
    requires reactions { reactions.old ≡ length (all_waiting slots.old.items waiting.old.items) }
    ensures table { (n : ℕ) (ps : List Event) (b : Bool)
        → table_of slots.new.items (all_waiting slots.new.items waiting.new.items) jobs.new.items n ps b
        ≡ table.react p (Perform step.now derived.now) (table_of slots.old.items (all_waiting slots.old.items waiting.old.items) jobs.old.items n ps b) }
    ensures slots { (length slots.new.items ≡ length slots.old.items) × (slots.new.limit ≡ slots.old.limit) }
    ensures unnoted { unnoted_in slots.new.items ≡ unnoted_in slots.old.items }
    ensures unwatched { unwatched_in slots.new.items ≡ unwatched_in slots.old.items }
    ensures total { length jobs.new.items + reactions.new ≤ length jobs.old.items + reactions.old + 1 }
    ensures jobs_capacity { jobs.new.capacity ≡ jobs.old.capacity }
    ensures waiting_capacity { vec_capacity waiting.new ≡ vec_capacity waiting.old }
    ensures kept { AllWait slots.new.items (all_waiting slots.new.items waiting.new.items) }
    ensures reactions { reactions.new ≡ length (all_waiting slots.new.items waiting.new.items) }
{
    let reaction = Reaction::Perform {
        step: *step,
        derived: *derived,
    };
    register_other(slots, waiting, jobs, reactions, p, &reaction);
}

/// Registers a reaction to `p` which isn't the first that waits for it or has no short form, or queues its job where
/// `p` has settled.
#[inline(always)]
fn register_other(
    slots: &mut Slots,
    waiting: &mut Vec<Waiting>,
    jobs: &mut Jobs,
    reactions: &mut usize,
    p: PromiseId,
    reaction: &Reaction,
)
    requires waiting_room { vec_len waiting.old < vec_capacity waiting.old }
    requires jobs_room { length jobs.old.items + reactions.old < jobs.old.capacity }
    requires kept { AllWait slots.old.items (all_waiting slots.old.items waiting.old.items) }
    requires reactions { reactions.old ≡ length (all_waiting slots.old.items waiting.old.items) }
    ensures table { (n : ℕ) (ps : List Event) (b : Bool)
        → table_of slots.new.items (all_waiting slots.new.items waiting.new.items) jobs.new.items n ps b
        ≡ table.react p reaction.now (table_of slots.old.items (all_waiting slots.old.items waiting.old.items) jobs.old.items n ps b) }
    ensures slots { (length slots.new.items ≡ length slots.old.items) × (slots.new.limit ≡ slots.old.limit) }
    ensures unnoted { unnoted_in slots.new.items ≡ unnoted_in slots.old.items }
    ensures unwatched { unwatched_in slots.new.items ≡ unwatched_in slots.old.items }
    ensures total { length jobs.new.items + reactions.new ≤ length jobs.old.items + reactions.old + 1 }
    ensures jobs_capacity { jobs.new.capacity ≡ jobs.old.capacity }
    ensures waiting_capacity { vec_capacity waiting.new ≡ vec_capacity waiting.old }
    ensures kept { AllWait slots.new.items (all_waiting slots.new.items waiting.new.items) }
    ensures reactions { reactions.new ≡ length (all_waiting slots.new.items waiting.new.items) }
{
    let _few = jobs.capacity();
    if let Some(open) = pending_slot(slots, p) {
        let waits = open.waits;
        waiting.push_reserved(Waiting {
            on: p,
            reaction: *reaction,
        });
        let _len = waiting.len();
        put_waits(slots, p, waits + 1);
        *reactions += 1;
        return;
    }
    let Some(outcome) = outcome_at(slots, p) else {
        return;
    };
    match outcome {
        Outcome::Pending => {}
        Outcome::Fulfilled(v) => jobs.push_reaction(reaction, &Ok(*v)),
        Outcome::Rejected(r) => jobs.push_reaction(reaction, &Err(*r)),
        Outcome::Given(_) => {}
        Outcome::Finished(_) => {}
    }
}

/// How many reactions wait for a promise beside the one at its place.
#[inline(always)]
fn other_waits(open: &Open) -> usize
    requires { length (first_reactions (reaction_in open.now.first)) ≤ open.now.waits }
    ensures { result + length (first_reactions (reaction_in open.now.first)) ≡ open.now.waits }
{
    if is_reaction(&open.first) {
        open.waits - 1
    } else {
        open.waits
    }
}

/// Puts the job of the reaction at a place at the end, where there is one. The result is how many others wait.
#[inline(always)]
fn queue_first(open: &Open, jobs: &mut Jobs, outcome: &Result<Plain, Plain>) -> usize
    requires room { length jobs.old.items + length (first_reactions (reaction_in open.now.first)) ≤ jobs.old.capacity }
    requires waits { length (first_reactions (reaction_in open.now.first)) ≤ open.now.waits }
    ensures jobs { jobs.new.items
        ≡ jobs.old.items ++ map (job_of outcome.now) (first_reactions (reaction_in open.now.first)) }
    ensures others { result + length (first_reactions (reaction_in open.now.first)) ≡ open.now.waits }
    ensures capacity { jobs.new.capacity ≡ jobs.old.capacity }
{
    if is_reaction(&open.first) {
        jobs.push_settled(open.first, outcome);
        open.waits - 1
    } else {
        open.waits
    }
}

/// Settles `p` where it is open. What became of it is still to be noted.
#[inline(always)]
pub fn settle(
    slots: &mut Slots,
    waiting: &mut Vec<Waiting>,
    jobs: &mut Jobs,
    reactions: &mut usize,
    p: PromiseId,
    outcome: &Result<Plain, Plain>,
) -> Settling
    requires room { length jobs.old.items + reactions.old ≤ jobs.old.capacity }
    requires kept { AllWait slots.old.items (all_waiting slots.old.items waiting.old.items) }
    requires reactions { reactions.old ≡ length (all_waiting slots.old.items waiting.old.items) }
    ensures table { (n : ℕ) (ps : List Event) (b : Bool)
        → marked p (table_of slots.new.items (all_waiting slots.new.items waiting.new.items) jobs.new.items n ps b) result
        ≡ table.settle p outcome.now (table_of slots.old.items (all_waiting slots.old.items waiting.old.items) jobs.old.items n ps b) }
    ensures total { length jobs.new.items + reactions.new ≡ length jobs.old.items + reactions.old }
    ensures slots { (length slots.new.items ≡ length slots.old.items) × (slots.new.limit ≡ slots.old.limit) }
    ensures unnoted { unnoted_in slots.new.items + one_where_watched result ≡ unnoted_in slots.old.items }
    ensures unwatched { unwatched_in slots.new.items ≡ unwatched_in slots.old.items }
    ensures jobs_capacity { jobs.new.capacity ≡ jobs.old.capacity }
    ensures waiting_capacity { vec_capacity waiting.new ≡ vec_capacity waiting.old }
    ensures kept { AllWait slots.new.items (all_waiting slots.new.items waiting.new.items) }
    ensures reactions { reactions.new ≡ length (all_waiting slots.new.items waiting.new.items) }
{
    let Some(open) = open_slot(slots, p) else {
        return Settling::Astray;
    };
    let open = *open;
    put_settled(slots, p, open.rank, outcome);
    let others = queue_first(&open, jobs, outcome);
    move_waiting(waiting, jobs, p, outcome, others);
    *reactions -= open.waits;
    Settling::of_rank(open.rank)
}

/// Fulfils the promise of a read with its result, which isn't `Pending`, where it is open. What became of it is still
/// to be noted.
pub fn answer(
    slots: &mut Slots,
    waiting: &mut Vec<Waiting>,
    reactions: &mut usize,
    p: PromiseId,
    outcome: Outcome,
) -> Settling
    requires settled { is_pending outcome ≡ false }
    requires kept { AllWait slots.old.items (all_waiting slots.old.items waiting.old.items) }
    requires reactions { reactions.old ≡ length (all_waiting slots.old.items waiting.old.items) }
    ensures table { (js : List Job) (n : ℕ) (ps : List Event) (b : Bool)
        → marked p (table_of slots.new.items (all_waiting slots.new.items waiting.new.items) js n ps b) result
        ≡ table.answer p outcome (table_of slots.old.items (all_waiting slots.old.items waiting.old.items) js n ps b) }
    ensures slots { (length slots.new.items ≡ length slots.old.items) × (slots.new.limit ≡ slots.old.limit) }
    ensures unnoted { unnoted_in slots.new.items + one_where_watched result ≡ unnoted_in slots.old.items }
    ensures unwatched { unwatched_in slots.new.items ≡ unwatched_in slots.old.items }
    ensures waiting { (reactions.new ≤ reactions.old)
        × (vec_capacity waiting.new ≡ vec_capacity waiting.old) }
    ensures kept { AllWait slots.new.items (all_waiting slots.new.items waiting.new.items) }
    ensures reactions { reactions.new ≡ length (all_waiting slots.new.items waiting.new.items) }
{
    let Some(open) = open_slot(slots, p) else {
        return Settling::Astray;
    };
    let rank = open.rank;
    let waits = open.waits;
    let others = other_waits(open);
    put_outcome(slots, p, rank, outcome);
    forget_waiting(waiting, p, others);
    *reactions -= waits;
    Settling::of_rank(rank)
}

/// Has `p` follow `q` where it is open. The result says whether that went astray.
pub fn follow(slots: &mut Slots, jobs: &mut Jobs, p: PromiseId, q: PromiseId) -> bool
    requires { length jobs.old.items < jobs.old.capacity }
    ensures table { (ws : List Waiting) (n : ℕ) (ps : List Event) (b : Bool)
        → table_of slots.new.items (all_waiting slots.new.items ws) jobs.new.items n ps (result || b)
        ≡ table.follow p q (table_of slots.old.items (all_waiting slots.old.items ws) jobs.old.items n ps b) }
    ensures slots { (length slots.new.items ≡ length slots.old.items) × (slots.new.limit ≡ slots.old.limit) }
    ensures unnoted { unnoted_in slots.new.items ≡ unnoted_in slots.old.items }
    ensures unwatched { unwatched_in slots.new.items ≡ unwatched_in slots.old.items }
    ensures total { length jobs.new.items ≤ length jobs.old.items + 1 }
    ensures kept { (ws : List Waiting) → AllWait slots.old.items (all_waiting slots.old.items ws)
        → AllWait slots.new.items (all_waiting slots.new.items ws) }
    ensures reactions { (ws : List Waiting)
        → length (all_waiting slots.new.items ws) ≡ length (all_waiting slots.old.items ws) }
    ensures capacity { jobs.new.capacity ≡ jobs.old.capacity }
{
    let Some(_open) = open_slot(slots, p) else {
        return true;
    };
    put_follows(slots, p, true);
    jobs.push_follow(p, q);
    false
}

/// Has `p` no longer follow another where it is pending and follows one. The result says whether that went astray.
#[inline(never)]
pub fn unfollow(slots: &mut Slots, p: PromiseId) -> bool
    ensures table { (ws : List Waiting) (js : List Job) (n : ℕ) (ps : List Event) (b : Bool)
        → table_of slots.new.items (all_waiting slots.new.items ws) js n ps (result || b)
        ≡ table.unfollow p (table_of slots.old.items (all_waiting slots.old.items ws) js n ps b) }
    ensures slots { (length slots.new.items ≡ length slots.old.items) × (slots.new.limit ≡ slots.old.limit) }
    ensures unnoted { unnoted_in slots.new.items ≡ unnoted_in slots.old.items }
    ensures unwatched { unwatched_in slots.new.items ≡ unwatched_in slots.old.items }
    ensures kept { (ws : List Waiting) → AllWait slots.old.items (all_waiting slots.old.items ws)
        → AllWait slots.new.items (all_waiting slots.new.items ws) }
    ensures reactions { (ws : List Waiting)
        → length (all_waiting slots.new.items ws) ≡ length (all_waiting slots.old.items ws) }
{
    let Some(_open) = following_slot(slots, p) else {
        return true;
    };
    put_follows(slots, p, false);
    false
}

/// Drops the first job, if there is one. Where it is to settle a promise that doesn't follow another, that went
/// astray.
#[inline(always)]
pub fn drop_job(
    slots: &mut Slots,
    waiting: &mut Vec<Waiting>,
    jobs: &mut Jobs,
    reactions: &mut usize,
    astray: &mut bool,
)
    requires jobs_room { length jobs.old.items + reactions.old ≤ jobs.old.capacity }
    requires waiting_room { length jobs.old.items + reactions.old ≤ vec_capacity waiting.old }
    requires kept { AllWait slots.old.items (all_waiting slots.old.items waiting.old.items) }
    requires reactions { reactions.old ≡ length (all_waiting slots.old.items waiting.old.items) }
    ensures table { (n : ℕ) (ps : List Event)
        → table_of slots.new.items (all_waiting slots.new.items waiting.new.items) jobs.new.items n ps astray.new
        ≡ table.after_next_job (table_of slots.old.items (all_waiting slots.old.items waiting.old.items) jobs.old.items n ps astray.old) }
    ensures total { length jobs.new.items + reactions.new ≤ length jobs.old.items + reactions.old }
    ensures slots { (length slots.new.items ≡ length slots.old.items) × (slots.new.limit ≡ slots.old.limit) }
    ensures unnoted { unnoted_in slots.new.items ≡ unnoted_in slots.old.items }
    ensures unwatched { unwatched_in slots.new.items ≡ unwatched_in slots.old.items }
    ensures jobs_capacity { jobs.new.capacity ≡ jobs.old.capacity }
    ensures waiting_capacity { vec_capacity waiting.new ≡ vec_capacity waiting.old }
    ensures kept { AllWait slots.new.items (all_waiting slots.new.items waiting.new.items) }
    ensures reactions { reactions.new ≡ length (all_waiting slots.new.items waiting.new.items) }
{
    match jobs.first_short() {
        Short::Whole => drop_whole(slots, waiting, jobs, reactions, astray),
        Short::Follow(p, q) => {
            jobs.drop_first();
            adopt(
                slots,
                waiting,
                jobs,
                reactions,
                PromiseId(p as u128),
                PromiseId(q as u128),
            );
        }
        Short::Adopt(p) => {
            jobs.drop_first();
            if unfollow(slots, PromiseId(p as u128)) {
                *astray = true;
            }
        }
        Short::Pulled(_) => jobs.drop_first(),
        Short::Wrote(_) => jobs.drop_first(),
        Short::PipeReady(_) => jobs.drop_first(),
        Short::PipeWrote(_) => jobs.drop_first(),
        Short::Changed(_, _) => jobs.drop_first(),
        Short::Transformed(_, _) => jobs.drop_first(),
        Short::PipeWrite(_) => jobs.drop_first(),
    }
}

/// Has `p` react to `q`, which it follows.
#[inline(never)]
fn adopt(
    slots: &mut Slots,
    waiting: &mut Vec<Waiting>,
    jobs: &mut Jobs,
    reactions: &mut usize,
    p: PromiseId,
    q: PromiseId,
)
    requires waiting_room { vec_len waiting.old < vec_capacity waiting.old }
    requires jobs_room { length jobs.old.items + reactions.old < jobs.old.capacity }
    requires kept { AllWait slots.old.items (all_waiting slots.old.items waiting.old.items) }
    requires reactions { reactions.old ≡ length (all_waiting slots.old.items waiting.old.items) }
    ensures table { (n : ℕ) (ps : List Event) (b : Bool)
        → table_of slots.new.items (all_waiting slots.new.items waiting.new.items) jobs.new.items n ps b
        ≡ table.react q (Adopt p) (table_of slots.old.items (all_waiting slots.old.items waiting.old.items) jobs.old.items n ps b) }
    ensures slots { (length slots.new.items ≡ length slots.old.items) × (slots.new.limit ≡ slots.old.limit) }
    ensures unnoted { unnoted_in slots.new.items ≡ unnoted_in slots.old.items }
    ensures unwatched { unwatched_in slots.new.items ≡ unwatched_in slots.old.items }
    ensures total { length jobs.new.items + reactions.new ≤ length jobs.old.items + reactions.old + 1 }
    ensures jobs_capacity { jobs.new.capacity ≡ jobs.old.capacity }
    ensures waiting_capacity { vec_capacity waiting.new ≡ vec_capacity waiting.old }
    ensures kept { AllWait slots.new.items (all_waiting slots.new.items waiting.new.items) }
    ensures reactions { reactions.new ≡ length (all_waiting slots.new.items waiting.new.items) }
{
    register(slots, waiting, jobs, reactions, q, &Reaction::Adopt(p));
}

/// The same, for a job that stands whole.
#[inline(never)]
fn drop_whole(
    slots: &mut Slots,
    waiting: &mut Vec<Waiting>,
    jobs: &mut Jobs,
    reactions: &mut usize,
    astray: &mut bool,
)
    requires jobs_room { length jobs.old.items + reactions.old ≤ jobs.old.capacity }
    requires waiting_room { length jobs.old.items + reactions.old ≤ vec_capacity waiting.old }
    requires kept { AllWait slots.old.items (all_waiting slots.old.items waiting.old.items) }
    requires reactions { reactions.old ≡ length (all_waiting slots.old.items waiting.old.items) }
    ensures table { (n : ℕ) (ps : List Event)
        → table_of slots.new.items (all_waiting slots.new.items waiting.new.items) jobs.new.items n ps astray.new
        ≡ table.after_next_job (table_of slots.old.items (all_waiting slots.old.items waiting.old.items) jobs.old.items n ps astray.old) }
    ensures total { length jobs.new.items + reactions.new ≤ length jobs.old.items + reactions.old }
    ensures slots { (length slots.new.items ≡ length slots.old.items) × (slots.new.limit ≡ slots.old.limit) }
    ensures unnoted { unnoted_in slots.new.items ≡ unnoted_in slots.old.items }
    ensures unwatched { unwatched_in slots.new.items ≡ unwatched_in slots.old.items }
    ensures jobs_capacity { jobs.new.capacity ≡ jobs.old.capacity }
    ensures waiting_capacity { vec_capacity waiting.new ≡ vec_capacity waiting.old }
    ensures kept { AllWait slots.new.items (all_waiting slots.new.items waiting.new.items) }
    ensures reactions { reactions.new ≡ length (all_waiting slots.new.items waiting.new.items) }
{
    let Some(job) = jobs.first() else {
        return;
    };
    jobs.drop_first();
    match job {
        Job::Reaction { .. } => {}
        Job::Micro(_) => {}
        Job::Follow { p, q } => adopt(slots, waiting, jobs, reactions, p, q),
        Job::Settle { p, .. } => {
            if unfollow(slots, p) {
                *astray = true;
            }
        }
    }
}
