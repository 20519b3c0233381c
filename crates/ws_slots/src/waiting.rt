//! The reactions that wait beside the first of each promise, all in one list: those that wait for one promise are in
//! order of registration.
ghost use Rattle.std.specs.Prelude.{◌≡◌, ◌≤◌, ◌<◌, ◌+◌, ◌++◌, ◌∷◌, [], length, map, remove, slice_get, true, Some, IfSome, IfNone, vec_len, vec_capacity};
ghost use Rattle.ws_slots.specs.View.{WaitAlike, waiting_elsewhere, waiting_on};
ghost use Rattle.ws_slots.specs.declared.waiting.Waiting.{Waiting as Item};
ghost use Rattle.ws_steps.specs.Promises.{job_of};

use ws_jobs::Jobs;
use ws_steps::Reaction;
use ws_value::{Plain, PromiseId};

/// A reaction that waits for a promise.
#[derive(Clone, Copy)]
pub struct Waiting {
    pub on: PromiseId,
    pub reaction: Reaction,
}

/// Puts a job at the end for each reaction that waits for `p`.
fn queue_jobs(waiting: &Vec<Waiting>, jobs: &mut Jobs, p: PromiseId, outcome: Result<Plain, Plain>)
    requires { length jobs.old.items + vec_len waiting.now ≤ jobs.old.capacity }
    ensures jobs { jobs.new.items ≡ jobs.old.items ++ map (job_of outcome) (waiting_on p.0 waiting.now.items) }
    ensures capacity { jobs.new.capacity ≡ jobs.old.capacity }
{
    for w in waiting {
        if w.on.0 == p.0 {
            jobs.push_reaction(&w.reaction, &outcome);
        }
    }
}

/// Takes out all reactions that wait for `p`.
fn take_all(waiting: &mut Vec<Waiting>, p: PromiseId)
    ensures items { waiting.new.items ≡ waiting_elsewhere p.0 waiting.old.items }
    ensures capacity { vec_capacity waiting.new ≡ vec_capacity waiting.old }
    ensures len { vec_len waiting.new ≤ vec_len waiting.old }
{
    let number = p.0;
    waiting.retain(|w| w.on.0 != number);
}

/// Where the only reaction that waits for `p` stands. It is looked for from the end, where it mostly stands.
fn only_at(waiting: &Vec<Waiting>, p: PromiseId) -> Option<usize>
    requires { length (waiting_on p.0 waiting.now.items) ≤ 1 }
    ensures some { IfSome result (λ i. (i < vec_len waiting.now)
        × (waiting_elsewhere p.0 waiting.now.items ≡ remove waiting.now.items i)
        × ((w : Item) → slice_get waiting.now.items i ≡ Some w
        → waiting_on p.0 waiting.now.items ≡ w.reaction ∷ [])) }
    ensures none { IfNone result (waiting_on p.0 waiting.now.items ≡ []) }
{
    let mut i = waiting.len();
    while i > 0 {
        i -= 1;
        if waiting[i].on.0 == p.0 {
            return Some(i);
        }
    }
    None
}

/// Whether none of these reactions waits for `p`.
fn waits_none(waiting: &[Waiting], p: PromiseId) -> bool
    ensures { result ≡ true → waiting_on p.0 waiting.now ≡ [] }
{
    for w in waiting {
        if w.on.0 == p.0 {
            return false;
        }
    }
    true
}

/// Takes out the reaction at an index. Where the last one may take its place, none is moved but that: only the order
/// of the reactions that wait for one promise counts.
#[inline(always)]
fn take_out(waiting: &mut Vec<Waiting>, i: usize)
    requires { i < vec_len waiting.old }
    ensures waiting { WaitAlike waiting.new.items (remove waiting.old.items i) }
    ensures len { vec_len waiting.new + 1 ≡ vec_len waiting.old }
    ensures capacity { vec_capacity waiting.new ≡ vec_capacity waiting.old }
{
    let last = waiting.len() - 1;
    if i == last {
        waiting.truncate(last);
        return;
    }
    let on = waiting[last].on;
    if waits_none(&waiting[i + 1..last], on) {
        waiting[i] = waiting[last];
        waiting.truncate(last);
        return;
    }
    let _w = waiting.remove(i);
}

/// Forgets the reactions that wait for `p`, of which there are so many.
pub fn forget_waiting(waiting: &mut Vec<Waiting>, p: PromiseId, waits: usize)
    requires { length (waiting_on p.0 waiting.old.items) ≡ waits }
    ensures waiting { WaitAlike waiting.new.items (waiting_elsewhere p.0 waiting.old.items) }
    ensures capacity { vec_capacity waiting.new ≡ vec_capacity waiting.old }
    ensures len { vec_len waiting.new ≤ vec_len waiting.old }
{
    if waits == 0 {
        return;
    }
    if waits == 1 {
        if let Some(i) = only_at(waiting, p) {
            take_out(waiting, i);
        }
        return;
    }
    take_all(waiting, p);
}

/// Makes a job of the only reaction that waits for `p`.
fn move_only(
    waiting: &mut Vec<Waiting>,
    jobs: &mut Jobs,
    p: PromiseId,
    outcome: &Result<Plain, Plain>,
)
    requires room { length jobs.old.items + vec_len waiting.old ≤ jobs.old.capacity }
    requires counted { length (waiting_on p.0 waiting.old.items) ≤ 1 }
    ensures jobs { jobs.new.items ≡ jobs.old.items ++ map (job_of outcome.now) (waiting_on p.0 waiting.old.items) }
    ensures waiting { WaitAlike waiting.new.items (waiting_elsewhere p.0 waiting.old.items) }
    ensures jobs_capacity { jobs.new.capacity ≡ jobs.old.capacity }
    ensures waiting_capacity { vec_capacity waiting.new ≡ vec_capacity waiting.old }
{
    if let Some(i) = only_at(waiting, p) {
        jobs.push_reaction(&waiting[i].reaction, outcome);
        take_out(waiting, i);
    }
}

/// Makes jobs of the reactions that wait for `p`, of which there are so many: mostly none.
#[inline(always)]
pub fn move_waiting(
    waiting: &mut Vec<Waiting>,
    jobs: &mut Jobs,
    p: PromiseId,
    outcome: &Result<Plain, Plain>,
    waits: usize,
)
    requires room { length jobs.old.items + vec_len waiting.old ≤ jobs.old.capacity }
    requires counted { length (waiting_on p.0 waiting.old.items) ≡ waits }
    ensures jobs { jobs.new.items ≡ jobs.old.items ++ map (job_of outcome.now) (waiting_on p.0 waiting.old.items) }
    ensures waiting { WaitAlike waiting.new.items (waiting_elsewhere p.0 waiting.old.items) }
    ensures total { length jobs.new.items + vec_len waiting.new ≡ length jobs.old.items + vec_len waiting.old }
    ensures jobs_capacity { jobs.new.capacity ≡ jobs.old.capacity }
    ensures waiting_capacity { vec_capacity waiting.new ≡ vec_capacity waiting.old }
{
    if waits == 0 {
        return;
    }
    move_some(waiting, jobs, p, outcome, waits);
}

/// Moves the reactions that wait for `p`, of which there are some, to the jobs.
#[inline(never)]
fn move_some(
    waiting: &mut Vec<Waiting>,
    jobs: &mut Jobs,
    p: PromiseId,
    outcome: &Result<Plain, Plain>,
    waits: usize,
)
    requires room { length jobs.old.items + vec_len waiting.old ≤ jobs.old.capacity }
    requires some { 0 < waits }
    requires counted { length (waiting_on p.0 waiting.old.items) ≡ waits }
    ensures jobs { jobs.new.items ≡ jobs.old.items ++ map (job_of outcome.now) (waiting_on p.0 waiting.old.items) }
    ensures waiting { WaitAlike waiting.new.items (waiting_elsewhere p.0 waiting.old.items) }
    ensures total { length jobs.new.items + vec_len waiting.new ≡ length jobs.old.items + vec_len waiting.old }
    ensures jobs_capacity { jobs.new.capacity ≡ jobs.old.capacity }
    ensures waiting_capacity { vec_capacity waiting.new ≡ vec_capacity waiting.old }
{
    if waits == 1 {
        move_only(waiting, jobs, p, outcome);
        return;
    }
    queue_jobs(waiting, jobs, p, *outcome);
    take_all(waiting, p);
}
