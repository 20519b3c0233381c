//! The queue of jobs.
ghost use Rattle.std.specs.Prelude.{◌≡◌, ◌≤◌, ◌<◌, ◌+◌, ◌-◌, ◌^◌, ◌++◌, ◌∷◌, [], ℕ, length, drop, Some, None, IsSome, IfSome, OnOk, nat_lt, slice_get};
ghost use Rattle.ws_alike.specs.Named.{in_all, in_jobs};
ghost use Rattle.ws_jobs.specs.Queue.{in_short};
ghost use Rattle.ws_jobs.specs.Shorts.{job_in, reaction_in};
ghost use Rattle.ws_steps.specs.Promises.{job_of};
ghost use Rattle.ws_steps.specs.declared.promises.Job.{Job as AnyJob};
ghost use Rattle.ws_steps.specs.declared.promises.Job.TheVariants.{Follow, Micro as MicroJob};
ghost use Rattle.ws_steps.specs.declared.promises.Reaction.{Reaction as AnyReaction};

use crate::short::{
    Short, is_whole, job_in, reaction_in, short_follow, short_job_names, short_micro, short_of,
};
use std::alloc::Global;
use std::marker::Model;
use ws_alike::job_names;
use ws_ring::Ring;
use ws_steps::{Job, Micro, Reaction};
use ws_value::{NoMemory, Plain, PromiseId};

/// The queue of jobs. It is seen as the list of the jobs, from the first on, and as the number of jobs for which there
/// are places.
#[derive(Drop)]
pub struct Jobs {
    short: Ring<Short>,
    /// The jobs without a short form, in order.
    others: Ring<Job>,
    /// For how many jobs both have places.
    capacity: usize,
}

impl Model for Jobs {
    ghost use Rattle.std.specs.Prelude.{◌≡◌, ◌≤◌, ◌<◌, ◌^◌, length};
    ghost use Rattle.ws_ring.specs.Seen.{SeenRing};
    ghost use Rattle.ws_steps.specs.declared.promises.Job.{Job as AnyJob};
    ghost use Rattle.ws_jobs.specs.Queue.{jobs_of, wholes};

    ghost Value = { SeenRing AnyJob };

    ghost view = { λ a. record {
      items = jobs_of a.short.items a.others.items;
      capacity = a.capacity;
    } };

    ghost invariant = { λ a. (wholes a.short.items ≡ length a.others.items)
        × (length a.short.items ≤ a.capacity)
        × (a.capacity ≤ a.short.capacity)
        × (a.capacity ≤ a.others.capacity)
        × (a.capacity < 2 ^ 63) };
}

impl Jobs {
    /// No jobs and no places.
    pub fn make(alloc: Global) -> Jobs
        ensures { result ≡ record { items = []; capacity = 0 } }
    {
        Jobs {
            short: Ring::make(alloc),
            others: Ring::make(alloc),
            capacity: 0,
        }
    }

    /// The number of jobs.
    #[inline]
    pub fn len(&self) -> usize
        ensures len { result ≡ length self.now.items }
    {
        self.short.len()
    }

    /// For how many jobs there are places.
    #[inline]
    pub fn capacity(&self) -> usize
        ensures capacity { result ≡ self.now.capacity }
        ensures within { (length self.now.items ≤ result) × (result < 2 ^ 63) }
    {
        self.capacity
    }

    /// Makes places for `n` more jobs, and mostly for more.
    pub fn reserve(&mut self, n: usize) -> Result<(), NoMemory>
        ensures ok { OnOk result (n + length self.new.items ≤ self.new.capacity) }
        ensures items { self.new.items ≡ self.old.items }
        ensures grows { self.old.capacity ≤ self.new.capacity }
    {
        self.short.reserve(n)?;
        let jobs = self.short.len();
        let Some(least) = jobs.checked_add(n) else {
            return Err(NoMemory);
        };
        self.others.reserve(least - self.others.len())?;
        self.capacity = self.short.capacity().min(self.others.capacity());
        Ok(())
    }

    /// Puts a job at the end.
    #[inline(never)]
    pub fn push(&mut self, job: Job)
        requires { length self.old.items < self.old.capacity }
        ensures items { self.new.items ≡ self.old.items ++ job ∷ [] }
        ensures len { length self.new.items ≡ length self.old.items + 1 }
        ensures capacity { self.new.capacity ≡ self.old.capacity }
    {
        self.others.push_back_reserved(job);
        self.short.push_back_reserved(Short::Whole);
    }

    /// Puts a job at the end that has a short form.
    #[inline]
    pub fn push_short(&mut self, short: Short)
        requires room { length self.old.items < self.old.capacity }
        requires some { IsSome (job_in short) }
        ensures items { (job : AnyJob) → job_in short ≡ Some job → self.new.items ≡ self.old.items ++ job ∷ [] }
        ensures len { length self.new.items ≡ length self.old.items + 1 }
        ensures capacity { self.new.capacity ≡ self.old.capacity }
    {
        self.short.push_back_reserved(short);
    }

    /// Puts the job of a reaction at the end.
    #[inline(always)]
    pub fn push_reaction(&mut self, reaction: &Reaction, outcome: &Result<Plain, Plain>)
        requires { length self.old.items < self.old.capacity }
        ensures items { self.new.items ≡ self.old.items ++ job_of outcome.now reaction.now ∷ [] }
        ensures len { length self.new.items ≡ length self.old.items + 1 }
        ensures capacity { self.new.capacity ≡ self.old.capacity }
    {
        if let Ok(Plain::Undefined) = outcome {
            if let Some(short) = short_of(reaction) {
                self.push_short(short);
                return;
            }
        }
        self.push(reaction.job(*outcome));
    }

    /// Puts the job of a reaction at the end that has a short form.
    #[inline(always)]
    pub fn push_settled(&mut self, short: Short, outcome: &Result<Plain, Plain>)
        requires room { length self.old.items < self.old.capacity }
        requires some { IsSome (reaction_in short) }
        ensures items { (r : AnyReaction) → reaction_in short ≡ Some r
            → self.new.items ≡ self.old.items ++ job_of outcome.now r ∷ [] }
        ensures len { length self.new.items ≡ length self.old.items + 1 }
        ensures capacity { self.new.capacity ≡ self.old.capacity }
    {
        if let Ok(Plain::Undefined) = outcome {
            self.push_short(short);
            return;
        }
        self.push_long(short, outcome);
    }

    #[inline(never)]
    fn push_long(&mut self, short: Short, outcome: &Result<Plain, Plain>)
        requires room { length self.old.items < self.old.capacity }
        requires some { IsSome (reaction_in short) }
        ensures items { (r : AnyReaction) → reaction_in short ≡ Some r
            → self.new.items ≡ self.old.items ++ job_of outcome.now r ∷ [] }
        ensures len { length self.new.items ≡ length self.old.items + 1 }
        ensures capacity { self.new.capacity ≡ self.old.capacity }
    {
        match reaction_in(short) {
            Some(reaction) => self.push(reaction.job(*outcome)),
            None => unreachable!(),
        }
    }

    /// Puts a microtask at the end.
    #[inline(always)]
    pub fn push_micro(&mut self, m: Micro)
        requires { length self.old.items < self.old.capacity }
        ensures items { self.new.items ≡ self.old.items ++ MicroJob m ∷ [] }
        ensures len { length self.new.items ≡ length self.old.items + 1 }
        ensures capacity { self.new.capacity ≡ self.old.capacity }
    {
        match short_micro(&m) {
            Some(short) => self.push_short(short),
            None => self.push(Job::Micro(m)),
        }
    }

    /// Puts the job at the end by which `p` follows `q`.
    #[inline(always)]
    pub fn push_follow(&mut self, p: PromiseId, q: PromiseId)
        requires { length self.old.items < self.old.capacity }
        ensures items { self.new.items ≡ self.old.items ++ Follow p q ∷ [] }
        ensures len { length self.new.items ≡ length self.old.items + 1 }
        ensures capacity { self.new.capacity ≡ self.old.capacity }
    {
        match short_follow(p, q) {
            Some(short) => self.push_short(short),
            None => self.push(Job::Follow { p, q }),
        }
    }

    /// The first job in its short form, where it has one.
    #[inline(always)]
    pub fn first_short(&self) -> Short
        ensures { (job : AnyJob) → job_in result ≡ Some job → slice_get self.now.items 0 ≡ Some job }
    {
        match self.short.front() {
            Some(short) => *short,
            None => Short::Whole,
        }
    }

    /// The first job.
    pub fn first(&self) -> Option<Job>
        ensures { result ≡ slice_get self.now.items 0 }
    {
        let Some(short) = self.short.front() else {
            return None;
        };
        if is_whole(short) {
            return self.others.front().copied();
        }
        job_in(*short)
    }

    /// Whether one of the jobs names `p`.
    pub fn names(&self, p: PromiseId) -> bool
        ensures { result ≡ nat_lt 0 (in_jobs p self.now.items) }
    {
        if shorts_name(&self.short, p) {
            return true;
        }
        others_name(&self.others, p)
    }

    /// Drops the first job, if there is one.
    #[inline(always)]
    pub fn drop_first(&mut self)
        ensures items { self.new.items ≡ drop 1 self.old.items }
        ensures len { length self.new.items ≡ length self.old.items - 1 }
        ensures capacity { self.new.capacity ≡ self.old.capacity }
    {
        let Some(short) = self.short.pop_front() else {
            return;
        };
        if is_whole(&short) {
            drop_front(&mut self.others);
        }
    }
}

/// Drops the first job, if there is one.
#[inline(never)]
fn drop_front(jobs: &mut Ring<Job>)
    ensures items { jobs.new.items ≡ drop 1 jobs.old.items }
    ensures len { length jobs.new.items ≡ length jobs.old.items - 1 }
    ensures capacity { jobs.new.capacity ≡ jobs.old.capacity }
{
    let _job = jobs.pop_front();
}

/// Whether one of these short forms stands for a job that names `p`.
fn shorts_name(shorts: &Ring<Short>, p: PromiseId) -> bool
    ensures { result ≡ nat_lt 0 (in_all (in_short p) shorts.now.items) }
{
    for i in 0..shorts.len() {
        let Some(short) = shorts.get(i) else {
            return false;
        };
        if short_job_names(p, *short) {
            return true;
        }
    }
    false
}

/// Whether one of these jobs names `p`.
fn others_name(jobs: &Ring<Job>, p: PromiseId) -> bool
    ensures { result ≡ nat_lt 0 (in_jobs p jobs.now.items) }
{
    for i in 0..jobs.len() {
        let Some(job) = jobs.get(i) else {
            return false;
        };
        if job_names(p, job) {
            return true;
        }
    }
    false
}
