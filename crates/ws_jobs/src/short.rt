//! The reactions and jobs that each chunk meets, in few bytes.
ghost use Rattle.std.specs.Prelude.{◌≡◌, ◌↔◌, ◌<◌, ◌^◌, Some, None, IfSome, IsSome, nat_lt, true, false};
ghost use Rattle.ws_alike.specs.Named.{in_reactions};
ghost use Rattle.ws_jobs.specs.Queue.{in_short};
ghost use Rattle.ws_jobs.specs.Shorts.{alone, job_in, reaction_in, reactions_in};
ghost use Rattle.ws_jobs.specs.declared.short.Short.TheVariants.{Whole};
ghost use Rattle.ws_steps.specs.declared.promises.Reaction.TheVariants.{Perform};
ghost use Rattle.ws_steps.specs.declared.promises.Job.TheVariants.{Follow, Micro as MicroJob};

use ws_alike::{job_names, reaction_names};
use ws_steps::{Job, Micro, Reaction, Step, TransformId};
use ws_value::{PipeId, Plain, PromiseId, StreamId};

/// A reaction, or a job, by an outcome of undefined where it has one.
#[derive(Clone, Copy)]
pub enum Short {
    /// There is none, or it stands whole elsewhere.
    Whole,
    Pulled(StreamId),
    Wrote(StreamId),
    PipeReady(u64),
    PipeWrote(u64),
    Changed(TransformId, u64),
    Transformed(TransformId, u64),
    Adopt(u64),
    PipeWrite(u64),
    Follow(u64, u64),
}

/// Whether it stands for nothing.
#[inline(always)]
pub fn is_whole(short: &Short) -> bool
    ensures { (result ≡ true) ↔ (short.now ≡ Whole) }
{
    matches!(short, Short::Whole)
}

/// Whether it stands for a reaction.
#[inline(always)]
pub fn is_reaction(short: &Short) -> bool
    ensures some { result ≡ true → IsSome (reaction_in short.now) }
    ensures none { result ≡ false → reaction_in short.now ≡ None }
{
    match short {
        Short::Whole => false,
        Short::PipeWrite(_) => false,
        Short::Follow(_, _) => false,
        _ => true,
    }
}

/// A number that fits in 64 bits.
#[inline(always)]
fn few(n: u128) -> Option<u64>
    ensures { IfSome result (λ m. m ≡ n) }
{
    if n < 1 << 64 { Some(n as u64) } else { None }
}

/// The short form of a step without a derived promise.
#[inline(always)]
fn short_step(step: &Step) -> Option<Short>
    ensures { IfSome result (λ short. reaction_in short ≡ alone step.now) }
{
    match step {
        Step::ReadablePull(i) => Some(Short::Pulled(*i)),
        Step::WritableWrite(i) => Some(Short::Wrote(*i)),
        Step::PipeReady(p) => Some(Short::PipeReady(few(p.0)?)),
        Step::PipeWrote(p) => Some(Short::PipeWrote(few(p.0)?)),
        Step::TransformChanged(t, p) => Some(Short::Changed(*t, few(p.0)?)),
        _ => None,
    }
}

/// The short form of a step with a derived promise.
#[inline(always)]
fn short_derived(step: &Step, p: PromiseId) -> Option<Short>
    ensures { IfSome result (λ short. reaction_in short ≡ Some (Perform step.now (Some p))) }
{
    match step {
        Step::Transformed(t) => Some(Short::Transformed(*t, few(p.0)?)),
        _ => None,
    }
}

/// The short form of the reaction of a step.
#[inline(always)]
pub fn short_react(step: &Step, derived: &Option<PromiseId>) -> Option<Short>
    ensures { IfSome result (λ short. reaction_in short ≡ Some (Perform step.now derived.now)) }
{
    match derived {
        None => short_step(step),
        Some(p) => short_derived(step, *p),
    }
}

/// The short form of a reaction.
#[inline(always)]
pub fn short_of(reaction: &Reaction) -> Option<Short>
    ensures { IfSome result (λ short. reaction_in short ≡ Some reaction.now) }
{
    match reaction {
        Reaction::Perform { step, derived } => short_react(step, derived),
        Reaction::Adopt(p) => Some(Short::Adopt(few(p.0)?)),
    }
}

/// The short form of a microtask.
#[inline(always)]
pub fn short_micro(m: &Micro) -> Option<Short>
    ensures { IfSome result (λ short. job_in short ≡ Some (MicroJob m.now)) }
{
    match m {
        Micro::PipeWrite(p) => Some(Short::PipeWrite(few(p.0)?)),
        _ => None,
    }
}

/// The short form of the job by which `p` follows `q`.
#[inline(always)]
pub fn short_follow(p: PromiseId, q: PromiseId) -> Option<Short>
    ensures { IfSome result (λ short. job_in short ≡ Some (Follow p q)) }
{
    Some(Short::Follow(few(p.0)?, few(q.0)?))
}

fn by_step(step: Step) -> Option<Reaction>
    ensures { result ≡ alone step }
{
    Some(Reaction::Perform {
        step,
        derived: None,
    })
}

/// The reaction.
pub fn reaction_in(short: Short) -> Option<Reaction>
    ensures { result ≡ reaction_in short }
{
    match short {
        Short::Whole => None,
        Short::Pulled(i) => by_step(Step::ReadablePull(i)),
        Short::Wrote(i) => by_step(Step::WritableWrite(i)),
        Short::PipeReady(n) => by_step(Step::PipeReady(PipeId(n as u128))),
        Short::PipeWrote(n) => by_step(Step::PipeWrote(PipeId(n as u128))),
        Short::Changed(t, n) => by_step(Step::TransformChanged(t, PromiseId(n as u128))),
        Short::Transformed(t, n) => Some(Reaction::Perform {
            step: Step::Transformed(t),
            derived: Some(PromiseId(n as u128)),
        }),
        Short::Adopt(n) => Some(Reaction::Adopt(PromiseId(n as u128))),
        Short::PipeWrite(_) => None,
        Short::Follow(_, _) => None,
    }
}

/// The job.
pub fn job_in(short: Short) -> Option<Job>
    ensures { result ≡ job_in short }
{
    match short {
        Short::PipeWrite(n) => Some(Job::Micro(Micro::PipeWrite(PipeId(n as u128)))),
        Short::Follow(p, q) => Some(Job::Follow {
            p: PromiseId(p as u128),
            q: PromiseId(q as u128),
        }),
        _ => match reaction_in(short) {
            Some(reaction) => Some(reaction.job(Ok(Plain::Undefined))),
            None => None,
        },
    }
}

/// Whether the reaction names `p`.
pub fn short_reaction_names(p: PromiseId, short: Short) -> bool
    ensures { result ≡ nat_lt 0 (in_reactions p (reactions_in short)) }
{
    match reaction_in(short) {
        Some(reaction) => reaction_names(p, &reaction),
        None => false,
    }
}

/// Whether the job names `p`.
pub fn short_job_names(p: PromiseId, short: Short) -> bool
    ensures { result ≡ nat_lt 0 (in_short p short) }
{
    match job_in(short) {
        Some(job) => job_names(p, &job),
        None => false,
    }
}
