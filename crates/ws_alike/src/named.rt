//! Whether a promise is named: by a step, a reaction, a job, a request, a writer, an abort or a lock.
ghost use Rattle.std.specs.Prelude.{◌≡◌, nat_lt};
ghost use Rattle.ws_alike.specs.Named.{in_job, in_lock, in_option, in_pending_abort, in_reaction, in_request, in_step, in_writer, one};

use ws_steps::{Job, Lock, PendingAbort, Reaction, ReadRequest, Step, Writer};
use ws_value::PromiseId;

/// Whether this is promise `p`.
#[inline(always)]
pub fn is_this(p: PromiseId, q: PromiseId) -> bool
    ensures { result ≡ nat_lt 0 (one p q) }
{
    p.0 == q.0
}

#[inline(always)]
pub fn option_names(p: PromiseId, q: &Option<PromiseId>) -> bool
    ensures { result ≡ nat_lt 0 (in_option p q.now) }
{
    match q {
        Some(q) => is_this(p, *q),
        None => false,
    }
}

pub fn step_names(p: PromiseId, step: &Step) -> bool
    ensures { result ≡ nat_lt 0 (in_step p step.now) }
{
    match step {
        Step::WritableAbort(_, q) => is_this(p, *q),
        Step::TransformChanged(_, q) => is_this(p, *q),
        Step::TransformFlushed(_, q) => is_this(p, *q),
        Step::TransformAborted(_, q, _) => is_this(p, *q),
        Step::TransformCancelled(_, q, _) => is_this(p, *q),
        Step::PortUnblocked(_, q) => is_this(p, *q),
        _ => false,
    }
}

pub fn reaction_names(p: PromiseId, reaction: &Reaction) -> bool
    ensures { result ≡ nat_lt 0 (in_reaction p reaction.now) }
{
    match reaction {
        Reaction::Perform { step, derived } => step_names(p, step) || option_names(p, derived),
        Reaction::Adopt(q) => is_this(p, *q),
    }
}

pub fn job_names(p: PromiseId, job: &Job) -> bool
    ensures { result ≡ nat_lt 0 (in_job p job.now) }
{
    match job {
        Job::Reaction { step, derived, .. } => step_names(p, step) || option_names(p, derived),
        Job::Follow { p: q, q: r } => is_this(p, *q) || is_this(p, *r),
        Job::Settle { p: q, .. } => is_this(p, *q),
        Job::Micro(_) => false,
    }
}

pub fn request_names(p: PromiseId, request: &ReadRequest) -> bool
    ensures { result ≡ nat_lt 0 (in_request p request.now) }
{
    match request {
        ReadRequest::Promise(q) => is_this(p, *q),
        ReadRequest::Pipe(_) => false,
        ReadRequest::Tee(_) => false,
    }
}

pub fn writer_names(p: PromiseId, writer: &Option<Writer>) -> bool
    ensures { result ≡ nat_lt 0 (in_writer p writer.now) }
{
    match writer {
        Some(w) => is_this(p, w.ready) || is_this(p, w.closed),
        None => false,
    }
}

pub fn abort_names(p: PromiseId, abort: &Option<PendingAbort>) -> bool
    ensures { result ≡ nat_lt 0 (in_pending_abort p abort.now) }
{
    match abort {
        Some(a) => is_this(p, a.promise),
        None => false,
    }
}

pub fn lock_names(p: PromiseId, lock: &Lock) -> bool
    ensures { result ≡ nat_lt 0 (in_lock p lock.now) }
{
    match lock {
        Lock::Reader { closed, .. } => is_this(p, *closed),
        Lock::ByobReader { closed, .. } => is_this(p, *closed),
        Lock::Writer(_) => false,
        Lock::ReleasedWriter(w) => is_this(p, w.ready) || is_this(p, w.closed),
        Lock::Inner => false,
    }
}
