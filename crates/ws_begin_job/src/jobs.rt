//! What a job begins with.
ghost use Rattle.std.specs.Prelude.{◌≡◌, ◌≤◌, ◌+◌, ◌++◌, [], not, length};
ghost use Rattle.ws_promise.specs.Seen.{HasEffectRoom};
ghost use Rattle.ws_steps.specs.Jobs as jobs;
ghost use Rattle.ws_steps.specs.Run.{is_idle};
ghost use Rattle.ws_tables.specs.View.{slots_of};
ghost use Rattle.ws_begin_job.specs.Begin.{Begins};

use ws_promise::Agenda;
use ws_steps::{
    Effect, Job, Micro, PipeOperation, PortOperation, ReadableOperation, Step, TeeOperation,
    TransformOperation, WritableOperation,
};
use ws_tables::Tables;
use ws_value::Plain;

/// What the steps of a reaction return or throw; where there are none for the outcome, it goes on.
fn returned(step: &Step, outcome: &Result<Plain, Plain>) -> Result<Plain, Plain>
    ensures { result ≡ jobs.returned step.now outcome.now }
{
    match step {
        Step::ReturnUndefined => match outcome {
            Ok(_) => Ok(Plain::Undefined),
            Err(reason) => Err(*reason),
        },
        Step::ReadableStart(_) => Ok(Plain::Undefined),
        Step::ReadablePull(_) => Ok(Plain::Undefined),
        Step::WritableStart(_) => Ok(Plain::Undefined),
        Step::WritableWrite(_) => Ok(Plain::Undefined),
        Step::WritableClose(_) => Ok(Plain::Undefined),
        Step::WritableAbort(_, _) => Ok(Plain::Undefined),
        Step::PipeEnds(_) => Ok(Plain::Undefined),
        Step::PipeReady(_) => Ok(Plain::Undefined),
        Step::PipeWrote(_) => Ok(Plain::Undefined),
        Step::PipeActed(_) => Ok(Plain::Undefined),
        Step::PipePart(_) => Ok(Plain::Undefined),
        Step::TransformChanged(_, _) => Ok(Plain::Undefined),
        Step::Transformed(_) => *outcome,
        Step::TransformFlushed(_, _) => Ok(Plain::Undefined),
        Step::TransformAborted(_, _, _) => Ok(Plain::Undefined),
        Step::TransformCancelled(_, _, _) => Ok(Plain::Undefined),
        Step::TeeEnds(_) => Ok(Plain::Undefined),
        Step::PortUnblocked(_, _) => Ok(Plain::Undefined),
    }
}

/// Causes the steps of a reaction.
fn cause_steps(caused: &mut Agenda, step: &Step, outcome: &Result<Plain, Plain>)
    requires room { HasEffectRoom 1 caused.old }
    ensures effects { caused.new.effects ≡ caused.old.effects ++ jobs.steps step.now outcome.now }
    ensures few { length caused.new.effects ≤ length caused.old.effects + 1 }
    ensures capacity { caused.new.capacity ≡ caused.old.capacity }
{
    match step {
        Step::ReadableStart(i) => {
            let operation = ReadableOperation::StartSettled(*outcome);
            caused.push(Effect::Readable(*i, operation));
        }
        Step::ReadablePull(i) => {
            let operation = ReadableOperation::PullSettled(*outcome);
            caused.push(Effect::Readable(*i, operation));
        }
        Step::ReturnUndefined => {}
        Step::WritableStart(i) => {
            let operation = WritableOperation::StartSettled(*outcome);
            caused.push(Effect::Writable(*i, operation));
        }
        Step::WritableWrite(i) => {
            let operation = WritableOperation::WriteSettled(*outcome);
            caused.push(Effect::Writable(*i, operation));
        }
        Step::WritableClose(i) => {
            let operation = WritableOperation::CloseSettled(*outcome);
            caused.push(Effect::Writable(*i, operation));
        }
        Step::WritableAbort(i, promise) => {
            let operation = WritableOperation::AbortSettled(*promise, *outcome);
            caused.push(Effect::Writable(*i, operation));
        }
        Step::PipeEnds(p) => caused.push(Effect::Pipe(*p, PipeOperation::Look)),
        Step::PipeReady(p) => caused.push(Effect::Pipe(*p, PipeOperation::LookReady)),
        Step::PipeWrote(p) => caused.push(Effect::Pipe(*p, PipeOperation::WriteEnded)),
        Step::PipeActed(p) => {
            let operation = PipeOperation::ActionSettled(*outcome);
            caused.push(Effect::Pipe(*p, operation));
        }
        Step::PipePart(p) => {
            let operation = PipeOperation::PartSettled(*outcome);
            caused.push(Effect::Pipe(*p, operation));
        }
        Step::TransformChanged(t, promise) => match outcome {
            Ok(_) => {
                let operation = TransformOperation::WriteGoesOn(*promise);
                caused.push(Effect::Transform(*t, operation));
            }
            Err(reason) => caused.push(Effect::Settle(*promise, Err(*reason))),
        },
        Step::Transformed(t) => match outcome {
            Ok(_) => {}
            Err(reason) => {
                let operation = TransformOperation::Error(*reason);
                caused.push(Effect::Transform(*t, operation));
            }
        },
        Step::TransformFlushed(t, promise) => {
            let operation = TransformOperation::FlushSettled(*promise, *outcome);
            caused.push(Effect::Transform(*t, operation));
        }
        Step::TransformAborted(t, promise, reason) => {
            let operation = TransformOperation::AbortSettled(*promise, *reason, *outcome);
            caused.push(Effect::Transform(*t, operation));
        }
        Step::TransformCancelled(t, promise, reason) => {
            let operation = TransformOperation::CancelSettled(*promise, *reason, *outcome);
            caused.push(Effect::Transform(*t, operation));
        }
        Step::TeeEnds(t) => {
            let operation = TeeOperation::ReaderSettled(*outcome);
            caused.push(Effect::Tee(*t, operation));
        }
        Step::PortUnblocked(c, promise) => match outcome {
            Ok(_) => {
                let operation = PortOperation::WriteGoesOn(*promise);
                caused.push(Effect::Port(*c, operation));
            }
            Err(reason) => caused.push(Effect::Settle(*promise, Err(*reason))),
        },
    }
}

/// Causes the effects of a microtask.
fn cause_micro(caused: &mut Agenda, micro: &Micro)
    requires { HasEffectRoom 1 caused.old }
    ensures effects { caused.new.effects ≡ caused.old.effects ++ jobs.micro_steps micro.now }
    ensures capacity { caused.new.capacity ≡ caused.old.capacity }
{
    match micro {
        Micro::PipeLook(p) => caused.push(Effect::Pipe(*p, PipeOperation::Look)),
        Micro::PipeWrite(p) => caused.push(Effect::Pipe(*p, PipeOperation::WriteChunk)),
        Micro::PipeNoParts(p) => caused.push(Effect::Pipe(*p, PipeOperation::NoParts)),
        Micro::TeeHand(t) => caused.push(Effect::Tee(*t, TeeOperation::HandChunk)),
    }
}

/// Causes the effects of a job.
fn cause_job(caused: &mut Agenda, job: &Job)
    requires { HasEffectRoom 2 caused.old }
    ensures effects { caused.new.effects ≡ caused.old.effects ++ jobs.job_effects job.now }
    ensures capacity { caused.new.capacity ≡ caused.old.capacity }
{
    match job {
        Job::Reaction {
            step,
            outcome,
            derived,
        } => {
            cause_steps(caused, step, outcome);
            if let Some(promise) = derived {
                caused.push(Effect::Settle(*promise, returned(step, outcome)));
            }
        }
        Job::Follow { p: _, q: _ } => {}
        Job::Settle { p, outcome } => caused.push(Effect::Settle(*p, *outcome)),
        Job::Micro(micro) => cause_micro(caused, micro),
    }
}

/// Takes the first job out of the queue, and causes its effects. False says that none is queued.
#[tactic(auto, using(crate::proofs::Idle::idle), unfolding(ws_steps::specs::Jobs::begin_job))]
pub fn begin_job(tables: &mut Tables) -> bool
    requires quiet { tables.old.caused.effects ≡ [] }
    requires room { 2 ≤ tables.old.caused.capacity }
    ensures worked { result ≡ not (is_idle (slots_of tables.old)) }
    ensures begins { Begins (jobs.begin_job (slots_of tables.old)) tables.old tables.new }
{
    match tables.promises.first_job() {
        Some(job) => cause_job(&mut tables.caused, &job),
        None => return false,
    }
    tables.promises.drop_first_job();
    true
}
