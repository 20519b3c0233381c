//! What comes behind effects that may be left: it is performed where none is, and else it is caused behind them.
ghost use Rattle.std.specs.Prelude.{◌<◌, ◌^◌, [], ◌∷◌};
ghost use Rattle.ws_steps.specs.declared.effects.Effect.TheVariants as effect;
ghost use Rattle.ws_steps.specs.declared.effects.Gift.TheVariants as gift;
ghost use Rattle.ws_steps.specs.declared.effects.Use.TheVariants as usage;
ghost use Rattle.ws_steps.specs.declared.pipes.PipeOperation.TheVariants as pipe;
ghost use Rattle.ws_steps.specs.declared.promises.Step.TheVariants as step;
ghost use Rattle.ws_steps.specs.declared.readable.ReadRequest.TheVariants as request_of;
ghost use Rattle.ws_steps.specs.declared.transform.TransformOperation.TheVariants as transform;
ghost use Rattle.ws_steps.specs.Pipes.{reacts};
ghost use Rattle.ws_direct.specs.Directly.{IsReadyAfter, PerformsAfter, pulls_told};

use crate::enqueues::enqueued;
use crate::left::{
    leave_enqueued, leave_kept, leave_look, leave_pull, leave_resolve, leave_write, leave_wrote,
};
use crate::pipes::go_on;
use crate::promises::react;
use crate::pulls::pull;
use crate::reads::keep_chunk;
use ws_jobs::Short;
use ws_steps::TransformId;
use ws_tables::Tables;
use ws_value::{PipeId, PromiseId, StreamId, Value};

#[inline(always)]
pub(crate) fn wrote_after(tables: &mut Tables, promise: PromiseId, p: PipeId)
    requires small { p.0 < 2 ^ 64 }
    requires ready { IsReadyAfter (reacts promise (step.PipeWrote p) ∷ []) tables.old }
    ensures { PerformsAfter (reacts promise (step.PipeWrote p) ∷ []) tables.old tables.new }
{
    if tables.caused.len() == 0 {
        react(tables, promise, Short::PipeWrote(p.0 as u64));
    } else {
        leave_wrote(tables, promise, p);
    }
}

#[inline(always)]
pub(crate) fn write_after(tables: &mut Tables, promise: PromiseId, i: StreamId)
    requires { IsReadyAfter (reacts promise (step.WritableWrite i) ∷ []) tables.old }
    ensures { PerformsAfter (reacts promise (step.WritableWrite i) ∷ []) tables.old tables.new }
{
    if tables.caused.len() == 0 {
        react(tables, promise, Short::Wrote(i));
    } else {
        leave_write(tables, promise, i);
    }
}

#[inline(always)]
pub(crate) fn resolve_after(tables: &mut Tables, own: PromiseId, promise: PromiseId)
    requires { IsReadyAfter (effect.Give (gift.This own) (usage.Resolve promise) ∷ []) tables.old }
    ensures { PerformsAfter (effect.Give (gift.This own) (usage.Resolve promise) ∷ []) tables.old tables.new }
{
    if tables.caused.len() == 0 {
        tables.promises.follow(promise, own);
    } else {
        leave_resolve(tables, own, promise);
    }
}

#[inline(always)]
pub(crate) fn go_on_after(tables: &mut Tables, p: PipeId)
    requires { IsReadyAfter (effect.Pipe p pipe.GoOn ∷ []) tables.old }
    ensures { PerformsAfter (effect.Pipe p pipe.GoOn ∷ []) tables.old tables.new }
{
    if tables.caused.len() == 0 {
        go_on(tables, p);
    } else {
        leave_look(tables, p);
    }
}

#[inline(always)]
pub(crate) fn pull_after(tables: &mut Tables, i: StreamId, pulls: bool)
    requires { IsReadyAfter (pulls_told pulls i) tables.old }
    ensures { PerformsAfter (pulls_told pulls i) tables.old tables.new }
{
    if !pulls {
        return;
    }
    if tables.caused.len() == 0 {
        pull(tables, i);
    } else {
        leave_pull(tables, i);
    }
}

#[inline(always)]
pub(crate) fn keep_after(tables: &mut Tables, i: StreamId, p: PipeId, chunk: Value)
    requires { IsReadyAfter (effect.ChunkSteps i (request_of.Pipe p) chunk ∷ []) tables.old }
    ensures { PerformsAfter (effect.ChunkSteps i (request_of.Pipe p) chunk ∷ []) tables.old tables.new }
{
    if tables.caused.len() == 0 {
        keep_chunk(tables, p, chunk);
    } else {
        leave_kept(tables, i, p, chunk);
    }
}

#[inline(always)]
pub(crate) fn enqueued_after(tables: &mut Tables, t: TransformId)
    requires { IsReadyAfter (effect.Transform t transform.Enqueued ∷ []) tables.old }
    ensures { PerformsAfter (effect.Transform t transform.Enqueued ∷ []) tables.old tables.new }
{
    if tables.caused.len() == 0 {
        enqueued(tables, t);
    } else {
        leave_enqueued(tables, t);
    }
}
