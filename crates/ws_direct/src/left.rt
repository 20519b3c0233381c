//! What is left for the agenda. Its ways are uncommon, so the effects are made in functions of their own.
ghost use Rattle.std.specs.Prelude.{◌≡◌, Ok};
ghost use Rattle.ws_value.specs.declared.value.Plain.TheVariants.{Undefined};
ghost use Rattle.ws_promise.specs.Seen.{HasEffectRoom};
ghost use Rattle.ws_steps.specs.declared.effects.Effect.TheVariants as effect;
ghost use Rattle.ws_steps.specs.declared.effects.Gift.TheVariants as gift;
ghost use Rattle.ws_steps.specs.declared.effects.Use.TheVariants as usage;
ghost use Rattle.ws_steps.specs.declared.pipes.PipeOperation.TheVariants as pipe;
ghost use Rattle.ws_steps.specs.declared.promises.Step.TheVariants as step;
ghost use Rattle.ws_steps.specs.declared.readable.ReadRequest.TheVariants as request_of;
ghost use Rattle.ws_steps.specs.declared.readable.ReadableOperation.TheVariants as readable;
ghost use Rattle.ws_steps.specs.declared.transform.TransformOperation.TheVariants as transform;
ghost use Rattle.ws_steps.specs.Pipes.{reacts};
ghost use Rattle.ws_direct.specs.Directly.{leaving};

use ws_steps::{
    Effect, Gift, PipeOperation, ReadRequest, ReadableOperation, Step, TransformId,
    TransformOperation, Use,
};
use ws_tables::Tables;
use ws_value::{PipeId, Plain, PromiseId, StreamId, Value};

#[cold]
#[inline(never)]
pub(crate) fn leave_step(tables: &mut Tables, promise: PromiseId, next: Step)
    requires { HasEffectRoom 1 tables.old.caused }
    ensures { tables.new ≡ leaving (reacts promise next) tables.old }
{
    tables
        .caused
        .push(Effect::Give(Gift::This(promise), Use::React(next, None)));
}

#[cold]
#[inline(never)]
pub(crate) fn leave_wrote(tables: &mut Tables, promise: PromiseId, p: PipeId)
    requires { HasEffectRoom 1 tables.old.caused }
    ensures { tables.new ≡ leaving (reacts promise (step.PipeWrote p)) tables.old }
{
    leave_step(tables, promise, Step::PipeWrote(p));
}

#[cold]
#[inline(never)]
pub(crate) fn leave_write(tables: &mut Tables, promise: PromiseId, i: StreamId)
    requires { HasEffectRoom 1 tables.old.caused }
    ensures { tables.new ≡ leaving (reacts promise (step.WritableWrite i)) tables.old }
{
    leave_step(tables, promise, Step::WritableWrite(i));
}

#[cold]
#[inline(never)]
pub(crate) fn leave_resolve(tables: &mut Tables, own: PromiseId, promise: PromiseId)
    requires { HasEffectRoom 1 tables.old.caused }
    ensures { tables.new ≡ leaving (effect.Give (gift.This own) (usage.Resolve promise)) tables.old }
{
    tables
        .caused
        .push(Effect::Give(Gift::This(own), Use::Resolve(promise)));
}

#[cold]
#[inline(never)]
pub(crate) fn leave_look(tables: &mut Tables, p: PipeId)
    requires { HasEffectRoom 1 tables.old.caused }
    ensures { tables.new ≡ leaving (effect.Pipe p pipe.GoOn) tables.old }
{
    tables.caused.push(Effect::Pipe(p, PipeOperation::GoOn));
}

#[cold]
#[inline(never)]
pub(crate) fn leave_pull(tables: &mut Tables, i: StreamId)
    requires { HasEffectRoom 1 tables.old.caused }
    ensures { tables.new ≡ leaving (effect.PullAlgorithm i) tables.old }
{
    tables.caused.push(Effect::PullAlgorithm(i));
}

#[cold]
#[inline(never)]
pub(crate) fn leave_pulled(tables: &mut Tables, i: StreamId)
    requires { HasEffectRoom 1 tables.old.caused }
    ensures { tables.new ≡ leaving (effect.Readable i (readable.PullSettled (Ok Undefined))) tables.old }
{
    let operation = ReadableOperation::PullSettled(Ok(Plain::Undefined));
    tables.caused.push(Effect::Readable(i, operation));
}

#[cold]
#[inline(never)]
pub(crate) fn leave_chunk(tables: &mut Tables, i: StreamId, request: ReadRequest, chunk: Value)
    requires { HasEffectRoom 1 tables.old.caused }
    ensures { tables.new ≡ leaving (effect.ChunkSteps i request chunk) tables.old }
{
    tables.caused.push(Effect::ChunkSteps(i, request, chunk));
}

#[cold]
#[inline(never)]
pub(crate) fn leave_read(tables: &mut Tables, i: StreamId, p: PipeId)
    requires { HasEffectRoom 1 tables.old.caused }
    ensures { tables.new ≡ leaving (effect.Readable i (readable.Read (request_of.Pipe p))) tables.old }
{
    let request = ReadRequest::Pipe(p);
    tables
        .caused
        .push(Effect::Readable(i, ReadableOperation::Read(request)));
}

#[cold]
#[inline(never)]
pub(crate) fn leave_kept(tables: &mut Tables, i: StreamId, p: PipeId, chunk: Value)
    requires { HasEffectRoom 1 tables.old.caused }
    ensures { tables.new ≡ leaving (effect.ChunkSteps i (request_of.Pipe p) chunk) tables.old }
{
    leave_chunk(tables, i, ReadRequest::Pipe(p), chunk);
}

#[cold]
#[inline(never)]
pub(crate) fn leave_enqueue(tables: &mut Tables, i: StreamId, chunk: Value)
    requires { HasEffectRoom 1 tables.old.caused }
    ensures { tables.new ≡ leaving (effect.Readable i (readable.Enqueue chunk)) tables.old }
{
    tables
        .caused
        .push(Effect::Readable(i, ReadableOperation::Enqueue(chunk)));
}

#[cold]
#[inline(never)]
pub(crate) fn leave_enqueued(tables: &mut Tables, t: TransformId)
    requires { HasEffectRoom 1 tables.old.caused }
    ensures { tables.new ≡ leaving (effect.Transform t transform.Enqueued) tables.old }
{
    tables
        .caused
        .push(Effect::Transform(t, TransformOperation::Enqueued));
}

#[cold]
#[inline(never)]
pub(crate) fn leave_transform(tables: &mut Tables, t: TransformId, chunk: Value, promise: PromiseId)
    requires { HasEffectRoom 1 tables.old.caused }
    ensures { tables.new ≡ leaving (effect.Transform t (transform.TransformChunk chunk promise)) tables.old }
{
    let operation = TransformOperation::TransformChunk(chunk, promise);
    tables.caused.push(Effect::Transform(t, operation));
}

#[cold]
#[inline(never)]
pub(crate) fn leave_write_goes_on(tables: &mut Tables, t: TransformId, promise: PromiseId)
    requires { HasEffectRoom 1 tables.old.caused }
    ensures { tables.new ≡ leaving (effect.Transform t (transform.WriteGoesOn promise)) tables.old }
{
    let operation = TransformOperation::WriteGoesOn(promise);
    tables.caused.push(Effect::Transform(t, operation));
}

#[cold]
#[inline(never)]
pub(crate) fn leave_write_algorithm(tables: &mut Tables, i: StreamId)
    requires { HasEffectRoom 1 tables.old.caused }
    ensures { tables.new ≡ leaving (effect.WriteAlgorithm i) tables.old }
{
    tables.caused.push(Effect::WriteAlgorithm(i));
}
