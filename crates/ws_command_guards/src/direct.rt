//! The effects of the jobs that each chunk meets, and of its enqueuing, performed by direct calls.
ghost use Rattle.std.specs.Prelude.{[], ◌∷◌, Ok};
ghost use Rattle.ws_value.specs.declared.value.Plain.TheVariants.{Undefined};
ghost use Rattle.ws_steps.specs.declared.effects.Effect.TheVariants as effect;
ghost use Rattle.ws_steps.specs.declared.pipes.PipeOperation.TheVariants as pipe;
ghost use Rattle.ws_steps.specs.declared.readable.ReadableOperation.TheVariants as readable;
ghost use Rattle.ws_steps.specs.declared.transform.TransformOperation.TheVariants as transform;
ghost use Rattle.ws_steps.specs.declared.writable.WritableOperation.TheVariants as writable;
ghost use Rattle.ws_direct.specs.Directly.{IsReadyFor, PerformsDirectly};

use ws_steps::TransformId;
use ws_tables::Tables;
use ws_value::{PipeId, PromiseId, StreamId, Value};

/// The pull algorithm of a readable stream has ended.
pub fn pulled(tables: &mut Tables, i: StreamId)
    requires { IsReadyFor (effect.Readable i (readable.PullSettled (Ok Undefined)) ∷ []) tables.old }
    ensures { PerformsDirectly (effect.Readable i (readable.PullSettled (Ok Undefined)) ∷ []) tables.old tables.new }
{
    ws_direct::pulled(tables, i);
}

/// The write algorithm of a writable stream has ended.
pub fn wrote(tables: &mut Tables, i: StreamId)
    requires { IsReadyFor (effect.Writable i (writable.WriteSettled (Ok Undefined)) ∷ []) tables.old }
    ensures { PerformsDirectly (effect.Writable i (writable.WriteSettled (Ok Undefined)) ∷ []) tables.old tables.new }
{
    ws_direct::wrote(tables, i);
}

/// A pipe writes the chunk that it holds.
pub fn pipe_writes(tables: &mut Tables, p: PipeId)
    requires { IsReadyFor (effect.Pipe p pipe.WriteChunk ∷ []) tables.old }
    ensures { PerformsDirectly (effect.Pipe p pipe.WriteChunk ∷ []) tables.old tables.new }
{
    ws_direct::pipe_writes(tables, p);
}

/// The writer of a pipe has become ready.
pub fn pipe_ready(tables: &mut Tables, p: PipeId)
    requires { IsReadyFor (effect.Pipe p pipe.LookReady ∷ []) tables.old }
    ensures { PerformsDirectly (effect.Pipe p pipe.LookReady ∷ []) tables.old tables.new }
{
    ws_direct::pipe_ready(tables, p);
}

/// A write of a pipe has settled.
pub fn pipe_wrote(tables: &mut Tables, p: PipeId)
    requires { IsReadyFor (effect.Pipe p pipe.WriteEnded ∷ []) tables.old }
    ensures { PerformsDirectly (effect.Pipe p pipe.WriteEnded ∷ []) tables.old tables.new }
{
    ws_direct::pipe_wrote(tables, p);
}

/// A write of a transform stream waits for its backpressure no longer.
pub fn write_goes_on(tables: &mut Tables, t: TransformId, promise: PromiseId)
    requires { IsReadyFor (effect.Transform t (transform.WriteGoesOn promise) ∷ []) tables.old }
    ensures { PerformsDirectly (effect.Transform t (transform.WriteGoesOn promise) ∷ []) tables.old tables.new }
{
    ws_direct::write_goes_on(tables, t, promise);
}

/// TransformStreamDefaultControllerEnqueue, of a chunk that the readable half can take.
pub fn enqueue(tables: &mut Tables, t: TransformId, chunk: Value)
    requires { IsReadyFor (effect.Transform t (transform.Enqueue chunk) ∷ []) tables.old }
    ensures { PerformsDirectly (effect.Transform t (transform.Enqueue chunk) ∷ []) tables.old tables.new }
{
    ws_direct::enqueue(tables, t, chunk);
}
