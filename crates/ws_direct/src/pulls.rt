//! Pulls.
ghost use Rattle.std.specs.Prelude.{[], ◌∷◌, None, Ok};
ghost use Rattle.ws_value.specs.declared.value.Plain.TheVariants.{Undefined};
ghost use Rattle.ws_steps.specs.declared.effects.Effect.TheVariants as effect;
ghost use Rattle.ws_steps.specs.declared.effects.Use.TheVariants as usage;
ghost use Rattle.ws_steps.specs.declared.promises.Step.TheVariants as step;
ghost use Rattle.ws_steps.specs.declared.readable.ReadableOperation.TheVariants as readable;
ghost use Rattle.ws_steps.specs.declared.transform.TransformOperation.TheVariants as transform;
ghost use Rattle.ws_direct.specs.Directly.{IsReadyFor, PerformsDirectly, pulls_told};

use crate::left::{leave_pull, leave_pulled};
use crate::promises::react;
use ws_jobs::Short;
use ws_steps::{Owner, TransformId};
use ws_tables::{Stream, Tables};
use ws_value::StreamId;

/// TransformStreamDefaultSourcePullAlgorithm.
fn source_pull(tables: &mut Tables, t: TransformId, i: StreamId)
    requires { IsReadyFor (effect.Transform t (transform.SourcePull (usage.React (step.ReadablePull i) None)) ∷ []) tables.old }
    ensures { PerformsDirectly (effect.Transform t (transform.SourcePull (usage.React (step.ReadablePull i) None)) ∷ []) tables.old tables.new }
{
    if tables.transforms.len() <= t.0 as usize {
        return;
    }
    let transform = &mut tables.transforms[t.0 as usize];
    transform.set_backpressure(&mut tables.promises, false);
    let change = transform.change();
    react(tables, change, Short::Pulled(i));
}

/// The pull algorithm, by whose it is.
pub(crate) fn pull(tables: &mut Tables, i: StreamId)
    requires { IsReadyFor (effect.PullAlgorithm i ∷ []) tables.old }
    ensures { PerformsDirectly (effect.PullAlgorithm i ∷ []) tables.old tables.new }
{
    match tables.owner(i) {
        Owner::HalfOf(t) => source_pull(tables, t, i),
        _ => leave_pull(tables, i),
    }
}

/// The pull algorithm, where it is to be performed.
#[inline(always)]
pub(crate) fn pull_where(tables: &mut Tables, i: StreamId, pulls: bool)
    requires { IsReadyFor (pulls_told pulls i) tables.old }
    ensures { PerformsDirectly (pulls_told pulls i) tables.old tables.new }
{
    if pulls {
        pull(tables, i);
    }
}

/// The pull algorithm of a readable stream has ended.
pub fn pulled(tables: &mut Tables, i: StreamId)
    requires { IsReadyFor (effect.Readable i (readable.PullSettled (Ok Undefined)) ∷ []) tables.old }
    ensures { PerformsDirectly (effect.Readable i (readable.PullSettled (Ok Undefined)) ∷ []) tables.old tables.new }
{
    if !tables.has_readable(i) {
        leave_pulled(tables, i);
        return;
    }
    match &mut tables.streams[i.0 as usize] {
        Stream::Readable(stream) => {
            if stream.pull_done() {
                pull(tables, i);
            }
        }
        Stream::Bytes(_) | Stream::Writable(_) => unreachable!(),
    }
}
