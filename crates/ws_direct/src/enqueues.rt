//! Chunks that are enqueued at the readable half of a transform stream.
ghost use Rattle.std.specs.Prelude.{[], ◌∷◌};
ghost use Rattle.ws_steps.specs.declared.effects.Effect.TheVariants as effect;
ghost use Rattle.ws_steps.specs.declared.readable.ReadableOperation.TheVariants as readable;
ghost use Rattle.ws_steps.specs.declared.transform.TransformOperation.TheVariants as transform;
ghost use Rattle.ws_direct.specs.Directly.{IsReadyFor, PerformsDirectly};

use crate::after::{enqueued_after, pull_after};
use crate::growth::note_growth;
use crate::left::leave_enqueue;
use crate::pulls::pull_where;
use crate::reads::{hand, is_going};
use ws_performing::transform_halves;
use ws_steps::TransformId;
use ws_tables::{LIST_PLACES, Stream, Tables};
use ws_value::{StreamId, Value};

/// ReadableStreamDefaultControllerEnqueue.
fn accept(tables: &mut Tables, i: StreamId, chunk: Value)
    requires { IsReadyFor (effect.Readable i (readable.Enqueue chunk) ∷ []) tables.old }
    ensures { PerformsDirectly (effect.Readable i (readable.Enqueue chunk) ∷ []) tables.old tables.new }
{
    if !is_going(tables, i) {
        leave_enqueue(tables, i, chunk);
        return;
    }
    match &mut tables.streams[i.0 as usize] {
        Stream::Readable(stream) => {
            if stream.has_waiting_request() {
                let request = stream.hand_directly();
                let pulls = stream.pulls_directly();
                tables.waiting -= 1;
                hand(tables, i, request, chunk);
                pull_after(tables, i, pulls);
            } else {
                let loses_room = stream.loses_room_by_chunk(LIST_PLACES);
                stream.keep_directly(chunk);
                let pulls = stream.pulls_directly();
                note_growth(tables, i, loses_room, false);
                pull_where(tables, i, pulls);
            }
        }
        Stream::Bytes(_) | Stream::Writable(_) => unreachable!(),
    }
}

/// The end of TransformStreamDefaultControllerEnqueue, after the readable half took the chunk.
pub(crate) fn enqueued(tables: &mut Tables, t: TransformId)
    requires { IsReadyFor (effect.Transform t transform.Enqueued ∷ []) tables.old }
    ensures { PerformsDirectly (effect.Transform t transform.Enqueued ∷ []) tables.old tables.new }
{
    if tables.transforms.len() <= t.0 as usize {
        return;
    }
    let transform = &tables.transforms[t.0 as usize];
    let halves = transform_halves(&tables.streams, transform.readable(), transform.writable());
    tables.transforms[t.0 as usize].enqueued(&halves, &mut tables.promises);
}

/// TransformStreamDefaultControllerEnqueue, of a chunk that the readable half can take.
pub fn enqueue(tables: &mut Tables, t: TransformId, chunk: Value)
    requires { IsReadyFor (effect.Transform t (transform.Enqueue chunk) ∷ []) tables.old }
    ensures { PerformsDirectly (effect.Transform t (transform.Enqueue chunk) ∷ []) tables.old tables.new }
{
    if tables.transforms.len() <= t.0 as usize {
        return;
    }
    let readable = tables.transforms[t.0 as usize].readable();
    accept(tables, readable, chunk);
    enqueued_after(tables, t);
}
