//! Writes, and the write algorithms.
ghost use Rattle.std.specs.Prelude.{◌≡◌, ◌<◌, ◌^◌, [], ◌∷◌, None, Ok};
ghost use Rattle.ws_value.specs.declared.value.Plain.TheVariants.{Undefined};
ghost use Rattle.ws_steps.specs.Slots.{writable_at};
ghost use Rattle.ws_steps.specs.Writable as writables;
ghost use Rattle.ws_steps.specs.declared.effects.Effect.TheVariants as effect;
ghost use Rattle.ws_steps.specs.declared.effects.Use.TheVariants as usage;
ghost use Rattle.ws_steps.specs.declared.promises.Step.TheVariants as step;
ghost use Rattle.ws_steps.specs.declared.transform.Taker.{Taker};
ghost use Rattle.ws_steps.specs.declared.transform.Taker.TheVariants as taker_of;
ghost use Rattle.ws_steps.specs.declared.transform.TransformOperation.TheVariants as transform;
ghost use Rattle.ws_steps.specs.declared.writable.WritableOperation.TheVariants as writable;
ghost use Rattle.ws_tables.specs.Room.{IsKept};
ghost use Rattle.ws_tables.specs.View.{slots_of};
ghost use Rattle.ws_direct.specs.Directly.{IsReadyFor, PerformsDirectly, Reaches, handed, hands_on};

use crate::after::{resolve_after, write_after};
use crate::growth::note_growth;
use crate::left::{leave_transform, leave_write_algorithm, leave_write_goes_on};
use crate::promises::{call_host, react};
use ws_jobs::Short;
use ws_steps::{HostCall, Kind, Owner, TransformId, WritableState};
use ws_tables::{LIST_PLACES, Stream, Tables};
use ws_value::{PromiseId, StreamId, Value};

/// Takes the chunk at the front of the queue of a writable stream, where one stands there, which is handed on.
#[inline(always)]
fn chunk_of(tables: &mut Tables, i: StreamId) -> Option<Value>
    requires quiet { tables.old.caused.effects ≡ [] }
    requires kept { IsKept tables.old }
    ensures reached { (taker : Taker) → Reaches (effect.Writable i (writable.HandOn taker) ∷ []) tables.old (handed i taker result) tables.new }
    ensures quiet { tables.new.caused.effects ≡ [] }
{
    if !tables.has_writable(i) {
        return None;
    }
    match &mut tables.streams[i.0 as usize] {
        Stream::Writable(stream) => stream.take_chunk(),
        Stream::Readable(_) | Stream::Bytes(_) => unreachable!(),
    }
}

/// The transform algorithm, where it is the host's.
fn transform_chunk(tables: &mut Tables, t: TransformId, chunk: Value, promise: PromiseId)
    requires small { promise.0 < 2 ^ 64 }
    requires ready { IsReadyFor (effect.Transform t (transform.TransformChunk chunk promise) ∷ []) tables.old }
    ensures { PerformsDirectly (effect.Transform t (transform.TransformChunk chunk promise) ∷ []) tables.old tables.new }
{
    if tables.transforms.len() <= t.0 as usize {
        return;
    }
    let transform = &tables.transforms[t.0 as usize];
    match transform.kind() {
        Kind::Host => {
            let call = HostCall::Transform(transform.readable(), chunk);
            call_host(tables, call, Short::Transformed(t, promise.0 as u64));
        }
        Kind::Identity => leave_transform(tables, t, chunk, promise),
    }
}

/// A chunk is handed on to a transform stream.
#[inline(always)]
fn hand_on(tables: &mut Tables, i: StreamId, t: TransformId, promise: PromiseId)
    requires small { promise.0 < 2 ^ 64 }
    requires ready { IsReadyFor (hands_on i t promise ∷ []) tables.old }
    ensures { PerformsDirectly (hands_on i t promise ∷ []) tables.old tables.new }
{
    if let Some(chunk) = chunk_of(tables, i) {
        transform_chunk(tables, t, chunk, promise);
    }
}

/// TransformStreamDefaultSinkWriteAlgorithm.
fn sink_write(tables: &mut Tables, t: TransformId, i: StreamId)
    requires { IsReadyFor (effect.Transform t (transform.SinkWrite (usage.React (step.WritableWrite i) None)) ∷ []) tables.old }
    ensures { PerformsDirectly (effect.Transform t (transform.SinkWrite (usage.React (step.WritableWrite i) None)) ∷ []) tables.old tables.new }
{
    if tables.transforms.len() <= t.0 as usize {
        return;
    }
    let transform = &tables.transforms[t.0 as usize];
    let writable = transform.writable();
    let change = transform.change();
    let waits = transform.has_backpressure();
    let promise = tables.promises.fresh();
    if waits {
        react(tables, change, Short::Changed(t, promise.0 as u64));
        react(tables, promise, Short::Wrote(i));
    } else {
        hand_on(tables, writable, t, promise);
        write_after(tables, promise, i);
    }
}

/// The write algorithm of a writable stream whose algorithms are the host's.
#[inline(always)]
fn write_to_host(tables: &mut Tables, i: StreamId)
    requires { IsReadyFor (effect.Writable i (writable.HandOn taker_of.ToHost) ∷ []) tables.old }
    ensures { PerformsDirectly (effect.Writable i (writable.HandOn taker_of.ToHost) ∷ []) tables.old tables.new }
{
    if let Some(chunk) = chunk_of(tables, i) {
        call_host(tables, HostCall::Write(i, chunk), Short::Wrote(i));
    }
}

/// The write algorithm, by whose it is.
fn write_algorithm(tables: &mut Tables, i: StreamId)
    requires { IsReadyFor (effect.WriteAlgorithm i ∷ []) tables.old }
    ensures { PerformsDirectly (effect.WriteAlgorithm i ∷ []) tables.old tables.new }
{
    match tables.owner(i) {
        Owner::HalfOf(t) => sink_write(tables, t, i),
        Owner::Host => write_to_host(tables, i),
        _ => leave_write_algorithm(tables, i),
    }
}

/// The write algorithm of a writable stream has ended.
pub fn wrote(tables: &mut Tables, i: StreamId)
    requires { IsReadyFor (effect.Writable i (writable.WriteSettled (Ok Undefined)) ∷ []) tables.old }
    ensures { PerformsDirectly (effect.Writable i (writable.WriteSettled (Ok Undefined)) ∷ []) tables.old tables.new }
{
    if !tables.has_writable(i) {
        return;
    }
    match &mut tables.streams[i.0 as usize] {
        Stream::Writable(stream) => {
            let had_room = stream.has_room(LIST_PLACES);
            let writes = stream.write_done(i, &mut tables.promises, &mut tables.caused);
            let has_room = stream.has_room(LIST_PLACES);
            note_growth(tables, i, had_room, has_room);
            if writes {
                write_algorithm(tables, i);
            }
        }
        Stream::Readable(_) | Stream::Bytes(_) => unreachable!(),
    }
}

/// WritableStreamDefaultWriterWrite.
pub(crate) fn write(tables: &mut Tables, i: StreamId, chunk: Value, promise: PromiseId)
    requires { IsReadyFor (effect.Writable i (writable.Write chunk promise) ∷ []) tables.old }
    ensures { PerformsDirectly (effect.Writable i (writable.Write chunk promise) ∷ []) tables.old tables.new }
{
    if !tables.has_writable(i) {
        return;
    }
    match &mut tables.streams[i.0 as usize] {
        Stream::Writable(stream) => {
            let had_room = stream.has_room(LIST_PLACES);
            let writes = stream.write_directly(
                i,
                &mut tables.promises,
                &mut tables.caused,
                chunk,
                promise,
            );
            let has_room = stream.has_room(LIST_PLACES);
            note_growth(tables, i, had_room, has_room);
            if writes {
                write_algorithm(tables, i);
            }
        }
        Stream::Readable(_) | Stream::Bytes(_) => unreachable!(),
    }
}

/// Whether a writable stream is erroring.
#[inline(always)]
fn is_erroring(tables: &Tables, i: StreamId) -> bool
    ensures { result ≡ writables.is_erroring (writable_at i (slots_of tables.now)).state }
{
    match tables.streams.get(i.0 as usize) {
        Some(Stream::Writable(stream)) => stream.state() == WritableState::Erroring,
        Some(Stream::Readable(_) | Stream::Bytes(_)) | None => false,
    }
}

/// A write of a transform stream waits for its backpressure no longer.
pub fn write_goes_on(tables: &mut Tables, t: TransformId, promise: PromiseId)
    requires { IsReadyFor (effect.Transform t (transform.WriteGoesOn promise) ∷ []) tables.old }
    ensures { PerformsDirectly (effect.Transform t (transform.WriteGoesOn promise) ∷ []) tables.old tables.new }
{
    if tables.transforms.len() <= t.0 as usize {
        return;
    }
    let writable = tables.transforms[t.0 as usize].writable();
    if is_erroring(tables, writable) {
        leave_write_goes_on(tables, t, promise);
        return;
    }
    let own = tables.promises.fresh();
    hand_on(tables, writable, t, own);
    resolve_after(tables, own, promise);
}
