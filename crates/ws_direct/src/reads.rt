//! Reads of a pipe, and the chunk that comes.
ghost use Rattle.std.specs.Prelude.{◌≡◌, ◌&&◌, [], ◌∷◌};
ghost use Rattle.ws_steps.specs.Slots.{has_readable, readable_at};
ghost use Rattle.ws_steps.specs.Readable.{can_close_or_enqueue};
ghost use Rattle.ws_steps.specs.declared.effects.Effect.TheVariants as effect;
ghost use Rattle.ws_steps.specs.declared.pipes.PipeOperation.TheVariants as pipe;
ghost use Rattle.ws_steps.specs.declared.readable.ReadRequest.TheVariants as request_of;
ghost use Rattle.ws_steps.specs.declared.readable.ReadableOperation.TheVariants as readable;
ghost use Rattle.ws_tables.specs.View.{slots_of};
ghost use Rattle.ws_direct.specs.Directly.{IsReadyFor, PerformsDirectly};

use crate::after::keep_after;
use crate::growth::note_growth;
use crate::left::{leave_chunk, leave_read};
use crate::pulls::pull_where;
use ws_steps::ReadRequest;
use ws_tables::{LIST_PLACES, Stream, Tables};
use ws_value::{PipeId, StreamId, Value};

/// A pipe keeps the chunk that it read.
#[inline(always)]
pub(crate) fn keep_chunk(tables: &mut Tables, p: PipeId, chunk: Value)
    requires { IsReadyFor (effect.Pipe p (pipe.KeepChunk chunk) ∷ []) tables.old }
    ensures { PerformsDirectly (effect.Pipe p (pipe.KeepChunk chunk) ∷ []) tables.old tables.new }
{
    if tables.pipes.len() as u128 <= p.0 {
        return;
    }
    tables.pipes[p.0 as usize].keep_chunk(p, &mut tables.promises, chunk);
}

/// The chunk steps of a read request: those of a pipe's.
#[inline(always)]
pub(crate) fn hand(tables: &mut Tables, i: StreamId, request: ReadRequest, chunk: Value)
    requires { IsReadyFor (effect.ChunkSteps i request chunk ∷ []) tables.old }
    ensures { PerformsDirectly (effect.ChunkSteps i request chunk ∷ []) tables.old tables.new }
{
    match request {
        ReadRequest::Pipe(p) => keep_chunk(tables, p, chunk),
        _ => leave_chunk(tables, i, request, chunk),
    }
}

/// Whether there is a readable stream of this number with a default controller that can close or enqueue.
#[inline(always)]
pub(crate) fn is_going(tables: &Tables, i: StreamId) -> bool
    ensures { result ≡ (has_readable i (slots_of tables.now)
        && can_close_or_enqueue (readable_at i (slots_of tables.now))) }
{
    match tables.streams.get(i.0 as usize) {
        Some(Stream::Readable(stream)) => stream.can_close_or_enqueue(),
        Some(Stream::Bytes(_) | Stream::Writable(_)) | None => false,
    }
}

/// A pipe reads.
pub(crate) fn read(tables: &mut Tables, i: StreamId, p: PipeId)
    requires { IsReadyFor (effect.Readable i (readable.Read (request_of.Pipe p)) ∷ []) tables.old }
    ensures { PerformsDirectly (effect.Readable i (readable.Read (request_of.Pipe p)) ∷ []) tables.old tables.new }
{
    if !is_going(tables, i) {
        leave_read(tables, i, p);
        return;
    }
    match &mut tables.streams[i.0 as usize] {
        Stream::Readable(stream) => {
            if stream.has_chunk() {
                let chunk = stream.take_directly();
                let pulls = stream.pulls_directly();
                pull_where(tables, i, pulls);
                keep_after(tables, i, p, chunk);
            } else {
                let loses_room = stream.loses_room_by_request(LIST_PLACES);
                stream.wait_directly(ReadRequest::Pipe(p));
                let pulls = stream.pulls_directly();
                tables.waiting += 1;
                note_growth(tables, i, loses_room, false);
                pull_where(tables, i, pulls);
            }
        }
        Stream::Bytes(_) | Stream::Writable(_) => unreachable!(),
    }
}
