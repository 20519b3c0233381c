//! Pipes: their writes and their looks.
ghost use Rattle.std.specs.Prelude.{◌≡◌, ◌<◌, [], ◌∷◌, IfSome, length, map, slice_get, true};
ghost use Rattle.ws_pipe.specs.Seen.{is_next, look_of};
ghost use Rattle.ws_steps.specs.Slots.{as_source, as_writable, ends_of};
ghost use Rattle.ws_steps.specs.declared.effects.Effect.TheVariants as effect;
ghost use Rattle.ws_steps.specs.declared.pipes.PipeOperation.TheVariants as pipe;
ghost use Rattle.ws_tables.specs.View.{stream_of};
ghost use Rattle.ws_direct.specs.Directly.{AreOpen, IsReadyFor, PerformsDirectly, Reaches, looks_told};

use crate::after::{go_on_after, wrote_after};
use crate::promises::react;
use crate::reads::read;
use crate::writes::write;
use ws_jobs::Short;
use ws_performing::pipe_ends;
use ws_pipe::{PipeLook, PipeNext};
use ws_steps::{ReadableState, WritableState};
use ws_tables::{Stream, Tables};
use ws_value::{PipeId, PromiseId, StreamId};

/// Whether the destination of a pipe wants a chunk, and the ready promise of its writer, where the source is readable
/// and the destination writable and not closing, as a chunk meets them.
#[inline(always)]
fn open_ends(
    streams: &Vec<Stream>,
    source: StreamId,
    dest: StreamId,
) -> Option<(bool, Option<PromiseId>)>
    ensures { IfSome result (λ (wants, ready). AreOpen wants ready
        (ends_of
        (as_source (slice_get (map stream_of streams.now.items) source.0))
        (as_writable (slice_get (map stream_of streams.now.items) dest.0)))) }
{
    match streams.get(source.0 as usize) {
        Some(Stream::Readable(stream)) if stream.state() == ReadableState::Readable => {}
        _ => return None,
    }
    match streams.get(dest.0 as usize) {
        Some(Stream::Writable(stream))
            if stream.state() == WritableState::Writable && !stream.is_closing() => {
            Some((stream.wants_chunk(), stream.ready()))
        }
        _ => None,
    }
}

/// A pipe looks at its two ends, whatever they are: what it does next. What else there is to do is caused.
#[cold]
#[inline(never)]
fn look_at_all(tables: &mut Tables, p: PipeId, look: PipeLook) -> PipeNext
    requires there { p.0 < length tables.old.pipes.items }
    requires ready { IsReadyFor (effect.Pipe p (look_of look) ∷ []) tables.old }
    ensures told { Reaches (effect.Pipe p (look_of look) ∷ []) tables.old (looks_told p tables.new.caused.effects result) tables.new }
    ensures quiet { is_next result ≡ true → tables.new.caused.effects ≡ [] }
{
    let pipe = &tables.pipes[p.0 as usize];
    let ends = pipe_ends(&tables.streams, pipe.source(), pipe.dest());
    tables.pipes[p.0 as usize].look_directly(
        p,
        &ends,
        &mut tables.promises,
        &mut tables.caused,
        look,
    )
}

/// A pipe looks at its two ends: what it does next. What else there is to do is caused.
#[inline(always)]
fn look_at_ends(tables: &mut Tables, p: PipeId, look: PipeLook) -> PipeNext
    requires there { p.0 < length tables.old.pipes.items }
    requires ready { IsReadyFor (effect.Pipe p (look_of look) ∷ []) tables.old }
    ensures told { Reaches (effect.Pipe p (look_of look) ∷ []) tables.old (looks_told p tables.new.caused.effects result) tables.new }
    ensures quiet { is_next result ≡ true → tables.new.caused.effects ≡ [] }
{
    let pipe = &tables.pipes[p.0 as usize];
    if !pipe.is_flowing() {
        return look_at_all(tables, p, look);
    }
    let Some((wants, ready)) = open_ends(&tables.streams, pipe.source(), pipe.dest()) else {
        return look_at_all(tables, p, look);
    };
    tables.pipes[p.0 as usize].look_between(look, wants, ready)
}

/// A pipe looks at its two ends: it goes on, its writer is ready, or a write of it has settled.
#[inline(always)]
fn look(tables: &mut Tables, p: PipeId, look: PipeLook)
    requires { IsReadyFor (effect.Pipe p (look_of look) ∷ []) tables.old }
    ensures { PerformsDirectly (effect.Pipe p (look_of look) ∷ []) tables.old tables.new }
{
    if tables.pipes.len() as u128 <= p.0 {
        return;
    }
    match look_at_ends(tables, p, look) {
        PipeNext::Nothing => {}
        PipeNext::Read(source) => read(tables, source, p),
        PipeNext::Wait(ready) => {
            react(tables, ready, Short::PipeReady(p.0 as u64));
        }
    }
}

/// Looks where the pipe is flowing, and proceeds where it waits.
pub(crate) fn go_on(tables: &mut Tables, p: PipeId)
    requires { IsReadyFor (effect.Pipe p pipe.GoOn ∷ []) tables.old }
    ensures { PerformsDirectly (effect.Pipe p pipe.GoOn ∷ []) tables.old tables.new }
{
    look(tables, p, PipeLook::GoOn);
}

/// The writer of a pipe has become ready.
pub fn pipe_ready(tables: &mut Tables, p: PipeId)
    requires { IsReadyFor (effect.Pipe p pipe.LookReady ∷ []) tables.old }
    ensures { PerformsDirectly (effect.Pipe p pipe.LookReady ∷ []) tables.old tables.new }
{
    look(tables, p, PipeLook::Ready);
}

/// A write of a pipe has settled.
pub fn pipe_wrote(tables: &mut Tables, p: PipeId)
    requires { IsReadyFor (effect.Pipe p pipe.WriteEnded ∷ []) tables.old }
    ensures { PerformsDirectly (effect.Pipe p pipe.WriteEnded ∷ []) tables.old tables.new }
{
    look(tables, p, PipeLook::WriteEnded);
}

/// A pipe writes the chunk that it holds.
pub fn pipe_writes(tables: &mut Tables, p: PipeId)
    requires { IsReadyFor (effect.Pipe p pipe.WriteChunk ∷ []) tables.old }
    ensures { PerformsDirectly (effect.Pipe p pipe.WriteChunk ∷ []) tables.old tables.new }
{
    if tables.pipes.len() as u128 <= p.0 {
        return;
    }
    let pipe = &mut tables.pipes[p.0 as usize];
    let written = pipe.write_directly(&mut tables.promises);
    let dest = pipe.dest();
    let Some((chunk, promise)) = written else {
        return;
    };
    write(tables, dest, chunk, promise);
    wrote_after(tables, promise, p);
    go_on_after(tables, p);
}
