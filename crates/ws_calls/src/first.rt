//! The jobs that each chunk meets on its way through a pipe. Each has one effect, which is performed at once, with what
//! comes of it.
ghost use Rattle.std.specs.Prelude.{◌≡◌, ◌+◌, ℕ, [], ◌∷◌, Some, IfNone, IfSome, option_map, true, false};
ghost use Rattle.ws_steps.specs.Jobs.{job_effects};
ghost use Rattle.ws_jobs.specs.Shorts.{job_in};
ghost use Rattle.ws_direct.specs.Directly.{IsReadyFor, PerformsDirectly};
ghost use Rattle.ws_performing.specs.Performing.{Performs};
ghost use Rattle.ws_tables.specs.Room.{IsResting, KeepsRecords};
ghost use Rattle.ws_calls.specs.Credit.{HasPlacesFor, IsAtHand};
ghost use Rattle.ws_calls.specs.First.{Began, FitsFirst, effect_of, is_whole};
ghost use Rattle.ws_calls.specs.declared.first.First.TheVariants as first;

use ws_direct::{pipe_ready, pipe_writes, pipe_wrote, pulled, write_goes_on, wrote};
use ws_jobs::Short;
use ws_steps::TransformId;
use ws_tables::Tables;
use ws_value::{PipeId, Plain, PromiseId, StreamId};

/// The effect of a job that has one alone.
#[derive(Clone, Copy)]
pub(crate) enum First {
    /// The pull algorithm of a readable stream has ended.
    Pulled(StreamId),
    /// The write algorithm of a writable stream has ended.
    Wrote(StreamId),
    /// A pipe writes the chunk that it holds.
    PipeWrites(PipeId),
    /// The writer of a pipe has become ready.
    PipeReady(PipeId),
    /// A write of a pipe has settled.
    PipeWrote(PipeId),
    /// A write of a transform stream waits for its backpressure no longer.
    WriteGoesOn(TransformId, PromiseId),
    /// A promise is fulfilled with undefined.
    Fulfils(PromiseId),
}

/// The effect of a job in its short form, where it has one alone. One by which a promise follows another has none.
#[inline(always)]
fn first_of(short: &Short) -> Option<First>
    requires { is_whole short.now ≡ false }
    ensures one { IfSome result (λ first. option_map job_effects (job_in short.now) ≡ Some (effect_of first ∷ [])) }
    ensures none { IfNone result (option_map job_effects (job_in short.now) ≡ Some []) }
{
    match short {
        Short::Whole => None,
        Short::Pulled(i) => Some(First::Pulled(*i)),
        Short::Wrote(i) => Some(First::Wrote(*i)),
        Short::PipeReady(n) => Some(First::PipeReady(PipeId(*n as u128))),
        Short::PipeWrote(n) => Some(First::PipeWrote(PipeId(*n as u128))),
        Short::Changed(t, n) => Some(First::WriteGoesOn(*t, PromiseId(*n as u128))),
        Short::Transformed(_, n) => Some(First::Fulfils(PromiseId(*n as u128))),
        Short::Adopt(n) => Some(First::Fulfils(PromiseId(*n as u128))),
        Short::PipeWrite(n) => Some(First::PipeWrites(PipeId(*n as u128))),
        Short::Follow(_, _) => None,
    }
}

/// Whether a job has no short form: it stands whole in another queue, or there is none.
#[inline(always)]
fn is_whole(short: &Short) -> bool
    ensures { result ≡ is_whole short.now }
{
    matches!(short, Short::Whole)
}

/// Fulfils a promise with undefined.
#[tactic(auto, unfolding(ws_steps::specs::Turns::row))]
fn settle(tables: &mut Tables, promise: PromiseId)
    requires quiet { tables.old.caused.effects ≡ [] }
    ensures performs { Performs (effect_of (first.Fulfils promise)) tables.old tables.new }
    ensures records { KeepsRecords tables.old tables.new }
{
    tables.promises.fulfil(promise, Plain::Undefined);
}

#[inline(always)]
fn fulfils(tables: &mut Tables, promise: PromiseId)
    requires { IsReadyFor (effect_of (first.Fulfils promise) ∷ []) tables.old }
    ensures { PerformsDirectly (effect_of (first.Fulfils promise) ∷ []) tables.old tables.new }
{
    settle(tables, promise);
}

/// Performs such an effect. Each stands in a function of its own, since each local of a function costs at its entry.
fn perform(tables: &mut Tables, first: First)
    requires { IsReadyFor (effect_of first ∷ []) tables.old }
    ensures { PerformsDirectly (effect_of first ∷ []) tables.old tables.new }
{
    match first {
        First::Pulled(i) => pulled(tables, i),
        First::Wrote(i) => wrote(tables, i),
        First::PipeWrites(p) => pipe_writes(tables, p),
        First::PipeReady(p) => pipe_ready(tables, p),
        First::PipeWrote(p) => pipe_wrote(tables, p),
        First::WriteGoesOn(t, promise) => write_goes_on(tables, t, promise),
        First::Fulfils(promise) => fulfils(tables, promise),
    }
}

/// Takes the first job out of the queue and performs its one effect, where it is such a job or one without effects.
/// False says that nothing was done.
pub(crate) fn begin_first(tables: &mut Tables) -> bool
    requires fits { FitsFirst tables.old }
    requires resting { IsResting tables.old }
    ensures began { result ≡ true → Began tables.old tables.new }
    ensures afforded { result ≡ true → tables.new.caused.effects ≡ [] → (n : ℕ) → HasPlacesFor (n + 1) tables.old
        → IsAtHand tables.old → HasPlacesFor n tables.new }
    ensures untouched { result ≡ false → tables.new ≡ tables.old }
{
    let short = tables.promises.first_short();
    if is_whole(&short) {
        return false;
    }
    tables.promises.drop_first_job();
    let Some(first) = first_of(&short) else {
        return true;
    };
    perform(tables, first);
    true
}
