//! The making of transform streams, and the calls on their controllers that no others have.
ghost use Rattle.std.specs.Prelude.{◌≡◌, ◌+◌, ◌≤◌, ◌++◌, [], ◌∷◌, length, None};
ghost use Rattle.ws_steps.specs.MakingCalls as making_calls;
ghost use Rattle.ws_steps.specs.Calls as calls;
ghost use Rattle.ws_steps.specs.declared.calls.Call.TheVariants as call;
ghost use Rattle.ws_steps.specs.declared.effects.Effect.TheVariants as effect;
ghost use Rattle.ws_steps.specs.declared.effects.Gift.TheVariants as gift;
ghost use Rattle.ws_steps.specs.declared.effects.Use.TheVariants as uses;
ghost use Rattle.ws_begin.specs.Begin.{Answers, CanBegin, CanMake};
ghost use Rattle.ws_tables.specs.View.{slots_of};

use crate::replies::UNSUPPORTED;
use crate::streams::MOST_STREAMS;
use ws_readable::Readable;
use ws_steps::{
    Effect, Gift, HostCall, Kind, Owner, Reply, SizeBy, StartBy, Step, TransformId,
    TransformOperation, Use,
};
use ws_tables::{Stream, Tables};
use ws_transform::Transform;
use ws_value::{Plain, PromiseId, StreamId};
use ws_writable::Writable;

/// The start promise of a transform stream is resolved with the result of its start algorithm: undefined, or the
/// host's promise.
fn start_transform(tables: &mut Tables, started: PromiseId, j: StreamId, start: StartBy)
    requires { 1 + length tables.old.caused.effects ≤ tables.old.caused.capacity }
    ensures { tables.new ≡ record tables.old {
      caused = record tables.old.caused {
        effects = tables.old.caused.effects ++ making_calls.start_transform started j start ∷ [];
      };
    } }
{
    match start {
        StartBy::Now => tables
            .caused
            .push(Effect::Settle(started, Ok(Plain::Undefined))),
        StartBy::Later => tables.caused.push(Effect::CallHost(
            HostCall::Start(j),
            Use::Resolve(started),
        )),
    }
}

/// The start algorithm of a half gives the start promise of its transform stream; its controller reacts to a promise
/// that is resolved with it.
fn start_half(tables: &mut Tables, started: PromiseId, half_started: PromiseId, step: Step)
    requires { 2 + length tables.old.caused.effects ≤ tables.old.caused.capacity }
    ensures { tables.new ≡ record tables.old {
      caused = record tables.old.caused {
        effects = tables.old.caused.effects
            ++ effect.Give (gift.This started) (uses.Resolve half_started)
            ∷ effect.Give (gift.This half_started) (uses.React step None) ∷ [];
      };
    } }
{
    tables.caused.push(Effect::Give(Gift::This(started), Use::Resolve(half_started)));
    tables.caused.push(Effect::Give(Gift::This(half_started), Use::React(step, None)));
}

/// InitializeTransformStream, and SetUpTransformStreamDefaultController: a transform stream with two halves, which
/// count their chunks.
#[tactic(auto, using(ws_tables::proofs::Places::fresh_length), unfolding(ws_steps::specs::Calls::begin))]
pub(crate) fn make_transform(
    tables: &mut Tables,
    kind: Kind,
    whwm: u64,
    rhwm: u64,
    start: StartBy,
) -> Reply
    requires ready { CanBegin tables.old }
    requires room { CanMake tables.old }
    ensures { Answers (calls.begin (call.MakeTransform kind whwm rhwm start) (slots_of tables.old))
        result tables.old tables.new }
{
    if tables.streams.len() + 1 >= MOST_STREAMS {
        return Reply::TooMany;
    }
    let me = TransformId(tables.transforms.len() as u32);
    let i = StreamId(tables.streams.len() as u32);
    let j = StreamId(tables.streams.len() as u32 + 1);
    let change = tables.promises.fresh();
    let started = tables.promises.fresh();
    let writable_started = tables.promises.fresh();
    let readable_started = tables.promises.fresh();
    tables
        .transforms
        .push_reserved(Transform::set_up(kind, i, j, change));
    let owner = Owner::HalfOf(me);
    let writable = Writable::make(tables.alloc, owner, whwm, SizeBy::Count);
    tables.streams.push_reserved(Stream::Writable(writable));
    let readable = Readable::make(tables.alloc, owner, rhwm, SizeBy::Count);
    tables.streams.push_reserved(Stream::Readable(readable));
    tables.grown.push_reserved(i);
    tables.grown.push_reserved(j);
    start_half(tables, started, writable_started, Step::WritableStart(i));
    start_half(tables, started, readable_started, Step::ReadableStart(j));
    start_transform(tables, started, j, start);
    Reply::MadeTwo(i, j)
}

#[tactic(auto, unfolding(ws_steps::specs::Calls::begin))]
pub(crate) fn terminate(tables: &mut Tables, i: StreamId) -> Reply
    requires ready { CanBegin tables.old }
    ensures { Answers (calls.begin (call.Terminate i) (slots_of tables.old)) result tables.old tables.new }
{
    if !tables.has_readable(i) {
        return UNSUPPORTED;
    }
    match tables.readable(i).owner() {
        Owner::Host | Owner::BranchOf(_, _) | Owner::EndOf(_) => UNSUPPORTED,
        Owner::HalfOf(t) => {
            tables
                .caused
                .push(Effect::Transform(t, TransformOperation::Terminate));
            Reply::Done
        }
    }
}
