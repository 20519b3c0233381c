//! Calls and jobs performed whole.
ghost use Rattle.std.specs.Prelude.{◌≡◌, ◌↔◌, true, IfSome, [], ◌∷◌, ◌<◌, ◌≤◌, ◌+◌, ◌^◌, not, if◌then◌else◌};
ghost use Rattle.ws_promise.specs.Seen.{HasEventRoom, HasPromiseRoom};
ghost use Rattle.ws_value.specs.declared.value.Value.{Value};
ghost use Rattle.ws_steps.specs.Begun.{does};
ghost use Rattle.ws_steps.specs.Calls as calls;
ghost use Rattle.ws_steps.specs.declared.effects.Effect.TheVariants as effect;
ghost use Rattle.ws_steps.specs.declared.transform.TransformOperation.TheVariants as transform;
ghost use Rattle.ws_steps.specs.Run as run;
ghost use Rattle.ws_steps.specs.declared.calls.Call.TheVariants as call;
ghost use Rattle.ws_steps.specs.declared.calls.Reply.TheVariants.{Done};
ghost use Rattle.ws_tables.specs.Room.{IsPrepared, IsReady, IsResting};
ghost use Rattle.ws_performing.specs.Performing.{PerformsAll};
ghost use Rattle.ws_tables.specs.View.{slots_of};
ghost use Rattle.ws_begin.specs.Begin.{IsBegun, IsSameBeside};

use crate::first::begin_first;
use crate::settled::settle_done;
use ws_begin::{UNSUPPORTED, begin, enqueue};
use ws_begin_job::begin_job;
use ws_direct::enqueue as enqueue_at;
use ws_effects::perform_effects;
use ws_steps::{Answer, Call, Owner, Reply, TransformId};
use ws_tables::Tables;
use ws_value::{StreamId, Value};

/// A promise that a reply names is watched from now on.
fn name(tables: &mut Tables, reply: Reply)
    requires promises { HasPromiseRoom 1 tables.old.promises }
    requires events { HasEventRoom 1 tables.old.promises }
    ensures slots { slots_of tables.new ≡ calls.named reply (slots_of tables.old) }
    ensures rest { IsSameBeside tables.old tables.new }
{
    match reply {
        Reply::Promise(promise) => tables.promises.watch(promise),
        Reply::Done => {}
        Reply::Made(_) => {}
        Reply::MadeTwo(_, _) => {}
        Reply::Lock(_) => {}
        Reply::Signal(_) => {}
        Reply::Port(_) => {}
        Reply::MadePort(_, _) => {}
        Reply::Request(_) => {}
        Reply::Size(_) => {}
        Reply::State(_) => {}
        Reply::Throws(_) => {}
        Reply::TooMany => {}
    }
}

/// Performs a call with all that comes of it, by way of the agenda.
#[inline(never)]
fn perform_uncommon_call(tables: &mut Tables, call: Call) -> Reply
    requires prepared { IsPrepared tables.old }
    requires resting { IsResting tables.old }
    requires young { tables.old.age < 2 ^ 62 }
    ensures reply { result ≡ run.reply_to call (slots_of tables.old) }
    ensures slots { slots_of tables.new ≡ run.after_call call (slots_of tables.old) }
    ensures resting { IsResting tables.new }
    ensures age { tables.new.age ≡ tables.old.age + 1 }
{
    let reply = begin(tables, call);
    perform_effects(tables);
    name(tables, reply);
    tables.age += 1;
    reply
}

/// Whether a reply says that the call was done.
fn is_done(reply: &Reply) -> bool
    ensures { (result ≡ true) ↔ (reply.now ≡ Done) }
{
    matches!(reply, Reply::Done)
}

/// Performs what was caused, with all that comes of it. Mostly that is nothing where a promise was fulfilled.
fn perform_caused(tables: &mut Tables)
    requires { IsBegun tables.old }
    ensures { PerformsAll tables.old tables.new }
{
    if tables.caused.len() == 0 {
        return;
    }
    perform_effects(tables);
}

/// Performs the enqueuing of a chunk with all that comes of it, by way of the agenda.
#[inline(never)]
fn perform_uncommon_enqueue(tables: &mut Tables, i: StreamId, chunk: Value) -> bool
    requires ready { IsReady tables.old }
    requires resting { IsResting tables.old }
    requires young { tables.old.age < 2 ^ 62 }
    ensures done { (result ≡ true) ↔ (run.reply_to (call.Enqueue i chunk) (slots_of tables.old) ≡ Done) }
    ensures slots { slots_of tables.new ≡ run.after_call (call.Enqueue i chunk) (slots_of tables.old) }
    ensures resting { IsResting tables.new }
    ensures age { tables.new.age ≡ tables.old.age + 1 }
{
    let reply = enqueue(tables, i, chunk);
    perform_effects(tables);
    name(tables, reply);
    tables.age += 1;
    is_done(&reply)
}

/// The transform stream at whose readable half a chunk is enqueued, where that can take it.
#[inline(always)]
#[tactic(auto, unfolding(ws_steps::specs::Calls::begin))]
pub(crate) fn half_of(tables: &Tables, i: StreamId) -> Option<TransformId>
    ensures { IfSome result (λ t. (chunk : Value) → calls.begin (call.Enqueue i chunk) (slots_of tables.now)
        ≡ does (effect.Transform t (transform.Enqueue chunk) ∷ []) (slots_of tables.now)) }
{
    if !tables.has_readable(i) {
        return None;
    }
    let stream = tables.readable(i);
    match stream.owner() {
        Owner::HalfOf(t) if stream.can_close_or_enqueue() => Some(t),
        _ => None,
    }
}

/// Performs the enqueuing of a chunk with all that comes of it. Whether the stream took the chunk: it doesn't where
/// the call throws.
pub fn perform_enqueue(tables: &mut Tables, i: StreamId, chunk: Value) -> bool
    requires ready { IsReady tables.old }
    requires resting { IsResting tables.old }
    requires young { tables.old.age < 2 ^ 62 }
    ensures done { (result ≡ true) ↔ (run.reply_to (call.Enqueue i chunk) (slots_of tables.old) ≡ Done) }
    ensures slots { slots_of tables.new ≡ run.after_call (call.Enqueue i chunk) (slots_of tables.old) }
    ensures resting { IsResting tables.new }
    ensures age { tables.new.age ≡ tables.old.age + 1 }
{
    let Some(t) = half_of(tables, i) else {
        return perform_uncommon_enqueue(tables, i, chunk);
    };
    enqueue_at(tables, t, chunk);
    perform_caused(tables);
    tables.age += 1;
    true
}

/// Performs a call with all that comes of it, in the places that there are.
pub fn perform_call(tables: &mut Tables, call: Call) -> Reply
    requires prepared { IsPrepared tables.old }
    requires resting { IsResting tables.old }
    requires young { tables.old.age < 2 ^ 62 }
    ensures reply { result ≡ run.reply_to call (slots_of tables.old) }
    ensures slots { slots_of tables.new ≡ run.after_call call (slots_of tables.old) }
    ensures resting { IsResting tables.new }
    ensures age { tables.new.age ≡ tables.old.age + 1 }
{
    match call {
        Call::Settle(h, Answer::Ok) => {
            if settle_done(tables, h) {
                Reply::Done
            } else {
                UNSUPPORTED
            }
        }
        _ => perform_uncommon_call(tables, call),
    }
}

/// Performs the first job with all that comes of it, where one is queued, by way of the agenda.
#[inline(never)]
fn perform_uncommon_job(tables: &mut Tables) -> bool
    requires ready { IsReady tables.old }
    requires resting { IsResting tables.old }
    requires young { tables.old.age < 2 ^ 62 }
    ensures worked { result ≡ not (run.is_idle (slots_of tables.old)) }
    ensures slots { slots_of tables.new
        ≡ (if run.is_idle (slots_of tables.old) then slots_of tables.old else run.after_job (slots_of tables.old)) }
    ensures resting { IsResting tables.new }
    ensures age { tables.new.age ≤ tables.old.age + 1 }
{
    if !begin_job(tables) {
        return false;
    }
    perform_effects(tables);
    tables.age += 1;
    true
}

/// Performs the first job with all that comes of it, where one is queued, in the places that there are.
pub fn perform_job(tables: &mut Tables) -> bool
    requires ready { IsReady tables.old }
    requires resting { IsResting tables.old }
    requires young { tables.old.age < 2 ^ 62 }
    ensures worked { result ≡ not (run.is_idle (slots_of tables.old)) }
    ensures slots { slots_of tables.new
        ≡ (if run.is_idle (slots_of tables.old) then slots_of tables.old else run.after_job (slots_of tables.old)) }
    ensures resting { IsResting tables.new }
    ensures age { tables.new.age ≤ tables.old.age + 1 }
{
    if !begin_first(tables) {
        return perform_uncommon_job(tables);
    }
    perform_caused(tables);
    tables.age += 1;
    true
}
