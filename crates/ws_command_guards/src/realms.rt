//! A realm.
ghost use Rattle.std.specs.Prelude.{◌≡◌, ◌+◌, ◌<◌, ◌≤◌, ◌≢◌, ◌↔◌, true, false, not, IsOk, IfOk, OnOk, IfErr, OnErr, Ok, Err, Some, IsErrAnd, if◌then◌else◌};
ghost use Rattle.ws_steps.specs.declared.calls.Answer.TheVariants as answer;
ghost use Rattle.ws_steps.specs.declared.calls.Call.TheVariants as call;
ghost use Rattle.ws_steps.specs.declared.calls.Reply.TheVariants as reply;
ghost use Rattle.ws_steps.specs.declared.calls.Thrown.{Thrown};
ghost use Rattle.ws_steps.specs.Laws.{errs};
ghost use Rattle.ws_steps.specs.Run as run;
ghost use Rattle.ws_realm.specs.Seen.{StopsWithin, oldest};
ghost use Rattle.ws_realm.specs.declared.realm.Why.TheVariants as why;

use ws_realm::{NoRoom, Realm, Why};
use ws_steps::{Call, Event, Reply};
use ws_value::{HostId, StreamId, Value};

/// Performs a call.
pub fn call(realm: &mut Realm, call: Call) -> Result<Reply, NoRoom>
    ensures reply { IfOk result (λ reply. reply ≡ run.reply_to call realm.old.slots) }
    ensures slots { OnOk result (realm.new.slots ≡ run.after_call call realm.old.slots) }
    ensures throws { (t : Thrown) → errs call realm.old.slots ≡ false → result ≡ Ok (reply.Throws t)
        → realm.new.slots ≡ run.older realm.old.slots }
    ensures spent { IsErrAnd result (λ refused. refused.why ≡ why.Spent) ↔ (realm.old.slots.age ≡ oldest) }
    ensures handed_back { IfErr result (λ refused. refused.call ≡ Some call) }
    ensures untouched { OnErr result (realm.new ≡ realm.old) }
    ensures prepared { realm.old.prepared ≡ true → IsOk result }
{
    realm.call(call)
}

/// Enqueues a chunk.
pub fn enqueue(realm: &mut Realm, i: StreamId, chunk: Value) -> Result<bool, Why>
    ensures done { IfOk result (λ done. (done ≡ true) ↔ (run.reply_to (call.Enqueue i chunk) realm.old.slots ≡ reply.Done)) }
    ensures slots { OnOk result (realm.new.slots ≡ run.after_call (call.Enqueue i chunk) realm.old.slots) }
    ensures spent { (result ≡ Err why.Spent) ↔ (realm.old.slots.age ≡ oldest) }
    ensures untouched { OnErr result (realm.new ≡ realm.old) }
    ensures prepared { realm.old.prepared ≡ true → IsOk result }
{
    realm.enqueue(i, chunk)
}

/// A host has done what it was asked.
pub fn settle_done(realm: &mut Realm, h: HostId) -> Result<bool, Why>
    ensures done { IfOk result (λ done. (done ≡ true) ↔ (run.reply_to (call.Settle h answer.Ok) realm.old.slots ≡ reply.Done)) }
    ensures slots { OnOk result (realm.new.slots ≡ run.after_call (call.Settle h answer.Ok) realm.old.slots) }
    ensures spent { (result ≡ Err why.Spent) ↔ (realm.old.slots.age ≡ oldest) }
    ensures alone { IfErr result (λ refused. refused ≡ why.Spent) }
    ensures untouched { OnErr result (realm.new ≡ realm.old) }
{
    realm.settle_done(h)
}

/// Performs the first job.
pub fn job(realm: &mut Realm) -> Result<bool, Why>
    ensures worked { IfOk result (λ worked. worked ≡ not (run.is_idle realm.old.slots)) }
    ensures slots { OnOk result (realm.new.slots
        ≡ (if run.is_idle realm.old.slots then realm.old.slots else run.after_job realm.old.slots)) }
    ensures spent { (result ≡ Err why.Spent) ↔ (realm.old.slots.age ≡ oldest) }
    ensures idle { realm.old.slots.age < oldest → run.is_idle realm.old.slots ≡ true → result ≡ Ok false }
    ensures untouched { OnErr result (realm.new ≡ realm.old) }
    ensures prepared { realm.old.prepared ≡ true → IsOk result }
{
    realm.job()
}

/// Performs jobs until none is queued, or `most` were.
pub fn work(realm: &mut Realm, most: u32) -> Result<(), Why>
    ensures slots { OnOk result (realm.new.slots ≡ run.work most realm.old.slots) }
    ensures partly { OnErr result (StopsWithin most realm.old realm.new) }
    ensures spent { OnErr result ((result ≡ Err why.Spent) ↔ (realm.new.slots.age ≡ oldest)) }
    ensures early { realm.old.slots.age + most ≤ oldest → result ≢ Err why.Spent }
{
    realm.work(most)
}

/// Takes out what the host hears of next.
pub fn next_event(realm: &mut Realm) -> Option<Event>
    ensures event { result ≡ run.first_event realm.old.slots.promises.events }
    ensures slots { realm.new.slots ≡ run.after_event realm.old.slots }
    ensures prepared { realm.new.prepared ≡ realm.old.prepared }
{
    realm.next_event()
}
