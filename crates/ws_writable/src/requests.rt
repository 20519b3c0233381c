//! What is done with single promises, and with all write requests.
ghost use Rattle.std.specs.Prelude.{◌≡◌, [], length};
ghost use Rattle.std.specs.VecDeque.{deque_capacity};
ghost use Rattle.ws_promise.specs.Seen.{HasPromiseRoom};
ghost use Rattle.ws_steps.specs.Writable as rows;

use std::collections::VecDeque;
use ws_promise::Promises;
use ws_value::{Plain, PromiseId};

/// Settles a promise where there is one. It makes none.
#[tactic(auto, using(crate::proofs::Lengths::settle_length))]
pub fn settle_request(p: &mut Promises, outcome: Result<Plain, Plain>, request: Option<PromiseId>)
    ensures table { p.new ≡ record p.old { table = rows.settle_request outcome p.old.table request } }
    ensures made { length p.new.table.entries ≡ length p.old.table.entries }
{
    if let Some(promise) = request {
        p.settle(promise, outcome);
    }
}

/// Settles a promise where it is pending.
#[tactic(auto, unfolding(ws_steps::specs::Writable::settle_pending))]
pub fn settle_pending(p: &mut Promises, promise: PromiseId, outcome: Result<Plain, Plain>)
    ensures { p.new ≡ record p.old { table = rows.settle_pending promise outcome p.old.table } }
{
    if p.is_pending(promise) {
        p.settle(promise, outcome);
    }
}

/// WritableStreamDefaultWriterEnsureReadyPromiseRejected: where the promise is pending, it is rejected, and else it
/// becomes a new one that is rejected. The answer is the promise from then on.
#[tactic(auto, unfolding(ws_steps::specs::Writable::ensure_rejected))]
pub fn ensure_rejected(p: &mut Promises, promise: PromiseId, r: Plain) -> PromiseId
    requires promise_room { HasPromiseRoom 1 p.old }
    ensures id { result ≡ rows.rejected_promise promise p.old.table }
    ensures table { p.new ≡ record p.old { table = rows.ensure_rejected promise r p.old.table } }
{
    if p.is_pending(promise) {
        p.reject(promise, r);
        promise
    } else {
        let promise = p.fresh();
        p.reject(promise, r);
        promise
    }
}

/// Takes all requests and rejects them, in order.
pub fn reject_all(requests: &mut VecDeque<PromiseId>, p: &mut Promises, e: Plain)
    ensures table { p.new ≡ record p.old { table = rows.reject_all e requests.old.items p.old.table } }
    ensures emptied { requests.new.items ≡ [] }
    ensures capacity { deque_capacity requests.new ≡ deque_capacity requests.old }
{
    while let Some(request) = requests.pop_front() {
        p.reject(request, e);
    }
}
