//! Promises.
ghost use Rattle.std.specs.Prelude.{◌≡◌, Some, IsSome};
ghost use Rattle.std.specs.Option.{is_some};
ghost use Rattle.ws_promise.specs.Seen.{HasJobRoom, HasPromiseRoom};
ghost use Rattle.ws_steps.specs.Promises as table;
ghost use Rattle.ws_steps.specs.declared.promises.Reaction.TheVariants as reaction;

use ws_promise::Promises;
use ws_steps::Step;
use ws_value::{Outcome, Plain, PromiseId};

/// Makes a pending promise.
pub fn fresh(promises: &mut Promises) -> PromiseId
    requires { HasPromiseRoom 1 promises.old }
    ensures id { result ≡ table.next_id promises.old.table }
    ensures table { promises.new ≡ record promises.old { table = table.fresh promises.old.table } }
{
    promises.fresh()
}

/// Has `step` performed once `p` settles.
pub fn react(promises: &mut Promises, p: PromiseId, step: Step, derived: Option<PromiseId>)
    requires { HasJobRoom 1 promises.old }
    ensures { promises.new
        ≡ record promises.old { table = table.react p (reaction.Perform step derived) promises.old.table } }
{
    promises.react(p, step, derived);
}

/// Resolves `p` with the promise `q`, where it is pending and follows no other; else that went astray.
pub fn follow(promises: &mut Promises, p: PromiseId, q: PromiseId)
    requires { HasJobRoom 1 promises.old }
    ensures { promises.new ≡ record promises.old { table = table.follow p q promises.old.table } }
{
    promises.follow(p, q);
}

/// Fulfils `p` with a value or rejects it with a reason, where it is pending and follows no other; else that went
/// astray.
pub fn settle(promises: &mut Promises, p: PromiseId, outcome: Result<Plain, Plain>)
    ensures { promises.new ≡ record promises.old { table = table.settle p outcome promises.old.table } }
{
    promises.settle(p, outcome);
}

/// How many promises became watched before `p`, where it is watched.
pub fn rank(promises: &Promises, p: PromiseId) -> Option<u64>
    ensures { result ≡ table.rank_at promises.now.table p }
{
    promises.rank(p)
}

/// Whether there is such a promise.
pub fn is_live(promises: &Promises, p: PromiseId) -> bool
    ensures { result ≡ is_some (table.outcome_at promises.now.table p) }
{
    promises.is_live(p)
}

/// The state of a promise that there is, with its result.
pub fn outcome(promises: &Promises, p: PromiseId) -> &Outcome
    requires { IsSome (table.outcome_at promises.now.table p) }
    ensures { table.outcome_at promises.now.table p ≡ Some result.now }
{
    promises.outcome(p)
}
