//! A host's answer that what it was asked is done, with which each of its algorithms that a chunk meets ends.
ghost use Rattle.std.specs.Prelude.{ℕ, ◌≡◌, ◌↔◌, ◌<◌, ◌+◌, ◌^◌, true, false};
ghost use Rattle.ws_steps.specs.Run as run;
ghost use Rattle.ws_steps.specs.declared.calls.Answer.TheVariants as answer;
ghost use Rattle.ws_steps.specs.declared.calls.Call.TheVariants as call;
ghost use Rattle.ws_steps.specs.declared.calls.Reply.TheVariants.{Done, Throws};
ghost use Rattle.ws_steps.specs.declared.calls.Thrown.TheVariants.{Unsupported};
ghost use Rattle.ws_tables.specs.Room.{IsResting};
ghost use Rattle.ws_tables.specs.View.{slots_of};
ghost use Rattle.ws_calls.specs.Credit.{HasPlacesFor};

use ws_tables::Tables;
use ws_value::{HostId, Plain};

/// Performs the call whole: the promise of a call of the host is fulfilled with undefined, and nothing more comes of
/// that. False says that no call of the host with this number waits for an answer, and then the reply throws.
pub fn settle_done(tables: &mut Tables, h: HostId) -> bool
    requires resting { IsResting tables.old }
    requires young { tables.old.age < 2 ^ 62 }
    ensures done { (result ≡ true) ↔ (run.reply_to (call.Settle h answer.Ok) (slots_of tables.old) ≡ Done) }
    ensures none { result ≡ false → run.reply_to (call.Settle h answer.Ok) (slots_of tables.old) ≡ Throws Unsupported }
    ensures slots { slots_of tables.new ≡ run.after_call (call.Settle h answer.Ok) (slots_of tables.old) }
    ensures resting { IsResting tables.new }
    ensures age { tables.new.age ≡ tables.old.age + 1 }
    ensures places { (n : ℕ) → HasPlacesFor n tables.old → HasPlacesFor n tables.new }
{
    tables.age += 1;
    let Some(promise) = tables.host(h) else {
        return false;
    };
    let _hosts = tables.hosts.len();
    tables.hosts.settle(h.0 as usize);
    tables.promises.fulfil(promise, Plain::Undefined);
    true
}
