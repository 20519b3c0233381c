//! Tees.
ghost use Rattle.std.specs.Prelude.{◌≡◌};
ghost use Rattle.ws_promise.specs.Seen.{HasEffectRoom};
ghost use Rattle.ws_steps.specs.Operations.{tee_operation};
ghost use Rattle.ws_steps.specs.Tee as rows;
ghost use Rattle.ws_tee.specs.Seen.{CanPerform, HasRoomFor, acts_of};

use ws_promise::{Agenda, Promises};
use ws_steps::TeeOperation;
use ws_tee::Tee;
use ws_value::{Plain, TeeId};

/// Performs an operation of the tee.
pub fn perform(tee: &mut Tee, me: TeeId, p: &mut Promises, fx: &mut Agenda, operation: TeeOperation)
    requires copy { CanPerform operation tee.old }
    requires room { HasRoomFor operation p.old }
    requires effect_room { HasEffectRoom 3 fx.old }
    ensures row { acts_of tee.new.slots p.new fx.new
        ≡ tee_operation me operation (acts_of tee.old.slots p.old fx.old) }
    ensures promise_room { p.new.room ≡ p.old.room }
    ensures effect_room { fx.new.capacity ≡ fx.old.capacity }
{
    tee.perform(me, p, fx, operation);
}

/// The reasons of both branches, where both were cancelled.
pub fn pair(tee: &Tee) -> Option<(Plain, Plain)>
    ensures { result ≡ rows.pair tee.now.slots }
{
    tee.pair()
}
