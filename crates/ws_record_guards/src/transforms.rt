//! Transform streams.
ghost use Rattle.std.specs.Prelude.{◌≡◌, false, true};
ghost use Rattle.ws_promise.specs.Seen.{HasEffectRoom};
ghost use Rattle.ws_steps.specs.Operations.{transform_operation};
ghost use Rattle.ws_steps.specs.declared.transform.Halves.{Halves};
ghost use Rattle.ws_transform.specs.Seen.{HasRoomFor, acts_of, looks};

use ws_promise::{Agenda, Promises};
use ws_steps::{TransformId, TransformOperation};
use ws_transform::{Transform, TransformHalves};

/// Performs an operation in which the transform stream looks at its two halves.
pub fn perform_with_halves(
    stream: &mut Transform,
    me: TransformId,
    halves: &TransformHalves,
    p: &mut Promises,
    fx: &mut Agenda,
    operation: &mut TransformOperation,
)
    requires looking { looks operation.old ≡ true }
    requires room { HasRoomFor operation.old p.old }
    requires effect_room { HasEffectRoom 3 fx.old }
    ensures row { acts_of stream.new p.new fx.new
        ≡ transform_operation me halves.now operation.old (acts_of stream.old p.old fx.old) }
    ensures promise_room { p.new.room ≡ p.old.room }
    ensures effect_room { fx.new.capacity ≡ fx.old.capacity }
{
    stream.perform_with_halves(me, halves, p, fx, operation);
}

/// Performs an operation in which the transform stream doesn't look at its two halves.
pub fn perform_without_halves(
    stream: &mut Transform,
    me: TransformId,
    p: &mut Promises,
    fx: &mut Agenda,
    operation: &mut TransformOperation,
)
    requires unlooking { looks operation.old ≡ false }
    requires room { HasRoomFor operation.old p.old }
    requires effect_room { HasEffectRoom 3 fx.old }
    ensures row { (halves : Halves) → acts_of stream.new p.new fx.new
        ≡ transform_operation me halves operation.old (acts_of stream.old p.old fx.old) }
    ensures promise_room { p.new.room ≡ p.old.room }
    ensures effect_room { fx.new.capacity ≡ fx.old.capacity }
{
    stream.perform_without_halves(me, p, fx, operation);
}
