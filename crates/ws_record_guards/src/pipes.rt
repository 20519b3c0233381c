//! Pipes.
ghost use Rattle.std.specs.Prelude.{◌≡◌, ◌≤◌, Option, false, length, true};
ghost use Rattle.ws_pipe.specs.Seen.{HasRoomFor, acts_of, going, is_next, look_of, looks, open_ends};
ghost use Rattle.ws_promise.specs.Seen.{HasEffectRoom, HasPromiseRoom, Seen, SeenAgenda};
ghost use Rattle.ws_steps.specs.Operations.{pipe_operation};
ghost use Rattle.ws_steps.specs.declared.pipes.Ends.{Ends};
ghost use Rattle.ws_steps.specs.declared.pipes.Phase.TheVariants.{Flowing};

use ws_pipe::{Pipe, PipeEnds, PipeLook, PipeNext};
use ws_promise::{Agenda, Promises};
use ws_steps::PipeOperation;
use ws_value::{PipeId, Plain, PromiseId};

/// Performs an operation in which the pipe looks at its two ends.
pub fn perform_with_ends(
    pipe: &mut Pipe,
    me: PipeId,
    ends: &PipeEnds,
    p: &mut Promises,
    fx: &mut Agenda,
    operation: &mut PipeOperation,
)
    requires looking { looks operation.old ≡ true }
    requires room { HasRoomFor operation.old p.old }
    requires counted { pipe.old.unsettled ≤ length p.old.table.entries }
    requires effect_room { HasEffectRoom 5 fx.old }
    ensures row { acts_of pipe.new p.new fx.new
        ≡ pipe_operation me ends.now operation.old (acts_of pipe.old p.old fx.old) }
    ensures counted { pipe.new.unsettled ≤ length p.new.table.entries }
    ensures promise_room { p.new.room ≡ p.old.room }
    ensures effect_room { fx.new.capacity ≡ fx.old.capacity }
{
    pipe.perform_with_ends(me, ends, p, fx, operation);
}

/// Performs an operation in which the pipe doesn't look at its two ends.
pub fn perform_without_ends(
    pipe: &mut Pipe,
    me: PipeId,
    p: &mut Promises,
    fx: &mut Agenda,
    operation: &mut PipeOperation,
)
    requires unlooking { looks operation.old ≡ false }
    requires room { HasRoomFor operation.old p.old }
    requires counted { pipe.old.unsettled ≤ length p.old.table.entries }
    requires effect_room { HasEffectRoom 5 fx.old }
    ensures row { (ends : Ends) → acts_of pipe.new p.new fx.new
        ≡ pipe_operation me ends operation.old (acts_of pipe.old p.old fx.old) }
    ensures counted { pipe.new.unsettled ≤ length p.new.table.entries }
    ensures promise_room { p.new.room ≡ p.old.room }
    ensures effect_room { fx.new.capacity ≡ fx.old.capacity }
{
    pipe.perform_without_ends(me, p, fx, operation);
}

/// Performs an operation in which the pipe looks at its two ends: what it does next. What else there is to do is
/// caused.
pub fn look_directly(
    pipe: &mut Pipe,
    me: PipeId,
    ends: &PipeEnds,
    p: &mut Promises,
    fx: &mut Agenda,
    look: PipeLook,
) -> PipeNext
    requires promise_room { HasPromiseRoom 3 p.old }
    requires effect_room { HasEffectRoom 5 fx.old }
    ensures row { pipe_operation me ends.now (look_of look) (acts_of pipe.old p.old fx.old)
        ≡ going me result (acts_of pipe.new p.new fx.new) }
    ensures quiet { is_next result ≡ true → fx.new ≡ fx.old }
    ensures promise_room { p.new.room ≡ p.old.room }
    ensures effect_room { fx.new.capacity ≡ fx.old.capacity }
{
    pipe.look_directly(me, ends, p, fx, look)
}

/// Looks at two ends that go on, where the pipe is flowing: what it does next.
pub fn look_between(
    pipe: &mut Pipe,
    look: PipeLook,
    wants: bool,
    ready: Option<PromiseId>,
) -> PipeNext
    requires flowing { pipe.old.phase ≡ Flowing }
    ensures row { (me : PipeId) (source_error dest_error : Plain) (abort : Option PromiseId) (p : Seen) (fx : SeenAgenda)
        → pipe_operation me (open_ends source_error dest_error wants ready abort) (look_of look) (acts_of pipe.old p fx)
        ≡ going me result (acts_of pipe.new p fx) }
{
    pipe.look_between(look, wants, ready)
}
