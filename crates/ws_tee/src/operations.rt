//! The operations of a tee by their names.
ghost use Rattle.std.specs.Prelude.{◌≡◌};
ghost use Rattle.ws_promise.specs.Seen.{HasEffectRoom};
ghost use Rattle.ws_steps.specs.Operations.{tee_operation};
ghost use Rattle.ws_tee.specs.Seen.{CanPerform, HasRoomFor, acts_of};

use crate::Tee;
use ws_promise::{Agenda, Promises};
use ws_steps::TeeOperation;
use ws_value::TeeId;

impl Tee {
    /// Performs an operation of the tee, whose number is `me`.
    pub fn perform(&mut self, me: TeeId, p: &mut Promises, fx: &mut Agenda, operation: TeeOperation)
        requires copy { CanPerform operation self.old }
        requires room { HasRoomFor operation p.old }
        requires effect_room { HasEffectRoom 3 fx.old }
        ensures row { acts_of self.new.slots p.new fx.new
            ≡ tee_operation me operation (acts_of self.old.slots p.old fx.old) }
        ensures promise_room { p.new.room ≡ p.old.room }
        ensures effect_room { fx.new.capacity ≡ fx.old.capacity }
    {
        match operation {
            TeeOperation::PullBranch => self.pull_branch(me, fx),
            TeeOperation::KeepChunk(chunk) => self.keep_chunk(me, p, chunk),
            TeeOperation::SourceClosed => self.source_closed(fx),
            TeeOperation::SourceErrored => self.source_errored(),
            TeeOperation::HandChunk => self.hand_chunk(me, fx),
            TeeOperation::Handed => self.handed(me, fx),
            TeeOperation::CancelBranch(half, reason, u) => {
                self.cancel_branch(me, p, fx, half, reason, u)
            }
            TeeOperation::ReaderSettled(outcome) => self.reader_settled(fx, outcome),
        }
    }
}
