//! The making of tees.
ghost use Rattle.ws_begin.specs.Begin.{Answers, CanBegin, CanMake};
ghost use Rattle.ws_steps.specs.MakingCalls as making_calls;
ghost use Rattle.ws_steps.specs.Calls as calls;
ghost use Rattle.ws_steps.specs.declared.calls.Call.TheVariants as call;
ghost use Rattle.ws_tables.specs.View.{slots_of};

use crate::replies::{TYPE_ERROR, UNSUPPORTED};
use crate::streams::MOST_STREAMS;
use ws_readable::Readable;
use ws_steps::{
    Effect, Gift, Half, Lock, Owner, ReadableOperation, Reply, SizeBy, StartBy, Step, Use,
};
use ws_tables::{Stream, Tables};
use ws_tee::Tee;
use ws_value::{StreamId, TeeId};

/// ReadableStreamDefaultTee: a reader of the tee's own takes the stream, and two branches start.
#[tactic(auto, using(ws_tables::proofs::Places::fresh_length))]
fn make_tee(tables: &mut Tables, source: StreamId) -> Reply
    requires ready { CanBegin tables.old }
    requires room { CanMake tables.old }
    ensures { Answers (making_calls.make_two (making_calls.make_tee source) (slots_of tables.old)) result tables.old tables.new }
{
    if tables.streams.len() + 1 >= MOST_STREAMS {
        return Reply::TooMany;
    }
    let me = TeeId(tables.tees.len() as u32);
    let i = StreamId(tables.streams.len() as u32);
    let j = StreamId(tables.streams.len() as u32 + 1);
    let closed = tables.promises.fresh();
    let cancelled = tables.promises.fresh();
    tables
        .tees
        .push_reserved(Tee::set_up(source, i, j, cancelled));
    tables.uncopied = true;
    let first = Owner::BranchOf(me, Half::First);
    let branch1 = Readable::make(tables.alloc, first, 1, SizeBy::Count);
    tables.streams.push_reserved(Stream::Readable(branch1));
    let second = Owner::BranchOf(me, Half::Second);
    let branch2 = Readable::make(tables.alloc, second, 1, SizeBy::Count);
    tables.streams.push_reserved(Stream::Readable(branch2));
    tables.grown.push_reserved(i);
    tables.grown.push_reserved(j);
    tables.locks.push_reserved(Lock::Inner);
    let initialize = ReadableOperation::InitializeReader(closed);
    tables.caused.push(Effect::Readable(source, initialize));
    tables.caused.push(Effect::StartAlgorithm(i, Step::ReadableStart(i), StartBy::Now));
    tables.caused.push(Effect::StartAlgorithm(j, Step::ReadableStart(j), StartBy::Now));
    let ends = Use::React(Step::TeeEnds(me), None);
    tables.caused.push(Effect::Give(Gift::This(closed), ends));
    Reply::MadeTwo(i, j)
}

/// `stream.tee()`. A stream that a tee reads is locked for good; that it has no tee is asked once more, so that a
/// realm's memory can be counted by its tables alone.
#[tactic(auto, unfolding(ws_steps::specs::Calls::begin))]
pub(crate) fn tee(tables: &mut Tables, i: StreamId) -> Reply
    requires ready { CanBegin tables.old }
    requires room { CanMake tables.old }
    ensures { Answers (calls.begin (call.Tee i) (slots_of tables.old)) result tables.old tables.new }
{
    if !tables.has_source(i) {
        return UNSUPPORTED;
    }
    if tables.is_source_locked(i) {
        return TYPE_ERROR;
    }
    if tables.has_byte(i) {
        return UNSUPPORTED;
    }
    if tables.is_teed(i) {
        return TYPE_ERROR;
    }
    make_tee(tables, i)
}
