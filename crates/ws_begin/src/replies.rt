//! Replies that many calls give.
ghost use Rattle.std.specs.Prelude.{◌≡◌};
ghost use Rattle.ws_steps.specs.Begun as replying;
ghost use Rattle.ws_steps.specs.ControllerCalls as controller_calls;
ghost use Rattle.ws_tables.specs.View.{slots_of};
ghost use Rattle.ws_begin.specs.Begin.{Answers, CanBegin};

use ws_steps::{Effect, Reply, Thrown};
use ws_tables::Tables;
use ws_value::{Fault, Plain};

/// What is answered where nothing has the number that a call asks, or what has it isn't of the kind that can be asked.
pub const UNSUPPORTED: Reply = Reply::Throws(Thrown::Unsupported);

pub(crate) const TYPE_ERROR: Reply = Reply::Throws(Thrown::TypeError);

pub(crate) const DATA_CLONE: Reply = Reply::Throws(Thrown::DataClone);

/// What a call throws that an operation of a byte controller lets throw.
pub(crate) fn thrown_by(fault: Fault) -> Reply
    ensures { result ≡ controller_calls.thrown_by fault }
{
    match fault {
        Fault::RangeError => Reply::Throws(Thrown::RangeError),
        _ => TYPE_ERROR,
    }
}

/// Answers a promise that is rejected with this fault.
pub(crate) fn rejected_with(tables: &mut Tables, fault: Fault) -> Reply
    requires ready { CanBegin tables.old }
    ensures { Answers (replying.rejected_with fault (slots_of tables.old)) result tables.old tables.new }
{
    let promise = tables.promises.fresh();
    let reason = Plain::Fault(fault);
    tables.caused.push(Effect::Settle(promise, Err(reason)));
    Reply::Promise(promise)
}

/// Answers a promise that is rejected with a TypeError.
pub(crate) fn rejected(tables: &mut Tables) -> Reply
    requires ready { CanBegin tables.old }
    ensures { Answers (replying.rejected (slots_of tables.old)) result tables.old tables.new }
{
    rejected_with(tables, Fault::TypeError)
}
