//! Signals that abort pipes.
ghost use Rattle.std.specs.Prelude.{◌≡◌, []};
ghost use Rattle.ws_steps.specs.declared.effects.Effect.TheVariants as effect;
ghost use Rattle.ws_performing.specs.Performing.{HasRoomFor, Performs};
ghost use Rattle.ws_tables.specs.Room.{IsKept};

use super::note_full;
use ws_steps::SignalOperation;
use ws_tables::Tables;
use ws_value::SignalId;

/// Performs an operation of the signal of this number, where there is one.
#[inline(never)]
pub(crate) fn perform_signal(tables: &mut Tables, a: SignalId, operation: &SignalOperation)
    requires quiet { tables.old.caused.effects ≡ [] }
    requires room { HasRoomFor (effect.Signal a operation.now) tables.old }
    requires kept { IsKept tables.old }
    ensures performs { Performs (effect.Signal a operation.now) tables.old tables.new }
    ensures kept { IsKept tables.new }
{
    if tables.signals.len() as u128 <= a.0 {
        return;
    }
    let signal = &mut tables.signals[a.0 as usize];
    let had_room = signal.has_room();
    let aborted = signal.aborts();
    signal.perform(&mut tables.caused, *operation);
    tables.aborts = tables.aborts - aborted + signal.aborts();
    let has_room = signal.has_room();
    note_full(tables, a, had_room, has_room);
}
