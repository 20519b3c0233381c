//! Tees.
ghost use Rattle.std.specs.Prelude.{◌≡◌, []};
ghost use Rattle.ws_steps.specs.declared.effects.Effect.TheVariants as effect;
ghost use Rattle.ws_performing.specs.Performing.{HasRoomFor, Performs};
ghost use Rattle.ws_tables.specs.Room.{IsKept};

use ws_steps::TeeOperation;
use ws_tables::Tables;
use ws_value::TeeId;

/// Performs an operation of the tee of this number, where there is one.
pub(crate) fn perform_tee(tables: &mut Tables, t: TeeId, operation: TeeOperation)
    requires quiet { tables.old.caused.effects ≡ [] }
    requires room { HasRoomFor (effect.Tee t operation) tables.old }
    requires kept { IsKept tables.old }
    ensures performs { Performs (effect.Tee t operation) tables.old tables.new }
    ensures kept { IsKept tables.new }
{
    if tables.tees.len() <= t.0 as usize {
        return;
    }
    let tee = &mut tables.tees[t.0 as usize];
    tee.perform(t, &mut tables.promises, &mut tables.caused, operation);
    tables.uncopied |= !tee.can_hand();
}
