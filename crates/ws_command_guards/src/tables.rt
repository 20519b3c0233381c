//! The tables of a realm.
ghost use Rattle.std.specs.Prelude.{◌≡◌, []};
ghost use Rattle.ws_alike.specs.Alike.{trim};
ghost use Rattle.ws_tables.specs.Room.{CanTurn, HasRoomForAll, IsKept};
ghost use Rattle.ws_tables.specs.View.{slots_of};
ghost use Rattle.ws_performing.specs.Performing.{PerformsAll};

use ws_tables::Tables;

/// Performs the effects that were caused.
pub fn perform_effects(tables: &mut Tables)
    requires others { tables.old.others.items ≡ [] }
    requires turns { CanTurn tables.old.caused.effects tables.old.under_way tables.old }
    requires room { HasRoomForAll tables.old.caused.effects tables.old }
    requires kept { IsKept tables.old }
    ensures { PerformsAll tables.old tables.new }
{
    ws_effects::perform_effects(tables);
}

/// Releases each promise that isn't needed.
pub fn tidy(tables: &mut Tables)
    ensures { tables.new ≡ record tables.old {
      promises = record tables.old.promises { table = (trim (slots_of tables.old)).promises };
    } }
{
    tables.tidy();
}
