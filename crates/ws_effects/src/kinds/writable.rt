//! Writable streams.
ghost use Rattle.std.specs.Prelude.{◌≡◌, []};
ghost use Rattle.ws_steps.specs.Slots.{has_writable};
ghost use Rattle.ws_steps.specs.declared.effects.Effect.TheVariants as effect;
ghost use Rattle.ws_performing.specs.Performing.{HasRoomFor, Performs};
ghost use Rattle.ws_tables.specs.Room.{IsKept};

use super::note_growth;
use ws_steps::WritableOperation;
use ws_tables::{LIST_PLACES, Stream, Tables};
use ws_value::StreamId;
use ws_writable::Writable;

/// Performs an operation of the writable stream of this number, where there is one.
pub(crate) fn perform_writable(tables: &mut Tables, i: StreamId, operation: &mut WritableOperation)
    requires quiet { tables.old.caused.effects ≡ [] }
    requires room { HasRoomFor (effect.Writable i operation.old) tables.old }
    requires kept { IsKept tables.old }
    ensures performs { Performs (effect.Writable i operation.old) tables.old tables.new }
    ensures kept { IsKept tables.new }
{
    if !tables.has_writable(i) {
        return;
    }
    match &mut tables.streams[i.0 as usize] {
        Stream::Writable(stream) => {
            let had_room = stream.has_room(LIST_PLACES);
            stream.perform(i, &mut tables.promises, &mut tables.caused, operation);
            let has_room = stream.has_room(LIST_PLACES);
            note_growth(tables, i, had_room, has_room);
        }
        Stream::Readable(_) | Stream::Bytes(_) => unreachable!(),
    }
}
