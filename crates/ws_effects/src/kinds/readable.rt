//! Readable streams with a default controller.
ghost use Rattle.std.specs.Prelude.{◌≡◌, []};
ghost use Rattle.ws_steps.specs.Slots.{has_readable};
ghost use Rattle.ws_steps.specs.declared.effects.Effect.TheVariants as effect;
ghost use Rattle.ws_performing.specs.Performing.{HasRoomFor, Performs};
ghost use Rattle.ws_tables.specs.Room.{IsKept};

use super::{note_growth, perform_byte_readable};
use std::mem::replace;
use ws_readable::Readable;
use ws_steps::ReadableOperation;
use ws_tables::{LIST_PLACES, Stream, Tables};
use ws_value::StreamId;

/// Performs an operation of the readable stream of this number, where there is one, whichever its controller is.
pub(crate) fn perform_readable(tables: &mut Tables, i: StreamId, operation: &mut ReadableOperation)
    requires quiet { tables.old.caused.effects ≡ [] }
    requires room { HasRoomFor (effect.Readable i operation.old) tables.old }
    requires kept { IsKept tables.old }
    ensures performs { Performs (effect.Readable i operation.old) tables.old tables.new }
    ensures kept { IsKept tables.new }
{
    if !tables.has_readable(i) {
        let operation = replace(operation, ReadableOperation::Close);
        return perform_byte_readable(tables, i, operation);
    }
    match &mut tables.streams[i.0 as usize] {
        Stream::Readable(stream) => {
            let had_room = stream.has_room(LIST_PLACES);
            let waited = stream.waiting_requests();
            stream.perform(i, &mut tables.promises, &mut tables.caused, operation);
            tables.waiting = tables.waiting - waited + stream.waiting_requests();
            let has_room = stream.has_room(LIST_PLACES);
            note_growth(tables, i, had_room, has_room);
        }
        Stream::Bytes(_) | Stream::Writable(_) => unreachable!(),
    }
}
