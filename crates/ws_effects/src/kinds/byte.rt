//! Readable streams with a byte controller.
ghost use Rattle.std.specs.Prelude.{◌≡◌, [], false};
ghost use Rattle.ws_steps.specs.Slots.{has_byte, has_readable};
ghost use Rattle.ws_steps.specs.declared.effects.Effect.TheVariants as effect;
ghost use Rattle.ws_performing.specs.Performing.{HasRoomFor, Performs};
ghost use Rattle.ws_tables.specs.Room.{IsKept};
ghost use Rattle.ws_tables.specs.View.{slots_of};

use super::note_growth;
use ws_steps::{ByteOperation, ReadableOperation};
use ws_tables::{LIST_PLACES, Stream, Tables};
use ws_value::StreamId;

/// Performs an operation that either kind of controller has, where there is a stream of this number with a byte
/// controller.
pub(crate) fn perform_byte_readable(tables: &mut Tables, i: StreamId, operation: ReadableOperation)
    requires bytes { has_readable i (slots_of tables.old) ≡ false }
    requires quiet { tables.old.caused.effects ≡ [] }
    requires room { HasRoomFor (effect.Readable i operation) tables.old }
    requires kept { IsKept tables.old }
    ensures performs { Performs (effect.Readable i operation) tables.old tables.new }
    ensures kept { IsKept tables.new }
{
    if !tables.has_byte(i) {
        return;
    }
    match &mut tables.streams[i.0 as usize] {
        Stream::Bytes(stream) => {
            let had_room = stream.has_room(LIST_PLACES);
            let waited = stream.waiting_requests();
            stream.perform(i, &mut tables.promises, &mut tables.caused, operation);
            tables.waiting = tables.waiting - waited + stream.waiting_requests();
            let has_room = stream.has_room(LIST_PLACES);
            note_growth(tables, i, had_room, has_room);
        }
        Stream::Readable(_) | Stream::Writable(_) => unreachable!(),
    }
}

/// Performs an operation that only a byte controller has, where there is a stream of this number with one.
pub(crate) fn perform_byte(tables: &mut Tables, i: StreamId, operation: ByteOperation)
    requires quiet { tables.old.caused.effects ≡ [] }
    requires room { HasRoomFor (effect.Byte i operation) tables.old }
    requires kept { IsKept tables.old }
    ensures performs { Performs (effect.Byte i operation) tables.old tables.new }
    ensures kept { IsKept tables.new }
{
    if !tables.has_byte(i) {
        return;
    }
    match &mut tables.streams[i.0 as usize] {
        Stream::Bytes(stream) => {
            let had_room = stream.has_room(LIST_PLACES);
            let waited = stream.waiting_requests();
            stream.perform_byte(i, &mut tables.promises, &mut tables.caused, operation);
            tables.waiting = tables.waiting - waited + stream.waiting_requests();
            let has_room = stream.has_room(LIST_PLACES);
            note_growth(tables, i, had_room, has_room);
        }
        Stream::Readable(_) | Stream::Writable(_) => unreachable!(),
    }
}
