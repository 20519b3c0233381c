//! Streams in which places are to be made.
ghost use Rattle.std.specs.Prelude.{◌≡◌, ◌<◌, true, false, vec_len, vec_capacity};
ghost use Rattle.ws_performing.specs.Performing.{NotesGrowth};

use ws_tables::Tables;
use ws_value::StreamId;

/// Notes a stream one of whose lists has too few places left, so that these are made before the next call or job.
#[inline(always)]
pub(crate) fn note_growth(tables: &mut Tables, i: StreamId, had_room: bool, has_room: bool)
    requires room { had_room ≡ true → has_room ≡ false → vec_len tables.old.grown < vec_capacity tables.old.grown }
    ensures { NotesGrowth i had_room has_room tables.old tables.new }
{
    if had_room && !has_room {
        tables.grown.push_reserved(i);
    }
}
