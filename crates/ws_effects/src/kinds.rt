//! The kinds of record, a file a kind: the performing of its operations.
ghost use Rattle.std.specs.Prelude.{◌≡◌, ◌<◌, true, false, vec_len, vec_capacity};
ghost use Rattle.ws_performing.specs.Performing.{NotesFull, NotesGrowth};

mod byte;
mod pipe;
mod port;
mod readable;
mod signal;
mod tee;
mod transform;
mod writable;

pub(crate) use byte::{perform_byte, perform_byte_readable};
pub(crate) use pipe::perform_pipe;
pub(crate) use port::perform_port;
pub(crate) use readable::perform_readable;
pub(crate) use signal::perform_signal;
pub(crate) use tee::perform_tee;
pub(crate) use transform::perform_transform;
pub(crate) use writable::perform_writable;
use ws_tables::Tables;
use ws_value::{SignalId, StreamId};

/// Notes a stream one of whose lists has too few places left, or which has no room left to allocate from, so that
/// these are made before the next call or job.
fn note_growth(tables: &mut Tables, i: StreamId, had_room: bool, has_room: bool)
    requires room { had_room ≡ true → has_room ≡ false → vec_len tables.old.grown < vec_capacity tables.old.grown }
    ensures { NotesGrowth i had_room has_room tables.old tables.new }
{
    if had_room && !has_room {
        tables.grown.push_reserved(i);
    }
}

/// Notes a signal whose list has no place left, so that one is made before the next call or job.
fn note_full(tables: &mut Tables, a: SignalId, had_room: bool, has_room: bool)
    requires room { had_room ≡ true → has_room ≡ false → vec_len tables.old.full < vec_capacity tables.old.full }
    ensures { NotesFull a had_room has_room tables.old tables.new }
{
    if had_room && !has_room {
        tables.full.push_reserved(a);
    }
}
