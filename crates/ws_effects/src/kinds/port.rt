//! Message ports.
ghost use Rattle.std.specs.Prelude.{◌≡◌, []};
ghost use Rattle.ws_steps.specs.Cross.{clones_first};
ghost use Rattle.ws_steps.specs.Queues.{first_value};
ghost use Rattle.ws_steps.specs.Slots.{writable_at};
ghost use Rattle.ws_steps.specs.declared.effects.Effect.TheVariants as effect;
ghost use Rattle.ws_performing.specs.Performing.{HasRoomFor, Performs};
ghost use Rattle.ws_tables.specs.Room.{KeepsRecords};
ghost use Rattle.ws_tables.specs.View.{slots_of};

use ws_steps::PortOperation;
use ws_tables::{Stream, Tables};
use ws_value::{PortId, StreamId};

/// Whether the chunk that is first in the queue of a writable stream can be sent; where there is none, nothing can
/// fail.
fn first_clones(tables: &Tables, i: StreamId) -> bool
    ensures { result ≡ clones_first (first_value (writable_at i (slots_of tables.now)).queue) }
{
    match tables.streams.get(i.0 as usize) {
        Some(Stream::Writable(stream)) => stream.first_clones(),
        Some(Stream::Readable(_) | Stream::Bytes(_)) | None => true,
    }
}

/// Performs an operation of the port of this number, where there is one.
pub(crate) fn perform_port(tables: &mut Tables, c: PortId, operation: PortOperation)
    requires quiet { tables.old.caused.effects ≡ [] }
    requires room { HasRoomFor (effect.Port c operation) tables.old }
    ensures performs { Performs (effect.Port c operation) tables.old tables.new }
    ensures records { KeepsRecords tables.old tables.new }
{
    if tables.ports.len() as u128 <= c.0 {
        return;
    }
    let stream = tables.ports[c.0 as usize].stream();
    let clones = first_clones(tables, stream);
    tables.ports[c.0 as usize].perform(
        c,
        clones,
        &mut tables.promises,
        &mut tables.caused,
        operation,
    );
}
