//! Pipes.
ghost use Rattle.std.specs.Prelude.{◌≡◌, ◌<◌, [], length, true};
ghost use Rattle.ws_pipe.specs.Seen.{looks};
ghost use Rattle.ws_steps.specs.declared.effects.Effect.TheVariants as effect;
ghost use Rattle.ws_performing.specs.Performing.{HasRoomFor, Performs};
ghost use Rattle.ws_tables.specs.Room.{IsKept};

use ws_performing::pipe_ends;
use ws_pipe::looks_at_ends;
use ws_steps::PipeOperation;
use ws_tables::Tables;
use ws_value::PipeId;

/// Performs an operation in which the pipe looks at its two ends, apart, so that the others have no locals for
/// them.
fn perform_looking_pipe(tables: &mut Tables, p: PipeId, operation: &mut PipeOperation)
    requires quiet { tables.old.caused.effects ≡ [] }
    requires room { HasRoomFor (effect.Pipe p operation.old) tables.old }
    requires kept { IsKept tables.old }
    requires looking { looks operation.old ≡ true }
    requires there { p.0 < length tables.old.pipes.items }
    ensures performs { Performs (effect.Pipe p operation.old) tables.old tables.new }
    ensures kept { IsKept tables.new }
{
    let pipe = &tables.pipes[p.0 as usize];
    let ends = pipe_ends(&tables.streams, pipe.source(), pipe.dest());
    tables.pipes[p.0 as usize].perform_with_ends(
        p,
        &ends,
        &mut tables.promises,
        &mut tables.caused,
        operation,
    );
}

/// Performs an operation of the pipe of this number, where there is one.
pub(crate) fn perform_pipe(tables: &mut Tables, p: PipeId, operation: &mut PipeOperation)
    requires quiet { tables.old.caused.effects ≡ [] }
    requires room { HasRoomFor (effect.Pipe p operation.old) tables.old }
    requires kept { IsKept tables.old }
    ensures performs { Performs (effect.Pipe p operation.old) tables.old tables.new }
    ensures kept { IsKept tables.new }
{
    if tables.pipes.len() as u128 <= p.0 {
        return;
    }
    if looks_at_ends(operation) {
        perform_looking_pipe(tables, p, operation);
        return;
    }
    tables.pipes[p.0 as usize].perform_without_ends(
        p,
        &mut tables.promises,
        &mut tables.caused,
        operation,
    );
}
