//! Transform streams.
ghost use Rattle.std.specs.Prelude.{◌≡◌, ◌<◌, [], length, true};
ghost use Rattle.ws_steps.specs.declared.effects.Effect.TheVariants as effect;
ghost use Rattle.ws_performing.specs.Performing.{HasRoomFor, Performs};
ghost use Rattle.ws_tables.specs.Room.{KeepsRecords};
ghost use Rattle.ws_transform.specs.Seen.{looks};

use ws_performing::transform_halves;
use ws_steps::{TransformId, TransformOperation};
use ws_tables::Tables;
use ws_transform::looks_at_halves;

/// Performs an operation in which the transform stream looks at its two halves, apart, so that the others have no
/// locals for them.
fn perform_looking_transform(
    tables: &mut Tables,
    t: TransformId,
    operation: &mut TransformOperation,
)
    requires quiet { tables.old.caused.effects ≡ [] }
    requires room { HasRoomFor (effect.Transform t operation.old) tables.old }
    requires looking { looks operation.old ≡ true }
    requires there { t.0 < length tables.old.transforms.items }
    ensures performs { Performs (effect.Transform t operation.old) tables.old tables.new }
    ensures records { KeepsRecords tables.old tables.new }
{
    let transform = &tables.transforms[t.0 as usize];
    let halves = transform_halves(&tables.streams, transform.readable(), transform.writable());
    tables.transforms[t.0 as usize].perform_with_halves(
        t,
        &halves,
        &mut tables.promises,
        &mut tables.caused,
        operation,
    );
}

/// Performs an operation of the transform stream of this number, where there is one.
pub(crate) fn perform_transform(
    tables: &mut Tables,
    t: TransformId,
    operation: &mut TransformOperation,
)
    requires quiet { tables.old.caused.effects ≡ [] }
    requires room { HasRoomFor (effect.Transform t operation.old) tables.old }
    ensures performs { Performs (effect.Transform t operation.old) tables.old tables.new }
    ensures records { KeepsRecords tables.old tables.new }
{
    if tables.transforms.len() <= t.0 as usize {
        return;
    }
    if looks_at_halves(operation) {
        perform_looking_transform(tables, t, operation);
        return;
    }
    tables.transforms[t.0 as usize].perform_without_halves(
        t,
        &mut tables.promises,
        &mut tables.caused,
        operation,
    );
}
