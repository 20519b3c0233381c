//! The performing of effects: the first, then what it caused, then the others.
ghost use Rattle.std.specs.Prelude.{◌≡◌, ◌≤◌, ◌<◌, ◌+◌, ◌++◌, [], reverse, true, false, vec_len, vec_capacity};
ghost use Rattle.ws_performing.specs.Performing.{CanPutFirst, FindsNone, KeepsLeast, PerformsAll, TakesFirst, TakesOut};
ghost use Rattle.ws_tables.specs.Room.{CanTurn, HasRoomForAll, IsKept};

use crate::effects::perform_at;
use std::mem::replace;
use ws_steps::Effect;
use ws_tables::Tables;

/// Puts all effects but the first before those that wait.
fn put_others(effects: &mut Vec<Effect>, others: &mut Vec<Effect>)
    requires some { 0 < vec_len effects.old }
    requires room { vec_len others.old + vec_len effects.old ≤ vec_capacity others.old }
    ensures alone { vec_len effects.new ≡ 1 }
    ensures order { effects.new.items ++ reverse others.new.items ≡ effects.old.items ++ reverse others.old.items }
    ensures places { vec_capacity effects.new ≡ vec_capacity effects.old }
    ensures others { vec_capacity others.new ≡ vec_capacity others.old }
{
    while effects.len() > 1 {
        if let Some(effect) = effects.pop() {
            others.push_reserved(effect);
        }
    }
}

/// Drops what is left of the effect that was performed.
fn drop_performed(under_way: &mut Vec<Effect>)
    ensures empty { under_way.new.items ≡ [] }
    ensures places { vec_capacity under_way.new ≡ vec_capacity under_way.old }
{
    under_way.clear();
}

/// Takes out the first effect that was caused, and puts the others that were before those that wait; where none
/// was caused it takes the first that waits. What was caused changes places with the list for the effect under
/// way, for a copy of an effect costs much.
#[inline(always)]
fn next_effect(tables: &mut Tables, under_way: &mut Vec<Effect>) -> bool
    requires room { CanPutFirst tables.old }
    requires empty { under_way.old.items ≡ [] }
    requires place { 0 < vec_capacity under_way.old }
    ensures found { result ≡ true → TakesFirst tables.old tables.new under_way.new }
    ensures none { result ≡ false → FindsNone tables.old tables.new under_way.new }
    ensures rest { TakesOut tables.old tables.new }
    ensures places { KeepsLeast tables.old.caused.capacity (vec_capacity under_way.old) tables.new.caused.capacity (vec_capacity under_way.new) }
{
    if tables.caused.len() == 0 {
        let Some(effect) = tables.others.pop() else {
            return false;
        };
        under_way.push_reserved(effect);
        return true;
    }
    tables.caused.swap(under_way);
    put_others(under_way, &mut tables.others);
    true
}

/// Performs the effects that were caused, with all that comes of them, in the places that there are.
pub fn perform_effects(tables: &mut Tables)
    requires others { tables.old.others.items ≡ [] }
    requires turns { CanTurn tables.old.caused.effects tables.old.under_way tables.old }
    requires room { HasRoomForAll tables.old.caused.effects tables.old }
    requires kept { IsKept tables.old }
    ensures { PerformsAll tables.old tables.new }
{
    let mut under_way = replace(&mut tables.under_way, Vec::new(tables.alloc));
    while next_effect(tables, &mut under_way) {
        perform_at(tables, &mut under_way[0]);
        drop_performed(&mut under_way);
    }
    tables.under_way = under_way;
}
