//! Jobs and enqueuings that each chunk meets, in places that were found for several at once: so they aren't looked for
//! before each.
ghost use Rattle.std.specs.Prelude.{◌≡◌, ◌<◌, ◌≤◌, ◌+◌, ◌^◌, ℕ, [], true, false, vec_capacity, vec_len, IfNone, IfSome, IfOk, IfErr, OnErr};
ghost use Rattle.ws_steps.specs.Run as run;
ghost use Rattle.ws_steps.specs.declared.calls.Call.TheVariants as call;
ghost use Rattle.ws_steps.specs.declared.calls.Reply.TheVariants.{Done};
ghost use Rattle.ws_begin.specs.Begin.{IsBegun};
ghost use Rattle.ws_performing.specs.Performing.{PerformsAll};
ghost use Rattle.ws_tables.specs.Room.{IsResting};
ghost use Rattle.ws_tables.specs.View.{slots_of};
ghost use Rattle.ws_calls.specs.Credit.{HasPlacesFor, IsAtHand, AreFound};

use crate::first::begin_first;
use crate::perform::half_of;
use ws_direct::enqueue;
use ws_effects::perform_effects;
use ws_tables::Tables;
use ws_value::{StreamId, Value};

/// For how many jobs places are looked for at once.
const MOST: u32 = 16;

/// Up to so many read requests are reckoned with.
const FEW: usize = 0x7fff_ffff;

/// Whether no stream and no signal waits for places, none would abort a pipe, and there is no tee.
#[inline]
fn is_plain(tables: &Tables) -> bool
    ensures waiting { result ≡ true → tables.now.waiting ≤ 2147483647 }
    ensures aborts { result ≡ true → tables.now.aborts ≡ 0 }
    ensures full { result ≡ true → vec_len tables.now.full ≡ 0 }
    ensures at_hand { result ≡ true → IsAtHand tables.now }
{
    if tables.waiting > FEW || tables.aborts != 0 || tables.full.len() != 0 {
        return false;
    }
    is_at_hand(tables)
}

/// Whether there are places for `n` effects.
#[inline]
fn has_turns(tables: &Tables, n: usize) -> bool
    ensures caused { result ≡ true → n ≤ tables.now.caused.capacity }
    ensures others { result ≡ true → n ≤ vec_capacity tables.now.others }
    ensures under_way { result ≡ true → n ≤ vec_capacity tables.now.under_way }
{
    n <= tables.caused.capacity()
        && n <= tables.others.capacity()
        && n <= tables.under_way.capacity()
}

/// Whether there are places for `n` jobs.
fn has_places(tables: &Tables, n: u32) -> bool
    requires few { n ≤ 16 }
    requires resting { IsResting tables.now }
    ensures { result ≡ true → HasPlacesFor n tables.now }
{
    if !is_plain(tables) {
        return false;
    }
    let n = n as usize;
    if !has_turns(tables, n * 28 + tables.waiting + tables.waiting + 6) {
        return false;
    }
    if !tables
        .promises
        .has_room(n * 14 + 1, n * 14 + tables.waiting)
    {
        return false;
    }
    if tables.hosts.capacity() - tables.hosts.len() < n * 7 {
        return false;
    }
    true
}

/// For how many jobs places were found: where there aren't as many as are looked for, none.
pub fn count_places(tables: &Tables) -> u32
    requires resting { IsResting tables.now }
    ensures { AreFound result tables.now }
{
    if has_places(tables, MOST) { MOST } else { 0 }
}

/// Whether no stream waits for places in its lists, and there is no tee.
#[inline(always)]
fn is_at_hand(tables: &Tables) -> bool
    ensures { result ≡ true → IsAtHand tables.now }
{
    tables.grown.len() == 0 && tables.grown.capacity() >= 6 && tables.tees.len() == 0
}

/// Performs what was caused, with all that comes of it: mostly that is nothing, and then one job fewer has places.
#[inline(always)]
fn finish(tables: &mut Tables, places: u32) -> u32
    requires begun { IsBegun tables.old }
    requires some { 0 < places }
    ensures all { PerformsAll tables.old tables.new }
    ensures found { (tables.old.caused.effects ≡ [] → (n : ℕ) → n + 1 ≡ places → HasPlacesFor n tables.old)
        → AreFound result tables.new }
{
    if tables.caused.len() == 0 {
        return places - 1;
    }
    perform_effects(tables);
    0
}

/// Performs the first job with all that comes of it, where it is one that each chunk meets and there are places for
/// it. How many more jobs there are places for then. None says that nothing was done.
pub fn perform_at_hand(tables: &mut Tables, places: u32) -> Option<u32>
    requires found { AreFound places tables.old }
    requires resting { IsResting tables.old }
    requires young { tables.old.age < 2 ^ 62 }
    ensures busy { IfSome result (λ left. run.is_idle (slots_of tables.old) ≡ false) }
    ensures slots { IfSome result (λ left. slots_of tables.new ≡ run.after_job (slots_of tables.old)) }
    ensures found { IfSome result (λ left. AreFound left tables.new) }
    ensures resting { IsResting tables.new }
    ensures age { tables.new.age ≤ tables.old.age + 1 }
    ensures untouched { IfNone result (tables.new ≡ tables.old) }
{
    if places == 0 {
        return None;
    }
    if !is_at_hand(tables) {
        return None;
    }
    if !begin_first(tables) {
        return None;
    }
    let left = finish(tables, places);
    tables.age += 1;
    Some(left)
}

/// Performs the enqueuing of a chunk with all that comes of it, where the stream is the readable half of a transform
/// stream that can take it, and there are places for it. How many more jobs there are places for then. An error hands
/// the chunk back, and says that nothing was done.
#[inline(always)]
pub fn enqueue_at_hand(
    tables: &mut Tables,
    i: StreamId,
    chunk: Value,
    places: u32,
) -> Result<u32, Value>
    requires found { AreFound places tables.old }
    requires resting { IsResting tables.old }
    requires young { tables.old.age < 2 ^ 62 }
    ensures done { IfOk result (λ left. run.reply_to (call.Enqueue i chunk) (slots_of tables.old) ≡ Done) }
    ensures slots { IfOk result (λ left. slots_of tables.new
        ≡ run.after_call (call.Enqueue i chunk) (slots_of tables.old)) }
    ensures found { IfOk result (λ left. AreFound left tables.new) }
    ensures resting { IsResting tables.new }
    ensures age { tables.new.age ≤ tables.old.age + 1 }
    ensures handed_back { IfErr result (λ value. value ≡ chunk) }
    ensures untouched { OnErr result (tables.new ≡ tables.old) }
{
    if places == 0 {
        return Err(chunk);
    }
    if !is_at_hand(tables) {
        return Err(chunk);
    }
    let Some(t) = half_of(tables, i) else {
        return Err(chunk);
    };
    enqueue(tables, t, chunk);
    let left = finish(tables, places);
    tables.age += 1;
    Ok(left)
}
